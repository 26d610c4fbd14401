// How far the reading of an input is, told to people on standard error.
use jx_command::ShowProgress;
use std::io::IsTerminal;
use std::time::Instant;

/// How many milliseconds lie between two lines at least.
const PAUSE: u64 = 100;

/// A megabyte.
const MEGA: u64 = 1_000_000;

/// The number of bytes that were read of an input, and since when.
#[derive(Drop)]
pub struct Watch<'r> {
    rt: &'r HostRuntime,
    /// The size of the input in bytes, where it is known.
    size: Option<u64>,
    read: u64,
    began: Instant,
    /// How many milliseconds were passed when a line was written.
    told: u64,
    /// Whether a line was written and not ended.
    is_open: bool,
}

/// Whether progress is shown.
fn is_told(rt: &HostRuntime, progress: ShowProgress) -> bool {
    match progress {
        ShowProgress::Auto => rt.stderr().is_terminal(),
        ShowProgress::Always => true,
        ShowProgress::Never => false,
    }
}

/// Watches an input of this size, if that is asked for. Without a clock nothing is shown.
pub fn watch_of(rt: &HostRuntime, progress: ShowProgress, size: Option<u64>) -> Option<Watch<'_>> {
    if !is_told(rt, progress) {
        return None;
    }
    let began = Instant::now(rt).ok()?;
    Some(Watch {
        rt,
        size,
        read: 0,
        began,
        told: 0,
        is_open: false,
    })
}

impl<'r> Watch<'r> {
    /// How many milliseconds have passed.
    fn passed(&self) -> u64 {
        match self.began.elapsed(self.rt) {
            Ok(passed) => {
                let millis = u64::from(passed.subsec_millis());
                passed.as_secs().saturating_mul(1000).saturating_add(millis)
            }
            Err(_) => self.told,
        }
    }

    /// Writes a line over the last one: how much was read, which share of all that is, and how fast.
    fn tell(&mut self, passed: u64) {
        let read = self.read / MEGA;
        let rate = self.read / passed.max(1) / 1000;
        let _ = match self.size {
            Some(size) => {
                let share = (self.read.saturating_mul(100) / size.max(1)).min(100);
                self.rt
                    .eprint(format_args!("\r{read} MB, {share} %, {rate} MB/s    "))
            }
            None => self.rt.eprint(format_args!("\r{read} MB, {rate} MB/s    ")),
        };
        self.told = passed;
        self.is_open = true;
    }

    /// Counts bytes that were read, and shows them, ten times a second at most.
    pub fn count(&mut self, bytes: usize) {
        self.read = self.read.saturating_add(bytes as u64);
        let passed = self.passed();
        if passed >= self.told.saturating_add(PAUSE) {
            self.tell(passed);
        }
    }

    /// Ends a line that was left open by a fault.
    pub fn leave(&self) {
        if self.is_open {
            let _ = self.rt.eprint("\n");
        }
    }

    /// Ends the line where nothing more is read.
    pub fn end(&mut self) {
        if self.is_open {
            let passed = self.passed();
            self.tell(passed);
            let _ = self.rt.eprint("\n");
            self.is_open = false;
        }
    }
}
