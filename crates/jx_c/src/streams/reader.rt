// A text that C feeds slice by slice: the reader of `jx_run` in numbers, over a stack of a fixed size.
ghost use Rattle.std.specs.Prelude.{◌≡◌, ◌⊎◌, ◌++◌, ◌≤◌, ◌<◌, ◌+◌, ◌^◌, ℕ, List, [], OnOk, length};
ghost use Rattle.jx_run.specs.ReaderInside.{IsCut};
ghost use Rattle.jx_run.specs.Settings.{JudgedBy};
ghost use Rattle.jx_run.specs.declared.texts.settings.NameRule.TheVariants.{Any};
ghost use Rattle.jx_run.specs.declared.texts.settings.Settings.{Settings};
ghost use Rattle.jx_c.specs.Reader.{HasRead, progress_in};
ghost use Rattle.jx_c.specs.Settings.{settings_in};
ghost use Rattle.jx_c.specs.Verdict.{IsVerdictOn};

use crate::shapes::settings::{JxSettings, settings_in};
use crate::shapes::status::{
    DEPTH_TOO_GREAT, NO_MEMORY, NO_UNIQUE_NAMES, NOT_STARTED, OK, TOO_MANY_BYTES, UNKNOWN_FLAG,
};
use crate::shapes::verdict::{JxVerdict, shown};
use crate::streams::stack::JxStack;
use crate::streams::states::{number_of, state_at};
use jx_index::repeated_name_by_rows;
use jx_run::{
    NameRule, OpenStack, Progress, Settings, Verdict, progress_at_start, read_on, verdict_at,
};
use std::alloc::AllocError;

/// The value in a reader that was started: the letters "jxreader".
const STARTED: u64 = 0x6A78_7265_6164_6572;

const GOING: u32 = 0;

const STOPPED: u32 = 1;

const TOO_DEEP: u32 = 2;

const FRONT: u32 = 3;

const FAILED: u32 = 4;

/// A text that is read from its start: fed by slices one after another, it has the verdict on all their bytes at any
/// moment. It takes no memory. Each of its fields may hold any number.
#[repr(C)]
#[derive(Drop)]
pub struct JxReader {
    /// Differs in a reader that was started and one that was not.
    pub started: u64,
    /// How many bytes it was fed.
    pub count: usize,
    /// The offset of the fault, or how many bytes of a byte order mark it was fed.
    pub at: usize,
    /// How far it is: 0 while there is no fault, 1 where it stopped, 2 where it is too deep, 3 while a byte order mark
    /// may yet be ignored.
    pub progress: u32,
    /// The lexical state, by its number among all.
    pub state: u32,
    pub stack: JxStack,
}

impl JxReader {
    /// A reader at the start of a text by settings.
    pub fn new(settings: &Settings) -> JxReader
        ensures { HasRead settings.now [] result }
    {
        let mut reader = JxReader {
            started: STARTED,
            count: 0,
            at: 0,
            progress: GOING,
            state: 0,
            stack: JxStack::new(settings.depth.containers() as u16),
        };
        reader.set_progress(progress_at_start(settings.mark));
        reader
    }

    /// Begins a text by settings, whatever stood in the reader.
    fn start(&mut self, settings: &Settings)
        ensures { HasRead settings.now [] self.new }
    {
        self.started = STARTED;
        self.count = 0;
        self.stack.start(settings.depth.containers() as u16);
        self.set_progress(progress_at_start(settings.mark));
    }

    /// How far it is.
    fn progress(&self) -> Progress
        ensures progress { result ≡ progress_in self.now }
        ensures cut { IsCut result }
    {
        if self.progress == GOING {
            Progress::Going(state_at(self.state))
        } else if self.progress == STOPPED {
            Progress::Stopped(self.at)
        } else if self.progress == TOO_DEEP {
            Progress::TooDeep(self.at)
        } else if self.progress == FRONT {
            Progress::Front(self.at % 3)
        } else {
            Progress::Failed
        }
    }

    /// Keeps how far it is.
    fn set_progress(&mut self, progress: Progress)
        requires { IsCut progress }
        ensures progress { progress_in self.new ≡ progress }
        ensures stack { self.new.stack ≡ self.old.stack }
        ensures started { self.new.started ≡ self.old.started }
        ensures count { self.new.count ≡ self.old.count }
    {
        match progress {
            Progress::Going(state) => {
                self.progress = GOING;
                self.state = number_of(state);
            }
            Progress::Stopped(at) => {
                self.progress = STOPPED;
                self.at = at;
            }
            Progress::TooDeep(at) => {
                self.progress = TOO_DEEP;
                self.at = at;
            }
            Progress::Front(count) => {
                self.progress = FRONT;
                self.at = count;
            }
            Progress::Failed => self.progress = FAILED,
        }
    }

    /// Reads the slice after all bytes that it was fed. Nothing refuses memory.
    pub fn feed(&mut self, slice: &[u8]) -> Result<(), AllocError>
        requires fits { self.old.count + length slice.now < 2 ^ 64 }
        ensures { OnOk result ((settings : Settings) (fed : List ℕ) → HasRead settings fed self.old → HasRead settings (fed ++ slice.now) self.new) }
    {
        let progress = self.progress();
        if matches!(progress, Progress::Failed) {
            // Numbers that C wrote: no reader of bytes has them. What it is fed is counted.
            self.count += slice.len();
            return Ok(());
        }
        let next = read_on(&mut self.stack, progress, slice, self.count)?;
        self.set_progress(next);
        self.count += slice.len();
        Ok(())
    }

    /// The verdict on the bytes that it was fed, as a whole text, whatever names its objects have.
    pub fn verdict(&self) -> Verdict
        ensures { (settings : Settings) (fed : List ℕ) → HasRead settings fed self.now → JudgedBy settings 0 fed result }
    {
        verdict_at(self.progress(), self.stack.whole())
    }
}

/// Begins a text by settings, whatever stood in the reader: at most so many containers may be open at once (RFC 8259, section 9),
/// and a byte order mark may be ignored (section 8.1). A reader keeps no names, so it can't be asked for unique ones.
#[unsafe(no_mangle)]
pub extern "C" fn jx_reader_start_non_null(reader: &mut JxReader, settings: &JxSettings) -> u32
    ensures started { settings.now.depth ≤ 65535 → settings.now.flags ≤ 1 → (result ≡ OK) × HasRead (settings_in settings.now) [] reader.new }
    ensures depth { 65535 < settings.now.depth → (result ≡ DEPTH_TOO_GREAT) × (reader.new ≡ reader.old) }
    ensures flags { settings.now.depth ≤ 65535 → 3 < settings.now.flags → (result ≡ UNKNOWN_FLAG) × (reader.new ≡ reader.old) }
    ensures names { settings.now.depth ≤ 65535 → 1 < settings.now.flags → settings.now.flags ≤ 3 → (result ≡ NO_UNIQUE_NAMES) × (reader.new ≡ reader.old) }
{
    let asked = match settings_in(settings) {
        Ok(asked) => asked,
        Err(status) => return status,
    };
    if asked.names == NameRule::Unique {
        return NO_UNIQUE_NAMES;
    }
    reader.start(&asked);
    OK
}

/// Reads the bytes after all that the reader was fed.
#[unsafe(no_mangle)]
pub extern "C" fn jx_reader_feed(reader: &mut JxReader, bytes: &[u8]) -> u32
    ensures reads { result ≡ OK → (settings : Settings) (fed : List ℕ) → HasRead settings fed reader.old → HasRead settings (fed ++ bytes.now) reader.new }
    ensures not_started { (reader.old.started ≡ STARTED → ⊥) → (result ≡ NOT_STARTED) × (reader.new ≡ reader.old) }
    ensures status { reader.old.started ≡ STARTED → reader.old.count + length bytes.now < 2 ^ 64 → (result ≡ OK) ⊎ ((result ≡ NO_MEMORY) × (reader.new.started ≡ 0)) }
    ensures too_many { reader.old.started ≡ STARTED → 2 ^ 64 ≤ reader.old.count + length bytes.now → (result ≡ TOO_MANY_BYTES) × (reader.new ≡ reader.old) }
{
    if reader.started != STARTED {
        return NOT_STARTED;
    }
    if bytes.len() > usize::MAX - reader.count {
        return TOO_MANY_BYTES;
    }
    match reader.feed(bytes) {
        Ok(()) => OK,
        Err(AllocError) => {
            reader.started = 0;
            NO_MEMORY
        }
    }
}

/// The verdict on the bytes that the reader was fed, as a whole text (RFC 8259). The reader may be fed on.
#[unsafe(no_mangle)]
pub extern "C" fn jx_reader_verdict(reader: &JxReader, verdict: &mut JxVerdict) -> u32
    ensures judged { result ≡ OK → (settings : Settings) (fed : List ℕ) → settings.names ≡ Any → HasRead settings fed reader.now → IsVerdictOn settings fed verdict.new }
    ensures started { reader.now.started ≡ STARTED → result ≡ OK }
    ensures not_started { (reader.now.started ≡ STARTED → ⊥) → (result ≡ NOT_STARTED) × (verdict.new ≡ verdict.old) }
{
    if reader.started != STARTED {
        return NOT_STARTED;
    }
    repeated_name_by_rows();
    *verdict = shown(reader.verdict());
    OK
}
