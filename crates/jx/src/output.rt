// Writers: the ends of output.
use crate::fault::Fault;
use jx_ends::{End, write_whole};
use std::fs::File;
use std::io;
use std::io::{Stderr, Stdout, Write};

/// Where bytes go.
#[derive(Drop)]
enum Outlet {
    Standard(Stdout),
    Errors(Stderr),
    File(File),
}

/// An output, whether it ends a line or has none, whether its reader has gone, and the words for why the last write failed, if
/// it failed.
#[derive(Drop)]
pub struct Output {
    outlet: Outlet,
    pub ends_line: bool,
    pub is_closed: bool,
    pub why: &'static str,
}

/// The reason for which a write failed, as the C library puts it, with a colon and a space in front; nothing where that is not told.
pub fn reason_of(error: &io::Error) -> &'static str {
    match error.raw_os_error() {
        Some(5) => ": Input/output error",
        Some(9) => ": Bad file descriptor",
        Some(27) => ": File too large",
        Some(28) => ": No space left on device",
        Some(122) => ": Disk quota exceeded",
        _ => "",
    }
}

impl Output {
    fn to(outlet: Outlet) -> Output {
        Output {
            outlet,
            ends_line: true,
            is_closed: false,
            why: "",
        }
    }

    /// The writer of standard output, to which nothing was written.
    pub fn of(rt: &HostRuntime) -> Output {
        Output::to(Outlet::Standard(rt.stdout()))
    }

    /// The writer of standard error.
    pub fn of_errors(rt: &HostRuntime) -> Output {
        Output::to(Outlet::Errors(rt.stderr()))
    }

    /// A file that is open for writing.
    pub fn of_file(file: File) -> Output {
        Output::to(Outlet::File(file))
    }
}

impl Write for Output {
    fn write(&mut self, buf: &[u8]) -> io::Result<usize> {
        let result = match &mut self.outlet {
            Outlet::Standard(stdout) => stdout.write(buf),
            Outlet::Errors(stderr) => stderr.write(buf),
            Outlet::File(file) => file.write(buf),
        };
        match &result {
            Ok(count) => {
                if *count > 0 {
                    self.ends_line = matches!(buf.get(*count - 1), Some(b'\n'));
                }
            }
            Err(error) => {
                self.is_closed = matches!(error.kind(), io::ErrorKind::BrokenPipe);
                self.why = reason_of(error);
            }
        }
        result
    }

    fn flush(&mut self) -> io::Result<()> {
        match &mut self.outlet {
            Outlet::Standard(stdout) => stdout.flush(),
            Outlet::Errors(stderr) => stderr.flush(),
            Outlet::File(file) => file.flush(),
        }
    }
}

/// Where a report writes to.
pub type Writer = End<Output>;

/// The fault of the output. Where its reader has gone, there is nothing to report.
pub fn fault_of_write(writer: &Writer) -> Fault {
    if writer.inner.is_closed {
        Fault::Closed
    } else {
        Fault::Write(writer.inner.why)
    }
}

/// Writes all of these bytes.
pub fn write_out(rt: &HostRuntime, bytes: &[u8]) -> Result<(), Fault> {
    let mut writer = End::new(Output::of(rt));
    match write_whole(&mut writer, bytes) {
        Ok(()) => Ok(()),
        Err(_) => Err(fault_of_write(&writer)),
    }
}
