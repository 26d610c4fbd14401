ghost use Rattle.std.specs.Prelude.{◌≡◌};
ghost use Rattle.jx_files.specs.Faults.{fault_tail, reason_at};

use std::io;

/// Why the system does not open a file or does not read it, as far as it has a message here.
#[derive(Clone, Copy, Debug, PartialEq, Eq)]
pub enum Reason {
    NotPermitted,
    NoFile,
    InputOutput,
    NoDevice,
    Denied,
    Busy,
    NoFolder,
    Folder,
    Invalid,
    TooManyOpen,
    NameTooLong,
    Loop,
    Stale,
    /// Any other, which has no message here.
    Other,
}

/// The reason that stands for an error number of Linux.
fn reason_at(number: u32) -> Reason
    ensures { result ≡ reason_at number }
{
    match number {
        1 => Reason::NotPermitted,
        2 => Reason::NoFile,
        5 => Reason::InputOutput,
        6 => Reason::NoDevice,
        13 => Reason::Denied,
        16 => Reason::Busy,
        20 => Reason::NoFolder,
        21 => Reason::Folder,
        22 => Reason::Invalid,
        24 => Reason::TooManyOpen,
        36 => Reason::NameTooLong,
        40 => Reason::Loop,
        116 => Reason::Stale,
        _ => Reason::Other,
    }
}

impl Reason {
    /// The reason that an error of the system gives.
    pub fn of(error: &io::Error) -> Reason {
        match error.raw_os_error() {
            Some(number) => reason_at(number.unsigned_abs()),
            None => Reason::Other,
        }
    }

    /// Its message, as the C library has it, with a colon and a space in front.
    pub(crate) fn told(self) -> &'static str
        ensures { result.now ≡ fault_tail self }
    {
        match self {
            Reason::NotPermitted => ": Operation not permitted",
            Reason::NoFile => ": No such file or directory",
            Reason::InputOutput => ": Input/output error",
            Reason::NoDevice => ": No such device or address",
            Reason::Denied => ": Permission denied",
            Reason::Busy => ": Device or resource busy",
            Reason::NoFolder => ": Not a directory",
            Reason::Folder => ": Is a directory",
            Reason::Invalid => ": Invalid argument",
            Reason::TooManyOpen => ": Too many open files",
            Reason::NameTooLong => ": File name too long",
            Reason::Loop => ": Too many levels of symbolic links",
            Reason::Stale => ": Stale file handle",
            Reason::Other => "",
        }
    }
}
