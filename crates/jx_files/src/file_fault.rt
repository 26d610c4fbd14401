ghost use Rattle.std.specs.Prelude.{◌≡◌};
ghost use Rattle.jx_files.specs.Faults.{fault_head, fault_reason, fault_tail};

use crate::reason::Reason;

/// Why there is no answer for what a word names.
#[derive(Clone, Copy, Debug, PartialEq, Eq)]
pub enum FileFault {
    /// It is a folder.
    Folder,
    /// The system does not open it.
    Open(Reason),
    /// A read of it failed.
    Read(Reason),
    /// An allocation failed.
    Memory,
    /// It has more than 4,294,967,295 chunks.
    Pieces,
    /// It stands where a pointer should, and begins with no slash (RFC 6901, section 3).
    NoPointer,
    /// It is the only argument of a command that takes a pointer and a file, and could be both.
    PointerOrFile,
}

impl FileFault {
    /// The first words of the message.
    pub(crate) fn head(self) -> &'static str
        ensures { result.now ≡ fault_head self }
    {
        match self {
            FileFault::Folder => "is a directory",
            FileFault::Open(_) => "cannot open",
            FileFault::Read(_) => "read failed",
            FileFault::Memory => "out of memory",
            FileFault::Pieces => "too many pieces",
            FileFault::NoPointer => "no slash: a FILE stands behind --file",
            FileFault::PointerOrFile => "names a file: write '' FILE, or POINTER FILE",
        }
    }

    /// The reason after that, with a colon and a space in front; nothing where there is none.
    pub(crate) fn tail(self) -> &'static str
        ensures { result.now ≡ fault_tail (fault_reason self) }
    {
        match self {
            FileFault::Open(reason) | FileFault::Read(reason) => reason.told(),
            FileFault::Folder | FileFault::Memory | FileFault::Pieces => "",
            FileFault::NoPointer | FileFault::PointerOrFile => "",
        }
    }
}
