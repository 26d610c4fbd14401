use clap::error::ErrorKind;
use jx_command::ArgFault;
use jx_ends::ReportFault;
use jx_index::PointerFault;
use std::alloc::AllocError;
use thiserror::Error;

/// Why the program gave no answer. Each shows as one line, or as clap's text.
#[derive(Debug, Drop, Error)]
pub enum Fault {
    /// The words are wrong, or ask for help or the version.
    #[error("{0}")]
    Words(clap::Error),
    /// Standard input is named twice.
    #[error("error: the word '-' stands for standard input, which is read once\n")]
    StandardTwice,
    /// There is no such number of workers.
    #[error("error: invalid value '{0}' for '--workers <N>': N is auto, or 1 to 64\n")]
    Workers(String),
    /// No chunk of an index has so many bytes.
    #[error("error: invalid value for '--chunk <N>': N is no power of two\n")]
    Chunk,
    /// The word for no value would end a cell.
    #[error("error: invalid value for '--null <WORD>': WORD has a tab, a comma, a quotation mark or a line end\n")]
    Null,
    /// An argument that is no FILE is not in UTF-8, as clap puts it.
    #[error("error: invalid UTF-8 was detected in one or more arguments\n")]
    NotText,
    /// A string for a pointer is not one, and no line is read.
    #[error("jx: {0}: {1}\n")]
    Misspelt(String, PointerFault),
    /// An argument for a pointer is not one.
    #[error("jx: {0}: {1}: the first word is a pointer, and FILE the second\n")]
    Pointer(String, PointerFault),
    #[error("jx: out of memory\n")]
    Memory(#[from(alloc)] AllocError),
    #[error("{0}\n")]
    Report(ReportFault),
    /// A write of the output failed, for this reason.
    #[error("jx: write failed{0}\n")]
    Write(&'static str),
    /// A report has nowhere to go. That was reported already, or cannot be.
    #[error("")]
    ReportLost,
    /// A run is to be written to a terminal.
    #[error("jx: a run is not written to a terminal: write it to a file or a pipe\n")]
    Terminal,
    /// An index is to be written to a terminal.
    #[error("jx: an index is not written to a terminal: write it to a file or a pipe\n")]
    TerminalForIndex,
    /// A fault of an input that was reported already.
    #[error("")]
    Told,
    /// The reader of the output has gone, and there is nothing to report.
    #[error("")]
    Closed,
}

impl Fault {
    /// Whether it is no fault, but what the words ask for: the version, which goes to standard output.
    pub fn is_version(&self) -> bool {
        match self {
            Fault::Words(error) => error.kind() == ErrorKind::DisplayVersion,
            _ => false,
        }
    }

    /// The fault of words that are no command.
    pub fn of_arguments(fault: ArgFault) -> Fault {
        match fault {
            ArgFault::Clap(error) => Fault::Words(error),
            ArgFault::StandardTwice => Fault::StandardTwice,
            ArgFault::Workers(word) => Fault::Workers(word),
            ArgFault::Chunk => Fault::Chunk,
            ArgFault::Null => Fault::Null,
            ArgFault::Memory => Fault::Memory(AllocError),
        }
    }
}
