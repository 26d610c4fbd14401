// The replies that the server sends to the client.
use crate::hover::Hover;
use crate::line_mark::LineMarks;
use crate::mark::Mark;
use crate::selections::Selection;
use crate::symbols::Outline;
use jx_run::Refusal;

/// Why a request is answered by an error (JSON-RPC 2.0, section 5.1, and the protocol's own).
#[derive(Clone, Copy, Debug, PartialEq, Eq)]
pub enum Code {
    /// The body is no JSON text, or the stream of frames cannot be read on.
    ParseError,
    /// It is no request, or comes after `shutdown`.
    InvalidRequest,
    /// The server does not know the method.
    MethodNotFound,
    /// Its parameters are missing or of a wrong kind.
    InvalidParams,
    /// It comes before `initialize`.
    NotInitialized,
    /// An allocation failed.
    RequestFailed,
}

/// Why a notification was not followed.
#[derive(Clone, Copy, Debug, PartialEq, Eq)]
pub enum Trouble {
    /// Its parameters are missing or of a wrong kind.
    WrongParameters,
    /// The document is not open.
    NotOpen,
    /// The bytes that the client has are lost.
    Lost,
    /// An allocation failed.
    Memory,
}

/// A reply of the server to a message.
#[derive(Debug, Drop)]
pub enum Reply {
    Nothing,
    /// The answer to `initialize`.
    Initialized {
        id: Vec<u8>,
        utf8: bool,
    },
    /// The answer that says no more than that there is one.
    Null {
        id: Vec<u8>,
    },
    /// The value under a cursor.
    Hovered {
        id: Vec<u8>,
        hover: Hover,
    },
    /// The values of a document, whose name is written so. They are shown nested, or in one list.
    Outlined {
        id: Vec<u8>,
        uri: Vec<u8>,
        nested: bool,
        outline: Outline,
    },
    /// The values of a document, of which those over several lines can be folded.
    Folded {
        id: Vec<u8>,
        outline: Outline,
    },
    /// The ranges around places of a document, a list for each place.
    Selected {
        id: Vec<u8>,
        selections: Vec<Selection>,
    },
    /// An answer by an error. A body that is no JSON text has its refusal.
    Refused {
        id: Option<Vec<u8>>,
        code: Code,
        refusal: Option<Refusal>,
    },
    /// The verdict on a document of this version. An accepted one has no diagnostic.
    Published {
        uri: Vec<u8>,
        version: Option<Vec<u8>>,
        mark: Option<Mark>,
    },
    /// The diagnostics of a document of this version that is JSON Lines. An accepted line has none.
    PublishedLines {
        uri: Vec<u8>,
        version: Option<Vec<u8>>,
        marks: LineMarks,
    },
    /// That a document is closed: its diagnostics are removed.
    Closed {
        uri: Vec<u8>,
    },
    /// A line for the client's log.
    Logged {
        trouble: Trouble,
    },
}
