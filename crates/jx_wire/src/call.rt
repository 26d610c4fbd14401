/// A place in a text, as the protocol has it: so many lines, and so many code units of the next one. Numbers above 2 to the 32
/// are that.
#[derive(Clone, Copy, Debug, PartialEq, Eq)]
pub struct Place {
    pub line: usize,
    pub character: usize,
}

/// A change of a document.
#[derive(Debug, Drop)]
pub enum Change {
    /// Other bytes stand in the place of all.
    Whole(Vec<u8>),
    /// Other bytes stand in the place of those between two positions of the text that the changes before it left.
    Range {
        start: Place,
        end: Place,
        text: Vec<u8>,
    },
    /// No bytes are known: the text has half of a surrogate pair without the other half.
    Unknown,
}

/// The name of a document.
#[derive(Debug, Drop)]
pub struct Uri {
    /// The name that it stands for, in UTF-8.
    pub name: Vec<u8>,
    /// Its bytes as the message has them, with the quotation marks.
    pub spelt: Vec<u8>,
}

/// A document that a message is about.
#[derive(Debug, Drop)]
pub struct Versioned {
    pub uri: Uri,
    /// The bytes of the version's number, if there is one.
    pub version: Option<Vec<u8>>,
}

/// The content of a document: one text, or JSON Lines.
#[derive(Clone, Copy, Debug, PartialEq, Eq)]
pub enum Content {
    /// One JSON text.
    Text,
    /// JSON Lines: each line a JSON text.
    Lines,
}

/// The capabilities that a client offers with `initialize`.
#[derive(Clone, Copy, Debug)]
pub struct Offer {
    /// Whether it can count columns in bytes.
    pub utf8: bool,
    /// How many containers may stand open at once, if it says.
    pub depth: Option<usize>,
    /// Whether a byte order mark in front of a text is ignored.
    pub ignore_bom: bool,
    /// Whether names have to be unique.
    pub unique_names: bool,
    /// Whether it can show symbols in symbols.
    pub nested: bool,
}

/// The call of a message.
#[derive(Debug, Drop)]
pub enum Call {
    Initialize(Offer),
    Shutdown,
    Exit,
    Open {
        document: Versioned,
        content: Content,
        text: Change,
    },
    Change {
        document: Versioned,
        changes: Vec<Change>,
    },
    Close(Uri),
    /// The value at a place of a document.
    Hover {
        uri: Uri,
        place: Place,
    },
    /// The values of a document.
    Symbols(Uri),
    /// The lines of a document that can be folded.
    Folds(Uri),
    /// The values and members around each of some places of a document.
    Selection {
        uri: Uri,
        places: Vec<Place>,
    },
    /// A request about a document, whose parameters are missing or of a wrong kind.
    WrongParameters,
    /// Nothing that this server knows.
    Other,
}

/// A message of the client. One with an id is a request, and has to be answered; one without is a notification.
#[derive(Debug, Drop)]
pub struct Request {
    /// The bytes of the id, a string or a number.
    pub id: Option<Vec<u8>>,
    pub call: Call,
}
