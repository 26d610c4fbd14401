// The answers of a call to C.

/// The call did what it is for.
pub const OK: u32 = 0;

/// An allocation failed.
pub const NO_MEMORY: u32 = 1;

/// The depth is above 65,535.
pub const DEPTH_TOO_GREAT: u32 = 2;

/// The reader was not started.
pub const NOT_STARTED: u32 = 3;

/// With these bytes the reader would have been fed more bytes than 64 bits can count, or a part would end at 2^64 or after.
pub const TOO_MANY_BYTES: u32 = 4;

/// The settings have an unknown flag.
pub const UNKNOWN_FLAG: u32 = 5;

/// The settings ask for unique names, and a reader or a document keeps none.
pub const NO_UNIQUE_NAMES: u32 = 6;

/// The range ends before it starts, or after the document's last byte; or there is no row with the number.
pub const OUT_OF_BOUNDS: u32 = 7;

/// The struct holds no document.
pub const NO_DOCUMENT: u32 = 8;

/// The struct holds no index. 9 is for null pointers, which the C header answers.
pub const NO_INDEX: u32 = 10;

/// The run has more bytes than the buffer.
pub const NO_ROOM: u32 = 11;

/// The bytes are no run.
pub const NOT_A_RUN: u32 = 12;

/// The runs were made with different depths.
pub const OTHER_DEPTH: u32 = 13;

/// The right run does not begin where the left one ends, or the run is of other bytes.
pub const NOT_NEIGHBOURS: u32 = 14;

/// The struct holds no reader of lines.
pub const NO_LINES: u32 = 15;

/// The struct holds no look-up.
pub const NO_FINDER: u32 = 17;

/// The struct holds no stream of values.
pub const NO_VALUES: u32 = 18;

/// The bytes are not a pointer (RFC 6901, section 3).
pub const NOT_A_POINTER: u32 = 19;

/// The bytes do not begin as a saved index does.
pub const NOT_SAVED: u32 = 20;

/// The saved index is of another version of the format.
pub const OTHER_VERSION: u32 = 21;

/// The bytes of the saved index end too early.
pub const CUT_SHORT: u32 = 22;

/// The saved index is not that of any text.
pub const DAMAGED: u32 = 23;

/// A field of the saved index has a value that no index has.
pub const MALFORMED: u32 = 24;

/// Bytes follow the saved index.
pub const MORE_BYTES: u32 = 25;

/// The saved index is of a text of another size.
pub const OTHER_SIZE: u32 = 26;

/// The bytes of a chunk are not those of the text that was indexed.
pub const CHANGED: u32 = 27;

/// The struct holds no saved index.
pub const NO_SAVED: u32 = 28;

/// The struct has no saver.
pub const NO_SAVE: u32 = 29;

/// A chunk cannot have so many bytes.
pub const NOT_A_CHUNK: u32 = 30;

/// Bytes are needed first.
pub const MORE_NEEDED: u32 = 31;

/// No look-up and no split was begun, or the text has ended.
pub const NOT_BEGUN: u32 = 32;

/// The struct holds no shelf. 33 is for what fails in the C header.
pub const NO_SHELF: u32 = 34;

/// Another index stands on the shelf.
pub const TAKEN: u32 = 35;

/// The verdict does not refuse a text.
pub const NOT_REFUSED: u32 = 36;
