//! Texts that several tests read, and the answers on them.
use jx_lex::{Depth, Kind};
use jx_run::{FrontMark, NameRule, Refusal, Settings};

/// Settings by which this becomes of a byte order mark and of names.
pub fn settings(depth: Depth, mark: FrontMark, names: NameRule) -> Settings {
    Settings { depth, mark, names }
}

/// Three arrays, each in the one before.
pub const NESTED: &[u8] = b"[[[]]]";

/// A text of five rows.
pub const FIVE_ROWS: &[u8] = b"{\"a\":[1,{\"b\":2}]}";

/// A name that is repeated by an escape.
pub const REPEATED: &[u8] = b"{\"a\":1,\"\\u0061\":2}";

/// Names that don't stand in their order.
pub const UNSORTED: &[u8] = b"{\"b\":1,\"a\":2,\"b\":3}";

/// Names whose order by code units is not that of their characters.
pub const WIDE: &[u8] = b"{\"\xEF\xBD\x9E\":1,\"\xF0\x9F\x98\x80\":2}";

/// A sequence with an element that may be cut, two separators in a row, and an element that ends too early.
pub const SEQUENCE: &[u8] = b"\x1Etrue\n\x1Etrue\x1E\x1E[1\n";

/// A sequence whose one element repeats a name.
pub const REPEATED_SEQUENCE: &[u8] = b"\x1E{\"a\":1,\"\\u0061\":2}\n";

/// A row: its kind, its span, the number of its parent, its place among its siblings, and the span of its name.
pub type WorkedRow = (
    Kind,
    (usize, usize),
    Option<usize>,
    usize,
    Option<(usize, usize)>,
);

/// A text, and the answer on it within a depth where names may be repeated: its rows, as offsets after the byte order mark of
/// so many bytes in front of it, or its refusal. Where names have to be unique it is refused for the first one that an object
/// repeats, which begins there after the byte order mark.
#[derive(Clone, Copy, Debug)]
pub struct Worked {
    pub text: &'static [u8],
    pub front: usize,
    pub containers: u32,
    pub answer: Result<&'static [WorkedRow], Refusal>,
    pub repeated: Option<usize>,
}

/// The rows of the three arrays.
pub const NESTED_ARRAYS: Worked = Worked {
    text: NESTED,
    front: 0,
    containers: 512,
    answer: Ok(&[
        (Kind::Array, (0, 6), None, 0, None),
        (Kind::Array, (1, 5), Some(0), 0, None),
        (Kind::Array, (2, 4), Some(1), 0, None),
    ]),
    repeated: None,
};

/// The same arrays within a depth of two.
pub const TOO_DEEP: Worked = Worked {
    text: NESTED,
    front: 0,
    containers: 2,
    answer: Err(Refusal::TooDeep { at: 2 }),
    repeated: None,
};

/// The five rows.
pub const ROWS_OF_FIVE: [WorkedRow; 5] = [
    (Kind::Object, (0, 17), None, 0, None),
    (Kind::Array, (5, 16), Some(0), 0, Some((1, 4))),
    (Kind::Number, (6, 7), Some(1), 0, None),
    (Kind::Object, (8, 15), Some(1), 1, None),
    (Kind::Number, (13, 14), Some(3), 0, Some((9, 12))),
];

/// The text of five rows.
pub const FIVE: Worked = Worked {
    text: FIVE_ROWS,
    front: 0,
    containers: 512,
    answer: Ok(&ROWS_OF_FIVE),
    repeated: None,
};

/// The rows of the object that repeats a name by an escape.
pub const ROWS_OF_REPEATED: [WorkedRow; 3] = [
    (Kind::Object, (0, 18), None, 0, None),
    (Kind::Number, (5, 6), Some(0), 0, Some((1, 4))),
    (Kind::Number, (16, 17), Some(0), 1, Some((7, 15))),
];

/// The object that repeats a name by an escape.
pub const REPEATED_NAME: Worked = Worked {
    text: REPEATED,
    front: 0,
    containers: 512,
    answer: Ok(&ROWS_OF_REPEATED),
    repeated: Some(7),
};

/// The object whose names don't stand in their order.
pub const UNSORTED_NAMES: Worked = Worked {
    text: UNSORTED,
    front: 0,
    containers: 512,
    answer: Ok(&[
        (Kind::Object, (0, 19), None, 0, None),
        (Kind::Number, (5, 6), Some(0), 0, Some((1, 4))),
        (Kind::Number, (11, 12), Some(0), 1, Some((7, 10))),
        (Kind::Number, (17, 18), Some(0), 2, Some((13, 16))),
    ]),
    repeated: Some(13),
};

/// The object of names in two planes.
pub const WIDE_NAMES: Worked = Worked {
    text: WIDE,
    front: 0,
    containers: 512,
    answer: Ok(&[
        (Kind::Object, (0, 18), None, 0, None),
        (Kind::Number, (7, 8), Some(0), 0, Some((1, 6))),
        (Kind::Number, (16, 17), Some(0), 1, Some((9, 15))),
    ]),
    repeated: None,
};

/// Texts without a byte order mark.
pub const TEXTS: [Worked; 6] = [
    NESTED_ARRAYS,
    TOO_DEEP,
    FIVE,
    REPEATED_NAME,
    UNSORTED_NAMES,
    WIDE_NAMES,
];
