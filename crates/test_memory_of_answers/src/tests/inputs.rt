// Inputs that several tests read, and the answers on them.
use crate::tests::answers::{Told, ToldElement};
use jx_lex::Kind;
use jx_run::{FrontMark, NameRule, Refusal};
use test_memory_of_runs::inputs::{
    FIVE_ROWS, NESTED, REPEATED, REPEATED_SEQUENCE, ROWS_OF_FIVE, ROWS_OF_REPEATED, SEQUENCE,
    UNSORTED, WIDE, Worked, WorkedRow,
};

/// Both things that may become of a byte order mark.
pub const MARKS: [FrontMark; 2] = [FrontMark::Refused, FrontMark::Ignored];

/// Both rules for names.
pub const RULES: [NameRule; 2] = [NameRule::Any, NameRule::Unique];

/// The text of five rows after a byte order mark.
pub const MARKED_FIVE_ROWS: &[u8] = b"\xEF\xBB\xBF{\"a\":[1,{\"b\":2}]}";

pub const MARKED_FIVE: Worked = Worked {
    text: MARKED_FIVE_ROWS,
    front: 3,
    containers: 512,
    answer: Ok(&ROWS_OF_FIVE),
    repeated: None,
};

/// A repeated name after a byte order mark.
pub const MARKED_REPEATED: Worked = Worked {
    text: b"\xEF\xBB\xBF{\"a\":1,\"\\u0061\":2}",
    front: 3,
    containers: 512,
    answer: Ok(&ROWS_OF_REPEATED),
    repeated: Some(7),
};

/// Texts after a byte order mark, which is to be ignored.
pub const MARKED_TEXTS: [Worked; 2] = [MARKED_FIVE, MARKED_REPEATED];

/// A sequence with the answers on its elements.
pub type WorkedSequence = (&'static [u8], &'static [ToldElement]);

const TRUNCATED: Told = Told::Refused(Refusal::Truncated);

const STOPPED_AT_4: Told = Told::Refused(Refusal::Stopped { at: 4 });

/// The answers on the elements of the sequence.
pub const ELEMENTS: [ToldElement; 3] = [
    (1, 6, Told::Accepted(&[(Kind::True, (1, 5), None, 0, None)])),
    (7, 11, Told::MayBeCut),
    (13, 16, TRUNCATED),
];

// The same sequence after a byte order mark.
const MARKED_SEQUENCE: &[u8] = b"\xEF\xBB\xBF\x1Etrue\n\x1Etrue\x1E\x1E[1\n";

const REFUSED_MARK: ToldElement = (0, 3, Told::Unmarked);

const BEHIND_REFUSED_MARK: [ToldElement; 4] = [
    REFUSED_MARK,
    (4, 9, Told::Accepted(&[(Kind::True, (4, 8), None, 0, None)])),
    (10, 14, Told::MayBeCut),
    (16, 19, TRUNCATED),
];

const BEHIND_IGNORED_MARK: [ToldElement; 3] = [
    (4, 9, Told::Accepted(&[(Kind::True, (4, 8), None, 0, None)])),
    (10, 14, Told::MayBeCut),
    (16, 19, TRUNCATED),
];

/// A sequence of one number after a byte order mark.
pub const MARKED_NUMBER: &[u8] = b"\xEF\xBB\xBF\x1E1\n";

const NUMBER: ToldElement = (
    4,
    6,
    Told::Accepted(&[(Kind::Number, (4, 5), None, 0, None)]),
);

/// The answer on the number where the byte order mark is ignored.
pub const NUMBER_ALONE: [ToldElement; 1] = [NUMBER];

const ARRAY_ROWS: [WorkedRow; 2] = [
    (Kind::Array, (1, 4), None, 0, None),
    (Kind::Number, (2, 3), Some(0), 0, None),
];

// Sequences with the answers on their elements, which are the same by all settings.
const SEQUENCES: [WorkedSequence; 8] = [
    (SEQUENCE, &ELEMENTS),
    (
        b"1\n\x1E2\n",
        &[
            (0, 2, Told::Unmarked),
            (
                3,
                5,
                Told::Accepted(&[(Kind::Number, (3, 4), None, 0, None)]),
            ),
        ],
    ),
    (
        b"\x1E\"a\"",
        &[(
            1,
            4,
            Told::Accepted(&[(Kind::String, (1, 4), None, 0, None)]),
        )],
    ),
    (
        b"\x1E1 \x1E]\n",
        &[
            (
                1,
                3,
                Told::Accepted(&[(Kind::Number, (1, 2), None, 0, None)]),
            ),
            (4, 6, STOPPED_AT_4),
        ],
    ),
    (
        b"\x1E\"a\x1Eb\"",
        &[(1, 3, TRUNCATED), (4, 6, STOPPED_AT_4)],
    ),
    (b"\x1E\n\x1E", &[(1, 2, TRUNCATED)]),
    (b"1\n", &[(0, 2, Told::Unmarked)]),
    (b"\x1E[1]", &[(1, 4, Told::Accepted(&ARRAY_ROWS))]),
];

const ROWS_OF_ELEMENT: [WorkedRow; 3] = [
    (Kind::Object, (1, 19), None, 0, None),
    (Kind::Number, (6, 7), Some(0), 0, Some((2, 5))),
    (Kind::Number, (17, 18), Some(0), 1, Some((8, 16))),
];

const ANY_NAMES: [ToldElement; 1] = [(1, 20, Told::Accepted(&ROWS_OF_ELEMENT))];

/// The answer on the sequence that repeats a name, where names have to be unique.
pub const UNIQUE_NAMES: [ToldElement; 1] = [(
    1,
    20,
    Told::Refused(Refusal::RepeatedName { at: 8 }),
)];

const BEHIND_REFUSED: [WorkedSequence; 2] = [
    (MARKED_SEQUENCE, &BEHIND_REFUSED_MARK),
    (MARKED_NUMBER, &[REFUSED_MARK, NUMBER]),
];

const BEHIND_IGNORED: [WorkedSequence; 2] = [
    (MARKED_SEQUENCE, &BEHIND_IGNORED_MARK),
    (MARKED_NUMBER, &NUMBER_ALONE),
];

// A sequence that repeats a name, where any names may stand, and where they have to be unique.
const REPEATED_ANY: [WorkedSequence; 1] = [(REPEATED_SEQUENCE, &ANY_NAMES)];

const REPEATED_UNIQUE: [WorkedSequence; 1] = [(REPEATED_SEQUENCE, &UNIQUE_NAMES)];

/// Rules on a byte order mark and rules on names, and sequences that are read by each pair of both.
pub type Settled = (
    &'static [FrontMark],
    &'static [NameRule],
    &'static [WorkedSequence],
);

/// Sequences by all settings. A table stands in the frame of each function that names it, so let that do no more than hand it on.
pub const SETTLED_SEQUENCES: [Settled; 5] = [
    (&MARKS, &RULES, &SEQUENCES),
    (&[FrontMark::Refused], &RULES, &BEHIND_REFUSED),
    (&[FrontMark::Ignored], &RULES, &BEHIND_IGNORED),
    (&MARKS, &[NameRule::Any], &REPEATED_ANY),
    (&MARKS, &[NameRule::Unique], &REPEATED_UNIQUE),
];

/// Worked texts of at most 24 bytes.
pub const SHORT: [&[u8]; 50] = [
    b"",
    b"null",
    b"12",
    b"-",
    b"-x",
    b"01",
    b"1e+",
    b"1.x",
    b"\x22\xC3\xA9\x22",
    b"{\"\\uD83D\\uDE00\":1}",
    b"\x22\xED\xA0\x80\x22",
    b"\x22\x0A\x22",
    b"{trx",
    b"{tr",
    b"tru",
    b"nul1",
    b"[1,]",
    b"1]",
    b"]",
    b"[1 2]",
    b"[1]",
    b"[1,2]",
    b"{\"a\":1]",
    b"{} {}",
    NESTED,
    FIVE_ROWS,
    REPEATED,
    UNSORTED,
    b"{\"a/b\":1,\"m~n\":8,\"\":0}",
    WIDE,
    b"[10,20]",
    b"{\"a\":1,2]",
    b"1[",
    b"[\"\\uD800\"]",
    b"\"\\u0041\"",
    b"\xEF\xBB\xBF1",
    b"\xEF",
    b"\xEF\xBB",
    b"\xEF\xBB\xBF",
    b"\xEF1",
    b"\xEF\xBB1",
    b"\xEF\xBB\xBF\xEF\xBB\xBF1",
    b"\x20\xEF\xBB\xBF1",
    b"\x22\xEF\xBB\xBF\x22",
    b"\xEF\xBB\xBF[1]",
    b"{\"a\":{\"b\":1},\"b\":2}",
    b"{\"\\uD800\":1,\"\\ud800\":2}",
    b"{\"a\":1,\"a\":2",
    b"{\"a\":1,\"a\":2]",
    b"\xEF\xBB\xBF{\"a\":1,\"\\u0061\":2}",
];
