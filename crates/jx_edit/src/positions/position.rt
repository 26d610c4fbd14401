// Where lines and characters stand in bytes.
ghost use Rattle.std.specs.Prelude.{◌≡◌, ◌≤◌, ◌<◌, ◌+◌, ◌*◌, ◌^◌, IfSome, count_by, length, sum_by, take};
ghost use Rattle.jx_edit.specs.inside.Moves.{is_feed, joined};
ghost use Rattle.jx_edit.specs.Positions.{first, is_behind, past, position_behind, reach, units};

use crate::positions::encoding::Encoding;
use memchr::memrchr;

/// A place between two characters of a text (Language Server Protocol 3.17, "Position").
#[derive(Clone, Copy, Debug, PartialEq, Eq)]
pub struct Position {
    /// The line, counted from 0. A line feed ends a line.
    pub line: usize,
    /// How many units of its line are before it. A carriage return is a unit.
    pub character: usize,
}

/// How many bytes come before a position, and the position after them.
#[derive(Clone, Copy)]
pub(crate) struct Reached {
    pub(crate) count: usize,
    pub(crate) position: Position,
}

/// How many units a byte adds to its line.
fn units(byte: u8, encoding: Encoding) -> usize
    ensures value { result ≡ units encoding byte }
    ensures few { result ≤ 2 }
{
    match encoding {
        Encoding::Utf8 => 1,
        Encoding::Utf16 => match byte {
            0x80..=0xbf => 0,
            0xf0..=0xff => 2,
            _ => 1,
        },
    }
}

impl Position {
    /// Where a text begins.
    pub(crate) fn first() -> Position
        ensures { result ≡ first }
    {
        Position {
            line: 0,
            character: 0,
        }
    }

    /// The position after a byte that stands at this one.
    fn past(self, byte: u8, encoding: Encoding) -> Position
        requires { (self.line + 1 < 2 ^ 64) × (self.character + 2 < 2 ^ 64) }
        ensures { result ≡ past encoding self byte }
    {
        if byte == b'\n' {
            return Position {
                line: self.line + 1,
                character: 0,
            };
        }
        Position {
            line: self.line,
            character: self.character + units(byte, encoding),
        }
    }

    /// The position after bytes that begin at this one, and that lead to the other from the start of a text.
    pub(crate) fn joined(self, other: Position) -> Position
        requires { (self.line + other.line < 2 ^ 64) × (self.character + other.character < 2 ^ 64) }
        ensures { result ≡ joined self other }
    {
        if other.line == 0 {
            return Position {
                line: self.line,
                character: self.character + other.character,
            };
        }
        Position {
            line: self.line + other.line,
            character: other.character,
        }
    }

    /// The position after bytes that begin at this one; none where a word does not count so far.
    pub fn after(self, bytes: &[u8], encoding: Encoding) -> Option<Position>
        ensures { IfSome result (λ position. position ≡ position_behind encoding self bytes.now) }
    {
        let moved = behind(bytes, encoding);
        let is_far = usize::MAX - self.line < moved.line
            || usize::MAX - self.character < moved.character;
        if is_far {
            return None;
        }
        Some(self.joined(moved))
    }

    /// Whether it is after another.
    pub(crate) fn is_behind(self, other: Position) -> bool
        ensures { result ≡ is_behind self other }
    {
        other.line < self.line || self.line == other.line && other.character < self.character
    }
}

/// How many line feeds there are.
fn feeds(bytes: &[u8]) -> usize
    ensures { result ≡ count_by is_feed bytes.now }
{
    bytes.iter().filter(|byte| **byte == b'\n').count()
}

/// How many units bytes add to one line.
fn width(bytes: &[u8], encoding: Encoding) -> usize
    ensures { result ≡ sum_by (units encoding) bytes.now }
{
    let mut width = 0;
    for byte in bytes {
        width += units(*byte, encoding);
    }
    width
}

/// The position after bytes with which a text begins.
pub(crate) fn behind(bytes: &[u8], encoding: Encoding) -> Position
    ensures { result ≡ position_behind encoding first bytes.now }
{
    match memrchr(b'\n', bytes) {
        None => Position {
            line: 0,
            character: width(bytes, encoding),
        },
        Some(last) => Position {
            line: feeds(bytes),
            character: width(&bytes[last + 1..], encoding),
        },
    }
}

/// How many bytes that stand at one position come before the next position is after another.
pub(crate) fn reach(bytes: &[u8], from: Position, to: Position, encoding: Encoding) -> Reached
    requires lines { from.line + length bytes.now < 2 ^ 64 }
    requires characters { from.character + 2 * length bytes.now < 2 ^ 64 }
    ensures count { result.count ≡ reach encoding from to bytes.now }
    ensures within { result.count ≤ length bytes.now }
    ensures position { result.position ≡ position_behind encoding from (take result.count bytes.now) }
{
    let mut position = from;
    for (count, byte) in bytes.iter().enumerate() {
        let next = position.past(*byte, encoding);
        if next.is_behind(to) {
            return Reached { count, position };
        }
        position = next;
    }
    Reached {
        count: bytes.len(),
        position,
    }
}
