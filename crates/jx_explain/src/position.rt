// Where a byte of a text stands, for people and for editors.
ghost use Rattle.std.specs.Prelude.{◌≡◌, ◌+◌, ◌<◌, ◌^◌, length, true};
ghost use Rattle.jx_sentence.specs.Places.{first_place, place_behind, place_past};
ghost use Rattle.jx_explain.specs.Columns.{column_behind, column_past};

use jx_sentence::Place;

/// Where a byte of a text stands.
#[derive(Clone, Copy, Debug, PartialEq, Eq)]
pub struct Position {
    /// Its line, and its character there.
    pub place: Place,
    /// Its byte in the line, counted from 1.
    pub byte: usize,
}

/// The place after a byte that stands at this one.
fn place_past(place: Place, byte: u8) -> Place
    requires { (place.line + 1 < 2 ^ 64) × (place.column + 1 < 2 ^ 64) }
    ensures { result ≡ place_past place byte }
{
    match byte {
        b'\n' => Place {
            line: place.line + 1,
            column: 1,
        },
        0x80..=0xbf => place,
        _ => Place {
            line: place.line,
            column: place.column + 1,
        },
    }
}

/// The column of a byte after one in this column.
fn column_past(column: usize, byte: u8) -> usize
    requires { column + 1 < 2 ^ 64 }
    ensures { result ≡ column_past column byte }
{
    if byte == b'\n' { 1 } else { column + 1 }
}

impl Position {
    /// The position of a text's first byte.
    pub fn first() -> Position
        ensures place { result.place ≡ first_place }
        ensures byte { result.byte ≡ 1 }
    {
        Position {
            place: Place { line: 1, column: 1 },
            byte: 1,
        }
    }

    /// Whether so many more bytes have lines and columns that are numbers.
    pub fn has_room(self, count: usize) -> bool
        ensures line { result ≡ true → self.place.line + count < 2 ^ 64 }
        ensures column { result ≡ true → self.place.column + count < 2 ^ 64 }
        ensures byte { result ≡ true → self.byte + count < 2 ^ 64 }
    {
        let room = usize::MAX - count;
        if self.place.line > room {
            return false;
        }
        if self.place.column > room {
            return false;
        }
        if self.byte > room {
            return false;
        }
        true
    }

    /// The position of the byte after these, the first of which stands here.
    pub fn behind(self, bytes: &[u8]) -> Position
        requires line { self.place.line + length bytes.now < 2 ^ 64 }
        requires column { self.place.column + length bytes.now < 2 ^ 64 }
        requires byte { self.byte + length bytes.now < 2 ^ 64 }
        ensures place { result.place ≡ place_behind self.place bytes.now }
        ensures byte { result.byte ≡ column_behind self.byte bytes.now }
    {
        let mut place = self.place;
        let mut column = self.byte;
        for byte in bytes {
            place = place_past(place, *byte);
            column = column_past(column, *byte);
        }
        Position {
            place,
            byte: column,
        }
    }

    /// The position of the byte after these, where that has numbers; else the one where these begin.
    pub fn behind_some(self, bytes: &[u8]) -> Position {
        if self.has_room(bytes.len()) {
            self.behind(bytes)
        } else {
            self
        }
    }
}
