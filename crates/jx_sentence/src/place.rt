ghost use Rattle.std.specs.Prelude.{◌≡◌, ◌+◌, ◌<◌, ◌≤◌, ◌^◌, length};
ghost use Rattle.jx_sentence.specs.Places.{first_place, place_at, place_past};

/// Where a byte of a text stands, for people.
#[derive(Clone, Copy, Debug, PartialEq, Eq)]
pub struct Place {
    /// The line, counted from 1. A line feed ends a line.
    pub line: usize,
    /// The character in its line, counted from 1. Each byte but 80 to BF begins one.
    pub column: usize,
}

impl Place {
    /// Where a text begins.
    fn first() -> Place
        ensures { result ≡ first_place }
    {
        Place { line: 1, column: 1 }
    }

    /// The place after a byte that stands at this one.
    fn past(self, byte: u8) -> Place
        requires { (self.line + 1 < 2 ^ 64) × (self.column + 1 < 2 ^ 64) }
        ensures { result ≡ place_past self byte }
    {
        match byte {
            b'\n' => Place {
                line: self.line + 1,
                column: 1,
            },
            0x80..=0xbf => self,
            _ => Place {
                line: self.line,
                column: self.column + 1,
            },
        }
    }
}

/// The place of the byte at an offset, or of the end of the text.
pub fn place_of(text: &[u8], at: usize) -> Place
    requires { at ≤ length text.now }
    ensures { result ≡ place_at text.now at }
{
    let before = &text[..at];
    let mut place = Place::first();
    for byte in before {
        place = place.past(*byte);
    }
    place
}
