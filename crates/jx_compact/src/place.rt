// Where a byte stands: in a string or between tokens.
ghost use Rattle.std.specs.Prelude.{◌≡◌};
ghost use Rattle.jx_compact.specs.Compact.{is_kept, next};

/// Where a byte stands.
#[derive(Clone, Copy, Debug, PartialEq, Eq)]
pub enum Place {
    /// Outside of strings.
    Between,
    /// In a string.
    Inside,
    /// In a string, after a backslash.
    Escaped,
}

/// Whether a byte stays that stands there.
pub fn is_kept(place: Place, byte: u8) -> bool
    ensures { result ≡ is_kept place byte }
{
    match place {
        Place::Between => {
            if byte == b' ' {
                false
            } else if byte == b'\t' {
                false
            } else if byte == b'\n' {
                false
            } else if byte == b'\r' {
                false
            } else {
                true
            }
        }
        Place::Inside | Place::Escaped => true,
    }
}

/// The place of the byte after a byte.
pub fn next(place: Place, byte: u8) -> Place
    ensures { result ≡ next place byte }
{
    match place {
        Place::Between => {
            if byte == b'"' {
                Place::Inside
            } else {
                Place::Between
            }
        }
        Place::Inside => {
            if byte == b'"' {
                Place::Between
            } else if byte == b'\\' {
                Place::Escaped
            } else {
                Place::Inside
            }
        }
        Place::Escaped => Place::Inside,
    }
}
