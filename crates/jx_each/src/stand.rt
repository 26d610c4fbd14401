// Where a byte stands among the containers of a text.
ghost use Rattle.std.specs.Prelude.{◌≡◌, ◌+◌, ◌<◌, ◌≤◌, ◌^◌};
ghost use Rattle.jx_each.specs.Turns.{height_next, turn_at, turned};

use crate::sign::{Sign, Turn, sign_of, turn_by};
use jx_compact::Place;

/// How far the container is found whose elements are written.
#[derive(Clone, Copy, Debug, PartialEq, Eq)]
pub enum Stage {
    /// The value comes that so many tokens lead to.
    Ahead { level: usize },
    /// In an array to which so many tokens lead, after so many elements.
    Elements { level: usize, count: usize },
    /// In an object to which so many tokens lead.
    Members { level: usize },
    /// In the container itself.
    Array,
    Object,
    /// In the container itself, whose members are written with their names: in front of a colon, and after it.
    Name,
    Pair,
    /// In the container itself, of whose members the names alone are written.
    Names,
    /// In the container itself, each of whose elements or members has an empty line.
    Empties,
    /// After it, or where it cannot come any more.
    Over,
}

/// Where a byte stands.
#[derive(Clone, Copy, Debug)]
pub struct LineStand {
    /// In a string or between tokens.
    pub place: Place,
    /// How many containers are open from the value on that tokens lead to.
    pub height: usize,
    pub stage: Stage,
    /// Whether it stands where an element, a member's value or a name may that is kept.
    pub takes: bool,
}

/// The effect of a byte at this stand.
pub(crate) fn turn_at(stand: LineStand, byte: u8) -> Turn
    ensures { result ≡ turn_at stand.place stand.height byte }
{
    match stand.place {
        Place::Between => turn_by(stand.height, sign_of(byte)),
        Place::Inside => Turn::Stay,
        Place::Escaped => Turn::Stay,
    }
}

/// How many containers are open after such a byte.
fn turned(height: usize, sign: Sign) -> usize
    requires { height + 1 < 2 ^ 64 }
    ensures value { result ≡ turned height sign }
    ensures most { result ≤ height + 1 }
{
    match sign {
        Sign::OpenArray => height + 1,
        Sign::OpenObject => height + 1,
        Sign::Close => { if height == 0 { 0 } else { height - 1 } }
        Sign::Comma => height,
        Sign::Colon => height,
        Sign::Other => height,
    }
}

/// How many containers are open after a byte that stands there.
#[inline(always)]
pub(crate) fn height_next(place: Place, height: usize, byte: u8) -> usize
    requires { height + 1 < 2 ^ 64 }
    ensures value { result ≡ height_next place height byte }
    ensures most { result ≤ height + 1 }
{
    match place {
        Place::Between => turned(height, sign_of(byte)),
        Place::Inside => height,
        Place::Escaped => height,
    }
}
