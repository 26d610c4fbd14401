// Where a part may begin: after a comma between two elements of the container. What is answered here is a guess, which
// is compared with what the bytes before it lead to.
ghost use Rattle.std.specs.Prelude.{◌≡◌, ◌≤◌, length, IfSome};
ghost use Rattle.jx_each.specs.inside.Paths.{count_in};

use jx_compact::{Place, next};
use jx_each::{LineStand, Stage};

/// Where the byte after such a comma stands, by a stage in the container; none outside of it.
pub(crate) fn stand_behind_comma(stage: Stage) -> Option<LineStand>
    ensures height { IfSome result (λ stand. stand.height ≡ 1) }
    ensures count { IfSome result (λ stand. count_in stand.stage ≡ 0) }
{
    let (stage, takes) = match stage {
        Stage::Array => (Stage::Array, true),
        Stage::Object => (Stage::Object, false),
        Stage::Name | Stage::Pair => (Stage::Name, true),
        Stage::Names => (Stage::Names, true),
        Stage::Empties => (Stage::Empties, true),
        Stage::Ahead { level: _ } => return None,
        Stage::Elements { level: _, count: _ } => return None,
        Stage::Members { level: _ } => return None,
        Stage::Over => return None,
    };
    Some(LineStand {
        place: Place::Between,
        height: 1,
        stage,
        takes,
    })
}

/// The state after such a comma, by the stage there.
pub(crate) fn part_behind_comma(stage: Stage) -> &'static [u8] {
    match stage {
        Stage::Name => b"{\"name\":",
        Stage::Array => b"",
        Stage::Object => b"",
        Stage::Pair => b"",
        Stage::Names => b"",
        Stage::Empties => b"",
        Stage::Ahead { level: _ } => b"",
        Stage::Elements { level: _, count: _ } => b"",
        Stage::Members { level: _ } => b"",
        Stage::Over => b"",
    }
}

/// Whether a byte stands between tokens.
fn is_blank(byte: u8) -> bool {
    byte == b' ' || byte == b'\t' || byte == b'\n' || byte == b'\r'
}

/// Whether the last byte that is no white space may be before a string.
fn may_open(before: &[u8]) -> bool {
    match before.iter().rev().find(|byte| !is_blank(**byte)) {
        Some(byte) => *byte == b'{' || *byte == b'[' || *byte == b',' || *byte == b':',
        None => false,
    }
}

/// Whether the first byte that is no white space may follow a string.
fn may_close(behind: &[u8]) -> bool {
    match behind.iter().find(|byte| !is_blank(**byte)) {
        Some(byte) => *byte == b'}' || *byte == b']' || *byte == b',' || *byte == b':',
        None => false,
    }
}

/// An offset that seems to stand between tokens: at a line feed, at a quotation mark that opens a string or after one
/// that closes it, or at the start where there is none of these.
fn between(bytes: &[u8]) -> usize
    ensures { result ≤ length bytes.now }
{
    for at in 0..bytes.len() {
        if bytes[at] == b'\n' {
            return at;
        }
        if bytes[at] == b'"' {
            let opens = may_open(&bytes[..at]);
            let closes = may_close(&bytes[at + 1..]);
            if opens && !closes {
                return at;
            }
            if closes && !opens {
                return at + 1;
            }
        }
    }
    0
}

/// How many containers are open after a byte between tokens, where they are counted from half of what there can be.
fn level_behind(level: usize, byte: u8) -> usize {
    if byte == b'[' || byte == b'{' {
        level.saturating_add(1)
    } else if byte == b']' || byte == b'}' {
        level.saturating_sub(1)
    } else {
        level
    }
}

/// The offset after the first comma among those where the fewest containers are open, from an offset between tokens on.
fn behind_low_comma(bytes: &[u8], from: usize) -> Option<usize>
    requires { from ≤ length bytes.now }
    ensures { IfSome result (λ end. end ≤ length bytes.now) }
{
    let mut place = Place::Between;
    let mut level = usize::MAX / 2;
    let mut least = usize::MAX;
    let mut found = None;
    for at in from..bytes.len() {
        let byte = bytes[at];
        if place == Place::Between {
            if byte == b',' && level < least {
                least = level;
                found = Some(at + 1);
            }
            level = level_behind(level, byte);
        }
        place = next(place, byte);
    }
    found
}

/// An offset that seems to follow a comma between two elements of the container in which the bytes stand.
pub(crate) fn behind_comma(bytes: &[u8]) -> Option<usize>
    ensures { IfSome result (λ end. end ≤ length bytes.now) }
{
    behind_low_comma(bytes, between(bytes))
}
