// Names by their values.
ghost use Rattle.std.specs.Prelude.{◌≡◌, ◌<◌, ◌↔◌, ◌∷◌, [], take, drop, length, Some, IsTrue, IfSome};
ghost use Rattle.std.specs.Ordering.{nat_cmp};
ghost use Rattle.std.specs.Cmp.Lexicographic.{slice_cmp};
ghost use Rattle.jx_index.specs.declared.units.Spelling.TheVariants.{InText, InToken};
ghost use Rattle.jx_index.specs.Names.{is_name, name_units};
ghost use Rattle.jx_index.specs.Nodes.{IsObjectAt};
ghost use Rattle.jx_index.specs.Units.{units_at, chars_units};
ghost use Rattle.jx_index.specs.inside.UnitsLeft.{units_left};

use crate::row::{NodeId, Row};
use crate::units::{Spelling, Units, skip};
use jx_lex::{Kind, Span};
use std::cmp::Ordering;

/// Units in order: the first different unit decides, and a beginning comes before what it begins.
pub fn compare(mut left: Units, mut right: Units) -> Ordering
    ensures { result ≡ slice_cmp nat_cmp (units_left left.entry) (units_left right.entry) }
{
    loop {
        let first = left.next_unit();
        let second = right.next_unit();
        match (first, second) {
            (None, None) => return Ordering::Equal,
            (None, Some(_)) => return Ordering::Less,
            (Some(_), None) => return Ordering::Greater,
            (Some(one), Some(other)) => {
                if one < other {
                    return Ordering::Less;
                }
                if other < one {
                    return Ordering::Greater;
                }
            }
        }
    }
}

/// The first `count` bytes, or all where there are no more.
#[inline(always)]
pub(crate) fn keep(bytes: &[u8], count: usize) -> &[u8]
    ensures { result.now ≡ take count bytes.now }
{
    if count < bytes.len() {
        &bytes[..count]
    } else {
        bytes
    }
}

/// The bytes between the quotation marks of the string at a span.
#[inline(always)]
#[tactic(auto, unfolding(crate::specs::Units::units_at))]
pub(crate) fn string_bytes<'a>(text: &'a [u8], span: Span) -> &'a [u8]
    ensures { chars_units InText 0 result.now ≡ units_at text.now span }
{
    let string = keep(skip(text, span.start), span.end.saturating_sub(span.start));
    keep(skip(string, 1), string.len().saturating_sub(2))
}

/// No bytes, which encode no units.
#[tactic(auto, unfolding(crate::specs::Units::chars_units))]
fn no_bytes<'a>() -> &'a [u8]
    ensures { chars_units InText 0 result.now ≡ [] }
{
    &[]
}

/// The bytes of a member's name; none where the row has no name.
pub(crate) fn name_bytes<'a>(text: &'a [u8], rows: &[Row], node: NodeId) -> &'a [u8]
    ensures { chars_units InText 0 result.now ≡ name_units text.now rows.now node }
{
    let Some(row) = rows.get(node.number()) else {
        return no_bytes();
    };
    match row.name {
        Some(name) => string_bytes(text, name),
        None => no_bytes(),
    }
}

/// How many bytes both begin with, each of which stands for one unit in a text and in a token. To compare the others
/// decides as to compare all.
fn same_front(left: &[u8], one: Spelling, right: &[u8], other: Spelling) -> usize
    ensures { slice_cmp nat_cmp (chars_units one 0 left.now) (chars_units other 0 right.now) ≡ slice_cmp nat_cmp (chars_units one 0 (drop result left.now)) (chars_units other 0 (drop result right.now)) }
{
    let mut at = 0;
    while at < left.len() && at < right.len() {
        let byte = left[at];
        if byte != right[at] || byte >= 0x80 || byte == b'\\' || byte == b'~' {
            return at;
        }
        at += 1;
    }
    at
}

/// The first byte, where it stands for one unit of its own in a text and in a token.
#[inline(always)]
pub(crate) fn first_plain(bytes: &[u8], spelling: Spelling) -> Option<u8>
    ensures { IfSome result (λ unit. chars_units spelling 0 bytes.now ≡ unit ∷ chars_units spelling 0 (drop 1 bytes.now)) }
{
    match bytes {
        [byte, ..] if *byte < 0x80 && *byte != b'\\' && *byte != b'~' => Some(*byte),
        _ => None,
    }
}

/// The rest of two names after the bytes with which both begin. The next bytes mostly decide.
#[tactic(auto, unfolding(crate::specs::Units::chars_units))]
fn compare_rests(left: &[u8], one: Spelling, right: &[u8], other: Spelling) -> Ordering
    ensures { result ≡ slice_cmp nat_cmp (chars_units one 0 left.now) (chars_units other 0 right.now) }
{
    match (first_plain(left, one), first_plain(right, other)) {
        (Some(first), Some(second)) if first < second => Ordering::Less,
        (Some(first), Some(second)) if second < first => Ordering::Greater,
        (None, None) if left.is_empty() && right.is_empty() => Ordering::Equal,
        (None, Some(_)) if left.is_empty() => Ordering::Less,
        (Some(_), None) if right.is_empty() => Ordering::Greater,
        _ => compare(Units::new(left, one), Units::new(right, other)),
    }
}

/// Two names or tokens, as they are written. Bytes decide as long as each of them stands for one unit.
#[inline(never)]
fn compare_whole(left: &[u8], one: Spelling, right: &[u8], other: Spelling) -> Ordering
    ensures { result ≡ slice_cmp nat_cmp (chars_units one 0 left.now) (chars_units other 0 right.now) }
{
    let same = same_front(left, one, right, other);
    compare_rests(skip(left, same), one, skip(right, same), other)
}

/// Compares two names or tokens. The first bytes mostly decide.
#[inline(always)]
#[tactic(auto, unfolding(crate::specs::Units::chars_units))]
pub(crate) fn compare_bytes(left: &[u8], one: Spelling, right: &[u8], other: Spelling) -> Ordering
    ensures { result ≡ slice_cmp nat_cmp (chars_units one 0 left.now) (chars_units other 0 right.now) }
{
    match (first_plain(left, one), first_plain(right, other)) {
        (Some(first), Some(second)) if first < second => Ordering::Less,
        (Some(first), Some(second)) if second < first => Ordering::Greater,
        _ => compare_whole(left, one, right, other),
    }
}

/// Two names of a text.
fn compare_text(left: &[u8], right: &[u8]) -> Ordering
    ensures { result ≡ slice_cmp nat_cmp (chars_units InText 0 left.now) (chars_units InText 0 right.now) }
{
    compare_bytes(left, Spelling::InText, right, Spelling::InText)
}

/// Something as it is written against a token as a pointer encodes it, by their units.
#[inline(always)]
pub(crate) fn compare_spelt(bytes: &[u8], spelling: Spelling, token: &[u8]) -> Ordering
    ensures { result ≡ slice_cmp nat_cmp (chars_units spelling 0 bytes.now) (chars_units InToken 0 token.now) }
{
    compare_bytes(bytes, spelling, token, Spelling::InToken)
}

/// The first member's name against the second's, by their units.
pub(crate) fn compare_members(text: &[u8], rows: &[Row], first: NodeId, second: NodeId) -> Ordering
    ensures { result ≡ slice_cmp nat_cmp (name_units text.now rows.now first) (name_units text.now rows.now second) }
{
    compare_text(
        name_bytes(text, rows, first),
        name_bytes(text, rows, second),
    )
}

/// Two names by where they stand in a text, by their units.
pub(crate) fn compare_names(text: &[u8], first: Span, second: Span) -> Ordering
    ensures { result ≡ slice_cmp nat_cmp (units_at text.now first) (units_at text.now second) }
{
    compare_text(string_bytes(text, first), string_bytes(text, second))
}

/// A member's name against a token as a pointer encodes it.
pub(crate) fn compare_to_token(text: &[u8], rows: &[Row], node: NodeId, token: &[u8]) -> Ordering
    ensures { result ≡ slice_cmp nat_cmp (name_units text.now rows.now node) (chars_units InToken 0 token.now) }
{
    compare_spelt(name_bytes(text, rows, node), Spelling::InText, token)
}

/// Whether the row with this number is that of an object.
pub(crate) fn is_object(rows: &[Row], node: usize) -> bool
    requires { node < length rows.now }
    ensures { IsTrue result ↔ IsObjectAt rows.now node }
{
    matches!(rows[node].kind, Kind::Object)
}
