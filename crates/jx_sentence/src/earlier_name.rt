ghost use Rattle.std.specs.Prelude.{◌≡◌, ◌↔◌, ◌<◌, true, length, Some, slice_get, IfSome};
ghost use Rattle.jx_index.specs.declared.row.Row.{Row};
ghost use Rattle.jx_index.specs.Units.{units_at};
ghost use Rattle.jx_string.specs.inside.UnitsLeft.{units_left};
ghost use Rattle.jx_sentence.specs.EarlierName.{BeginsAt, HaveSameUnits, IsEarlierName};

use jx_index::Row;
use jx_lex::Span;
use jx_string::{Units, between_marks};

/// Whether the units that are left of two names are the same.
fn are_same(one: Units, other: Units) -> bool
    ensures { (result ≡ true) ↔ (units_left one.entry ≡ units_left other.entry) }
{
    let mut left = one;
    let mut right = other;
    while let Some(unit) = left.next_unit() {
        let Some(same) = right.next_unit() else {
            return false;
        };
        if unit != same {
            return false;
        }
    }
    right.next_unit().is_none()
}

/// Whether two names stand in a text and have the same UTF-16 code units (RFC 8259, section 8.3).
#[tactic(auto, unfolding(jx_index::specs::Units::units_at))]
fn have_same_units(text: &[u8], one: Option<Span>, other: Option<Span>) -> bool
    ensures { result ≡ true → HaveSameUnits text.now one other }
{
    let (Some(first), Some(second)) = (one, other) else {
        return false;
    };
    match (
        text.get(first.start..first.end),
        text.get(second.start..second.end),
    ) {
        (Some(left), Some(right)) => are_same(
            Units::new(between_marks(left)),
            Units::new(between_marks(right)),
        ),
        _ => false,
    }
}

/// Whether a name begins at an offset.
fn begins_at(name: Option<Span>, at: usize) -> bool
    ensures { result ≡ true → BeginsAt name at }
{
    match name {
        Some(name) => name.start == at,
        None => false,
    }
}

/// The number of the row whose name begins at an offset.
fn number_of(rows: &[Row], at: usize) -> Option<usize>
    ensures begins { IfSome result (λ number. (row : Row) → slice_get rows.now number ≡ Some row → BeginsAt row.name at) }
    ensures there { IfSome result (λ number. number < length rows.now) }
{
    for number in 0..rows.len() {
        if begins_at(rows[number].name, at) {
            return Some(number);
        }
    }
    None
}

/// The span of the first name of an object that has the units of the one that begins at an offset, and is before it.
pub fn earlier_name(text: &[u8], rows: &[Row], at: usize) -> Option<Span>
    ensures { IfSome result (IsEarlierName text.now rows.now at) }
{
    let last = number_of(rows, at)?;
    let row = rows[last];
    for number in 0..last {
        let one = rows[number];
        if one.parent == row.parent && have_same_units(text, one.name, row.name) {
            return one.name;
        }
    }
    None
}
