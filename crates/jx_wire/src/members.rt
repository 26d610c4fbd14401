// The members of objects by their names.
ghost use Rattle.std.specs.Prelude.{◌≡◌, ◌≢◌, ℕ, take, slice_get, slice_range, filter, Err, true};
ghost use Rattle.std.specs.Ordering.{nat_cmp, is_eq};
ghost use Rattle.std.specs.Cmp.Lexicographic.{slice_cmp};
ghost use Rattle.std.specs.Result.{result_ok};
ghost use Rattle.jx_index.specs.declared.find_fault.FindFault.TheVariants.{NameRepeated};
ghost use Rattle.jx_index.specs.Names.{name_units};
ghost use Rattle.jx_index.specs.Nodes.{child_numbers, kind_at};
ghost use Rattle.jx_index.specs.RowsLead.{is_equal, row_token};
ghost use Rattle.jx_string.specs.Texts.{string_units};
ghost use Rattle.jx_wire.specs.inside.Nodes.{is_word, row_in};

use crate::field::behind;
use jx_index::{Indexed, NodeId, Row};
use jx_lex::{Kind, Span};
use jx_string::{Units, between_marks};

/// The first `count` bytes, or all where there are no more.
fn keep(bytes: &[u8], count: usize) -> &[u8]
    ensures { result.now ≡ take count bytes.now }
{
    if count < bytes.len() {
        &bytes[..count]
    } else {
        bytes
    }
}

/// The bytes at a span.
pub(crate) fn bytes_at(text: &[u8], span: Span) -> &[u8]
    ensures { result.now ≡ slice_range text.now span.start span.end }
{
    keep(
        behind(text, span.start),
        span.end.saturating_sub(span.start),
    )
}

/// The row of a node; none where a number has none.
pub(crate) fn row_of(rows: &[Row], node: &Option<NodeId>) -> Option<Row>
    ensures { result ≡ row_in rows.now node.now }
{
    let node = (*node)?;
    rows.get(node.number()).copied()
}

/// The kind of a node; `null` where a number has no row.
pub(crate) fn kind_of(rows: &[Row], node: NodeId) -> Kind
    ensures { result ≡ kind_at rows.now node }
{
    match rows.get(node.number()) {
        Some(row) => row.kind,
        None => Kind::Null,
    }
}

/// The string that names a member; no bytes where a value has no name.
fn name_of<'a>(text: &'a [u8], rows: &[Row], node: NodeId) -> &'a [u8]
    ensures { string_units result.now ≡ name_units text.now rows.now node }
{
    let Some(row) = row_of(rows, &Some(node)) else {
        return &[];
    };
    match row.name {
        Some(name) => bytes_at(text, name),
        None => &[],
    }
}

/// Whether a string, by its bytes with the quotation marks, stands for a text of ASCII.
fn stands_for(string: &[u8], text: &[u8]) -> bool
    ensures { result ≡ is_eq (slice_cmp nat_cmp (string_units string.now) text.now) }
{
    let mut left = Units::new(between_marks(string));
    let mut right = text;
    loop {
        let Some(unit) = left.next_unit() else {
            return right.is_empty();
        };
        if right.is_empty() {
            return false;
        }
        if unit != u32::from(right[0]) {
            return false;
        }
        right = &right[1..];
    }
}

fn is_named(index: &Indexed, node: NodeId, name: &str) -> bool
    ensures { result ≡ is_equal index.now.text index.now.rows name.now node }
{
    stands_for(name_of(index.text(), index.rows(), node), name.as_bytes())
}

/// The first child of a node that has a name.
fn child_named(index: &Indexed, node: NodeId, name: &str) -> Option<NodeId>
    ensures { slice_get (filter (is_equal index.now.text index.now.rows name.now) (child_numbers index.now.rows node)) 0 ≡ result }
{
    for child in index.children(node) {
        if is_named(index, child, name) {
            return Some(child);
        }
    }
    None
}

/// The member of an object that has a name, which no other has.
pub(crate) fn member_of(index: &Indexed, node: NodeId, name: &str) -> Option<NodeId>
    ensures { (k : ℕ) → is_word name.now ≡ true → row_token index.now.text index.now.rows name.now node k ≢ Err (NameRepeated k)
        → result_ok (row_token index.now.text index.now.rows name.now node k) ≡ result }
{
    match kind_of(index.rows(), node) {
        Kind::Object => child_named(index, node, name),
        _ => None,
    }
}
