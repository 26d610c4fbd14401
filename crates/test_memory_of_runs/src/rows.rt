//! Rows beside those that are wanted, looked at without taking memory.
use crate::inputs::WorkedRow;
use jx_index::Row;
use jx_lex::Span;

// Whether it is the span, moved by so many bytes.
fn is_moved(place: Span, span: (usize, usize), by: usize) -> bool {
    place.start == span.0.saturating_add(by) && place.end == span.1.saturating_add(by)
}

// Whether there is such a span just where one is wanted.
fn is_name(name: Option<Span>, want: Option<(usize, usize)>, by: usize) -> bool {
    match (name, want) {
        (Some(name), Some(want)) => is_moved(name, want, by),
        (None, None) => true,
        _ => false,
    }
}

/// The number of the row's parent, if it has one.
pub fn parent_of(row: &Row) -> Option<usize> {
    match row.parent {
        Some(node) => Some(node.number()),
        None => None,
    }
}

// Whether it is the row, moved by so many bytes.
fn is_row(row: &Row, want: &WorkedRow, by: usize) -> bool {
    let (kind, span, parent, place, name) = *want;
    row.kind == kind
        && is_moved(row.span, span, by)
        && parent_of(row) == parent
        && row.place == place
        && is_name(row.name, name, by)
}

/// Whether these are the rows, in order, moved by so many bytes.
pub fn are_rows(rows: &[Row], want: &[WorkedRow], by: usize) -> bool {
    rows.len() == want.len()
        && rows
            .iter()
            .zip(want)
            .all(|(row, want)| is_row(row, want, by))
}
