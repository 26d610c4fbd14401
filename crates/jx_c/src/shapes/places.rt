// Kinds, spans and rows as C sees them.
ghost use Rattle.std.specs.Prelude.{◌≡◌};
ghost use Rattle.jx_c.specs.Rows.{kind_in, name_in, parent_in, shown_row, shown_span};

use crate::shapes::buffers::Seen;
use jx_index::{NodeId, Row};
use jx_lex::{Kind, Span};

/// A part of the bytes, from `start` up to `end`.
#[repr(C)]
#[derive(Clone, Copy)]
pub struct JxSpan {
    pub start: usize,
    pub end: usize,
}

/// A value of a text.
#[repr(C)]
#[derive(Clone, Copy)]
pub struct JxRow {
    /// Where it stands, a string with its quotation marks and a container with its brackets.
    pub span: JxSpan,
    /// Where its name stands, with the quotation marks; 0 and 0 where its parent is no object.
    pub name: JxSpan,
    /// The number of the row of the array or object that it stands in; the greatest number for the root.
    pub parent: usize,
    /// How many values are before it in its parent; 0 for the root.
    pub place: usize,
    pub kind: u32,
}

/// The number of a kind.
pub fn kind_in(kind: Kind) -> u32
    ensures { result ≡ kind_in kind }
{
    match kind {
        Kind::Object => 0,
        Kind::Array => 1,
        Kind::String => 2,
        Kind::Number => 3,
        Kind::True => 4,
        Kind::False => 5,
        Kind::Null => 6,
    }
}

/// The span as C sees it.
pub fn shown_span(span: Span) -> JxSpan
    ensures { result ≡ shown_span span }
{
    JxSpan {
        start: span.start,
        end: span.end,
    }
}

/// Where a name stands, as C sees it; 0 and 0 where there is none.
fn name_in(name: Option<Span>) -> JxSpan
    ensures { result ≡ name_in name }
{
    match name {
        Some(span) => shown_span(span),
        None => JxSpan { start: 0, end: 0 },
    }
}

/// The number of the parent's row; the greatest number where there is no parent.
fn parent_in(parent: Option<NodeId>) -> usize
    ensures { result ≡ parent_in parent }
{
    match parent {
        Some(node) => node.number(),
        None => usize::MAX,
    }
}

impl Seen for Row {
    type Form = JxRow;

    ghost form = { shown_row };

    fn seen(self) -> JxRow {
        JxRow {
            span: shown_span(self.span),
            name: name_in(self.name),
            parent: parent_in(self.parent),
            place: self.place,
            kind: kind_in(self.kind),
        }
    }
}
