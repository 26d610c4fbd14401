// The lines that stand for the rows of a text. A line is put together from its end, and then appended at once.
ghost use Rattle.std.specs.Prelude.{◌≡◌, ◌+◌, ◌≤◌, ◌++◌, codes, drop, length};
ghost use Rattle.jx_words.specs.inside.Room.{HasRoom, TakesRoom};
ghost use Rattle.jx_words.specs.Words.{kind_words, line, span_words};
ghost use Rattle.jx_report.specs.RowWords.{node_words, parent_words, name_words, place_words, row_words};

use crate::column::Column;
use crate::line_end::put_bytes;
use jx_index::{NodeId, Row};
use jx_lex::{Kind, Span};
use jx_words::push_bytes;

/// How many bytes the line of a row has at most: that of numbers with 20 digits each.
pub(crate) const LONGEST_ROW: usize = 156;

/// Puts the word for a kind between two spaces.
#[inline(always)]
fn put_kind(line: &mut [u8], end: usize, kind: Kind) -> usize
    requires { (8 ≤ end) × (end ≤ length line.old) }
    ensures words { drop result line.new ≡ codes " " ++ (kind_words kind ++ (codes " " ++ drop end line.old)) }
    ensures room { (result ≤ end) × (end ≤ result + 8) }
{
    match kind {
        Kind::Object => put_bytes(line, end, b" object "),
        Kind::Array => put_bytes(line, end, b" array "),
        Kind::String => put_bytes(line, end, b" string "),
        Kind::Number => put_bytes(line, end, b" number "),
        Kind::True => put_bytes(line, end, b" true "),
        Kind::False => put_bytes(line, end, b" false "),
        Kind::Null => put_bytes(line, end, b" null "),
    }
}

/// The columns of a span.
#[derive(Drop)]
struct SpanColumns {
    start: Column,
    end: Column,
}

impl SpanColumns {
    fn new() -> SpanColumns {
        SpanColumns {
            start: Column::new(),
            end: Column::new(),
        }
    }

    /// Puts a span, as `S..E`.
    fn put(&mut self, line: &mut [u8], end: usize, span: Span) -> usize
        requires { (42 ≤ end) × (end ≤ length line.old) }
        ensures words { drop result line.new ≡ span_words span ++ drop end line.old }
        ensures room { (result ≤ end) × (end ≤ result + 42) }
    {
        let to = self.end.put(line, end, span.end);
        let dots = put_bytes(line, to, b"..");
        self.start.put(line, dots, span.start)
    }
}

/// The columns of rows.
#[derive(Drop)]
pub(crate) struct RowColumns {
    number: Column,
    span: SpanColumns,
    parent: Column,
    place: Column,
    name: SpanColumns,
}

impl RowColumns {
    /// Columns without rows so far.
    pub(crate) fn new() -> RowColumns {
        RowColumns {
            number: Column::new(),
            span: SpanColumns::new(),
            parent: Column::new(),
            place: Column::new(),
            name: SpanColumns::new(),
        }
    }

    /// Puts the number of the parent's row, or `-` where there is no parent.
    fn put_parent(&mut self, line: &mut [u8], end: usize, parent: Option<NodeId>) -> usize
        requires { (20 ≤ end) × (end ≤ length line.old) }
        ensures words { drop result line.new ≡ parent_words parent ++ drop end line.old }
        ensures room { (result ≤ end) × (end ≤ result + 20) }
    {
        match parent {
            Some(node) => self.parent.put(line, end, node.number()),
            None => put_bytes(line, end, b"-"),
        }
    }

    /// Puts where the name stands, or `-` where there is none.
    fn put_name(&mut self, line: &mut [u8], end: usize, name: Option<Span>) -> usize
        requires { (42 ≤ end) × (end ≤ length line.old) }
        ensures words { drop result line.new ≡ name_words name ++ drop end line.old }
        ensures room { (result ≤ end) × (end ≤ result + 42) }
    {
        match name {
            Some(span) => self.name.put(line, end, span),
            None => put_bytes(line, end, b"-"),
        }
    }

    /// Puts the number of a row, the kind of its value and where it stands.
    fn put_node(&mut self, line: &mut [u8], end: usize, number: usize, row: &Row) -> usize
        requires { (70 ≤ end) × (end ≤ length line.old) }
        ensures words { drop result line.new ≡ node_words number row.now ++ drop end line.old }
        ensures room { (result ≤ end) × (end ≤ result + 70) }
    {
        let span = self.span.put(line, end, row.span);
        let kind = put_kind(line, span, row.kind);
        self.number.put(line, kind, number)
    }

    /// Puts the parent of a row, its place there and its name.
    fn put_place(&mut self, line: &mut [u8], end: usize, row: &Row) -> usize
        requires { (84 ≤ end) × (end ≤ length line.old) }
        ensures words { drop result line.new ≡ place_words row.now ++ drop end line.old }
        ensures room { (result ≤ end) × (end ≤ result + 84) }
    {
        let name = self.put_name(line, end, row.name);
        let behind = put_bytes(line, name, b" ");
        let place = self.place.put(line, behind, row.place);
        let middle = put_bytes(line, place, b" ");
        self.put_parent(line, middle, row.parent)
    }

    /// Appends the line of a row.
    pub(crate) fn push_row(&mut self, out: &mut Vec<u8>, number: usize, row: &Row)
        requires { HasRoom out.old 156 }
        ensures words { out.new.items ≡ out.old.items ++ line (row_words number row.now) }
        ensures room { TakesRoom out.old out.new 156 }
    {
        let mut text = [0; LONGEST_ROW];
        let end = put_bytes(&mut text, LONGEST_ROW, b"\n");
        let place = self.put_place(&mut text, end, row);
        let behind = put_bytes(&mut text, place, b" ");
        let start = self.put_node(&mut text, behind, number, row);
        push_bytes(out, &text[start..]);
    }
}
