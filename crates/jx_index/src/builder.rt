ghost use Rattle.std.specs.Prelude.{◌≡◌, ◌<◌, ◌-◌, ◌^◌, reverse, slice_set, true, IfOk};
ghost use Rattle.jx_index.specs.inside.Building.{child_place, parent_in, counted, set_end, nothing_built, add_leaf, begin_container, ended, is_name_next, on_mark, is_token, next_end, ends_after, built_of};
ghost use Rattle.jx_index.specs.inside.Built.{built, Fits};
ghost use Rattle.jx_index.specs.inside.Low.{AllLow};

use crate::in_order::Marking;
use crate::row::{NodeId, Row};
use jx_lex::{Kind, Mark, MarkKind, Span};
use jx_maps::{Ends, Marks};
use std::alloc::{AllocError, Global};

/// The rows of a text, and for each the number of the row after all that stands in it.
#[derive(Debug, Drop)]
pub struct Nodes {
    pub rows: Vec<Row>,
    pub after: Vec<usize>,
}

/// An open container: its row, what it is and how many children it has so far.
#[derive(Clone, Copy, Debug)]
pub struct Opened {
    pub row: usize,
    pub is_object: bool,
    pub count: usize,
}

/// The rows so far, the open containers, outermost first, and a name whose value is still to come.
#[derive(Drop)]
pub struct Builder {
    rows: Vec<Row>,
    after: Vec<usize>,
    opened: Vec<Opened>,
    name: Option<Span>,
}

/// Counts one child more in the innermost open container, if there is one; the count stops at the greatest `usize`.
fn count_child(opened: &mut Vec<Opened>)
    ensures { child_place (reverse opened.old.items) < 2 ^ 64 - 1 → reverse opened.new.items ≡ counted (reverse opened.old.items) }
{
    let depth = opened.len();
    if depth > 0 {
        let top = &mut opened[depth - 1];
        let count = top.count.saturating_add(1);
        top.count = count;
    }
}

/// How many children the innermost open container has so far, the place of a next one; 0 where none is open.
fn place_of(opened: &[Opened]) -> usize
    ensures { result ≡ child_place (reverse opened.now) }
{
    match opened.last() {
        Some(top) => top.count,
        None => 0,
    }
}

/// The innermost open container, the parent of a next value; none where none is open.
fn parent_of(opened: &[Opened]) -> Option<NodeId>
    ensures { result ≡ parent_in (reverse opened.now) }
{
    match opened.last() {
        Some(top) => Some(NodeId::new(top.row)),
        None => None,
    }
}

/// Sets where the span of the row with this number ends; without such a row nothing changes.
fn close_row(rows: &mut Vec<Row>, number: usize, end: usize)
    ensures { rows.new.items ≡ set_end number end rows.old.items }
{
    if number < rows.len() {
        let row = &mut rows[number];
        row.span.end = end;
    }
}

/// Sets the number of the row after all that stands in a row; without such a row nothing changes.
fn set_after(after: &mut Vec<usize>, number: usize, next: usize)
    ensures { after.new.items ≡ slice_set after.old.items number next }
{
    if number < after.len() {
        after[number] = next;
    }
}

impl Builder {
    /// A builder that has no rows, no open container and no name yet.
    pub(crate) fn new(alloc: Global) -> Builder
        ensures { built result ≡ nothing_built }
    {
        Builder {
            rows: Vec::new(alloc),
            after: Vec::new(alloc),
            opened: Vec::new(alloc),
            name: None,
        }
    }

    /// A value begins: it gets its row.
    fn add_row(&mut self, kind: Kind, span: Span) -> Result<(), AllocError>
        ensures { IfOk result (λ _. Fits (built self.old) → built self.new ≡ add_leaf kind span (built self.old)) }
    {
        let row = Row {
            kind,
            span,
            parent: parent_of(self.opened.as_slice()),
            place: place_of(self.opened.as_slice()),
            name: self.name,
        };
        self.rows.push(row)?;
        self.after.push(self.rows.len())?;
        self.name = None;
        count_child(&mut self.opened);
        Ok(())
    }

    /// A container begins: it gets its row, whose end is set later, and is the innermost open one.
    fn begin(&mut self, kind: Kind, is_object: bool, at: usize) -> Result<(), AllocError>
        ensures { IfOk result (λ _. Fits (built self.old) → at < 2 ^ 64 - 1 → built self.new ≡ begin_container kind is_object at (built self.old)) }
    {
        let row = self.rows.len();
        self.add_row(
            kind,
            Span {
                start: at,
                end: at.saturating_add(1),
            },
        )?;
        self.opened.push(Opened {
            row,
            is_object,
            count: 0,
        })?;
        Ok(())
    }

    /// Closes the innermost open container, if there is one: its span ends at `end`, and the next row is after it.
    fn end(&mut self, end: usize)
        ensures { built self.new ≡ ended (built self.old) end }
    {
        if let Some(top) = self.opened.pop() {
            set_after(&mut self.after, top.row, self.rows.len());
            close_row(&mut self.rows, top.row, end);
        }
    }

    /// Whether a string that comes next is a name: the innermost open container is an object, and no name waits.
    fn is_name_next(&self) -> bool
        ensures { result ≡ is_name_next (reverse self.now.opened.items) self.now.name }
    {
        match (self.opened.last(), self.name) {
            (Some(top), None) => top.is_object,
            _ => false,
        }
    }

    /// Takes one more token start, and its end where it has one. Fails only when out of memory.
    pub(crate) fn mark(&mut self, kind: MarkKind, at: usize, end: usize) -> Result<(), AllocError>
        ensures { IfOk result (λ _. Fits (built self.old) → at < 2 ^ 64 - 1 → built self.new ≡ on_mark kind at end (built self.old)) }
    {
        let span = Span { start: at, end };
        match kind {
            MarkKind::OpenArray => self.begin(Kind::Array, false, at),
            MarkKind::OpenObject => self.begin(Kind::Object, true, at),
            MarkKind::CloseArray | MarkKind::CloseObject => {
                self.end(at.saturating_add(1));
                Ok(())
            }
            MarkKind::Colon | MarkKind::Comma => Ok(()),
            MarkKind::String => {
                if self.is_name_next() {
                    self.name = Some(span);
                    Ok(())
                } else {
                    self.add_row(Kind::String, span)
                }
            }
            MarkKind::Number => self.add_row(Kind::Number, span),
            MarkKind::True => self.add_row(Kind::True, span),
            MarkKind::False => self.add_row(Kind::False, span),
            MarkKind::Null => self.add_row(Kind::Null, span),
        }
    }

    /// The nodes built so far, without the open containers.
    pub(crate) fn into_nodes(self) -> Nodes
        ensures rows { result.rows.items ≡ (built self).rows }
        ensures after { result.after.items ≡ (built self).after }
    {
        Nodes {
            rows: self.rows,
            after: self.after,
        }
    }
}

impl Marking for Builder {
    ghost use Rattle.std.specs.Prelude.{◌≡◌};
    ghost use Rattle.jx_index.specs.inside.Built.{built};

    ghost holds = { λ builder b. built builder ≡ b };

    #[inline(always)]
    fn take(&mut self, kind: MarkKind, at: usize, end: usize) -> Result<(), AllocError> {
        self.mark(kind, at, end)
    }
}

/// Whether a token of this kind has an end of its own, as strings, numbers and literals have.
#[inline(always)]
pub fn has_end(kind: MarkKind) -> bool
    ensures { result ≡ is_token kind }
{
    matches!(
        kind,
        MarkKind::String | MarkKind::Number | MarkKind::True | MarkKind::False | MarkKind::Null
    )
}

/// The first of the ends, or `last` where none is left.
fn first_end(ends: &[usize], last: usize) -> usize
    ensures { result ≡ next_end last ends.now }
{
    match ends.first() {
        Some(end) => *end,
        None => last,
    }
}

/// The ends left after a token start of this kind: all but the first where it has an end, else all.
fn later_ends<'a>(kind: MarkKind, ends: &'a [usize]) -> &'a [usize]
    ensures { result.now ≡ ends_after kind ends.now }
{
    if has_end(kind) && !ends.is_empty() {
        &ends[1..]
    } else {
        ends
    }
}

/// The end of a token: the next of the ends, or `last` where none is left. A structural byte takes none.
fn take_end(kind: MarkKind, ends: &mut Ends, last: usize) -> usize
    ensures left { ends.new ≡ ends_after kind ends.old }
    ensures end { is_token kind ≡ true → result ≡ next_end last ends.old }
{
    if !has_end(kind) {
        return last;
    }
    match ends.next() {
        Some(end) => end,
        None => last,
    }
}

/// The nodes of a text that ends at `last`, from the token starts and ends of its reading, which are read
/// where they lie.
pub fn nodes_of_track(
    alloc: Global,
    mut marks: Marks,
    mut ends: Ends,
    last: usize,
) -> Result<Nodes, AllocError>
    ensures rows { IfOk result (λ nodes. AllLow marks.entry → nodes.rows.items ≡ (built_of last marks.entry ends.entry).rows) }
    ensures after { IfOk result (λ nodes. AllLow marks.entry → nodes.after.items ≡ (built_of last marks.entry ends.entry).after) }
{
    let mut builder = Builder::new(alloc);
    while let Some(mark) = marks.next() {
        let end = take_end(mark.kind, &mut ends, last);
        builder.mark(mark.kind, mark.at, end)?;
    }
    Ok(builder.into_nodes())
}

/// The nodes of a text that ends at `last`, from the token starts and ends of its reading.
pub fn nodes_from_marks(
    alloc: Global,
    marks: &[Mark],
    ends: &[usize],
    last: usize,
) -> Result<Nodes, AllocError>
    requires { AllLow marks.now }
    ensures rows { IfOk result (λ nodes. nodes.rows.items ≡ (built_of last marks.now ends.now).rows) }
    ensures after { IfOk result (λ nodes. nodes.after.items ≡ (built_of last marks.now ends.now).after) }
{
    let mut builder = Builder::new(alloc);
    let mut left = ends;
    for mark in marks {
        let end = first_end(left, last);
        left = later_ends(mark.kind, left);
        builder.mark(mark.kind, mark.at, end)?;
    }
    Ok(builder.into_nodes())
}
