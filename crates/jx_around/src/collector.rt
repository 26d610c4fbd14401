// The values around an offset, collected as the token starts of a text come.
ghost use Rattle.std.specs.Prelude.{◌≡◌, ◌+◌, ◌<◌, ◌-◌, ◌^◌, length, reverse, IfOk, OnOk};
ghost use Rattle.jx_around.specs.Around.{is_covered};
ghost use Rattle.jx_around.specs.inside.Collecting.{collecting, counted, is_name_next, more_in, nothing_collected, on_token, parent_in, place_in, put_in, row_next, with_leaf, with_level, with_next, without_level};

use crate::around::Around;
use jx_lex::{Kind, MarkKind, Span};
use std::alloc::{AllocError, Global};

/// An open container.
#[derive(Clone, Copy, Debug)]
pub struct Level {
    /// Its row, which ends after its first byte so far.
    pub row: Around,
    /// The number of this row.
    pub number: usize,
    pub is_object: bool,
    /// How many children it has so far.
    pub count: usize,
    /// How many values were collected when it began.
    pub base: usize,
}

/// The values around an offset that have ended, in the order of their starts; how many have begun; the open containers,
/// outermost first; and a name whose value is still to come.
#[derive(Drop)]
pub struct Collector {
    offset: usize,
    number: usize,
    name: Option<Span>,
    opened: Vec<Level>,
    ended: Vec<Around>,
}

/// One more than a number. A text in memory has never so many bytes that this overflows.
fn one_more(number: usize) -> Result<usize, AllocError>
    ensures { IfOk result (λ more. more ≡ number + 1) }
{
    number.checked_add(1).ok_or(AllocError)
}

/// Counts one child more in the innermost open container, if there is one.
fn count_child(opened: &mut Vec<Level>) -> Result<(), AllocError>
    ensures { OnOk result (reverse opened.new.items ≡ more_in (reverse opened.old.items)) }
{
    let depth = opened.len();
    if depth > 0 {
        let top = &mut opened[depth - 1];
        let count = one_more(top.count)?;
        top.count = count;
    }
    Ok(())
}

/// The row of the innermost open container, the parent of a next value; none where none is open.
fn parent_of(opened: &[Level]) -> Option<usize>
    ensures { result ≡ parent_in (reverse opened.now) }
{
    match opened.last() {
        Some(top) => Some(top.number),
        None => None,
    }
}

/// How many children the innermost open container has so far, the place of a next one; 0 where none is open.
fn place_of(opened: &[Level]) -> usize
    ensures { result ≡ place_in (reverse opened.now) }
{
    match opened.last() {
        Some(top) => top.count,
        None => 0,
    }
}

/// Whether the bytes from the first to the last of a value and its name hold an offset.
#[inline(always)]
fn is_covered(offset: usize, name: Option<Span>, value: Span) -> bool
    ensures { result ≡ is_covered offset name value }
{
    match name {
        None => value.start <= offset && offset < value.end,
        Some(name) => { name.start.min(value.start) <= offset && offset < name.end.max(value.end) }
    }
}

/// Puts a value in its place among those that were collected, if it is around an offset.
fn put_in(
    ended: &mut Vec<Around>,
    offset: usize,
    row: Around,
    base: usize,
) -> Result<(), AllocError>
    ensures { OnOk result (ended.new.items ≡ put_in offset row base ended.old.items) }
{
    if is_covered(offset, row.name, row.span) {
        let at = base.min(ended.len());
        ended.insert(at, row)?;
    }
    Ok(())
}

impl Collector {
    /// A collector that has collected nothing, of which no container is open.
    pub(crate) fn new(alloc: Global, offset: usize) -> Collector
        ensures { collecting result ≡ nothing_collected offset }
    {
        Collector {
            offset,
            number: 0,
            name: None,
            opened: Vec::new(alloc),
            ended: Vec::new(alloc),
        }
    }

    /// The row of a value that begins next.
    fn row_next(&self, kind: Kind, span: Span) -> Around
        ensures { result ≡ row_next kind span (collecting self.now) }
    {
        Around {
            kind,
            span,
            parent: parent_of(self.opened.as_slice()),
            place: place_of(self.opened.as_slice()),
            name: self.name,
        }
    }

    /// Counts a value that has begun.
    #[inline(always)]
    fn count(&mut self) -> Result<(), AllocError>
        ensures { OnOk result (collecting self.new ≡ counted (collecting self.old)) }
    {
        let number = one_more(self.number)?;
        self.number = number;
        self.name = None;
        count_child(&mut self.opened)
    }

    /// Collects a value of one token, if it is around the offset.
    #[inline(always)]
    fn collect(&mut self, kind: Kind, span: Span) -> Result<(), AllocError>
        ensures { OnOk result (collecting self.new ≡ with_next kind span (collecting self.old)) }
    {
        if is_covered(self.offset, self.name, span) {
            let row = self.row_next(kind, span);
            self.ended.push(row)?;
        }
        Ok(())
    }

    /// A value of one token.
    #[inline(always)]
    fn leaf(&mut self, kind: Kind, span: Span) -> Result<(), AllocError>
        ensures { OnOk result (collecting self.new ≡ with_leaf kind span (collecting self.old)) }
    {
        self.collect(kind, span)?;
        self.count()
    }

    /// A container begins, and is the innermost open one.
    fn begin(&mut self, kind: Kind, is_object: bool, at: usize) -> Result<(), AllocError>
        ensures { OnOk result (at < 2 ^ 64 - 1 → collecting self.new ≡ with_level kind is_object at (collecting self.old)) }
    {
        let end = at.saturating_add(1);
        let row = self.row_next(kind, Span { start: at, end });
        let number = self.number;
        self.count()?;
        let base = self.ended.len();
        self.opened.push(Level {
            row,
            number,
            is_object,
            count: 0,
            base,
        })?;
        Ok(())
    }

    /// The innermost open container ends, if there is one.
    fn end(&mut self, end: usize) -> Result<(), AllocError>
        ensures { OnOk result (collecting self.new ≡ without_level end (collecting self.old)) }
    {
        let Some(top) = self.opened.pop() else {
            return Ok(());
        };
        let row = Around {
            kind: top.row.kind,
            span: Span {
                start: top.row.span.start,
                end,
            },
            parent: top.row.parent,
            place: top.row.place,
            name: top.row.name,
        };
        put_in(&mut self.ended, self.offset, row, top.base)
    }

    /// Whether a string that comes next is a name: the innermost open container is an object, and no name waits.
    #[inline(always)]
    fn is_name_next(&self) -> bool
        ensures { result ≡ is_name_next (reverse self.now.opened.items) self.now.name }
    {
        match (self.opened.last(), self.name) {
            (Some(top), None) => top.is_object,
            _ => false,
        }
    }

    /// Takes one more token start, and its end where it has one. Fails only when out of memory.
    #[inline(always)]
    pub(crate) fn take(&mut self, kind: MarkKind, at: usize, end: usize) -> Result<(), AllocError>
        ensures { OnOk result (at < 2 ^ 64 - 1 → collecting self.new ≡ on_token kind at end (collecting self.old)) }
    {
        let span = Span { start: at, end };
        match kind {
            MarkKind::OpenArray => self.begin(Kind::Array, false, at),
            MarkKind::OpenObject => self.begin(Kind::Object, true, at),
            MarkKind::CloseArray | MarkKind::CloseObject => self.end(at.saturating_add(1)),
            MarkKind::Colon | MarkKind::Comma => Ok(()),
            MarkKind::String => {
                if self.is_name_next() {
                    self.name = Some(span);
                    Ok(())
                } else {
                    self.leaf(Kind::String, span)
                }
            }
            MarkKind::Number => self.leaf(Kind::Number, span),
            MarkKind::True => self.leaf(Kind::True, span),
            MarkKind::False => self.leaf(Kind::False, span),
            MarkKind::Null => self.leaf(Kind::Null, span),
        }
    }

    /// The values around the offset that have ended.
    pub(crate) fn into_ended(self) -> Vec<Around>
        ensures { result.items ≡ (collecting self).ended }
    {
        self.ended
    }
}
