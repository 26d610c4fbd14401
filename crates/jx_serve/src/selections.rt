// The values and members around places of a document.
ghost use Rattle.std.specs.Prelude.{◌≡◌, ◌++◌, Some, IfOk, OnOk, map};
ghost use Rattle.std.specs.List.{flat_map};
ghost use Rattle.jx_serve.specs.Selections.{around, chain_before, extent_of, held_span, innermost, is_held, spans_at, IsSelection, AreSelectionsOf};

use crate::held::position_of;
use jx_edit::{Document, Encoding, Position};
use jx_index::Row;
use jx_lex::Span;
use jx_wire::Place;
use std::alloc::{AllocError, Global};

/// A range of a document: the positions of both its ends.
#[derive(Clone, Copy, Debug)]
pub struct Extent {
    pub start: Position,
    pub end: Position,
}

/// The most ranges that are listed around a place. A message has a container for each.
pub(crate) const LEVELS: usize = 200;

/// A place of a document, and the innermost values, names and members that hold it, each with those in it after it.
#[derive(Debug, Drop)]
pub struct Selection {
    pub place: Position,
    pub around: Vec<Extent>,
}

/// Whether a span holds an offset.
fn is_held(span: Span, offset: usize) -> bool
    ensures { result ≡ is_held offset span }
{
    span.start <= offset && offset < span.end
}

/// Adds a span if it holds an offset.
fn add_held(chain: &mut Vec<Span>, span: Span, offset: usize) -> Result<(), AllocError>
    ensures { OnOk result (chain.new.items ≡ chain.old.items ++ held_span offset span) }
{
    if is_held(span, offset) {
        chain.push(span)?;
    }
    Ok(())
}

/// Adds what holds an offset of a member, its name and its value.
fn add_member(
    chain: &mut Vec<Span>,
    name: Span,
    value: Span,
    offset: usize,
) -> Result<(), AllocError>
    ensures { OnOk result (chain.new.items ≡ chain.old.items ++ around offset (Some name) value) }
{
    let member = Span {
        start: name.start,
        end: value.end,
    };
    add_held(chain, member, offset)?;
    add_held(chain, name, offset)?;
    add_held(chain, value, offset)?;
    Ok(())
}

/// Adds the spans that hold an offset, of a value that may have a name.
fn add_around(chain: &mut Vec<Span>, row: &Row, offset: usize) -> Result<(), AllocError>
    ensures { OnOk result (chain.new.items ≡ chain.old.items ++ spans_at offset row.now) }
{
    match row.name {
        Some(name) => add_member(chain, name, row.span, offset),
        None => add_held(chain, row.span, offset),
    }
}

/// The spans that hold an offset, in the order of their starts.
fn chain_of(alloc: Global, rows: &[Row], offset: usize) -> Result<Vec<Span>, AllocError>
    ensures { IfOk result (λ chain. chain.items ≡ flat_map (spans_at offset) rows.now) }
{
    let mut chain = Vec::new(alloc);
    for row in rows {
        add_around(&mut chain, row, offset)?;
    }
    Ok(chain)
}

/// The spans that hold an offset, in the order of their starts, where the offset is before so many bytes.
fn chain_before(
    alloc: Global,
    rows: &[Row],
    kept: usize,
    offset: usize,
) -> Result<Vec<Span>, AllocError>
    ensures { IfOk result (λ chain. chain.items ≡ chain_before kept offset rows.now) }
{
    if kept <= offset {
        return Ok(Vec::new(alloc));
    }
    chain_of(alloc, rows, offset)
}

/// A span with its positions, as far as so many bytes go.
fn extent_of(document: &Document, kept: usize, span: &Span, encoding: Encoding) -> Extent
    ensures { result ≡ extent_of encoding document.now.bytes kept span.now }
{
    Extent {
        start: document.position_of(span.start, encoding),
        end: document.position_of(kept.min(span.end), encoding),
    }
}

fn extents_of(
    alloc: Global,
    document: &Document,
    kept: usize,
    spans: &[Span],
    encoding: Encoding,
) -> Result<Vec<Extent>, AllocError>
    ensures { IfOk result (λ extents. extents.items ≡ map (extent_of encoding document.now.bytes kept) spans.now) }
{
    let mut extents = Vec::new(alloc);
    for span in spans {
        extents.push(extent_of(document, kept, span, encoding))?;
    }
    Ok(extents)
}

/// The last 200 spans of a chain, which stand in all others.
fn innermost(chain: &[Span]) -> &[Span]
    ensures { result.now ≡ innermost chain.now }
{
    &chain[chain.len().saturating_sub(LEVELS)..]
}

/// The ranges that hold a place of a document.
fn selection_at(
    alloc: Global,
    document: &Document,
    rows: &[Row],
    kept: usize,
    place: Place,
    encoding: Encoding,
) -> Result<Selection, AllocError>
    ensures { IfOk result (IsSelection encoding document.now.bytes kept rows.now place) }
{
    let offset = document.offset_of(position_of(place), encoding);
    let chain = chain_before(alloc, rows, kept, offset)?;
    let inner = innermost(&chain);
    let around = extents_of(alloc, document, kept, inner, encoding)?;
    let place = document.position_of(offset, encoding);
    Ok(Selection { place, around })
}

/// The ranges that hold each of some places of a document.
pub(crate) fn selections_of(
    alloc: Global,
    document: &Document,
    rows: &[Row],
    kept: usize,
    places: &[Place],
    encoding: Encoding,
) -> Result<Vec<Selection>, AllocError>
    ensures { IfOk result (λ selections. AreSelectionsOf encoding document.now.bytes kept rows.now places.now selections.items) }
{
    let mut selections = Vec::new(alloc);
    for place in places {
        let selection = selection_at(alloc, document, rows, kept, *place, encoding)?;
        selections.push(selection)?;
    }
    Ok(selections)
}
