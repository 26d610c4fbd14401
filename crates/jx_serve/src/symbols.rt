// The values of a document, for an outline.
ghost use Rattle.std.specs.Prelude.{◌≡◌, ◌≤◌, ◌<◌, ℕ, List, nat_le, IfOk, IfSome, length, map, min, position, take};
ghost use Rattle.jx_edit.specs.Positions.{position_at};
ghost use Rattle.jx_edit.specs.declared.positions.encoding.Encoding.{Encoding};
ghost use Rattle.jx_index.specs.declared.row.Row.{Row};
ghost use Rattle.jx_serve.specs.Selections.{extent_of};
ghost use Rattle.jx_serve.specs.Values.{label_of, most_symbols, outer_start, rows_before, symbol_of};

use crate::near::{Known, beginning, position_near};
use crate::selections::Extent;
use crate::under_cursor::start_of;
use jx_edit::{Document, Encoding, Position};
use jx_index::Row;
use jx_lex::{Kind, Span};
use std::alloc::{AllocError, Global};

/// How many values are listed at most.
const MOST: usize = 10_000;

/// A value, and its positions in a document.
#[derive(Clone, Copy, Debug)]
pub struct Symbol {
    pub row: Row,
    /// Where its member begins, at the name, or the value that has none.
    pub outer: Position,
    /// Where its name ends, or the value that has none.
    pub label: Position,
    pub start: Position,
    pub end: Position,
}

/// Values of a document, in the order of their starts.
#[derive(Debug, Drop)]
pub struct Outline {
    /// The text that is read in place of the document's bytes, in which names are as they were written.
    pub text: Vec<u8>,
    pub symbols: Vec<Symbol>,
}

/// The name of a row, or its value where it has none.
fn label_of(row: &Row) -> Span
    ensures { result ≡ label_of row.now.name row.now.span }
{
    match row.name {
        Some(name) => name,
        None => row.span,
    }
}

/// The positions of both ends of a value, as far as so many bytes go. Those of its member's start and of its name's end are known, which
/// are the value's own where it has no name.
fn extent_of(
    document: &Document,
    before: &[u8],
    kept: usize,
    row: &Row,
    outer: Known,
    label: Known,
    encoding: Encoding,
) -> Extent
    requires begins { take (length before.now) document.now.bytes ≡ before.now }
    requires outer { outer.position ≡ position_at encoding document.now.bytes (outer_start row.now) }
    requires label { label.position ≡ position_at encoding document.now.bytes label.offset }
    requires ends { label.offset ≡ min kept (label_of row.now.name row.now.span).end }
    ensures { result ≡ extent_of encoding document.now.bytes kept row.now.span }
{
    match row.name {
        None => Extent {
            start: outer.position,
            end: label.position,
        },
        Some(_) => {
            let start = position_near(document, before, label, row.span.start, encoding);
            let end = kept.min(row.span.end);
            let end = position_near(document, before, start, end, encoding);
            Extent {
                start: start.position,
                end: end.position,
            }
        }
    }
}

/// A value with its positions, as far as so many bytes go. They are counted on from one that is known.
fn symbol_of(
    document: &Document,
    before: &[u8],
    kept: usize,
    row: &Row,
    known: Known,
    encoding: Encoding,
) -> Symbol
    requires begins { take (length before.now) document.now.bytes ≡ before.now }
    requires known { known.position ≡ position_at encoding document.now.bytes known.offset }
    ensures { result ≡ symbol_of encoding document.now.bytes kept row.now }
{
    let from = start_of(row.name, row.span);
    let outer = position_near(document, before, known, from, encoding);
    let name_end = kept.min(label_of(row).end);
    let label = position_near(document, before, outer, name_end, encoding);
    let extent = extent_of(document, before, kept, row, outer, label, encoding);
    Symbol {
        row: *row,
        outer: outer.position,
        label: label.position,
        start: extent.start,
        end: extent.end,
    }
}

/// The place that is known behind a value: where a container begins, which has others in it, or where another value ends.
fn known_behind(symbol: &Symbol, kept: usize) -> Known
    ensures { (encoding : Encoding) (bytes : List ℕ) (row : Row) → symbol.now ≡ symbol_of encoding bytes kept row → result.position ≡ position_at encoding bytes result.offset }
{
    match symbol.row.kind {
        Kind::Object | Kind::Array => Known {
            offset: symbol.row.span.start,
            position: symbol.start,
        },
        Kind::String | Kind::Number | Kind::True | Kind::False | Kind::Null => Known {
            offset: kept.min(symbol.row.span.end),
            position: symbol.end,
        },
    }
}

/// The number of the first row that does not begin before an offset, if there is one.
fn first_behind(rows: &[Row], offset: usize) -> Option<usize>
    ensures first { result ≡ position (λ (row : Row). nat_le offset row.span.start) rows.now }
    ensures within { IfSome result (λ number. number < length rows.now) }
{
    rows.iter().position(|row| offset <= row.span.start)
}

/// How many rows come before the first that does not begin before an offset.
fn count_before(rows: &[Row], kept: usize) -> usize
    ensures rows { take result rows.now ≡ rows_before kept rows.now }
    ensures within { result ≤ length rows.now }
{
    match first_behind(rows, kept) {
        Some(number) => number,
        None => rows.len(),
    }
}

/// The first 10,000 values that begin before an offset, with their positions. The text begins with the bytes before the offset.
pub(crate) fn symbols_of(
    alloc: Global,
    document: &Document,
    text: &[u8],
    rows: &[Row],
    kept: usize,
    encoding: Encoding,
) -> Result<Vec<Symbol>, AllocError>
    requires begins { take kept text.now ≡ take kept document.now.bytes }
    ensures { IfOk result (λ symbols. symbols.items ≡ map (symbol_of encoding document.now.bytes kept) (take most_symbols (rows_before kept rows.now))) }
{
    let count = count_before(rows, kept);
    let first = &rows[..MOST.min(count)];
    let before = beginning(text, kept);
    let mut known = Known {
        offset: 0,
        position: document.position_of(0, encoding),
    };
    let mut symbols = Vec::with_capacity(alloc, first.len())?;
    for row in first {
        let symbol = symbol_of(document, before, kept, row, known, encoding);
        known = known_behind(&symbol, kept);
        symbols.push(symbol)?;
    }
    Ok(symbols)
}
