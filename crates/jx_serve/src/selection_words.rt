// The values around places of a document, in messages.
ghost use Rattle.std.specs.Prelude.{◌≡◌, ◌++◌, ℕ, List, [], suc, true, IfOk, OnOk, codes, length};
ghost use Rattle.jx_serve.specs.Words.{ends, range};
ghost use Rattle.jx_serve.specs.inside.Sound.{braces, AddsValue, AreRanges, IsWhole};

use crate::plain::{both, is_plain_value};
use crate::selections::{Extent, LEVELS, Selection};
use crate::value_words::{add_comma, add_range, begin_list};
use std::alloc::AllocError;

/// Begins a `SelectionRange`, up to the one that it is in.
fn begin_extent(out: &mut Vec<u8>, extent: Extent) -> Result<(), AllocError>
    ensures words { OnOk result (out.new.items ≡ (out.old.items ++ codes "{") ++ range extent.start extent.end) }
    ensures value { OnOk result ((limit : ℕ) → IsWhole (suc (suc limit)) (ends extent.start extent.end)) }
{
    out.extend_from_slice(b"{")?;
    add_range(out, extent.start, extent.end)
}

/// Begins ranges, from the innermost on, each as the parent of the one before it, which is open.
fn begin_parents(out: &mut Vec<u8>, outer: &[Extent]) -> Result<(), AllocError>
    ensures { OnOk result ((before : List ℕ) → AreRanges 1 before out.old.items → AreRanges (suc (length outer.now)) before out.new.items) }
{
    for number in (0..outer.len()).rev() {
        out.extend_from_slice(b",\"parent\":")?;
        begin_extent(out, outer[number])?;
    }
    Ok(())
}

/// Ends so many ranges.
fn close(out: &mut Vec<u8>, count: usize) -> Result<(), AllocError>
    ensures { OnOk result (out.new.items ≡ out.old.items ++ braces count) }
{
    for number in 0..count {
        out.extend_from_slice(b"}")?;
    }
    Ok(())
}

/// Adds a range and those that it is in, the innermost of them last. Returns whether they are known to be no deeper than a message may be.
fn add_ranges(out: &mut Vec<u8>, inner: Extent, outer: &[Extent]) -> Result<bool, AllocError>
    ensures { IfOk result (λ known. known ≡ true → AddsValue 510 out.old.items out.new.items) }
{
    begin_extent(out, inner)?;
    begin_parents(out, outer)?;
    close(out, outer.len() + 1)?;
    Ok(outer.len() < LEVELS)
}

/// Adds a `SelectionRange`: the ranges around a place, or an empty one there.
fn add_selection(out: &mut Vec<u8>, selection: &Selection) -> Result<bool, AllocError>
    ensures { IfOk result (λ known. known ≡ true → AddsValue 510 out.old.items out.new.items) }
{
    let place = Extent {
        start: selection.place,
        end: selection.place,
    };
    match selection.around.split_last() {
        None => add_ranges(out, place, &[]),
        Some((inner, outer)) => add_ranges(out, *inner, outer),
    }
}

/// Adds the answer that lists the values around places. Returns whether it is known to be a JSON text that repeats no name.
pub(crate) fn add_selected(
    out: &mut Vec<u8>,
    id: &[u8],
    selections: &[Selection],
) -> Result<bool, AllocError>
    requires { out.old.items ≡ [] }
    ensures { IfOk result (λ known. known ≡ true → IsWhole 512 out.new.items) }
{
    begin_list(out, id)?;
    let mut known = is_plain_value(id);
    for (number, selection) in selections.iter().enumerate() {
        add_comma(out, number == 0)?;
        let is_known = add_selection(out, selection)?;
        known = both(known, is_known);
    }
    out.extend_from_slice(b"]}")?;
    Ok(known)
}
