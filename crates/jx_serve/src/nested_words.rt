// Values of a document in each other, in messages.
ghost use Rattle.std.specs.Prelude.{◌≡◌, ◌≤◌, ◌<◌, ◌-◌, ◌++◌, ℕ, List, [], true, IfOk, IfSome, OnOk, length, take};
ghost use Rattle.jx_serve.specs.inside.Sound.{back, closings, AddsHead, AreOpen, IsWhole};

use crate::plain::{both, is_plain_value};
use crate::symbol_words::add_named;
use crate::symbols::{Outline, Symbol};
use crate::value_words::{add_ends, begin_list};
use std::alloc::{AllocError, Global};

/// How many values are shown in each other at most. A message has two containers for each.
const LEVELS: usize = 100;

/// Ends so many values.
fn add_closings(out: &mut Vec<u8>, count: usize) -> Result<(), AllocError>
    ensures { OnOk result (out.new.items ≡ out.old.items ++ closings count) }
{
    for number in 0..count {
        out.extend_from_slice(b"]}")?;
    }
    Ok(())
}

/// Ends the values that are open, up to so many.
fn close_to(out: &mut Vec<u8>, levels: &mut Vec<usize>, count: usize) -> Result<(), AllocError>
    ensures bytes { OnOk result (out.new.items ≡ out.old.items ++ closings (length levels.old.items - count)) }
    ensures kept { OnOk result (levels.new.items ≡ take count levels.old.items) }
{
    add_closings(out, levels.len().saturating_sub(count))?;
    levels.truncate(count);
    Ok(())
}

/// How many values are open around one; none where it is not shown, since it is too deep.
fn around(levels: &[usize], symbol: &Symbol) -> Option<usize>
    ensures within { IfSome result (λ count. count ≤ length levels.now) }
    ensures few { IfSome result (λ count. count < 100) }
{
    let count = match symbol.row.parent {
        None => 0,
        Some(parent) => {
            let place = levels.iter().position(|number| *number == parent.number())?;
            place.saturating_add(1)
        }
    };
    if count < LEVELS { Some(count) } else { None }
}

/// Begins a value as a `DocumentSymbol`, in that which is open. Returns whether its name is known to be a string.
fn begin_symbol(
    alloc: Global,
    out: &mut Vec<u8>,
    text: &[u8],
    symbol: &Symbol,
) -> Result<bool, AllocError>
    ensures { IfOk result (λ known. known ≡ true → AddsHead out.old.items out.new.items) }
{
    let known = add_named(alloc, out, text, &symbol.row)?;
    out.extend_from_slice(b"\"range\":")?;
    add_ends(out, symbol.outer, symbol.end)?;
    out.extend_from_slice(b",\"selectionRange\":")?;
    add_ends(out, symbol.outer, symbol.label)?;
    out.extend_from_slice(b",\"children\":[")?;
    Ok(known)
}

/// Ends the values that are open, up to so many. A comma follows where any ends.
fn go_back(out: &mut Vec<u8>, levels: &mut Vec<usize>, count: usize) -> Result<(), AllocError>
    ensures bytes { OnOk result (out.new.items ≡ out.old.items ++ back (length levels.old.items - count)) }
    ensures kept { OnOk result (levels.new.items ≡ take count levels.old.items) }
{
    if levels.len() <= count {
        return Ok(());
    }
    close_to(out, levels, count)?;
    out.extend_from_slice(b",")?;
    Ok(())
}

/// Adds a value in the one that it is of, and leaves it open. What is too deep is left out. Returns whether the name is known to be
/// a string.
fn add_next(
    alloc: Global,
    out: &mut Vec<u8>,
    levels: &mut Vec<usize>,
    text: &[u8],
    number: usize,
    symbol: &Symbol,
) -> Result<bool, AllocError>
    ensures { IfOk result (λ known. known ≡ true → (head : List ℕ) → AreOpen head (length levels.old.items) true out.old.items
        → AreOpen head (length levels.new.items) true out.new.items) }
{
    let Some(count) = around(levels, symbol) else {
        return Ok(true);
    };
    go_back(out, levels, count)?;
    let known = begin_symbol(alloc, out, text, symbol)?;
    levels.push(number)?;
    Ok(known)
}

/// Adds the answer that lists values in each other. What is deeper than 100 levels is left out. Returns whether it is known to be a
/// JSON text that repeats no name.
pub(crate) fn add_nested(
    alloc: Global,
    out: &mut Vec<u8>,
    id: &[u8],
    outline: &Outline,
) -> Result<bool, AllocError>
    requires { out.old.items ≡ [] }
    ensures { IfOk result (λ known. known ≡ true → IsWhole 512 out.new.items) }
{
    begin_list(out, id)?;
    let mut known = is_plain_value(id);
    let mut levels = Vec::new(alloc);
    for (number, symbol) in outline.symbols.iter().enumerate() {
        let is_known = add_next(alloc, out, &mut levels, &outline.text, number, symbol)?;
        known = both(known, is_known);
    }
    close_to(out, &mut levels, 0)?;
    out.extend_from_slice(b"]}")?;
    Ok(known)
}
