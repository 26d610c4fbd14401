// The entries of a structure, and where they lead over open containers.
ghost use Rattle.std.specs.Prelude.{◌≤◌, ◌<◌, ◌^◌, IfSome};
ghost use Rattle.jx_reduce.specs.Offsets.{EachIn, RisingFrom};

use crate::reduce::joins::joined_at;
use crate::reduce::marks::marks;
use crate::reduce::outcomes::{push_expect, push_holders, push_offset, push_outcome, push_whole};
use jx_lex::{Depth, Mark};
use jx_reduce::{Holder, Level, Reduced, Reductions};
use std::alloc::{AllocError, Global};
use test_words::{Line, Maker, Out, push_numbers, structure_of};

/// Where a list of so many token starts is cut, if there is a word more.
fn cut(line: &mut Line<'_>, count: usize) -> Option<usize>
    ensures { IfSome result (λ cut. cut ≤ count) }
{
    if line.count() == 0 {
        return None;
    }
    let cut = line.number();
    if cut > count {
        line.refuse();
        return None;
    }
    Some(cut)
}

/// The structure of the token starts in the next word, of two parts that are joined if a word more cuts them.
fn structure(line: &mut Line<'_>, depth: Depth) -> Option<Reductions> {
    let marks = marks(line);
    let made = match cut(line, marks.len()) {
        Some(cut) => joined_at(line.alloc, &marks, cut, depth, Maker::AtOnce),
        None => structure_of(line.alloc, &marks, depth, Maker::AtOnce),
    };
    line.keep(made)
}

/// `reduce DEPTH EXPECT MARKS [CUT]`: levels, open containers, heights, exits and the whole.
pub(crate) fn reduce(line: &mut Line<'_>) {
    let depth = line.depth();
    let expect = line.expect();
    if let Some(all) = structure(line, depth) {
        push_entry(&mut line.out, all.entry(expect));
    }
}

/// `array 4 object - bottom 0`.
fn push_level(out: &mut Out, level: Level) {
    out.push_str("array ");
    push_offset(out, level.array);
    out.push_str(" object ");
    push_offset(out, level.object);
    out.push_str(" bottom ");
    push_offset(out, level.bottom);
}

fn push_levels(out: &mut Out, entry: &Reduced) {
    for index in 0..entry.level_count() {
        if let Some(level) = entry.level(index) {
            out.put(format_args!("level {index}: "));
            push_level(out, level);
            out.push_str("; ");
        }
    }
    if entry.level(entry.level_count()).is_some() {
        out.push_str("one level more; ");
    }
}

fn push_entry(out: &mut Out, entry: &Reduced) {
    push_levels(out, entry);
    out.push_str("opens ");
    push_holders(out, entry.opens());
    out.push_str("; heights ");
    push_numbers(out, entry.heights());
    out.push_str("; exits array ");
    push_expect(out, entry.exit_of(Holder::Array));
    out.push_str(" object ");
    push_expect(out, entry.exit_of(Holder::Object));
    out.push_str(" bottom ");
    push_expect(out, entry.exit_of(Holder::Bottom));
    out.push_str("; ");
    push_whole(out, entry.whole());
}

/// Writes where the entry leads over these open containers, if there are no more than its depth.
fn push_act(line: &mut Line<'_>, entry: &Reduced, holders: &[Holder]) {
    if holders.len() > entry.depth().containers() as usize {
        return line.refuse();
    }
    if let Some(outcome) = line.keep(entry.act(holders)) {
        push_outcome(&mut line.out, &outcome);
    }
}

/// `act DEPTH EXPECT HOLDERS MARKS [CUT]`
pub(crate) fn act(line: &mut Line<'_>) {
    let depth = line.depth();
    let expect = line.expect();
    let holders = line.holders();
    if let Some(all) = structure(line, depth) {
        push_act(line, all.entry(expect), &holders);
    }
}

/// The structure of the token starts so many bytes further on.
fn further_on(
    alloc: Global,
    marks: &[Mark],
    depth: Depth,
    by: usize,
) -> Result<Reductions, AllocError>
    requires rising { RisingFrom 0 marks.now }
    requires low { EachIn (λ m. (0 ≤ m.at) × (m.at < 2 ^ 32)) marks.now }
    requires near { by < 2 ^ 32 }
{
    let near = structure_of(alloc, marks, depth, Maker::AtOnce)?;
    Ok(near.shifted(by))
}

/// `further BY DEPTH EXPECT HOLDERS MARKS`: `act` of the same token starts so many bytes further on, and the heights.
pub(crate) fn further(line: &mut Line<'_>) {
    let by = line.number();
    let depth = line.depth();
    let expect = line.expect();
    let holders = line.holders();
    let marks = marks(line);
    if by >= 4294967296 {
        return line.refuse();
    }
    let far = further_on(line.alloc, &marks, depth, by);
    if let Some(far) = line.keep(far) {
        let entry = far.entry(expect);
        push_act(line, entry, &holders);
        line.out.push_str("; heights ");
        push_numbers(&mut line.out, entry.heights());
    }
}
