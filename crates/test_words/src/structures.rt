// The structures of lists of token starts and of both parts of a list, made in two ways.
ghost use Rattle.std.specs.Prelude.{◌≡◌, ◌≤◌, ◌<◌, ℕ, IfOk, length};
ghost use Rattle.jx_reduce.specs.Offsets.{EachIn, RisingFrom};
ghost use Rattle.jx_reduce.specs.Reductions.{IsBefore, SpansIn};

use jx_lex::{Depth, Mark};
use jx_reduce::{Reducer, Reductions};
use std::alloc::{AllocError, Global};

/// How a structure is made of token starts.
#[derive(Clone, Copy)]
pub enum Maker {
    /// Of all of them at once.
    AtOnce,
    /// By a reducer, one by one.
    OneByOne,
}

/// The structure of token starts.
pub fn structure_of(
    alloc: Global,
    marks: &[Mark],
    depth: Depth,
    maker: Maker,
) -> Result<Reductions, AllocError>
    requires rising { RisingFrom 0 marks.now }
    ensures depth { IfOk result (λ f. f.depth ≡ depth) }
    ensures offsets { IfOk result (λ f. (low high : ℕ) → EachIn (λ m. (low ≤ m.at) × (m.at < high)) marks.now → SpansIn low high f) }
{
    match maker {
        Maker::AtOnce => Reductions::of(alloc, marks, depth),
        Maker::OneByOne => reduced_of(alloc, marks, depth),
    }
}

/// The structure of token starts that a reducer is given one by one.
fn reduced_of(alloc: Global, marks: &[Mark], depth: Depth) -> Result<Reductions, AllocError>
    requires rising { RisingFrom 0 marks.now }
    ensures depth { IfOk result (λ f. f.depth ≡ depth) }
    ensures offsets { IfOk result (λ f. (low high : ℕ) → EachIn (λ m. (low ≤ m.at) × (m.at < high)) marks.now → SpansIn low high f) }
{
    let mut reducer = Reducer::new(alloc, depth);
    for mark in marks {
        reducer.push(*mark)?;
    }
    reducer.finish()
}

/// The structures of both parts of a list that is cut there. They may be joined.
pub fn parts_of(
    alloc: Global,
    marks: &[Mark],
    cut: usize,
    depth: Depth,
    maker: Maker,
) -> Result<(Reductions, Reductions), AllocError>
    requires rising { RisingFrom 0 marks.now }
    requires cut { cut ≤ length marks.now }
    ensures before { IfOk result (λ parts. IsBefore parts.0 parts.1) }
    ensures depths { IfOk result (λ parts. (parts.0.depth ≡ depth) × (parts.1.depth ≡ depth)) }
{
    let left = structure_of(alloc, &marks[..cut], depth, maker)?;
    let right = structure_of(alloc, &marks[cut..], depth, maker)?;
    Ok((left, right))
}
