// Tokens that are reduced as they come.

ghost use Rattle.std.specs.Prelude.{◌≡◌, ◌↔◌, ◌≤◌, ◌<◌, ◌++◌, ℕ, List, [], ◌∷◌, true, false, IsTrue, OnOk, IfOk};
ghost use Rattle.jx_reduce.specs.Offsets.{RisingFrom, EachIn};
ghost use Rattle.jx_reduce.specs.Reducer.{HasReduced, past};
ghost use Rattle.jx_reduce.specs.Reductions.{IsOf, SpansIn};
ghost use Rattle.jx_reduce.specs.Structure as structure;
ghost use Rattle.jx_reduce.specs.Structure.{AreIn};
ghost use Rattle.jx_lex.specs.declared.alphabet.mark.Mark.{Mark};

use crate::forms::quiet::Limits;
use crate::forms::structure::{Making, Structure};
use crate::reducing::reductions::Reductions;
use jx_lex::{Depth, Mark};
use std::alloc::{AllocError, Global};
use std::marker::Model;
use std::mem;

/// A structure in the making, from tokens that are given one by one, in the order of their offsets. Each is read at
/// once, and no token is kept.
#[derive(Drop)]
pub struct Reducer {
    alloc: Global,
    depth: Depth,
    making: Making,
    limits: Limits,
    last: Option<usize>,
    rising: bool,
}

impl Model for Reducer {
    ghost use Rattle.jx_reduce.specs.Reducer.{ReducerValue};

    ghost Value = { ReducerValue };

    ghost use Rattle.jx_reduce.specs.inside.Reducers.{reducer_of, IsReducing};

    ghost view = { reducer_of };

    ghost invariant = { IsReducing };
}

/// Whether an offset lies past the last.
fn is_past(last: Option<usize>, at: usize) -> bool
    ensures { IsTrue result ↔ past last ≤ at }
{
    match last {
        Some(before) => before < at,
        None => true,
    }
}

impl Reducer {
    /// A reducer of no tokens so far. It takes no memory.
    pub fn new(alloc: Global, depth: Depth) -> Reducer
        ensures depth { result.depth ≡ depth }
        ensures none { HasReduced [] result }
    {
        Reducer::behind(Structure::new(alloc, depth), None)
    }

    /// A reducer of tokens that have led to this structure.
    fn behind(structure: Structure, last: Option<usize>) -> Reducer
        requires below { AreIn (λ p. p < past last) structure }
        ensures { result ≡ record { depth = structure.depth; structure = structure; last = last; rising = true } }
    {
        let alloc = structure.allocator();
        let depth = structure.depth();
        let making = structure.into_making();
        let limits = making.levels.limits(depth.containers() as usize);
        Reducer {
            alloc,
            depth,
            making,
            limits,
            last,
            rising: true,
        }
    }

    /// The structure so far.
    fn structure(self) -> Structure
        requires rising { self.rising ≡ true }
        ensures same { result ≡ self.structure }
        ensures depth { self.structure.depth ≡ self.depth }
        ensures below { AreIn (λ p. p < past self.last) self.structure }
    {
        let Reducer {
            alloc,
            depth,
            making,
            ..
        } = self;
        Structure::of_making(alloc, depth, making)
    }

    /// Reads a token that changes at most what is open and what may stand next. Answers whether it did.
    #[inline(always)]
    fn pass(&mut self, mark: Mark) -> bool
        ensures depth { self.new.depth ≡ self.old.depth }
        ensures marks { result ≡ true → (marks : List Mark) → HasReduced marks self.old → HasReduced (marks ++ mark ∷ []) self.new }
        ensures same { result ≡ false → self.new ≡ self.old }
    {
        self.making.levels.pass_quiet(&mut self.limits, mark)
    }

    /// Whether nothing goes on after the tokens, whatever was open. Then no token changes anything.
    #[inline(always)]
    pub fn is_over(&self) -> bool
        ensures { IsTrue result → (marks more : List Mark) → HasReduced marks self.now → HasReduced (marks ++ more) self.now }
    {
        self.making.levels.exit.is_none() && self.making.first.is_some()
    }

    /// Reads any other token. It fails only when out of memory.
    #[cold]
    #[inline(never)]
    fn read(&mut self, mark: Mark) -> Result<(), AllocError>
        ensures depth { self.new.depth ≡ self.old.depth }
        ensures marks { OnOk result ((marks : List Mark) → HasReduced marks self.old → HasReduced (marks ++ mark ∷ []) self.new) }
    {
        if self.is_over() {
            return Ok(());
        }
        if !self.rising || !is_past(self.last, mark.at) {
            self.rising = false;
            return Ok(());
        }
        // The structure is lost when out of memory. Then nothing is promised of the tokens, as where they don't rise.
        let mut lost = Reducer::new(self.alloc, self.depth);
        lost.rising = false;
        let structure = mem::replace(self, lost).structure();
        *self = Reducer::behind(structure.read_on(&[mark])?, Some(mark.at));
        Ok(())
    }

    /// Pushes one more token. It fails only when out of memory.
    #[inline(always)]
    pub fn push(&mut self, mark: Mark) -> Result<(), AllocError>
        ensures depth { self.new.depth ≡ self.old.depth }
        ensures marks { OnOk result ((marks : List Mark) → HasReduced marks self.old → HasReduced (marks ++ mark ∷ []) self.new) }
    {
        if self.pass(mark) {
            return Ok(());
        }
        self.read(mark)?;
        Ok(())
    }

    /// The structure of the tokens that it was given. It fails only when out of memory.
    pub fn into_structure(self) -> Result<Structure, AllocError>
        ensures depth { IfOk result (λ f. f.depth ≡ self.depth) }
        ensures reads { (marks : List Mark) → HasReduced marks self → RisingFrom 0 marks → IfOk result (structure.IsOf marks) }
        ensures offsets { (marks : List Mark) → HasReduced marks self → RisingFrom 0 marks → IfOk result (λ f. (low high : ℕ) → EachIn (λ m. (low ≤ m.at) × (m.at < high)) marks → structure.SpansIn low high f) }
    {
        if self.rising {
            Ok(self.structure())
        } else {
            // Tokens whose offsets don't rise have no structure.
            Ok(Structure::new(self.alloc, self.depth))
        }
    }

    /// The structure of the tokens that it was given, from each expectation. It fails only when out of memory.
    pub fn finish(self) -> Result<Reductions, AllocError>
        ensures depth { IfOk result (λ f. f.depth ≡ self.depth) }
        ensures reads { (marks : List Mark) → HasReduced marks self → RisingFrom 0 marks → IfOk result (IsOf marks) }
        ensures offsets { (marks : List Mark) → HasReduced marks self → RisingFrom 0 marks → IfOk result (λ f. (low high : ℕ) → EachIn (λ m. (low ≤ m.at) × (m.at < high)) marks → SpansIn low high f) }
    {
        let structure = self.into_structure()?;
        Reductions::of_structure(&structure)
    }
}
