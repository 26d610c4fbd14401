// Token starts and ends, each in a vector.
ghost use Rattle.std.specs.Prelude.{◌≡◌, ◌≤◌, ◌++◌, ◌∷◌, [], ℕ, List, length, take, slice_range, OnOk, IfOk};
ghost use Rattle.jx_lex.specs.declared.alphabet.mark.Mark.{Mark};
ghost use Rattle.jx_lex.specs.Lex.{lex};
ghost use Rattle.jx_lex.specs.Seen.{with_tokens};
ghost use Rattle.jx_lex.specs.Exit.{exit_of};

use crate::alphabet::lex_exit::LexExit;
use crate::alphabet::mark::Mark;
use crate::alphabet::state::LexState;
use crate::scanner::scan;
use crate::scanner::sink::TokenSink;
use std::alloc::{AllocError, Global};
use std::marker::Model;

// For each block of so many bytes, room is reserved for a token start to every four bytes and an end to every eight, so
// that the vectors need not grow. Memory that is never written to costs next to nothing.
const BLOCK: usize = 64;

/// All token starts and ends that it is given, in order.
#[derive(Drop)]
pub struct Tokens {
    marks: Vec<Mark>,
    ends: Vec<usize>,
}

impl Model for Tokens {
    ghost use Rattle.jx_lex.specs.Seen.{TokenLists};

    ghost Value = { TokenLists };

    ghost view = { λ t. record { marks = t.marks.items; ends = t.ends.items } };
}

impl Tokens {
    /// The lists with no token start and no end yet. Nothing is allocated.
    pub fn new(alloc: Global) -> Tokens
        ensures { result ≡ record { marks = []; ends = [] } }
    {
        Tokens {
            marks: Vec::new(alloc),
            ends: Vec::new(alloc),
        }
    }

    /// The lists of these token starts and ends.
    pub fn of(marks: Vec<Mark>, ends: Vec<usize>) -> Tokens
        ensures { result ≡ record { marks = marks.items; ends = ends.items } }
    {
        Tokens { marks, ends }
    }

    /// The token starts, in order.
    #[inline(always)]
    pub fn marks(&self) -> &[Mark]
        ensures { result.now ≡ self.now.marks }
    {
        &self.marks
    }

    /// The ends of strings, numbers and literals, in order, each just past the token's last byte.
    #[inline(always)]
    pub fn ends(&self) -> &[usize]
        ensures { result.now ≡ self.now.ends }
    {
        &self.ends
    }

    /// Reads bytes of a text from this state: adds their token starts and ends to those that it has, and gives the
    /// exit.
    pub fn read(
        &mut self,
        state: LexState,
        text: &[u8],
        from: usize,
        to: usize,
    ) -> Result<LexExit, AllocError>
        requires { (from ≤ to) × (to ≤ length text.now) }
        ensures tokens { OnOk result (self.new ≡ with_tokens self.old (lex state from (slice_range text.now from to))) }
        ensures exit { IfOk result (λ exit. exit_of exit ≡ (lex state from (slice_range text.now from to)).exit) }
    {
        let blocks = (to - from) / BLOCK;
        self.reserve(blocks * BLOCK / 4, blocks * BLOCK / 8)?;
        match scan(self, state, text, from, to)? {
            Some(exit) => Ok(exit),
            None => unreachable!(),
        }
    }

    /// Makes room for so many more, so that they can be kept without a move.
    fn reserve(&mut self, marks: usize, ends: usize) -> Result<(), AllocError>
        ensures { OnOk result (self.new ≡ self.old) }
    {
        // The room that is reserved last is mostly free: of many bytes that are read at once, token starts beyond the
        // estimate need no copy of the others.
        if self.marks.is_empty() {
            self.ends.reserve(ends)?;
            self.marks.reserve(marks)?;
            return Ok(());
        }
        self.marks.reserve(marks)?;
        self.ends.reserve(ends)?;
        Ok(())
    }

    /// Keeps only so many of the first token starts and ends.
    pub fn cut_back(&mut self, marks: usize, ends: usize)
        ensures { self.new ≡ record { marks = take marks self.old.marks; ends = take ends self.old.ends } }
    {
        self.marks.truncate(marks);
        self.ends.truncate(ends);
    }

    /// The token starts and the ends.
    pub fn into_lists(self) -> (Vec<Mark>, Vec<usize>)
        ensures { (result.0.items ≡ self.marks) × (result.1.items ≡ self.ends) }
    {
        (self.marks, self.ends)
    }
}

impl TokenSink for Tokens {
    ghost use Rattle.std.specs.Prelude.{◌≡◌};

    ghost has_seen = { λ t marks ends. t ≡ record { marks = marks; ends = ends } };

    ghost awaits = { λ t inside. Unit {0} };

    #[inline(always)]
    fn begin(&mut self, mark: Mark) -> Result<(), AllocError>
        ensures seen { OnOk result ((marks : List Mark) (ends : List ℕ) → self.old ≡ record { marks = marks; ends = ends } → self.new ≡ record { marks = marks ++ mark ∷ []; ends = ends }) }
        ensures kept { OnOk result (self.new ≡ record self.old { marks = self.old.marks ++ mark ∷ [] }) }
    {
        self.marks.push(mark)?;
        Ok(())
    }

    #[inline(always)]
    fn end(&mut self, at: usize) -> Result<(), AllocError>
        ensures seen { OnOk result ((marks : List Mark) (ends : List ℕ) → self.old ≡ record { marks = marks; ends = ends } → self.new ≡ record { marks = marks; ends = ends ++ at ∷ [] }) }
        ensures kept { OnOk result (self.new ≡ record self.old { ends = self.old.ends ++ at ∷ [] }) }
    {
        self.ends.push(at)?;
        Ok(())
    }

    #[inline(always)]
    fn is_done(&self) -> bool {
        false
    }
}
