// Structures that are built of the tokens of a text as a scan finds them.
ghost use Rattle.std.specs.Prelude.{◌≡◌, ◌<◌, ◌-◌, ◌^◌, [], ℕ, List, false, is_some, IfOk};
ghost use Rattle.jx_lex.specs.declared.alphabet.mark.Mark.{Mark};
ghost use Rattle.jx_index.specs.inside.Building.{Building, built_of, nothing_built, on_mark};
ghost use Rattle.jx_index.specs.inside.Built.{Fits};
ghost use Rattle.jx_index.specs.inside.InOrder.{HasSeen};
ghost use Rattle.jx_index.specs.inside.Low.{AllLow};

use crate::builder::has_end;
use jx_lex::{Mark, MarkKind, TokenSink};
use std::alloc::AllocError;

/// Takes the token starts of a text in order, each with the end of its token. `holds` says what building it may stand
/// for.
pub trait Marking {
    ghost holds: { Self → Building → Type 0 };

    /// Takes one more token start, and its end where it has one. Fails only when out of memory.
    fn take(&mut self, kind: MarkKind, at: usize, end: usize) -> Result<(), AllocError>
        ensures { IfOk result (λ _. (b : Building) → Fits b → at < 2 ^ 64 - 1 → holds self.old b → holds self.new (on_mark kind at end b)) };
}

/// A sink that takes the tokens of a text from its start.
#[derive(Drop)]
pub struct InOrder<B: Drop> {
    builder: B,
    /// A token that has begun and not ended.
    begun: Option<Mark>,
}

impl<B: Marking + Drop> InOrder<B> {
    /// A sink that has been given no token start and no end yet.
    pub fn new(builder: B) -> InOrder<B>
        requires { B.holds builder nothing_built }
        ensures seen { HasSeen (B.holds result.builder) [] [] result.begun }
        ensures turn { is_some result.begun ≡ false }
    {
        InOrder {
            builder,
            begun: None,
        }
    }

    /// The structure built of the whole text, which ends at `last`.
    pub fn finish(self, last: usize) -> Result<B, AllocError>
        ensures { IfOk result (λ taken. (marks : List Mark) (ends : List ℕ) → AllLow marks → HasSeen (B.holds self.builder) marks ends self.begun → B.holds taken (built_of last marks ends)) }
    {
        let Some(mark) = self.begun else {
            return Ok(self.builder);
        };
        let mut builder = self.builder;
        builder.take(mark.kind, mark.at, last)?;
        Ok(builder)
    }
}

impl<B: Marking + Drop> TokenSink for InOrder<B> {
    ghost use Rattle.std.specs.Prelude.{◌≡◌, is_some};
    ghost use Rattle.jx_index.specs.inside.InOrder.{HasSeen};

    ghost has_seen = { λ sink marks ends. HasSeen (B.holds sink.builder) marks ends sink.begun };

    ghost awaits = { λ sink inside. is_some sink.begun ≡ inside };

    #[inline(always)]
    fn begin(&mut self, mark: Mark) -> Result<(), AllocError> {
        if has_end(mark.kind) {
            self.begun = Some(mark);
            return Ok(());
        }
        self.builder.take(mark.kind, mark.at, 0)?;
        Ok(())
    }

    #[inline(always)]
    fn end(&mut self, at: usize) -> Result<(), AllocError> {
        let Some(mark) = self.begun else {
            unreachable!()
        };
        self.builder.take(mark.kind, mark.at, at)?;
        self.begun = None;
        Ok(())
    }

    fn is_done(&self) -> bool {
        false
    }
}
