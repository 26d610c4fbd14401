// A token sink that collects the values around an offset.
ghost use Rattle.std.specs.Prelude.{◌≡◌, [], ℕ, List, false, is_some, IfOk};
ghost use Rattle.jx_lex.specs.declared.alphabet.mark.Mark.{Mark};
ghost use Rattle.jx_index.specs.inside.Building.{built_of};
ghost use Rattle.jx_index.specs.inside.InOrder.{HasSeen};
ghost use Rattle.jx_index.specs.inside.Low.{AllLow};
ghost use Rattle.jx_around.specs.inside.Collecting.{collecting, Follows};

use crate::collector::Collector;
use jx_index::has_end;
use jx_lex::{Mark, TokenSink};
use std::alloc::{AllocError, Global};
use std::marker::{Brand, PhantomData};

/// The offset that values are around. A call picks it.
pub trait Offset {
    ghost use Rattle.std.specs.Prelude.{ℕ};

    ghost offset: { ℕ };
}

impl Offset for Brand {
    ghost offset = { 0 };
}

/// A collector that takes the tokens of a text from its start.
#[derive(Drop)]
pub struct OnTokens<O> {
    collector: Collector,
    /// A token that has begun and not ended.
    begun: Option<Mark>,
    around: PhantomData<O>,
}

impl<O: Offset> OnTokens<O> {
    /// A sink that has been given no token start and no end yet.
    pub(crate) fn new(alloc: Global, offset: usize) -> OnTokens<O>
        requires { offset ≡ O.offset }
        ensures seen { HasSeen (Follows O.offset (collecting result.collector)) [] [] result.begun }
        ensures turn { is_some result.begun ≡ false }
    {
        OnTokens {
            collector: Collector::new(alloc, offset),
            begun: None,
            around: PhantomData,
        }
    }

    /// The collector after the whole text, which ends at `last`.
    pub(crate) fn finish(self, last: usize) -> Result<Collector, AllocError>
        ensures { IfOk result (λ done. (marks : List Mark) (ends : List ℕ) → AllLow marks → HasSeen (Follows O.offset (collecting self.collector)) marks ends self.begun
            → Follows O.offset (collecting done) (built_of last marks ends)) }
    {
        let Some(mark) = self.begun else {
            return Ok(self.collector);
        };
        let mut collector = self.collector;
        collector.take(mark.kind, mark.at, last)?;
        Ok(collector)
    }
}

impl<O: Offset> TokenSink for OnTokens<O> {
    ghost use Rattle.std.specs.Prelude.{◌≡◌, is_some};
    ghost use Rattle.jx_index.specs.inside.InOrder.{HasSeen};
    ghost use Rattle.jx_around.specs.inside.Collecting.{collecting, Follows};

    ghost has_seen = { λ sink marks ends. HasSeen (Follows O.offset (collecting sink.collector)) marks ends sink.begun };

    ghost awaits = { λ sink inside. is_some sink.begun ≡ inside };

    #[inline(always)]
    fn begin(&mut self, mark: Mark) -> Result<(), AllocError> {
        if has_end(mark.kind) {
            self.begun = Some(mark);
            return Ok(());
        }
        self.collector.take(mark.kind, mark.at, 0)?;
        Ok(())
    }

    #[inline(always)]
    fn end(&mut self, at: usize) -> Result<(), AllocError> {
        let Some(mark) = self.begun else {
            unreachable!()
        };
        self.collector.take(mark.kind, mark.at, at)?;
        self.begun = None;
        Ok(())
    }

    fn is_done(&self) -> bool {
        false
    }

    #[inline(always)]
    fn token(&mut self, mark: Mark, to: usize) -> Result<(), AllocError> {
        self.collector.take(mark.kind, mark.at, to)?;
        Ok(())
    }
}
