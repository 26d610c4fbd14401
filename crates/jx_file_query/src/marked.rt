// A sink that is given the token starts of a chunk.
ghost use Rattle.std.specs.Prelude.{◌≡◌, []};
ghost use Rattle.jx_file_query.specs.Cuts.{cuts_of};
ghost use Rattle.jx_file_query.specs.inside.Marked.{HasCut};

use crate::cutting::{Aim, Parting};
use jx_lex::{Mark, TokenSink};
use std::alloc::AllocError;
use std::marker::{Brand, PhantomData};

/// The state before a chunk, for which container, and where the chunk is. A call picks them.
pub trait Earlier {
    ghost use Rattle.std.specs.Prelude.{ℕ};
    ghost use Rattle.jx_file_query.specs.declared.cutting.Aim.{Aim};
    ghost use Rattle.jx_file_query.specs.Cuts.{Cuts};

    ghost aim: { Aim };

    ghost base: { ℕ };

    ghost cuts: { Cuts };
}

impl Earlier for Brand {
    ghost use Rattle.jx_run.specs.Tree.{span};
    ghost use Rattle.jx_file_query.specs.Cuts.{begun};

    ghost aim = { record { whole = span 0 0; parts = 0 } };

    ghost base = { 0 };

    ghost cuts = { begun (span 0 0) };
}

/// The state after the token starts of a text, up to some token start of a chunk that stands from `base` on.
#[derive(Drop)]
pub struct Marked<E> {
    pub aim: Aim,
    pub base: usize,
    pub cutting: Parting,
    earlier: PhantomData<E>,
}

impl<E: Earlier> Marked<E> {
    /// No token start of the chunk was given.
    pub(crate) fn new(aim: Aim, base: usize, cutting: Parting) -> Marked<E>
        requires aim { aim ≡ E.aim }
        requires base { base ≡ E.base }
        requires cuts { cuts_of cutting ≡ E.cuts }
        ensures { HasCut E.aim E.base E.cuts [] result.aim result.base (cuts_of result.cutting) }
    {
        Marked {
            aim,
            base,
            cutting,
            earlier: PhantomData,
        }
    }
}

impl<E: Earlier> TokenSink for Marked<E> {
    ghost use Rattle.jx_file_query.specs.Cuts.{cuts_of};
    ghost use Rattle.jx_file_query.specs.inside.Marked.{HasCut};

    ghost has_seen = { λ s marks ends. HasCut E.aim E.base E.cuts marks s.aim s.base (cuts_of s.cutting) };

    ghost awaits = { λ _ _. Unit {0} };

    #[inline(always)]
    fn begin(&mut self, mark: Mark) -> Result<(), AllocError> {
        let Some(at) = self.base.checked_add(mark.at) else {
            return Err(AllocError);
        };
        let kind = mark.kind;
        self.cutting.take(self.aim, Mark { kind, at })
    }

    #[inline(always)]
    fn end(&mut self, _at: usize) -> Result<(), AllocError> {
        Ok(())
    }

    #[inline(always)]
    fn is_done(&self) -> bool {
        self.cutting.sum.closed != 0
    }
}
