// A run of bytes that nobody keeps.
ghost use Rattle.std.specs.Prelude.{◌≡◌, ◌<◌, ◌+◌, ◌^◌, IfOk};
ghost use Rattle.jx_parallel.specs.inside.Kept.{IsKept, Touch, kept};
ghost use Rattle.jx_parallel.specs.Offsets.{StandThere};

use crate::known::Known;
use jx_lex::Depth;
use jx_run::{OutcomeRun, Summary};
use std::alloc::{AllocError, Global};
use std::marker::{Model, PhantomData};

/// A run of bytes that nobody keeps, and where they stand in the text that the type names.
#[derive(Drop)]
pub(crate) struct Kept<K: Known> {
    run: OutcomeRun,
    at: usize,
    of: PhantomData<K>,
}

impl<K: Known> Model for Kept<K> {
    ghost use Rattle.jx_parallel.specs.inside.Kept.{KeptValue, IsKept, kept};

    ghost Value = { KeptValue };

    ghost view = { λ k. kept k.run k.at };

    ghost invariant = { λ k. IsKept K.text K.settings.depth k.run k.at };
}

impl<K: Known> Kept<K> {
    /// Reads the bytes from `at` on. It is also out of memory where the last of them has no offset.
    pub fn read(alloc: Global, bytes: &[u8], at: usize, depth: Depth) -> Result<Kept<K>, AllocError>
        requires there { StandThere K.text at bytes.now }
        requires depth { depth ≡ K.settings.depth }
    {
        if bytes.len() >= usize::MAX - at {
            return Err(AllocError);
        }
        let run = OutcomeRun::of(alloc, bytes, 0, bytes.len(), depth)?;
        Ok(Kept {
            run,
            at,
            of: PhantomData,
        })
    }

    /// The offset at which its bytes begin.
    pub fn at(&self) -> usize
        ensures { result ≡ self.now.at }
    {
        self.at
    }

    /// The offset just past its bytes.
    pub fn end(&self) -> usize
        ensures { result ≡ self.now.at + self.now.run.end }
    {
        self.at + self.run.span().end
    }

    /// The run, with offsets that are counted from its first byte.
    pub fn run(&self) -> &OutcomeRun
        ensures run { result.now ≡ self.now.run }
        ensures kept { IsKept K.text K.settings.depth self.now.run self.now.at }
    {
        &self.run
    }

    /// Joins with the neighbour to the right. No byte is compared, since both are of one text.
    pub fn join(self, right: Kept<K>) -> Result<Kept<K>, AllocError>
        requires { Touch self right }
    {
        let Kept { run, at, of: _ } = self;
        let Kept {
            run: other,
            at: _,
            of: _,
        } = right;
        let len = run.span().end;
        let other = other.shifted(len);
        match run.join(other) {
            Ok(run) => Ok(Kept {
                run,
                at,
                of: PhantomData,
            }),
            Err(_) => Err(AllocError),
        }
    }
}
