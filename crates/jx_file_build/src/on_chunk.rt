// The names of a chunk, as a reader gives its tokens.
ghost use Rattle.std.specs.Prelude.{◌≡◌, ◌==◌, ◌&&◌, [], ℕ, List, if◌then◌else◌, IfOk};
ghost use Rattle.jx_lex.specs.declared.alphabet.mark.Mark.{Mark};
ghost use Rattle.jx_file_build.specs.inside.ChunkNames.{HasGathered, IsTold};
ghost use Rattle.jx_file_build.specs.inside.OpenKinds.{is_last, kinds};

use crate::open_kinds::OpenKinds;
use crate::standing::{Standing, ToldChunk};
use jx_file_index::{Sum, hash_of_string};
use jx_index::{has_end, held_name, moved, token_bytes};
use jx_lex::{Mark, TokenCounts, TokenSink};
use std::alloc::{AllocError, Global};
use std::marker::{Brand, PhantomData};

/// The open containers and names before a chunk, and its bytes. A call picks it.
pub trait Before {
    ghost use Rattle.jx_file_build.specs.inside.ChunkNames.{Start};

    ghost start: { Start };
}

impl Before for Brand {
    ghost use Rattle.std.specs.Prelude.{[], None};
    ghost use Rattle.jx_file_build.specs.declared.open_kinds.NamePlace.TheVariants.{Elsewhere};

    ghost start = { record { kinds = record { opened = []; name = Elsewhere }; begun = None; name = []; base = 0; chunk = [] } };
}

/// The names of a chunk which stands from `base` on.
#[derive(Drop)]
pub struct OnChunk<'a, B> {
    chunk: &'a [u8],
    base: usize,
    kinds: OpenKinds,
    sum: Sum,
    /// A token that has begun and not ended.
    begun: Option<Mark>,
    /// The bytes before the chunk of a name that has begun there.
    name: Vec<u8>,
    hashes: Vec<u32>,
    /// The units of a name, while it is hashed.
    units: Vec<u8>,
    before: PhantomData<B>,
}

/// Whether a string that ends is a name that is kept: no container is open that was opened in the chunk.
fn is_kept(around: &OpenKinds, sum: Sum) -> bool
    ensures { result ≡ (is_last around.now.name && (sum.opened == 0)) }
{
    if sum.opened != 0 {
        return false;
    }
    around.is_behind_name()
}

/// Forgets the hashes of names where tokens close a container that was open before the chunk.
fn keep_hashes(hashes: &mut Vec<u32>, before: Sum, behind: Sum)
    ensures { hashes.new.items ≡ (if behind.closed == before.closed then hashes.old.items else []) }
{
    if behind.closed != before.closed {
        hashes.clear();
    }
}

impl<'a, B: Before> OnChunk<'a, B> {
    /// No token of the chunk was taken yet.
    pub(crate) fn new(
        alloc: Global,
        chunk: &'a [u8],
        base: usize,
        standing: Standing,
    ) -> OnChunk<'a, B>
        requires chunk { chunk.now ≡ B.start.chunk }
        requires base { base ≡ B.start.base }
        requires kinds { kinds standing.kinds ≡ B.start.kinds }
        requires begun { standing.begun ≡ B.start.begun }
        requires name { standing.name.items ≡ B.start.name }
        ensures seen { HasGathered B.start [] [] result.chunk.now result.base (kinds result.kinds) result.sum result.begun result.name.items result.hashes.items }
        ensures begun { result.begun ≡ standing.begun }
    {
        OnChunk {
            chunk,
            base,
            kinds: standing.kinds,
            sum: Sum::new(),
            begun: standing.begun,
            name: standing.name,
            hashes: Vec::new(alloc),
            units: Vec::new(alloc),
            before: PhantomData,
        }
    }

    /// The standing after the chunk, and the hashes of its names.
    pub(crate) fn into_told(self) -> Result<ToldChunk, AllocError>
        ensures told { IfOk result (λ told. (marks : List Mark) (ends : List ℕ)
            → HasGathered B.start marks ends self.entry.chunk.now self.entry.base (kinds self.entry.kinds) self.entry.sum self.entry.begun self.entry.name.items self.entry.hashes.items
            → IsTold B.start marks ends told) }
        ensures begun { IfOk result (λ told. told.standing.begun ≡ self.entry.begun) }
    {
        let wanted = self.kinds.is_behind_name();
        let name = held_name(self.name, self.chunk, self.base, self.begun, wanted)?;
        Ok(ToldChunk {
            standing: Standing {
                kinds: self.kinds,
                begun: self.begun,
                name,
            },
            hashes: self.hashes,
        })
    }
}

impl<'a, B: Before> TokenSink for OnChunk<'a, B> {
    ghost use Rattle.std.specs.Prelude.{◌≡◌, is_some};
    ghost use Rattle.jx_file_build.specs.inside.ChunkNames.{HasGathered};
    ghost use Rattle.jx_file_build.specs.inside.OpenKinds.{kinds};

    ghost has_seen = { λ k marks ends. HasGathered B.start marks ends k.chunk.now k.base (kinds k.kinds) k.sum k.begun k.name.items k.hashes.items };

    ghost awaits = { λ k inside. is_some k.begun ≡ inside };

    #[inline(always)]
    fn begin(&mut self, mark: Mark) -> Result<(), AllocError> {
        let at = moved(self.base, mark.at)?;
        self.kinds.push(mark.kind)?;
        let Some(sum) = self.sum.step(mark.kind) else {
            return Err(AllocError);
        };
        if has_end(mark.kind) {
            self.sum = sum;
            self.begun = Some(Mark {
                kind: mark.kind,
                at,
            });
            return Ok(());
        }
        keep_hashes(&mut self.hashes, self.sum, sum);
        self.sum = sum;
        Ok(())
    }

    #[inline(always)]
    fn end(&mut self, at: usize) -> Result<(), AllocError> {
        let Some(mark) = self.begun else {
            unreachable!()
        };
        if !is_kept(&self.kinds, self.sum) {
            self.begun = None;
            return Ok(());
        }
        let name = token_bytes(&mut self.name, self.chunk, self.base, mark.at, at, true)?;
        let hash = hash_of_string(&mut self.units, name)?;
        self.hashes.push(hash)?;
        self.begun = None;
        Ok(())
    }

    fn is_done(&self) -> bool {
        false
    }

    #[inline(always)]
    fn wants_counts(&self) -> bool {
        self.kinds.may_count()
    }

    #[inline(always)]
    fn takes_counts(&self, counts: &TokenCounts) -> bool {
        self.kinds.depth_behind(counts).is_some() && self.sum.counted(counts).is_some()
    }

    #[inline(always)]
    fn counted(&mut self, counts: &TokenCounts) -> Result<(), AllocError> {
        let Some(depth) = self.kinds.depth_behind(counts) else {
            return Err(AllocError);
        };
        let Some(sum) = self.sum.counted(counts) else {
            return Err(AllocError);
        };
        self.kinds.set_depth(depth)?;
        keep_hashes(&mut self.hashes, self.sum, sum);
        self.sum = sum;
        Ok(())
    }

    #[inline(always)]
    fn token(&mut self, mark: Mark, to: usize) -> Result<(), AllocError> {
        let at = moved(self.base, mark.at)?;
        self.kinds.push(mark.kind)?;
        if !is_kept(&self.kinds, self.sum) {
            return Ok(());
        }
        let name = token_bytes(&mut self.name, self.chunk, self.base, at, to, true)?;
        let hash = hash_of_string(&mut self.units, name)?;
        self.hashes.push(hash)?;
        Ok(())
    }
}
