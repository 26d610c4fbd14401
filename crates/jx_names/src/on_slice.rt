// The names of open objects, as a reader gives the tokens of a slice.
ghost use Rattle.std.specs.Prelude.{◌≡◌, ◌+◌, ◌++◌, [], ℕ, List, Some, length, IfOk, IfSome};
ghost use Rattle.jx_lex.specs.declared.alphabet.mark.Mark.{Mark};
ghost use Rattle.jx_run.specs.Telling.{moved_ends, moved_marks};
ghost use Rattle.jx_names.specs.inside.HeldNames.{IsHeld};
ghost use Rattle.jx_names.specs.inside.InArrays.{IsInArrays};
ghost use Rattle.jx_names.specs.inside.KeptNames.{is_name_next, kept};
ghost use Rattle.jx_names.specs.inside.SliceNames.{HasTold};

use crate::held::Held;
use crate::open_names::OpenNames;
use jx_index::{has_end, held_name, moved, token_bytes};
use jx_lex::{Mark, TokenCounts, TokenSink};
use std::alloc::AllocError;
use std::marker::{Brand, PhantomData};

/// The bytes, token starts and ends of the state at a slice's start, and the slice's bytes. A call picks them.
pub trait Before {
    ghost use Rattle.std.specs.Prelude.{ℕ, List};
    ghost use Rattle.jx_names.specs.inside.SliceNames.{Holds};

    ghost held: { Holds };

    ghost slice: { List ℕ };
}

impl Before for Brand {
    ghost use Rattle.std.specs.Prelude.{[]};

    ghost held = { λ bytes marks ends. Unit {0} };

    ghost slice = { [] };
}

/// How many containers are open after tokens that have these counts, where they concern no name: they open and close arrays
/// alone, and stand in arrays.
#[inline(always)]
fn depth_behind(names: &OpenNames, counts: &TokenCounts) -> Option<usize>
    ensures arrays { IfSome result (λ depth. IsInArrays names.now (counts.now.lowest + 1)) }
    ensures braces { IfSome result (λ depth. counts.now.braces ≡ 0) }
    ensures depth { IfSome result (λ depth. depth + counts.now.closing ≡ length names.now.opened.items + counts.now.opening) }
{
    if counts.braces != 0 {
        return None;
    }
    if !names.is_in_arrays(counts.lowest as usize + 1) {
        return None;
    }
    let opened = names.depth().checked_add(counts.opening as usize)?;
    let depth = opened.checked_sub(counts.closing as usize)?;
    Some(depth)
}

/// The names of open objects, told the tokens of a slice which stands from `base` on.
#[derive(Drop)]
pub struct OnSlice<'a, B> {
    slice: &'a [u8],
    base: usize,
    names: OpenNames,
    /// A token that has begun, and that the names were not told of yet.
    begun: Option<Mark>,
    /// The bytes before the slice of a name that has begun there.
    name: Vec<u8>,
    before: PhantomData<B>,
}

impl<'a, B: Before> OnSlice<'a, B> {
    /// The state at the slice's start, before any of its tokens.
    pub(crate) fn new(slice: &'a [u8], base: usize, held: Held) -> OnSlice<'a, B>
        requires slice { slice.now ≡ B.slice }
        requires base { (bytes : List ℕ) (marks : List Mark) (ends : List ℕ) → B.held bytes marks ends → base ≡ length bytes }
        requires held { (bytes : List ℕ) (marks : List Mark) (ends : List ℕ) → B.held bytes marks ends
            → IsHeld bytes marks ends held.names held.begun held.name.items }
        ensures seen { HasTold B.held B.slice [] [] result.slice.now result.base (kept result.names) result.begun result.name.items }
        ensures begun { result.begun ≡ held.begun }
    {
        OnSlice {
            slice,
            base,
            names: held.names,
            begun: held.begun,
            name: held.name,
            before: PhantomData,
        }
    }

    /// Whether the token that has begun is a name.
    fn is_name_begun(&self) -> bool
        ensures { (m : Mark) → self.now.begun ≡ Some m → result ≡ is_name_next m.kind (kept self.now.names) }
    {
        match self.begun {
            Some(mark) => self.names.is_name_next(mark.kind),
            None => false,
        }
    }

    /// The state after the slice.
    pub(crate) fn into_held(self) -> Result<Held, AllocError>
        ensures held { IfOk result (λ held. (marks : List Mark) (ends : List ℕ)
            → HasTold B.held B.slice marks ends self.entry.slice.now self.entry.base (kept self.entry.names) self.entry.begun self.entry.name.items
            → (bytes : List ℕ) (ms : List Mark) (es : List ℕ) → B.held bytes ms es
            → IsHeld (bytes ++ B.slice) (ms ++ moved_marks (length bytes) marks) (es ++ moved_ends (length bytes) ends) held.names held.begun held.name.items) }
        ensures begun { IfOk result (λ held. held.begun ≡ self.entry.begun) }
    {
        let wanted = self.is_name_begun();
        let name = held_name(self.name, self.slice, self.base, self.begun, wanted)?;
        Ok(Held {
            names: self.names,
            begun: self.begun,
            name,
        })
    }
}

impl<'a, B: Before> TokenSink for OnSlice<'a, B> {
    ghost use Rattle.std.specs.Prelude.{◌≡◌, is_some};
    ghost use Rattle.jx_names.specs.inside.KeptNames.{kept};
    ghost use Rattle.jx_names.specs.inside.SliceNames.{HasTold};

    ghost has_seen = { λ k marks ends. HasTold B.held B.slice marks ends k.slice.now k.base (kept k.names) k.begun k.name.items };

    ghost awaits = { λ k inside. is_some k.begun ≡ inside };

    #[inline(always)]
    fn begin(&mut self, mark: Mark) -> Result<(), AllocError> {
        if has_end(mark.kind) {
            let at = moved(self.base, mark.at)?;
            self.begun = Some(Mark {
                kind: mark.kind,
                at,
            });
            return Ok(());
        }
        self.names.structural(mark.kind)?;
        Ok(())
    }

    #[inline(always)]
    fn end(&mut self, at: usize) -> Result<(), AllocError> {
        let Some(mark) = self.begun else {
            unreachable!()
        };
        let wanted = self.names.is_name_next(mark.kind);
        let name = token_bytes(&mut self.name, self.slice, self.base, mark.at, at, wanted)?;
        self.names.tell(mark.kind, mark.at, name)?;
        self.begun = None;
        Ok(())
    }

    fn is_done(&self) -> bool {
        false
    }

    #[inline(always)]
    fn wants_counts(&self) -> bool {
        self.names.is_child_next()
    }

    #[inline(always)]
    fn takes_counts(&self, counts: &TokenCounts) -> bool {
        depth_behind(&self.names, counts).is_some()
    }

    #[inline(always)]
    fn counted(&mut self, counts: &TokenCounts) -> Result<(), AllocError> {
        let Some(depth) = depth_behind(&self.names, counts) else {
            return Err(AllocError);
        };
        self.names.set_depth(depth)?;
        Ok(())
    }

    #[inline(always)]
    fn token(&mut self, mark: Mark, to: usize) -> Result<(), AllocError> {
        if !self.names.is_name_next(mark.kind) {
            self.names.scalar()?;
            return Ok(());
        }
        let at = moved(self.base, mark.at)?;
        self.names.name(at, self.slice, mark.at, to)?;
        Ok(())
    }
}
