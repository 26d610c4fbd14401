// Look-ups of pointers as a reader gives the tokens of a slice.
ghost use Rattle.std.specs.Prelude.{◌≡◌, ◌<◌, ◌-◌, ◌++◌, [], ℕ, List, Some, length, IfOk};
ghost use Rattle.jx_lex.specs.declared.alphabet.mark.Mark.{Mark};
ghost use Rattle.jx_run.specs.Telling.{moved_ends, moved_marks};
ghost use Rattle.jx_index.specs.inside.Finding.{skip_over};
ghost use Rattle.jx_index.specs.inside.Found.{finding};
ghost use Rattle.jx_index.specs.inside.Trie.{is_name_next};
ghost use Rattle.jx_find.specs.Held.{IsHeld};
ghost use Rattle.jx_find.specs.OnSlice.{HasSought};

use crate::held::Sought;
use crate::seek_counts::{may_count, place_behind, set_count, skipped_behind};
use jx_index::{Edge, Seeker, bytes_there, has_end, held_name, moved, token_bytes};
use jx_lex::{Mark, MarkKind, TokenCounts, TokenSink};
use std::alloc::AllocError;
use std::marker::{Brand, PhantomData};

/// The bytes, token starts and ends of the state at a slice's start, the slice's bytes, and the edges of the trie. A
/// call picks them.
pub trait Before {
    ghost use Rattle.std.specs.Prelude.{ℕ, List};
    ghost use Rattle.jx_index.specs.declared.trie.Edge.{Edge};
    ghost use Rattle.jx_find.specs.OnSlice.{Holds};

    ghost held: { Holds };

    ghost slice: { List ℕ };

    ghost edges: { List Edge };
}

impl Before for Brand {
    ghost use Rattle.std.specs.Prelude.{[]};

    ghost held = { λ bytes marks ends. Unit {0} };

    ghost slice = { [] };

    ghost edges = { [] };
}

/// How many containers are skipped after a token start of this kind, where so many are skipped before it.
#[inline(always)]
fn skip(skipped: usize, kind: MarkKind) -> Result<usize, AllocError>
    requires { 0 < skipped }
    ensures { IfOk result (λ more. more ≡ skip_over kind (skipped - 1)) }
{
    match kind {
        MarkKind::OpenArray | MarkKind::OpenObject => skipped.checked_add(1).ok_or(AllocError),
        MarkKind::CloseArray | MarkKind::CloseObject => Ok(skipped - 1),
        _ => Ok(skipped),
    }
}

/// A seeker that takes the tokens of a slice which begins at `base`.
#[derive(Drop)]
pub struct OnSlice<'a, 'p, B> {
    /// The bytes of the slice.
    pub slice: &'a [u8],
    /// How many bytes of the text are before it.
    pub base: usize,
    /// The edges of the trie.
    pub edges: &'a [Edge<'p>],
    /// The tokens that were found so far.
    pub seeker: Seeker<'a>,
    /// A token that has begun, and that the seeker was not told of yet.
    pub begun: Option<Mark>,
    /// The bytes before the slice of a name that has begun there.
    pub name: Vec<u8>,
    before: PhantomData<B>,
}

impl<'a, 'p, B: Before> OnSlice<'a, 'p, B> {
    /// The state at the slice's start, before any of its tokens.
    #[inline(always)]
    pub fn new(
        slice: &'a [u8],
        base: usize,
        edges: &'a [Edge<'p>],
        starts: &'a [usize],
        held: Sought,
    ) -> OnSlice<'a, 'p, B>
        requires slice { slice.now ≡ B.slice }
        requires edges { edges.now ≡ B.edges }
        requires base { (bytes : List ℕ) (marks : List Mark) (ends : List ℕ) → B.held bytes marks ends → base ≡ length bytes }
        requires held { (bytes : List ℕ) (marks : List Mark) (ends : List ℕ) → B.held bytes marks ends
            → IsHeld bytes B.edges marks ends held.state held.next held.begun held.name.items }
        ensures seen { HasSought B.held B.slice B.edges [] [] result.slice.now result.base result.edges.now result.seeker result.begun result.name.items }
        ensures begun { result.begun ≡ held.begun }
    {
        OnSlice {
            slice,
            base,
            edges,
            seeker: Seeker {
                state: held.state,
                next: held.next,
                starts,
            },
            begun: held.begun,
            name: held.name,
            before: PhantomData,
        }
    }

    /// Whether the token that has begun is a name.
    fn is_name_begun(&self) -> bool
        ensures { (m : Mark) → self.now.begun ≡ Some m → result ≡ is_name_next m.kind (finding self.now.seeker.state) }
    {
        match self.begun {
            Some(mark) => self.seeker.is_name_next(mark.kind),
            None => false,
        }
    }

    /// The state after the slice. Fails only when out of memory.
    #[inline(always)]
    pub fn into_held(self) -> Result<Sought, AllocError>
        ensures held { IfOk result (λ held. (marks : List Mark) (ends : List ℕ)
            → HasSought B.held B.slice B.edges marks ends self.entry.slice.now self.entry.base self.entry.edges.now self.entry.seeker self.entry.begun self.entry.name.items
            → (bytes : List ℕ) (ms : List Mark) (es : List ℕ) → B.held bytes ms es
            → IsHeld (bytes ++ B.slice) B.edges (ms ++ moved_marks (length bytes) marks) (es ++ moved_ends (length bytes) ends) held.state held.next held.begun held.name.items) }
        ensures begun { IfOk result (λ held. held.begun ≡ self.entry.begun) }
    {
        let wanted = self.is_name_begun();
        let name = held_name(self.name, self.slice, self.base, self.begun, wanted)?;
        Ok(Sought {
            state: self.seeker.state,
            next: self.seeker.next,
            begun: self.begun,
            name,
        })
    }
}

impl<'a, 'p, B: Before> TokenSink for OnSlice<'a, 'p, B> {
    ghost use Rattle.std.specs.Prelude.{◌≡◌, is_some};
    ghost use Rattle.jx_find.specs.OnSlice.{HasSought};

    ghost has_seen = { λ k marks ends. HasSought B.held B.slice B.edges marks ends k.slice.now k.base k.edges.now k.seeker k.begun k.name.items };

    ghost awaits = { λ k inside. is_some k.begun ≡ inside };

    #[inline(always)]
    fn begin(&mut self, mark: Mark) -> Result<(), AllocError> {
        match mark.kind {
            // Neither changes what was found.
            MarkKind::Comma | MarkKind::Colon => return Ok(()),
            _ => {}
        }
        if has_end(mark.kind) {
            let at = moved(self.base, mark.at)?;
            self.begun = Some(Mark {
                kind: mark.kind,
                at,
            });
            return Ok(());
        }
        let skipped = self.seeker.state.skipped;
        if skipped != 0 {
            self.seeker.state.skipped = skip(skipped, mark.kind)?;
            return Ok(());
        }
        let at = moved(self.base, mark.at)?;
        self.seeker.tell(self.edges, mark.kind, at, 0, &[])?;
        Ok(())
    }

    #[inline(always)]
    fn end(&mut self, at: usize) -> Result<(), AllocError> {
        let Some(mark) = self.begun else {
            unreachable!()
        };
        let end = moved(self.base, at)?;
        let wanted = self.seeker.is_name_next(mark.kind);
        let name = token_bytes(&mut self.name, self.slice, self.base, mark.at, at, wanted)?;
        self.seeker.tell(self.edges, mark.kind, mark.at, end, name)?;
        self.begun = None;
        Ok(())
    }

    fn is_done(&self) -> bool {
        false
    }

    #[inline(always)]
    fn wants_counts(&self) -> bool {
        self.seeker.state.skipped != 0 || may_count(&self.seeker)
    }

    #[inline(always)]
    fn takes_counts(&self, counts: &TokenCounts) -> bool {
        skipped_behind(self.seeker.state.skipped, counts).is_some()
            || place_behind(&self.seeker, counts).is_some()
    }

    #[inline(always)]
    fn counted(&mut self, counts: &TokenCounts) -> Result<(), AllocError> {
        if let Some(skipped) = skipped_behind(self.seeker.state.skipped, counts) {
            self.seeker.state.skipped = skipped;
            return Ok(());
        }
        let Some(place) = place_behind(&self.seeker, counts) else {
            return Err(AllocError);
        };
        self.seeker.state.skipped = place.skipped;
        set_count(&mut self.seeker.state.opened, place.count);
        Ok(())
    }

    #[inline(always)]
    fn token(&mut self, mark: Mark, to: usize) -> Result<(), AllocError> {
        // Where something is skipped, only brackets count.
        if self.seeker.state.skipped != 0 {
            return Ok(());
        }
        // A name is compared by its bytes in the slice, and its place is not kept.
        if self.seeker.is_name_next(mark.kind) {
            let name = bytes_there(self.slice, mark.at, to)?;
            self.seeker.name(self.edges, name);
            return Ok(());
        }
        let at = moved(self.base, mark.at)?;
        let end = moved(self.base, to)?;
        self.seeker.tell(self.edges, mark.kind, at, end, &[])?;
        Ok(())
    }

    // Defined here, so that it is code in the loop over whole tokens and no call.
    #[inline(always)]
    fn named(&mut self, mark: Mark, to: usize) -> Result<(), AllocError> {
        self.token(mark, to)?;
        Ok(())
    }
}
