// The state of a look-up between two slices.
ghost use Rattle.std.specs.Prelude.{◌≡◌, [], ℕ, List, All, None, length, IfOk, OnOk};
ghost use Rattle.jx_lex.specs.declared.alphabet.mark.Mark.{Mark};
ghost use Rattle.jx_index.specs.inside.Finding.{nothing_met};
ghost use Rattle.jx_index.specs.inside.Trie.{IsTrie, seek_all};
ghost use Rattle.jx_find.specs.Held.{IsHeld};

use jx_index::{Edge, Met, Seeker, State};
use jx_lex::Mark;
use std::alloc::{AllocError, Global};

/// The tokens that were met at the nodes of a trie, and the open containers at its nodes; no edge from the node of the
/// innermost open array names a place from its count on and below `next`. Also a token that has begun, and of a name
/// the bytes so far.
#[derive(Drop)]
pub struct Sought {
    /// The tokens that were met, and the containers that are open.
    pub state: State,
    /// The least place in the innermost open array that a pointer may want.
    pub next: usize,
    /// A token that has begun and not ended.
    pub begun: Option<Mark>,
    /// Its bytes so far, where it is a name.
    pub name: Vec<u8>,
}

impl Sought {
    /// The state before the first byte, of a trie with so many edges. Fails only when out of memory.
    pub fn new(alloc: Global, edges: &[Edge]) -> Result<Sought, AllocError>
        ensures held { IfOk result (λ held. IsTrie edges.now → IsHeld [] edges.now [] [] held.state held.next held.begun held.name.items) }
        ensures begun { IfOk result (λ held. held.begun ≡ None) }
    {
        let seeker = Seeker::new(alloc, edges.len(), &[])?;
        Ok(Sought {
            state: seeker.state,
            next: seeker.next,
            begun: None,
            name: Vec::new(alloc),
        })
    }

    /// Holds what is held before the first byte, in the same memory. Only want of memory is refused.
    #[inline(always)]
    pub fn again(&mut self, edges: &[Edge]) -> Result<(), AllocError>
        ensures held { OnOk result (IsTrie edges.now → IsHeld [] edges.now [] [] self.new.state self.new.next self.new.begun self.new.name.items) }
        ensures begun { OnOk result (self.new.begun ≡ None) }
    {
        self.state.again(edges.len())?;
        self.next = 0;
        self.begun = None;
        self.name.clear();
        Ok(())
    }

    /// The state after the end of a text, which ends at `last`: a token that has begun ends there. Fails only when out
    /// of memory.
    #[inline(always)]
    pub fn ended(self, edges: &[Edge], starts: &[usize], last: usize) -> Result<Sought, AllocError>
        ensures { IfOk result (λ ended. (bytes : List ℕ) (marks : List Mark) (ends : List ℕ) → last ≡ length bytes
            → IsHeld bytes edges.now marks ends self.state self.next self.begun self.name.items
            → ended.state.met.items ≡ (seek_all bytes edges.now (length bytes) marks ends (nothing_met (length edges.now))).met) }
    {
        let Some(mark) = self.begun else {
            return Ok(self);
        };
        let mut seeker = Seeker {
            state: self.state,
            next: self.next,
            starts,
        };
        seeker.tell(edges, mark.kind, mark.at, last, &self.name)?;
        Ok(Sought {
            state: seeker.state,
            next: seeker.next,
            begun: None,
            name: self.name,
        })
    }

    /// The tokens that were met up to the end of a text, which ends at `last`. Fails only when out of memory.
    pub fn into_met(
        self,
        edges: &[Edge],
        starts: &[usize],
        last: usize,
    ) -> Result<Vec<Met>, AllocError>
        ensures { IfOk result (λ met. (bytes : List ℕ) (marks : List Mark) (ends : List ℕ) → last ≡ length bytes
            → IsHeld bytes edges.now marks ends self.state self.next self.begun self.name.items
            → met.items ≡ (seek_all bytes edges.now (length bytes) marks ends (nothing_met (length edges.now))).met) }
    {
        let ended = self.ended(edges, starts, last)?;
        Ok(ended.state.met)
    }
}
