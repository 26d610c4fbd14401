// The look-up of several pointers (RFC 6901, section 4) in one text after another, in memory that stays.
ghost use Rattle.std.specs.Prelude.{◌≡◌, ◌≤◌, ◌++◌, [], ℕ, List, None, length, slice_range, IfErr, IfOk, OnOk};
ghost use Rattle.jx_lex.specs.declared.alphabet.mark.Mark.{Mark};
ghost use Rattle.jx_lex.specs.declared.alphabet.state.LexState.TheVariants.{Gap};
ghost use Rattle.jx_lex.specs.Lex.{lex};
ghost use Rattle.jx_run.specs.declared.texts.verdict.Verdict.TheVariants.{Accepted, Refused};
ghost use Rattle.jx_run.specs.Telling.{moved_ends, moved_marks};
ghost use Rattle.jx_run.specs.Verdict.{Judged};
ghost use Rattle.jx_index.specs.Found.{AreFoundIn};
ghost use Rattle.jx_index.specs.inside.Finding.{nothing_met};
ghost use Rattle.jx_index.specs.inside.Trie.{IsTrie, seek_all};
ghost use Rattle.jx_find.specs.Held.{IsHeld};
ghost use Rattle.jx_find.specs.PointerTrie.{IsTrieOf, alone};

use crate::held::Sought;
use crate::on_slice::{Before, OnSlice};
use crate::pointer_trie::PointerTrie;
use jx_index::{Edge, FindFault, Found, Met, answers_along};
use jx_lex::Depth;
use jx_run::{NoPause, Refusal, Verdict, read_into, verdicts_with_a_refused_mark};
use std::alloc::{AllocError, Global};
use std::marker::Brand;

/// Reads the bytes of a slice before `to` as a whole text, and seeks by its tokens. The call picks what is held.
#[inline(always)]
fn seek_within<B: Before>(
    alloc: Global,
    slice: &[u8],
    to: usize,
    depth: Depth,
    edges: &[Edge],
    starts: &[usize],
    held: Sought,
) -> Result<Result<Sought, Refusal>, AllocError>
    requires within { to ≤ length slice.now }
    requires slice { slice_range slice.now 0 to ≡ B.slice }
    requires edges { edges.now ≡ B.edges }
    requires base { (bytes : List ℕ) (marks : List Mark) (ends : List ℕ) → B.held bytes marks ends → 0 ≡ length bytes }
    requires held { (bytes : List ℕ) (marks : List Mark) (ends : List ℕ) → B.held bytes marks ends
        → IsHeld bytes B.edges marks ends held.state held.next held.begun held.name.items }
    requires begun { held.begun ≡ None }
    ensures accepted { IfOk result (λ read. IfOk read (λ _. Judged 0 (slice_range slice.now 0 to) depth Accepted)) }
    ensures refused { IfOk result (λ read. IfErr read (λ refusal. Judged 0 (slice_range slice.now 0 to) depth (Refused refusal))) }
    ensures held { IfOk result (λ read. IfOk read (λ next. (bytes : List ℕ) (marks : List Mark) (ends : List ℕ) → B.held bytes marks ends
        → IsHeld (bytes ++ B.slice) B.edges (marks ++ moved_marks (length bytes) (lex Gap 0 (slice_range slice.now 0 to)).marks) (ends ++ moved_ends (length bytes) (lex Gap 0 (slice_range slice.now 0 to)).ends)
        next.state next.next next.begun next.name.items)) }
{
    let sink: OnSlice<'_, '_, B> = OnSlice::new(&slice[0..to], 0, edges, starts, held);
    let told = read_into(alloc, slice, 0, to, depth, sink, &mut NoPause)?;
    match told.verdict {
        Verdict::Refused(refusal) => Ok(Err(refusal)),
        Verdict::Accepted => {
            let next = told.sink.into_held()?;
            Ok(Ok(next))
        }
    }
}

/// Reads the bytes of a slice before `to` as a whole text, and notes what is met at the nodes of a trie, from where
/// nothing was met. Returns the refusal where they are no text.
#[inline(always)]
fn met_within(
    alloc: Global,
    slice: &[u8],
    to: usize,
    depth: Depth,
    edges: &[Edge],
    starts: &[usize],
    fresh: Sought,
) -> Result<Result<Sought, Refusal>, AllocError>
    requires within { to ≤ length slice.now }
    requires fresh { IsHeld [] edges.now [] [] fresh.state fresh.next fresh.begun fresh.name.items }
    requires begun { fresh.begun ≡ None }
    ensures accepted { IfOk result (λ read. IfOk read (λ _. Judged 0 (slice_range slice.now 0 to) depth Accepted)) }
    ensures refused { IfOk result (λ read. IfErr read (λ refusal. Judged 0 (slice_range slice.now 0 to) depth (Refused refusal))) }
    ensures met { IfOk result (λ read. IfOk read (λ ended. ended.state.met.items
        ≡ (seek_all (slice_range slice.now 0 to) edges.now (length (slice_range slice.now 0 to)) (lex Gap 0 (slice_range slice.now 0 to)).marks (lex Gap 0 (slice_range slice.now 0 to)).ends (nothing_met (length edges.now))).met)) }
{
    let read = seek_within::<Brand>(alloc, slice, to, depth, edges, starts, fresh)?;
    match read {
        Err(refusal) => Ok(Err(refusal)),
        Ok(held) => {
            let ended = held.ended(edges, starts, to)?;
            Ok(Ok(ended))
        }
    }
}

/// Puts the answers to the pointers of a trie in place of what was found before, by what was met in a text by itself.
#[inline(always)]
fn find_by(
    alloc: Global,
    met: &[Met],
    trie: &PointerTrie,
    found: &mut Vec<Result<Found, FindFault>>,
) -> Result<(), AllocError>
    requires { IsTrieOf trie.now.pointers.items trie.now }
    ensures { OnOk result ((depth : ℕ) (bytes : List ℕ) → Judged 0 bytes depth Accepted
        → met.now ≡ (seek_all bytes trie.now.edges.items (length bytes) (lex Gap 0 bytes).marks (lex Gap 0 bytes).ends (nothing_met (length trie.now.edges.items))).met
        → AreFoundIn (alone depth) bytes trie.now.pointers.items found.new.items) }
{
    verdicts_with_a_refused_mark();
    answers_along(alloc, met, &trie.ways, &trie.pointers, found)
}

/// The answers that were found in the text that was read last, and the memory for the next one.
#[derive(Drop)]
pub struct Findings {
    sought: Option<Sought>,
    found: Vec<Result<Found, FindFault>>,
}

impl Findings {
    ghost use Rattle.jx_find.specs.Findings.{found_in};

    /// The findings of no text. Nothing is allocated.
    pub fn new(alloc: Global) -> Findings
        ensures { found_in result ≡ [] }
    {
        Findings {
            sought: None,
            found: Vec::new(alloc),
        }
    }

    /// The answers to the pointers, in order: the value in the text that was read last, or the first token that leads nowhere.
    pub fn found(&self) -> &[Result<Found, FindFault>]
        ensures { result.now ≡ found_in self.now }
    {
        &self.found
    }

    /// Where nothing was met at the nodes of a trie, in the memory that there is.
    #[inline(always)]
    fn fresh(&mut self, alloc: Global, edges: &[Edge]) -> Result<Sought, AllocError>
        ensures held { IfOk result (λ held. IsTrie edges.now → IsHeld [] edges.now [] [] held.state held.next held.begun held.name.items) }
        ensures begun { IfOk result (λ held. held.begun ≡ None) }
    {
        let Some(mut held) = self.sought.take() else {
            return Sought::new(alloc, edges);
        };
        held.again(edges)?;
        Ok(held)
    }

    /// Reads the bytes of a slice before `to` as a whole JSON text (RFC 8259) within a depth, in one pass, and looks pointers
    /// up in it (RFC 6901, section 4). Those after are only room for a reader that looks at many bytes at a time: nothing
    /// depends on them. Only want of memory is refused; a text takes none once a text as deep was read before, unless it
    /// is refused or a pointer leads nowhere.
    pub fn read(
        &mut self,
        alloc: Global,
        slice: &[u8],
        to: usize,
        depth: Depth,
        trie: &PointerTrie,
    ) -> Result<Verdict, AllocError>
        requires within { to ≤ length slice.now }
        requires trie { IsTrieOf trie.now.pointers.items trie.now }
        ensures verdict { IfOk result (Judged 0 (slice_range slice.now 0 to) depth) }
        ensures found { IfOk result (λ verdict. verdict ≡ Accepted → AreFoundIn (alone depth) (slice_range slice.now 0 to) trie.now.pointers.items (found_in self.new)) }
    {
        let fresh = self.fresh(alloc, &trie.edges)?;
        match met_within(alloc, slice, to, depth, &trie.edges, &trie.starts, fresh)? {
            Err(refusal) => Ok(Verdict::Refused(refusal)),
            Ok(ended) => {
                find_by(alloc, &ended.state.met, trie, &mut self.found)?;
                self.sought = Some(ended);
                Ok(Verdict::Accepted)
            }
        }
    }
}
