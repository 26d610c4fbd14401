// The parts of a container in a text of which an index is saved.
ghost use Rattle.std.specs.Prelude.{◌≡◌, ◌≢◌, ◌≤◌, ◌<◌, ◌/◌, None, Some, Ok, Err, ℕ, List, slice_range, IfOk, IfErr, IfSome, IsErr, OnErr};
ghost use Rattle.jx_summary.specs.declared.span.Span.{Span};
ghost use Rattle.jx_run.specs.declared.texts.settings.Settings.{Settings};
ghost use Rattle.jx_run.specs.Laws.{span_of};
ghost use Rattle.jx_run.specs.Tree.{Tree};
ghost use Rattle.jx_file_index.specs.Index.{IsIndexOf};
ghost use Rattle.jx_file_query.specs.declared.walk.WalkFault.TheVariants.{Changed, Damaged};
ghost use Rattle.jx_file_query.specs.Chunks.{chunk_at};
ghost use Rattle.jx_file_query.specs.Walk.{IsToldApart};
ghost use Rattle.jx_file_query.specs.Parts.{IsIn, parts_of};
ghost use Rattle.jx_file_query.specs.PausedSplits.{HasPaused, needed_by, paused_of};
ghost use Rattle.jx_file_query.specs.Split.{HasCome, IsLost, IsUnclosed, is_going, left, needed};

use crate::chunks::{chunk_at, is_kept};
use crate::cutting::{Aim, Parting};
use crate::part::ContainerPart;
use crate::split_reaching::read_on;
use crate::walk::WalkFault;
use jx_file_index::Index;
use jx_index::index_behind_a_front;
use jx_lex::{Span, grammar_of_tokens, lex_of_two_parts};
use jx_run::{
    accepted_texts_stand_behind_fronts, reader_and_grammar, unique_tree_by_settings,
    unique_verdict_by_settings,
};
use std::alloc::{AllocError, Global};

/// The parts of an array or an object for so many loaders, in a JSON text (RFC 8259) of which an index is saved. It
/// says which bytes of the text it needs, and is given them; chunks in which no part begins or ends are skipped. It
/// keeps the parts.
#[derive(Drop)]
pub struct Split<'a> {
    alloc: Global,
    index: &'a Index,
    aim: Aim,
    /// Which chunk is needed next.
    at: usize,
    /// The state after the token starts before it. None when out of memory, or the index is not that of any text.
    held: Option<Parting>,
}

/// A split without its index, for whoever owns both.
#[derive(Drop)]
pub struct PausedSplit {
    alloc: Global,
    aim: Aim,
    at: usize,
    held: Option<Parting>,
}

/// Whether the closing bracket was not seen, and memory was not refused.
fn is_going(held: &Option<Parting>) -> bool
    ensures { result ≡ is_going held.now }
{
    match held {
        Some(cutting) => cutting.sum.closed == 0,
        None => false,
    }
}

impl<'a> Split<'a> {
    /// A split of the container with this span into so many parts, which was given no byte.
    pub fn new(alloc: Global, index: &'a Index, aim: Aim) -> Split<'a>
        ensures index { result.index.now ≡ index.now }
        ensures aim { result.aim ≡ aim }
        ensures come { (settings : Settings) (chunk : ℕ) (text : List ℕ) → IsIndexOf settings chunk text index.now → HasCome settings chunk text result }
        // For any index, the first chunk that is needed is the one in which the container begins.
        ensures first { needed result ≡ chunk_at index.now (aim.whole.start / index.now.chunk) }
    {
        reader_and_grammar();
        unique_verdict_by_settings();
        let at = aim.whole.start / index.chunk.bytes();
        Split {
            alloc,
            index,
            aim,
            at,
            held: Some(Parting::new(alloc, aim.whole)),
        }
    }

    /// The span of the bytes that are to be given next, or none where no more are needed.
    pub fn needs(&self) -> Option<Span>
        ensures needed { result ≡ needed self.now }
        ensures some { IfSome result (λ span. span.start < span.end) }
        ensures within { IfSome result (λ span. span.end ≤ self.now.index.now.size) }
    {
        if !is_going(&self.held) {
            return None;
        }
        chunk_at(self.index, self.at)
    }

    /// Gives it the bytes that it needs. Where they are others than those of the text that was indexed, nothing is
    /// taken, and other bytes may be given. Where it needs none, nothing is done. `Err` when out of memory or the index
    /// was found not to be that of any text, and from then on always.
    pub fn give(&mut self, bytes: &[u8]) -> Result<Result<(), WalkFault>, AllocError>
        ensures index { self.new.index.now ≡ self.old.index.now }
        ensures aim { self.new.aim ≡ self.old.aim }
        // Bytes of the text, as far as their digest decides, lead on.
        ensures come { IfOk result (λ told. IfOk told (λ _. (settings : Settings) (chunk : ℕ) (text : List ℕ) → HasCome settings chunk text self.old
            → ((span : Span) → needed self.old ≡ Some span → IsToldApart text span bytes.now) → HasCome settings chunk text self.new)) }
        // For any index, it goes forward.
        ensures nearer { IfOk result (λ told. IfOk told (λ _. (span : Span) → needed self.old ≡ Some span → left self.new < left self.old)) }
        // The meaning of a fault.
        ensures changed { IfOk result (λ told. IfErr told (λ fault. (span : Span) → fault ≡ Changed span → (self.new ≡ self.old) × (needed self.old ≡ Some span)
            × ((settings : Settings) (chunk : ℕ) (text : List ℕ) → HasCome settings chunk text self.old → bytes.now ≢ slice_range text span.start span.end))) }
        ensures damaged { IfOk result (λ told. IfErr told (λ fault. fault ≡ Damaged → IsLost self.new × ((settings : Settings) (chunk : ℕ) (text : List ℕ) → HasCome settings chunk text self.old
            → ((span : Span) → needed self.old ≡ Some span → IsToldApart text span bytes.now) → ⊥))) }
        ensures err { OnErr result (IsLost self.new) }
        ensures lost { IsLost self.old → IsErr result }
    {
        if self.held.is_none() {
            return Err(AllocError);
        }
        let Some(span) = self.needs() else {
            return Ok(Ok(()));
        };
        if !is_kept(self.index, self.at, span, bytes) {
            return Ok(Err(WalkFault::Changed(span)));
        }
        let held = self.held.take();
        let read = read_on(self.alloc, self.index, self.aim, held, self.at, span, bytes)?;
        let Some(reached) = read else {
            return Ok(Err(WalkFault::Damaged));
        };
        self.at = reached.at;
        self.held = Some(reached.held);
        Ok(Ok(()))
    }

    /// The parts that have a child, in order; or that the index is not that of any text, as where the container stays
    /// open. `Err` when out of memory, now or before.
    pub fn parts(self) -> Result<Result<Vec<ContainerPart>, WalkFault>, AllocError>
        requires all { needed self ≡ None }
        ensures found { IfOk result (λ told. IfOk told (λ parts. (settings : Settings) (chunk : ℕ) (text : List ℕ) (container : Tree) → HasCome settings chunk text self.entry
            → IsIn settings text container → span_of container ≡ self.entry.aim.whole → parts.items ≡ parts_of self.entry.aim.parts text container)) }
        ensures damaged { IfOk result (λ told. IfErr told (λ fault. (settings : Settings) (chunk : ℕ) (text : List ℕ) (container : Tree) → HasCome settings chunk text self.entry
            → IsIn settings text container → span_of container ≡ self.entry.aim.whole → ⊥)) }
        // Damage is reported just where the closing bracket was not seen.
        ensures unclosed { IsUnclosed self.entry → result ≡ Ok (Err Damaged) }
        ensures only { IfOk result (λ told. IfErr told (λ _. IsUnclosed self.entry)) }
        ensures lost { IsLost self.entry → IsErr result }
    {
        accepted_texts_stand_behind_fronts();
        index_behind_a_front();
        lex_of_two_parts();
        unique_tree_by_settings();
        grammar_of_tokens();
        let Split { held, .. } = self;
        let Some(held) = held else {
            return Err(AllocError);
        };
        if held.sum.closed == 0 {
            return Ok(Err(WalkFault::Damaged));
        }
        Ok(Ok(held.ended))
    }

    /// The split without its index.
    pub fn pause(self) -> PausedSplit
        ensures value { result ≡ paused_of self.entry }
        ensures needed { needed_by self.entry.index.now result ≡ needed self.entry }
        ensures come { (settings : Settings) (chunk : ℕ) (text : List ℕ) → HasCome settings chunk text self.entry → HasPaused settings chunk text self.entry.index.now result }
    {
        let Split {
            alloc,
            aim,
            at,
            held,
            ..
        } = self;
        PausedSplit {
            alloc,
            aim,
            at,
            held,
        }
    }
}

impl PausedSplit {
    /// The span of the bytes that are to be given next, by its index.
    pub fn needs(&self, index: &Index) -> Option<Span>
        ensures needed { result ≡ needed_by index.now self.now }
        ensures some { IfSome result (λ span. span.start < span.end) }
        ensures within { IfSome result (λ span. span.end ≤ index.now.size) }
    {
        if !is_going(&self.held) {
            return None;
        }
        chunk_at(index, self.at)
    }

    /// The split with its index again.
    pub fn resume<'a>(self, index: &'a Index) -> Split<'a>
        ensures index { result.index.now ≡ index.now }
        ensures value { paused_of result ≡ self }
        ensures needed { needed result ≡ needed_by index.now self }
        ensures come { (settings : Settings) (chunk : ℕ) (text : List ℕ) → HasPaused settings chunk text index.now self → HasCome settings chunk text result }
    {
        let PausedSplit {
            alloc,
            aim,
            at,
            held,
        } = self;
        Split {
            alloc,
            index,
            aim,
            at,
            held,
        }
    }
}
