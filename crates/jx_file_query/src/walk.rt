// The look-up of several pointers (RFC 6901, section 4) in a text of which an index is saved.
ghost use Rattle.std.specs.Prelude.{◌≡◌, ◌≢◌, ◌≤◌, ◌<◌, None, Some, Err, ℕ, List, false, true, slice_range, IfOk, IfErr, IfSome, IsErr, OnErr};
ghost use Rattle.jx_summary.specs.declared.span.Span.{Span};
ghost use Rattle.jx_run.specs.declared.texts.settings.Settings.{Settings};
ghost use Rattle.jx_index.specs.Found.{AreFoundIn};
ghost use Rattle.jx_file_index.specs.Index.{IsIndexOf};
ghost use Rattle.jx_file_index.specs.NameTables.{AreTablesOf};
ghost use Rattle.jx_file_query.specs.declared.walk.WalkFault.TheVariants.{Changed, Damaged};
ghost use Rattle.jx_file_query.specs.PausedWalks.{HasPaused, needed_by, paused_of};
ghost use Rattle.jx_file_query.specs.Walk.{HasCome, IsLost, IsToldApart, held_by, left, needed, open_in};

use crate::chunks::{chunk_at, is_kept};
use crate::laws::skipped_parts;
use crate::members::{TextNames, hashes_of};
use crate::walk_reaching::read_on;
use jx_file_index::{Index, NameTables};
use jx_find::Sought;
use jx_index::{Edge, FindFault, Found, Pointer, answers_of, starts_of, trie_of};
use jx_lex::Span;
use jx_run::{reader_and_grammar, unique_verdict_by_settings};
use std::alloc::{AllocError, Global};
use thiserror::Error;

/// Why a look-up by a saved index has no answer.
#[derive(Clone, Copy, Debug, Error, PartialEq, Eq)]
pub enum WalkFault {
    /// The bytes of this chunk are not those of the text that was indexed.
    #[error("changed in {}..{}", .0.start, .0.end)]
    Changed(Span),
    /// The index is not that of any text.
    #[error("damaged")]
    Damaged,
}

/// A look-up of several pointers in a JSON text (RFC 8259) of which an index is saved. It says which bytes of the text
/// it needs, and is given them; chunks that have nothing to do with the pointers are skipped. It keeps what a `Finder`
/// does.
#[derive(Drop)]
pub struct Walk<'a, 'p> {
    alloc: Global,
    index: &'a Index,
    pointers: Vec<Pointer<'p>>,
    edges: Vec<Edge<'p>>,
    starts: Vec<usize>,
    /// The names of the text, where they are known.
    names: Option<TextNames<'a>>,
    /// Which chunk is needed next.
    at: usize,
    /// The state after the bytes before it. None when out of memory, or the index is not that of any text.
    held: Option<Sought>,
}

/// A walk without its index, for whoever owns both.
#[derive(Drop)]
pub struct PausedWalk<'p> {
    alloc: Global,
    pointers: Vec<Pointer<'p>>,
    edges: Vec<Edge<'p>>,
    starts: Vec<usize>,
    at: usize,
    held: Option<Sought>,
}

/// Whether no container stands open.
fn is_whole(held: &Sought) -> bool
    ensures whole { result ≡ true → open_in (Some held.now) ≡ 0 }
    ensures other { result ≡ false → 0 < open_in (Some held.now) }
{
    held.state.skipped == 0 && held.state.opened.is_empty()
}

impl<'a, 'p> Walk<'a, 'p> {
    /// A walk for pointers that was given no byte. `Err` when out of memory.
    pub fn new(
        alloc: Global,
        index: &'a Index,
        pointers: Vec<Pointer<'p>>,
    ) -> Result<Walk<'a, 'p>, AllocError>
        ensures index { IfOk result (λ walk. walk.index.now ≡ index.now) }
        ensures come { IfOk result (λ walk. (settings : Settings) (chunk : ℕ) (text : List ℕ) → IsIndexOf settings chunk text index.now
            → HasCome settings chunk text pointers.entry.items walk) }
    {
        reader_and_grammar();
        unique_verdict_by_settings();
        // Shows the proof how long a chunk is at least.
        let _ = index.chunk.bytes();
        let edges = trie_of(alloc, &pointers)?;
        let starts = starts_of(alloc, &edges)?;
        let held = Sought::new(alloc, &edges)?;
        Ok(Walk {
            alloc,
            index,
            pointers,
            edges,
            starts,
            names: None,
            at: 0,
            held: Some(held),
        })
    }

    /// A walk with the tables of the text's names. By them chunks of an object on the way are skipped that have no
    /// member that is wanted.
    pub fn with_names(
        alloc: Global,
        index: &'a Index,
        tables: &'a NameTables,
        pointers: Vec<Pointer<'p>>,
    ) -> Result<Walk<'a, 'p>, AllocError>
        ensures index { IfOk result (λ walk. walk.index.now ≡ index.now) }
        ensures come { IfOk result (λ walk. (settings : Settings) (chunk : ℕ) (text : List ℕ) → IsIndexOf settings chunk text index.now → AreTablesOf settings chunk text tables.now
            → HasCome settings chunk text pointers.entry.items walk) }
    {
        let walk = Walk::new(alloc, index, pointers)?;
        walk.by_names(tables)
    }

    /// The walk as far as it has come, from now on by the tables of the text's names. `Err` when out of memory.
    pub fn by_names(self, tables: &'a NameTables) -> Result<Walk<'a, 'p>, AllocError>
        ensures index { IfOk result (λ walk. walk.index.now ≡ self.entry.index.now) }
        ensures value { IfOk result (λ walk. paused_of walk ≡ paused_of self.entry) }
        ensures needed { IfOk result (λ walk. needed walk ≡ needed self.entry) }
        ensures come { IfOk result (λ walk. (settings : Settings) (chunk : ℕ) (text : List ℕ) (pointers : List (List ℕ)) → HasCome settings chunk text pointers self.entry → AreTablesOf settings chunk text tables.now
            → HasCome settings chunk text pointers walk) }
    {
        let hashes = hashes_of(self.alloc, &self.edges)?;
        Ok(Walk {
            names: Some(TextNames { tables, hashes }),
            ..self
        })
    }

    /// The span of the bytes that are to be given next, or none where all were.
    pub fn needs(&self) -> Option<Span>
        ensures needed { result ≡ needed self.now }
        ensures some { IfSome result (λ span. span.start < span.end) }
        ensures within { IfSome result (λ span. span.end ≤ self.now.index.now.size) }
    {
        chunk_at(self.index, self.at)
    }

    /// Gives it the bytes that it needs. Where they are others than those of the text that was indexed, nothing is
    /// taken, and other bytes may be given. Where it needs none, nothing is done. `Err` when out of memory or the index
    /// was found not to be that of any text, and from then on always.
    pub fn give(&mut self, bytes: &[u8]) -> Result<Result<(), WalkFault>, AllocError>
        ensures index { self.new.index.now ≡ self.old.index.now }
        // Bytes of the text, as far as their digest decides, lead on.
        ensures come { IfOk result (λ told. IfOk told (λ _. (settings : Settings) (chunk : ℕ) (text : List ℕ) (pointers : List (List ℕ)) → HasCome settings chunk text pointers self.old
            → ((span : Span) → needed self.old ≡ Some span → IsToldApart text span bytes.now) → HasCome settings chunk text pointers self.new)) }
        // For any index, it goes forward.
        ensures behind { IfOk result (λ told. IfOk told (λ _. (span next : Span) → needed self.old ≡ Some span → needed self.new ≡ Some next → span.end ≤ next.start)) }
        ensures nearer { IfOk result (λ told. IfOk told (λ _. (span : Span) → needed self.old ≡ Some span → left self.new < left self.old)) }
        // The meaning of a fault.
        ensures changed { IfOk result (λ told. IfErr told (λ fault. (span : Span) → fault ≡ Changed span → (self.new ≡ self.old) × (needed self.old ≡ Some span)
            × ((settings : Settings) (chunk : ℕ) (text : List ℕ) (pointers : List (List ℕ)) → HasCome settings chunk text pointers self.old → bytes.now ≢ slice_range text span.start span.end))) }
        ensures damaged { IfOk result (λ told. IfErr told (λ fault. fault ≡ Damaged → IsLost self.new × ((settings : Settings) (chunk : ℕ) (text : List ℕ) (pointers : List (List ℕ)) → HasCome settings chunk text pointers self.old
            → ((span : Span) → needed self.old ≡ Some span → IsToldApart text span bytes.now) → ⊥))) }
        ensures err { OnErr result (IsLost self.new) }
        ensures lost { IsLost self.old → IsErr result }
    {
        if self.held.is_none() {
            return Err(AllocError);
        }
        let Some(span) = self.needs() else {
            return Ok(Ok(()));
        };
        if !is_kept(self.index, self.at, span, bytes) {
            return Ok(Err(WalkFault::Changed(span)));
        }
        let held = self.held.take();
        let read = read_on(
            self.alloc,
            self.index,
            &self.names,
            &self.edges,
            &self.starts,
            held,
            self.at,
            span,
            bytes,
        )?;
        let Some(reached) = read else {
            return Ok(Err(WalkFault::Damaged));
        };
        self.at = reached.at;
        self.held = Some(reached.held);
        Ok(Ok(()))
    }

    /// The answers: for each pointer, in order, the value, or the first token that leads nowhere; or that the index is
    /// not that of any text, as where containers stay open. `Err` when out of memory, now or before.
    pub fn answers(self) -> Result<Result<Vec<Result<Found, FindFault>>, WalkFault>, AllocError>
        requires all { needed self ≡ None }
        ensures found { IfOk result (λ told. IfOk told (λ found. (settings : Settings) (chunk : ℕ) (text : List ℕ) (pointers : List (List ℕ)) → HasCome settings chunk text pointers self.entry
            → AreFoundIn settings text pointers found.items)) }
        ensures damaged { IfOk result (λ told. IfErr told (λ fault. (settings : Settings) (chunk : ℕ) (text : List ℕ) (pointers : List (List ℕ)) → HasCome settings chunk text pointers self.entry → ⊥)) }
        // Damage is reported just where containers stand open.
        ensures unclosed { IfOk result (λ told. 0 < open_in (held_by self.entry) → told ≡ Err Damaged) }
        ensures only { IfOk result (λ told. IfErr told (λ _. 0 < open_in (held_by self.entry))) }
        ensures lost { IsLost self.entry → IsErr result }
    {
        reader_and_grammar();
        unique_verdict_by_settings();
        skipped_parts();
        let Walk {
            alloc,
            index,
            pointers,
            edges,
            starts,
            held,
            ..
        } = self;
        let Some(held) = held else {
            return Err(AllocError);
        };
        if !is_whole(&held) {
            return Ok(Err(WalkFault::Damaged));
        }
        let met = held.into_met(&edges, &starts, index.size)?;
        let found = answers_of(alloc, &edges, &starts, &met, &pointers)?;
        Ok(Ok(found))
    }

    /// The walk without its index, and without tables of names.
    pub fn pause(self) -> PausedWalk<'p>
        ensures value { result ≡ paused_of self.entry }
        ensures needed { needed_by self.entry.index.now result ≡ needed self.entry }
        ensures come { (settings : Settings) (chunk : ℕ) (text : List ℕ) (pointers : List (List ℕ)) → HasCome settings chunk text pointers self.entry
            → HasPaused settings chunk text pointers self.entry.index.now result }
    {
        let Walk {
            alloc,
            pointers,
            edges,
            starts,
            at,
            held,
            ..
        } = self;
        PausedWalk {
            alloc,
            pointers,
            edges,
            starts,
            at,
            held,
        }
    }
}

impl<'p> PausedWalk<'p> {
    /// The span of the bytes that are to be given next, by its index.
    pub fn needs(&self, index: &Index) -> Option<Span>
        ensures needed { result ≡ needed_by index.now self.now }
        ensures some { IfSome result (λ span. span.start < span.end) }
        ensures within { IfSome result (λ span. span.end ≤ index.now.size) }
    {
        chunk_at(index, self.at)
    }

    /// The walk with its index again.
    pub fn resume<'a>(self, index: &'a Index) -> Walk<'a, 'p>
        ensures index { result.index.now ≡ index.now }
        ensures value { paused_of result ≡ self.entry }
        ensures needed { needed result ≡ needed_by index.now self.entry }
        ensures come { (settings : Settings) (chunk : ℕ) (text : List ℕ) (pointers : List (List ℕ)) → HasPaused settings chunk text pointers index.now self.entry
            → HasCome settings chunk text pointers result }
    {
        let PausedWalk {
            alloc,
            pointers,
            edges,
            starts,
            at,
            held,
        } = self;
        Walk {
            alloc,
            index,
            pointers,
            edges,
            starts,
            names: None,
            at,
            held,
        }
    }
}
