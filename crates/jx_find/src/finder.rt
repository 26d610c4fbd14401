// The look-up of several pointers (RFC 6901, section 4) in a text that is fed slice by slice.
ghost use Rattle.std.specs.Prelude.{◌≡◌, ◌+◌, ◌<◌, ◌^◌, ◌++◌, [], ℕ, List, Some, length, IfNone, IfSome, IfOk, IfErr, IsErr, OnOk, OnErr};
ghost use Rattle.jx_run.specs.declared.texts.settings.NameRule.TheVariants.{Any};
ghost use Rattle.jx_run.specs.declared.texts.settings.Settings.{Settings};
ghost use Rattle.jx_run.specs.declared.texts.verdict.Verdict.TheVariants.{Accepted, Refused};
ghost use Rattle.jx_index.specs.ByNames.{IsVerdictBy};
ghost use Rattle.jx_index.specs.Found.{AreFoundIn};
ghost use Rattle.jx_index.specs.inside.InTurn.{AreInTurn, AreInTurn-prop};
ghost use Rattle.jx_find.specs.declared.held.Sought.{Sought as SoughtOf};

use crate::held::Sought;
use crate::reading::{answers_behind, read_slice};
use jx_index::{Edge, FindFault, Found, Pointer, starts_of, trie_of};
use jx_run::{Reader, Refusal, Settings, slices_are_told_in_turn};
use std::alloc::{AllocError, Global};

/// A look-up of several pointers in a JSON text (RFC 8259) that is fed by slices of any length. It keeps the pointers and their
/// tokens, what they were met at and the open containers on their way, and of the text only the bytes of a name that has
/// begun and not ended.
#[derive(Drop)]
pub struct Finder<'p> {
    alloc: Global,
    reader: Reader,
    pointers: Vec<Pointer<'p>>,
    edges: Vec<Edge<'p>>,
    starts: Vec<usize>,
    /// None when out of memory.
    held: Option<Sought>,
    // A token has begun just where the reader stands inside one.
    ghost turn: { AreInTurn (λ (h : SoughtOf). h.begun) reader.outcome held } by { AreInTurn-prop (λ (h : SoughtOf). h.begun) reader.outcome held },
}

impl<'p> Finder<'p> {
    ghost use Rattle.jx_find.specs.Finder.{HasFed, IsLost, end_of, held_by};

    /// A finder for pointers that was fed no byte. The settings may ignore a byte order mark in front of the text (RFC 8259,
    /// section 8.1); objects may have any names. `Err` when out of memory.
    pub fn new(
        alloc: Global,
        settings: &Settings,
        pointers: Vec<Pointer<'p>>,
    ) -> Result<Finder<'p>, AllocError>
        requires any { settings.now.names ≡ Any }
        ensures fed { IfOk result (λ finder. HasFed settings.now pointers.entry.items [] finder) }
    {
        slices_are_told_in_turn();
        let edges = trie_of(alloc, &pointers)?;
        let starts = starts_of(alloc, &edges)?;
        let held = Sought::new(alloc, &edges)?;
        Ok(Finder {
            alloc,
            reader: Reader::new(alloc, settings, 0),
            pointers,
            edges,
            starts,
            held: Some(held),
        })
    }

    /// The offset just past the last byte that it was fed.
    pub fn end(&self) -> usize
        ensures { result ≡ end_of self.now }
    {
        self.reader.end()
    }

    /// The state after the bytes that it was fed; none when out of memory. So who keeps bytes of the text can know which
    /// of them the value of a pointer may have.
    pub fn sought(&self) -> Option<&Sought>
        ensures none { IfNone result (IsLost self.now) }
        ensures value { IfSome result (λ sought. held_by self.now ≡ Some sought.now) }
    {
        match &self.held {
            Some(held) => Some(held),
            None => None,
        }
    }

    /// Reads the slice after all bytes that it was fed. Fails only when out of memory, and from then on for every slice.
    pub fn feed(&mut self, slice: &[u8]) -> Result<(), AllocError>
        requires fits { end_of self.old + length slice.now < 2 ^ 64 }
        ensures fed { OnOk result ((settings : Settings) (pointers : List (List ℕ)) (bytes : List ℕ) → HasFed settings pointers bytes self.old
            → HasFed settings pointers (bytes ++ slice.now) self.new) }
        ensures err { OnErr result (IsLost self.new) }
        ensures lost { IsLost self.old → IsErr result }
    {
        let Some(held) = self.held.take() else {
            return Err(AllocError);
        };
        let next = read_slice(&mut self.reader, &self.edges, &self.starts, held, slice)?;
        self.held = Some(next);
        Ok(())
    }

    /// The answer on all bytes that it was fed. Returns the refusal where they are not valid JSON; else for each pointer, in order,
    /// the value, or the first token that leads nowhere. `Err` when it is or was out of memory.
    pub fn finish(self) -> Result<Result<Vec<Result<Found, FindFault>>, Refusal>, AllocError>
        ensures accepted { IfOk result (λ read. IfOk read (λ _. (settings : Settings) (pointers : List (List ℕ)) (bytes : List ℕ) → HasFed settings pointers bytes self.entry
            → IsVerdictBy settings bytes Accepted)) }
        ensures refused { IfOk result (λ read. IfErr read (λ refusal. (settings : Settings) (pointers : List (List ℕ)) (bytes : List ℕ) → HasFed settings pointers bytes self.entry
            → IsVerdictBy settings bytes (Refused refusal))) }
        ensures found { IfOk result (λ read. IfOk read (λ found. (settings : Settings) (pointers : List (List ℕ)) (bytes : List ℕ) → HasFed settings pointers bytes self.entry
            → AreFoundIn settings bytes pointers found.items)) }
        ensures lost { IsLost self.entry → IsErr result }
    {
        let Finder {
            alloc,
            reader,
            pointers,
            edges,
            starts,
            held,
        } = self;
        let Some(held) = held else {
            return Err(AllocError);
        };
        answers_behind(alloc, &reader, &edges, &starts, held, &pointers)
    }
}
