// Lines of elements, made of a text that comes slice by slice.
ghost use Rattle.std.specs.Prelude.{◌≡◌, ◌+◌, ◌<◌, ◌^◌, ◌++◌, ℕ, List, [], All, IfOk, IfSome, OnOk, OnErr, IsErr, length};
ghost use Rattle.std.specs.Option.{option_map};
ghost use Rattle.jx_run.specs.OutcomeRun.{IsOutcomeRun};
ghost use Rattle.jx_run.specs.Reader.{IsInFront};
ghost use Rattle.jx_run.specs.Settings.{IsDocumentBy, JudgedBy};
ghost use Rattle.jx_run.specs.Tree.{Tree};
ghost use Rattle.jx_index.specs.Pointers.{IsPointer};
ghost use Rattle.jx_each.specs.Due.{is_container};
ghost use Rattle.jx_each.specs.Each.{HasFailed, HasTaken, HasTakenBy};
ghost use Rattle.jx_each.specs.Machine.{aimed};
ghost use Rattle.jx_each.specs.Sections.{IsSection};
ghost use Rattle.jx_each.specs.declared.content.LineContent.{LineContent};
ghost use Rattle.jx_each.specs.inside.Fronts.{has_begun, sound, sound_part};
ghost use Rattle.jx_each.specs.inside.Paths.{aim_of};

use crate::content::LineContent;
use crate::joining::make_by_sections;
use crate::making::make_all;
use crate::section::Section;
use crate::stand::{LineStand, Stage};
use crate::target::Target;
use crate::token::tokens_of;
use crate::way::stand_at_start;
use jx_run::{OutcomeRun, Reader, Refusal, Settings, Verdict, reader_and_grammar};
use std::alloc::{AllocError, Global};
use std::marker::Model;

/// How many bytes are before the first fault, by the verdict on so many.
fn sound(verdict: Verdict, count: usize) -> usize
    ensures { result ≡ sound verdict count }
{
    match verdict {
        Verdict::Accepted => count,
        Verdict::Refused(refusal) => match refusal {
            Refusal::Truncated => count,
            Refusal::RepeatedName { at: _ } => count,
            Refusal::Stopped { at } => at,
            Refusal::TooDeep { at } => at,
        },
    }
}

/// Of a slice after a count of bytes, those before the first fault, where so many were before it without the slice, and
/// so many are with it.
fn sound_part(slice: &[u8], before: usize, count: usize, after: usize) -> &[u8]
    ensures { result.now ≡ sound_part slice.now before count after }
{
    if before < count {
        &[]
    } else {
        let end = after.saturating_sub(count).min(slice.len());
        &slice[..end]
    }
}

/// Whether a container was opened, as far as tokens lead.
fn has_begun(stage: Stage) -> bool
    ensures { result ≡ has_begun stage }
{
    match stage {
        Stage::Ahead { level: _ } => false,
        Stage::Elements { level: _, count: _ } => true,
        Stage::Members { level: _ } => true,
        Stage::Array => true,
        Stage::Object => true,
        Stage::Name => true,
        Stage::Pair => true,
        Stage::Names => true,
        Stage::Empties => true,
        Stage::Over => true,
    }
}

/// A text that is read from its start, slice by slice: the lines of a container's elements wait here as soon as they are due. A
/// pointer leads to the container, by the first member of each of its names. Elements are those of an array, or the values of an
/// object's members. It keeps the element or the name that is not whole yet, and no other byte. Its verdict is that of a reader
/// of the same bytes.
#[derive(Drop)]
pub struct Each {
    reader: Reader,
    target: Target,
    stand: Option<LineStand>,
    ready: Vec<u8>,
    part: Vec<u8>,
}

impl Model for Each {
    ghost use Rattle.jx_each.specs.Each.{EachValue};
    ghost use Rattle.jx_each.specs.inside.Fronts.{IsLawful};
    ghost use Rattle.jx_each.specs.inside.Paths.{path_of};

    ghost Value = { EachValue };

    ghost view = { λ each. record { reader = each.reader; path = path_of each.target.path.items; content = each.target.content; stand = each.stand; ready = each.ready.items; part = each.part.items } };

    ghost invariant = { IsLawful };
}

impl Each {
    /// An `Each` that has taken no byte, by a pointer as it is written. Its settings' names are ignored. `Err` when out of memory.
    pub fn new(alloc: Global, settings: &Settings, pointer: &str) -> Result<Each, AllocError>
        requires { IsPointer pointer.now }
        ensures settings { IfOk result (λ each. each.reader.settings ≡ settings.now) }
        ensures taken { IfOk result (HasTaken pointer.now [] []) }
        ensures ready { IfOk result (λ each. each.ready ≡ []) }
    {
        Each::with_content(alloc, settings, pointer, LineContent::Alone)
    }

    /// An `Each` that has taken no byte, by a pointer and by what a line has. Its settings' names are ignored.
    pub fn with_content(
        alloc: Global,
        settings: &Settings,
        pointer: &str,
        content: LineContent,
    ) -> Result<Each, AllocError>
        requires { IsPointer pointer.now }
        ensures settings { IfOk result (λ each. each.reader.settings ≡ settings.now) }
        ensures content { IfOk result (λ each. each.content ≡ content) }
        ensures taken { IfOk result (HasTakenBy content pointer.now [] []) }
        ensures ready { IfOk result (λ each. each.ready ≡ []) }
    {
        reader_and_grammar();
        let path = tokens_of(alloc, pointer.as_bytes())?;
        Ok(Each {
            reader: Reader::new(alloc, settings, 0),
            target: Target { path, content },
            stand: Some(stand_at_start()),
            ready: Vec::new(alloc),
            part: Vec::new(alloc),
        })
    }

    /// Takes the slice after all bytes that it has taken. After a fault no byte is looked at. Fails only when out of
    /// memory, and from then on every slice is.
    pub fn feed(&mut self, slice: &[u8]) -> Result<(), AllocError>
        requires { self.old.reader.start + self.old.reader.count + length slice.now < 2 ^ 64 }
        ensures settings { self.new.reader.settings ≡ self.old.reader.settings }
        ensures path { self.new.path ≡ self.old.path }
        ensures content { self.new.content ≡ self.old.content }
        ensures taken { OnOk result ((pointer bytes given : List ℕ) → HasTaken pointer bytes given self.old → HasTaken pointer (bytes ++ slice.now) given self.new) }
        ensures taken_by { OnOk result ((content : LineContent) (pointer bytes given : List ℕ) → HasTakenBy content pointer bytes given self.old → HasTakenBy content pointer (bytes ++ slice.now) given self.new) }
        ensures start { self.new.reader.start ≡ self.old.reader.start }
        ensures count { OnOk result (self.new.reader.count ≡ self.old.reader.count + length slice.now) }
        ensures err { OnErr result (HasFailed self.new) }
        ensures failed { HasFailed self.old → IsErr result }
    {
        reader_and_grammar();
        let Some(stand) = self.stand else {
            return Err(AllocError);
        };
        self.stand = None;
        let count = self.reader.end();
        let before = sound(self.reader.verdict(), count);
        self.reader.feed(slice)?;
        let after = sound(self.reader.verdict(), self.reader.end());
        let part = sound_part(slice, before, count, after);
        let next = make_all(&self.target, stand, &mut self.ready, &mut self.part, part)?;
        self.stand = Some(next);
        Ok(())
    }

    /// Takes the slice after all bytes that it has taken by a run over it, and by parts of it, the last one first:
    /// their lines are taken in where the bytes before lead to their beginning. No byte order mark may stand in the
    /// slice, as in `Reader::follow`. Fails only when out of memory, and from then on every slice is.
    pub fn follow(
        &mut self,
        slice: &[u8],
        run: &OutcomeRun,
        sections: Vec<Option<Section>>,
    ) -> Result<(), AllocError>
        requires fits { self.old.reader.start + self.old.reader.count + length slice.now < 2 ^ 64 }
        requires behind { IsInFront self.old.reader → ⊥ }
        requires depth { run.now.depth ≡ self.old.reader.settings.depth }
        requires start { run.now.start ≡ 0 }
        requires of { IsOutcomeRun slice.now run.now }
        requires sections { All (λ s. IfSome s (IsSection (aimed self.old.content self.old.path) slice.now)) sections.items }
        ensures settings { self.new.reader.settings ≡ self.old.reader.settings }
        ensures path { self.new.path ≡ self.old.path }
        ensures content { self.new.content ≡ self.old.content }
        ensures taken_by { OnOk result ((content : LineContent) (pointer bytes given : List ℕ) → HasTakenBy content pointer bytes given self.old → HasTakenBy content pointer (bytes ++ slice.now) given self.new) }
        ensures start { self.new.reader.start ≡ self.old.reader.start }
        ensures count { OnOk result (self.new.reader.count ≡ self.old.reader.count + length slice.now) }
        ensures err { OnErr result (HasFailed self.new) }
        ensures failed { HasFailed self.old → IsErr result }
    {
        reader_and_grammar();
        let Some(stand) = self.stand else {
            return Err(AllocError);
        };
        self.stand = None;
        let count = self.reader.end();
        let before = sound(self.reader.verdict(), count);
        self.reader.follow(run)?;
        let after = sound(self.reader.verdict(), self.reader.end());
        let part = sound_part(slice, before, count, after);
        let next = make_by_sections(
            &self.target,
            stand,
            &mut self.ready,
            &mut self.part,
            part,
            sections,
        )?;
        self.stand = Some(next);
        Ok(())
    }

    /// The container that is looked for, and what is written of it.
    pub fn target(&self) -> &Target
        ensures { aim_of result.now ≡ aimed self.now.content self.now.path }
    {
        &self.target
    }

    /// The stage to which the container is found; none when out of memory.
    pub fn stage(&self) -> Option<Stage>
        ensures { result ≡ option_map (λ stand. stand.stage) self.now.stand }
    {
        match self.stand {
            Some(stand) => Some(stand.stage),
            None => None,
        }
    }

    /// The offset just past the last byte that it has taken.
    pub fn end(&self) -> usize
        ensures { result ≡ self.now.reader.start + self.now.reader.count }
    {
        self.reader.end()
    }

    /// The lines that wait, each one whole.
    pub fn ready(&self) -> &[u8]
        ensures { result.now ≡ self.now.ready }
    {
        &self.ready
    }

    /// Lets the lines that wait go.
    pub fn clear_ready(&mut self)
        ensures reader { self.new.reader ≡ self.old.reader }
        ensures path { self.new.path ≡ self.old.path }
        ensures content { self.new.content ≡ self.old.content }
        // A failure stays.
        ensures stand { self.new.stand ≡ self.old.stand }
        ensures part { self.new.part ≡ self.old.part }
        ensures ready { self.new.ready ≡ [] }
        ensures taken { (pointer bytes given : List ℕ) → HasTaken pointer bytes given self.old → HasTaken pointer bytes (given ++ self.old.ready) self.new }
        ensures taken_by { (content : LineContent) (pointer bytes given : List ℕ) → HasTakenBy content pointer bytes given self.old → HasTakenBy content pointer bytes (given ++ self.old.ready) self.new }
    {
        self.ready.clear();
    }

    /// The verdict on the bytes that it has taken, as a whole text, whatever names its objects have.
    pub fn verdict(&self) -> Verdict
        ensures { (pointer bytes given : List ℕ) → HasTaken pointer bytes given self.now → JudgedBy self.now.reader.settings 0 bytes result }
    {
        self.reader.verdict()
    }

    /// The reader of the same bytes.
    pub fn reader(&self) -> &Reader
        ensures { result.now ≡ self.now.reader }
    {
        &self.reader
    }

    /// The number of tokens that the pointer has.
    pub fn token_count(&self) -> usize
        ensures { result ≡ length self.now.path }
    {
        self.target.path.len()
    }

    /// Whether the bytes that it has taken are an array or an object, where they are a text.
    pub fn is_container(&self) -> bool
        ensures { (pointer bytes given : List ℕ) (tree : Tree) → HasTaken pointer bytes given self.now → IsDocumentBy self.now.reader.settings 0 bytes tree → result ≡ is_container tree }
    {
        match self.stand {
            Some(stand) => has_begun(stand.stage),
            None => false,
        }
    }
}
