// A saved index that C opened, and what goes on by it: a look-up of pointers, or a split of a container.
ghost use Rattle.std.specs.Prelude.{◌≡◌, ◌⊎◌, ◌<◌, ◌≤◌, ◌/◌, None, Some, ℕ, List, length, IfErr, IfOk, IfSome, true, false};
ghost use Rattle.jx_run.specs.declared.texts.settings.Settings.{Settings};
ghost use Rattle.jx_summary.specs.declared.span.Span.{Span};
ghost use Rattle.jx_file_index.specs.Spelling.{front_flags};
ghost use Rattle.jx_file_index.specs.declared.saved_text.SavedText.{SavedText};
ghost use Rattle.jx_file_index.specs.SavedTexts.{IsSavableToo};
ghost use Rattle.jx_file_index.specs.TextSpelling.{spelt_saved};
ghost use Rattle.jx_file_query.specs.Parts.{IsIn, parts_of};
ghost use Rattle.jx_run.specs.Laws.{span_of};
ghost use Rattle.jx_run.specs.Tree.{Tree};
ghost use Rattle.jx_file_query.specs.PausedSplits as paused_split;
ghost use Rattle.jx_file_query.specs.PausedWalks as paused_walk;
ghost use Rattle.jx_file_query.specs.Walk as walks;
ghost use Rattle.jx_c.specs.Buffers.{IsFilled};
ghost use Rattle.jx_c.specs.Indexes.{AreAnswersOf};
ghost use Rattle.jx_c.specs.Opened.{AreAnswersIn, AreOthers, ArePartsIn, HasNoSuchContainer, HasWalked, IsALookUp, IsASplit, IsChunk, IsGiven, IsKeptOf, IsLedOn, IsNoChunk, IsOfNoText, IsOfNone, IsOpened, IsRefused, IsSeeking, IsSought, IsSplit, IsWithin, aim_in, any_names, chunk_with, idle, needed, shown_part, shown_text, status_of};
ghost use Rattle.jx_c.specs.declared.texts.all.JxPointer.{JxPointer};
ghost use Rattle.jx_c.specs.declared.saving.opened.IndexWork.TheVariants.{Nothing, Seeking, Splitting};

use crate::shapes::buffers::{Seen, fill};
use crate::shapes::places::{JxSpan, shown_span};
use crate::shapes::status::{
    CHANGED, CUT_SHORT, DAMAGED, MALFORMED, MORE_BYTES, MORE_NEEDED, NO_MEMORY, NOT_BEGUN,
    NOT_SAVED, OK, OTHER_SIZE, OTHER_VERSION, OUT_OF_BOUNDS,
};
use crate::texts::all::{JxPointer, answer_all, pointers_of};
use crate::texts::look_up::JxAnswer;
use jx_file_index::{Index, SavedFault, SavedText};
use jx_file_query::{
    Aim, ContainerPart, PausedSplit, PausedWalk, Split, Walk, WalkFault, chunk_at, is_kept,
};
use jx_lex::Span;
use jx_run::{FrontMark, NameRule, Settings};
use std::alloc::{AllocError, Global};
use std::mem::replace;

/// Children of a container, one after another.
#[repr(C)]
#[derive(Clone, Copy)]
pub struct JxPart {
    /// From after the comma or the bracket before its first child, up to the one after its last.
    pub span: JxSpan,
    /// Which part of the container's bytes it is, counted from 0.
    pub number: usize,
    /// Its first child, counted from 0 in the container, and the one after its last.
    pub first: usize,
    pub end: usize,
}

/// The sizes and settings of the text of a saved index.
#[repr(C)]
#[derive(Clone, Copy)]
pub struct JxSavedText {
    /// How many bytes it has, and how many each chunk of it has, but for the last one.
    pub size: usize,
    pub chunk: usize,
    /// The settings by which it is a text.
    pub depth: u32,
    pub flags: u32,
}

/// Into at most so many parts a container is split.
const MOST_PARTS: usize = 65536;

/// A look-up or a split by an index. C leaves pointers as they are until a look-up ends: to the library, for ever.
#[derive(Drop)]
pub enum IndexWork {
    Nothing,
    Seeking {
        pointers: &'static [JxPointer<'static>],
        walk: PausedWalk<'static>,
    },
    Splitting(PausedSplit),
}

/// An index, the tables of names that follow it, if there are any, and what goes on by it.
#[derive(Drop)]
pub struct OpenedIndex {
    pub saved: SavedText,
    pub work: IndexWork,
}

/// The result of giving bytes: a status, and what goes on.
#[derive(Drop)]
struct Given {
    work: IndexWork,
    status: u32,
}

/// The status for a fault in the bytes of an index.
fn status_of(fault: SavedFault) -> u32
    ensures { result ≡ status_of fault }
{
    match fault {
        SavedFault::Memory => NO_MEMORY,
        SavedFault::NotAnIndex => NOT_SAVED,
        SavedFault::OtherVersion => OTHER_VERSION,
        SavedFault::CutShort => CUT_SHORT,
        SavedFault::Damaged => DAMAGED,
        SavedFault::Malformed => MALFORMED,
        SavedFault::Longer => MORE_BYTES,
    }
}

/// The sum of flags that stands for the choices of settings.
fn flags_of(settings: &Settings) -> u32
    ensures { result ≡ front_flags settings.now.mark settings.now.names }
{
    match (settings.mark, settings.names) {
        (FrontMark::Refused, NameRule::Any) => 0,
        (FrontMark::Ignored, NameRule::Any) => 1,
        (FrontMark::Refused, NameRule::Unique) => 2,
        (FrontMark::Ignored, NameRule::Unique) => 3,
    }
}

impl Seen for ContainerPart {
    type Form = JxPart;

    ghost form = { shown_part };

    fn seen(self) -> JxPart {
        JxPart {
            span: shown_span(self.span),
            number: self.number,
            first: self.first,
            end: self.end,
        }
    }
}

/// The walk with its index again, and with the tables of names, if there are any.
fn resumed<'a>(
    saved: &'a SavedText,
    walk: PausedWalk<'static>,
) -> Result<Walk<'a, 'static>, AllocError>
    ensures index { IfOk result (λ whole. whole.index.now ≡ saved.now.index) }
    ensures needed { IfOk result (λ whole. walks.needed whole ≡ paused_walk.needed_by saved.now.index walk.entry) }
    ensures value { IfOk result (λ whole. paused_walk.paused_of whole ≡ walk.entry) }
    ensures come { IfOk result (λ whole. (settings : Settings) (chunk : ℕ) (text : List ℕ) (read : List (List ℕ)) → HasWalked settings chunk text read saved.now walk.entry
        → walks.HasCome settings chunk text read whole) }
{
    let whole = walk.resume(&saved.index);
    match &saved.names {
        Some(tables) => whole.by_names(tables),
        None => Ok(whole),
    }
}

/// Gives bytes to a look-up.
fn give_to_walk(
    saved: &SavedText,
    pointers: &'static [JxPointer<'static>],
    walk: PausedWalk<'static>,
    bytes: &[u8],
) -> Given
    ensures led { result.status ≡ OK → IsLedOn saved.now bytes.now (Seeking pointers.entry walk.entry) result.work }
    ensures same { result.status ≡ CHANGED → result.work ≡ Seeking pointers.entry walk.entry }
    ensures changed { result.status ≡ CHANGED → AreOthers saved.now (Seeking pointers.entry walk.entry) bytes.now }
    ensures damaged { result.status ≡ DAMAGED → IsOfNone saved.now (Seeking pointers.entry walk.entry) bytes.now }
    ensures lost { (result.status ≡ OK → ⊥) → (result.status ≡ CHANGED → ⊥) → result.work ≡ Nothing }
    ensures status { (result.status ≡ OK) ⊎ ((result.status ≡ CHANGED) ⊎ ((result.status ≡ DAMAGED) ⊎ (result.status ≡ NO_MEMORY))) }
{
    let mut whole = match resumed(saved, walk) {
        Ok(whole) => whole,
        Err(AllocError) => return lost(NO_MEMORY),
    };
    match whole.give(bytes) {
        Ok(Ok(())) => Given {
            work: IndexWork::Seeking {
                pointers,
                walk: whole.pause(),
            },
            status: OK,
        },
        Ok(Err(WalkFault::Changed(_))) => Given {
            work: IndexWork::Seeking {
                pointers,
                walk: whole.pause(),
            },
            status: CHANGED,
        },
        Ok(Err(WalkFault::Damaged)) => lost(DAMAGED),
        Err(AllocError) => lost(NO_MEMORY),
    }
}

/// Gives bytes to a split.
fn give_to_split(saved: &SavedText, split: PausedSplit, bytes: &[u8]) -> Given
    ensures led { result.status ≡ OK → IsLedOn saved.now bytes.now (Splitting split) result.work }
    ensures same { result.status ≡ CHANGED → result.work ≡ Splitting split }
    ensures changed { result.status ≡ CHANGED → AreOthers saved.now (Splitting split) bytes.now }
    ensures damaged { result.status ≡ DAMAGED → IsOfNone saved.now (Splitting split) bytes.now }
    ensures lost { (result.status ≡ OK → ⊥) → (result.status ≡ CHANGED → ⊥) → result.work ≡ Nothing }
    ensures status { (result.status ≡ OK) ⊎ ((result.status ≡ CHANGED) ⊎ ((result.status ≡ DAMAGED) ⊎ (result.status ≡ NO_MEMORY))) }
{
    let mut whole = split.resume(&saved.index);
    match whole.give(bytes) {
        Ok(Ok(())) => Given {
            work: IndexWork::Splitting(whole.pause()),
            status: OK,
        },
        Ok(Err(WalkFault::Changed(_))) => Given {
            work: IndexWork::Splitting(whole.pause()),
            status: CHANGED,
        },
        Ok(Err(WalkFault::Damaged)) => lost(DAMAGED),
        Err(AllocError) => lost(NO_MEMORY),
    }
}

/// Nothing goes on.
fn lost(status: u32) -> Given
    ensures status { result.status ≡ status }
    ensures work { result.work ≡ Nothing }
{
    Given {
        work: IndexWork::Nothing,
        status,
    }
}

/// Ends a look-up: puts the answers into the buffer, as many as that has room for.
fn answers_of(
    saved: &SavedText,
    pointers: &'static [JxPointer<'static>],
    walk: PausedWalk<'static>,
    answers: &mut [JxAnswer],
) -> u32
    requires { paused_walk.needed_by saved.now.index walk ≡ None }
    ensures answers { result ≡ OK → (settings : Settings) (chunk : ℕ) (text : List ℕ) (asked : List JxPointer) → IsSeeking settings chunk text asked saved.now pointers.now walk.entry
        → AreAnswersOf (any_names settings) text asked answers.old answers.new }
    ensures damaged { result ≡ DAMAGED → (settings : Settings) (chunk : ℕ) (text : List ℕ) (asked : List JxPointer) → IsSeeking settings chunk text asked saved.now pointers.now walk.entry → ⊥ }
    ensures status { (result ≡ OK) ⊎ ((result ≡ DAMAGED) ⊎ (result ≡ NO_MEMORY)) }
    ensures unchanged { (result ≡ OK → ⊥) → answers.new ≡ answers.old }
{
    match walk.resume(&saved.index).answers() {
        Ok(Ok(found)) => {
            answer_all(&Ok(found), pointers, answers);
            OK
        }
        Ok(Err(_)) => DAMAGED,
        Err(AllocError) => NO_MEMORY,
    }
}

/// Ends a split: puts the parts into the buffer, as many as that has room for, and their number into `count`.
fn parts_of(index: &Index, split: PausedSplit, parts: &mut [JxPart], count: &mut usize) -> u32
    requires { paused_split.needed_by index.now split ≡ None }
    ensures parts { result ≡ OK → (settings : Settings) (chunk : ℕ) (text : List ℕ) (container : Tree) → paused_split.HasPaused settings chunk text index.now split → IsIn settings text container
        → span_of container ≡ split.aim.whole → (count.new ≡ length (parts_of split.aim.parts text container)) × IsFilled shown_part parts.old parts.new (parts_of split.aim.parts text container) }
    ensures damaged { result ≡ DAMAGED → (settings : Settings) (chunk : ℕ) (text : List ℕ) (container : Tree) → paused_split.HasPaused settings chunk text index.now split → IsIn settings text container
        → span_of container ≡ split.aim.whole → ⊥ }
    ensures status { (result ≡ OK) ⊎ ((result ≡ DAMAGED) ⊎ (result ≡ NO_MEMORY)) }
    ensures unchanged_parts { (result ≡ OK → ⊥) → parts.new ≡ parts.old }
    ensures unchanged_count { (result ≡ OK → ⊥) → count.new ≡ count.old }
{
    match split.resume(index).parts() {
        Ok(Ok(all)) => {
            *count = all.len();
            fill(parts, &all);
            OK
        }
        Ok(Err(_)) => DAMAGED,
        Err(AllocError) => NO_MEMORY,
    }
}

/// Gives bytes to what goes on.
fn give_to(saved: &SavedText, work: IndexWork, bytes: &[u8]) -> Given
    ensures led { result.status ≡ OK → IsLedOn saved.now bytes.now work result.work }
    ensures same { (result.status ≡ CHANGED) ⊎ (result.status ≡ NOT_BEGUN) → result.work ≡ work }
    ensures changed { result.status ≡ CHANGED → AreOthers saved.now work bytes.now }
    ensures damaged { result.status ≡ DAMAGED → IsOfNone saved.now work bytes.now }
    ensures lost { (result.status ≡ DAMAGED) ⊎ (result.status ≡ NO_MEMORY) → result.work ≡ Nothing }
    ensures status { (work ≡ Nothing → ⊥) → (result.status ≡ OK) ⊎ ((result.status ≡ CHANGED) ⊎ ((result.status ≡ DAMAGED) ⊎ (result.status ≡ NO_MEMORY))) }
    ensures none { work ≡ Nothing → result.status ≡ NOT_BEGUN }
{
    match work {
        IndexWork::Nothing => lost(NOT_BEGUN),
        IndexWork::Seeking { pointers, walk } => give_to_walk(saved, pointers, walk, bytes),
        IndexWork::Splitting(split) => give_to_split(saved, split, bytes),
    }
}

/// A look-up of these pointers by what is saved of a text, which was given no byte.
fn begun(
    alloc: Global,
    saved: &SavedText,
    pointers: &'static [JxPointer<'static>],
) -> Result<PausedWalk<'static>, AllocError>
    ensures { IfOk result (λ walk. (settings : Settings) (chunk : ℕ) (text : List ℕ) → IsKeptOf settings chunk text saved.now → IsSeeking settings chunk text pointers.now saved.now pointers.now walk) }
{
    let spelt = pointers_of(alloc, pointers)?;
    let walk = Walk::new(alloc, &saved.index, spelt)?;
    Ok(walk.pause())
}

/// Whether a container may stand there in a text of this size, and may be split so.
fn may_be_split(whole: JxSpan, parts: usize, size: usize) -> bool
    ensures yes { result ≡ true → IsWithin whole parts size }
    ensures no { result ≡ false → IsWithin whole parts size → ⊥ }
{
    whole.start < whole.end && whole.end <= size && parts > 0 && parts <= MOST_PARTS
}

impl OpenedIndex {
    /// An index of a text of this size, by its bytes, and the tables of names after it, if there are any.
    pub fn read(alloc: Global, bytes: &[u8], size: usize) -> Result<OpenedIndex, u32>
        ensures opened { IfOk result (IsOpened bytes.now size) }
        ensures refused { IfErr result (IsRefused bytes.now size) }
        ensures reads { IfErr result (λ status. (t : SavedText) → IsSavableToo t → bytes.now ≡ spelt_saved t → t.index.size ≡ size → status ≡ NO_MEMORY) }
        ensures not { IfErr result (λ status. status ≡ OK → ⊥) }
    {
        match SavedText::decode(alloc, bytes) {
            Ok(saved) => {
                if saved.index.size != size {
                    return Err(OTHER_SIZE);
                }
                Ok(OpenedIndex {
                    saved,
                    work: IndexWork::Nothing,
                })
            }
            Err(fault) => Err(status_of(fault)),
        }
    }

    /// The sizes and settings of the text.
    pub fn text(&self) -> JxSavedText
        ensures { result ≡ shown_text self.now.saved.index }
    {
        JxSavedText {
            size: self.saved.index.size,
            chunk: self.saved.index.chunk.bytes(),
            depth: self.saved.index.settings.depth.containers(),
            flags: flags_of(&self.saved.index.settings),
        }
    }

    /// Begins a look-up of these pointers, which was given no byte.
    pub fn seek(&mut self, alloc: Global, pointers: &'static [JxPointer<'static>]) -> u32
        ensures sought { result ≡ OK → IsSought pointers.now self.old self.new }
        ensures status { (result ≡ OK) ⊎ (result ≡ NO_MEMORY) }
        ensures same { (result ≡ OK → ⊥) → self.new ≡ self.old }
    {
        match begun(alloc, &self.saved, pointers) {
            Ok(walk) => {
                self.work = IndexWork::Seeking { pointers, walk };
                OK
            }
            Err(AllocError) => NO_MEMORY,
        }
    }

    /// Begins a split of the container that stands there into so many parts, which was given no byte.
    pub fn split(&mut self, alloc: Global, whole: JxSpan, parts: usize) -> u32
        ensures split { result ≡ OK → IsSplit (aim_in whole parts) self.old self.new }
        ensures inside { IsWithin whole parts self.old.saved.index.size → result ≡ OK }
        ensures outside { (IsWithin whole parts self.old.saved.index.size → ⊥) → result ≡ OUT_OF_BOUNDS }
        ensures same { (result ≡ OK → ⊥) → self.new ≡ self.old }
    {
        if !may_be_split(whole, parts, self.saved.index.size) {
            return OUT_OF_BOUNDS;
        }
        let whole = Span {
            start: whole.start,
            end: whole.end,
        };
        let split = Split::new(alloc, &self.saved.index, Aim { whole, parts }).pause();
        self.work = IndexWork::Splitting(split);
        OK
    }

    /// The span of the bytes that it needs next.
    pub fn needs(&self) -> Option<Span>
        ensures needed { result ≡ needed self.now }
        ensures some { IfSome result (λ span. span.start < span.end) }
        ensures within { IfSome result (λ span. span.end ≤ self.now.saved.index.size) }
    {
        match &self.work {
            IndexWork::Nothing => None,
            IndexWork::Seeking { walk, .. } => walk.needs(&self.saved.index),
            IndexWork::Splitting(split) => split.needs(&self.saved.index),
        }
    }

    /// Gives it the bytes that it needs.
    pub fn give(&mut self, bytes: &[u8]) -> u32
        ensures given { result ≡ OK → IsGiven self.old bytes.now self.new }
        ensures same { (result ≡ CHANGED) ⊎ (result ≡ NOT_BEGUN) → self.new ≡ self.old }
        ensures changed { result ≡ CHANGED → AreOthers self.old.saved self.old.work bytes.now }
        ensures damaged { result ≡ DAMAGED → IsOfNone self.old.saved self.old.work bytes.now }
        ensures lost { (result ≡ DAMAGED) ⊎ (result ≡ NO_MEMORY) → self.new ≡ idle self.old }
        ensures status { (self.old.work ≡ Nothing → ⊥) → (result ≡ OK) ⊎ ((result ≡ CHANGED) ⊎ ((result ≡ DAMAGED) ⊎ (result ≡ NO_MEMORY))) }
        ensures none { self.old.work ≡ Nothing → result ≡ NOT_BEGUN }
    {
        let work = replace(&mut self.work, IndexWork::Nothing);
        let given = give_to(&self.saved, work, bytes);
        self.work = given.work;
        given.status
    }

    /// Ends the look-up that goes on, unless it needs more.
    pub fn answers(&mut self, answers: &mut [JxAnswer]) -> u32
        ensures answers { result ≡ OK → AreAnswersIn self.old answers.old answers.new }
        ensures damaged { result ≡ DAMAGED → IsOfNoText self.old }
        ensures status { IsALookUp self.old → needed self.old ≡ None → (result ≡ OK) ⊎ ((result ≡ DAMAGED) ⊎ (result ≡ NO_MEMORY)) }
        ensures more { (span : Span) → IsALookUp self.old → needed self.old ≡ Some span → result ≡ MORE_NEEDED }
        ensures other { (IsALookUp self.old → ⊥) → result ≡ NOT_BEGUN }
        ensures same { (result ≡ MORE_NEEDED) ⊎ (result ≡ NOT_BEGUN) → self.new ≡ self.old }
        ensures ended { (result ≡ MORE_NEEDED → ⊥) → (result ≡ NOT_BEGUN → ⊥) → self.new ≡ idle self.old }
        ensures unchanged { (result ≡ OK → ⊥) → answers.new ≡ answers.old }
    {
        match replace(&mut self.work, IndexWork::Nothing) {
            IndexWork::Seeking { pointers, walk } => {
                if walk.needs(&self.saved.index).is_some() {
                    self.work = IndexWork::Seeking { pointers, walk };
                    return MORE_NEEDED;
                }
                answers_of(&self.saved, pointers, walk, answers)
            }
            other => {
                self.work = other;
                NOT_BEGUN
            }
        }
    }

    /// Ends the split that goes on, unless it needs more.
    pub fn parts(&mut self, parts: &mut [JxPart], count: &mut usize) -> u32
        ensures parts { result ≡ OK → ArePartsIn self.old parts.old parts.new count.new }
        ensures damaged { result ≡ DAMAGED → HasNoSuchContainer self.old }
        ensures status { IsASplit self.old → needed self.old ≡ None → (result ≡ OK) ⊎ ((result ≡ DAMAGED) ⊎ (result ≡ NO_MEMORY)) }
        ensures more { (span : Span) → IsASplit self.old → needed self.old ≡ Some span → result ≡ MORE_NEEDED }
        ensures other { (IsASplit self.old → ⊥) → result ≡ NOT_BEGUN }
        ensures same { (result ≡ MORE_NEEDED) ⊎ (result ≡ NOT_BEGUN) → self.new ≡ self.old }
        ensures ended { (result ≡ MORE_NEEDED → ⊥) → (result ≡ NOT_BEGUN → ⊥) → self.new ≡ idle self.old }
        ensures unchanged_parts { (result ≡ OK → ⊥) → parts.new ≡ parts.old }
        ensures unchanged_count { (result ≡ OK → ⊥) → count.new ≡ count.old }
    {
        match replace(&mut self.work, IndexWork::Nothing) {
            IndexWork::Splitting(split) => {
                if split.needs(&self.saved.index).is_some() {
                    self.work = IndexWork::Splitting(split);
                    return MORE_NEEDED;
                }
                parts_of(&self.saved.index, split, parts, count)
            }
            other => {
                self.work = other;
                NOT_BEGUN
            }
        }
    }

    /// The span of the chunk with the byte at an offset, if the text has one there.
    pub fn chunk_with(&self, at: usize) -> Option<Span>
        ensures { result ≡ chunk_with self.now.saved.index at }
    {
        chunk_at(&self.saved.index, at / self.saved.index.chunk.bytes())
    }

    /// Checks whether bytes are those of the chunk with the byte at an offset, by their checksum.
    pub fn check(&self, at: usize, bytes: &[u8]) -> u32
        ensures kept { (span : Span) → chunk_with self.now.saved.index at ≡ Some span → result ≡ OK → IsChunk self.now.saved.index span bytes.now }
        ensures changed { (span : Span) → chunk_with self.now.saved.index at ≡ Some span → result ≡ CHANGED → IsNoChunk self.now.saved.index span bytes.now }
        ensures status { (span : Span) → chunk_with self.now.saved.index at ≡ Some span → (result ≡ OK) ⊎ (result ≡ CHANGED) }
        ensures behind { chunk_with self.now.saved.index at ≡ None → result ≡ OUT_OF_BOUNDS }
    {
        let Some(span) = self.chunk_with(at) else {
            return OUT_OF_BOUNDS;
        };
        if is_kept(
            &self.saved.index,
            at / self.saved.index.chunk.bytes(),
            span,
            bytes,
        ) {
            OK
        } else {
            CHANGED
        }
    }
}
