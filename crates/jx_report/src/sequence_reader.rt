// A text sequence that is read batch by batch.
ghost use Rattle.std.specs.Prelude.{◌≡◌, ◌+◌, ◌<◌, ◌≤◌, ◌^◌, ◌++◌, ℕ, List, [], length, OnOk, IfOk};
ghost use Rattle.std.specs.List.{AllZip};
ghost use Rattle.jx_index.specs.ByNames.{AreJudgedBy, IsJudgedBy};
ghost use Rattle.jx_run.specs.declared.texts.settings.FrontMark.TheVariants.{Ignored};
ghost use Rattle.jx_run.specs.declared.texts.settings.Settings.{Settings};
ghost use Rattle.jx_run.specs.Elements.{elements as elements_of};
ghost use Rattle.jx_run.specs.Front.{front_of};
ghost use Rattle.jx_run.specs.SequenceRead.{EndsWithSeparator, HasNoSeparator, StartsWithSeparator};
ghost use Rattle.jx_answer.specs.Named.{IsNamed};
ghost use Rattle.jx_report.specs.inside.Sequences.{AreEndedBy, AreReadBy, BeginsWith, IsHeld, IsSequenceRead};

use jx_answer::{Balance, is_short, judge_batch, named_element, named_elements, read_batch};
use jx_crew::{Crew, Gate, Workers};
use jx_lex::Span;
use jx_run::{
    Front, FrontMark, JudgedElement, NameRule, Reader, Settings, beginning_of_a_text_by_its_front,
    elements_of_two_parts, ended_there, ends_open_behind, front, is_mark_alone, separated_part,
};
use jx_task::Command;
use std::alloc::{AllocError, Global};
use std::sync::Wait;
use std::thread::Threads;

/// How many bytes a byte order mark has.
const MARK: usize = 3;

/// A reader of a text sequence from its start. It keeps the span and the verdict of each element that has ended, and the
/// bytes of the last one where names have to be unique.
#[derive(Drop)]
pub(crate) struct SequenceReader {
    settings: Settings,
    /// The first bytes of the sequence. They show whether a byte order mark stands there.
    first: Vec<u8>,
    /// The elements that ended, in order.
    judged: Vec<JudgedElement>,
    /// Has read what there is of the last element, which may go on.
    reader: Reader,
    /// Those bytes, where names have to be unique. They are read once more when the element ends.
    last: Vec<u8>,
    balance: Balance,
    /// Whether the last byte of that element may be followed by more of its value.
    open_ended: bool,
}

/// Who judges so many bytes: one worker alone, where they are few or one chunk.
fn crew_for<'c, R, G: Gate>(crew: &Crew<'c, R, G>, len: usize, piece: usize) -> Crew<'c, R, G> {
    let workers = match Workers::new(1) {
        Some(one) if len <= piece || is_short(len, crew.gate) => one,
        _ => crew.workers,
    };
    Crew {
        rt: crew.rt,
        alloc: crew.alloc,
        workers,
        gate: crew.gate,
    }
}

/// The verdicts on elements without that on a byte order mark alone, before the first record separator.
fn without_mark(seen: Front, mut judged: Vec<JudgedElement>) -> Vec<JudgedElement>
    ensures { (settings : Settings) (input : List ℕ) → settings.mark ≡ Ignored → seen ≡ front_of Ignored input → AllZip (IsJudgedBy settings input) (elements_of 0 input) judged.items
        → AreJudgedBy settings input result.items }
{
    if judged.is_empty() {
        return judged;
    }
    if !is_mark_alone(seen, judged[0].span) {
        return judged;
    }
    judged.remove(0);
    judged
}

impl SequenceReader {
    /// A reader before the first byte.
    pub fn new(alloc: Global, command: &Command) -> SequenceReader
        ensures { IsSequenceRead command.now.settings [] result }
    {
        elements_of_two_parts();
        SequenceReader {
            settings: command.settings,
            first: Vec::new(alloc),
            judged: Vec::new(alloc),
            reader: Reader::new(alloc, &command.settings.depth.into(), 0),
            last: Vec::new(alloc),
            balance: Balance::new(command.workers),
            open_ended: false,
        }
    }

    /// The number of bytes that were read.
    pub fn end(&self) -> usize
        ensures end { result ≡ self.now.reader.start + self.now.reader.count }
        ensures length { (settings : Settings) (text : List ℕ) → IsSequenceRead settings text self.now → result ≡ length text }
    {
        elements_of_two_parts();
        self.reader.end()
    }

    /// Keeps the first bytes of the sequence, as far as they stand in this batch.
    fn keep_first(&mut self, batch: &[u8]) -> Result<(), AllocError>
        ensures first { OnOk result ((text : List ℕ) → BeginsWith self.old.first text → BeginsWith self.new.first (text ++ batch.now)) }
        ensures rest { self.new ≡ record self.old { first = self.new.first } }
    {
        let more = batch.len().min(MARK.saturating_sub(self.first.len()));
        self.first.extend_from_slice(&batch[..more])
    }

    /// Keeps bytes of the last element, where names have to be unique.
    fn keep_last(&mut self, bytes: &[u8]) -> Result<(), AllocError>
        ensures held { OnOk result ((text : List ℕ) → IsHeld text self.old → IsHeld (text ++ bytes.now) self.new) }
        ensures rest { self.new ≡ record self.old { last = self.new.last } }
    {
        match self.settings.names {
            NameRule::Any => Ok(()),
            NameRule::Unique => {
                self.last.extend_from_slice(bytes)?;
                Ok(())
            }
        }
    }

    /// Reads bytes after what was read. There is no record separator among them.
    fn go_on<R: Threads + Wait + Sync, G: Gate + Sync>(
        &mut self,
        crew: &Crew<'_, R, G>,
        bytes: &[u8],
        piece: usize,
    ) -> Result<(), AllocError>
        requires piece { 1 ≤ piece }
        requires fits { self.old.reader.start + self.old.reader.count + length bytes.now < 2 ^ 64 }
        requires unseparated { HasNoSeparator bytes.now }
        ensures reads { OnOk result ((settings : Settings) (text : List ℕ) → AreReadBy settings text self.old → AreReadBy settings (text ++ bytes.now) self.new) }
        ensures end { OnOk result (self.new.reader.start + self.new.reader.count ≡ self.old.reader.start + self.old.reader.count + length bytes.now) }
        ensures first { self.new.first ≡ self.old.first }
    {
        elements_of_two_parts();
        self.keep_last(bytes)?;
        read_batch(crew, &mut self.reader, &mut self.balance, bytes, piece)?;
        self.open_ended = ends_open_behind(self.open_ended, bytes);
        Ok(())
    }

    /// The verdict on the last element by the rule on names.
    fn named_last(&self, element: JudgedElement) -> Result<JudgedElement, AllocError>
        ensures named { IfOk result (λ named. (text rest : List ℕ) → IsHeld text self.now → element.span.start ≡ self.now.reader.start → element.span.end ≡ length text
            → IsNamed self.now.settings (text ++ rest) element named) }
    {
        match self.settings.names {
            NameRule::Any => Ok(element),
            NameRule::Unique => {
                let alloc = *self.last.allocator();
                named_element(alloc, &self.last, &self.settings, element)
            }
        }
    }

    /// Ends the last element here, and puts it after the others.
    fn end_element(&mut self) -> Result<(), AllocError>
        ensures judged { OnOk result ((settings : Settings) (text : List ℕ) → AreReadBy settings text self.old → AreEndedBy settings text self.new) }
        ensures rest { self.new ≡ record self.old { judged = self.new.judged } }
    {
        elements_of_two_parts();
        let span = Span {
            start: self.reader.start(),
            end: self.reader.end(),
        };
        match ended_there(span, self.reader.verdict(), self.open_ended) {
            None => Ok(()),
            Some(element) => {
                let named = self.named_last(element)?;
                self.judged.push(named)?;
                Ok(())
            }
        }
    }

    /// Judges bytes after what was read as a sequence of its own, at their offsets in the whole one. They begin and end
    /// with a record separator.
    fn pass<R: Threads + Wait + Sync, G: Gate + Sync>(
        &mut self,
        crew: &Crew<'_, R, G>,
        bytes: &[u8],
        piece: usize,
    ) -> Result<(), AllocError>
        requires piece { 1 ≤ piece }
        requires fits { self.old.reader.start + self.old.reader.count + length bytes.now < 2 ^ 64 }
        requires starts { StartsWithSeparator bytes.now }
        requires ends { EndsWithSeparator bytes.now }
        ensures reads { OnOk result ((settings : Settings) (text : List ℕ) → AreReadBy settings text self.old → AreReadBy settings (text ++ bytes.now) self.new) }
        ensures end { OnOk result (self.new.reader.start + self.new.reader.count ≡ self.old.reader.start + self.old.reader.count + length bytes.now) }
        ensures first { self.new.first ≡ self.old.first }
    {
        elements_of_two_parts();
        self.end_element()?;
        let before = self.reader.end();
        let depth = self.settings.depth;
        let crew = crew_for(crew, bytes.len(), piece);
        let told = judge_batch(&crew, bytes, before, depth, piece)?;
        let mut more = named_elements(crew.alloc, bytes, before, &self.settings, told)?;
        self.judged.append(&mut more)?;
        self.reader.reset(before + bytes.len());
        self.last.clear();
        self.open_ended = false;
        Ok(())
    }

    /// Reads a batch after what was read. What stands from its first record separator to its last one is judged as a
    /// sequence of its own.
    pub fn read<R: Threads + Wait + Sync, G: Gate + Sync>(
        &mut self,
        crew: &Crew<'_, R, G>,
        batch: &[u8],
        piece: usize,
    ) -> Result<(), AllocError>
        requires piece { 1 ≤ piece }
        requires fits { self.old.reader.start + self.old.reader.count + length batch.now < 2 ^ 64 }
        ensures reads { OnOk result ((settings : Settings) (text : List ℕ) → IsSequenceRead settings text self.old → IsSequenceRead settings (text ++ batch.now) self.new) }
    {
        self.keep_first(batch)?;
        let Some(part) = separated_part(batch) else {
            return self.go_on(crew, batch, piece);
        };
        self.go_on(crew, &batch[0..part.start], piece)?;
        self.pass(crew, &batch[part.start..part.end], piece)?;
        self.go_on(crew, &batch[part.end..batch.len()], piece)
    }

    /// The verdicts by settings on the elements of all that was read, in order.
    pub fn into_elements(mut self) -> Result<Vec<JudgedElement>, AllocError>
        ensures { IfOk result (λ elements. (settings : Settings) (text : List ℕ) → IsSequenceRead settings text self → AreJudgedBy settings text elements.items) }
    {
        beginning_of_a_text_by_its_front();
        self.end_element()?;
        match self.settings.mark {
            FrontMark::Refused => Ok(self.judged),
            FrontMark::Ignored => {
                let seen = front(&self.first, FrontMark::Ignored);
                Ok(without_mark(seen, self.judged))
            }
        }
    }
}
