// A text sequence that is read from its start, and of which workers judge parts.
ghost use Rattle.std.specs.Prelude.{◌≡◌, ◌+◌, ◌<◌, ◌^◌, ◌++◌, ◌∷◌, ℕ, List, [], length, IfOk, OnOk};
ghost use Rattle.jx_run.specs.declared.sequences.element_verdict.JudgedElement.{JudgedElement};
ghost use Rattle.jx_run.specs.SequenceRead.{EndsWithSeparator, HasNoSeparator, StartsWithSeparator};
ghost use Rattle.jx_words.specs.Verdicts.{shown_output};
ghost use Rattle.jx_ndjson_report.specs.Elements.{element_line};
ghost use Rattle.jx_parallel.specs.declared.part_reader.PartRule.{PartRule};
ghost use Rattle.jx_parallel_report.specs.inside.Elements.{AreAllTold, AreTold, HasEnded, HasRead, IsPart, exit_by};

use crate::elements_part::{ToldElements, told_of};
use jx_ends::Exit;
use jx_lex::Span;
use jx_ndjson_report::{add_element, exit_past};
use jx_parallel::{Judged, PartReader, PartRule};
use jx_run::{
    JudgedElement, Reader, Settings, elements_of_part, elements_of_two_parts, ended_there,
    ends_open_behind, separated_part,
};
use std::alloc::{AllocError, Global};

/// A reading of a text sequence from its start, with the lines of the elements that have ended.
#[derive(Drop)]
pub(crate) struct ElementsReader {
    alloc: Global,
    /// Has read what there is of the last element, which may go on.
    reader: Reader,
    /// Whether the last byte of that element may be followed by more of its value.
    open_ended: bool,
    told: ToldElements,
}

/// Appends the line of an element, unless the command is quiet.
fn add_told(words: &mut Vec<u8>, rule: &PartRule, element: JudgedElement) -> Result<(), AllocError>
    ensures { OnOk result (words.new.items ≡ words.old.items ++ shown_output rule.now.is_quiet (element_line [] element)) }
{
    if rule.is_quiet {
        return Ok(());
    }
    add_element(words, b"", element)
}

/// The exit by some elements and those after them.
fn exit_by(before: Exit, behind: Exit) -> Exit
    ensures { result ≡ exit_by before behind }
{
    match before {
        Exit::Good => behind,
        Exit::Bad => Exit::Bad,
    }
}

impl ElementsReader {
    /// A reader before the first byte. Nothing is allocated.
    pub fn new(alloc: Global, rule: &PartRule) -> ElementsReader
        ensures { HasRead rule.now [] result }
    {
        elements_of_two_parts();
        ElementsReader {
            alloc,
            reader: Reader::new(alloc, &Settings::from(rule.depth), 0),
            open_ended: false,
            told: ToldElements {
                words: Vec::new(alloc),
                exit: Exit::Good,
            },
        }
    }

    /// Reads the bytes that come next. There is no record separator among them.
    fn go_on(&mut self, bytes: &[u8]) -> Result<(), AllocError>
        requires fits { self.old.reader.start + self.old.reader.count + length bytes.now < 2 ^ 64 }
        requires unseparated { HasNoSeparator bytes.now }
        ensures read { OnOk result ((rule : PartRule) (xs : List ℕ) → HasRead rule xs self.old → HasRead rule (xs ++ bytes.now) self.new) }
        ensures end { OnOk result (self.new.reader.start + self.new.reader.count ≡ self.old.reader.start + self.old.reader.count + length bytes.now) }
    {
        elements_of_two_parts();
        self.reader.feed(bytes)?;
        self.open_ended = ends_open_behind(self.open_ended, bytes);
        Ok(())
    }

    /// Appends the line of an element, and goes on with the exit.
    fn tell(&mut self, rule: &PartRule, element: JudgedElement) -> Result<(), AllocError>
        ensures told { OnOk result ((judged : List JudgedElement) → AreTold rule.now judged self.old → AreTold rule.now (judged ++ element ∷ []) self.new) }
        ensures reader { self.new.reader ≡ self.old.reader }
    {
        add_told(&mut self.told.words, rule, element)?;
        let exit = exit_past(self.told.exit, element.verdict);
        self.told.exit = exit;
        Ok(())
    }

    /// Ends the last element here, and appends its line.
    fn end_element(&mut self, rule: &PartRule) -> Result<(), AllocError>
        ensures ended { OnOk result ((xs : List ℕ) → HasRead rule.now xs self.old → HasEnded rule.now xs self.new) }
        ensures reader { self.new.reader ≡ self.old.reader }
    {
        elements_of_two_parts();
        let span = Span {
            start: self.reader.start(),
            end: self.reader.end(),
        };
        match ended_there(span, self.reader.verdict(), self.open_ended) {
            None => Ok(()),
            Some(element) => {
                self.tell(rule, element)?;
                Ok(())
            }
        }
    }

    /// Takes so many bytes that were judged, as if it had read them. They begin and end with a record separator.
    fn take_in(
        &mut self,
        rule: &PartRule,
        mut part: ToldElements,
        len: usize,
    ) -> Result<(), AllocError>
        requires fits { self.old.reader.start + self.old.reader.count + len < 2 ^ 64 }
        ensures taken { OnOk result ((xs ys : List ℕ) → HasRead rule.now xs self.old → length ys ≡ len → IsPart rule.now (length xs) ys part → HasRead rule.now (xs ++ ys) self.new) }
        ensures end { OnOk result (self.new.reader.start + self.new.reader.count ≡ self.old.reader.start + self.old.reader.count + len) }
    {
        elements_of_two_parts();
        self.end_element(rule)?;
        self.told.words.append(&mut part.words)?;
        let exit = exit_by(self.told.exit, part.exit);
        self.told.exit = exit;
        let before = self.reader.end();
        self.reader.reset(before + len);
        self.open_ended = false;
        Ok(())
    }

    /// The lines of all elements, if the sequence ends here.
    pub fn into_told(mut self, rule: &PartRule) -> Result<ToldElements, AllocError>
        ensures { IfOk result (λ told. (xs : List ℕ) → HasRead rule.now xs self → AreAllTold rule.now xs told) }
    {
        self.end_element(rule)?;
        Ok(self.told)
    }
}

/// Judges the elements of bytes from an offset on, which begin and end with a record separator.
fn part_of(
    alloc: Global,
    rule: &PartRule,
    bytes: &[u8],
    at: usize,
) -> Result<ToldElements, AllocError>
    requires fits { at + length bytes.now < 2 ^ 64 }
    requires starts { StartsWithSeparator bytes.now }
    requires ends { EndsWithSeparator bytes.now }
    ensures { IfOk result (IsPart rule.now at bytes.now) }
{
    let elements = elements_of_part(alloc, bytes, at, rule.depth)?;
    let told = told_of(alloc, rule, &elements)?;
    Ok(told)
}

impl PartReader for ElementsReader {
    ghost use Rattle.std.specs.Prelude.{◌+◌, ℕ, List};
    ghost use Rattle.jx_parallel_report.specs.inside.Elements.{HasRead, IsPart};

    type Rule = PartRule;

    type Part = ToldElements;

    ghost Given = { List ℕ };

    ghost is_part = { IsPart };

    ghost has_read = { λ rule xs given r. HasRead rule xs r };

    ghost end = { λ r. r.reader.start + r.reader.count };

    fn judge(
        alloc: Global,
        rule: &PartRule,
        bytes: &[u8],
        at: usize,
    ) -> Result<Option<Judged<ToldElements>>, AllocError> {
        match separated_part(bytes) {
            None => Ok(None),
            Some(span) => {
                let bytes = &bytes[span.start..span.end];
                let part = part_of(alloc, rule, bytes, at + span.start)?;
                Ok(Some(Judged {
                    part,
                    from: span.start,
                    to: span.end,
                }))
            }
        }
    }

    fn end(&self) -> usize {
        elements_of_two_parts();
        self.reader.end()
    }

    fn feed(&mut self, rule: &PartRule, bytes: &[u8]) -> Result<(), AllocError> {
        elements_of_two_parts();
        let Some(span) = separated_part(bytes) else {
            self.go_on(bytes)?;
            return Ok(());
        };
        self.go_on(&bytes[0..span.start])?;
        let at = self.reader.end();
        let part = part_of(self.alloc, rule, &bytes[span.start..span.end], at)?;
        self.take_in(rule, part, span.end - span.start)?;
        self.go_on(&bytes[span.end..bytes.len()])
    }

    fn take(
        &mut self,
        rule: &PartRule,
        part: ToldElements,
        len: usize,
    ) -> Result<bool, AllocError> {
        self.take_in(rule, part, len)?;
        Ok(true)
    }
}
