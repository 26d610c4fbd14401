ghost use Rattle.std.specs.Prelude.{◌≡◌, ◌≤◌, ℕ, List, length, IfOk};
ghost use Rattle.jx_run.specs.TextRun.{IsTextRun};
ghost use Rattle.jx_run.specs.declared.texts.settings.Settings.{Settings};
ghost use Rattle.jx_index.specs.ByNames.{IsVerdictBy};
ghost use Rattle.jx_index.specs.Settled.{IsAnswerBy, IsAnswerFrom, IsReadBy, rest_from};

use crate::indexed::Indexed;
use crate::laws::{index_behind_a_front, repeated_name_by_rows};
use jx_lex::{Depth, Span};
use jx_run::{Front, NameRule, NoPause, Pace, Refusal, Settings, TextRun, Verdict, front};
use std::alloc::{AllocError, Global};

/// The answer to a JSON text that is read: its index, or why it is refused.
#[derive(Debug, Drop)]
pub enum TextAnswer<'a> {
    /// It is a text within the depth; this is its index.
    Accepted(Indexed<'a>),
    /// It is not valid JSON. Offsets are in the whole input.
    Refused(Refusal),
}

impl<'a> TextAnswer<'a> {
    /// Reads a JSON text (RFC 8259) by settings on the calling thread in one pass, and indexes it where it is accepted.
    /// A byte order mark in front may be ignored (section 8.1). Where names have to be unique, a text is refused at the
    /// first duplicate name (section 4). `Err` when out of memory.
    pub fn read(
        alloc: Global,
        text: &'a [u8],
        settings: &Settings,
    ) -> Result<TextAnswer<'a>, AllocError>
        ensures answer { IfOk result (λ answer. IsAnswerBy settings.now text.entry.now answer) }
    {
        let answer = TextAnswer::read_behind_front(alloc, text, settings)?;
        Ok(answer.by_names(settings.names))
    }

    /// Reads a text by settings, whatever names the objects have.
    fn read_behind_front(
        alloc: Global,
        text: &'a [u8],
        settings: &Settings,
    ) -> Result<TextAnswer<'a>, AllocError>
        ensures { IfOk result (IsReadBy settings.now text.entry.now) }
    {
        index_behind_a_front();
        match front(text, settings.mark) {
            Front::Refused(refusal) => Ok(TextAnswer::Refused(refusal)),
            Front::Skip(count) => {
                TextAnswer::read_from(alloc, text, count, settings.depth, &mut NoPause)
            }
        }
    }

    /// Reads the bytes from an offset on as a whole text (RFC 8259, section 2) in one pass, which pauses where the pace
    /// says; that changes nothing of the answer. `Err` when out of memory.
    pub fn read_from<P: Pace>(
        alloc: Global,
        text: &'a [u8],
        start: usize,
        depth: Depth,
        pace: &mut P,
    ) -> Result<TextAnswer<'a>, AllocError>
        requires within { start ≤ length text.now }
        ensures answer { IfOk result (λ answer. IsAnswerFrom start text.entry.now depth answer) }
    {
        index_behind_a_front();
        let end = text.len();
        let read = Indexed::read(alloc, text, Span { start, end }, depth, pace)?;
        match read {
            Ok(index) => Ok(TextAnswer::Accepted(index)),
            Err(refusal) => Ok(TextAnswer::Refused(refusal)),
        }
    }

    /// The answer that a run over the end of a text gives on what the run stands for. `Err` when out of memory.
    pub fn of_run(
        alloc: Global,
        text: &'a [u8],
        run: &TextRun,
    ) -> Result<TextAnswer<'a>, AllocError>
        requires ordered { run.now.map.start ≤ length text.now }
        requires end { run.now.map.end ≡ length text.now }
        requires of { IsTextRun (rest_from run.now.map.start text.now) run.now }
        ensures answer { IfOk result (λ answer. IsAnswerFrom run.now.map.start text.entry.now run.now.depth answer) }
    {
        index_behind_a_front();
        match run.verdict() {
            Verdict::Refused(refusal) => Ok(TextAnswer::Refused(refusal)),
            Verdict::Accepted => {
                let index = Indexed::of_run(alloc, text, run)?;
                Ok(TextAnswer::Accepted(index))
            }
        }
    }

    /// The answer by a rule on names, from that whatever names the objects have: what is accepted is refused for the first
    /// name that the rule refuses.
    pub fn by_names(self, rule: NameRule) -> TextAnswer<'a>
        ensures answer { (settings : Settings) (text : List ℕ) → settings.names ≡ rule → IsReadBy settings text self.entry → IsAnswerBy settings text result }
    {
        repeated_name_by_rows();
        match self {
            TextAnswer::Refused(refusal) => TextAnswer::Refused(refusal),
            TextAnswer::Accepted(index) => match index.refused_name(rule) {
                None => TextAnswer::Accepted(index),
                Some(at) => TextAnswer::Refused(Refusal::RepeatedName { at }),
            },
        }
    }

    /// The verdict alone; the index is freed.
    pub fn into_verdict(self) -> Verdict
        ensures verdict { (settings : Settings) (text : List ℕ) → IsAnswerBy settings text self.entry → IsVerdictBy settings text result }
    {
        match self {
            TextAnswer::Accepted(_) => Verdict::Accepted,
            TextAnswer::Refused(refusal) => Verdict::Refused(refusal),
        }
    }
}
