// Texts of a stream that comes slice by slice.
ghost use Rattle.std.specs.Prelude.{◌≡◌, ◌+◌, ◌<◌, ◌≤◌, ◌^◌, ◌++◌, ◌∷◌, Bool, ℕ, List, [], IfOk, None, OnOk, false, filter, length, take, true};
ghost use Rattle.std.specs.Option.{is_some};
ghost use Rattle.jx_lex.specs.Uneventful.{is_blank};
ghost use Rattle.jx_run.specs.Reader.{HasRead, is_fault};
ghost use Rattle.jx_texts.specs.declared.judged_text.JudgedText.{JudgedText};
ghost use Rattle.jx_texts.specs.Texts.{AreTexts, has_fault, is_border, judged, read_to};
ghost use Rattle.jx_texts.specs.Reading.{HasTold, listed, plain, text_now, verdict_now};
ghost use Rattle.jx_texts.specs.inside.Steps.{FeedsOn, HasFed, IsBegun, stage_of};

use crate::borders::{blanks_in_front, border_at, closing, is_blank, opens};
use crate::judged_text::JudgedText;
use jx_lex::{Depth, Span};
use jx_run::{Reader, Refusal, Verdict, reader_and_grammar, unique_verdict_by_settings};
use memchr::memchr;
use std::alloc::{AllocError, Global};
use std::marker::Model;

/// Where a reader of texts stands.
#[derive(Clone, Copy, Debug)]
enum Stage {
    /// Between two texts.
    Between,
    /// In an array, an object or a string, which ends by this byte.
    Closed(u8),
    /// In a number or a literal, or in bytes that begin neither.
    Bare,
    /// In bytes that are not valid JSON, whatever follows.
    Lost,
}

/// Whether a verdict is good.
fn is_accepted(verdict: Verdict) -> bool
    ensures yes { result ≡ true → verdict ≡ Verdict.Accepted }
    ensures no { result ≡ false → verdict ≡ Verdict.Accepted → ⊥ }
{
    match verdict {
        Verdict::Accepted => true,
        Verdict::Refused(_) => false,
    }
}

/// The step of a reader of texts over a slice.
#[derive(Clone, Copy, Debug)]
pub struct TextStep {
    /// How many bytes of the slice it took.
    pub taken: usize,
    /// The text that they show to have ended.
    pub ended: Option<JudgedText>,
    /// The text behind that one, in which they have a fault.
    pub refused: Option<JudgedText>,
}

/// The stage in a text that begins with a byte.
fn stage_of(byte: u8) -> Stage
    ensures { result ≡ stage_of byte }
{
    if opens(byte) {
        Stage::Closed(closing(byte))
    } else {
        Stage::Bare
    }
}

/// Up to where a text was read that is the last one, if the input ends here.
fn read_to(verdict: Verdict, end: usize) -> usize
    ensures { result ≡ read_to verdict end }
{
    match verdict {
        Verdict::Accepted => end,
        Verdict::Refused(Refusal::Truncated) => end,
        Verdict::Refused(Refusal::Stopped { at }) => at,
        Verdict::Refused(Refusal::TooDeep { at }) => at,
        Verdict::Refused(Refusal::RepeatedName { at }) => at,
    }
}

/// A reader of texts, one after another. It answers each as soon as it has ended, and keeps no byte of it.
#[derive(Drop)]
pub struct TextReader {
    /// Has read what there is of the text that goes on.
    reader: Reader,
    stage: Stage,
}

impl Model for TextReader {
    ghost use Rattle.jx_texts.specs.Reading.{TextReaderValue};

    ghost Value = { TextReaderValue };

    ghost view = { λ r. record { reader = r.reader; stage = r.stage } };
}

impl TextReader {
    /// A reader before the first byte, which has this offset. Nothing is allocated.
    pub fn new(alloc: Global, depth: Depth, at: usize) -> TextReader
        ensures told { HasTold depth at [] [] result }
        ensures start { result.reader.start + result.reader.count ≡ at }
    {
        TextReader {
            reader: Reader::new(alloc, &depth.into(), at),
            stage: Stage::Between,
        }
    }

    /// The offset just past the last byte that it has read.
    pub fn end(&self) -> usize
        ensures { result ≡ self.now.reader.start + self.now.reader.count }
    {
        self.reader.end()
    }

    /// The verdict on the text that goes on.
    fn verdict(&self) -> Verdict
        ensures { (limit : ℕ) (bytes : List ℕ) → self.now.reader.settings ≡ plain limit → HasRead bytes self.now.reader → result ≡ verdict_now limit self.now.reader.start bytes }
    {
        reader_and_grammar();
        unique_verdict_by_settings();
        self.reader.verdict()
    }

    /// The text that goes on, if the input ends here.
    fn text_now(&self) -> JudgedText
        ensures { (limit : ℕ) (bytes : List ℕ) → self.now.reader.settings ≡ plain limit → HasRead bytes self.now.reader → result ≡ text_now limit self.now.reader.start bytes }
    {
        let verdict = self.verdict();
        JudgedText {
            span: Span {
                start: self.reader.start(),
                end: read_to(verdict, self.reader.end()),
            },
            verdict,
        }
    }

    /// The text that goes on, if a fault was met in it.
    fn refused(&self) -> Option<JudgedText>
        ensures fault { is_some result ≡ is_fault self.now.reader.outcome }
        ensures listed { (limit : ℕ) (bytes : List ℕ) → self.now.reader.settings ≡ plain limit → HasRead bytes self.now.reader
            → listed result ≡ filter has_fault (text_now limit self.now.reader.start bytes ∷ []) }
    {
        if self.reader.is_done() {
            Some(self.text_now())
        } else {
            None
        }
    }

    /// Ends the text that goes on, which is accepted.
    fn end_text(&mut self) -> JudgedText
        ensures text { result ≡ judged self.old.reader.start (self.old.reader.start + self.old.reader.count) Verdict.Accepted }
        ensures stage { self.new.stage ≡ Stage.Between }
        ensures settings { self.new.reader.settings ≡ self.old.reader.settings }
        ensures start { self.new.reader.start ≡ self.old.reader.start + self.old.reader.count }
        ensures reads { HasRead [] self.new.reader }
    {
        let span = Span {
            start: self.reader.start(),
            end: self.reader.end(),
        };
        self.reader.reset(span.end);
        self.stage = Stage::Between;
        JudgedText {
            span,
            verdict: Verdict::Accepted,
        }
    }

    /// Refuses the bytes that were read, which have a fault.
    fn lose(&mut self, taken: usize) -> TextStep
        requires fault { is_fault self.old.reader.outcome ≡ true }
        ensures taken { result.taken ≡ taken }
        ensures none { result.ended ≡ None }
        ensures told { (limit at : ℕ) (bytes : List ℕ) (told : List JudgedText) (may_end : Bool) → HasFed limit at bytes told may_end self.old
            → HasTold limit at bytes (told ++ (listed result.ended ++ listed result.refused)) self.new }
        ensures reader { self.new.reader ≡ self.old.reader }
    {
        reader_and_grammar();
        self.stage = Stage::Lost;
        TextStep {
            taken,
            ended: None,
            refused: self.refused(),
        }
    }

    /// Ends what was read where it is a text.
    fn end_closed(&mut self, taken: usize) -> TextStep
        requires going { is_fault self.old.reader.outcome ≡ false }
        ensures taken { result.taken ≡ taken }
        ensures told { (limit at : ℕ) (bytes : List ℕ) (told : List JudgedText) → HasFed limit at bytes told true self.old
            → HasTold limit at bytes (told ++ (listed result.ended ++ listed result.refused)) self.new }
        ensures count { self.new.reader.start + self.new.reader.count ≡ self.old.reader.start + self.old.reader.count }
    {
        reader_and_grammar();
        if is_accepted(self.verdict()) {
            return TextStep {
                taken,
                ended: Some(self.end_text()),
                refused: None,
            };
        }
        TextStep {
            taken,
            ended: None,
            refused: None,
        }
    }

    /// Judges what was read, which may be a whole text or not.
    fn judge(&mut self, taken: usize, may_end: bool) -> TextStep
        ensures taken { result.taken ≡ taken }
        ensures none { may_end ≡ false → result.ended ≡ None }
        ensures told { (limit at : ℕ) (bytes : List ℕ) (told : List JudgedText) → HasFed limit at bytes told may_end self.old
            → HasTold limit at bytes (told ++ (listed result.ended ++ listed result.refused)) self.new }
        ensures count { self.new.reader.start + self.new.reader.count ≡ self.old.reader.start + self.old.reader.count }
    {
        reader_and_grammar();
        if self.reader.is_done() {
            return self.lose(taken);
        }
        if may_end {
            return self.end_closed(taken);
        }
        TextStep {
            taken,
            ended: None,
            refused: None,
        }
    }

    /// Begins a text by its first byte.
    fn begin_text(&mut self, byte: u8) -> Result<TextStep, AllocError>
        requires fits { self.old.reader.start + self.old.reader.count + 1 < 2 ^ 64 }
        ensures taken { IfOk result (λ step. step.taken ≡ 1) }
        ensures none { IfOk result (λ step. step.ended ≡ None) }
        ensures told { IfOk result (λ step. (limit at : ℕ) (bytes : List ℕ) (told : List JudgedText) → IsBegun limit at bytes told byte self.old.reader
            → HasTold limit at bytes (told ++ (listed step.ended ++ listed step.refused)) self.new) }
        ensures count { IfOk result (λ step. self.new.reader.start + self.new.reader.count ≡ self.old.reader.start + self.old.reader.count + 1) }
    {
        reader_and_grammar();
        self.reader.feed(&[byte])?;
        self.stage = stage_of(byte);
        Ok(self.judge(1, false))
    }

    /// Passes white space, or begins a text.
    fn begin(&mut self, slice: &[u8]) -> Result<TextStep, AllocError>
        requires some { 0 < length slice.now }
        requires stage { self.old.stage ≡ Stage.Between }
        requires fits { self.old.reader.start + self.old.reader.count + length slice.now < 2 ^ 64 }
        ensures taken { IfOk result (λ step. step.taken ≤ length slice.now) }
        ensures goes_on { IfOk result (λ step. 0 < step.taken) }
        ensures told { IfOk result (λ step. (limit at : ℕ) (bytes : List ℕ) (told : List JudgedText) → HasTold limit at bytes told self.old
            → HasTold limit at (bytes ++ take step.taken slice.now) (told ++ (listed step.ended ++ listed step.refused)) self.new) }
        ensures count { IfOk result (λ step. self.new.reader.start + self.new.reader.count ≡ self.old.reader.start + self.old.reader.count + step.taken) }
    {
        let count = blanks_in_front(slice);
        if count == 0 {
            let step = self.begin_text(slice[0])?;
            return Ok(step);
        }
        let end = self.reader.end();
        self.reader.reset(end + count);
        Ok(TextStep {
            taken: count,
            ended: None,
            refused: None,
        })
    }

    /// Reads bytes of the text that goes on, at whose end it may end or not.
    fn read_some(&mut self, slice: &[u8], to: usize, may_end: bool) -> Result<TextStep, AllocError>
        requires within { to ≤ length slice.now }
        requires fits { self.old.reader.start + self.old.reader.count + to < 2 ^ 64 }
        requires feeds { FeedsOn (take to slice.now) may_end self.old.stage }
        ensures taken { IfOk result (λ step. step.taken ≡ to) }
        ensures told { IfOk result (λ step. (limit at : ℕ) (bytes : List ℕ) (told : List JudgedText) → HasTold limit at bytes told self.old
            → HasTold limit at (bytes ++ take step.taken slice.now) (told ++ (listed step.ended ++ listed step.refused)) self.new) }
        ensures count { IfOk result (λ step. self.new.reader.start + self.new.reader.count ≡ self.old.reader.start + self.old.reader.count + step.taken) }
    {
        reader_and_grammar();
        self.reader.feed_beginning(slice, to)?;
        Ok(self.judge(to, may_end))
    }

    /// Reads on in an array, an object or a string, up to and with the next byte that may end it.
    fn read_closed(&mut self, slice: &[u8], byte: u8) -> Result<TextStep, AllocError>
        requires some { 0 < length slice.now }
        requires stage { self.old.stage ≡ Stage.Closed byte }
        requires fits { self.old.reader.start + self.old.reader.count + length slice.now < 2 ^ 64 }
        ensures taken { IfOk result (λ step. step.taken ≤ length slice.now) }
        ensures goes_on { IfOk result (λ step. 0 < step.taken) }
        ensures told { IfOk result (λ step. (limit at : ℕ) (bytes : List ℕ) (told : List JudgedText) → HasTold limit at bytes told self.old
            → HasTold limit at (bytes ++ take step.taken slice.now) (told ++ (listed step.ended ++ listed step.refused)) self.new) }
        ensures count { IfOk result (λ step. self.new.reader.start + self.new.reader.count ≡ self.old.reader.start + self.old.reader.count + step.taken) }
    {
        match memchr(byte, slice) {
            None => self.read_some(slice, slice.len(), false),
            Some(at) => self.read_some(slice, at + 1, true),
        }
    }

    /// Refuses the bytes before a border, which are neither a number nor a literal.
    fn lose_bare(&mut self, border: u8) -> Result<TextStep, AllocError>
        requires stage { self.old.stage ≡ Stage.Bare }
        requires border { is_border border ≡ true }
        requires fits { self.old.reader.start + self.old.reader.count + 1 < 2 ^ 64 }
        requires refused { (limit : ℕ) (bytes : List ℕ) → self.old.reader.settings ≡ plain limit → HasRead bytes self.old.reader → verdict_now limit self.old.reader.start bytes ≡ Verdict.Accepted → ⊥ }
        ensures taken { IfOk result (λ step. step.taken ≡ 1) }
        ensures told { IfOk result (λ step. (limit at : ℕ) (bytes : List ℕ) (told : List JudgedText) → HasTold limit at bytes told self.old
            → HasTold limit at (bytes ++ border ∷ []) (told ++ (listed step.ended ++ listed step.refused)) self.new) }
        ensures count { IfOk result (λ step. self.new.reader.start + self.new.reader.count ≡ self.old.reader.start + self.old.reader.count + 1) }
    {
        reader_and_grammar();
        self.reader.feed(&[border])?;
        self.stage = Stage::Lost;
        Ok(TextStep {
            taken: 1,
            ended: None,
            refused: self.refused(),
        })
    }

    /// Ends a number or a literal before white space.
    fn end_at_blank(&mut self, border: u8) -> TextStep
        requires stage { self.old.stage ≡ Stage.Bare }
        requires border { is_border border ≡ true }
        requires fits { self.old.reader.start + self.old.reader.count + 1 < 2 ^ 64 }
        requires accepted { (limit : ℕ) (bytes : List ℕ) → self.old.reader.settings ≡ plain limit → HasRead bytes self.old.reader → verdict_now limit self.old.reader.start bytes ≡ Verdict.Accepted }
        requires blank { is_blank border ≡ true }
        ensures taken { result.taken ≡ 1 }
        ensures told { (limit at : ℕ) (bytes : List ℕ) (told : List JudgedText) → HasTold limit at bytes told self.old
            → HasTold limit at (bytes ++ border ∷ []) (told ++ (listed result.ended ++ listed result.refused)) self.new }
        ensures count { self.new.reader.start + self.new.reader.count ≡ self.old.reader.start + self.old.reader.count + 1 }
    {
        reader_and_grammar();
        let text = self.end_text();
        let end = self.reader.end();
        self.reader.reset(end + 1);
        TextStep {
            taken: 1,
            ended: Some(text),
            refused: None,
        }
    }

    /// Ends a number or a literal before the first byte of another text.
    fn end_at_text(&mut self, border: u8) -> Result<TextStep, AllocError>
        requires stage { self.old.stage ≡ Stage.Bare }
        requires border { is_border border ≡ true }
        requires fits { self.old.reader.start + self.old.reader.count + 1 < 2 ^ 64 }
        requires accepted { (limit : ℕ) (bytes : List ℕ) → self.old.reader.settings ≡ plain limit → HasRead bytes self.old.reader → verdict_now limit self.old.reader.start bytes ≡ Verdict.Accepted }
        requires no_blank { is_blank border ≡ false }
        ensures taken { IfOk result (λ step. step.taken ≡ 1) }
        ensures told { IfOk result (λ step. (limit at : ℕ) (bytes : List ℕ) (told : List JudgedText) → HasTold limit at bytes told self.old
            → HasTold limit at (bytes ++ border ∷ []) (told ++ (listed step.ended ++ listed step.refused)) self.new) }
        ensures count { IfOk result (λ step. self.new.reader.start + self.new.reader.count ≡ self.old.reader.start + self.old.reader.count + 1) }
    {
        reader_and_grammar();
        let text = self.end_text();
        let begun = self.begin_text(border)?;
        Ok(TextStep {
            taken: 1,
            ended: Some(text),
            refused: begun.refused,
        })
    }

    /// Ends a number or a literal at a border, or refuses it.
    fn end_bare(&mut self, border: u8) -> Result<TextStep, AllocError>
        requires stage { self.old.stage ≡ Stage.Bare }
        requires border { is_border border ≡ true }
        requires fits { self.old.reader.start + self.old.reader.count + 1 < 2 ^ 64 }
        ensures taken { IfOk result (λ step. step.taken ≡ 1) }
        ensures told { IfOk result (λ step. (limit at : ℕ) (bytes : List ℕ) (told : List JudgedText) → HasTold limit at bytes told self.old
            → HasTold limit at (bytes ++ border ∷ []) (told ++ (listed step.ended ++ listed step.refused)) self.new) }
        ensures count { IfOk result (λ step. self.new.reader.start + self.new.reader.count ≡ self.old.reader.start + self.old.reader.count + 1) }
    {
        if !is_accepted(self.verdict()) {
            return self.lose_bare(border);
        }
        if is_blank(border) {
            return Ok(self.end_at_blank(border));
        }
        self.end_at_text(border)
    }

    /// Reads on in a number or a literal, up to the next border.
    fn read_bare(&mut self, slice: &[u8]) -> Result<TextStep, AllocError>
        requires some { 0 < length slice.now }
        requires stage { self.old.stage ≡ Stage.Bare }
        requires fits { self.old.reader.start + self.old.reader.count + length slice.now < 2 ^ 64 }
        ensures taken { IfOk result (λ step. step.taken ≤ length slice.now) }
        ensures goes_on { IfOk result (λ step. 0 < step.taken) }
        ensures told { IfOk result (λ step. (limit at : ℕ) (bytes : List ℕ) (told : List JudgedText) → HasTold limit at bytes told self.old
            → HasTold limit at (bytes ++ take step.taken slice.now) (told ++ (listed step.ended ++ listed step.refused)) self.new) }
        ensures count { IfOk result (λ step. self.new.reader.start + self.new.reader.count ≡ self.old.reader.start + self.old.reader.count + step.taken) }
    {
        let at = border_at(slice);
        if at == 0 {
            let step = self.end_bare(slice[0])?;
            return Ok(step);
        }
        self.read_some(slice, at, false)
    }

    /// Passes bytes after a fault, which was answered.
    fn read_told(&mut self, slice: &[u8]) -> Result<TextStep, AllocError>
        requires some { 0 < length slice.now }
        requires stage { self.old.stage ≡ Stage.Lost }
        requires fault { is_fault self.old.reader.outcome ≡ true }
        requires fits { self.old.reader.start + self.old.reader.count + length slice.now < 2 ^ 64 }
        ensures taken { IfOk result (λ step. step.taken ≤ length slice.now) }
        ensures goes_on { IfOk result (λ step. 0 < step.taken) }
        ensures told { IfOk result (λ step. (limit at : ℕ) (bytes : List ℕ) (told : List JudgedText) → HasTold limit at bytes told self.old
            → HasTold limit at (bytes ++ take step.taken slice.now) (told ++ (listed step.ended ++ listed step.refused)) self.new) }
        ensures count { IfOk result (λ step. self.new.reader.start + self.new.reader.count ≡ self.old.reader.start + self.old.reader.count + step.taken) }
    {
        self.reader.feed(slice)?;
        Ok(TextStep {
            taken: slice.len(),
            ended: None,
            refused: None,
        })
    }

    /// Reads on in bytes that are not valid JSON, up to their fault.
    fn read_untold(&mut self, slice: &[u8]) -> Result<TextStep, AllocError>
        requires some { 0 < length slice.now }
        requires stage { self.old.stage ≡ Stage.Lost }
        requires going { is_fault self.old.reader.outcome ≡ false }
        requires fits { self.old.reader.start + self.old.reader.count + length slice.now < 2 ^ 64 }
        ensures taken { IfOk result (λ step. step.taken ≤ length slice.now) }
        ensures goes_on { IfOk result (λ step. 0 < step.taken) }
        ensures told { IfOk result (λ step. (limit at : ℕ) (bytes : List ℕ) (told : List JudgedText) → HasTold limit at bytes told self.old
            → HasTold limit at (bytes ++ take step.taken slice.now) (told ++ (listed step.ended ++ listed step.refused)) self.new) }
        ensures count { IfOk result (λ step. self.new.reader.start + self.new.reader.count ≡ self.old.reader.start + self.old.reader.count + step.taken) }
    {
        self.reader.feed(slice)?;
        Ok(TextStep {
            taken: slice.len(),
            ended: None,
            refused: self.refused(),
        })
    }

    /// Reads on in bytes that are not valid JSON.
    fn read_lost(&mut self, slice: &[u8]) -> Result<TextStep, AllocError>
        requires some { 0 < length slice.now }
        requires stage { self.old.stage ≡ Stage.Lost }
        requires fits { self.old.reader.start + self.old.reader.count + length slice.now < 2 ^ 64 }
        ensures taken { IfOk result (λ step. step.taken ≤ length slice.now) }
        ensures goes_on { IfOk result (λ step. 0 < step.taken) }
        ensures told { IfOk result (λ step. (limit at : ℕ) (bytes : List ℕ) (told : List JudgedText) → HasTold limit at bytes told self.old
            → HasTold limit at (bytes ++ take step.taken slice.now) (told ++ (listed step.ended ++ listed step.refused)) self.new) }
        ensures count { IfOk result (λ step. self.new.reader.start + self.new.reader.count ≡ self.old.reader.start + self.old.reader.count + step.taken) }
    {
        if self.reader.is_done() {
            return self.read_told(slice);
        }
        self.read_untold(slice)
    }

    /// Reads bytes of the slice after all bytes that it has read: as many as show at most one text to have ended. The rest of
    /// the slice is fed again. Fails only when out of memory.
    pub fn feed(&mut self, slice: &[u8]) -> Result<TextStep, AllocError>
        requires some { 0 < length slice.now }
        requires fits { self.old.reader.start + self.old.reader.count + length slice.now < 2 ^ 64 }
        ensures taken { IfOk result (λ step. step.taken ≤ length slice.now) }
        ensures goes_on { IfOk result (λ step. 0 < step.taken) }
        ensures told { IfOk result (λ step. (limit at : ℕ) (bytes : List ℕ) (told : List JudgedText) → HasTold limit at bytes told self.old
            → HasTold limit at (bytes ++ take step.taken slice.now) (told ++ (listed step.ended ++ listed step.refused)) self.new) }
        ensures count { IfOk result (λ step. self.new.reader.start + self.new.reader.count ≡ self.old.reader.start + self.old.reader.count + step.taken) }
    {
        match self.stage {
            Stage::Between => self.begin(slice),
            Stage::Closed(byte) => self.read_closed(slice, byte),
            Stage::Bare => self.read_bare(slice),
            Stage::Lost => self.read_lost(slice),
        }
    }

    /// The text that goes on, if the input ends here, unless its fault was answered.
    fn untold(&self) -> Option<JudgedText>
        requires { self.now.stage ≡ Stage.Between → ⊥ }
        ensures { (limit at : ℕ) (bytes : List ℕ) (told : List JudgedText) → HasTold limit at bytes told self.now → AreTexts limit at bytes (told ++ listed result) }
    {
        reader_and_grammar();
        if self.reader.is_done() {
            None
        } else {
            Some(self.text_now())
        }
    }

    /// The last text, if the input ends here, unless its fault was answered.
    pub fn last_text(&self) -> Option<JudgedText>
        ensures { (limit at : ℕ) (bytes : List ℕ) (told : List JudgedText) → HasTold limit at bytes told self.now → AreTexts limit at bytes (told ++ listed result) }
    {
        reader_and_grammar();
        match self.stage {
            Stage::Between => None,
            Stage::Closed(_) | Stage::Bare | Stage::Lost => self.untold(),
        }
    }
}
