// Elements of a text sequence that comes slice by slice (RFC 7464, section 2).
ghost use Rattle.std.specs.Prelude.{◌≡◌, ◌+◌, ◌<◌, ◌≤◌, ◌^◌, ◌++◌, ◌∷◌, ℕ, List, [], IfOk, OnOk, length, take};
ghost use Rattle.std.specs.List.{AllZip};
ghost use Rattle.jx_run.specs.declared.sequences.element_verdict.JudgedElement.{JudgedElement};
ghost use Rattle.jx_run.specs.declared.texts.settings.Settings.{Settings};
ghost use Rattle.jx_run.specs.Elements.{elements};
ghost use Rattle.jx_run.specs.ElementVerdict.{IsJudgedElement};
ghost use Rattle.jx_run.specs.SequenceRead.{HasNoSeparator, listed};
ghost use Rattle.jx_ndjson.specs.ElementReading.{AreJudgedElements, HasToldElements};
ghost use Rattle.jx_ndjson.specs.inside.ElementSteps.{is_passed_by};

use jx_lex::Span;
use jx_run::{
    FrontMark, JudgedElement, Reader, Settings, beginning_of_a_text_by_its_front,
    elements_of_two_parts, ended_there, ends_open_behind, front, is_mark_alone,
};
use memchr::memchr;
use std::alloc::{AllocError, Global};
use std::marker::Model;

/// The record separator (RFC 7464, section 2.2).
const RECORD_SEPARATOR: u8 = 0x1E;

/// How many bytes a byte order mark has.
const MARK: usize = 3;

/// The step of a reader of elements over a slice.
#[derive(Clone, Copy, Debug)]
pub struct ElementStep {
    /// How many bytes of the slice it took.
    pub taken: usize,
    /// The element that a record separator ended after them. There is none where it has no byte.
    pub element: Option<JudgedElement>,
}

/// Keeps the first bytes of an input, as far as they stand in this slice.
fn keep_first(first: &mut Vec<u8>, bytes: &[u8]) -> Result<(), AllocError>
    ensures { OnOk result ((input : List ℕ) → first.old.items ≡ take 3 input → first.new.items ≡ take 3 (input ++ bytes.now)) }
{
    let more = bytes.len().min(MARK.saturating_sub(first.len()));
    first.extend_from_slice(&bytes[..more])
}

/// Whether what stands at a span is a byte order mark alone in front of a sequence, and ignored. `first` are the first bytes
/// of the sequence, where the span begins with it.
fn is_passed(mark: FrontMark, first: &[u8], span: Span) -> bool
    requires { span.start ≤ span.end }
    ensures { (input : List ℕ) → span.end ≡ length input → (span.start ≡ 0 → first.now ≡ take 3 input) → result ≡ is_passed_by mark input span }
{
    beginning_of_a_text_by_its_front();
    match mark {
        FrontMark::Refused => false,
        FrontMark::Ignored if span.start == 0 => is_mark_alone(front(first, mark), span),
        FrontMark::Ignored => false,
    }
}

/// A reader of a text sequence from its start. It answers each element as the record separator after it is read, and
/// keeps no byte of it.
#[derive(Drop)]
pub struct ElementReader {
    mark: FrontMark,
    /// The first bytes of the input, until a record separator is read. They show whether a byte order mark stands there.
    first: Vec<u8>,
    /// Has read what there is of the element that goes on.
    reader: Reader,
    /// Whether the last byte of that element may be followed by more of its value.
    open_ended: bool,
}

impl Model for ElementReader {
    ghost use Rattle.jx_ndjson.specs.ElementReading.{ElementReaderValue};

    ghost Value = { ElementReaderValue };

    ghost view = { λ r. record { mark = r.mark; first = r.first.items; reader = r.reader; open_ended = r.open_ended } };
}

impl ElementReader {
    /// A reader before the first byte. The settings' names are ignored: objects may repeat them. Nothing is allocated.
    pub fn new(alloc: Global, settings: &Settings) -> ElementReader
        ensures told { HasToldElements settings.now [] [] result }
        ensures start { result.reader.start + result.reader.count ≡ 0 }
    {
        elements_of_two_parts();
        ElementReader {
            mark: settings.mark,
            first: Vec::new(alloc),
            reader: Reader::new(alloc, &settings.depth.into(), 0),
            open_ended: false,
        }
    }

    /// The offset just past the last byte that it has read.
    pub fn end(&self) -> usize
        ensures { result ≡ self.now.reader.start + self.now.reader.count }
    {
        self.reader.end()
    }

    /// Keeps bytes of the element that goes on, where it is the first one.
    fn keep(&mut self, bytes: &[u8]) -> Result<(), AllocError>
        ensures first { OnOk result ((input : List ℕ) → (self.old.reader.start ≡ 0 → self.old.first ≡ take 3 input)
            → self.new.reader.start ≡ 0 → self.new.first ≡ take 3 (input ++ bytes.now)) }
        ensures rest { self.new ≡ record self.old { first = self.new.first } }
    {
        if self.reader.start() == 0 {
            keep_first(&mut self.first, bytes)?;
        }
        Ok(())
    }

    /// Reads the bytes of a slice before `to`, which are of the element that goes on.
    fn go_on(&mut self, slice: &[u8], to: usize) -> Result<(), AllocError>
        requires within { to ≤ length slice.now }
        requires fits { self.old.reader.start + self.old.reader.count + to < 2 ^ 64 }
        requires in_the_element { HasNoSeparator (take to slice.now) }
        ensures told { OnOk result ((settings : Settings) (input : List ℕ) (told : List JudgedElement) → HasToldElements settings input told self.old
            → HasToldElements settings (input ++ take to slice.now) told self.new) }
        ensures count { OnOk result (self.new.reader.start + self.new.reader.count ≡ self.old.reader.start + self.old.reader.count + to) }
    {
        elements_of_two_parts();
        self.keep(&slice[..to])?;
        self.reader.feed_beginning(slice, to)?;
        self.open_ended = ends_open_behind(self.open_ended, &slice[..to]);
        Ok(())
    }

    /// The element that goes on, if it ends here, also where it is a byte order mark that is ignored.
    fn judged(&self) -> Option<JudgedElement>
        ensures { (settings : Settings) (input : List ℕ) (told : List JudgedElement) (h : HasToldElements settings input told self.now)
            → AllZip (IsJudgedElement settings.depth) (elements 0 input) (h.judged ++ listed result) }
    {
        elements_of_two_parts();
        let span = Span {
            start: self.reader.start(),
            end: self.reader.end(),
        };
        ended_there(span, self.reader.verdict(), self.open_ended)
    }

    /// The element that goes on, if it ends here, unless it is a byte order mark that is ignored.
    fn without_mark(&self, judged: Option<JudgedElement>) -> Option<JudgedElement>
        ensures { (settings : Settings) (input : List ℕ) (told : List JudgedElement) (h : HasToldElements settings input told self.now)
            → AllZip (IsJudgedElement settings.depth) (elements 0 input) (h.judged ++ listed judged) → AreJudgedElements settings input (told ++ listed result) }
    {
        elements_of_two_parts();
        let span = Span {
            start: self.reader.start(),
            end: self.reader.end(),
        };
        if is_passed(self.mark, &self.first, span) {
            None
        } else {
            judged
        }
    }

    /// The last element, if the input ends here.
    pub fn last_element(&self) -> Option<JudgedElement>
        ensures { (settings : Settings) (input : List ℕ) (told : List JudgedElement) → HasToldElements settings input told self.now
            → AreJudgedElements settings input (told ++ listed result) }
    {
        self.without_mark(self.judged())
    }

    /// Ends the element by a record separator.
    fn end_element(&mut self) -> Option<JudgedElement>
        requires { self.old.reader.start + self.old.reader.count + 1 < 2 ^ 64 }
        ensures told { (settings : Settings) (input : List ℕ) (told : List JudgedElement) → HasToldElements settings input told self.old
            → HasToldElements settings (input ++ 0x1e ∷ []) (told ++ listed result) self.new }
        ensures count { self.new.reader.start + self.new.reader.count ≡ self.old.reader.start + self.old.reader.count + 1 }
    {
        elements_of_two_parts();
        let judged = self.judged();
        let element = self.without_mark(judged);
        let end = self.reader.end();
        self.reader.reset(end + 1);
        self.open_ended = false;
        element
    }

    /// Reads the slice after all bytes that it has read, up to and with its first record separator. The rest of the
    /// slice is fed again. Fails only when out of memory.
    pub fn feed(&mut self, slice: &[u8]) -> Result<ElementStep, AllocError>
        requires { self.old.reader.start + self.old.reader.count + length slice.now < 2 ^ 64 }
        ensures taken { IfOk result (λ step. step.taken ≤ length slice.now) }
        ensures goes_on { IfOk result (λ step. 0 < length slice.now → 0 < step.taken) }
        ensures told { IfOk result (λ step. (settings : Settings) (input : List ℕ) (told : List JudgedElement) → HasToldElements settings input told self.old
            → HasToldElements settings (input ++ take step.taken slice.now) (told ++ listed step.element) self.new) }
        ensures count { IfOk result (λ step. self.new.reader.start + self.new.reader.count ≡ self.old.reader.start + self.old.reader.count + step.taken) }
    {
        match memchr(RECORD_SEPARATOR, slice) {
            None => {
                self.go_on(slice, slice.len())?;
                Ok(ElementStep {
                    taken: slice.len(),
                    element: None,
                })
            }
            Some(at) => {
                self.go_on(slice, at)?;
                Ok(ElementStep {
                    taken: at + 1,
                    element: self.end_element(),
                })
            }
        }
    }
}
