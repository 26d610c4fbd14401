// Lines of an input that comes slice by slice.
ghost use Rattle.std.specs.Prelude.{◌≡◌, ◌+◌, ◌<◌, ◌≤◌, ◌^◌, ◌++◌, ◌∷◌, ℕ, List, [], true, false, IsErr, IsTrue, IfNone, IfOk, IfSome, OnErr, OnOk, length, map, take};
ghost use Rattle.jx_run.specs.declared.texts.settings.FrontMark.TheVariants.{Refused};
ghost use Rattle.jx_run.specs.declared.texts.settings.Settings.{Settings};
ghost use Rattle.jx_run.specs.Elements.{Part, part};
ghost use Rattle.jx_run.specs.Tree.{span};
ghost use Rattle.jx_ndjson.specs.declared.judged_line.JudgedLine.{JudgedLine};
ghost use Rattle.jx_ndjson.specs.Answers.{AreAnswers, IsAnswer, mark_at};
ghost use Rattle.jx_ndjson.specs.Lines.{line};
ghost use Rattle.jx_ndjson.specs.Reading.{HasFailed, HasReadLines, HasTold, IsOpen, listed};
ghost use Rattle.jx_ndjson.specs.WholeLines.{AreWhole, moved_line};
ghost use Rattle.jx_ndjson.specs.inside.Steps.{HasNoLineFeed, is_ignored, is_next_of_mark};

use crate::judged_line::{JudgedLine, blanks_behind, is_unended, told};
use crate::whole_lines::WholeLines;
use jx_lex::{Depth, Span};
use jx_run::{FrontMark, NameRule, Reader, Settings, ends_open_behind, reader_and_grammar};
use memchr::memchr;
use std::alloc::{AllocError, Global};
use std::marker::Model;

/// How many bytes a byte order mark has.
const MARK: usize = 3;

/// The step of a reader of lines over a slice.
#[derive(Clone, Copy, Debug)]
pub struct Step {
    /// How many bytes of the slice it took.
    pub taken: usize,
    /// The line that ended with them.
    pub line: Option<JudgedLine>,
}

/// Whether the byte is that of a byte order mark, U+FEFF in UTF-8, at this offset.
fn is_next_of_mark(at: usize, byte: u8) -> bool
    ensures { result ≡ is_next_of_mark at byte }
{
    match at {
        0 => byte == 0xEF,
        1 => byte == 0xBB,
        2 => byte == 0xBF,
        _ => false,
    }
}

fn is_ignored(mark: FrontMark) -> bool
    ensures { result ≡ is_ignored mark }
{
    match mark {
        FrontMark::Refused => false,
        FrontMark::Ignored => true,
    }
}

/// A reader of lines from an input's start. It answers each line as the line feed is read, and keeps no byte of it. A byte
/// order mark in front, which the settings may ignore, may be cut anywhere between two slices.
#[derive(Drop)]
pub struct LineReader {
    alloc: Global,
    reader: Reader,
    is_blank: bool,
    open_ended: bool,
    ended: usize,
    in_front: bool,
}

impl Model for LineReader {
    ghost use Rattle.jx_ndjson.specs.Reading.{LineReaderValue};
    ghost use Rattle.std.specs.Prelude.{◌≤◌};

    ghost Value = { LineReaderValue };

    ghost view = { λ r. record { reader = r.reader; is_blank = r.is_blank; open_ended = r.open_ended; ended = r.ended; in_front = r.in_front } };

    ghost invariant = { λ r. r.ended ≤ r.reader.start };
}

impl LineReader {
    /// A reader before the first byte. The settings' names are ignored: objects may repeat them. Nothing is allocated.
    pub fn new(alloc: Global, settings: &Settings) -> LineReader
        ensures told { HasTold settings.now [] [] result }
        ensures start { result.reader.start + result.reader.count ≡ 0 }
    {
        let first = Settings {
            depth: settings.depth,
            mark: settings.mark,
            names: NameRule::Any,
        };
        LineReader {
            alloc,
            reader: Reader::new(alloc, &first, 0),
            is_blank: true,
            open_ended: false,
            ended: 0,
            in_front: is_ignored(settings.mark),
        }
    }

    /// The offset just past the last byte that it has read.
    pub fn end(&self) -> usize
        ensures { result ≡ self.now.reader.start + self.now.reader.count }
    {
        self.reader.end()
    }

    /// The number of lines that a line feed has ended.
    pub fn ended(&self) -> usize
        ensures count { result ≡ self.now.ended }
        ensures within { result ≤ self.now.reader.start }
    {
        self.ended
    }

    /// How many containers may stand open at once in a line.
    pub(crate) fn depth(&self) -> Depth
        ensures { result ≡ self.now.reader.settings.depth }
    {
        self.reader.settings().depth
    }

    /// Begins a line whose first byte has this offset.
    fn begin(&mut self, start: usize)
        requires { self.old.ended ≤ start }
        ensures goes_on { (settings : Settings) (p : Part) → IsOpen settings p self.old → mark_at settings.mark start ≡ Refused → IsOpen settings (part start []) self.new }
        ensures start { self.new.reader.start ≡ start }
        ensures count { self.new.reader.count ≡ 0 }
        ensures ended { self.new.ended ≡ self.old.ended }
        ensures in_front { self.new.in_front ≡ self.old.in_front }
    {
        if is_ignored(self.reader.settings().mark) {
            // A byte order mark may stand in front of the first line alone.
            let plain = self.depth().into();
            self.reader = Reader::new(self.alloc, &plain, start);
        } else {
            self.reader.reset(start);
        }
        self.is_blank = true;
        self.open_ended = false;
    }

    /// Reads the bytes of a slice before `to`, which are of the line that goes on.
    fn go_on(&mut self, slice: &[u8], to: usize) -> Result<(), AllocError>
        requires within { to ≤ length slice.now }
        requires fits { self.old.reader.start + self.old.reader.count + to < 2 ^ 64 }
        requires on_the_line { HasNoLineFeed (take to slice.now) }
        ensures told { OnOk result ((settings : Settings) (at : ℕ) (before : List ℕ) (told : List JudgedLine) → HasReadLines settings at before told self.old → HasReadLines settings at (before ++ take to slice.now) told self.new) }
        ensures start { self.new.reader.start ≡ self.old.reader.start }
        ensures count { OnOk result (self.new.reader.count ≡ self.old.reader.count + to) }
        ensures ended { self.new.ended ≡ self.old.ended }
        ensures in_front { self.new.in_front ≡ self.old.in_front }
        ensures err { OnErr result (HasFailed self.new) }
        ensures failed { HasFailed self.old → IsErr result }
    {
        self.reader.feed_beginning(slice, to)?;
        self.is_blank = blanks_behind(self.is_blank, &slice[..to]);
        self.open_ended = ends_open_behind(self.open_ended, &slice[..to]);
        Ok(())
    }

    /// The line that goes on, as the next one, where it ends by a line feed or by the end of the input.
    fn judged(&self, number: usize, is_ended: bool) -> JudgedLine
        ensures answer { (settings : Settings) (p : Part) → IsOpen settings p self.now → IsAnswer settings (line number p is_ended) result }
        ensures number { result.number ≡ number }
        ensures span { result.span ≡ span self.now.reader.start (self.now.reader.start + self.now.reader.count) }
    {
        reader_and_grammar();
        let span = Span {
            start: self.reader.start(),
            end: self.reader.end(),
        };
        let is_open = is_unended(self.open_ended, is_ended);
        JudgedLine {
            number,
            span,
            verdict: told(self.is_blank, is_open, self.reader.verdict()),
        }
    }

    /// Ends the line by a line feed.
    fn end_line(&mut self) -> JudgedLine
        requires { self.old.reader.start + self.old.reader.count + 1 < 2 ^ 64 }
        ensures told { (settings : Settings) (at : ℕ) (before : List ℕ) (told : List JudgedLine) → HasReadLines settings at before told self.old
            → HasReadLines settings at (before ++ 0x0a ∷ []) (told ++ result ∷ []) self.new }
        ensures start { self.new.reader.start ≡ self.old.reader.start + self.old.reader.count + 1 }
        ensures count { self.new.reader.count ≡ 0 }
        ensures ended { self.new.ended ≡ self.old.ended + 1 }
        ensures in_front { self.new.in_front ≡ self.old.in_front }
        ensures span { result.span ≡ span self.old.reader.start (self.old.reader.start + self.old.reader.count) }
    {
        let end = self.reader.end();
        let number = self.ended + 1;
        let line = self.judged(number, true);
        self.begin(end + 1);
        self.ended = number;
        line
    }

    /// Reads a slice up to and with its first line feed.
    fn read_line(&mut self, slice: &[u8]) -> Result<Step, AllocError>
        requires { self.old.reader.start + self.old.reader.count + length slice.now < 2 ^ 64 }
        ensures taken { IfOk result (λ step. step.taken ≤ length slice.now) }
        ensures goes_on { IfOk result (λ step. 0 < length slice.now → 0 < step.taken) }
        ensures told { IfOk result (λ step. (settings : Settings) (at : ℕ) (before : List ℕ) (told : List JudgedLine) → HasReadLines settings at before told self.old
            → HasReadLines settings at (before ++ take step.taken slice.now) (told ++ listed step.line) self.new) }
        ensures count { IfOk result (λ step. self.new.reader.start + self.new.reader.count ≡ self.old.reader.start + self.old.reader.count + step.taken) }
        ensures ended { IfOk result (λ step. self.new.ended ≡ self.old.ended + length (listed step.line)) }
        ensures goes_on_there { IfOk result (λ step. 0 < self.new.reader.count → self.new.reader.start ≡ self.old.reader.start) }
        ensures spans { IfOk result (λ step. IfSome step.line (λ judged. (judged.span.start ≡ self.old.reader.start)
            × (judged.span.end + 1 ≡ self.old.reader.start + self.old.reader.count + step.taken))) }
        ensures kept { OnErr result (self.new.ended ≡ self.old.ended) }
        ensures in_front { self.new.in_front ≡ self.old.in_front }
        ensures err { OnErr result (HasFailed self.new) }
        ensures failed { HasFailed self.old → IsErr result }
    {
        match memchr(b'\n', slice) {
            None => {
                self.go_on(slice, slice.len())?;
                Ok(Step {
                    taken: slice.len(),
                    line: None,
                })
            }
            Some(at) => {
                self.go_on(slice, at)?;
                Ok(Step {
                    taken: at + 1,
                    line: Some(self.end_line()),
                })
            }
        }
    }

    /// Takes the next byte of a byte order mark at the input's start. After the last one the first line begins.
    fn pass_mark(&mut self, byte: u8) -> Result<(), AllocError>
        requires fits { self.old.reader.start + self.old.reader.count + 1 < 2 ^ 64 }
        requires in_front { self.old.in_front ≡ true }
        requires next { is_next_of_mark (self.old.reader.start + self.old.reader.count) byte ≡ true }
        ensures told { OnOk result ((settings : Settings) (input : List ℕ) (told : List JudgedLine) → HasTold settings input told self.old
            → HasTold settings (input ++ byte ∷ []) told self.new) }
        ensures count { OnOk result (self.new.reader.start + self.new.reader.count ≡ self.old.reader.start + self.old.reader.count + 1) }
        ensures ended { self.new.ended ≡ self.old.ended }
        ensures goes_on_there { OnOk result (0 < self.new.reader.count → self.new.reader.start ≡ self.old.reader.start) }
        ensures err { OnErr result (HasFailed self.new) }
        ensures failed { HasFailed self.old → IsErr result }
    {
        self.go_on(&[byte], 1)?;
        if self.reader.end() == MARK {
            self.in_front = false;
            self.begin(MARK);
        }
        Ok(())
    }

    /// Takes bytes where a byte order mark may begin or go on.
    fn read_front(&mut self, slice: &[u8]) -> Result<Step, AllocError>
        requires fits { self.old.reader.start + self.old.reader.count + length slice.now < 2 ^ 64 }
        requires in_front { self.old.in_front ≡ true }
        ensures taken { IfOk result (λ step. step.taken ≤ length slice.now) }
        ensures goes_on { IfOk result (λ step. 0 < length slice.now → 0 < step.taken) }
        ensures told { IfOk result (λ step. (settings : Settings) (input : List ℕ) (told : List JudgedLine) → HasTold settings input told self.old
            → HasTold settings (input ++ take step.taken slice.now) (told ++ listed step.line) self.new) }
        ensures count { IfOk result (λ step. self.new.reader.start + self.new.reader.count ≡ self.old.reader.start + self.old.reader.count + step.taken) }
        ensures ended { IfOk result (λ step. self.new.ended ≡ self.old.ended + length (listed step.line)) }
        ensures goes_on_there { IfOk result (λ step. 0 < self.new.reader.count → self.new.reader.start ≡ self.old.reader.start) }
        ensures spans { IfOk result (λ step. IfSome step.line (λ judged. (judged.span.start ≡ self.old.reader.start)
            × (judged.span.end + 1 ≡ self.old.reader.start + self.old.reader.count + step.taken))) }
        ensures kept { OnErr result (self.new.ended ≡ self.old.ended) }
        ensures err { OnErr result (HasFailed self.new) }
        ensures failed { HasFailed self.old → IsErr result }
    {
        let Some(byte) = slice.first() else {
            self.go_on(slice, 0)?;
            return Ok(Step {
                taken: 0,
                line: None,
            });
        };
        if is_next_of_mark(self.reader.end(), *byte) {
            self.pass_mark(*byte)?;
            return Ok(Step {
                taken: 1,
                line: None,
            });
        }
        self.in_front = false;
        self.read_line(slice)
    }

    /// Reads the slice after all bytes that it has read, up to and with its first line feed, or less. The rest of the
    /// slice is fed again. Fails only when out of memory, and from then on every slice is.
    pub fn feed(&mut self, slice: &[u8]) -> Result<Step, AllocError>
        requires { self.old.reader.start + self.old.reader.count + length slice.now < 2 ^ 64 }
        ensures taken { IfOk result (λ step. step.taken ≤ length slice.now) }
        ensures goes_on { IfOk result (λ step. 0 < length slice.now → 0 < step.taken) }
        ensures told { IfOk result (λ step. (settings : Settings) (input : List ℕ) (told : List JudgedLine) → HasTold settings input told self.old
            → HasTold settings (input ++ take step.taken slice.now) (told ++ listed step.line) self.new) }
        ensures count { IfOk result (λ step. self.new.reader.start + self.new.reader.count ≡ self.old.reader.start + self.old.reader.count + step.taken) }
        ensures ended { IfOk result (λ step. self.new.ended ≡ self.old.ended + length (listed step.line)) }
        ensures goes_on_there { IfOk result (λ step. 0 < self.new.reader.count → self.new.reader.start ≡ self.old.reader.start) }
        ensures spans { IfOk result (λ step. IfSome step.line (λ judged. (judged.span.start ≡ self.old.reader.start)
            × (judged.span.end + 1 ≡ self.old.reader.start + self.old.reader.count + step.taken))) }
        ensures kept { OnErr result (self.new.ended ≡ self.old.ended) }
        ensures err { OnErr result (HasFailed self.new) }
        ensures failed { HasFailed self.old → IsErr result }
    {
        if self.in_front {
            self.read_front(slice)
        } else {
            self.read_line(slice)
        }
    }

    /// The number of bytes that it has read of the line that goes on.
    pub fn open_len(&self) -> usize
        ensures { result ≡ self.now.reader.count }
    {
        self.reader.end() - self.reader.start()
    }

    /// The last line, where no line feed ends it, if the input ends here.
    pub fn last_line(&self) -> Option<JudgedLine>
        ensures told { (settings : Settings) (input : List ℕ) (told : List JudgedLine) → HasTold settings input told self.now → AreAnswers settings input (told ++ listed result) }
        ensures number { IfSome result (λ judged. judged.number ≡ self.now.ended + 1) }
        ensures none { IfNone result (self.now.reader.count ≡ 0) }
        ensures span { IfSome result (λ judged. judged.span ≡ span self.now.reader.start (self.now.reader.start + self.now.reader.count)) }
    {
        if self.reader.start() == self.reader.end() {
            return None;
        }
        Some(self.judged(self.ended + 1, false))
    }

    /// Whether the next byte begins a line, and no byte order mark may begin with it.
    pub fn is_between(&self) -> bool
        ensures { IsTrue result → (self.now.in_front ≡ false) × (self.now.reader.count ≡ 0) }
    {
        !self.in_front && self.reader.start() == self.reader.end()
    }

    /// Passes whole lines that were judged without it, as if it had read their bytes after all that it has read. It
    /// stands between two lines.
    pub fn pass(&mut self, lines: &WholeLines)
        requires in_front { self.old.in_front ≡ false }
        requires between { self.old.reader.count ≡ 0 }
        requires fits { self.old.reader.start + lines.now.len < 2 ^ 64 }
        ensures told { (settings : Settings) (input bytes : List ℕ) (told answers : List JudgedLine) → HasTold settings input told self.old
            → AreWhole settings.depth bytes answers lines.now → HasTold settings (input ++ bytes) (told ++ map (moved_line self.old.ended self.old.reader.start) answers) self.new }
        ensures start { self.new.reader.start ≡ self.old.reader.start + lines.now.len }
        ensures count { self.new.reader.count ≡ 0 }
        ensures ended { self.new.ended ≡ self.old.ended + lines.now.count }
        ensures in_front { self.new.in_front ≡ self.old.in_front }
    {
        reader_and_grammar();
        let start = self.reader.start() + lines.len();
        self.begin(start);
        self.ended += lines.count();
    }
}
