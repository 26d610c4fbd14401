// Lines that are counted while an input comes slice by slice. Those that are not valid JSON are kept until they are
// taken.
ghost use Rattle.std.specs.Prelude.{◌≡◌, ◌+◌, ◌<◌, ◌≤◌, ◌^◌, ◌++◌, ◌∷◌, ℕ, List, [], false, if◌then◌else◌, length, take, IfOk, IfSome, IsTrue, OnOk};
ghost use Rattle.jx_run.specs.declared.texts.settings.FrontMark.TheVariants.{Refused};
ghost use Rattle.jx_run.specs.declared.texts.settings.Settings.{Settings};
ghost use Rattle.jx_ndjson.specs.declared.judged_line.JudgedLine.{JudgedLine};
ghost use Rattle.jx_ndjson.specs.Reading.{listed};
ghost use Rattle.jx_ndjson.specs.Tally.{HasTaken, IsTallied, bad_of, count_of, counted, is_accepted, is_blank_line, is_refused};
ghost use Rattle.jx_ndjson.specs.WholeLines.{AreWhole};

use crate::judged_line::{JudgedLine, LineVerdict};
use crate::line_reader::LineReader;
use crate::text_lines::texts_in_front;
use crate::whole_lines::{WholeLines, append_behind};
use jx_run::Settings;
use std::alloc::{AllocError, Global};
use std::marker::Model;

/// How many lines there are.
#[derive(Clone, Copy, Debug, PartialEq, Eq)]
pub struct LineCounts {
    /// Those that are texts.
    pub accepted: usize,
    /// Those that are not valid JSON, and those that may be cut.
    pub refused: usize,
    /// Those that have no byte, or white space alone.
    pub blank: usize,
}

/// The report that is left where an input ends.
#[derive(Clone, Copy, Debug)]
pub struct LineEnd {
    /// The last line, if no line feed ends it and it is not valid JSON.
    pub bad: Option<JudgedLine>,
    /// How many lines the input has.
    pub counts: LineCounts,
}

fn is_accepted(verdict: LineVerdict) -> bool
    ensures { result ≡ is_accepted verdict }
{
    match verdict {
        LineVerdict::Accepted => true,
        LineVerdict::Refused(_) => false,
        LineVerdict::MayBeCut => false,
        LineVerdict::Blank => false,
    }
}

fn is_refused(verdict: LineVerdict) -> bool
    ensures { result ≡ is_refused verdict }
{
    match verdict {
        LineVerdict::Accepted => false,
        LineVerdict::Refused(_) => true,
        LineVerdict::MayBeCut => true,
        LineVerdict::Blank => false,
    }
}

fn is_blank_line(verdict: LineVerdict) -> bool
    ensures { result ≡ is_blank_line verdict }
{
    match verdict {
        LineVerdict::Accepted => false,
        LineVerdict::Refused(_) => false,
        LineVerdict::MayBeCut => false,
        LineVerdict::Blank => true,
    }
}

/// One more, where this holds.
fn one_more(count: usize, is_one: bool) -> usize
    requires { count + 1 < 2 ^ 64 }
    ensures value { result ≡ count + (if is_one then 1 else 0) }
    ensures most { result ≤ count + 1 }
{
    if is_one { count + 1 } else { count }
}

/// The counts with one line more.
fn counted(counts: LineCounts, verdict: LineVerdict) -> LineCounts
    requires accepted { counts.accepted + 1 < 2 ^ 64 }
    requires refused { counts.refused + 1 < 2 ^ 64 }
    requires blank { counts.blank + 1 < 2 ^ 64 }
    ensures value { result ≡ counted counts verdict }
    ensures accepted { result.accepted ≤ counts.accepted + 1 }
    ensures refused { result.refused ≤ counts.refused + 1 }
    ensures blank { result.blank ≤ counts.blank + 1 }
{
    LineCounts {
        accepted: one_more(counts.accepted, is_accepted(verdict)),
        refused: one_more(counts.refused, is_refused(verdict)),
        blank: one_more(counts.blank, is_blank_line(verdict)),
    }
}

/// The line, if it is not valid JSON.
fn bad_line(judged: JudgedLine) -> Option<JudgedLine>
    ensures { listed result ≡ bad_of (judged ∷ []) }
{
    if is_accepted(judged.verdict) {
        None
    } else {
        Some(judged)
    }
}

/// Appends the line, if it is not valid JSON.
fn push_bad(waiting: &mut Vec<JudgedLine>, judged: JudgedLine) -> Result<(), AllocError>
    ensures bad { OnOk result (waiting.new.items ≡ waiting.old.items ++ bad_of (judged ∷ [])) }
    ensures most { length waiting.new.items ≤ length waiting.old.items + 1 }
{
    if !is_accepted(judged.verdict) {
        waiting.push(judged)?;
    }
    Ok(())
}

/// How many of these lines have no byte, or white space alone.
fn blanks_among(judged: &[JudgedLine]) -> usize
    ensures count { result ≡ count_of is_blank_line judged.now }
    ensures most { result ≤ length judged.now }
{
    let mut count = 0;
    for at in 0..judged.len() {
        count = one_more(count, is_blank_line(judged[at].verdict));
    }
    count
}

/// A reader of lines from an input's start, which counts them. Those that are not valid JSON wait here until they are
/// taken. It keeps no byte of the input.
#[derive(Drop)]
pub struct LineTally {
    alloc: Global,
    lines: LineReader,
    counts: LineCounts,
    waiting: Vec<JudgedLine>,
}

impl Model for LineTally {
    ghost use Rattle.std.specs.Prelude.{◌≤◌, length};
    ghost use Rattle.jx_ndjson.specs.Tally.{TallyValue};

    ghost Value = { TallyValue };

    ghost view = { λ t. record { lines = t.lines; counts = t.counts; waiting = t.waiting.items } };

    ghost invariant = { λ t. (t.counts.accepted ≤ t.lines.ended) × (t.counts.refused ≤ t.lines.ended) × (t.counts.blank ≤ t.lines.ended)
        × (length t.waiting.items ≤ t.lines.ended) };
}

impl LineTally {
    /// A tally that has taken no byte. The settings' names are ignored: objects may repeat them. Nothing is allocated.
    pub fn new(alloc: Global, settings: &Settings) -> LineTally
        ensures taken { HasTaken settings.now [] [] result }
        ensures start { result.lines.reader.start + result.lines.reader.count ≡ 0 }
    {
        LineTally {
            alloc,
            lines: LineReader::new(alloc, settings),
            counts: LineCounts {
                accepted: 0,
                refused: 0,
                blank: 0,
            },
            waiting: Vec::new(alloc),
        }
    }

    /// The offset just past the last byte that it has taken.
    pub fn end(&self) -> usize
        ensures { result ≡ self.now.lines.reader.start + self.now.lines.reader.count }
    {
        self.lines.end()
    }

    /// Counts a line that has ended, and keeps it if it is not valid JSON.
    fn tell(&mut self, judged: JudgedLine) -> Result<(), AllocError>
        requires accepted { self.old.counts.accepted + 1 ≤ self.old.lines.ended }
        requires refused { self.old.counts.refused + 1 ≤ self.old.lines.ended }
        requires blank { self.old.counts.blank + 1 ≤ self.old.lines.ended }
        requires waiting { length self.old.waiting + 1 ≤ self.old.lines.ended }
        ensures lines { self.new.lines ≡ self.old.lines }
        ensures counts { OnOk result (self.new.counts ≡ counted self.old.counts judged.verdict) }
        ensures waiting { OnOk result (self.new.waiting ≡ self.old.waiting ++ bad_of (judged ∷ [])) }
    {
        // It is no less than any count with one more.
        let _ended = self.lines.ended();
        push_bad(&mut self.waiting, judged)?;
        self.counts = counted(self.counts, judged.verdict);
        Ok(())
    }

    /// Takes lines in front of a slice that are texts, where it stands between two lines, and answers how many bytes those are.
    fn take_texts(&mut self, slice: &[u8]) -> Result<usize, AllocError>
        requires fits { self.old.lines.reader.start + self.old.lines.reader.count + length slice.now < 2 ^ 64 }
        ensures within { IfOk result (λ taken. taken ≤ length slice.now) }
        ensures taken { IfOk result (λ taken. (settings : Settings) (input : List ℕ) (given : List JudgedLine) → HasTaken settings input given self.old
            → HasTaken settings (input ++ take taken slice.now) given self.new) }
        ensures count { IfOk result (λ taken. self.new.lines.reader.start + self.new.lines.reader.count ≡ self.old.lines.reader.start + self.old.lines.reader.count + taken) }
    {
        if !self.lines.is_between() {
            return Ok(0);
        }
        let texts = texts_in_front(self.alloc, slice, self.lines.depth())?;
        self.lines.pass(&texts);
        // It is no less than the count of those accepted.
        let _ended = self.lines.ended();
        self.counts.accepted += texts.count();
        Ok(texts.len())
    }

    /// Whether the next byte begins a line, and no byte order mark may begin with it.
    pub fn is_between(&self) -> bool
        ensures { IsTrue result → (self.now.lines.in_front ≡ false) × (self.now.lines.reader.count ≡ 0) }
    {
        self.lines.is_between()
    }

    /// Takes whole lines that were judged without it, as if it had taken their bytes after all that it has taken. It stands between
    /// two lines. Fails only when out of memory.
    pub fn take_whole(&mut self, whole: &WholeLines) -> Result<(), AllocError>
        requires in_front { self.old.lines.in_front ≡ false }
        requires between { self.old.lines.reader.count ≡ 0 }
        requires fits { self.old.lines.reader.start + whole.now.len < 2 ^ 64 }
        ensures taken { OnOk result ((settings : Settings) (input bytes : List ℕ) (given answers : List JudgedLine) → HasTaken settings input given self.old
            → AreWhole settings.depth bytes answers whole.now → HasTaken settings (input ++ bytes) given self.new) }
        ensures count { OnOk result (self.new.lines.reader.start + self.new.lines.reader.count ≡ self.old.lines.reader.start + whole.now.len) }
    {
        let bad = whole.bad();
        let accepted = whole.count() - bad.len();
        let blank = blanks_among(bad);
        // It is no less than any count.
        let ended = self.lines.ended();
        append_behind(&mut self.waiting, bad, ended, self.lines.end())?;
        self.lines.pass(whole);
        self.counts.accepted += accepted;
        self.counts.refused += bad.len() - blank;
        self.counts.blank += blank;
        Ok(())
    }

    /// Takes a slice up to and with its first line feed, or less, and answers how many bytes those are.
    fn take_line(&mut self, slice: &[u8]) -> Result<usize, AllocError>
        requires fits { self.old.lines.reader.start + self.old.lines.reader.count + length slice.now < 2 ^ 64 }
        ensures within { IfOk result (λ taken. taken ≤ length slice.now) }
        ensures some { IfOk result (λ taken. 0 < length slice.now → 0 < taken) }
        ensures taken { IfOk result (λ taken. (settings : Settings) (input : List ℕ) (given : List JudgedLine) → HasTaken settings input given self.old
            → HasTaken settings (input ++ take taken slice.now) given self.new) }
        ensures count { IfOk result (λ taken. self.new.lines.reader.start + self.new.lines.reader.count ≡ self.old.lines.reader.start + self.old.lines.reader.count + taken) }
    {
        let step = self.lines.feed(slice)?;
        match step.line {
            None => Ok(step.taken),
            Some(judged) => {
                self.tell(judged)?;
                Ok(step.taken)
            }
        }
    }

    /// Takes lines in front of a slice that are texts, and what follows them up to and with the next line feed, or
    /// less. Answers how many bytes those are.
    fn take_step(&mut self, slice: &[u8]) -> Result<usize, AllocError>
        requires fits { self.old.lines.reader.start + self.old.lines.reader.count + length slice.now < 2 ^ 64 }
        ensures within { IfOk result (λ taken. taken ≤ length slice.now) }
        ensures some { IfOk result (λ taken. 0 < length slice.now → 0 < taken) }
        ensures taken { IfOk result (λ taken. (settings : Settings) (input : List ℕ) (given : List JudgedLine) → HasTaken settings input given self.old
            → HasTaken settings (input ++ take taken slice.now) given self.new) }
        ensures count { IfOk result (λ taken. self.new.lines.reader.start + self.new.lines.reader.count ≡ self.old.lines.reader.start + self.old.lines.reader.count + taken) }
    {
        let passed = self.take_texts(slice)?;
        let taken = self.take_line(&slice[passed..])?;
        Ok(passed + taken)
    }

    /// Takes a slice after all bytes that it has taken. Fails only when out of memory; some of the slice may be taken
    /// then.
    pub fn feed(&mut self, slice: &[u8]) -> Result<(), AllocError>
        requires fits { self.old.lines.reader.start + self.old.lines.reader.count + length slice.now < 2 ^ 64 }
        ensures taken { OnOk result ((settings : Settings) (input : List ℕ) (given : List JudgedLine) → HasTaken settings input given self.old
            → HasTaken settings (input ++ slice.now) given self.new) }
        ensures count { OnOk result (self.new.lines.reader.start + self.new.lines.reader.count ≡ self.old.lines.reader.start + self.old.lines.reader.count + length slice.now) }
    {
        let mut at = 0;
        while at < slice.len() {
            at += self.take_step(&slice[at..])?;
        }
        Ok(())
    }

    /// Takes a slice after all bytes that it has taken, until more than so many lines wait. Answers whether it took all of it.
    pub(crate) fn feed_few(&mut self, slice: &[u8], most: usize) -> Result<bool, AllocError>
        requires fits { self.old.lines.reader.start + self.old.lines.reader.count + length slice.now < 2 ^ 64 }
        ensures { IfOk result (λ all. IsTrue all → (settings : Settings) (input : List ℕ) (given : List JudgedLine) → HasTaken settings input given self.old
            → HasTaken settings (input ++ slice.now) given self.new) }
    {
        let mut at = 0;
        while at < slice.len() {
            at += self.take_step(&slice[at..])?;
            if self.waiting.len() > most {
                return Ok(false);
            }
        }
        Ok(true)
    }

    /// The lines that wait, in their order.
    pub fn waiting(&self) -> &[JudgedLine]
        ensures { result.now ≡ self.now.waiting }
    {
        &self.waiting
    }

    /// Lets the lines that wait go.
    pub fn clear_waiting(&mut self)
        ensures lines { self.new.lines ≡ self.old.lines }
        ensures counts { self.new.counts ≡ self.old.counts }
        ensures waiting { self.new.waiting ≡ [] }
        ensures taken { (settings : Settings) (input : List ℕ) (given : List JudgedLine) → HasTaken settings input given self.old
            → HasTaken settings input (given ++ self.old.waiting) self.new }
    {
        self.waiting.clear();
    }

    /// The report that is left if the input ends here, after the lines that wait.
    pub fn told_at_end(&self) -> LineEnd
        ensures { (settings : Settings) (input : List ℕ) (given : List JudgedLine) → HasTaken settings input given self.now
            → IsTallied settings input (given ++ self.now.waiting ++ listed result.bad) result.counts }
    {
        match self.lines.last_line() {
            None => LineEnd {
                bad: None,
                counts: self.counts,
            },
            Some(judged) => LineEnd {
                bad: bad_line(judged),
                counts: counted(self.counts, judged.verdict),
            },
        }
    }

    /// The lines that it has taken, where a line feed ends the last one; none where bytes follow that.
    pub(crate) fn into_whole(self) -> Option<WholeLines>
        ensures whole { IfSome result (λ whole. (settings : Settings) (input : List ℕ) → settings.mark ≡ Refused → HasTaken settings input [] self
            → (answers : List JudgedLine) × AreWhole settings.depth input answers whole) }
        ensures len { IfSome result (λ whole. whole.len ≡ self.lines.reader.start + self.lines.reader.count) }
    {
        let LineTally {
            alloc: _,
            lines,
            counts: _,
            waiting,
        } = self;
        if !lines.is_between() {
            return None;
        }
        Some(WholeLines::new(lines.end(), lines.ended(), waiting))
    }
}
