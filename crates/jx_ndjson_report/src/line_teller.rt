// Lines that are reported while an input comes slice by slice.
ghost use Rattle.std.specs.Prelude.{◌≡◌, ◌+◌, ◌<◌, ◌≤◌, ◌^◌, ◌++◌, ℕ, List, [], false, if◌then◌else◌, length, map, take, IfNone, IfOk, IfSome, OnOk};
ghost use Rattle.jx_ndjson.specs.declared.judged_line.JudgedLine.{JudgedLine};
ghost use Rattle.jx_run.specs.declared.texts.settings.Settings.{Settings};
ghost use Rattle.jx_run.specs.Tree.{span};
ghost use Rattle.jx_ndjson.specs.Answers.{AreAnswers};
ghost use Rattle.jx_ndjson.specs.Reading.{HasTold, listed};
ghost use Rattle.jx_ndjson.specs.WholeLines.{AreWhole, moved_line};
ghost use Rattle.jx_words.specs.Verdicts.{shown_output};
ghost use Rattle.jx_ndjson_report.specs.Output.{bad_lines, bad_of, is_bad, is_good, total_words};
ghost use Rattle.jx_ndjson_report.specs.inside.LineTeller.{HasTaken, HasTakenAs, HasTakenTexts};
ghost use Rattle.jx_ndjson_report.specs.inside.Shared.{IsShared};
ghost use Rattle.jx_ndjson_report.specs.inside.LineSteps.{bad_line, exit_by};

use crate::line_batch::{SharedLines, judge_batch};
use crate::task::LinesTask;
use crate::words::{add_counts, add_line, is_bad, is_good};
use jx_crew::{Crew, Gate};
use jx_drive::Reporter;
use jx_ends::Exit;
use jx_lex::Span;
use jx_ndjson::{
    JudgedLine, LineReader, Step, WholeLines, ended_lines_of_a_reader, texts_in_front,
};
use std::alloc::{AllocError, Global};
use std::marker::Model;
use std::sync::Wait;
use std::thread::Threads;

/// One more, where this holds.
fn counted(count: usize, is_one: bool) -> usize
    requires { count + 1 < 2 ^ 64 }
    ensures { result ≡ count + (if is_one then 1 else 0) }
{
    if is_one { count + 1 } else { count }
}

/// Appends the report on a line, if it is bad and is to be written.
fn add_bad(ready: &mut Vec<u8>, task: &LinesTask, judged: JudgedLine) -> Result<(), AllocError>
    ensures { OnOk result (ready.new.items ≡ ready.old.items ++ bad_line task.now judged) }
{
    if !task.is_quiet && is_bad(task.blanks, judged.verdict) {
        add_line(ready, task.form, &task.front, judged)?;
    }
    Ok(())
}

/// Appends the report on lines after so many others, which have so many bytes, and answers how many of them are bad.
fn add_all_bad(
    ready: &mut Vec<u8>,
    task: &LinesTask,
    judged: &[JudgedLine],
    lines: usize,
    bytes: usize,
) -> Result<usize, AllocError>
    ensures count { IfOk result (λ count. count ≡ length (bad_of task.now.blanks (map (moved_line lines bytes) judged.now))) }
    ensures most { IfOk result (λ count. count ≤ length judged.now) }
    ensures ready { OnOk result (ready.new.items ≡ ready.old.items ++ bad_lines task.now (map (moved_line lines bytes) judged.now)) }
{
    let mut count = 0;
    for at in 0..judged.len() {
        let line = judged[at].behind(lines, bytes);
        add_bad(ready, task, line)?;
        count = counted(count, is_bad(task.blanks, line.verdict));
    }
    Ok(count)
}

/// Appends how many lines are good and how many bad, unless nothing is to be written.
fn add_total(
    ready: &mut Vec<u8>,
    task: &LinesTask,
    good: usize,
    bad: usize,
) -> Result<(), AllocError>
    ensures { OnOk result (ready.new.items ≡ ready.old.items ++ shown_output task.now.is_quiet (total_words task.now.form task.now.front.items good bad)) }
{
    if task.is_quiet {
        return Ok(());
    }
    add_counts(ready, task.form, &task.front, good, bad)
}

fn exit_by(bad: usize) -> Exit
    ensures { result ≡ exit_by bad }
{
    if bad == 0 { Exit::Good } else { Exit::Bad }
}

/// Appends the total, and answers the exit.
fn add_end(
    ready: &mut Vec<u8>,
    task: &LinesTask,
    good: usize,
    bad: usize,
) -> Result<Exit, AllocError>
    ensures total { OnOk result (ready.new.items ≡ ready.old.items ++ shown_output task.now.is_quiet (total_words task.now.form task.now.front.items good bad)) }
    ensures exit { IfOk result (λ exit. exit ≡ exit_by bad) }
{
    add_total(ready, task, good, bad)?;
    Ok(exit_by(bad))
}

/// A reader of lines, and the report on those that a line feed has ended. The report waits here to be written.
#[derive(Drop)]
pub(crate) struct LineTeller {
    alloc: Global,
    lines: LineReader,
    good: usize,
    bad: usize,
    ready: Vec<u8>,
}

impl Model for LineTeller {
    ghost use Rattle.std.specs.Prelude.{◌≤◌};
    ghost use Rattle.jx_ndjson_report.specs.inside.LineTeller.{LineTellerValue};

    ghost Value = { LineTellerValue };

    ghost view = { λ t. record { lines = t.lines; good = t.good; bad = t.bad; ready = t.ready.items } };

    ghost invariant = { λ t. (t.good ≤ t.lines.ended) × (t.bad ≤ t.lines.ended) };
}

impl LineTeller {
    /// A teller that has taken no byte. Nothing is allocated.
    pub fn new(alloc: Global, task: &LinesTask) -> LineTeller
        ensures taken { HasTaken task.now [] [] result }
        ensures told { HasTold task.now.settings [] [] result.lines }
        ensures start { result.lines.reader.start + result.lines.reader.count ≡ 0 }
        ensures good { result.good ≡ 0 }
        ensures bad { result.bad ≡ 0 }
        ensures ready { result.ready ≡ [] }
    {
        LineTeller {
            alloc,
            lines: LineReader::new(alloc, &task.settings),
            good: 0,
            bad: 0,
            ready: Vec::new(alloc),
        }
    }

    /// Reports a line that has ended, and counts it.
    fn tell(&mut self, task: &LinesTask, judged: JudgedLine) -> Result<(), AllocError>
        requires good { self.old.good + 1 ≤ self.old.lines.ended }
        requires bad { self.old.bad + 1 ≤ self.old.lines.ended }
        ensures lines { self.new.lines ≡ self.old.lines }
        ensures ready { OnOk result (self.new.ready ≡ self.old.ready ++ bad_line task.now judged) }
        ensures good { OnOk result (self.new.good ≡ self.old.good + (if is_good judged.verdict then 1 else 0)) }
        ensures bad { OnOk result (self.new.bad ≡ self.old.bad + (if is_bad task.now.blanks judged.verdict then 1 else 0)) }
    {
        // It is no less than either count with one more.
        let _ended = self.lines.ended();
        add_bad(&mut self.ready, task, judged)?;
        self.good = counted(self.good, is_good(judged.verdict));
        self.bad = counted(self.bad, is_bad(task.blanks, judged.verdict));
        Ok(())
    }

    /// Takes whole lines that were judged without it, and reports those that are not valid JSON. It stands between two
    /// lines.
    fn take_whole(&mut self, task: &LinesTask, whole: &WholeLines) -> Result<(), AllocError>
        requires in_front { self.old.lines.in_front ≡ false }
        requires between { self.old.lines.reader.count ≡ 0 }
        requires fits { self.old.lines.reader.start + whole.now.len < 2 ^ 64 }
        ensures taken { OnOk result ((bytes given more : List ℕ) (answers : List JudgedLine) (before : HasTaken task.now bytes given self.old) → AreWhole task.now.settings.depth more answers whole.now
            → HasTakenAs task.now (bytes ++ more) given (before.answers ++ map (moved_line self.old.lines.ended self.old.lines.reader.start) answers) self.new) }
        ensures start { OnOk result (self.new.lines.reader.start ≡ self.old.lines.reader.start + whole.now.len) }
        ensures between { OnOk result (self.new.lines.reader.count ≡ 0) }
        ensures bad { OnOk result (self.new.bad ≤ self.old.bad + length whole.now.bad) }
    {
        let bad = whole.bad();
        let good = whole.count() - bad.len();
        let lines = self.lines.ended();
        let bytes = self.lines.end();
        let told = add_all_bad(&mut self.ready, task, bad, lines, bytes)?;
        self.lines.pass(whole);
        self.good += good;
        self.bad += told;
        Ok(())
    }

    /// Takes lines in front of a slice that are texts, where it stands between two lines, and answers how many bytes those are.
    pub fn take_texts(&mut self, task: &LinesTask, slice: &[u8]) -> Result<usize, AllocError>
        requires fits { self.old.lines.reader.start + self.old.lines.reader.count + length slice.now < 2 ^ 64 }
        ensures within { IfOk result (λ taken. taken ≤ length slice.now) }
        ensures taken { IfOk result (λ taken. (bytes given : List ℕ) (before : HasTaken task.now bytes given self.old)
            → HasTakenTexts task.now bytes given (take taken slice.now) before.answers self.old.lines.reader.start self.new) }
        ensures start { IfOk result (λ taken. self.new.lines.reader.start ≡ self.old.lines.reader.start + taken) }
        ensures open { OnOk result (self.new.lines.reader.count ≡ self.old.lines.reader.count) }
        ensures between { IfOk result (λ taken. 0 < taken → self.old.lines.reader.count ≡ 0) }
        ensures bad { OnOk result (self.new.bad ≤ self.old.bad) }
    {
        if !self.lines.is_between() {
            return Ok(0);
        }
        let texts = texts_in_front(self.alloc, slice, task.settings.depth)?;
        self.take_whole(task, &texts)?;
        Ok(texts.len())
    }

    /// The number of bytes that it has taken of the line that goes on.
    pub fn open_len(&self) -> usize
        ensures { result ≡ self.now.lines.reader.count }
    {
        self.lines.open_len()
    }

    /// How many of the lines that ended are bad.
    pub fn bad(&self) -> usize
        ensures { result ≡ self.now.bad }
    {
        self.bad
    }

    /// The last line, where no line feed ends it, if the input ends here.
    pub fn last_line(&self) -> Option<JudgedLine>
        ensures told { (settings : Settings) (input : List ℕ) (told : List JudgedLine) → HasTold settings input told self.now.lines → AreAnswers settings input (told ++ listed result) }
        ensures none { IfNone result (self.now.lines.reader.count ≡ 0) }
        ensures span { IfSome result (λ judged. judged.span ≡ span self.now.lines.reader.start (self.now.lines.reader.start + self.now.lines.reader.count)) }
    {
        self.lines.last_line()
    }

    /// Lets the report that waits go.
    pub fn clear(&mut self)
        ensures lines { self.new.lines ≡ self.old.lines }
        ensures good { self.new.good ≡ self.old.good }
        ensures bad { self.new.bad ≡ self.old.bad }
        ensures ready { self.new.ready ≡ [] }
    {
        self.ready.clear();
    }

    /// Takes a slice up to and with its first line feed, or less, and answers how many bytes those are and which line they
    /// end.
    pub fn read_line(&mut self, task: &LinesTask, slice: &[u8]) -> Result<Step, AllocError>
        requires fits { self.old.lines.reader.start + self.old.lines.reader.count + length slice.now < 2 ^ 64 }
        ensures within { IfOk result (λ step. step.taken ≤ length slice.now) }
        ensures some { IfOk result (λ step. 0 < length slice.now → 0 < step.taken) }
        ensures taken { IfOk result (λ step. (bytes given : List ℕ) (before : HasTaken task.now bytes given self.old)
            → HasTakenAs task.now (bytes ++ take step.taken slice.now) given (before.answers ++ listed step.line) self.new) }
        ensures count { IfOk result (λ step. self.new.lines.reader.start + self.new.lines.reader.count ≡ self.old.lines.reader.start + self.old.lines.reader.count + step.taken) }
        ensures goes_on_there { IfOk result (λ step. 0 < self.new.lines.reader.count → self.new.lines.reader.start ≡ self.old.lines.reader.start) }
        ensures spans { IfOk result (λ step. IfSome step.line (λ judged. (judged.span.start ≡ self.old.lines.reader.start)
            × (judged.span.end + 1 ≡ self.old.lines.reader.start + self.old.lines.reader.count + step.taken))) }
        ensures bad { OnOk result (self.new.bad ≤ self.old.bad + 1) }
    {
        let step = self.lines.feed(slice)?;
        match step.line {
            None => Ok(step),
            Some(judged) => {
                self.tell(task, judged)?;
                Ok(step)
            }
        }
    }

    /// Takes a slice up to and with its first line feed, or less, and answers how many bytes those are.
    fn take_line(&mut self, task: &LinesTask, slice: &[u8]) -> Result<usize, AllocError>
        requires fits { self.old.lines.reader.start + self.old.lines.reader.count + length slice.now < 2 ^ 64 }
        ensures within { IfOk result (λ taken. taken ≤ length slice.now) }
        ensures some { IfOk result (λ taken. 0 < length slice.now → 0 < taken) }
        ensures taken { IfOk result (λ taken. (bytes given : List ℕ) → HasTaken task.now bytes given self.old → HasTaken task.now (bytes ++ take taken slice.now) given self.new) }
        ensures count { IfOk result (λ taken. self.new.lines.reader.start + self.new.lines.reader.count ≡ self.old.lines.reader.start + self.old.lines.reader.count + taken) }
        ensures bad { OnOk result (self.new.bad ≤ self.old.bad + 1) }
    {
        let step = self.read_line(task, slice)?;
        Ok(step.taken)
    }

    /// Takes lines in front of a slice that are texts, and what follows them up to and with the next line feed, or
    /// less. Answers how many bytes those are.
    pub fn take_step(&mut self, task: &LinesTask, slice: &[u8]) -> Result<usize, AllocError>
        requires fits { self.old.lines.reader.start + self.old.lines.reader.count + length slice.now < 2 ^ 64 }
        ensures within { IfOk result (λ taken. taken ≤ length slice.now) }
        ensures some { IfOk result (λ taken. 0 < length slice.now → 0 < taken) }
        ensures taken { IfOk result (λ taken. (bytes given : List ℕ) → HasTaken task.now bytes given self.old → HasTaken task.now (bytes ++ take taken slice.now) given self.new) }
        ensures count { IfOk result (λ taken. self.new.lines.reader.start + self.new.lines.reader.count ≡ self.old.lines.reader.start + self.old.lines.reader.count + taken) }
        ensures bad { OnOk result (self.new.bad ≤ self.old.bad + 1) }
    {
        let passed = self.take_texts(task, slice)?;
        let taken = self.take_line(task, &slice[passed..])?;
        Ok(passed + taken)
    }

    /// Takes a slice line by line.
    fn take_alone(&mut self, task: &LinesTask, slice: &[u8]) -> Result<(), AllocError>
        requires fits { self.old.lines.reader.start + self.old.lines.reader.count + length slice.now < 2 ^ 64 }
        ensures taken { OnOk result ((bytes given : List ℕ) → HasTaken task.now bytes given self.old → HasTaken task.now (bytes ++ slice.now) given self.new) }
        ensures count { OnOk result (self.new.lines.reader.start + self.new.lines.reader.count ≡ self.old.lines.reader.start + self.old.lines.reader.count + length slice.now) }
    {
        let mut at = 0;
        while at < slice.len() {
            at += self.take_step(task, &slice[at..])?;
        }
        Ok(())
    }

    /// Takes whole lines of a slice that were judged without it, or the slice that they are line by line, where it does not stand
    /// between two lines.
    fn take_judged(
        &mut self,
        task: &LinesTask,
        slice: &[u8],
        whole: &WholeLines,
    ) -> Result<(), AllocError>
        requires fits { self.old.lines.reader.start + self.old.lines.reader.count + length slice.now < 2 ^ 64 }
        requires whole { (answers : List JudgedLine) × AreWhole task.now.settings.depth slice.now answers whole.now }
        requires len { whole.now.len ≡ length slice.now }
        ensures taken { OnOk result ((bytes given : List ℕ) → HasTaken task.now bytes given self.old → HasTaken task.now (bytes ++ slice.now) given self.new) }
        ensures count { OnOk result (self.new.lines.reader.start + self.new.lines.reader.count ≡ self.old.lines.reader.start + self.old.lines.reader.count + length slice.now) }
    {
        if self.lines.is_between() {
            self.take_whole(task, whole)
        } else {
            self.take_alone(task, slice)
        }
    }

    /// Takes a slice, some of whose lines were judged: those before and after them line by line.
    fn take_shared(
        &mut self,
        task: &LinesTask,
        slice: &[u8],
        shared: &SharedLines,
    ) -> Result<(), AllocError>
        requires fits { self.old.lines.reader.start + self.old.lines.reader.count + length slice.now < 2 ^ 64 }
        requires shared { IsShared task.now.settings.depth slice.now shared.now }
        ensures taken { OnOk result ((bytes given : List ℕ) → HasTaken task.now bytes given self.old → HasTaken task.now (bytes ++ slice.now) given self.new) }
    {
        let Span { start, end } = shared.span;
        self.take_alone(task, &slice[0..start])?;
        self.take_judged(task, &slice[start..end], &shared.lines)?;
        self.take_alone(task, &slice[end..slice.len()])
    }

    /// The offset just past the last byte that it has taken.
    pub fn end(&self) -> usize
        ensures { result ≡ self.now.lines.reader.start + self.now.lines.reader.count }
    {
        self.lines.end()
    }

    /// Takes a slice, some of whose lines the crew judges before that.
    pub fn take<R: Threads + Wait + Sync, G: Gate + Sync>(
        &mut self,
        crew: &Crew<'_, R, G>,
        task: &LinesTask,
        slice: &[u8],
        piece: usize,
    ) -> Result<(), AllocError>
        ensures { OnOk result ((bytes given : List ℕ) → HasTaken task.now bytes given self.old → HasTaken task.now (bytes ++ slice.now) given self.new) }
    {
        if slice.len() > usize::MAX - self.end() {
            return Err(AllocError);
        }
        match judge_batch(crew, slice, task.settings.depth, piece.max(1)) {
            None => self.take_alone(task, slice),
            Some(shared) => self.take_shared(task, slice, &shared),
        }
    }
}

impl Reporter<()> for LineTeller {
    ghost use Rattle.std.specs.Prelude.{[], ◌++◌};
    ghost use Rattle.jx_drive.specs.Reports.{DueOrWhole};
    ghost use Rattle.jx_ndjson_report.specs.Output.{IsDue, LinesOutput};
    ghost use Rattle.jx_ndjson_report.specs.inside.LineTeller.{HasTaken};

    type Task = LinesTask;

    ghost is_due = { λ task _ _. IsDue task };

    ghost is_begun = { λ task _ _. DueOrWhole (IsDue task) (LinesOutput task) };

    ghost is_output = { λ task _ _. LinesOutput task };

    ghost has_taken = { λ task _ _. HasTaken task };

    ghost has_ended = { λ task _ _ bytes given exit t. LinesOutput task bytes (given ++ t.ready) exit };

    ghost ready = { λ t. t.ready };

    ghost told = { λ _. [] };

    fn what_waits_is_due() {
        ended_lines_of_a_reader();
    }

    fn ready(&self) -> &[u8] {
        &self.ready
    }

    fn clear(&mut self, _beside: &mut ()) {
        self.ready.clear();
    }

    fn finish(&mut self, task: &LinesTask) -> Result<Exit, AllocError> {
        match self.lines.last_line() {
            None => add_end(&mut self.ready, task, self.good, self.bad),
            Some(judged) => {
                add_bad(&mut self.ready, task, judged)?;
                let good = counted(self.good, is_good(judged.verdict));
                let bad = counted(self.bad, is_bad(task.blanks, judged.verdict));
                add_end(&mut self.ready, task, good, bad)
            }
        }
    }
}
