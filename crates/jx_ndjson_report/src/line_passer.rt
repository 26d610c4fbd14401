// Lines that pass through while an input comes slice by slice, and the report on those that do not.
ghost use Rattle.std.specs.Prelude.{◌≡◌, ◌+◌, ◌<◌, ◌≤◌, ◌^◌, ◌++◌, ℕ, List, [], length, take, IfOk, OnOk};
ghost use Rattle.jx_ndjson_report.specs.Passed.{PassOutput};
ghost use Rattle.jx_ndjson_report.specs.inside.LinePasser.{HasPassed, kept_of, passed_bytes};

use crate::line_teller::LineTeller;
use crate::task::LinesTask;
use crate::words::is_good;
use jx_drive::Reporter;
use jx_ends::Exit;
use jx_ndjson::{JudgedLine, unique_answer};
use std::alloc::{AllocError, Global};
use std::marker::Model;

/// A reader of lines that hands on the accepted ones, and the report on the others. Both wait here to be written.
#[derive(Drop)]
pub(crate) struct LinePasser {
    teller: LineTeller,
    kept: Vec<u8>,
    ready: Vec<u8>,
}

impl Model for LinePasser {
    ghost use Rattle.jx_ndjson_report.specs.inside.LinePasser.{LinePasserValue};

    ghost Value = { LinePasserValue };

    ghost view = { λ p. record { teller = p.teller; kept = p.kept.items; ready = p.ready.items } };
}

impl LinePasser {
    /// A passer that has taken no byte. Nothing is allocated.
    pub fn new(alloc: Global, task: &LinesTask) -> LinePasser
        ensures taken { HasPassed task.now [] [] [] result }
        ensures ready { result.ready ≡ [] }
        ensures told { result.teller.ready ≡ [] }
    {
        LinePasser {
            teller: LineTeller::new(alloc, task),
            kept: Vec::new(alloc),
            ready: Vec::new(alloc),
        }
    }

    /// The offset just past the last byte that it has taken.
    pub fn end(&self) -> usize
        ensures { result ≡ self.now.teller.lines.reader.start + self.now.teller.lines.reader.count }
    {
        self.teller.end()
    }

    /// Passes a line that ended with these bytes, if one did and it is accepted.
    fn pass(&mut self, line: Option<JudgedLine>, chunk: &[u8]) -> Result<(), AllocError>
        ensures teller { self.new.teller ≡ self.old.teller }
        ensures kept { self.new.kept ≡ self.old.kept }
        ensures ready { OnOk result (self.new.ready ≡ self.old.ready ++ passed_bytes line (self.old.kept ++ chunk.now)) }
    {
        match line {
            Some(judged) if is_good(judged.verdict) => {
                self.ready.extend_from_slice(&self.kept)?;
                self.ready.extend_from_slice(chunk)
            }
            _ => Ok(()),
        }
    }

    /// Keeps these bytes if the line that goes on has them, and no byte of a line that ended.
    fn keep(&mut self, chunk: &[u8]) -> Result<(), AllocError>
        ensures teller { self.new.teller ≡ self.old.teller }
        ensures ready { self.new.ready ≡ self.old.ready }
        ensures kept { OnOk result (self.new.kept ≡ kept_of self.old.teller.lines.reader.count (self.old.kept ++ chunk.now)) }
    {
        if self.teller.open_len() == 0 {
            self.kept.clear();
            return Ok(());
        }
        self.kept.extend_from_slice(chunk)
    }

    /// Takes lines in front of a slice that are texts, where it stands between two lines, and passes them at once. Answers how
    /// many bytes those are.
    fn take_texts(&mut self, task: &LinesTask, slice: &[u8]) -> Result<usize, AllocError>
        requires fits { self.old.teller.lines.reader.start + self.old.teller.lines.reader.count + length slice.now < 2 ^ 64 }
        ensures within { IfOk result (λ taken. taken ≤ length slice.now) }
        ensures taken { IfOk result (λ taken. (bytes given said : List ℕ) → HasPassed task.now bytes given said self.old → HasPassed task.now (bytes ++ take taken slice.now) given said self.new) }
        ensures count { IfOk result (λ taken. self.new.teller.lines.reader.start + self.new.teller.lines.reader.count ≡ self.old.teller.lines.reader.start + self.old.teller.lines.reader.count + taken) }
    {
        let taken = self.teller.take_texts(task, slice)?;
        self.ready.extend_from_slice(&slice[..taken])?;
        Ok(taken)
    }

    /// Takes a slice up to and with its first line feed, or less, and answers how many bytes those are.
    fn take_line(&mut self, task: &LinesTask, slice: &[u8]) -> Result<usize, AllocError>
        requires fits { self.old.teller.lines.reader.start + self.old.teller.lines.reader.count + length slice.now < 2 ^ 64 }
        ensures within { IfOk result (λ taken. taken ≤ length slice.now) }
        ensures some { IfOk result (λ taken. 0 < length slice.now → 0 < taken) }
        ensures taken { IfOk result (λ taken. (bytes given said : List ℕ) → HasPassed task.now bytes given said self.old → HasPassed task.now (bytes ++ take taken slice.now) given said self.new) }
        ensures count { IfOk result (λ taken. self.new.teller.lines.reader.start + self.new.teller.lines.reader.count ≡ self.old.teller.lines.reader.start + self.old.teller.lines.reader.count + taken) }
    {
        let step = self.teller.read_line(task, slice)?;
        let chunk = &slice[..step.taken];
        self.pass(step.line, chunk)?;
        self.keep(chunk)?;
        Ok(step.taken)
    }

    /// Takes lines in front of a slice that are texts, and what follows them up to and with the next line feed, or
    /// less. Answers how many bytes those are.
    fn take_step(&mut self, task: &LinesTask, slice: &[u8]) -> Result<usize, AllocError>
        requires fits { self.old.teller.lines.reader.start + self.old.teller.lines.reader.count + length slice.now < 2 ^ 64 }
        ensures within { IfOk result (λ taken. taken ≤ length slice.now) }
        ensures some { IfOk result (λ taken. 0 < length slice.now → 0 < taken) }
        ensures taken { IfOk result (λ taken. (bytes given said : List ℕ) → HasPassed task.now bytes given said self.old → HasPassed task.now (bytes ++ take taken slice.now) given said self.new) }
        ensures count { IfOk result (λ taken. self.new.teller.lines.reader.start + self.new.teller.lines.reader.count ≡ self.old.teller.lines.reader.start + self.old.teller.lines.reader.count + taken) }
    {
        let passed = self.take_texts(task, slice)?;
        let taken = self.take_line(task, &slice[passed..])?;
        Ok(passed + taken)
    }

    /// Takes a slice after all bytes that it has taken. Fails only when out of memory.
    pub fn feed(&mut self, task: &LinesTask, slice: &[u8]) -> Result<(), AllocError>
        requires { self.old.teller.lines.reader.start + self.old.teller.lines.reader.count + length slice.now < 2 ^ 64 }
        ensures { OnOk result ((bytes given said : List ℕ) → HasPassed task.now bytes given said self.old → HasPassed task.now (bytes ++ slice.now) given said self.new) }
    {
        let mut at = 0;
        while at < slice.len() {
            at += self.take_step(task, &slice[at..])?;
        }
        Ok(())
    }

    /// The lines that wait to be passed.
    pub fn ready(&self) -> &[u8]
        ensures { result.now ≡ self.now.ready }
    {
        &self.ready
    }

    /// The report that waits.
    pub fn told(&self) -> &[u8]
        ensures { result.now ≡ self.now.teller.ready }
    {
        self.teller.ready()
    }

    /// Lets what waits go, which was written.
    pub fn clear(&mut self)
        ensures ready { self.new.ready ≡ [] }
        ensures told { self.new.teller.ready ≡ [] }
        ensures taken { (task : LinesTask) (bytes given said : List ℕ) → HasPassed task bytes given said self.old → HasPassed task bytes (given ++ self.old.ready) (said ++ self.old.teller.ready) self.new }
    {
        self.ready.clear();
        self.teller.clear();
    }

    /// Takes the end of the input: what waits then is the rest of what passes, and of the report.
    pub fn finish(&mut self, task: &LinesTask) -> Result<Exit, AllocError>
        ensures { IfOk result (λ exit. (bytes given said : List ℕ) → HasPassed task.now bytes given said self.old
            → PassOutput task.now bytes (given ++ self.new.ready) (said ++ self.new.teller.ready) exit) }
    {
        unique_answer();
        let last = self.teller.last_line();
        let exit = self.teller.finish(task)?;
        self.pass(last, &[])?;
        Ok(exit)
    }
}
