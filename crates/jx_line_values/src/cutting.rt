// The values of lines of an input that comes slice by slice.
ghost use Rattle.std.specs.Prelude.{◌≡◌, ◌<◌, ◌≤◌, ◌++◌, ◌∷◌, ℕ, List, [], true, IfOk, OnOk, length, take};
ghost use Rattle.jx_find.specs.PointerTrie.{IsTrieOf};
ghost use Rattle.jx_ndjson.specs.Lines.{mark_length};
ghost use Rattle.jx_ndjson.specs.inside.Steps.{HasNoLineFeed};
ghost use Rattle.jx_line_values.specs.declared.task.LineValuesTask.{LineValuesTask};
ghost use Rattle.jx_line_values.specs.LineValues.{LineValuesOutput, pointers_of};
ghost use Rattle.jx_line_values.specs.inside.Cutting.{HasTaken, bare_bytes, line_bytes, line_mark};
ghost use Rattle.jx_line_values.specs.inside.RowsPart.{ArePlain};

use crate::answering::{LineInFront, add_line};
use crate::task::LineValuesTask;
use crate::telling::exit_past;
use jx_ends::Exit;
use jx_find::{Findings, PointerTrie};
use jx_run::{Front, FrontMark, front};
use memchr::memchr;
use std::alloc::{AllocError, Global};
use std::marker::Model;

/// How many bytes a byte order mark in front of a line takes, where it is ignored.
fn mark_length(mark: FrontMark, line: &[u8]) -> usize
    ensures value { result ≡ mark_length mark line.now }
    ensures within { result ≤ length line.now }
{
    match front(line, mark) {
        Front::Skip(count) => count,
        Front::Refused(_) => 0,
    }
}

/// The first line, without a byte order mark in front where it is ignored.
fn bare_line(mark: FrontMark, line: &[u8]) -> &[u8]
    ensures { result.now ≡ bare_bytes mark line.now }
{
    let count = mark_length(mark, line);
    &line[count..]
}

/// A line after so many others.
fn line_at(mark: FrontMark, ended: usize, line: &[u8]) -> &[u8]
    ensures { result.now ≡ line_bytes mark ended line.now }
{
    if ended == 0 {
        bare_line(mark, line)
    } else {
        line
    }
}

/// The rule on a byte order mark that it begins with then.
fn line_mark(mark: FrontMark, ended: usize, line: &[u8]) -> FrontMark
    ensures { result ≡ line_mark mark ended line.now }
{
    if ended == 0 && mark_length(mark, line) == 0 {
        mark
    } else {
        FrontMark::Refused
    }
}

/// The line that goes on, and what waits to be written and told for those that a line feed has ended.
#[derive(Drop)]
pub(crate) struct LineCutter {
    kept: Vec<u8>,
    ended: usize,
    ready: Vec<u8>,
    told: Vec<u8>,
    exit: Exit,
    /// Room for the text of a value.
    text: Vec<u8>,
    findings: Findings,
}

impl Model for LineCutter {
    ghost use Rattle.jx_line_values.specs.inside.Cutting.{CutterValue};

    ghost Value = { CutterValue };

    ghost view = { λ t. record { kept = t.kept.items; ended = t.ended; ready = t.ready.items; told = t.told.items; exit = t.exit } };
}

impl LineCutter {
    /// A cutter that has taken no byte. Nothing is allocated.
    pub fn new(alloc: Global) -> LineCutter
        ensures taken { (task : LineValuesTask) → HasTaken task [] [] [] result }
        ensures ready { result.ready ≡ [] }
        ensures told { result.told ≡ [] }
    {
        LineCutter {
            kept: Vec::new(alloc),
            ended: 0,
            ready: Vec::new(alloc),
            told: Vec::new(alloc),
            exit: Exit::Good,
            text: Vec::new(alloc),
            findings: Findings::new(alloc),
        }
    }

    /// Ends the line that goes on by a line feed. It is also out of memory where its number would be too large.
    fn end_line(
        &mut self,
        alloc: Global,
        task: &LineValuesTask,
        trie: &PointerTrie,
    ) -> Result<(), AllocError>
        requires { IsTrieOf (pointers_of task.now) trie.now }
        ensures { OnOk result ((bytes given said : List ℕ) → HasTaken task.now bytes given said self.old → HasTaken task.now (bytes ++ 0x0a ∷ []) given said self.new) }
    {
        if self.ended == usize::MAX {
            return Err(AllocError);
        }
        let line = line_at(task.settings.mark, self.ended, &self.kept);
        let mark = line_mark(task.settings.mark, self.ended, &self.kept);
        add_line(
            alloc,
            &mut self.ready,
            &mut self.told,
            &mut self.text,
            &mut self.findings,
            task,
            trie,
            LineInFront {
                number: self.ended + 1,
                slice: line,
                len: line.len(),
                is_ended: true,
                mark,
            },
        )?;
        self.ended += 1;
        self.kept.clear();
        Ok(())
    }

    /// Takes a whole line in front of a slice, and the line feed that ends it, after another line. Memory is
    /// refused too where its number would be too large.
    fn take_line(
        &mut self,
        alloc: Global,
        task: &LineValuesTask,
        trie: &PointerTrie,
        slice: &[u8],
        len: usize,
    ) -> Result<(), AllocError>
        requires trie { IsTrieOf (pointers_of task.now) trie.now }
        requires within { len ≤ length slice.now }
        requires line { HasNoLineFeed (take len slice.now) }
        requires behind { 0 < self.old.ended }
        requires none_kept { length self.old.kept ≡ 0 }
        ensures { OnOk result ((bytes given said : List ℕ) → HasTaken task.now bytes given said self.old → HasTaken task.now ((bytes ++ take len slice.now) ++ 0x0a ∷ []) given said self.new) }
    {
        if self.ended == usize::MAX {
            return Err(AllocError);
        }
        add_line(
            alloc,
            &mut self.ready,
            &mut self.told,
            &mut self.text,
            &mut self.findings,
            task,
            trie,
            LineInFront {
                number: self.ended + 1,
                slice,
                len,
                is_ended: true,
                mark: FrontMark::Refused,
            },
        )?;
        self.ended += 1;
        Ok(())
    }

    /// Keeps bytes of the line that goes on.
    fn keep(&mut self, bytes: &[u8]) -> Result<(), AllocError>
        requires { HasNoLineFeed bytes.now }
        ensures { OnOk result ((task : LineValuesTask) (before given said : List ℕ) → HasTaken task before given said self.old → HasTaken task (before ++ bytes.now) given said self.new) }
    {
        self.kept.extend_from_slice(bytes)
    }

    /// Takes the bytes in front of a slice and the line feed behind them. A line that stands there whole is read there.
    fn take_fed(
        &mut self,
        alloc: Global,
        task: &LineValuesTask,
        trie: &PointerTrie,
        slice: &[u8],
        len: usize,
    ) -> Result<(), AllocError>
        requires trie { IsTrieOf (pointers_of task.now) trie.now }
        requires within { len ≤ length slice.now }
        requires line { HasNoLineFeed (take len slice.now) }
        ensures { OnOk result ((bytes given said : List ℕ) → HasTaken task.now bytes given said self.old → HasTaken task.now ((bytes ++ take len slice.now) ++ 0x0a ∷ []) given said self.new) }
    {
        if self.ended > 0 && self.kept.is_empty() {
            return self.take_line(alloc, task, trie, slice, len);
        }
        self.keep(&slice[..len])?;
        self.end_line(alloc, task, trie)
    }

    /// Takes a slice up to and with its first line feed, or all of it, and answers how many bytes those are.
    fn take_step(
        &mut self,
        alloc: Global,
        task: &LineValuesTask,
        trie: &PointerTrie,
        slice: &[u8],
    ) -> Result<usize, AllocError>
        requires { IsTrieOf (pointers_of task.now) trie.now }
        ensures within { IfOk result (λ taken. taken ≤ length slice.now) }
        ensures some { IfOk result (λ taken. 0 < length slice.now → 0 < taken) }
        ensures taken { IfOk result (λ taken. (bytes given said : List ℕ) → HasTaken task.now bytes given said self.old → HasTaken task.now (bytes ++ take taken slice.now) given said self.new) }
    {
        match memchr(b'\n', slice) {
            None => {
                self.keep(slice)?;
                Ok(slice.len())
            }
            Some(at) => {
                self.take_fed(alloc, task, trie, slice, at)?;
                Ok(at + 1)
            }
        }
    }

    /// Takes a slice after all bytes that it has taken. Fails only when out of memory.
    pub fn feed(
        &mut self,
        alloc: Global,
        task: &LineValuesTask,
        trie: &PointerTrie,
        slice: &[u8],
    ) -> Result<(), AllocError>
        requires { IsTrieOf (pointers_of task.now) trie.now }
        ensures { OnOk result ((bytes given said : List ℕ) → HasTaken task.now bytes given said self.old → HasTaken task.now (bytes ++ slice.now) given said self.new) }
    {
        let mut at = 0;
        while at < slice.len() {
            at += self.take_step(alloc, task, trie, &slice[at..])?;
        }
        Ok(())
    }

    /// Whether no line goes on, and a line feed has ended one.
    pub fn is_between(&self) -> bool
        ensures behind { result ≡ true → 0 < self.now.ended }
        ensures none_kept { result ≡ true → length self.now.kept ≡ 0 }
    {
        self.ended > 0 && self.kept.is_empty()
    }

    /// Takes the rows of so many lines without a message. It is also out of memory where a line goes on or none has ended, and
    /// where a number would be too large.
    pub fn take_rows(&mut self, count: usize, rows: &[u8]) -> Result<(), AllocError>
        ensures { OnOk result ((task : LineValuesTask) (bytes ys given said : List ℕ) → ArePlain task ys count rows.now → HasTaken task bytes given said self.old → HasTaken task (bytes ++ ys) given said self.new) }
    {
        if !self.is_between() {
            return Err(AllocError);
        }
        if count > usize::MAX - self.ended {
            return Err(AllocError);
        }
        self.ready.extend_from_slice(rows)?;
        self.ended += count;
        Ok(())
    }

    /// How many bytes wait, of the output and of the messages.
    pub fn waiting(&self) -> usize {
        self.ready.len().saturating_add(self.told.len())
    }

    /// The bytes that wait to be written.
    pub fn ready(&self) -> &[u8]
        ensures { result.now ≡ self.now.ready }
    {
        &self.ready
    }

    /// The messages that wait.
    pub fn told(&self) -> &[u8]
        ensures { result.now ≡ self.now.told }
    {
        &self.told
    }

    /// Lets what waits go, which was written and reported.
    pub fn clear(&mut self)
        ensures ready { self.new.ready ≡ [] }
        ensures told { self.new.told ≡ [] }
        ensures taken { (task : LineValuesTask) (bytes given said : List ℕ) → HasTaken task bytes given said self.old → HasTaken task bytes (given ++ self.old.ready) (said ++ self.old.told) self.new }
    {
        self.exit = exit_past(self.exit, &self.told);
        self.ready.clear();
        self.told.clear();
    }

    /// Takes the end of the input: what waits then is the rest of what is written and told.
    pub fn finish(
        &mut self,
        alloc: Global,
        task: &LineValuesTask,
        trie: &PointerTrie,
    ) -> Result<Exit, AllocError>
        requires { IsTrieOf (pointers_of task.now) trie.now }
        ensures { IfOk result (λ exit. (bytes given said : List ℕ) → HasTaken task.now bytes given said self.old
            → LineValuesOutput task.now bytes (given ++ self.new.ready) (said ++ self.new.told) exit) }
    {
        if self.ended == usize::MAX {
            return Err(AllocError);
        }
        let line = line_at(task.settings.mark, self.ended, &self.kept);
        let mark = line_mark(task.settings.mark, self.ended, &self.kept);
        if line.is_empty() {
            return Ok(exit_past(self.exit, &self.told));
        }
        add_line(
            alloc,
            &mut self.ready,
            &mut self.told,
            &mut self.text,
            &mut self.findings,
            task,
            trie,
            LineInFront {
                number: self.ended + 1,
                slice: line,
                len: line.len(),
                is_ended: false,
                mark,
            },
        )?;
        Ok(exit_past(self.exit, &self.told))
    }
}
