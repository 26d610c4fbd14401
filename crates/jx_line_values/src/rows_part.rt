// The rows of part of an input, which a worker makes without what is before it.
ghost use Rattle.std.specs.Prelude.{◌≡◌, ◌<◌, ◌≤◌, ◌+◌, ◌++◌, ◌∷◌, ℕ, List, [], true, IfOk, IfSome, OnOk, length, take};
ghost use Rattle.jx_find.specs.PointerTrie.{IsTrieOf};
ghost use Rattle.jx_ndjson.specs.inside.Steps.{HasNoLineFeed};
ghost use Rattle.jx_line_values.specs.declared.task.LineValuesTask.{LineValuesTask};
ghost use Rattle.jx_line_values.specs.LineValues.{pointers_of};
ghost use Rattle.jx_line_values.specs.inside.RowsPart.{IsPlainLine, IsRowsPart};

use crate::answering::{LineInFront, add_line};
use crate::task::LineValuesTask;
use jx_find::{Findings, PointerTrie};
use jx_run::FrontMark;
use memchr::memchr;
use std::alloc::{AllocError, Global};
use std::mem::replace;

/// Whether there is no byte.
fn are_none(bytes: &[u8]) -> bool
    ensures { result ≡ true → length bytes.now ≡ 0 }
{
    bytes.is_empty()
}

/// Lines without a message, and a line behind them which has one.
#[derive(Debug, Drop)]
pub(crate) struct Turn {
    /// How many lines have no message, and their rows.
    pub count: usize,
    pub rows: Vec<u8>,
    /// The line with one, and its line feed. It is read again where its number is known.
    pub line: Vec<u8>,
}

/// The rows of whole lines, which do not depend on the lines before.
#[derive(Debug, Drop)]
pub(crate) struct RowsPart {
    pub turns: Vec<Turn>,
    /// How many lines follow the last turn, and their rows.
    pub count: usize,
    pub rows: Vec<u8>,
}

/// Room for the row of one line, the messages on it, and the text of a value.
#[derive(Drop)]
struct RowMaker {
    row: Vec<u8>,
    told: Vec<u8>,
    text: Vec<u8>,
    findings: Findings,
}

impl RowMaker {
    /// Nothing is allocated.
    fn new(alloc: Global) -> RowMaker {
        RowMaker {
            row: Vec::new(alloc),
            told: Vec::new(alloc),
            text: Vec::new(alloc),
            findings: Findings::new(alloc),
        }
    }

    /// Makes the row of a line in front of a slice, and answers whether no message is on the line.
    fn is_plain(
        &mut self,
        alloc: Global,
        task: &LineValuesTask,
        trie: &PointerTrie,
        slice: &[u8],
        len: usize,
    ) -> Result<bool, AllocError>
        requires trie { IsTrieOf (pointers_of task.now) trie.now }
        requires within { len ≤ length slice.now }
        ensures { IfOk result (λ is. is ≡ true → IsPlainLine task.now (take len slice.now) self.new.row.items) }
    {
        self.row.clear();
        self.told.clear();
        add_line(
            alloc,
            &mut self.row,
            &mut self.told,
            &mut self.text,
            &mut self.findings,
            task,
            trie,
            LineInFront {
                number: 1,
                slice,
                len,
                is_ended: true,
                mark: FrontMark::Refused,
            },
        )?;
        Ok(are_none(&self.told))
    }
}

impl RowsPart {
    /// The rows of no line. Nothing is allocated.
    fn new(alloc: Global) -> RowsPart
        ensures { (task : LineValuesTask) → IsRowsPart task [] result }
    {
        RowsPart {
            turns: Vec::new(alloc),
            count: 0,
            rows: Vec::new(alloc),
        }
    }

    /// Adds the row of a line that has no message.
    fn add_row(&mut self, row: &[u8]) -> Result<(), AllocError>
        ensures { OnOk result ((task : LineValuesTask) (bytes line : List ℕ) → HasNoLineFeed line → IsPlainLine task line row.now → IsRowsPart task bytes self.old
            → IsRowsPart task ((bytes ++ line) ++ 0x0a ∷ []) self.new) }
    {
        if self.count == usize::MAX {
            return Err(AllocError);
        }
        self.rows.extend_from_slice(row)?;
        self.count += 1;
        Ok(())
    }

    /// Adds bytes that are read again.
    fn add_turn(&mut self, alloc: Global, bytes: &[u8]) -> Result<(), AllocError>
        ensures { OnOk result ((task : LineValuesTask) (before : List ℕ) → IsRowsPart task before self.old → IsRowsPart task (before ++ bytes.now) self.new) }
    {
        let mut line = Vec::new(alloc);
        line.extend_from_slice(bytes)?;
        let rows = replace(&mut self.rows, Vec::new(alloc));
        let count = replace(&mut self.count, 0);
        self.turns.push(Turn { count, rows, line })?;
        Ok(())
    }

    /// Adds a line in front of a slice, behind which a line feed stands.
    fn add_line(
        &mut self,
        alloc: Global,
        maker: &mut RowMaker,
        task: &LineValuesTask,
        trie: &PointerTrie,
        slice: &[u8],
        len: usize,
    ) -> Result<(), AllocError>
        requires trie { IsTrieOf (pointers_of task.now) trie.now }
        requires within { len < length slice.now }
        requires line { HasNoLineFeed (take len slice.now) }
        requires ended { (bytes : List ℕ) → (bytes ++ take len slice.now) ++ 0x0a ∷ [] ≡ bytes ++ take (len + 1) slice.now }
        ensures { OnOk result ((bytes : List ℕ) → IsRowsPart task.now bytes self.old → IsRowsPart task.now (bytes ++ take (len + 1) slice.now) self.new) }
    {
        if maker.is_plain(alloc, task, trie, slice, len)? {
            self.add_row(&maker.row)
        } else {
            self.add_turn(alloc, &slice[..len + 1])
        }
    }

    /// Adds the line in front of a slice up to and with its first line feed, and answers how many bytes those are; none where
    /// there is no line feed.
    fn add_step(
        &mut self,
        alloc: Global,
        maker: &mut RowMaker,
        task: &LineValuesTask,
        trie: &PointerTrie,
        slice: &[u8],
    ) -> Result<Option<usize>, AllocError>
        requires { IsTrieOf (pointers_of task.now) trie.now }
        ensures within { IfOk result (λ step. IfSome step (λ taken. taken ≤ length slice.now)) }
        ensures some { IfOk result (λ step. IfSome step (λ taken. 0 < taken)) }
        ensures taken { IfOk result (λ step. IfSome step (λ taken. (bytes : List ℕ) → IsRowsPart task.now bytes self.old → IsRowsPart task.now (bytes ++ take taken slice.now) self.new)) }
    {
        match memchr(b'\n', slice) {
            None => Ok(None),
            Some(at) => {
                self.add_line(alloc, maker, task, trie, slice, at)?;
                Ok(Some(at + 1))
            }
        }
    }

    /// Whether more of it is kept than of so many lines with messages, or of so many bytes of rows.
    fn is_great(&self, turns: usize, rows: usize) -> bool {
        self.turns.len() > turns || self.rows.len() > rows
    }
}

/// The rows of lines that line feeds end. None where the last byte is no line feed. None too where more than so many lines
/// have messages, or rows between two such lines have more than so many bytes: it keeps no more of them.
pub(crate) fn rows_of_part(
    alloc: Global,
    task: &LineValuesTask,
    trie: &PointerTrie,
    lines: &[u8],
    turns: usize,
    rows: usize,
) -> Result<Option<RowsPart>, AllocError>
    requires { IsTrieOf (pointers_of task.now) trie.now }
    ensures { IfOk result (λ part. IfSome part (IsRowsPart task.now lines.now)) }
{
    let mut part = RowsPart::new(alloc);
    let mut maker = RowMaker::new(alloc);
    let mut at = 0;
    while at < lines.len() {
        match part.add_step(alloc, &mut maker, task, trie, &lines[at..])? {
            None => return Ok(None),
            Some(count) => at += count,
        }
        if part.is_great(turns, rows) {
            return Ok(None);
        }
    }
    Ok(Some(part))
}
