// Whole lines of a document that were read. After an edit only those are read again that it touches.
ghost use Rattle.std.specs.Prelude.{◌≡◌, ◌≤◌, ◌<◌, ◌+◌, ◌-◌, ◌^◌, ℕ, List, length, take, true, IfOk, OnOk};
ghost use Rattle.jx_serve.specs.inside.LineTables.{len_of, IsBlockAt, IsLaid, IsTable};

use crate::line_block::block_at;
use jx_edit::Document;
use jx_lex::Depth;
use jx_ndjson::WholeLines;
use std::alloc::{AllocError, Global};

/// Whole lines of a document, in blocks: those with which it begins, and those after bytes that are to be read.
#[derive(Drop)]
pub struct LineTable {
    /// The blocks with which the bytes begin.
    pub(crate) front: Vec<WholeLines>,
    /// How many bytes those have.
    pub(crate) before: usize,
    /// The blocks after the bytes that are to be read.
    pub(crate) back: Vec<WholeLines>,
    /// How many bytes stand from the first of those on.
    pub(crate) behind: usize,
}

/// Blocks that end by an offset: how many there are, and how many bytes they have.
#[derive(Clone, Copy)]
struct Before {
    count: usize,
    bytes: usize,
}

/// The blocks that end by an offset.
fn blocks_before(blocks: &[WholeLines], offset: usize) -> Before
    ensures bytes { result.bytes ≡ len_of (take result.count blocks.now) }
    ensures count { result.count ≤ length blocks.now }
    ensures within { result.bytes ≤ offset }
{
    let mut left = offset;
    for count in 0..blocks.len() {
        let len = blocks[count].len();
        if left < len {
            return Before {
                count,
                bytes: offset - left,
            };
        }
        left -= len;
    }
    Before {
        count: blocks.len(),
        bytes: offset - left,
    }
}

impl LineTable {
    /// No line is read yet.
    pub(crate) fn new(alloc: Global) -> LineTable
        ensures { (limit : ℕ) (bytes : List ℕ) → IsTable limit bytes result }
    {
        LineTable {
            front: Vec::new(alloc),
            before: 0,
            back: Vec::new(alloc),
            behind: 0,
        }
    }

    /// Forgets the lines in front that do not end by an offset.
    fn cut(&mut self, offset: usize)
        ensures table { (limit : ℕ) (bytes : List ℕ) → IsLaid limit bytes self.old → IsTable limit bytes self.new }
        ensures before { self.new.before ≤ offset }
        ensures behind { self.new.behind ≡ self.old.behind }
    {
        let Before { count, bytes } = blocks_before(&self.front, offset);
        self.front.truncate(count);
        self.before = bytes;
    }

    /// Forgets the lines after the bytes that are to be read.
    fn forget_back(&mut self)
        ensures table { (limit : ℕ) (bytes : List ℕ) → IsTable limit bytes self.old → IsTable limit bytes self.new }
        ensures before { self.new.before ≡ self.old.before }
        ensures behind { self.new.behind ≡ 0 }
    {
        self.back.clear();
        self.behind = 0;
    }

    /// Puts the blocks in front from one on, which begins at an offset, after bytes that are to be read.
    fn put_back(&mut self, len: usize, count: usize, start: usize)
        requires alone { self.old.behind ≡ 0 }
        requires count { count ≤ length self.old.front.items }
        requires within { start ≤ len }
        ensures table { (limit : ℕ) (bytes : List ℕ) → length bytes ≡ len → start ≡ len_of (take count self.old.front.items) → IsTable limit bytes self.old → IsTable limit bytes self.new }
        ensures behind { self.new.behind ≤ len - start }
    {
        match self.front.split_off(count) {
            Ok(back) => {
                self.back = back;
                self.before = start;
                self.behind = len - start;
            }
            // They stay where they are.
            Err(AllocError) => {}
        }
    }

    /// Puts the blocks that begin after an offset after bytes that are to be read, unless there are such blocks.
    fn set_aside(&mut self, len: usize, end: usize)
        requires { end ≤ len }
        ensures table { (limit : ℕ) (bytes : List ℕ) → length bytes ≡ len → IsTable limit bytes self.old → IsTable limit bytes self.new }
        ensures behind { end + self.new.behind ≤ len }
    {
        if self.behind != 0 {
            if len < self.behind || len - self.behind < end {
                self.forget_back();
            }
            return;
        }
        let Before { count, bytes } = blocks_before(&self.front, end);
        if count + 1 < self.front.len() {
            let start = bytes.saturating_add(self.front[count].len());
            if end <= start && start <= len {
                self.put_back(len, count + 1, start);
            }
        }
    }

    /// Keeps the lines of a document of so many bytes that an edit of those between two offsets does not touch.
    pub(crate) fn open(&mut self, len: usize, start: usize, end: usize)
        requires { end ≤ len }
        ensures table { (limit : ℕ) (bytes : List ℕ) → length bytes ≡ len → IsTable limit bytes self.old → IsTable limit bytes self.new }
        ensures before { self.new.before ≤ start }
        ensures behind { end + self.new.behind ≤ len }
    {
        self.set_aside(len, end);
        self.cut(start);
    }

    /// Adds a block to those in front.
    fn take_in(&mut self, block: WholeLines) -> Result<(), AllocError>
        requires { self.old.before + block.len < 2 ^ 64 }
        ensures table { (limit : ℕ) (bytes : List ℕ) → IsBlockAt limit bytes self.old.before (length bytes - self.old.behind) block → IsTable limit bytes self.old → IsTable limit bytes self.new }
        ensures before { OnOk result (self.new.before ≡ self.old.before + block.len) }
        ensures behind { self.new.behind ≡ self.old.behind }
    {
        let len = block.len();
        self.front.push(block)?;
        self.before += len;
        Ok(())
    }

    /// Reads the next block after those in front, before an offset, and answers whether there is one.
    fn read_block(
        &mut self,
        alloc: Global,
        document: &Document,
        to: usize,
        depth: Depth,
    ) -> Result<bool, AllocError>
        requires order { self.old.before ≤ to }
        requires within { to ≤ length document.now.bytes }
        requires gap { to ≤ length document.now.bytes - self.old.behind }
        requires table { IsTable depth document.now.bytes self.old }
        ensures table { IsTable depth document.now.bytes self.new }
        ensures behind { self.new.behind ≡ self.old.behind }
        ensures within { IfOk result (λ _. self.new.before ≤ to) }
        ensures more { IfOk result (λ more. more ≡ true → self.old.before < self.new.before) }
    {
        // So many bytes there are.
        let _len = document.len();
        match block_at(alloc, document, self.before, to, depth) {
            Err(AllocError) => Err(AllocError),
            Ok(None) => Ok(false),
            Ok(Some(block)) => {
                self.take_in(block)?;
                Ok(true)
            }
        }
    }

    /// Reads the lines that stand between those that are known, up to the last line feed.
    fn read_gap(
        &mut self,
        alloc: Global,
        document: &Document,
        depth: Depth,
    ) -> Result<(), AllocError>
        requires { IsTable depth document.now.bytes self.old }
        ensures { IsTable depth document.now.bytes self.new }
    {
        let to = document.len().saturating_sub(self.behind);
        while self.before < to {
            if !self.read_block(alloc, document, to, depth)? {
                return Ok(());
            }
        }
        Ok(())
    }

    /// Adds the blocks after those bytes to those in front, where no byte stands between them.
    fn join(&mut self, len: usize) -> Result<(), AllocError>
        ensures table { (limit : ℕ) (bytes : List ℕ) → length bytes ≡ len → self.old.before + self.old.behind ≡ len → IsTable limit bytes self.old → IsTable limit bytes self.new }
    {
        self.front.append(&mut self.back)?;
        self.behind = 0;
        self.cut(len);
        Ok(())
    }

    /// Reads the lines of a document that are not known. The last one is not, where no line feed ends it.
    pub(crate) fn fill(
        &mut self,
        alloc: Global,
        document: &Document,
        depth: Depth,
    ) -> Result<(), AllocError>
        requires { IsTable depth document.now.bytes self.old }
        ensures { IsTable depth document.now.bytes self.new }
    {
        self.read_gap(alloc, document, depth)?;
        if self.behind == 0 {
            return Ok(());
        }
        let len = document.len();
        if self.before.saturating_add(self.behind) == len {
            return self.join(len);
        }
        self.forget_back();
        self.read_gap(alloc, document, depth)
    }
}
