// The refused lines of a document, by the lines of it that were read before.
ghost use Rattle.std.specs.Prelude.{◌≡◌, ◌≤◌, ◌<◌, ◌+◌, ◌++◌, ◌^◌, [], ℕ, List, false, length, map, take, IfOk, OnOk};
ghost use Rattle.jx_ndjson.specs.Reading.{listed};
ghost use Rattle.jx_ndjson.specs.Tally.{bad_of, is_accepted};
ghost use Rattle.jx_ndjson.specs.WholeLines.{moved_line};
ghost use Rattle.jx_run.specs.declared.texts.settings.Settings.{Settings};
ghost use Rattle.jx_serve.specs.inside.BadLines.{AreBadLines};
ghost use Rattle.jx_serve.specs.inside.LineTables.{len_of, AreLinesOf, HasBad, IsTable};

use crate::line_table::LineTable;
use jx_edit::Document;
use jx_ndjson::{JudgedLine, LineReader, LineVerdict, WholeLines};
use jx_run::Settings;
use std::alloc::{AllocError, Global};

/// A reader of the lines of a document, and the refused ones that it has read.
#[derive(Drop)]
struct BadLines {
    reader: LineReader,
    bad: Vec<JudgedLine>,
}

/// Whether a line is a text.
fn is_accepted(verdict: LineVerdict) -> bool
    ensures { result ≡ is_accepted verdict }
{
    match verdict {
        LineVerdict::Accepted => true,
        LineVerdict::Refused(_) | LineVerdict::MayBeCut | LineVerdict::Blank => false,
    }
}

/// Adds a line, if there is one and it is refused.
fn add_line(bad: &mut Vec<JudgedLine>, line: Option<JudgedLine>) -> Result<(), AllocError>
    ensures { OnOk result (bad.new.items ≡ bad.old.items ++ bad_of (listed line)) }
{
    match line {
        Some(line) if !is_accepted(line.verdict) => {
            bad.push(line)?;
            Ok(())
        }
        _ => Ok(()),
    }
}

/// Adds lines, after so many others, which have so many bytes.
fn add_behind(
    bad: &mut Vec<JudgedLine>,
    more: &[JudgedLine],
    lines: usize,
    bytes: usize,
) -> Result<(), AllocError>
    ensures { OnOk result (bad.new.items ≡ bad.old.items ++ map (moved_line lines bytes) more.now) }
{
    for line in more {
        bad.push(line.behind(lines, bytes))?;
    }
    Ok(())
}

impl BadLines {
    /// No byte is read.
    fn new(alloc: Global, settings: &Settings) -> BadLines
        ensures bad { HasBad settings.now [] result.bad.items result.reader }
        ensures start { result.reader.reader.start + result.reader.reader.count ≡ 0 }
    {
        BadLines {
            reader: LineReader::new(alloc, settings),
            bad: Vec::new(alloc),
        }
    }

    /// Takes lines that were read before.
    fn take_block(&mut self, block: &WholeLines) -> Result<(), AllocError>
        requires in_front { self.old.reader.in_front ≡ false }
        requires between { self.old.reader.reader.count ≡ 0 }
        requires fits { self.old.reader.reader.start + block.now.len < 2 ^ 64 }
        ensures bad { OnOk result ((settings : Settings) (input bytes : List ℕ) → AreLinesOf settings.depth bytes block.now → HasBad settings input self.old.bad.items self.old.reader
            → HasBad settings (input ++ bytes) self.new.bad.items self.new.reader) }
        ensures end { OnOk result (self.new.reader.reader.start + self.new.reader.reader.count ≡ self.old.reader.reader.start + block.now.len) }
    {
        let lines = self.reader.ended();
        let bytes = self.reader.end();
        add_behind(&mut self.bad, block.bad(), lines, bytes)?;
        self.reader.pass(block);
        Ok(())
    }

    /// Takes bytes up to and with the next line feed, or fewer.
    fn take_line(&mut self, piece: &[u8]) -> Result<usize, AllocError>
        requires { self.old.reader.reader.start + self.old.reader.reader.count + length piece.now < 2 ^ 64 }
        ensures within { IfOk result (λ taken. taken ≤ length piece.now) }
        ensures some { IfOk result (λ taken. 0 < length piece.now → 0 < taken) }
        ensures bad { IfOk result (λ taken. (settings : Settings) (input : List ℕ) → HasBad settings input self.old.bad.items self.old.reader
            → HasBad settings (input ++ take taken piece.now) self.new.bad.items self.new.reader) }
        ensures end { IfOk result (λ taken. self.new.reader.reader.start + self.new.reader.reader.count ≡ self.old.reader.reader.start + self.old.reader.reader.count + taken) }
    {
        let step = self.reader.feed(piece)?;
        add_line(&mut self.bad, step.line)?;
        Ok(step.taken)
    }

    /// Takes the bytes of a document up to an offset.
    fn take_bytes(&mut self, document: &Document, to: usize) -> Result<(), AllocError>
        requires within { to ≤ length document.now.bytes }
        requires before { self.old.reader.reader.start + self.old.reader.reader.count ≤ to }
        ensures bad { OnOk result ((settings : Settings) → HasBad settings (take (self.old.reader.reader.start + self.old.reader.reader.count) document.now.bytes) self.old.bad.items self.old.reader
            → HasBad settings (take to document.now.bytes) self.new.bad.items self.new.reader) }
        ensures end { OnOk result (self.new.reader.reader.start + self.new.reader.reader.count ≡ to) }
    {
        // No sum of offsets wraps: so many bytes there are.
        let _len = document.len();
        let mut at = self.reader.end();
        while at < to {
            let piece = document.chunk_at(at);
            let near = piece.len().min(to - at);
            at += self.take_line(&piece[..near])?;
        }
        Ok(())
    }

    /// Takes lines of a document that were read before, or reads them, where a byte order mark may stand in front of them.
    fn take(&mut self, document: &Document, block: &WholeLines) -> Result<(), AllocError>
        requires { self.old.reader.reader.start + self.old.reader.reader.count + block.now.len ≤ length document.now.bytes }
        ensures bad { OnOk result ((settings : Settings) (bytes : List ℕ) → AreLinesOf settings.depth bytes block.now
            → HasBad settings (take (self.old.reader.reader.start + self.old.reader.reader.count) document.now.bytes) self.old.bad.items self.old.reader
            → take (self.old.reader.reader.start + self.old.reader.reader.count + block.now.len) document.now.bytes ≡ take (self.old.reader.reader.start + self.old.reader.reader.count) document.now.bytes ++ bytes
            → HasBad settings (take (self.old.reader.reader.start + self.old.reader.reader.count + block.now.len) document.now.bytes) self.new.bad.items self.new.reader) }
        ensures end { OnOk result (self.new.reader.reader.start + self.new.reader.reader.count ≡ self.old.reader.reader.start + self.old.reader.reader.count + block.now.len) }
    {
        let _len = document.len();
        if self.reader.is_between() {
            self.take_block(block)
        } else {
            let to = self.reader.end() + block.len();
            self.take_bytes(document, to)
        }
    }

    /// The lines, if the document ends here.
    fn at_end(mut self) -> Result<Vec<JudgedLine>, AllocError>
        ensures { IfOk result (λ bad. (settings : Settings) (input : List ℕ) → HasBad settings input self.bad.items self.reader → AreBadLines settings input bad.items) }
    {
        add_line(&mut self.bad, self.reader.last_line())?;
        Ok(self.bad)
    }
}

/// The reader after the blocks with which a document begins.
fn read_blocks(
    alloc: Global,
    document: &Document,
    table: &LineTable,
    settings: &Settings,
) -> Result<BadLines, AllocError>
    requires { IsTable settings.now.depth document.now.bytes table.now }
    ensures bad { IfOk result (λ lines. HasBad settings.now (take table.now.before document.now.bytes) lines.bad.items lines.reader) }
    ensures end { IfOk result (λ lines. lines.reader.reader.start + lines.reader.reader.count ≡ table.now.before) }
{
    let mut lines = BadLines::new(alloc, settings);
    for block in &table.front {
        lines.take(document, block)?;
    }
    Ok(lines)
}

/// The refused lines of a document, in order. Those that were read before are not read again.
pub(crate) fn bad_lines(
    alloc: Global,
    document: &Document,
    table: &LineTable,
    settings: &Settings,
) -> Result<Vec<JudgedLine>, AllocError>
    requires { IsTable settings.now.depth document.now.bytes table.now }
    ensures { IfOk result (λ bad. AreBadLines settings.now document.now.bytes bad.items) }
{
    let mut lines = read_blocks(alloc, document, table, settings)?;
    lines.take_bytes(document, document.len())?;
    let bad = lines.at_end()?;
    Ok(bad)
}
