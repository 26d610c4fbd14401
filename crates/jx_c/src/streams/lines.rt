// JSON Lines that come slice by slice. Each call takes the reader out of the caller's struct and puts it back. The calls of the
// C header have these names without `_non_null`, and answer null pointers.
ghost use Rattle.std.specs.Prelude.{◌≡◌, ◌⊎◌, ◌<◌, ◌≤◌, ◌+◌, ◌^◌, ◌++◌, [], ℕ, List, IfOk, None, Some, length};
ghost use Rattle.jx_run.specs.declared.texts.settings.Settings.{Settings};
ghost use Rattle.jx_ndjson.specs.declared.judged_line.JudgedLine.{JudgedLine};
ghost use Rattle.jx_ndjson.specs.Tally.{HasTaken, TallyValue};
ghost use Rattle.jx_c.specs.Buffers.{IsFilled};
ghost use Rattle.jx_c.specs.Lines.{IsEndOf, IsFed, IsNew, IsTaken, end_of, shown_counts, shown_last, shown_line, shown_line_verdict};
ghost use Rattle.jx_c.specs.Settings.{settings_in};

use crate::shapes::buffers::{Seen, fill};
use crate::shapes::places::{JxSpan, shown_span};
use crate::shapes::settings::{JxSettings, settings_in};
use crate::shapes::status::{
    DEPTH_TOO_GREAT, NO_LINES, NO_MEMORY, NO_ROOM, NO_UNIQUE_NAMES, OK, TOO_MANY_BYTES,
    UNKNOWN_FLAG,
};
use crate::shapes::unboxed::sent;
use crate::shapes::verdict::{JxVerdict, shown};
use crate::streams::held_lines::JxLines;
use jx_ndjson::{JudgedLine, LineCounts, LineTally, LineVerdict};
use jx_run::{NameRule, Settings, Verdict};
use std::alloc::{AllocError, Global};

/// It is a text that may be the beginning of a longer one.
const MAY_BE_CUT: u32 = 4;

/// It has no byte, or white space alone.
const BLANK: u32 = 7;

/// A line.
#[repr(C)]
#[derive(Clone, Copy)]
pub struct JxLine {
    /// Its place among the lines, from 1; 0 where there is no line.
    pub number: usize,
    /// Where it stands, without its line feed.
    pub span: JxSpan,
    /// Its verdict; offsets count from the input's start.
    pub verdict: JxVerdict,
}

/// How many lines there are.
#[repr(C)]
#[derive(Clone, Copy)]
pub struct JxLineCounts {
    /// Those that are texts.
    pub accepted: usize,
    /// Those that are not valid JSON, and those that may be cut.
    pub refused: usize,
    /// Those that have no byte, or white space alone.
    pub blank: usize,
}

/// The verdict on a line, as C sees it.
fn shown_line_verdict(verdict: LineVerdict) -> JxVerdict
    ensures { result ≡ shown_line_verdict verdict }
{
    match verdict {
        LineVerdict::Accepted => shown(Verdict::Accepted),
        LineVerdict::Refused(refusal) => shown(Verdict::Refused(refusal)),
        LineVerdict::MayBeCut => JxVerdict {
            offset: 0,
            kind: MAY_BE_CUT,
        },
        LineVerdict::Blank => JxVerdict {
            offset: 0,
            kind: BLANK,
        },
    }
}

impl Seen for JudgedLine {
    type Form = JxLine;

    ghost form = { shown_line };

    fn seen(self) -> JxLine {
        JxLine {
            number: self.number,
            span: shown_span(self.span),
            verdict: shown_line_verdict(self.verdict),
        }
    }
}

/// The last line as C sees it, or one without a number where there is none.
fn shown_last(line: Option<JudgedLine>) -> JxLine
    ensures { result ≡ shown_last line }
{
    match line {
        Some(line) => line.seen(),
        None => JxLine {
            number: 0,
            span: JxSpan { start: 0, end: 0 },
            verdict: shown(Verdict::Accepted),
        },
    }
}

/// The counts as C sees them.
fn shown_counts(counts: LineCounts) -> JxLineCounts
    ensures { result ≡ shown_counts counts }
{
    JxLineCounts {
        accepted: counts.accepted,
        refused: counts.refused,
        blank: counts.blank,
    }
}

/// A reader of lines that was fed no byte.
fn boxed(alloc: Global, settings: &Settings) -> Result<Box<LineTally>, AllocError>
    ensures { IfOk result (λ whole. HasTaken settings.now [] [] whole.value) }
{
    Ok(Box::new(alloc, sent(LineTally::new(alloc, settings)))?)
}

/// Begins an input by settings. The reader that the struct held is freed. Unique names are refused, as it keeps no names.
#[unsafe(no_mangle)]
pub extern "C" fn jx_lines_new_non_null(
    alloc: Global,
    settings: &JxSettings,
    lines: &mut JxLines,
) -> u32
    ensures made { result ≡ OK → IsNew (settings_in settings.now) lines.new.held }
    ensures depth { 65535 < settings.now.depth → result ≡ DEPTH_TOO_GREAT }
    ensures flags { settings.now.depth ≤ 65535 → 3 < settings.now.flags → result ≡ UNKNOWN_FLAG }
    ensures names { settings.now.depth ≤ 65535 → 1 < settings.now.flags → settings.now.flags ≤ 3 → result ≡ NO_UNIQUE_NAMES }
    ensures status { settings.now.depth ≤ 65535 → settings.now.flags ≤ 1 → (result ≡ OK) ⊎ (result ≡ NO_MEMORY) }
    ensures unchanged { (result ≡ OK → ⊥) → lines.new.held ≡ lines.old.held }
{
    let asked = match settings_in(settings) {
        Ok(asked) => asked,
        Err(status) => return status,
    };
    if asked.names == NameRule::Unique {
        return NO_UNIQUE_NAMES;
    }
    match boxed(alloc, &asked) {
        Ok(whole) => {
            let _ = lines.replace(alloc, Some(whole));
            OK
        }
        Err(AllocError) => NO_MEMORY,
    }
}

/// Reads the bytes after all that the reader was fed. When out of memory the struct is empty afterwards.
#[unsafe(no_mangle)]
pub extern "C" fn jx_lines_feed_non_null(alloc: Global, lines: &mut JxLines, bytes: &[u8]) -> u32
    ensures none { lines.old.held ≡ None → result ≡ NO_LINES }
    ensures fed { (l : TallyValue) → lines.old.held ≡ Some l → result ≡ OK → IsFed l bytes.now lines.new.held }
    ensures status { (l : TallyValue) → lines.old.held ≡ Some l → end_of l + length bytes.now < 2 ^ 64 → (result ≡ OK) ⊎ (result ≡ NO_MEMORY) }
    ensures many { (l : TallyValue) → lines.old.held ≡ Some l → 2 ^ 64 ≤ end_of l + length bytes.now → result ≡ TOO_MANY_BYTES }
    ensures lost { result ≡ NO_MEMORY → lines.new.held ≡ None }
    ensures unchanged { (result ≡ OK → ⊥) → (result ≡ NO_MEMORY → ⊥) → lines.new.held ≡ lines.old.held }
{
    let Some(mut whole) = lines.replace(alloc, None) else {
        return NO_LINES;
    };
    if bytes.len() > usize::MAX - whole.end() {
        let _ = lines.replace(alloc, Some(whole));
        return TOO_MANY_BYTES;
    }
    match whole.feed(bytes) {
        Ok(()) => {
            let _ = lines.replace(alloc, Some(whole));
            OK
        }
        Err(AllocError) => NO_MEMORY,
    }
}

/// Moves the lines that wait into the buffer, if that has room for all, and puts their number into `count`.
fn move_out(whole: &mut LineTally, bad: &mut [JxLine], count: &mut usize) -> u32
    ensures count { count.new ≡ length whole.old.waiting }
    ensures filled { result ≡ OK → IsFilled shown_line bad.old bad.new whole.old.waiting }
    ensures fits { result ≡ OK → count.new ≤ length bad.old }
    ensures taken { result ≡ OK → (settings : Settings) (input : List ℕ) (given : List JudgedLine) → HasTaken settings input given whole.old
        → HasTaken settings input (given ++ whole.old.waiting) whole.new }
    ensures none_wait { result ≡ OK → whole.new.waiting ≡ [] }
    ensures room { result ≡ NO_ROOM → length bad.old < count.new }
    ensures same { (result ≡ OK → ⊥) → whole.new ≡ whole.old }
    ensures status { (result ≡ OK) ⊎ (result ≡ NO_ROOM) }
    ensures unchanged { (result ≡ OK → ⊥) → bad.new ≡ bad.old }
{
    let waiting = whole.waiting();
    *count = waiting.len();
    if bad.len() < waiting.len() {
        return NO_ROOM;
    }
    fill(bad, waiting);
    whole.clear_waiting();
    OK
}

/// Moves the lines that are not valid JSON, and were not moved before, into the buffer: all of them, where it has room. It takes no
/// memory.
#[unsafe(no_mangle)]
pub extern "C" fn jx_lines_take_non_null(
    alloc: Global,
    lines: &mut JxLines,
    bad: &mut [JxLine],
    count: &mut usize,
) -> u32
    ensures none { lines.old.held ≡ None → result ≡ NO_LINES }
    ensures taken { (l : TallyValue) → lines.old.held ≡ Some l → result ≡ OK → IsTaken l bad.old bad.new count.new lines.new.held }
    ensures room { (l : TallyValue) → lines.old.held ≡ Some l → result ≡ NO_ROOM → (count.new ≡ length l.waiting) × (length bad.old < count.new) }
    ensures status { (l : TallyValue) → lines.old.held ≡ Some l → (result ≡ OK) ⊎ (result ≡ NO_ROOM) }
    ensures same { (result ≡ OK → ⊥) → lines.new.held ≡ lines.old.held }
    ensures unchanged_bad { (result ≡ OK → ⊥) → bad.new ≡ bad.old }
    ensures unchanged_count { result ≡ NO_LINES → count.new ≡ count.old }
{
    let Some(mut whole) = lines.replace(alloc, None) else {
        return NO_LINES;
    };
    let status = move_out(&mut whole, bad, count);
    let _ = lines.replace(alloc, Some(whole));
    status
}

/// Reports what is left if the input ends here: the last line, where no line feed ends it and it is not valid JSON, and how many lines
/// there are. More bytes may be fed. It takes no memory.
#[unsafe(no_mangle)]
pub extern "C" fn jx_lines_end_non_null(
    alloc: Global,
    lines: &mut JxLines,
    last: &mut JxLine,
    counts: &mut JxLineCounts,
) -> u32
    ensures none { lines.old.held ≡ None → result ≡ NO_LINES }
    ensures told { (l : TallyValue) → lines.old.held ≡ Some l → (result ≡ OK) × IsEndOf l last.new counts.new }
    ensures same { lines.new.held ≡ lines.old.held }
    ensures unchanged_last { (result ≡ OK → ⊥) → last.new ≡ last.old }
    ensures unchanged_counts { (result ≡ OK → ⊥) → counts.new ≡ counts.old }
{
    let Some(whole) = lines.replace(alloc, None) else {
        return NO_LINES;
    };
    let end = whole.told_at_end();
    *last = shown_last(end.bad);
    *counts = shown_counts(end.counts);
    let _ = lines.replace(alloc, Some(whole));
    OK
}

/// Frees the reader, if there is one. The struct holds none afterwards.
#[unsafe(no_mangle)]
pub extern "C" fn jx_lines_free_non_null(alloc: Global, lines: &mut JxLines)
    ensures { lines.new.held ≡ None }
{
    let _ = lines.replace(alloc, None);
}
