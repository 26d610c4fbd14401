// A batch of lines that several workers share.
ghost use Rattle.std.specs.Prelude.{◌≡◌, ◌≤◌, List, length, IfOk, IfSome};
ghost use Rattle.jx_ndjson.specs.declared.judged_line.JudgedLine.{JudgedLine};
ghost use Rattle.jx_ndjson.specs.WholeLines.{AreWhole};
ghost use Rattle.jx_ndjson_report.specs.inside.Shared.{IsShared};

use jx_answer::is_short;
use jx_book::read_whole;
use jx_claim::{CutFault, Cutting};
use jx_crew::{Crew, Gate};
use jx_lex::{Depth, Span};
use jx_ndjson::{LinesRun, WholeLines};
use memchr::{memchr, memrchr};
use std::alloc::{AllocError, Global};
use std::marker::Model;
use std::sync::Wait;
use std::thread::Threads;

/// Lines of a batch that a crew judged, and where they stand in it.
#[derive(Drop)]
pub(crate) struct SharedLines {
    pub(crate) span: Span,
    pub(crate) lines: WholeLines,
}

impl Model for SharedLines {
    ghost use Rattle.jx_ndjson_report.specs.inside.Shared.{SharedLinesValue};

    ghost Value = { SharedLinesValue };

    ghost view = { λ s. record { span = s.span; lines = s.lines } };
}

/// From after the first line feed of a batch up to after the last one; none where there is none.
fn whole_lines(batch: &[u8]) -> Option<Span>
    ensures ordered { IfSome result (λ s. s.start ≤ s.end) }
    ensures within { IfSome result (λ s. s.end ≤ length batch.now) }
{
    let last = memrchr(b'\n', batch)?;
    let first = memchr(b'\n', &batch[..last + 1])?;
    Some(Span {
        start: first + 1,
        end: last + 1,
    })
}

/// After the next line feed, from an offset on, or the end of the lines.
fn next_line(lines: &[u8], from: usize) -> usize
    requires from { from ≤ length lines.now }
    ensures ordered { from ≤ result }
    ensures within { result ≤ length lines.now }
{
    match memchr(b'\n', &lines[from..]) {
        Some(skipped) => from + skipped + 1,
        None => lines.len(),
    }
}

/// After the first line feeds that stand so many bytes after the start and after each other.
fn line_cuts(alloc: Global, lines: &[u8], piece: usize) -> Result<Vec<usize>, AllocError>
    requires piece { 1 ≤ piece }
{
    let mut cuts = Vec::new(alloc);
    let mut at = 0;
    while lines.len() - at > piece {
        at = next_line(lines, at + piece);
        if at < lines.len() {
            cuts.push(at)?;
        }
    }
    Ok(cuts)
}

/// Lines in chunks of so many bytes and what is left of a line then. Where there is no memory to list them, the chunks
/// have so many bytes.
fn line_cutting(alloc: Global, lines: &[u8], piece: usize) -> Result<Cutting, CutFault>
    requires piece { 1 ≤ piece }
    ensures len { IfOk result (λ c. c.len ≡ length lines.now) }
    ensures front { IfOk result (λ c. c.front ≡ 0) }
{
    match line_cuts(alloc, lines, piece) {
        Ok(cuts) => Cutting::at(alloc, lines.len(), &cuts),
        Err(AllocError) => Cutting::every(lines.len(), piece),
    }
}

/// Judges lines by the crew, whose workers take the chunks of the division and put the lines of each into an
/// accumulator. None where a chunk has no whole lines, or when out of memory.
fn judge_pieces<R: Threads + Wait + Sync, G: Gate + Sync>(
    crew: &Crew<'_, R, G>,
    lines: &[u8],
    cutting: &Cutting,
    depth: Depth,
) -> Option<WholeLines>
    requires cutting { cutting.now.len ≡ length lines.now }
    requires front { cutting.now.front ≡ 0 }
    ensures judged { IfSome result (λ whole. (answers : List JudgedLine) × AreWhole depth lines.now answers whole) }
    ensures len { IfSome result (λ whole. whole.len ≡ length lines.now) }
{
    match read_whole::<LinesRun, R, G>(crew, lines, cutting, depth) {
        Ok(run) => run.into_run().into_lines(),
        Err(AllocError) => None,
    }
}

/// Judges lines by the crew. Its workers take chunks of so many bytes and what is left of a line then.
fn judge_lines<R: Threads + Wait + Sync, G: Gate + Sync>(
    crew: &Crew<'_, R, G>,
    lines: &[u8],
    depth: Depth,
    piece: usize,
) -> Option<WholeLines>
    requires piece { 1 ≤ piece }
    ensures judged { IfSome result (λ whole. (answers : List JudgedLine) × AreWhole depth lines.now answers whole) }
    ensures len { IfSome result (λ whole. whole.len ≡ length lines.now) }
{
    match line_cutting(crew.alloc, lines, piece) {
        Ok(cutting) => judge_pieces(crew, lines, &cutting, depth),
        Err(_) => None,
    }
}

/// Has the whole lines of a batch judged by the crew, but for the first one, which may go on with one before. None where one
/// worker is to read the batch, or it is short, or where it was not judged.
pub(crate) fn judge_batch<R: Threads + Wait + Sync, G: Gate + Sync>(
    crew: &Crew<'_, R, G>,
    batch: &[u8],
    depth: Depth,
    piece: usize,
) -> Option<SharedLines>
    requires piece { 1 ≤ piece }
    ensures { IfSome result (λ shared. IsShared depth batch.now shared) }
{
    if crew.workers.count() == 1 || is_short(batch.len(), crew.gate) {
        return None;
    }
    let span = whole_lines(batch)?;
    let lines = judge_lines(crew, &batch[span.start..span.end], depth, piece)?;
    Some(SharedLines { span, lines })
}
