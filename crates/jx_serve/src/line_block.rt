// Whole lines of a document that are read at once.
ghost use Rattle.std.specs.Prelude.{◌≡◌, ◌≤◌, ◌<◌, length, slice_range, IfOk, IfSome};
ghost use Rattle.jx_serve.specs.inside.LineTables.{AreLinesOf, IsBlockAt};

use jx_edit::Document;
use jx_lex::Depth;
use jx_ndjson::{LinesRun, WholeLines};
use jx_run::Summary;
use memchr::{memchr, memrchr};
use std::alloc::{AllocError, Global};

/// How many bytes are read at once, where no line is longer.
const BLOCK: usize = 16_384;

/// The verdicts on whole lines; none where the bytes are other ones.
fn judged(alloc: Global, lines: &[u8], depth: Depth) -> Result<Option<WholeLines>, AllocError>
    ensures lines { IfOk result (λ block. IfSome block (AreLinesOf depth lines.now)) }
    ensures len { IfOk result (λ block. IfSome block (λ block. block.len ≡ length lines.now)) }
{
    let run = LinesRun::of(alloc, lines, 0, lines.len(), depth)?;
    Ok(run.into_lines())
}

/// The bytes of a document between two offsets.
fn copied(document: &Document, from: usize, to: usize) -> Result<Vec<u8>, AllocError>
    ensures { IfOk result (λ bytes. bytes.items ≡ slice_range document.now.bytes from to) }
{
    match document.copy(from, to) {
        Ok(bytes) => Ok(bytes),
        Err(_) => Err(AllocError),
    }
}

/// Where the first line feed of a document after an offset ends, by another offset; none where no one does.
fn line_end(document: &Document, from: usize, to: usize) -> Option<usize>
    requires within { to ≤ length document.now.bytes }
    ensures { IfSome result (λ end. (from < end) × (end ≤ to)) }
{
    // So many bytes there are.
    let _len = document.len();
    let mut at = from;
    while at < to {
        let piece = document.chunk_at(at);
        if let Some(place) = memchr(b'\n', piece) {
            let end = at.saturating_add(place).saturating_add(1);
            if to < end {
                return None;
            }
            return Some(end);
        }
        at = at.saturating_add(piece.len());
    }
    None
}

/// The verdicts on the bytes between two offsets, where these are whole lines.
fn block_between(
    alloc: Global,
    document: &Document,
    from: usize,
    to: usize,
    depth: Depth,
) -> Result<Option<WholeLines>, AllocError>
    requires order { from < to }
    requires within { to ≤ length document.now.bytes }
    ensures { IfOk result (λ block. IfSome block (IsBlockAt depth document.now.bytes from to)) }
{
    let bytes = copied(document, from, to)?;
    let block = judged(alloc, &bytes, depth)?;
    Ok(block)
}

/// Where whole lines from an offset on end that are read at once, by another offset; where no line ends there, the first one.
fn block_end(document: &Document, from: usize, to: usize) -> Result<usize, AllocError>
    requires order { from ≤ to }
    requires within { to ≤ length document.now.bytes }
    ensures { IfOk result (λ end. (from ≤ end) × (end ≤ to)) }
{
    let near = from.saturating_add(BLOCK).min(to);
    let bytes = copied(document, from, near)?;
    if let Some(last) = memrchr(b'\n', &bytes) {
        return Ok(from.saturating_add(last).saturating_add(1).min(to));
    }
    match line_end(document, near, to) {
        Some(end) => Ok(end),
        None => Ok(from),
    }
}

/// Whole lines of a document from an offset on, as many as are read at once, before another one; none where no line ends there.
pub(crate) fn block_at(
    alloc: Global,
    document: &Document,
    from: usize,
    to: usize,
    depth: Depth,
) -> Result<Option<WholeLines>, AllocError>
    requires order { from ≤ to }
    requires within { to ≤ length document.now.bytes }
    ensures { IfOk result (λ block. IfSome block (IsBlockAt depth document.now.bytes from to)) }
{
    let end = block_end(document, from, to)?;
    if end == from {
        return Ok(None);
    }
    let block = block_between(alloc, document, from, end, depth)?;
    Ok(block)
}
