// How many chunks a document has after many edits.
use jx_edit::Document;
use jx_lex::Depth;
use jx_run::Settings;
use std::alloc::Global;
use test_words::{Line, LineFault, Out};

/// A chunk has this many bytes where a document is made, and less than twice as many.
const USUAL: usize = 32768;

/// The next number of a row that looks random (xorshift).
fn next(seed: u64) -> u64 {
    let mut x = seed;
    x ^= x << 13;
    x ^= x >> 7;
    x ^= x << 17;
    x
}

/// The edits of a document: so many times so many bytes are taken out, and others put in.
#[derive(Clone, Copy)]
struct Wear {
    len: usize,
    times: usize,
    put: usize,
    taken: usize,
}

/// The document of so many digits, after these edits at places that look random.
fn worn_by(alloc: Global, wear: Wear) -> Result<Document, LineFault> {
    let settings = Settings::from(Depth::default());
    let text = vec![in alloc; b'1'; wear.len]?;
    let more = vec![in alloc; b'2'; wear.put]?;
    let Ok(mut document) = Document::of(alloc, &text, settings) else {
        return Err(LineFault::Memory);
    };
    let mut seed = 88_172_645_463_325_252u64;
    for _ in 0..wear.times {
        seed = next(seed);
        let room = document.len().saturating_sub(wear.taken) as u64;
        let start = (seed % room.saturating_add(1)) as usize;
        let end = start.saturating_add(wear.taken);
        let Ok(()) = document.edit(start, end, &more) else {
            return Err(LineFault::NoSuchCall);
        };
    }
    Ok(document)
}

/// How many chunks a document has.
fn count_of(document: &Document) -> usize {
    document.chunks().count()
}

/// `worn LEN TIMES PUT TAKEN`: how long a document of LEN bytes is after so many edits, and whether it has about as many chunks
/// as one that is made of as many bytes: at most twice as many and two, and at least half as many.
pub(crate) fn worn(line: &mut Line<'_>) {
    let wear = Wear {
        len: line.number(),
        times: line.number(),
        put: line.number(),
        taken: line.number(),
    };
    match worn_by(line.alloc, wear) {
        Ok(document) => push_count(&mut line.out, document.len(), count_of(&document)),
        Err(fault) => line.note(fault),
    }
}

fn push_count(out: &mut Out, len: usize, count: usize) {
    let whole = len / USUAL;
    if whole / 2 <= count && count <= whole.saturating_mul(2).saturating_add(2) {
        out.put(format_args!("{len} bytes in few pieces"));
    } else {
        out.put(format_args!("{len} bytes in {count} pieces"));
    }
}
