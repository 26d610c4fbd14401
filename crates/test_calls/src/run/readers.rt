// Readers that are fed texts by small slices, and that follow runs.
ghost use Rattle.std.specs.Prelude.{◌<◌, ◌+◌, ◌^◌, length};
ghost use Rattle.jx_run.specs.Reader.{IsInFront};

use jx_lex::Depth;
use jx_run::{OutcomeRun, Reader, Settings, Summary, Verdict};
use std::alloc::{AllocError, Global};
use test_words::{Line, Out, Ways, number_of, push_verdict};

/// How many bytes a line may have a reader read, and at most where it starts.
const FAR: usize = 1 << 40;

/// Of how many bytes the slices are that a reader is fed.
const SIZES: [usize; 4] = [1, 2, 3, 100];

/// Feeds a text by slices of so many bytes, and gives the verdict.
fn fed(reader: &mut Reader, text: &[u8], size: usize) -> Result<Verdict, AllocError> {
    for slice in text.chunks(size.max(1)) {
        if reader.end() < FAR && slice.len() < FAR {
            reader.feed(slice)?;
        }
    }
    Ok(reader.verdict())
}

/// Adds the verdicts of a reader that is fed by slices of 1, 2, 3 and 100 bytes.
pub(crate) fn add_fed(ways: &mut Ways, alloc: Global, text: &[u8], depth: Depth) {
    let mut reader = Reader::new(alloc, &Settings::from(depth), 0);
    for size in &SIZES {
        let told = fed_from_start(alloc, &mut reader, text, *size);
        ways.add_made(format_args!("by slices of {size}"), told);
    }
}

/// Feeds a text from its start by slices of so many bytes, and returns the verdict.
fn fed_from_start(
    alloc: Global,
    reader: &mut Reader,
    text: &[u8],
    size: usize,
) -> Result<Out, AllocError> {
    let settings = reader.settings();
    reader.reset(0);
    let verdict = fed(reader, text, size)?;
    let mut told = Out::new(alloc);
    push_verdict(&mut told, verdict);
    if reader.end() != text.len() || reader.settings() != settings {
        told.push_str(", elsewhere");
    }
    Ok(told)
}

/// `reader DEPTH SIZE [START TEXT]..`: one reader that begins at START, or goes on where it is `-`, and is fed TEXT by slices of
/// so many bytes: the verdict and the end after each text.
pub(crate) fn reader(line: &mut Line<'_>) {
    let settings = Settings::from(line.depth());
    let size = line.number();
    let mut reader = Reader::new(line.alloc, &settings, 0);
    for _ in 0..line.count() / 2 {
        read_next(line, &mut reader, size);
    }
}

/// Begins at the offset of the next word, or goes on where it is `-`, feeds the text of the one after it, and writes the verdict
/// and the end.
fn read_next(line: &mut Line<'_>, reader: &mut Reader, size: usize) {
    let start = line.word();
    if start != "-" {
        reader.reset(line.read_or(number_of(start), 0));
    }
    let text = line.text();
    let verdict = fed(reader, &text, size);
    if line.keep(verdict).is_some() {
        push_read(&mut line.out, reader);
    }
}

/// The verdict and the end, and whether a byte order mark may begin or go on with the next byte.
fn push_read(out: &mut Out, reader: &Reader) {
    out.part("; ");
    push_verdict(out, reader.verdict());
    out.put(format_args!(", end {}", reader.end()));
    if reader.is_in_front() {
        out.push_str(", in front");
    }
}

/// Feeds a text as one slice.
fn feed(reader: &mut Reader, text: &[u8]) -> Result<(), AllocError> {
    if reader.end() < FAR && text.len() < FAR {
        reader.feed(text)?;
    }
    Ok(())
}

/// `slices DEPTH SETTINGS TEXT..`: one reader that is fed the texts, each as one slice: what it has read after each.
pub(crate) fn slices(line: &mut Line<'_>) {
    let depth = line.depth();
    let settings = line.settings(depth);
    let mut reader = Reader::new(line.alloc, &settings, 0);
    for _ in 0..line.count() {
        let text = line.text();
        line.settle(feed(&mut reader, &text));
        push_read(&mut line.out, &reader);
    }
}

/// Follows the run of a text.
fn follow_run(alloc: Global, reader: &mut Reader, text: &[u8]) -> Result<(), AllocError>
    requires behind { IsInFront reader.old → ⊥ }
    requires near { reader.old.start + reader.old.count + length text.now < 2 ^ 64 }
{
    let run = OutcomeRun::of(alloc, text, 0, text.len(), reader.settings().depth)?;
    reader.follow(&run)
}

/// Follows the run of a text, or is fed it where a byte order mark may stand in it.
fn follow(alloc: Global, reader: &mut Reader, text: &[u8]) -> Result<(), AllocError> {
    if reader.is_in_front() {
        return feed(reader, text);
    }
    if reader.end() < FAR && text.len() < FAR {
        follow_run(alloc, reader, text)?;
    }
    Ok(())
}

fn told_of(alloc: Global, reader: &Reader) -> Out {
    let mut told = Out::new(alloc);
    push_read(&mut told, reader);
    told
}

/// `follows DEPTH SETTINGS TEXT TEXT..`: a reader that is fed the first text and follows the run of each other one, unless a byte
/// order mark may stand in it, and a reader that is fed all: what they have read after each.
pub(crate) fn follows(line: &mut Line<'_>) {
    let depth = line.depth();
    let settings = line.settings(depth);
    let mut follower = Reader::new(line.alloc, &settings, 0);
    let mut fed = Reader::new(line.alloc, &settings, 0);
    let first = line.text();
    line.settle(feed(&mut follower, &first));
    line.settle(feed(&mut fed, &first));
    push_both(line, &follower, &fed);
    for _ in 0..line.count() {
        let text = line.text();
        let done = follow(line.alloc, &mut follower, &text);
        line.settle(done);
        line.settle(feed(&mut fed, &text));
        push_both(line, &follower, &fed);
    }
}

fn push_both(line: &mut Line<'_>, follower: &Reader, fed: &Reader) {
    line.out.part("; ");
    let mut ways = Ways::new(line.alloc);
    ways.add("followed", told_of(line.alloc, follower));
    ways.add("fed", told_of(line.alloc, fed));
    ways.push_to(&mut line.out);
}
