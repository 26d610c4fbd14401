// Runs of texts and of sequences where an allocation fails.
ghost use Rattle.std.specs.Prelude.{◌≡◌, ◌≤◌, length};

use crate::inputs::{SEQUENCE, Worked};
use crate::lines::Lines;
use crate::tests::checks::assert_right;
use crate::tests::growths::cuts::{Joined, check_cuts};
use crate::tests::growths::texts::{Made, check_texts};
use crate::tests::likeness::{Likeness, is_as_read};
use jx_lex::{Depth, JoinFault, Span};
use jx_run::{OutcomeRun, Reader, Refusal, SeqRun, Settings, Shape, Summary, TextRun, Verdict};
use std::alloc::{AllocError, Global};

#[test]
fn text_runs_under_a_refused_growth(rt: HostRuntime) {
    check_texts(&rt, rt.alloc(), Made::TextRuns);
}

#[test]
fn outcome_runs_under_a_refused_growth(rt: HostRuntime) {
    check_texts(&rt, rt.alloc(), Made::OutcomeRuns);
}

#[test]
fn sequence_runs_under_a_refused_growth(rt: HostRuntime) {
    let mut lines = Lines::of(&rt);
    check_cuts(&rt, rt.alloc(), &mut lines, &Joined::Sequences, SEQUENCE);
}

#[test]
fn readers_under_a_refused_growth(rt: HostRuntime) {
    let mut lines = Lines::of(&rt);
    for size in &[1, 7, 201] {
        if lines.takes_next() {
            assert_right(&rt, Ok(stops_at_its_end(rt.alloc(), *size)), &[], *size);
        }
    }
}

/// The join of two runs over a text, if it is like the run that reading at once gives. Where it is refused, both sides have to be as
/// they were, and are joined again.
fn joined<S: Likeness>(
    alloc: Global,
    text: &[u8],
    left: S,
    right: S,
) -> Result<Option<S>, AllocError>
    requires neighbours { (S.span left).end ≡ (S.span right).start }
    requires depth { S.depth left ≡ S.depth right }
{
    let spans = (left.span(), right.span());
    match left.join(right) {
        Ok(run) => Ok(Some(run)),
        Err(JoinFault { left, right }) => {
            if (left.span(), right.span()) != spans {
                return Ok(None);
            }
            joined_again(alloc, text, left, right)
        }
    }
}

/// The join of two runs that came back, if they are like the runs that reading at once gives.
fn joined_again<S: Likeness>(
    alloc: Global,
    text: &[u8],
    left: S,
    right: S,
) -> Result<Option<S>, AllocError>
    requires neighbours { (S.span left).end ≡ (S.span right).start }
    requires depth { S.depth left ≡ S.depth right }
{
    if !are_as_read(alloc, text, &left, &right)? {
        return Ok(None);
    }
    Ok(left.join(right).ok())
}

fn are_as_read<S: Likeness>(
    alloc: Global,
    text: &[u8],
    left: &S,
    right: &S,
) -> Result<bool, AllocError> {
    Ok(is_as_read(alloc, text, left)? && is_as_read(alloc, text, right)?)
}

/// The joined run of both sides of a cut, if it is like the run that reading at once gives.
fn joined_at<S: Likeness>(
    alloc: Global,
    text: &[u8],
    cut: usize,
    depth: Depth,
) -> Result<Option<S>, AllocError>
    requires { cut ≤ length text.now }
{
    let left = S::of(alloc, text, 0, cut, depth)?;
    let right = S::of(alloc, text, cut, text.len(), depth)?;
    match joined(alloc, text, left, right)? {
        Some(run) if is_as_read(alloc, text, &run)? => Ok(Some(run)),
        _ => Ok(None),
    }
}

/// A run that has a verdict.
pub(crate) trait Judged: Likeness {
    /// Whether it has this verdict, also as the start of a text where it can be taken for one.
    fn has_verdict(&self, want: Verdict) -> Result<bool, AllocError>;
}

impl Judged for TextRun {
    fn has_verdict(&self, want: Verdict) -> Result<bool, AllocError> {
        let started = self.started()?;
        Ok(self.verdict() == want && started.verdict() == want)
    }
}

impl Judged for OutcomeRun {
    fn has_verdict(&self, want: Verdict) -> Result<bool, AllocError> {
        Ok(self.verdict() == want)
    }
}

// The verdict on a text whose names may be repeated.
fn verdict_of(worked: &Worked) -> Verdict {
    match worked.answer {
        Ok(_) => Verdict::Accepted,
        Err(refusal) => Verdict::Refused(refusal),
    }
}

/// Whether the join at a cut of a text has the verdict that was worked out.
pub(crate) fn is_right_at<S: Judged>(
    alloc: Global,
    text: &[u8],
    cut: usize,
    worked: &Worked,
) -> Result<bool, AllocError>
    requires { cut ≤ length text.now }
{
    let Some(depth) = Depth::new(worked.containers) else {
        return Ok(false);
    };
    match joined_at::<S>(alloc, text, cut, depth)? {
        Some(run) => run.has_verdict(verdict_of(worked)),
        None => Ok(false),
    }
}

/// Whether these are the elements of the sequence: nothing in front of a separator, two that are accepted from the start of a text,
/// and a last one.
fn has_elements(run: &SeqRun) -> bool {
    match run.shape() {
        Shape::Plain(_) => false,
        Shape::Marked {
            before,
            done,
            after,
        } => {
            before.span() == (Span { start: 0, end: 0 })
                && done.len() == 2
                && done
                    .iter()
                    .all(|element| element.verdict() == Verdict::Accepted)
                && after.span() == (Span { start: 13, end: 16 })
        }
    }
}

/// Whether the join at a cut of the sequence has these elements.
pub(crate) fn is_sequence_at(alloc: Global, text: &[u8], cut: usize) -> Result<bool, AllocError>
    requires { cut ≤ length text.now }
{
    match joined_at::<SeqRun>(alloc, text, cut, Depth::default())? {
        Some(run) => Ok(has_elements(&run)),
        None => Ok(false),
    }
}

// Whether a reader that is fed 200 brackets and a brace, by slices of so many bytes, stops at the brace.
fn stops_at_its_end(alloc: Global, size: usize) -> bool {
    let mut text = [b'['; 201];
    text[200] = b'}';
    match fed_again(alloc, text.as_slice(), size) {
        Ok(verdict) => verdict == Verdict::Refused(Refusal::Stopped { at: 200 }),
        Err(AllocError) => false,
    }
}

// The verdict of a reader that is fed a text, and once more where that is refused.
fn fed_again(alloc: Global, text: &[u8], size: usize) -> Result<Verdict, AllocError> {
    let settings = Settings::from(Depth::default());
    let mut reader = Reader::new(alloc, &settings, 0);
    match fed(&mut reader, text, size) {
        Err(AllocError) => {
            reader.reset(0);
            fed(&mut reader, text, size)
        }
        verdict => verdict,
    }
}

// Feeds a text by slices of so many bytes, and gives the verdict.
fn fed(reader: &mut Reader, text: &[u8], size: usize) -> Result<Verdict, AllocError> {
    for slice in text.chunks(size.max(1)) {
        if reader.end() < 1_000_000 && slice.len() < 1_000_000 {
            reader.feed(slice)?;
        }
    }
    Ok(reader.verdict())
}
