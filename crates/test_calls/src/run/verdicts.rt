// The verdicts on texts, by runs that keep their token starts and by runs of outcomes alone.
ghost use Rattle.std.specs.Prelude.{◌≤◌};

use crate::run::joins::{by_halves, cut_at, from_left, from_right};
use crate::run::readers::add_fed;
use jx_lex::Depth;
use jx_run::{OutcomeRun, Summary, TextRun, Verdict};
use std::alloc::{AllocError, Global};
use test_words::{Line, Out, Ways, push_verdict};

/// A summary that gives the verdict on its bytes.
trait Judge: Summary {
    /// The verdict on its bytes.
    fn judge(&self) -> Verdict;
}

impl Judge for TextRun {
    fn judge(&self) -> Verdict {
        self.verdict()
    }
}

impl Judge for OutcomeRun {
    fn judge(&self) -> Verdict {
        self.verdict()
    }
}

/// Up to so many bytes a text is joined from runs of single bytes, one after another. Each join copies what is open on the
/// left, so a longer text is joined by halves, and from both sides of a few cuts.
const SHORT: usize = 100;

/// The verdict of a run, in words.
fn told_of<J: Judge>(alloc: Global, run: Result<J, AllocError>) -> Result<Out, AllocError> {
    let run = run?;
    let mut told = Out::new(alloc);
    push_verdict(&mut told, run.judge());
    Ok(told)
}

/// The verdict of one run, and of runs of single bytes that are joined.
fn judge_joins<J: Judge>(ways: &mut Ways, alloc: Global, text: &[u8], depth: Depth) {
    let whole = J::of(alloc, text, 0, text.len(), depth);
    ways.add_made("as one run", told_of::<J>(alloc, whole));
    let halves = by_halves::<J>(alloc, text, 0, text.len(), depth);
    ways.add_made("by halves", told_of::<J>(alloc, halves));
    if text.len() <= SHORT {
        let left = from_left::<J>(alloc, text, depth);
        ways.add_made("from the left", told_of::<J>(alloc, left));
        let right = from_right::<J>(alloc, text, depth);
        ways.add_made("from the right", told_of::<J>(alloc, right));
    } else {
        judge_cuts::<J>(ways, alloc, text, depth, 97);
    }
}

/// The verdict of the runs on both sides of each cut that is a multiple of this number, joined.
fn judge_cuts<J: Judge>(ways: &mut Ways, alloc: Global, text: &[u8], depth: Depth, apart: usize)
    requires { 1 ≤ apart }
{
    for cut in 0..=text.len() {
        if cut % apart == 0 {
            let run = cut_at::<J>(alloc, text, cut, depth);
            ways.add_made(format_args!("cut at {cut}"), told_of::<J>(alloc, run));
        }
    }
}

/// `verdict DEPTH TEXT`: by runs, joined from the left, from the right and by halves, and by a reader of small slices.
pub(crate) fn verdict(line: &mut Line<'_>) {
    let depth = line.depth();
    let text = line.text();
    let alloc = line.alloc;
    let mut ways = Ways::new(alloc);
    judge_joins::<TextRun>(&mut ways, alloc, &text, depth);
    judge_joins::<OutcomeRun>(&mut ways, alloc, &text, depth);
    add_fed(&mut ways, alloc, &text, depth);
    ways.push_to(&mut line.out);
}

/// `cuts DEPTH TEXT`: by runs that are joined at each cut, and by a reader.
pub(crate) fn cuts(line: &mut Line<'_>) {
    let depth = line.depth();
    let text = line.text();
    let alloc = line.alloc;
    let mut ways = Ways::new(alloc);
    add_fed(&mut ways, alloc, &text, depth);
    judge_cuts::<OutcomeRun>(&mut ways, alloc, &text, depth, 1);
    ways.push_to(&mut line.out);
}
