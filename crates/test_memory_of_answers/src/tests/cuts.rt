// Every single cut and every pair of cuts: the answer is that of one chunk, with all its rows. One worker reads a text in a single
// pass, and by runs of the chunks, which are joined in an accumulator; a sequence it reads by such runs alone.
ghost use Rattle.std.specs.Prelude.{◌≡◌, length};

use crate::tests::answers::{ToldElement, are_equal, verdict_in};
use crate::tests::calls::{SequenceCall, answer_by_run, crew_of, indexed, tells};
use crate::tests::inputs::{
    MARKED_FIVE_ROWS, MARKS, RULES, SETTLED_SEQUENCES, SHORT, Settled, WorkedSequence,
};
use jx_answer::{TextAnswer, verdict_of_text};
use jx_claim::Cutting;
use jx_crew::{Crew, OpenGate};
use jx_lex::Depth;
use jx_run::{FrontMark, NameRule, Settings};
use std::alloc::Global;
use std::process::Abort;
use std::sync::Wait;
use std::thread::Threads;
use test_memory_of_runs::inputs::{FIVE_ROWS, settings};

#[test]
fn short_texts_are_answered_alike_at_every_pair_of_cuts(rt: HostRuntime) {
    check_short(&rt, rt.alloc(), By::One(FrontMark::Refused))
}

#[test]
fn short_texts_behind_marks_are_answered_alike_at_every_pair_of_cuts(rt: HostRuntime) {
    check_short(&rt, rt.alloc(), By::One(FrontMark::Ignored))
}

const DEPTHS: [u32; 5] = [0, 1, 2, 512, 65535];

#[test]
fn short_texts_are_answered_alike_at_every_cut_by_two_workers(rt: HostRuntime) {
    check_short(&rt, rt.alloc(), By::Two)
}

#[test]
fn sequences_are_answered_alike_at_every_pair_of_cuts(rt: HostRuntime) {
    check_settled(&rt, rt.alloc(), &SETTLED_SEQUENCES)
}

#[test]
fn texts_with_one_byte_replaced_are_answered_alike_at_every_cut(rt: HostRuntime) {
    check_replaced(&rt, rt.alloc(), FIVE_ROWS, FrontMark::Refused)
}

#[test]
fn texts_with_one_byte_replaced_are_answered_alike_where_marks_are_ignored(rt: HostRuntime) {
    check_replaced(&rt, rt.alloc(), FIVE_ROWS, FrontMark::Ignored)
}

#[test]
fn texts_with_one_byte_replaced_behind_a_mark_are_answered_alike(rt: HostRuntime) {
    check_replaced(&rt, rt.alloc(), MARKED_FIVE_ROWS, FrontMark::Refused)
}

#[test]
fn texts_with_one_byte_replaced_behind_an_ignored_mark_are_answered_alike(rt: HostRuntime) {
    check_replaced(&rt, rt.alloc(), MARKED_FIVE_ROWS, FrontMark::Ignored)
}

// The answer on a text in one chunk, or on the elements of a sequence.
#[derive(Clone, Copy)]
enum Whole<'a> {
    Text(&'a TextAnswer<'a>),
    Elements(&'a [ToldElement]),
}

// The answer of a crew that reads a text in one chunk.
fn answer_of_one_piece<'a, R: Abort + Threads + Wait + Sync>(
    crew: &Crew<'_, R, OpenGate>,
    text: &'a [u8],
    settings: &Settings,
) -> TextAnswer<'a> {
    let cutting = Cutting::at(crew.alloc, text.len(), &[]).expect(crew.rt, "a piece");
    indexed(crew, text, &cutting, settings).expect(crew.rt, "an answer")
}

// Whether a crew gives the answer on a text that is cut so, with its rows and without them.
fn is_told<R: Abort + Threads + Wait + Sync>(
    crew: &Crew<'_, R, OpenGate>,
    text: &[u8],
    cutting: &Cutting,
    settings: &Settings,
    whole: &TextAnswer<'_>,
) -> bool
    requires cutting { cutting.now.len ≡ length text.now }
    requires front { cutting.now.front ≡ 0 }
{
    let answer = indexed(crew, text, cutting, settings).expect(crew.rt, "an answer");
    let verdict = verdict_of_text(crew, text, cutting, settings).expect(crew.rt, "a verdict");
    are_equal(&answer, whole) && verdict == verdict_in(whole)
}

// Whether a crew that joins the runs of the chunks in an accumulator gives the answer on a text that is cut so.
fn is_joined<R: Abort + Threads + Wait + Sync>(
    crew: &Crew<'_, R, OpenGate>,
    text: &[u8],
    cutting: &Cutting,
    settings: &Settings,
    whole: &TextAnswer<'_>,
) -> bool
    requires cutting { cutting.now.len ≡ length text.now }
    requires front { cutting.now.front ≡ 0 }
{
    let answer = answer_by_run(crew, text, cutting, settings).expect(crew.rt, "an answer");
    are_equal(&answer, whole)
}

// Whether a sequence that is cut so has these elements, with their rows and without them.
fn has_elements<R: Abort + Threads + Wait + Sync>(
    crew: &Crew<'_, R, OpenGate>,
    text: &[u8],
    cutting: &Cutting,
    settings: &Settings,
    want: &[ToldElement],
) -> bool
    requires cutting { cutting.now.len ≡ length text.now }
    requires front { cutting.now.front ≡ 0 }
{
    let index = SequenceCall::Index;
    let judge = SequenceCall::Judge;
    let has_rows = tells(crew, index, text, want, cutting, settings).expect(crew.rt, "rows");
    let is_judged = tells(crew, judge, text, want, cutting, settings).expect(crew.rt, "verdicts");
    has_rows && is_judged
}

// A crew answers on a text or a sequence that is cut there as it does on the whole.
fn check_at<R: Abort + Threads + Wait + Sync>(
    crew: &Crew<'_, R, OpenGate>,
    text: &[u8],
    cuts: &[usize],
    settings: &Settings,
    whole: Whole<'_>,
) {
    let cutting = Cutting::at(crew.alloc, text.len(), cuts).expect(crew.rt, "cuts");
    let right = match whole {
        Whole::Text(whole) => {
            is_told(crew, text, &cutting, settings, whole)
                && is_joined(crew, text, &cutting, settings, whole)
        }
        Whole::Elements(want) => has_elements(crew, text, &cutting, settings, want),
    };
    assert!(crew.rt; right, "{text:?} cut at {cuts:?} by {settings:?}");
}

// This cut alone, and with each that is after it.
fn check_second_cuts<R: Abort + Threads + Wait + Sync>(
    crew: &Crew<'_, R, OpenGate>,
    text: &[u8],
    first: usize,
    settings: &Settings,
    whole: Whole<'_>,
) {
    check_at(crew, text, &[first], settings, whole);
    for second in first.saturating_add(1)..text.len() {
        check_at(crew, text, &[first, second], settings, whole);
    }
}

// No cut, each cut alone and each pair of cuts.
fn check_pairs<R: Abort + Threads + Wait + Sync>(
    crew: &Crew<'_, R, OpenGate>,
    text: &[u8],
    settings: &Settings,
    whole: Whole<'_>,
) {
    check_at(crew, text, &[], settings, whole);
    for first in 1..text.len() {
        check_second_cuts(crew, text, first, settings, whole);
    }
}

// A text at every pair of cuts by both rules for names.
fn check_text<R: Abort + Threads + Wait + Sync>(
    crew: &Crew<'_, R, OpenGate>,
    text: &[u8],
    containers: u32,
    mark: FrontMark,
) {
    let depth = Depth::new(containers).expect(crew.rt, "a depth");
    for names in &RULES {
        let settings = settings(depth, mark, *names);
        let whole = answer_of_one_piece(crew, text, &settings);
        check_pairs(crew, text, &settings, Whole::Text(&whole));
    }
}

// Who reads short texts.
#[derive(Clone, Copy)]
enum By {
    /// One worker, at every pair of cuts, with this made of a byte order mark.
    One(FrontMark),
    /// Two workers, at every cut, by each of the settings.
    Two,
}

fn check_short<R: Abort + Threads + Wait + Sync>(rt: &R, alloc: Global, by: By) {
    check_each(rt, alloc, &SHORT, by)
}

// Each text within each depth.
fn check_each<R: Abort + Threads + Wait + Sync>(rt: &R, alloc: Global, texts: &[&[u8]], by: By) {
    for text in texts {
        for containers in &DEPTHS {
            check_one(rt, alloc, text, *containers, by);
        }
    }
}

fn check_one<R: Abort + Threads + Wait + Sync>(
    rt: &R,
    alloc: Global,
    text: &[u8],
    containers: u32,
    by: By,
) {
    match by {
        By::One(mark) => check_text(&crew_of(rt, alloc, 1), text, containers, mark),
        By::Two => check_by_two(rt, alloc, text, containers),
    }
}

fn check_settled<R: Abort + Threads + Wait + Sync>(rt: &R, alloc: Global, lists: &[Settled]) {
    for (marks, rules, sequences) in lists {
        for mark in *marks {
            check_by_rules(rt, alloc, *mark, rules, sequences);
        }
    }
}

// These sequences by each of these rules for names.
fn check_by_rules<R: Abort + Threads + Wait + Sync>(
    rt: &R,
    alloc: Global,
    mark: FrontMark,
    rules: &[NameRule],
    sequences: &[WorkedSequence],
) {
    let crew = crew_of(rt, alloc, 1);
    for names in rules {
        let settings = settings(Depth::default(), mark, *names);
        for (text, want) in sequences {
            check_pairs(&crew, text, &settings, Whole::Elements(want));
        }
    }
}

// Two workers answer at each single cut as one does in one chunk.
fn check_cuts_by_two<R: Abort + Threads + Wait + Sync>(
    rt: &R,
    alloc: Global,
    text: &[u8],
    settings: &Settings,
) {
    let whole = answer_of_one_piece(&crew_of(rt, alloc, 1), text, settings);
    let crew = crew_of(rt, alloc, 2);
    for cut in 1..text.len() {
        let cutting = Cutting::at(alloc, text.len(), &[cut]).expect(rt, "a cut");
        let told = is_told(&crew, text, &cutting, settings, &whole);
        assert!(rt; told, "{text:?} cut at {cut} by {settings:?}");
    }
}

// A short text at every cut by two workers, by each of the settings.
fn check_by_two<R: Abort + Threads + Wait + Sync>(
    rt: &R,
    alloc: Global,
    text: &[u8],
    containers: u32,
) {
    let depth = Depth::new(containers).expect(rt, "a depth");
    for mark in &MARKS {
        for names in &RULES {
            check_cuts_by_two(rt, alloc, text, &settings(depth, *mark, *names));
        }
    }
}

// The answer on a text in one chunk, by both rules for names.
#[derive(Clone, Copy)]
struct Wanted<'a> {
    any: &'a TextAnswer<'a>,
    unique: &'a TextAnswer<'a>,
}

// Whether a crew answers on a text that is cut so as in one pass over one chunk: in one pass over both, and by runs that it joins,
// by either rule for names.
fn is_alike<R: Abort + Threads + Wait + Sync>(
    crew: &Crew<'_, R, OpenGate>,
    text: &[u8],
    cutting: &Cutting,
    any: &Settings,
    want: Wanted<'_>,
) -> bool
    requires cutting { cutting.now.len ≡ length text.now }
    requires front { cutting.now.front ≡ 0 }
{
    let told = indexed(crew, text, cutting, any).expect(crew.rt, "an answer");
    let answer = answer_by_run(crew, text, cutting, any).expect(crew.rt, "an answer by runs");
    are_equal(&told, want.any)
        && are_equal(&answer, want.any)
        && are_equal(&answer.by_names(NameRule::Unique), want.unique)
}

// A text at each single cut by one worker.
fn check_cuts<R: Abort + Threads + Wait + Sync>(
    crew: &Crew<'_, R, OpenGate>,
    text: &[u8],
    any: &Settings,
    want: Wanted<'_>,
) {
    for cut in 1..text.len() {
        let cutting = Cutting::at(crew.alloc, text.len(), &[cut]).expect(crew.rt, "a cut");
        let alike = is_alike(crew, text, &cutting, any, want);
        assert!(crew.rt; alike, "{text:?} cut at {cut} by {any:?}");
    }
}

// A text in which the byte at a place is another one.
fn check_with<R: Abort + Threads + Wait + Sync>(
    crew: &Crew<'_, R, OpenGate>,
    bytes: &[u8],
    place: usize,
    byte: u8,
    mark: FrontMark,
) {
    let mut text = Vec::from_slice(crew.alloc, bytes).expect(crew.rt, "a text");
    *text.get_mut(place).expect(crew.rt, "a byte") = byte;
    let any = settings(Depth::default(), mark, NameRule::Any);
    let unique = settings(Depth::default(), mark, NameRule::Unique);
    let want_any = answer_of_one_piece(crew, &text, &any);
    let want_unique = answer_of_one_piece(crew, &text, &unique);
    let want = Wanted {
        any: &want_any,
        unique: &want_unique,
    };
    check_cuts(crew, &text, &any, want);
}

// A text in which each byte is replaced by each value in turn.
fn check_replaced<R: Abort + Threads + Wait + Sync>(
    rt: &R,
    alloc: Global,
    bytes: &[u8],
    mark: FrontMark,
) {
    let crew = crew_of(rt, alloc, 1);
    for place in 0..bytes.len() {
        for byte in 0..=255u8 {
            check_with(&crew, bytes, place, byte, mark);
        }
    }
}
