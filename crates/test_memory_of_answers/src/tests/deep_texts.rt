// Deep, unclosed and over-closed texts, in small chunks and by many workers.
ghost use Rattle.std.specs.Prelude.{◌≡◌, length};

use crate::tests::calls::{crew_of, indexed};
use jx_answer::{TextAnswer, verdict_of_text};
use jx_claim::Cutting;
use jx_crew::{Crew, OpenGate};
use jx_index::Row;
use jx_lex::{Depth, Kind};
use jx_run::{FrontMark, NameRule, Refusal, Settings, Verdict};
use std::alloc::Global;
use std::process::Abort;
use std::sync::Wait;
use std::thread::Threads;
use test_memory_of_runs::inputs::settings;
use test_memory_of_runs::rows::parent_of;

type Setting = (FrontMark, NameRule);

const ALL: [Setting; 4] = [
    (FrontMark::Refused, NameRule::Any),
    (FrontMark::Refused, NameRule::Unique),
    (FrontMark::Ignored, NameRule::Any),
    (FrontMark::Ignored, NameRule::Unique),
];

// Both off, and both on.
const OFF_AND_ON: [Setting; 2] = [
    (FrontMark::Refused, NameRule::Any),
    (FrontMark::Ignored, NameRule::Unique),
];

#[test]
fn deep_and_unclosed_texts_have_their_verdicts(rt: HostRuntime) {
    for count in &[1, 5, 64] {
        check_all(&rt, rt.alloc(), 7, *count, &ALL);
    }
}

// Chunks of a byte take longer, so two of the four settings are tried.
#[test]
fn many_workers_read_deep_texts_in_pieces_of_a_byte(rt: HostRuntime) {
    check_all(&rt, rt.alloc(), 1, 64, &OFF_AND_ON)
}

#[test]
fn a_text_as_deep_as_may_be_has_all_its_rows(rt: HostRuntime) {
    let crew = crew_of(&rt, rt.alloc(), 2);
    let text = repeated(&rt, rt.alloc(), &[(b'[', 600), (b']', 600)]);
    let depth = Depth::new(600).expect(&rt, "a depth");
    for piece in &[1, 7] {
        for (mark, names) in &ALL {
            check_rows(&crew, &text, *piece, &settings(depth, *mark, *names));
        }
    }
}

// So many of each of these bytes, one after another.
fn repeated<R: Abort>(rt: &R, alloc: Global, parts: &[(u8, usize)]) -> Vec<u8> {
    let mut text = Vec::new(alloc);
    for (byte, count) in parts {
        let len = text.len().saturating_add(*count);
        text.resize(len, *byte).expect(rt, "a text");
    }
    text
}

// A text of so many of each of these bytes. So many containers stand in one another, each at an offset one further on.
#[derive(Clone, Copy)]
struct DeepText {
    parts: &'static [(u8, usize)],
    nesting: u32,
    /// The verdict where so many containers may be open.
    verdict: Verdict,
    /// The depths within which it is read.
    depths: &'static [u32],
}

const TRUNCATED: Verdict = Verdict::Refused(Refusal::Truncated);

const DEPTHS: [u32; 5] = [0, 1, 2, 512, 65535];

const TEXTS: [DeepText; 7] = [
    DeepText {
        parts: &[(b'[', 2000)],
        nesting: 2000,
        verdict: TRUNCATED,
        depths: &DEPTHS,
    },
    DeepText {
        parts: &[(b'[', 600), (b']', 600)],
        nesting: 600,
        verdict: Verdict::Accepted,
        depths: &[0, 1, 2, 512, 599, 600, 65535],
    },
    DeepText {
        parts: &[(b'[', 300), (b'1', 5000), (b']', 300)],
        nesting: 300,
        verdict: Verdict::Accepted,
        depths: &[299, 300, 65535],
    },
    DeepText {
        parts: &[(b']', 1000)],
        nesting: 0,
        verdict: Verdict::Refused(Refusal::Stopped { at: 0 }),
        depths: &DEPTHS,
    },
    DeepText {
        parts: &[(b'"', 1), (b'\\', 1000)],
        nesting: 0,
        verdict: TRUNCATED,
        depths: &DEPTHS,
    },
    DeepText {
        parts: &[(b'"', 1), (b'\\', 1001), (b'x', 1)],
        nesting: 0,
        verdict: Verdict::Refused(Refusal::Stopped { at: 1002 }),
        depths: &DEPTHS,
    },
    DeepText {
        parts: &[(b'[', 1), (b' ', 3000), (b']', 1)],
        nesting: 1,
        verdict: Verdict::Accepted,
        depths: &DEPTHS,
    },
];

// The verdict on a text within a depth.
fn verdict_within(text: &DeepText, containers: u32) -> Verdict {
    if containers < text.nesting {
        let at = containers as usize;
        Verdict::Refused(Refusal::TooDeep { at })
    } else {
        text.verdict
    }
}

// The verdict within a depth by each of these settings: where names have to be unique, by an index.
fn check_within<R: Abort + Threads + Wait + Sync>(
    crew: &Crew<'_, R, OpenGate>,
    text: &[u8],
    cutting: &Cutting,
    deep: &DeepText,
    containers: u32,
    by: &[Setting],
)
    requires cutting { cutting.now.len ≡ length text.now }
    requires front { cutting.now.front ≡ 0 }
{
    let depth = Depth::new(containers).expect(crew.rt, "a depth");
    let want = verdict_within(deep, containers);
    for (mark, names) in by {
        let settings = settings(depth, *mark, *names);
        let verdict = verdict_of_text(crew, text, cutting, &settings).expect(crew.rt, "a verdict");
        assert!(crew.rt;
            verdict == want,
            "{verdict:?} and not {want:?} by {settings:?}"
        );
    }
}

// A text in chunks of so many bytes, at least one, within each of its depths.
fn check_deep<R: Abort + Threads + Wait + Sync>(
    crew: &Crew<'_, R, OpenGate>,
    deep: &DeepText,
    piece: usize,
    by: &[Setting],
) {
    let text = repeated(crew.rt, crew.alloc, deep.parts);
    let cutting = Cutting::every(text.len(), piece.max(1)).expect(crew.rt, "pieces");
    for containers in deep.depths {
        check_within(crew, &text, &cutting, deep, *containers, by);
    }
}

// Each text, read by so many workers.
fn check_each<R: Abort + Threads + Wait + Sync>(
    crew: &Crew<'_, R, OpenGate>,
    texts: &[DeepText],
    piece: usize,
    by: &[Setting],
) {
    for deep in texts {
        check_deep(crew, deep, piece, by);
    }
}

fn check_all<R: Abort + Threads + Wait + Sync>(
    rt: &R,
    alloc: Global,
    piece: usize,
    count: u8,
    by: &[Setting],
) {
    check_each(&crew_of(rt, alloc, count), &TEXTS, piece, by)
}

// Whether it is the row of this number of so many arrays, each in the one before.
fn is_nested(row: &Row, number: usize, count: usize) -> bool {
    row.kind == Kind::Array
        && row.span.start == number
        && row.span.end.saturating_add(number) == count.saturating_mul(2)
        && parent_of(row) == number.checked_sub(1)
        && row.place == 0
        && row.name.is_none()
}

fn check_rows<R: Abort + Threads + Wait + Sync>(
    crew: &Crew<'_, R, OpenGate>,
    text: &[u8],
    piece: usize,
    settings: &Settings,
) {
    let cutting = Cutting::every(text.len(), piece.max(1)).expect(crew.rt, "pieces");
    let answer = indexed(crew, text, &cutting, settings).expect(crew.rt, "an answer");
    let TextAnswer::Accepted(index) = answer else {
        panic!(crew.rt; "no text")
    };
    let mut rows = index.rows().iter().enumerate();
    let other = rows.position(|(number, row)| !is_nested(row, number, 600));
    let count = index.rows().len();
    assert!(crew.rt;
        count == 600 && other.is_none(),
        "{count} rows, and {other:?} another one, by {settings:?}"
    );
}
