// The calls that answer on a text, on a sequence or on pointers, and whether what they answer is right.
ghost use Rattle.std.specs.Prelude.{◌≡◌, length, IfOk};

use crate::tests::answers::{
    LookUp, ToldElement, are_found, are_judged, are_told, is_worked, worked_verdict,
};
use crate::tests::inputs::WorkedSequence;
use jx_answer::{
    Element, Fault, TextAnswer, find_all, index_sequence, index_sequence_with, index_text,
    index_text_with, judge_sequence, verdict_of_text,
};
use jx_book::{Held, read_whole};
use jx_claim::Cutting;
use jx_crew::{Crew, Gate, OpenGate, Workers};
use jx_index::{Indexed, Pointer};
use jx_lex::Depth;
use jx_run::{Front, NameRule, Settings, TextRun, Verdict, front};
use std::alloc::{AllocError, Global};
use std::process::Abort;
use std::sync::Wait;
use std::thread::Threads;
use test_memory_of_runs::inputs::Worked;

/// A call that answers on a text.
#[derive(Clone, Copy)]
pub enum TextCall {
    /// `index_text`, which takes no settings but the depth.
    Plain,
    /// `index_text_with`, by which one worker reads the text in one pass.
    Index,
    /// `verdict_of_text`, by which one worker reads the text chunk by chunk, and several put the run of each into an accumulator.
    Verdict,
    /// `read_whole`, by which one worker puts the run of each chunk into an accumulator, and `Indexed::of_run`.
    Run,
}

/// Those that take settings.
pub const TEXT_CALLS: [TextCall; 3] = [TextCall::Index, TextCall::Verdict, TextCall::Run];

/// Those, and the one that takes no settings.
pub const ALL_TEXT_CALLS: [TextCall; 4] = [
    TextCall::Plain,
    TextCall::Index,
    TextCall::Verdict,
    TextCall::Run,
];

/// A call that answers on a sequence.
#[derive(Clone, Copy)]
pub enum SequenceCall {
    /// `index_sequence`, which takes no settings but the depth.
    Plain,
    /// `index_sequence_with`.
    Index,
    /// `judge_sequence`.
    Judge,
}

/// Those that take settings.
pub const SEQUENCE_CALLS: [SequenceCall; 2] = [SequenceCall::Index, SequenceCall::Judge];

/// Those, and the one that takes no settings.
pub const ALL_SEQUENCE_CALLS: [SequenceCall; 3] = [
    SequenceCall::Plain,
    SequenceCall::Index,
    SequenceCall::Judge,
];

/// Pointers into an index of a text, and the answers to them.
#[derive(Clone, Copy)]
pub struct LookUps<'a> {
    pub text: &'a [u8],
    pub index: &'a Indexed<'a>,
    pub pointers: &'a [Pointer<'a>],
    pub want: &'a [LookUp],
}

/// A call that is asked of a crew, with what is right.
#[derive(Clone, Copy)]
pub enum Asked<'a> {
    Text(TextCall, &'a Worked),
    Sequence(SequenceCall, &'a WorkedSequence),
    Pointers(&'a LookUps<'a>),
}

impl<'a> Asked<'a> {
    /// The call's name.
    pub fn call(self) -> &'static str {
        match self {
            Asked::Text(TextCall::Plain, _) => "index_text",
            Asked::Text(TextCall::Index, _) => "index_text_with",
            Asked::Text(TextCall::Verdict, _) => "verdict_of_text",
            Asked::Text(TextCall::Run, _) => "read_whole",
            Asked::Sequence(SequenceCall::Plain, _) => "index_sequence",
            Asked::Sequence(SequenceCall::Index, _) => "index_sequence_with",
            Asked::Sequence(SequenceCall::Judge, _) => "judge_sequence",
            Asked::Pointers(_) => "find_all",
        }
    }

    /// The bytes that are read.
    pub fn text(self) -> &'a [u8] {
        match self {
            Asked::Text(_, worked) => worked.text,
            Asked::Sequence(_, sequence) => sequence.0,
            Asked::Pointers(look_ups) => look_ups.text,
        }
    }
}

/// Whether a crew, who reads a text a byte at a time, answers rightly by these settings. Pointers need none.
pub fn is_right<R: Threads + Wait + Sync, G: Gate + Sync>(
    crew: &Crew<'_, R, G>,
    asked: Asked<'_>,
    settings: &Settings,
) -> Result<bool, AllocError> {
    match asked {
        Asked::Text(call, worked) => is_text_right(crew, call, worked, settings),
        Asked::Sequence(call, sequence) => is_sequence_right(crew, call, sequence, settings),
        Asked::Pointers(look_ups) => are_pointers_right(crew, look_ups),
    }
}

/// A crew of so many workers that no gate stops.
pub fn crew_of<'c, R: Abort>(rt: &'c R, alloc: Global, count: u8) -> Crew<'c, R, OpenGate> {
    Crew {
        rt,
        alloc,
        workers: Workers::new(count).expect(rt, "workers"),
        gate: &OpenGate,
    }
}

/// The pointer of these characters.
pub fn pointer_of<'p, R: Abort>(rt: &R, spelt: &'p str) -> Pointer<'p> {
    Pointer::read(spelt).expect(rt, "a pointer")
}

// The only fault is out of memory.
fn or_memory<T: Drop>(answer: Result<T, Fault>) -> Result<T, AllocError> {
    answer.ok().ok_or(AllocError)
}

/// Chunks of a byte.
fn bytes_of(text: &[u8]) -> Result<Cutting, AllocError>
    ensures len { IfOk result (λ cutting. cutting.len ≡ length text.now) }
    ensures front { IfOk result (λ cutting. cutting.front ≡ 0) }
{
    Cutting::every(text.len(), 1).ok().ok_or(AllocError)
}

/// The answer that a run over a text gives, whatever names its objects have.
pub fn answer_of<'a>(
    alloc: Global,
    held: &Held<'a, TextRun>,
) -> Result<TextAnswer<'a>, AllocError> {
    let run = held.run();
    match run.verdict() {
        Verdict::Refused(refusal) => Ok(TextAnswer::Refused(refusal)),
        Verdict::Accepted => {
            let index = Indexed::of_run(alloc, held.text(), run)?;
            Ok(TextAnswer::Accepted(index))
        }
    }
}

// The run over a text after so many bytes.
fn run_behind<'a, R: Threads + Wait + Sync, G: Gate + Sync>(
    crew: &Crew<'_, R, G>,
    text: &'a [u8],
    cutting: &Cutting,
    front: usize,
    depth: Depth,
) -> Result<Held<'a, TextRun>, AllocError>
    requires cutting { cutting.now.len ≡ length text.now }
    requires front { cutting.now.front ≡ 0 }
{
    let rest = cutting.copy(crew.alloc)?;
    let rest = rest.without_front(front.min(text.len()));
    read_whole::<TextRun, R, G>(crew, text, &rest, depth)
}

/// The answer on a text by its run, which a crew makes chunk by chunk and joins in an accumulator. So does one worker, on the calling thread,
/// where the division has two chunks or more after the byte order mark.
pub fn answer_by_run<'a, R: Threads + Wait + Sync, G: Gate + Sync>(
    crew: &Crew<'_, R, G>,
    text: &'a [u8],
    cutting: &Cutting,
    settings: &Settings,
) -> Result<TextAnswer<'a>, AllocError>
    requires cutting { cutting.now.len ≡ length text.now }
    requires front { cutting.now.front ≡ 0 }
{
    match front(text, settings.mark) {
        Front::Refused(refusal) => Ok(TextAnswer::Refused(refusal)),
        Front::Skip(count) => {
            let run = run_behind(crew, text, cutting, count, settings.depth)?;
            let answer = answer_of(crew.alloc, &run)?;
            Ok(answer.by_names(settings.names))
        }
    }
}

/// The answer of `index_text_with`.
pub fn indexed<'a, R: Threads + Wait + Sync, G: Gate + Sync>(
    crew: &Crew<'_, R, G>,
    text: &'a [u8],
    cutting: &Cutting,
    settings: &Settings,
) -> Result<TextAnswer<'a>, AllocError>
    requires cutting { cutting.now.len ≡ length text.now }
    requires front { cutting.now.front ≡ 0 }
{
    let (rt, alloc, workers, gate) = (crew.rt, crew.alloc, crew.workers, crew.gate);
    or_memory(index_text_with(rt, alloc, text, cutting, workers, settings, gate))
}

// The answer of `index_text`.
fn indexed_within<'a, R: Threads + Wait + Sync, G: Gate + Sync>(
    crew: &Crew<'_, R, G>,
    text: &'a [u8],
    cutting: &Cutting,
    depth: Depth,
) -> Result<TextAnswer<'a>, AllocError>
    requires cutting { cutting.now.len ≡ length text.now }
    requires front { cutting.now.front ≡ 0 }
{
    let (rt, alloc, workers, gate) = (crew.rt, crew.alloc, crew.workers, crew.gate);
    or_memory(index_text(rt, alloc, text, cutting, workers, depth, gate))
}

/// The index of a text by one worker, asked for twice when out of memory.
pub fn index_of<'a, R: Abort + Threads + Wait + Sync>(
    rt: &R,
    alloc: Global,
    text: &'a [u8],
) -> Indexed<'a> {
    let crew = crew_of(rt, alloc, 1);
    let cutting = Cutting::every(text.len(), 4).expect(rt, "pieces");
    let answer = match indexed_within(&crew, text, &cutting, Depth::default()) {
        Ok(answer) => answer,
        Err(AllocError) => {
            indexed_within(&crew, text, &cutting, Depth::default()).expect(rt, "an answer")
        }
    };
    match answer {
        TextAnswer::Accepted(index) => index,
        TextAnswer::Refused(_) => panic!(rt; "no text"),
    }
}

fn is_text_right<R: Threads + Wait + Sync, G: Gate + Sync>(
    crew: &Crew<'_, R, G>,
    call: TextCall,
    worked: &Worked,
    settings: &Settings,
) -> Result<bool, AllocError> {
    let cutting = bytes_of(worked.text)?;
    let (text, names) = (worked.text, settings.names);
    match call {
        TextCall::Verdict => {
            let verdict = verdict_of_text(crew, text, &cutting, settings)?;
            Ok(verdict == worked_verdict(worked, names))
        }
        TextCall::Plain => {
            let answer = indexed_within(crew, text, &cutting, settings.depth)?;
            Ok(is_worked(&answer, worked, NameRule::Any))
        }
        TextCall::Run => {
            let answer = answer_by_run(crew, text, &cutting, settings)?;
            Ok(is_worked(&answer, worked, names))
        }
        TextCall::Index => {
            let answer = indexed(crew, text, &cutting, settings)?;
            Ok(is_worked(&answer, worked, names))
        }
    }
}

// The elements of `index_sequence_with`, or of `index_sequence`, which takes no settings but the depth.
fn elements_by<'a, R: Threads + Wait + Sync, G: Gate + Sync>(
    crew: &Crew<'_, R, G>,
    call: SequenceCall,
    text: &'a [u8],
    cutting: &Cutting,
    settings: &Settings,
) -> Result<Vec<Element<'a>>, AllocError>
    requires cutting { cutting.now.len ≡ length text.now }
    requires front { cutting.now.front ≡ 0 }
{
    let (rt, alloc, workers, gate) = (crew.rt, crew.alloc, crew.workers, crew.gate);
    let depth = settings.depth;
    or_memory(match call {
        SequenceCall::Plain => index_sequence(rt, alloc, text, cutting, workers, depth, gate),
        _ => index_sequence_with(rt, alloc, text, cutting, workers, settings, gate),
    })
}

/// Whether a call by these settings gives these elements, and if it has them, their rows.
pub fn tells<R: Threads + Wait + Sync, G: Gate + Sync>(
    crew: &Crew<'_, R, G>,
    call: SequenceCall,
    text: &[u8],
    want: &[ToldElement],
    cutting: &Cutting,
    settings: &Settings,
) -> Result<bool, AllocError>
    requires cutting { cutting.now.len ≡ length text.now }
    requires front { cutting.now.front ≡ 0 }
{
    match call {
        SequenceCall::Judge => {
            let elements = judge_sequence(crew, text, cutting, settings)?;
            Ok(are_judged(&elements, want))
        }
        _ => {
            let elements = elements_by(crew, call, text, cutting, settings)?;
            Ok(are_told(&elements, want))
        }
    }
}

fn is_sequence_right<R: Threads + Wait + Sync, G: Gate + Sync>(
    crew: &Crew<'_, R, G>,
    call: SequenceCall,
    sequence: &WorkedSequence,
    settings: &Settings,
) -> Result<bool, AllocError> {
    let (text, want) = *sequence;
    let cutting = bytes_of(text)?;
    tells(crew, call, text, want, &cutting, settings)
}

fn are_pointers_right<R: Threads + Wait + Sync, G: Gate + Sync>(
    crew: &Crew<'_, R, G>,
    look_ups: &LookUps<'_>,
) -> Result<bool, AllocError> {
    let (rt, alloc, workers, gate) = (crew.rt, crew.alloc, crew.workers, crew.gate);
    let (index, pointers) = (look_ups.index, look_ups.pointers);
    let found = or_memory(find_all(rt, alloc, index, pointers, workers, gate))?;
    Ok(are_found(&found, look_ups.want))
}
