ghost use Rattle.std.specs.Prelude.{◌≡◌, ◌≤◌, length, IfOk, IfErr};
ghost use Rattle.jx_run.specs.Settings.{JudgedBy};
ghost use Rattle.jx_run.specs.declared.texts.verdict.Verdict.TheVariants as verdict;
ghost use Rattle.jx_book.specs.Gathered.{IsRest};
ghost use Rattle.jx_answer.specs.Answers.{IsAnswer};
ghost use Rattle.jx_index.specs.ByNames.{IsVerdictBy};
ghost use Rattle.jx_index.specs.RowsAlone.{AreRowsBy, AreRowsRead};
ghost use Rattle.jx_index.specs.Settled.{IsAnswerBy, IsAnswerFrom, IsReadBy};

use crate::batches::asking::{Asking, read_pieces};
use crate::fault::Fault;
use crate::laws::{answer_with_settings_off, verdict_without_a_rule_on_names};
use jx_book::{Held, read_whole};
use jx_claim::Cutting;
use jx_crew::{Crew, Gate, Workers};
use jx_index::{Row, TextAnswer, index_behind_a_front, rows_from, verdict_with_unique_names};
use jx_lex::Depth;
use jx_run::{
    Front, NameRule, OutcomeRun, Reader, Refusal, Settings, Summary, TextRun, Verdict, front,
};
use std::alloc::{AllocError, Global};
use std::sync::Wait;
use std::thread::Threads;

/// Reads a JSON text (RFC 8259) by that many workers, who take the chunks of the division, and indexes it where it is
/// accepted. It may wait for the workers. The gate is asked after each step of a worker and may stop the worker; the
/// calling thread reads what is left. One worker alone starts no thread: the calling thread reads chunk by chunk, and
/// asks the gate as each begins, until it says stop. A division of at most one chunk starts no worker and asks no gate.
/// The only fault is out of memory.
pub fn index_text<'a, R: Threads + Wait + Sync, G: Gate + Sync>(
    rt: &R,
    alloc: Global,
    text: &'a [u8],
    cutting: &Cutting,
    workers: Workers,
    depth: Depth,
    gate: &G,
) -> Result<TextAnswer<'a>, Fault>
    requires cutting { cutting.now.len ≡ length text.now }
    requires front { cutting.now.front ≡ 0 }
    // For every division, number of workers and gate, it is the answer that the standard gives for the bytes.
    ensures answer { IfOk result (λ answer. IsAnswer text.entry.now depth answer) }
{
    answer_with_settings_off();
    index_text_with(rt, alloc, text, cutting, workers, &depth.into(), gate)
}

/// Reads a text as `index_text` does, by settings. An ignored byte order mark may stand in front of the text. It is skipped here, so
/// the division is of the whole input; offsets count the bytes of the byte order mark. Where names have to be unique, what
/// is otherwise accepted is refused for the first name that an object repeats.
pub fn index_text_with<'a, R: Threads + Wait + Sync, G: Gate + Sync>(
    rt: &R,
    alloc: Global,
    text: &'a [u8],
    cutting: &Cutting,
    workers: Workers,
    settings: &Settings,
    gate: &G,
) -> Result<TextAnswer<'a>, Fault>
    requires cutting { cutting.now.len ≡ length text.now }
    requires front { cutting.now.front ≡ 0 }
    ensures answer { IfOk result (λ answer. IsAnswerBy settings.now text.entry.now answer) }
{
    let crew = Crew {
        rt,
        alloc,
        workers,
        gate,
    };
    let answer = index_behind_front(&crew, text, cutting, settings)?;
    Ok(answer.by_names(settings.names))
}

/// Reads a text by settings, whatever names the objects have.
fn index_behind_front<'a, R: Threads + Wait + Sync, G: Gate + Sync>(
    crew: &Crew<'_, R, G>,
    text: &'a [u8],
    cutting: &Cutting,
    settings: &Settings,
) -> Result<TextAnswer<'a>, AllocError>
    requires cutting { cutting.now.len ≡ length text.now }
    requires front { cutting.now.front ≡ 0 }
    ensures answer { IfOk result (λ answer. IsReadBy settings.now text.entry.now answer) }
{
    index_behind_a_front();
    match front(text, settings.mark) {
        Front::Refused(refusal) => Ok(TextAnswer::Refused(refusal)),
        Front::Skip(count) => {
            let rest = behind(crew.alloc, cutting, count)?;
            index_rest(crew, text, &rest, settings.depth)
        }
    }
}

/// The verdict that `index_text_with` gives, without the index. One worker alone starts no thread, and neither do
/// names that have to be unique: the calling thread reads chunk by chunk, and asks the gate as each begins, until it
/// says stop. A division of at most one chunk asks no gate. The only fault is out of memory.
pub fn verdict_of_text<R: Threads + Wait + Sync, G: Gate + Sync>(
    crew: &Crew<'_, R, G>,
    text: &[u8],
    cutting: &Cutting,
    settings: &Settings,
) -> Result<Verdict, AllocError>
    requires cutting { cutting.now.len ≡ length text.now }
    requires front { cutting.now.front ≡ 0 }
    ensures verdict { IfOk result (λ verdict. IsVerdictBy settings.now text.now verdict) }
{
    verdict_without_a_rule_on_names();
    match settings.names {
        NameRule::Any => verdict_whatever_names(crew, text, cutting, settings),
        NameRule::Unique => {
            let mut asking = Asking::new(cutting, crew.gate);
            verdict_with_unique_names(crew.alloc, text, settings, &mut asking)
        }
    }
}

/// The verdict whatever names the objects have.
fn verdict_whatever_names<R: Threads + Wait + Sync, G: Gate + Sync>(
    crew: &Crew<'_, R, G>,
    text: &[u8],
    cutting: &Cutting,
    settings: &Settings,
) -> Result<Verdict, AllocError>
    requires cutting { cutting.now.len ≡ length text.now }
    requires front { cutting.now.front ≡ 0 }
    ensures verdict { IfOk result (λ verdict. JudgedBy settings.now 0 text.now verdict) }
{
    if cutting.count() <= 1 || crew.workers.count() == 1 {
        let mut reader = Reader::new(crew.alloc, settings, 0);
        read_pieces(&mut reader, text, cutting, crew.gate)?;
        return Ok(reader.verdict());
    }
    match front(text, settings.mark) {
        Front::Refused(refusal) => Ok(Verdict::Refused(refusal)),
        Front::Skip(count) => {
            let rest = behind(crew.alloc, cutting, count)?;
            let run = read_whole::<OutcomeRun, R, G>(crew, text, &rest, settings.depth)?;
            Ok(run.run().verdict())
        }
    }
}

/// The rows of the index that `index_text_with` makes, or the refusal. No children are listed, and no names sorted. The
/// calling thread reads, chunk by chunk, as it does for one worker. The only fault is out of memory.
pub fn rows_of_text<R, G: Gate>(
    crew: &Crew<'_, R, G>,
    text: &[u8],
    cutting: &Cutting,
    settings: &Settings,
) -> Result<Result<Vec<Row>, Refusal>, AllocError>
    requires cutting { cutting.now.len ≡ length text.now }
    requires front { cutting.now.front ≡ 0 }
    ensures accepted { IfOk result (λ read. IfOk read (λ rows. AreRowsBy settings.now text.now rows.items)) }
    ensures refused { IfOk result (λ read. IfErr read (λ refusal. IsVerdictBy settings.now text.now (verdict.Refused refusal))) }
{
    match settings.names {
        NameRule::Any => rows_behind_front(crew, text, cutting, settings),
        NameRule::Unique => {
            let mut asking = Asking::new(cutting, crew.gate);
            match verdict_with_unique_names(crew.alloc, text, settings, &mut asking)? {
                Verdict::Refused(refusal) => Ok(Err(refusal)),
                Verdict::Accepted => rows_behind_front(crew, text, cutting, settings),
            }
        }
    }
}

/// The rows whatever names the objects have.
fn rows_behind_front<R, G: Gate>(
    crew: &Crew<'_, R, G>,
    text: &[u8],
    cutting: &Cutting,
    settings: &Settings,
) -> Result<Result<Vec<Row>, Refusal>, AllocError>
    requires cutting { cutting.now.len ≡ length text.now }
    requires front { cutting.now.front ≡ 0 }
    ensures accepted { IfOk result (λ read. IfOk read (λ rows. AreRowsRead settings.now text.now rows.items)) }
    ensures refused { IfOk result (λ read. IfErr read (λ refusal. JudgedBy settings.now 0 text.now (verdict.Refused refusal))) }
{
    index_behind_a_front();
    match front(text, settings.mark) {
        Front::Refused(refusal) => Ok(Err(refusal)),
        Front::Skip(count) => {
            let rest = behind(crew.alloc, cutting, count)?;
            let mut asking = Asking::new(&rest, crew.gate);
            rows_from(crew.alloc, text, count, settings.depth, &mut asking)
        }
    }
}

/// The division without its first bytes.
fn behind(alloc: Global, cutting: &Cutting, front: usize) -> Result<Cutting, AllocError>
    requires from { cutting.now.front ≡ 0 }
    requires within { front ≤ cutting.now.len }
    ensures len { IfOk result (λ c. c.len ≡ cutting.now.len) }
    ensures front { IfOk result (λ c. c.front ≡ front) }
{
    let copy = cutting.copy(alloc)?;
    Ok(copy.without_front(front))
}

/// The answer on the text from the division's front on.
fn index_rest<'a, R: Threads + Wait + Sync, G: Gate + Sync>(
    crew: &Crew<'_, R, G>,
    text: &'a [u8],
    cutting: &Cutting,
    depth: Depth,
) -> Result<TextAnswer<'a>, AllocError>
    requires cutting { cutting.now.len ≡ length text.now }
    ensures answer { IfOk result (λ answer. IsAnswerFrom cutting.now.front text.entry.now depth answer) }
{
    if cutting.count() <= 1 || crew.workers.count() == 1 {
        let mut asking = Asking::new(cutting, crew.gate);
        return TextAnswer::read_from(crew.alloc, text, cutting.front(), depth, &mut asking);
    }
    let run = read_whole::<TextRun, R, G>(crew, text, cutting, depth)?;
    TextAnswer::of_run(crew.alloc, text, run.run())
}

/// The run over a text from the division's front on. A text of one chunk, or of none, is read on this thread.
pub(crate) fn read_text<'a, S: Summary + Send, R: Threads + Wait + Sync, G: Gate + Sync>(
    crew: &Crew<'_, R, G>,
    text: &'a [u8],
    cutting: &Cutting,
    depth: Depth,
) -> Result<Held<'a, S>, AllocError>
    requires cutting { cutting.now.len ≡ length text.now }
    ensures rest { IfOk result (λ h. IsRest text.entry.now depth cutting.now.front h) }
{
    if cutting.count() <= 1 {
        return Held::read(crew.alloc, text, cutting.front(), text.len(), depth);
    }
    read_whole(crew, text, cutting, depth)
}
