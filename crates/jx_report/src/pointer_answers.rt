// Answers to pointers into a text. Few are looked up while it is read, many in its index.
ghost use Rattle.std.specs.Prelude.{◌≡◌, length, map, string_bytes, IfOk};
ghost use Rattle.jx_run.specs.declared.texts.settings.NameRule.TheVariants.{Any};
ghost use Rattle.jx_run.specs.declared.texts.verdict.Verdict.TheVariants.{Accepted};
ghost use Rattle.jx_index.specs.ByNames.{IsVerdictBy};
ghost use Rattle.jx_words.specs.Answers.{AreAnswersBy};
ghost use Rattle.jx_report.specs.inside.PointerReads.{any_names};
ghost use Rattle.jx_report.specs.inside.IndexAnswers.{AreAnswersIn, answer_of};
ghost use Rattle.jx_words.specs.inside.ReadPointers.{each_answer};

use jx_answer::{Answer, TextAnswer, find_all, unique_verdicts_by_settings, verdict_of_text};
use jx_claim::Cutting;
use jx_crew::{Crew, Gate};
use jx_find::find_each_by;
use jx_index::{Indexed, PointerFault, index_behind_a_front, rows_of_look_ups};
use jx_run::{NameRule, Refusal, Settings, Verdict};
use jx_words::{PointerAnswer, answers_in, read_pointers};
use std::alloc::{AllocError, Global};
use std::sync::Wait;
use std::thread::Threads;

/// From how many pointers on an index is made, where there is also one for each so many bytes of the text.
pub(crate) const MANY: usize = 10_000;

const BYTES_FOR_EACH: usize = 128;

/// Whether to make an index takes less time than to look so many pointers up while the text is read.
fn are_many(pointers: usize, bytes: usize) -> bool {
    pointers >= MANY && pointers >= bytes / BYTES_FOR_EACH
}

/// The answer to a string that was read as a pointer in an index: why it is not a pointer, or what was found.
fn answer_of(unread: Option<PointerFault>, answer: Answer) -> PointerAnswer
    ensures { result ≡ answer_of unread answer }
{
    match unread {
        Some(fault) => PointerAnswer::Unread(fault),
        None => match answer {
            Answer::Found { kind, span, .. } => PointerAnswer::Found { kind, span },
            Answer::Fault(fault) => PointerAnswer::Lost(fault),
        },
    }
}

/// The answers to strings that were read as pointers in an index, in their order.
fn answers_of(
    alloc: Global,
    unread: &[Option<PointerFault>],
    answered: &[Answer],
) -> Result<Vec<PointerAnswer>, AllocError>
    requires { length unread.now ≡ length answered.now }
    ensures { IfOk result (λ answers. answers.items ≡ each_answer answer_of unread.now answered.now) }
{
    let mut answers = Vec::with_capacity(alloc, unread.len())?;
    for at in 0..unread.len() {
        answers.push(answer_of(unread[at], answered[at]))?;
    }
    Ok(answers)
}

/// The answers to pointers, by one reading of the text for all of them.
fn answers_in_one_pass(
    alloc: Global,
    settings: &Settings,
    pointers: &[String],
    text: &[u8],
) -> Result<Result<Vec<PointerAnswer>, Refusal>, AllocError>
    requires { settings.now.names ≡ Any }
    ensures { IfOk result (AreAnswersBy settings.now text.now (map string_bytes pointers.now)) }
{
    // By the contract of this call the proof knows what row a pointer leads to.
    rows_of_look_ups();
    let read = read_pointers(alloc, pointers)?;
    match find_each_by(alloc, text, settings, &read.pointers)? {
        Err(refusal) => Ok(Err(refusal)),
        Ok(found) => {
            let answers = answers_in(alloc, &read.unread, &found)?;
            Ok(Ok(answers))
        }
    }
}

/// The answers to pointers in the index of a text, which the crew looks up.
fn answers_in_index<R: Threads + Sync, G: Gate + Sync>(
    crew: &Crew<'_, R, G>,
    index: &Indexed<'_>,
    pointers: &[String],
) -> Result<Vec<PointerAnswer>, AllocError>
    ensures { IfOk result (λ answers. AreAnswersIn index.now (map string_bytes pointers.now) answers.items) }
{
    let read = read_pointers(crew.alloc, pointers)?;
    let Ok(answered) = find_all(
        crew.rt,
        crew.alloc,
        index,
        &read.pointers,
        crew.workers,
        crew.gate,
    ) else {
        return Err(AllocError);
    };
    answers_of(crew.alloc, &read.unread, &answered)
}

/// The answers to many pointers: the calling thread makes the text's index, and the crew looks the pointers up in it.
fn many_pointers_answers<R: Threads + Sync, G: Gate + Sync>(
    crew: &Crew<'_, R, G>,
    settings: &Settings,
    pointers: &[String],
    text: &[u8],
) -> Result<Result<Vec<PointerAnswer>, Refusal>, AllocError>
    ensures { IfOk result (AreAnswersBy settings.now text.now (map string_bytes pointers.now)) }
{
    index_behind_a_front();
    match TextAnswer::read(crew.alloc, text, settings)? {
        TextAnswer::Refused(refusal) => Ok(Err(refusal)),
        TextAnswer::Accepted(index) => {
            let answers = answers_in_index(crew, &index, pointers)?;
            Ok(Ok(answers))
        }
    }
}

/// These settings, but objects may have any names.
pub(crate) fn with_any_names(settings: &Settings) -> Settings
    ensures { result ≡ any_names settings.now }
{
    Settings {
        depth: settings.depth,
        mark: settings.mark,
        names: NameRule::Any,
    }
}

/// The answers to pointers in a text that is known to be accepted.
fn answers_in_accepted(
    alloc: Global,
    settings: &Settings,
    pointers: &[String],
    text: &[u8],
) -> Result<Result<Vec<PointerAnswer>, Refusal>, AllocError>
    requires { IsVerdictBy settings.now text.now Accepted }
    ensures { IfOk result (AreAnswersBy settings.now text.now (map string_bytes pointers.now)) }
{
    unique_verdicts_by_settings();
    answers_in_one_pass(alloc, &with_any_names(settings), pointers, text)
}

/// The answers to pointers, in their order, in a text by the rule on names, or why it is refused. The crew looks many
/// up in an index. Few are looked up while the calling thread reads the text. Where names have to be unique it is then
/// read twice: it is judged first.
pub fn answers_to_pointers<R: Threads + Wait + Sync, G: Gate + Sync>(
    crew: &Crew<'_, R, G>,
    settings: &Settings,
    pointers: &[String],
    text: &[u8],
    cutting: &Cutting,
) -> Result<Result<Vec<PointerAnswer>, Refusal>, AllocError>
    requires cutting { cutting.now.len ≡ length text.now }
    requires front { cutting.now.front ≡ 0 }
    ensures { IfOk result (AreAnswersBy settings.now text.now (map string_bytes pointers.now)) }
{
    if are_many(pointers.len(), text.len()) {
        return many_pointers_answers(crew, settings, pointers, text);
    }
    match settings.names {
        NameRule::Any => answers_in_one_pass(crew.alloc, settings, pointers, text),
        NameRule::Unique => match verdict_of_text(crew, text, cutting, settings)? {
            Verdict::Accepted => answers_in_accepted(crew.alloc, settings, pointers, text),
            Verdict::Refused(refusal) => Ok(Err(refusal)),
        },
    }
}
