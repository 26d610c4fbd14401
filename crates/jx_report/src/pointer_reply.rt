// The reply for pointers into a text.
ghost use Rattle.std.specs.Prelude.{◌≡◌, ℕ, List, length, map, string_bytes, IfOk};
ghost use Rattle.jx_run.specs.declared.texts.settings.Settings.{Settings};
ghost use Rattle.jx_words.specs.Answers.{AreAnswersBy};
ghost use Rattle.jx_report.specs.Output.{AnswersPointers, TextOutput};
ghost use Rattle.jx_report.specs.inside.Replies.{reply_exit, reply_output};

use crate::pointer_answers::answers_to_pointers;
use crate::reply::Reply;
use jx_claim::Cutting;
use jx_crew::{Crew, Gate};
use jx_run::{Refusal, Settings, Verdict};
use jx_words::PointerAnswer;
use std::alloc::AllocError;
use std::sync::Wait;
use std::thread::Threads;

/// The reply with answers, or with the verdict on what is refused.
pub(crate) fn reply_of_answers(answers: Result<Vec<PointerAnswer>, Refusal>) -> Reply
    ensures { (settings : Settings) (spelt : List (List ℕ)) (text : List ℕ) → AreAnswersBy settings text spelt answers
        → TextOutput (AnswersPointers spelt settings text) settings text (reply_output result) (reply_exit result) }
{
    match answers {
        Err(refusal) => Reply::Verdict(Verdict::Refused(refusal)),
        Ok(answers) => Reply::Pointers(answers),
    }
}

/// The answers to pointers in a text, or the verdict on what is refused.
pub fn reply_for_pointers<R: Threads + Wait + Sync, G: Gate + Sync>(
    crew: &Crew<'_, R, G>,
    settings: &Settings,
    pointers: &[String],
    text: &[u8],
    cutting: &Cutting,
) -> Result<Reply, AllocError>
    requires cutting { cutting.now.len ≡ length text.now }
    requires front { cutting.now.front ≡ 0 }
    ensures { IfOk result (λ reply. TextOutput (AnswersPointers (map string_bytes pointers.now) settings.now text.now) settings.now text.now (reply_output reply) (reply_exit reply)) }
{
    let answers = answers_to_pointers(crew, settings, pointers, text, cutting)?;
    Ok(reply_of_answers(answers))
}
