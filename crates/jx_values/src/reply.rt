ghost use Rattle.std.specs.Prelude.{◌≢◌, ◌<◌, ◌≤◌, length, IfOk, IfErr, IsErrOf};
ghost use Rattle.jx_report.specs.Reports.{greatest_length};
ghost use Rattle.jx_values.specs.inside.Replies.{IsReplyTo};

use crate::form::Form;
use crate::telling::{told_of_answers, told_of_refusal};
use jx_claim::Cutting;
use jx_crew::{Crew, Gate};
use jx_ends::ReportFault;
use jx_report::answers_to_pointers;
use jx_task::ValuesTask;
use jx_words::PointerAnswer;
use std::sync::Wait;
use std::thread::Threads;

/// The reply to an input, before it is written.
#[derive(Debug, Drop)]
pub struct Reply {
    /// The answer to each pointer; of a refused text none.
    pub answers: Vec<PointerAnswer>,
    /// The report.
    pub told: Vec<u8>,
}

/// A reply, and bytes of the text, among which the answers have their spans: all of them, or those of the values that are written.
#[derive(Drop)]
pub struct Held {
    pub text: Vec<u8>,
    pub reply: Reply,
}

/// The reply on a text.
pub(crate) fn reply_on<R: Threads + Wait + Sync, G: Gate + Sync>(
    crew: &Crew<'_, R, G>,
    form: Form,
    task: &ValuesTask,
    text: &[u8],
) -> Result<Reply, ReportFault>
    requires { 1 ≤ task.now.piece }
    ensures ok { IfOk result (λ reply. IsReplyTo form task.now text.now reply) }
    ensures few { IfOk result (λ _. length text.now ≤ greatest_length task.now.piece) }
    ensures pieces { IsErrOf result ReportFault.Pieces → greatest_length task.now.piece < length text.now }
    ensures unread { IfErr result (λ fault. fault ≢ ReportFault.Read) }
    ensures unwritten { IfErr result (λ fault. fault ≢ ReportFault.Write) }
{
    let alloc = crew.alloc;
    let Ok(cutting) = Cutting::every(text.len(), task.piece) else {
        return Err(ReportFault::Pieces);
    };
    match answers_to_pointers(crew, &task.settings, &task.pointers, text, &cutting)? {
        Err(refusal) => {
            let told = told_of_refusal(alloc, refusal)?;
            let answers = Vec::new(alloc);
            Ok(Reply { answers, told })
        }
        Ok(answers) => {
            let told = told_of_answers(alloc, form, text, &task.pointers, &answers)?;
            Ok(Reply { answers, told })
        }
    }
}
