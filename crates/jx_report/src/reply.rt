ghost use Rattle.std.specs.Prelude.{◌≡◌, length, IfOk};
ghost use Rattle.jx_task.specs.declared.task.Task.TheVariants.{Index, Seq};
ghost use Rattle.jx_report.specs.Output.{Output};
ghost use Rattle.jx_report.specs.inside.Replies.{reply_exit, reply_output};

use crate::element_words::exit_of_elements;
use crate::pointer_reply::reply_for_pointers;
use jx_answer::{judge_sequence, rows_of_text, verdict_of_text};
use jx_claim::Cutting;
use jx_crew::{Crew, Gate};
use jx_ends::Exit;
use jx_index::Row;
use jx_run::{JudgedElement, Settings, Verdict};
use jx_task::{Command, Task};
use jx_words::{PointerAnswer, exit_of_answers, exit_of_verdict};
use std::alloc::AllocError;
use std::sync::Wait;
use std::thread::Threads;

/// The reply to an input, before it is written.
#[derive(Debug, Drop)]
pub enum Reply {
    /// The verdict alone.
    Verdict(Verdict),
    /// All rows of an accepted text.
    Rows(Vec<Row>),
    /// The answer to each pointer into an accepted text.
    Pointers(Vec<PointerAnswer>),
    /// The elements of a text sequence.
    Elements(Vec<JudgedElement>),
}

impl Reply {
    /// The exit of the program when this is written.
    pub fn exit(&self) -> Exit
        ensures { result ≡ reply_exit self.now }
    {
        match self {
            Reply::Verdict(verdict) => exit_of_verdict(*verdict),
            Reply::Rows(_) => Exit::Good,
            Reply::Pointers(answers) => exit_of_answers(answers),
            Reply::Elements(elements) => exit_of_elements(elements),
        }
    }
}

/// The reply for a text sequence: the verdicts on its elements. Where there is one worker, it reads the sequence as one
/// chunk.
fn sequence_reply<R: Threads + Wait + Sync, G: Gate + Sync>(
    crew: &Crew<'_, R, G>,
    settings: &Settings,
    text: &[u8],
    cutting: &Cutting,
) -> Result<Reply, AllocError>
    requires cutting { cutting.now.len ≡ length text.now }
    requires front { cutting.now.front ≡ 0 }
    ensures { IfOk result (λ reply. Output Seq settings.now text.now (reply_output reply) (reply_exit reply)) }
{
    let whole = Cutting::every(text.len(), text.len().max(1));
    let cutting = match &whole {
        Ok(whole) if crew.workers.count() == 1 => whole,
        _ => cutting,
    };
    let elements = judge_sequence(crew, text, cutting, settings)?;
    Ok(Reply::Elements(elements))
}

/// The reply with the rows of a text, which one worker reads.
fn rows_reply<R: Threads + Wait + Sync, G: Gate + Sync>(
    crew: &Crew<'_, R, G>,
    settings: &Settings,
    text: &[u8],
    cutting: &Cutting,
) -> Result<Reply, AllocError>
    requires cutting { cutting.now.len ≡ length text.now }
    requires front { cutting.now.front ≡ 0 }
    ensures { IfOk result (λ reply. Output Index settings.now text.now (reply_output reply) (reply_exit reply)) }
{
    match rows_of_text(crew, text, cutting, settings)? {
        Ok(rows) => Ok(Reply::Rows(rows)),
        Err(refusal) => Ok(Reply::Verdict(Verdict::Refused(refusal))),
    }
}

/// The reply to a command on an input; `Err` when out of memory. One worker reads the text, in one pass from its start.
/// That takes less time and memory than the runs of several workers and the rows that are then made of these.
pub fn reply_to<R: Threads + Wait + Sync, G: Gate + Sync>(
    crew: &Crew<'_, R, G>,
    command: &Command,
    text: &[u8],
    cutting: &Cutting,
) -> Result<Reply, AllocError>
    requires cutting { cutting.now.len ≡ length text.now }
    requires front { cutting.now.front ≡ 0 }
    ensures { IfOk result (λ reply. Output command.now.task command.now.settings text.now (reply_output reply) (reply_exit reply)) }
{
    let settings = &command.settings;
    match &command.task {
        Task::Check => {
            let verdict = verdict_of_text(crew, text, cutting, settings)?;
            Ok(Reply::Verdict(verdict))
        }
        Task::Index => rows_reply(crew, settings, text, cutting),
        Task::At(pointers) => reply_for_pointers(crew, settings, pointers, text, cutting),
        Task::Seq => sequence_reply(crew, settings, text, cutting),
    }
}
