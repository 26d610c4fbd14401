ghost use Rattle.std.specs.Prelude.{IfOk};
ghost use Rattle.jx_run.specs.Verdict.{Judged};

use crate::example_fault::ExampleFault;
use jx_answer::{verdict_of_text, verdict_without_a_rule_on_names};
use jx_claim::Cutting;
use jx_crew::{Crew, OpenGate, Workers};
use jx_lex::Depth;
use jx_run::{Verdict, verdicts_with_a_refused_mark};
use std::alloc::Global;
use std::sync::Wait;
use std::thread::Threads;

/// The verdict on bytes: whether they are a JSON text of at most 512 containers within one another, and where they stop
/// being one.
pub fn check<R: Threads + Wait + Sync>(
    rt: &R,
    alloc: Global,
    text: &[u8],
    workers: Workers,
) -> Result<Verdict, ExampleFault>
    ensures { IfOk result (Judged 0 text.now 512) }
{
    verdicts_with_a_refused_mark();
    verdict_without_a_rule_on_names();
    let cutting = Cutting::every(text.len(), 65536)?;
    let crew = Crew {
        rt,
        alloc,
        workers,
        gate: &OpenGate,
    };
    Ok(verdict_of_text(&crew, text, &cutting, &Depth::default().into())?)
}
