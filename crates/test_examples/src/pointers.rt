ghost use Rattle.std.specs.Prelude.{ℕ, IfOk};
ghost use Rattle.jx_run.specs.Text.{IsText};
ghost use Rattle.jx_run.specs.Tree.{Tree};
ghost use Rattle.test_examples.specs.LookUps.{IsLookUp, IsSpan};

use crate::example_fault::ExampleFault;
use jx_answer::{TextAnswer, index_text};
use jx_claim::Cutting;
use jx_crew::{OpenGate, Workers};
use jx_index::{FindFault, Indexed, Pointer, rows_of_look_ups};
use jx_lex::{Depth, Span};
use jx_run::Refusal;
use std::alloc::Global;
use std::sync::Wait;
use std::thread::Threads;

/// The answer to a pointer in a text.
#[derive(Clone, Copy, Debug, PartialEq, Eq)]
pub enum LookUp {
    /// Its value stands there.
    Found(Span),
    /// It leads nowhere.
    Lost(FindFault),
    /// The bytes are not valid JSON.
    Refused(Refusal),
}

/// Where the value stands to which a pointer (RFC 6901) leads in a text.
pub fn look_up<R: Threads + Wait + Sync>(
    rt: &R,
    alloc: Global,
    text: &[u8],
    pointer: &Pointer,
    workers: Workers,
) -> Result<LookUp, ExampleFault>
    ensures { IfOk result (IsLookUp text.now 512 pointer.now) }
{
    let cutting = Cutting::every(text.len(), 65536)?;
    let depth = Depth::default();
    match index_text(rt, alloc, text, &cutting, workers, depth, &OpenGate)? {
        TextAnswer::Accepted(index) => Ok(span_of(&index, pointer)),
        TextAnswer::Refused(refusal) => Ok(LookUp::Refused(refusal)),
    }
}

/// Where the value stands to which a pointer leads in an indexed text, or why it leads nowhere.
fn span_of(index: &Indexed, pointer: &Pointer) -> LookUp
    ensures { (limit : ℕ) (tree : Tree)
        → IsText index.now.text index.now.span.start index.now.span.end limit tree
        → IsSpan index.now.text tree pointer.now result }
{
    rows_of_look_ups();
    match index.find(pointer) {
        Ok(node) => LookUp::Found(index.row(node).span),
        Err(fault) => LookUp::Lost(fault),
    }
}
