ghost use Rattle.std.specs.Prelude.{◌≡◌, ◌+◌, ◌<◌, ◌≤◌, ◌^◌, length, IfOk};
ghost use Rattle.std.specs.List.{AllZip};
ghost use Rattle.jx_run.specs.Elements.{elements as elements_of};
ghost use Rattle.jx_run.specs.ElementVerdict.{IsJudgedElement};
ghost use Rattle.jx_run.specs.SequenceRead.{StartsWithSeparator};
ghost use Rattle.jx_index.specs.ByNames.{AreJudgedBy};

use crate::batches::element_cuts::element_cutting;
use crate::bytes::texts::read_text;
use jx_claim::Cutting;
use jx_crew::{Crew, Gate};
use jx_index::judged_by_names;
use jx_lex::Depth;
use jx_run::{
    ElementsRun, FrontMark, JudgedElement, Settings, elements_of_part, front, judged_by_mark,
};
use std::alloc::AllocError;
use std::sync::Wait;
use std::thread::Threads;

/// The answers that `index_sequence_with` gives on the elements, without the indexes. Of each element it holds its span and
/// its verdict alone. Where names have to be unique, each element that is otherwise accepted is indexed for itself, so that
/// no two indexes stand in memory at once.
pub fn judge_sequence<R: Threads + Wait + Sync, G: Gate + Sync>(
    crew: &Crew<'_, R, G>,
    text: &[u8],
    cutting: &Cutting,
    settings: &Settings,
) -> Result<Vec<JudgedElement>, AllocError>
    requires cutting { cutting.now.len ≡ length text.now }
    requires front { cutting.now.front ≡ 0 }
    ensures elements { IfOk result (λ judged. AreJudgedBy settings.now text.now judged.items) }
{
    let run = read_text::<ElementsRun, R, G>(crew, text, cutting, settings.depth)?;
    let all = run.into_run().into_elements()?;
    let elements = judged_by_mark(settings.mark, front(text, FrontMark::Ignored), all);
    judged_by_names(crew.alloc, text, settings, elements)
}

/// Judges the elements of a batch of a text sequence, which begins with a record separator and follows `before` bytes,
/// by the crew. The last element ends with the batch. Offsets are those in the whole sequence. Several workers take
/// chunks of the batch, which have so many bytes and what is left of an element then, so that each element is read from
/// its start; they put what they judged into an accumulator. The gate is asked after each step, as by `work`. The
/// calling thread judges what a worker was not let judge, or had no memory for. One worker asks no gate. The only fault
/// is out of memory.
pub fn judge_batch<R: Threads + Wait + Sync, G: Gate + Sync>(
    crew: &Crew<'_, R, G>,
    batch: &[u8],
    before: usize,
    depth: Depth,
    piece: usize,
) -> Result<Vec<JudgedElement>, AllocError>
    requires starts { StartsWithSeparator batch.now }
    requires fits { before + length batch.now < 2 ^ 64 }
    requires piece { 1 ≤ piece }
    // For every number of workers and gate, these are the verdicts on the elements of the batch.
    ensures elements { IfOk result (λ judged. AllZip (IsJudgedElement depth) (elements_of before batch.now) judged.items) }
{
    if crew.workers.count() == 1 {
        return elements_of_part(crew.alloc, batch, before, depth);
    }
    let Ok(cutting) = element_cutting(crew.alloc, batch, piece) else {
        return elements_of_part(crew.alloc, batch, before, depth);
    };
    let run = read_text::<ElementsRun, R, G>(crew, batch, &cutting, depth)?;
    run.into_run().into_elements_behind(before)
}
