// The lines for pointers.
ghost use Rattle.std.specs.Prelude.{◌≡◌, IfOk};
ghost use Rattle.jx_ends.specs.declared.exit.Exit.TheVariants.{Good};
ghost use Rattle.jx_words.specs.inside.Lines.{exit_past_lines, pointer_lines};

use jx_ends::Exit;
use jx_words::{PointerAnswer, add_answer, answer_at, exit_of_answers};
use std::alloc::{AllocError, Global};

/// The lines for pointers, and what the report leads to.
#[derive(Debug, Drop)]
pub(crate) struct Lines {
    pub bytes: Vec<u8>,
    pub exit: Exit,
}

/// A line for each answer, in their order. The status is good where each pointer is found.
pub(crate) fn lines_of(alloc: Global, answers: &[PointerAnswer]) -> Result<Lines, AllocError>
    ensures bytes { IfOk result (λ lines. lines.bytes.items ≡ pointer_lines answers.now) }
    ensures exit { IfOk result (λ lines. lines.exit ≡ exit_past_lines Good answers.now) }
{
    let mut bytes = Vec::new(alloc);
    'lines: for number in 0..answers.len() {
        let answer = answer_at(answers, number);
        add_answer(&mut bytes, answer)?;
    }
    Ok(Lines {
        bytes,
        exit: exit_of_answers(answers),
    })
}
