// The lexical machine, one byte at a time.
ghost use Rattle.std.specs.Prelude.{◌≡◌};
ghost use Rattle.jx_lex.specs.Moves.{move};
ghost use Rattle.jx_lex.specs.inside.Cells.{step_of};

use crate::alphabet::cell::Cell;
use crate::alphabet::cells::CELLS;
use crate::alphabet::class::class_of;
use crate::alphabet::state::{LexState, Step, TokenEnd};

/// The effect of the byte in the state, for loops that read many.
#[inline(always)]
pub(crate) fn cell_at(state: LexState, byte: u8) -> Cell
    ensures moves { step_of result ≡ move state byte }
{
    CELLS[class_of(byte) as usize][state as usize]
}

/// Reads one byte.
pub fn step(state: LexState, byte: u8) -> Step
    ensures moves { result ≡ move state byte }
{
    step_of(cell_at(state, byte))
}

/// The step of a cell: which token ends and which begins with the byte, and the state after it.
fn step_of(cell: Cell) -> Step
    ensures { result ≡ step_of cell }
{
    let (end, begin, next) = match cell {
        Cell::Go(next) => (None, None, Some(next)),
        Cell::Begin(next, kind) => (None, Some(kind), Some(next)),
        Cell::Close => (Some(TokenEnd::After), None, Some(LexState::Gap)),
        Cell::End(next) => (Some(TokenEnd::Before), None, Some(next)),
        Cell::EndThenBegin(next, kind) => (Some(TokenEnd::Before), Some(kind), Some(next)),
        Cell::Fault => (None, None, None),
        Cell::EndThenFault => (Some(TokenEnd::Before), None, None),
    };
    Step { end, begin, next }
}
