// How far bytes move a position on, where that is kept.
ghost use Rattle.std.specs.Prelude.{◌≡◌, ℕ, List, IfSome};
ghost use Rattle.jx_edit.specs.inside.Moves.{AreMoves};
ghost use Rattle.jx_edit.specs.Positions.{first, position_behind};

use crate::positions::encoding::Encoding;
use crate::positions::position::Position;

/// How far bytes move a position on by one encoding: the position after them, where a text begins with them.
#[derive(Clone, Copy)]
pub(crate) struct Moves {
    pub(crate) encoding: Encoding,
    pub(crate) position: Position,
}

/// The position after bytes, where it is kept by this encoding.
pub(crate) fn kept_by(moves: Option<Moves>, encoding: Encoding) -> Option<Position>
    ensures { (bytes : List ℕ) → IfSome moves (AreMoves bytes) → IfSome result (λ p. p ≡ position_behind encoding first bytes) }
{
    match moves {
        Some(moves) if moves.encoding == encoding => Some(moves.position),
        _ => None,
    }
}
