// The laws of positions, for every list of bytes, on a function that does nothing.

ghost use Rattle.std.specs.Prelude.{◌≡◌, ◌≤◌, ◌<◌, ℕ, List, length, slice_index};
ghost use Rattle.jx_edit.specs.declared.positions.encoding.Encoding.{Encoding};
ghost use Rattle.jx_edit.specs.declared.positions.position.Position.{Position};
ghost use Rattle.jx_edit.specs.Positions.{first, offset_at, position_at, reach, units, IsLast};

/// The position of an offset leads back to it where the byte there adds units: where a character begins, and at each byte
/// where bytes are counted.
///
/// The bytes before a position are the most whose position is not after it.
pub fn position_round_trip()
    ensures back { (e : Encoding) (bytes : List ℕ) (offset : ℕ) → offset ≤ length bytes → 0 < units e (slice_index bytes offset) → offset_at e bytes (position_at e bytes offset) ≡ offset }
    ensures last { (e : Encoding) (bytes : List ℕ) (position : Position) → IsLast e first position bytes (reach e first position bytes) }
{}
