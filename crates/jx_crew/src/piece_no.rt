/// The number of a chunk, counted from 0 in the order of the input.
#[derive(Clone, Copy, Debug, PartialEq, Eq)]
pub struct PieceNo(pub u32);
