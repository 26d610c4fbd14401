/// The answer of a chunk queue that is closed.
#[derive(Clone, Copy, Debug, PartialEq, Eq)]
pub struct Drawn {
    /// How many chunks were taken.
    pub pieces: u32,
}
