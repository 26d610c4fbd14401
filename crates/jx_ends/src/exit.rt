/// The status of a report: how the program then ends.
#[derive(Clone, Copy, Debug, PartialEq, Eq)]
pub enum Exit {
    /// The text is accepted, and each pointer is found; or each element of the sequence is accepted.
    Good,
    /// The text is refused, a pointer leads nowhere or is not a pointer, or an element is not accepted.
    Bad,
}
