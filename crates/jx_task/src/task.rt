// Questions that may be asked of an input.

/// A question that is asked of an input.
#[derive(Debug, Drop)]
pub enum Task {
    /// Whether the whole input is a JSON text (RFC 8259, section 2).
    Check,
    /// Whether it is one, and all its rows.
    Index,
    /// The value of each of these pointers in it (RFC 6901, section 4). A pointer is here as it was given, also where
    /// it is not one.
    At(Vec<String>),
    /// Which elements of a JSON text sequence are JSON texts (RFC 7464, section 2).
    Seq,
}
