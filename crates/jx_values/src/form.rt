/// How a value is written.
#[derive(Clone, Copy, Debug, PartialEq, Eq)]
pub struct Form {
    /// Whether white space between tokens is left out.
    pub is_compact: bool,
    /// Whether a string is written as the UTF-8 of the characters that it stands for (RFC 8259, section 7). One with half of a
    /// surrogate pair alone has no UTF-8, and is not written.
    pub is_raw: bool,
}
