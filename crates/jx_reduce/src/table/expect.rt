/// An expectation: what may stand next (RFC 8259, sections 2 to 5).
#[derive(Clone, Copy, Debug, PartialEq, Eq)]
pub enum Expect {
    /// A value.
    Value,
    /// A value, or the end of an array that is still empty.
    ArrayFirst,
    /// A name, or the end of an object that is still empty.
    ObjectFirst,
    /// A name.
    Name,
    /// The colon after a name.
    Colon,
    /// After a value: a comma, or the end of the container or of the text.
    After,
}
