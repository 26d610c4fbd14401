// The content of an element's line.

/// The content of a line.
#[derive(Clone, Copy, Debug, PartialEq, Eq)]
pub enum LineContent {
    /// The value of an element or of a member.
    Alone,
    /// The name of a member as it is written, and its value: `{"name":NAME,"value":VALUE}`. The elements of an array
    /// have no names, and no lines then.
    Named,
    /// The name of a member alone, as it is written. The elements of an array have no lines then.
    NameAlone,
    /// No byte: a line feed for each element or member.
    Empty,
}
