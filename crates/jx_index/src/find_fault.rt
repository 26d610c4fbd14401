use thiserror::Error;

/// Why a pointer leads nowhere (RFC 6901, section 4), and the number of the token that does not lead on, counted from 0.
#[derive(Clone, Copy, Debug, Error, PartialEq, Eq)]
pub enum FindFault {
    /// The object has no member of that name.
    #[error("no such member at token {token}")]
    NoSuchMember { token: usize },
    /// The object has two or more members of that name.
    #[error("name repeated at token {token}")]
    NameRepeated { token: usize },
    /// In an array the token is neither `-` nor a number: `0`, or digits without a leading `0`.
    #[error("not an index at token {token}")]
    NotAnIndex { token: usize },
    /// The number is not below the count of the array's elements.
    #[error("past end at token {token}")]
    PastEnd { token: usize },
    /// The token is `-`, which names what would stand after an array's last element.
    #[error("after last at token {token}")]
    AfterLast { token: usize },
    /// The value is neither an object nor an array.
    #[error("not a container at token {token}")]
    NotAContainer { token: usize },
}
