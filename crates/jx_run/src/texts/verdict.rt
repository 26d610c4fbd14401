/// Why a text, or an element of a sequence, is no JSON text (RFC 8259, section 2). Each offset counts bytes of the whole input
/// from 0; what stands of the text before it begins one within the depth.
#[derive(Clone, Copy, Debug, PartialEq, Eq)]
pub enum Refusal {
    /// These bytes up to and with the byte at this offset do not begin a text of any depth.
    Stopped { at: usize },
    /// It ends too early: a text within the depth begins with all of its bytes, and they are not one.
    Truncated,
    /// With the byte at this offset it begins only texts of a greater depth: the byte opens one container more than may stand
    /// open at once (section 9).
    TooDeep { at: usize },
    /// The name that begins at this offset, the first by offset that is that of an earlier member of its object (section 4).
    /// Only the settings can refuse one, and only in what is otherwise accepted.
    RepeatedName { at: usize },
}

/// The verdict on a text.
#[derive(Clone, Copy, Debug, PartialEq, Eq)]
pub enum Verdict {
    Accepted,
    Refused(Refusal),
}
