// Bytes between tokens, by what they say of the open containers.
ghost use Rattle.std.specs.Prelude.{◌≡◌};
ghost use Rattle.jx_each.specs.Turns.{sign_of, turn_by};

/// The structural bytes (RFC 8259, section 2).
#[derive(Clone, Copy, Debug, PartialEq, Eq)]
pub enum Sign {
    OpenArray,
    OpenObject,
    Close,
    Comma,
    Colon,
    Other,
}

/// The effect of a byte at its height, the count of containers that are open before it.
#[derive(Clone, Copy, Debug, PartialEq, Eq)]
pub enum Turn {
    /// It opens the first one.
    EnterArray,
    EnterObject,
    /// It follows an element, and another follows.
    Next,
    /// It stands between a name and its value.
    Value,
    /// It closes the first one.
    Leave,
    /// It follows a value where none was opened.
    Past,
    /// It stands in an element, or in no container.
    Stay,
}

/// Which structural byte a byte is, outside of strings.
pub(crate) fn sign_of(byte: u8) -> Sign
    ensures { result ≡ sign_of byte }
{
    if byte == b'[' {
        Sign::OpenArray
    } else if byte == b'{' {
        Sign::OpenObject
    } else if byte == b']' {
        Sign::Close
    } else if byte == b'}' {
        Sign::Close
    } else if byte == b',' {
        Sign::Comma
    } else if byte == b':' {
        Sign::Colon
    } else {
        Sign::Other
    }
}

/// The effect of such a byte at a height.
pub(crate) fn turn_by(height: usize, sign: Sign) -> Turn
    ensures { result ≡ turn_by height sign }
{
    if height == 0 {
        match sign {
            Sign::OpenArray => Turn::EnterArray,
            Sign::OpenObject => Turn::EnterObject,
            Sign::Close | Sign::Comma => Turn::Past,
            Sign::Colon | Sign::Other => Turn::Stay,
        }
    } else if height == 1 {
        match sign {
            Sign::Comma => Turn::Next,
            Sign::Colon => Turn::Value,
            Sign::Close => Turn::Leave,
            Sign::OpenArray | Sign::OpenObject | Sign::Other => Turn::Stay,
        }
    } else {
        Turn::Stay
    }
}
