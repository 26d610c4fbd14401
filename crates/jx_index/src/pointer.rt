ghost use Rattle.std.specs.Prelude.{◌≡◌, ◌<◌, ◌↔◌, [], IsTrue, length, IfOk, IfErr};
ghost use Rattle.jx_index.specs.Pointers.{IsEscapeDigit, IsBadEscape, IsPointer};
ghost use Rattle.jx_index.specs.PointerFaults.{IsFaultOf};

use crate::units::byte_at;
use std::marker::Model;
use thiserror::Error;

/// Why a text is no pointer (RFC 6901, section 3).
#[derive(Clone, Copy, Debug, Error, PartialEq, Eq)]
pub enum PointerFault {
    /// It is not empty and does not begin with `/`.
    #[error("no slash")]
    NoSlash,
    /// The first `~` without `0` or `1` after it, as a byte offset in the pointer.
    #[error("bad escape at {at}")]
    BadEscape { at: usize },
}

/// A pointer (RFC 6901, section 3): tokens, each after a `/`, in which `~0` stands for `~` and `~1` for `/`.
#[derive(Debug, Drop)]
pub struct Pointer<'p> {
    text: &'p str,
}

impl<'p> Model for Pointer<'p> {
    ghost use Rattle.std.specs.Prelude.{ℕ, List};

    ghost Value = { List ℕ };

    ghost view = { λ p. p.text.now };

    ghost use Rattle.jx_index.specs.Pointers.{IsPointer};

    ghost invariant = { λ p. IsPointer p.text.now };
}

/// Whether a byte is `0` or `1`, which may follow a `~`.
fn is_escape_digit(byte: u8) -> bool
    ensures { IsTrue result ↔ IsEscapeDigit byte }
{
    byte == b'0' || byte == b'1'
}

/// Whether a `~` that neither `0` nor `1` follows stands at an offset.
fn is_bad_escape(bytes: &[u8], at: usize) -> bool
    requires { at < length bytes.now }
    ensures { IsTrue result ↔ IsBadEscape bytes.now at }
{
    bytes[at] == b'~' && !is_escape_digit(byte_at(bytes, at + 1))
}

impl<'p> Pointer<'p> {
    /// Reads a pointer as it is written. A text that is not empty and does not begin with `/` is refused first; else
    /// the first `~` is, that neither `0` nor `1` follows. The text is borrowed, and no memory is taken.
    pub fn read(text: &'p str) -> Result<Pointer<'p>, PointerFault>
        ensures same { IfOk result (λ pointer. pointer ≡ text.now) }
        ensures read { IfOk result (λ _. IsPointer text.now) }
        ensures refused { IfErr result (IsFaultOf text.now) }
    {
        let bytes = text.as_bytes();
        if !bytes.is_empty() && bytes[0] != b'/' {
            return Err(PointerFault::NoSlash);
        }
        for at in 0..bytes.len() {
            if is_bad_escape(bytes, at) {
                return Err(PointerFault::BadEscape { at });
            }
        }
        Ok(Pointer { text })
    }

    /// The pointer without a token, which leads to the whole text (section 5).
    pub fn root() -> Pointer<'p>
        ensures { result ≡ [] }
    {
        Pointer { text: "" }
    }

    /// The bytes of the pointer as it is written.
    pub(crate) fn bytes(&self) -> &'p [u8]
        ensures spelt { result.now ≡ self.now }
        ensures pointer { IsPointer self.now }
    {
        self.text.as_bytes()
    }
}
