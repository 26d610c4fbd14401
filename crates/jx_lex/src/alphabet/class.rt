// The classes into which the lexical machine sorts bytes.
ghost use Rattle.std.specs.Prelude.{◌≡◌, IsTrue};
ghost use Rattle.jx_lex.specs.declared.alphabet.class.Class.{Class};
ghost use Rattle.jx_lex.specs.Classes.{class_at, is_in};

use crate::alphabet::classes::CLASSES;

/// The class of a byte for the lexical machine (RFC 8259, sections 2, 3, 6 and 7, and RFC 3629, section 4). Every byte
/// has exactly one class. The bytes below are hexadecimal.
#[derive(Clone, Copy, Debug, PartialEq, Eq)]
pub enum Class {
    /// 00 to 08, 0B, 0C and 0E to 1F: control characters, which stand nowhere.
    Ctl,
    /// 09, 0A and 0D: tab, line feed and carriage return.
    Blank,
    /// 20, white space outside strings.
    Space,
    /// 22, `"`.
    Quote,
    /// 2B, `+`.
    Plus,
    /// 2C, `,`.
    Comma,
    /// 2D, `-`.
    Minus,
    /// 2E, `.`.
    Dot,
    /// 2F, `/`.
    Slash,
    /// 30, `0`.
    Zero,
    /// 31 to 39, `1` to `9`.
    Digit,
    /// 3A, `:`.
    Colon,
    /// 41 to 44 and 46, `A` to `D` and `F`.
    UpHex,
    /// 45, `E`.
    UpE,
    /// 5B, `[`.
    OpenArray,
    /// 5C, `\`.
    Backslash,
    /// 5D, `]`.
    CloseArray,
    /// 61, `a`.
    LowA,
    /// 62, `b`.
    LowB,
    /// 63 and 64, `c` and `d`.
    LowCD,
    /// 65, `e`.
    LowE,
    /// 66, `f`.
    LowF,
    /// 6C, `l`.
    LowL,
    /// 6E, `n`.
    LowN,
    /// 72, `r`.
    LowR,
    /// 73, `s`.
    LowS,
    /// 74, `t`.
    LowT,
    /// 75, `u`.
    LowU,
    /// 7B, `{`.
    OpenObject,
    /// 7D, `}`.
    CloseObject,
    /// 80 to 8F, a tail byte.
    TailA,
    /// 90 to 9F, a tail byte.
    TailB,
    /// A0 to BF, a tail byte.
    TailC,
    /// C2 to DF, which one tail byte follows.
    Lead2,
    /// E0, which A0 to BF and a tail byte follow.
    LeadE0,
    /// E1 to EC, EE and EF, which two tail bytes follow.
    Lead3,
    /// ED, which 80 to 9F and a tail byte follow.
    LeadEd,
    /// F0, which 90 to BF and two tail bytes follow.
    LeadF0,
    /// F1 to F3, which three tail bytes follow.
    Lead4,
    /// F4, which 80 to 8F and two tail bytes follow.
    LeadF4,
    /// C0, C1 and F5 to FF, which stand nowhere in UTF-8.
    Bad,
    /// Every other byte from 21 to 7F: it stands in strings alone, for itself.
    Plain,
}

/// The class of a byte: the table of classes has the byte in the row of this class, and in no other row.
#[inline(always)]
pub fn class_of(byte: u8) -> Class
    ensures row { IsTrue (is_in result byte) }
    ensures only { (class : Class) → IsTrue (is_in class byte) → class ≡ result }
    ensures found { result ≡ class_at byte }
{
    CLASSES[(byte / 16) as usize][(byte % 16) as usize]
}
