// Where the lexical machine stands, and what a byte does to it.
ghost use Rattle.std.specs.Prelude.{◌≡◌, ◌<◌};
ghost use Rattle.jx_lex.specs.Ordinal.{ordinal, all_states};

use crate::alphabet::mark::MarkKind;

/// Where the lexical machine stands between two bytes: between tokens, or how far it is in one. RFC 8259, sections 2,
/// 3, 6 and 7; inside strings RFC 3629, section 4.
#[derive(Clone, Copy, Debug, PartialEq, Eq)]
pub enum LexState {
    /// Between tokens.
    Gap,
    /// In a string, between two characters.
    Str,
    /// In a string, after a backslash.
    Esc,
    /// In a `\u` escape with four hexadecimal digits to come.
    Hex4,
    /// In a `\u` escape with three hexadecimal digits to come.
    Hex3,
    /// In a `\u` escape with two hexadecimal digits to come.
    Hex2,
    /// In a `\u` escape with one hexadecimal digit to come.
    Hex1,
    /// In a character of a string, with one tail byte (80 to BF) to come.
    Tail1,
    /// In a character of a string, with two tail bytes to come.
    Tail2,
    /// In a character of a string, with three tail bytes to come.
    Tail3,
    /// After E0, where A0 to BF and a tail byte must follow: anything below would be overlong.
    AfterE0,
    /// After ED, where 80 to 9F and a tail byte must follow: anything above would be a surrogate.
    AfterEd,
    /// After F0, where 90 to BF and two tail bytes must follow: anything below would be overlong.
    AfterF0,
    /// After F4, where 80 to 8F and two tail bytes must follow: anything above would be past U+10FFFF.
    AfterF4,
    /// In a number, after its minus sign.
    Minus,
    /// In a number, after its leading zero. The number may end here.
    Zero,
    /// In the integer part of a number, which doesn't begin with zero. The number may end here.
    Int,
    /// In a number, after its decimal point.
    Dot,
    /// In the fraction of a number, after a digit. The number may end here.
    Frac,
    /// In a number, after the `e` or `E` of its exponent.
    E,
    /// In a number, after the sign of its exponent.
    ESign,
    /// In the exponent of a number, after a digit. The number may end here.
    Exp,
    /// After `t`.
    T,
    /// After `tr`.
    Tr,
    /// After `tru`.
    Tru,
    /// After `f`.
    F,
    /// After `fa`.
    Fa,
    /// After `fal`.
    Fal,
    /// After `fals`.
    Fals,
    /// After `n`.
    N,
    /// After `nu`.
    Nu,
    /// After `nul`.
    Nul,
}

impl LexState {
    /// The states, all of them, in order.
    pub fn all() -> [LexState; 32]
        ensures { result ≡ all_states }
    {
        [
            LexState::Gap,
            LexState::Str,
            LexState::Esc,
            LexState::Hex4,
            LexState::Hex3,
            LexState::Hex2,
            LexState::Hex1,
            LexState::Tail1,
            LexState::Tail2,
            LexState::Tail3,
            LexState::AfterE0,
            LexState::AfterEd,
            LexState::AfterF0,
            LexState::AfterF4,
            LexState::Minus,
            LexState::Zero,
            LexState::Int,
            LexState::Dot,
            LexState::Frac,
            LexState::E,
            LexState::ESign,
            LexState::Exp,
            LexState::T,
            LexState::Tr,
            LexState::Tru,
            LexState::F,
            LexState::Fa,
            LexState::Fal,
            LexState::Fals,
            LexState::N,
            LexState::Nu,
            LexState::Nul,
        ]
    }

    /// The number of the state among all of them, counted from 0.
    #[inline(always)]
    pub fn number(self) -> usize
        ensures ordinal { result ≡ ordinal self }
        ensures low { result < 32 }
    {
        self as usize
    }
}

/// Where a string, a number or a literal ends, seen from the byte that shows it.
#[derive(Clone, Copy, Debug, PartialEq, Eq)]
pub enum TokenEnd {
    /// Before the byte, as a number does.
    Before,
    /// After the byte, as a string and a literal do.
    After,
}

/// The effect of reading one byte.
#[derive(Clone, Copy, Debug, PartialEq, Eq)]
pub struct Step {
    /// Where a token ends, if one does. It stands also where the byte is a fault.
    pub end: Option<TokenEnd>,
    /// The kind of the token that begins with the byte: a structural byte, or a scalar.
    pub begin: Option<MarkKind>,
    /// The state after the byte, or none where the byte is a fault.
    pub next: Option<LexState>,
}
