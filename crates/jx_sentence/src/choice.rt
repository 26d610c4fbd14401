// The choices for the byte at a place of a text.
ghost use Rattle.std.specs.Prelude.{◌≡◌};
ghost use Rattle.jx_sentence.specs.Choices.{choices, choices_between, choices_inside, choices_of, may_end};

use jx_lex::LexState;
use jx_reduce::{Expect, Holder};

/// A choice for the byte at a place, as messages name it.
#[derive(Clone, Copy, Debug, PartialEq, Eq)]
pub enum Choice {
    /// White space between tokens: a space, a tab, a line feed or a carriage return.
    Blank,
    /// The first byte of a value.
    Value,
    /// The quotation mark that begins a name.
    Name,
    Colon,
    Comma,
    /// The bracket that ends an array.
    ArrayEnd,
    /// The brace that ends an object.
    ObjectEnd,
    /// One of 0 to 9.
    Digit,
    /// The point before a fraction.
    Point,
    /// The e or E before an exponent.
    Exponent,
    /// The sign of an exponent.
    Sign,
    /// In a string: the first byte of a character that need not be escaped, a backslash, or the quotation mark that
    /// ends it.
    Character,
    /// The byte after a backslash.
    Escape,
    /// One of 0 to 9, a to f and A to F.
    HexDigit,
    /// One of 80 to BF, which goes on with a character.
    Tail,
    /// One of 80 to 8F.
    Tail80To8F,
    /// One of 80 to 9F.
    Tail80To9F,
    /// One of 90 to BF.
    Tail90ToBF,
    /// One of A0 to BF.
    TailA0ToBF,
    /// The letter a of a literal.
    A,
    /// The letter e of a literal.
    E,
    /// The letter l of a literal.
    L,
    /// The letter r of a literal.
    R,
    /// The letter s of a literal.
    S,
    /// The letter u of a literal.
    U,
}

/// All that may stand at a place.
#[derive(Clone, Copy, Debug)]
pub struct Choices {
    /// Choices that go on with the token.
    pub inside: &'static [Choice],
    /// Choices between tokens, where none is begun or the token may end.
    pub between: &'static [Choice],
}

/// Choices that go on with the token in which the lexical machine is.
fn choices_inside(state: LexState) -> &'static [Choice]
    ensures { result.now ≡ choices_inside state }
{
    match state {
        LexState::Gap => &[],
        LexState::Str => &[Choice::Character],
        LexState::Esc => &[Choice::Escape],
        LexState::Hex4 | LexState::Hex3 | LexState::Hex2 | LexState::Hex1 => &[Choice::HexDigit],
        LexState::Tail1 | LexState::Tail2 | LexState::Tail3 => &[Choice::Tail],
        LexState::AfterE0 => &[Choice::TailA0ToBF],
        LexState::AfterEd => &[Choice::Tail80To9F],
        LexState::AfterF0 => &[Choice::Tail90ToBF],
        LexState::AfterF4 => &[Choice::Tail80To8F],
        LexState::Zero => &[Choice::Point, Choice::Exponent],
        LexState::Int => &[Choice::Digit, Choice::Point, Choice::Exponent],
        LexState::Frac => &[Choice::Digit, Choice::Exponent],
        LexState::E => &[Choice::Digit, Choice::Sign],
        LexState::Minus | LexState::Dot | LexState::ESign | LexState::Exp => &[Choice::Digit],
        LexState::T => &[Choice::R],
        LexState::F => &[Choice::A],
        LexState::Fal => &[Choice::S],
        LexState::Tru | LexState::Fals => &[Choice::E],
        LexState::Tr | LexState::N => &[Choice::U],
        LexState::Fa | LexState::Nu | LexState::Nul => &[Choice::L],
    }
}

/// Whether the lexical machine stands between tokens, or in a number that may end.
fn may_end(state: LexState) -> bool
    ensures { result ≡ may_end state }
{
    matches!(
        state,
        LexState::Gap | LexState::Zero | LexState::Int | LexState::Frac | LexState::Exp
    )
}

/// Choices between tokens, by the expectation and the innermost open container.
fn choices_between(expect: Expect, top: Holder) -> &'static [Choice]
    ensures { result.now ≡ choices_between expect top }
{
    match (expect, top) {
        (Expect::ArrayFirst, Holder::Array) => &[Choice::Value, Choice::ArrayEnd, Choice::Blank],
        (Expect::Value | Expect::ArrayFirst, _) => &[Choice::Value, Choice::Blank],
        (Expect::ObjectFirst, Holder::Object) => &[Choice::Name, Choice::ObjectEnd, Choice::Blank],
        (Expect::Name | Expect::ObjectFirst, _) => &[Choice::Name, Choice::Blank],
        (Expect::Colon, _) => &[Choice::Colon, Choice::Blank],
        (Expect::After, Holder::Array) => &[Choice::Comma, Choice::ArrayEnd, Choice::Blank],
        (Expect::After, Holder::Object) => &[Choice::Comma, Choice::ObjectEnd, Choice::Blank],
        (Expect::After, Holder::Bottom) => &[Choice::Blank],
    }
}

/// The choices that may stand where the lexical machine is in this state, by what may stand next between tokens and the
/// innermost open container (RFC 8259, sections 2 to 7).
pub fn choices_for(state: LexState, expect: Expect, top: Holder) -> Choices
    ensures { choices_of result ≡ choices state expect top }
{
    let between: &'static [Choice] = if may_end(state) {
        choices_between(expect, top)
    } else {
        &[]
    };
    Choices {
        inside: choices_inside(state),
        between,
    }
}
