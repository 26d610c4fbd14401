// Reading on after a byte: over the rest of its token, or over white space.
ghost use Rattle.std.specs.Prelude.{◌≡◌, ◌≤◌, ◌<◌, ◌+◌, ◌↔◌, ◌||◌, ◌==◌, IsTrue, slice_range, length};
ghost use Rattle.jx_lex.specs.declared.alphabet.state.LexState.TheVariants as state;
ghost use Rattle.jx_lex.specs.Uneventful.{AllKeep, Leads};
ghost use Rattle.jx_lex.specs.Seen.{Shuts};
ghost use Rattle.jx_lex.specs.Token.{IsE};

use crate::alphabet::state::LexState;
use crate::scanner::byte_sets::{blank_end, digit_end};

/// The end of the white space that follows. It is mostly one byte, but for that after a line feed. Where `byte` is
/// no line feed and no space follows, it looks for none and gives `from`.
#[inline(always)]
pub(crate) fn gap_end(text: &[u8], byte: u8, from: usize, to: usize) -> usize
    requires { (from ≤ to) × (to ≤ length text.now) }
    ensures bounds { (from ≤ result) × (result ≤ to) }
    ensures kept { AllKeep state.Gap (slice_range text.now from result) }
{
    if byte == b'\n' || (from < to && text[from] == b' ') {
        blank_end(text, from, to)
    } else {
        from
    }
}

/// Reads the first digit after a minus sign. Gives the offset after it, or `from` where none is read.
#[inline(always)]
fn first_digit(text: &[u8], state: &mut LexState, from: usize, to: usize) -> usize
    requires { (from ≤ to) × (to ≤ length text.now) }
    ensures bounds { (from ≤ result) × (result ≤ to) }
    ensures led { Leads state.old (slice_range text.now from result) state.new }
{
    if from >= to {
        return from;
    }
    let digit = text[from];
    match *state {
        LexState::Minus if digit == b'0' => {
            *state = LexState::Zero;
            from + 1
        }
        LexState::Minus if digit >= b'1' && digit <= b'9' => {
            *state = LexState::Int;
            from + 1
        }
        _ => from,
    }
}

/// Reads the digits that follow. Gives their end, or `from` in a state other than `Int`, `Frac` and `Exp`.
#[inline(always)]
pub(crate) fn more_digits(text: &[u8], state: LexState, from: usize, to: usize) -> usize
    requires { (from ≤ to) × (to ≤ length text.now) }
    ensures bounds { (from ≤ result) × (result ≤ to) }
    ensures led { Leads state (slice_range text.now from result) state }
{
    match state {
        LexState::Int => digit_end(text, from, to),
        LexState::Frac => digit_end(text, from, to),
        LexState::Exp => digit_end(text, from, to),
        _ => from,
    }
}

/// Reads a decimal point and a digit after an integer part. Gives the offset after them, or `from` where they are not
/// read.
#[inline(always)]
fn point(text: &[u8], state: &mut LexState, from: usize, to: usize) -> usize
    requires { (from ≤ to) × (to ≤ length text.now) }
    ensures bounds { (from ≤ result) × (result ≤ to) }
    ensures led { Leads state.old (slice_range text.now from result) state.new }
{
    if to - from < 2 || text[from] != b'.' || text[from + 1] < b'0' || text[from + 1] > b'9' {
        return from;
    }
    match *state {
        LexState::Zero => {
            *state = LexState::Frac;
            from + 2
        }
        LexState::Int => {
            *state = LexState::Frac;
            from + 2
        }
        _ => from,
    }
}

/// Reads the letter that begins an exponent, after a digit. Gives the offset after it, or `from` where none is read.
#[inline(always)]
fn letter(text: &[u8], state: &mut LexState, from: usize, to: usize) -> usize
    requires { (from ≤ to) × (to ≤ length text.now) }
    ensures bounds { (from ≤ result) × (result ≤ to) }
    ensures led { Leads state.old (slice_range text.now from result) state.new }
{
    if from >= to || !is_letter(text[from]) {
        return from;
    }
    match *state {
        LexState::Zero => {
            *state = LexState::E;
            from + 1
        }
        LexState::Int => {
            *state = LexState::E;
            from + 1
        }
        LexState::Frac => {
            *state = LexState::E;
            from + 1
        }
        _ => from,
    }
}

/// Whether the byte is `e` or `E`.
#[inline(always)]
fn is_letter(byte: u8) -> bool
    ensures { IsTrue result ↔ IsE byte }
{
    byte == b'e' || byte == b'E'
}

/// Reads the sign of an exponent, if it has one. Gives the offset after it, or `from` where none is read.
#[inline(always)]
fn sign(text: &[u8], state: &mut LexState, from: usize, to: usize) -> usize
    requires { (from ≤ to) × (to ≤ length text.now) }
    ensures bounds { (from ≤ result) × (result ≤ to) }
    ensures led { Leads state.old (slice_range text.now from result) state.new }
{
    if from >= to {
        return from;
    }
    let sign = text[from];
    match *state {
        LexState::E if sign == b'-' => {
            *state = LexState::ESign;
            from + 1
        }
        LexState::E if sign == b'+' => {
            *state = LexState::ESign;
            from + 1
        }
        _ => from,
    }
}

/// Reads the first digit of an exponent. Gives the offset after it, or `from` where none is read.
#[inline(always)]
fn exponent_digit(text: &[u8], state: &mut LexState, from: usize, to: usize) -> usize
    requires { (from ≤ to) × (to ≤ length text.now) }
    ensures bounds { (from ≤ result) × (result ≤ to) }
    ensures led { Leads state.old (slice_range text.now from result) state.new }
{
    if from >= to || text[from] < b'0' || text[from] > b'9' {
        return from;
    }
    match *state {
        LexState::E => {
            *state = LexState::Exp;
            from + 1
        }
        LexState::ESign => {
            *state = LexState::Exp;
            from + 1
        }
        _ => from,
    }
}

/// Reads an exponent, if the number has one, as far as it stands there. Gives the offset after what is read, or `from`.
#[inline(always)]
fn exponent(text: &[u8], state: &mut LexState, from: usize, to: usize) -> usize
    requires { (from ≤ to) × (to ≤ length text.now) }
    ensures bounds { (from ≤ result) × (result ≤ to) }
    ensures led { Leads state.old (slice_range text.now from result) state.new }
{
    let behind_letter = letter(text, state, from, to);
    if behind_letter == from {
        return from;
    }
    let behind_sign = sign(text, state, behind_letter, to);
    let behind_digit = exponent_digit(text, state, behind_sign, to);
    more_digits(text, *state, behind_digit, to)
}

/// The end of `rue`, or `from` where that doesn't stand there.
#[inline(always)]
fn true_end(text: &[u8], from: usize, to: usize) -> usize
    requires { (from ≤ to) × (to ≤ length text.now) }
    ensures bounds { (from ≤ result) × (result ≤ to) }
    ensures shut { from < result → Shuts state.T (slice_range text.now from result) }
{
    if to - from >= 3 && text[from] == b'r' && text[from + 1] == b'u' && text[from + 2] == b'e' {
        return from + 3;
    }
    from
}

/// The end of `alse`, or `from` where that doesn't stand there.
#[inline(always)]
fn false_end(text: &[u8], from: usize, to: usize) -> usize
    requires { (from ≤ to) × (to ≤ length text.now) }
    ensures bounds { (from ≤ result) × (result ≤ to) }
    ensures shut { from < result → Shuts state.F (slice_range text.now from result) }
{
    if to - from >= 4
        && text[from] == b'a'
        && text[from + 1] == b'l'
        && text[from + 2] == b's'
        && text[from + 3] == b'e'
    {
        return from + 4;
    }
    from
}

/// The end of `ull`, or `from` where that doesn't stand there.
#[inline(always)]
fn null_end(text: &[u8], from: usize, to: usize) -> usize
    requires { (from ≤ to) × (to ≤ length text.now) }
    ensures bounds { (from ≤ result) × (result ≤ to) }
    ensures shut { from < result → Shuts state.N (slice_range text.now from result) }
{
    if to - from >= 3 && text[from] == b'u' && text[from + 1] == b'l' && text[from + 2] == b'l' {
        return from + 3;
    }
    from
}

/// The end of the literal that was begun, or `from` where it doesn't stand there whole.
#[inline(always)]
pub(crate) fn literal_end(text: &[u8], begun: LexState, from: usize, to: usize) -> usize
    requires { (from ≤ to) × (to ≤ length text.now) }
    ensures bounds { (from ≤ result) × (result ≤ to) }
    ensures shut { from < result → Shuts begun (slice_range text.now from result) }
{
    match begun {
        LexState::T => true_end(text, from, to),
        LexState::F => false_end(text, from, to),
        LexState::N => null_end(text, from, to),
        _ => from,
    }
}

/// Whether this is one of the bytes that mostly follow a value. No number goes on with any of them.
#[inline(always)]
fn is_delimiter(byte: u8) -> bool
    ensures { result ≡ (byte == 0x2c || byte == 0x5d || byte == 0x7d || byte == 0x0a) }
{
    byte == b',' || byte == b']' || byte == b'}' || byte == b'\n'
}

/// Reads the rest of a number. Many numbers have one digit. Gives the offset after what is read, or `from`.
#[inline(always)]
pub(crate) fn number_rest(text: &[u8], state: &mut LexState, from: usize, to: usize) -> usize
    requires { (from ≤ to) × (to ≤ length text.now) }
    ensures bounds { (from ≤ result) × (result ≤ to) }
    ensures led { Leads state.old (slice_range text.now from result) state.new }
{
    if from < to && is_delimiter(text[from]) {
        return from;
    }
    let begun = first_digit(text, state, from, to);
    let integer = more_digits(text, *state, begun, to);
    let pointed = point(text, state, integer, to);
    if pointed == integer {
        return exponent(text, state, integer, to);
    }
    let fraction = more_digits(text, *state, pointed, to);
    exponent(text, state, fraction, to)
}
