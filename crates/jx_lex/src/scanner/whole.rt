// Whole tokens and white space that are skipped at once, from between tokens on.
ghost use Rattle.std.specs.Prelude.{◌≡◌, ◌≤◌, ◌<◌, ◌+◌, [], ◌∷◌, IfSome, IsTrue, length, slice_index, slice_range};
ghost use Rattle.jx_lex.specs.declared.alphabet.mark.MarkKind.TheVariants as mark;
ghost use Rattle.jx_lex.specs.declared.alphabet.state.LexState.TheVariants as state;
ghost use Rattle.jx_lex.specs.Ahead.{IsSound};
ghost use Rattle.jx_lex.specs.Moves.{begin, move};
ghost use Rattle.jx_lex.specs.Uneventful.{AllKeep, Leads};
ghost use Rattle.jx_lex.specs.Whole.{MayEnd, Passes, PassesLiteral, PassesNumber};

use crate::alphabet::state::LexState;
use crate::scanner::ahead::Ahead;
use crate::scanner::byte_sets::{blank_end, plain_end, unescaped_end};
use crate::scanner::string_chars::{chars_end, is_lead};
use crate::scanner::token_rest::{literal_end, number_rest};

/// The offset after the white space that follows. Mostly there is none, or one space.
#[inline(always)]
pub fn pass_blanks(text: &[u8], from: usize, to: usize) -> usize
    requires { (from < to) × (from + 2 ≤ length text.now) × (to ≤ length text.now) }
    ensures bounds { (from ≤ result) × (result ≤ to) }
    ensures passes { Passes text.now from result [] [] }
{
    if text[from] > b' ' {
        return from;
    }
    if text[from] == b' ' && text[from + 1] > b' ' {
        return from + 1;
    }
    blank_end(text, from, to)
}

/// The offset after the string that begins at `from`, or `from` where none is whole before `to`, or where it has a
/// fault. The bytes before `first` are its opening quotation mark and ordinary ASCII.
#[inline(never)]
fn pass_long_string(text: &[u8], from: usize, first: usize, to: usize, ahead: &mut Ahead) -> usize
    requires bounds { (from + 1 ≤ first) × (first ≤ to) × (to ≤ length text.now) }
    requires quote { slice_index text.now from ≡ 0x22 }
    requires kept { AllKeep state.Str (slice_range text.now (from + 1) first) }
    requires sound { IsSound text.now ahead.old }
    ensures bounds { (from ≤ result) × (result ≤ to) }
    ensures passes { from < result → Passes text.now from result (record { kind = mark.String; at = from } ∷ []) (result ∷ []) }
    ensures sound { IsSound text.now ahead.new }
{
    let (end, known) = chars_end(text, first, to, *ahead);
    *ahead = known;
    if end < to && text[end] == b'"' {
        return end + 1;
    }
    from
}

/// The end of the characters from this byte on that may stand for themselves, where they are known to be UTF-8; otherwise
/// `from`.
#[inline(always)]
fn known_end(text: &[u8], from: usize, to: usize, ahead: &Ahead) -> usize
    requires bounds { (from ≤ to) × (to ≤ length text.now) }
    requires sound { IsSound text.now ahead.now }
    ensures bounds { (from ≤ result) × (result ≤ to) }
    ensures led { Leads state.Str (slice_range text.now from result) state.Str }
{
    if ahead.covers(from, to) && is_lead(text[from]) {
        return unescaped_end(text, from, ahead.to);
    }
    from
}

/// The offset after the string that begins at `from`, or `from` where none is whole before `to`, or where it has a
/// fault. What was learnt of the UTF-8 ahead serves the strings that follow.
#[inline(always)]
pub fn pass_string(text: &[u8], from: usize, to: usize, ahead: &mut Ahead) -> usize
    requires bounds { (from < to) × (to ≤ length text.now) }
    requires quote { slice_index text.now from ≡ 0x22 }
    requires sound { IsSound text.now ahead.old }
    ensures bounds { (from ≤ result) × (result ≤ to) }
    ensures passes { from < result → Passes text.now from result (record { kind = mark.String; at = from } ∷ []) (result ∷ []) }
    ensures sound { IsSound text.now ahead.new }
{
    let first = plain_end(text, from + 1, to);
    if first < to && text[first] == b'"' {
        return first + 1;
    }
    let end = known_end(text, first, to, ahead);
    if end < to && text[end] == b'"' {
        return end + 1;
    }
    pass_long_string(text, from, first, to, ahead)
}

/// The state to which the first byte of a number leads.
#[inline(always)]
fn number_begun(byte: u8) -> Option<LexState>
    ensures { IfSome result (λ s. move state.Gap byte ≡ begin mark.Number s) }
{
    if byte == b'-' {
        return Some(LexState::Minus);
    }
    if byte == b'0' {
        return Some(LexState::Zero);
    }
    if byte >= b'1' && byte <= b'9' {
        return Some(LexState::Int);
    }
    None
}

/// Whether a number may end in this state.
#[inline(always)]
fn number_may_end(state: LexState) -> bool
    ensures { IsTrue result → MayEnd state }
{
    match state {
        LexState::Zero => true,
        LexState::Int => true,
        LexState::Frac => true,
        LexState::Exp => true,
        _ => false,
    }
}

/// The offset after the number that begins at `from`, or `from` where none is whole before `to`. What follows says
/// whether it ends there.
#[inline(always)]
pub fn pass_number(text: &[u8], from: usize, to: usize) -> usize
    requires { (from < to) × (to ≤ length text.now) }
    ensures bounds { (from ≤ result) × (result ≤ to) }
    ensures passes { from < result → PassesNumber text.now from result }
{
    let Some(begun) = number_begun(text[from]) else {
        return from;
    };
    let mut state = begun;
    let end = number_rest(text, &mut state, from + 1, to);
    if number_may_end(state) { end } else { from }
}

/// The offset after the literal that begins at `from`, or `from` where none is whole before `to`.
#[inline(always)]
pub fn pass_literal(text: &[u8], from: usize, to: usize) -> usize
    requires { (from < to) × (to ≤ length text.now) }
    ensures bounds { (from ≤ result) × (result ≤ to) }
    ensures passes { from < result → PassesLiteral text.now from result }
{
    let begun = match text[from] {
        b't' => LexState::T,
        b'f' => LexState::F,
        b'n' => LexState::N,
        _ => return from,
    };
    let end = literal_end(text, begun, from + 1, to);
    if end == from + 1 { from } else { end }
}
