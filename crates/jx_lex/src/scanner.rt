// Reading bytes from a known lexical state, whatever is kept of the tokens.
ghost use Rattle.std.specs.Prelude.{◌≡◌, ◌≤◌, ◌<◌, ◌+◌, ◌∷◌, [], ◌^◌, ℕ, List, length, OnOk, IfOk, IfSome, IsNone, IsTrue, false, slice_range, true};
ghost use Rattle.jx_lex.specs.declared.alphabet.state.LexState.TheVariants as state;
ghost use Rattle.jx_lex.specs.Ahead.{IsSound};
ghost use Rattle.jx_lex.specs.inside.Cells.{step_of};
ghost use Rattle.jx_lex.specs.Lex.{lex, with_mark, with_end};
ghost use Rattle.jx_lex.specs.Moves.{move};
ghost use Rattle.jx_lex.specs.Seen.{AwaitsAt, EndsAtComma, GoesTo, Grows, Leaves, SeesTrack, Takes, WantsNoMore, has_end};
ghost use Rattle.jx_lex.specs.TokenStates.{in_token};
ghost use Rattle.jx_lex.specs.Exit.{exit_of};

pub(crate) mod ahead;
pub(crate) mod byte_sets;
pub(crate) mod counts;
pub(crate) mod escape_blocks;
pub(crate) mod sink;
pub(crate) mod string_chars;
pub(crate) mod token_rest;
pub(crate) mod tokens;
pub(crate) mod whole;

use crate::alphabet::cell::Cell;
use crate::alphabet::class::{Class, class_of};
use crate::alphabet::lex_exit::LexExit;
use crate::alphabet::machine::cell_at;
use crate::alphabet::mark::{Mark, MarkKind};
use crate::alphabet::state::LexState;
use crate::scanner::ahead::Ahead;
use crate::scanner::sink::TokenSink;
use crate::scanner::string_chars::string_end_ahead;
use crate::scanner::token_rest::{gap_end, literal_end, more_digits, number_rest};
use std::alloc::AllocError;

/// Takes in what one byte does: its token start and its end are seen. Gives the next state, or none at a fault.
#[inline(always)]
fn take_in<K: TokenSink>(
    sink: &mut K,
    cell: Cell,
    at: usize,
) -> Result<Option<LexState>, AllocError>
    requires fits { at + 1 < 2 ^ 64 }
    requires turn { Takes (K.awaits sink.old) (step_of cell).end (step_of cell).begin }
    ensures seen { OnOk result (Grows (K.has_seen sink.old) (K.has_seen sink.new) (with_mark ((step_of cell).begin) at []) (with_end ((step_of cell).end) at [])) }
    ensures next { IfOk result (λ next. next ≡ (step_of cell).next) }
    ensures turn { OnOk result (Leaves (K.awaits sink.old) (K.awaits sink.new) (step_of cell).begin (step_of cell).end) }
{
    match cell {
        Cell::Go(next) => Ok(Some(next)),
        Cell::Begin(next, kind) => {
            sink.begin(Mark { kind, at })?;
            Ok(Some(next))
        }
        Cell::Close => {
            sink.end(at + 1)?;
            Ok(Some(LexState::Gap))
        }
        Cell::End(next) => {
            sink.end(at)?;
            Ok(Some(next))
        }
        Cell::EndThenBegin(next, kind) => {
            sink.end(at)?;
            sink.begin(Mark { kind, at })?;
            Ok(Some(next))
        }
        Cell::Fault => Ok(None),
        Cell::EndThenFault => {
            sink.end(at)?;
            Ok(None)
        }
    }
}

/// Takes in a token's first byte, and gives the next state.
#[inline(always)]
fn begin<K: TokenSink>(
    sink: &mut K,
    kind: MarkKind,
    next: LexState,
    at: usize,
) -> Result<LexState, AllocError>
    requires { K.awaits sink.old false }
    ensures seen { OnOk result (Grows (K.has_seen sink.old) (K.has_seen sink.new) (record { kind = kind; at = at } ∷ []) []) }
    ensures next { IfOk result (λ n. n ≡ next) }
    ensures turn { OnOk result (K.awaits sink.new (has_end kind)) }
{
    sink.begin(Mark { kind, at })?;
    Ok(next)
}

/// Takes in what a byte does in a state. Between tokens, where most bytes begin one, a branch for each class of bytes is
/// faster than the table.
#[inline(always)]
fn take_byte<K: TokenSink>(
    sink: &mut K,
    state: LexState,
    byte: u8,
    at: usize,
) -> Result<Option<LexState>, AllocError>
    requires fits { at + 1 < 2 ^ 64 }
    requires turn { K.awaits sink.old (in_token state) }
    ensures seen { OnOk result (Grows (K.has_seen sink.old) (K.has_seen sink.new) (with_mark ((move state byte).begin) at []) (with_end ((move state byte).end) at [])) }
    ensures next { IfOk result (λ next. next ≡ (move state byte).next) }
    ensures turn { IfOk result (λ next. IfSome next (λ s. K.awaits sink.new (in_token s))) }
{
    let begun = match (state, class_of(byte)) {
        (LexState::Gap, Class::Quote) => begin(sink, MarkKind::String, LexState::Str, at)?,
        (LexState::Gap, Class::Minus) => begin(sink, MarkKind::Number, LexState::Minus, at)?,
        (LexState::Gap, Class::Zero) => begin(sink, MarkKind::Number, LexState::Zero, at)?,
        (LexState::Gap, Class::Digit) => begin(sink, MarkKind::Number, LexState::Int, at)?,
        (LexState::Gap, Class::LowT) => begin(sink, MarkKind::True, LexState::T, at)?,
        (LexState::Gap, Class::LowF) => begin(sink, MarkKind::False, LexState::F, at)?,
        (LexState::Gap, Class::LowN) => begin(sink, MarkKind::Null, LexState::N, at)?,
        (LexState::Gap, Class::OpenArray) => begin(sink, MarkKind::OpenArray, LexState::Gap, at)?,
        (LexState::Gap, Class::CloseArray) => {
            begin(sink, MarkKind::CloseArray, LexState::Gap, at)?
        }
        (LexState::Gap, Class::OpenObject) => {
            begin(sink, MarkKind::OpenObject, LexState::Gap, at)?
        }
        (LexState::Gap, Class::CloseObject) => {
            begin(sink, MarkKind::CloseObject, LexState::Gap, at)?
        }
        (LexState::Gap, Class::Colon) => begin(sink, MarkKind::Colon, LexState::Gap, at)?,
        (LexState::Gap, Class::Comma) => begin(sink, MarkKind::Comma, LexState::Gap, at)?,
        _ => {
            let next = take_in(sink, cell_at(state, byte), at)?;
            return Ok(next);
        }
    };
    Ok(Some(begun))
}

/// Reads a name's colon, if it stands there, and gives its end.
#[inline(always)]
fn colon<K: TokenSink>(
    sink: &mut K,
    text: &[u8],
    from: usize,
    to: usize,
) -> Result<usize, AllocError>
    requires bounds { (from ≤ to) × (to ≤ length text.now) }
    requires turn { K.awaits sink.old false }
    ensures bounds { IfOk result (λ end. (from ≤ end) × (end ≤ to)) }
    ensures read { IfOk result (λ end. GoesTo (K.has_seen sink.old) (K.has_seen sink.new) (lex state.Gap from (slice_range text.now from end)) state.Gap) }
    ensures turn { OnOk result (K.awaits sink.new false) }
{
    if from < to && text[from] == b':' {
        sink.begin(Mark {
            kind: MarkKind::Colon,
            at: from,
        })?;
        return Ok(from + 1);
    }
    Ok(from)
}

/// Reads the rest of a string, with the quotation mark that ends it and a colon after it, from the state inside the
/// string on.
#[inline(always)]
fn string_rest<K: TokenSink>(
    sink: &mut K,
    last: &mut LexState,
    text: &[u8],
    from: usize,
    to: usize,
    ahead: &mut Ahead,
) -> Result<usize, AllocError>
    requires bounds { (from ≤ to) × (to ≤ length text.now) }
    requires sound { IsSound text.now ahead.old }
    requires inside { last.old ≡ state.Str }
    requires turn { K.awaits sink.old true }
    ensures bounds { IfOk result (λ end. (from ≤ end) × (end ≤ to)) }
    ensures read { IfOk result (λ end. GoesTo (K.has_seen sink.old) (K.has_seen sink.new) (lex state.Str from (slice_range text.now from end)) last.new) }
    ensures sound { OnOk result (IsSound text.now ahead.new) }
    ensures turn { OnOk result (K.awaits sink.new (in_token last.new)) }
{
    let end = string_end_ahead(text, from, to, ahead);
    if end < to && text[end] == b'"' {
        sink.end(end + 1)?;
        *last = LexState::Gap;
        let behind = colon(sink, text, end + 1, to)?;
        return Ok(behind);
    }
    Ok(end)
}

/// Whether a number may end in this state.
#[inline(always)]
fn may_end(state: LexState) -> bool
    ensures comma { IsTrue result → EndsAtComma state }
    ensures inside { IsTrue result → in_token state ≡ true }
{
    match state {
        LexState::Zero => true,
        LexState::Int => true,
        LexState::Frac => true,
        LexState::Exp => true,
        _ => false,
    }
}

/// Reads the comma that ends a number, if it stands there, and gives its end.
#[inline(always)]
fn comma<K: TokenSink>(
    sink: &mut K,
    state: &mut LexState,
    text: &[u8],
    from: usize,
    to: usize,
) -> Result<usize, AllocError>
    requires bounds { (from ≤ to) × (to ≤ length text.now) }
    requires turn { K.awaits sink.old (in_token state.old) }
    ensures bounds { IfOk result (λ end. (from ≤ end) × (end ≤ to)) }
    ensures read { IfOk result (λ end. GoesTo (K.has_seen sink.old) (K.has_seen sink.new) (lex state.old from (slice_range text.now from end)) state.new) }
    ensures turn { OnOk result (K.awaits sink.new (in_token state.new)) }
{
    if from < to && text[from] == b',' && may_end(*state) {
        sink.end(from)?;
        sink.begin(Mark {
            kind: MarkKind::Comma,
            at: from,
        })?;
        *state = LexState::Gap;
        return Ok(from + 1);
    }
    Ok(from)
}

/// Reads the rest of a number, with a comma after it, and gives its end.
#[inline(always)]
fn number<K: TokenSink>(
    sink: &mut K,
    state: &mut LexState,
    text: &[u8],
    from: usize,
    to: usize,
) -> Result<usize, AllocError>
    requires bounds { (from ≤ to) × (to ≤ length text.now) }
    requires turn { K.awaits sink.old (in_token state.old) }
    ensures bounds { IfOk result (λ end. (from ≤ end) × (end ≤ to)) }
    ensures read { IfOk result (λ end. GoesTo (K.has_seen sink.old) (K.has_seen sink.new) (lex state.old from (slice_range text.now from end)) state.new) }
    ensures turn { OnOk result (K.awaits sink.new (in_token state.new)) }
{
    let end = number_rest(text, state, from, to);
    let behind = comma(sink, state, text, end, to)?;
    Ok(behind)
}

/// Reads the rest of a literal, if it stands there whole, and gives its end.
#[inline(always)]
fn literal<K: TokenSink>(
    sink: &mut K,
    state: &mut LexState,
    text: &[u8],
    from: usize,
    to: usize,
) -> Result<usize, AllocError>
    requires bounds { (from ≤ to) × (to ≤ length text.now) }
    requires inside { in_token state.old ≡ true }
    requires turn { K.awaits sink.old true }
    ensures bounds { IfOk result (λ end. (from ≤ end) × (end ≤ to)) }
    ensures read { IfOk result (λ end. GoesTo (K.has_seen sink.old) (K.has_seen sink.new) (lex state.old from (slice_range text.now from end)) state.new) }
    ensures turn { OnOk result (K.awaits sink.new (in_token state.new)) }
{
    let end = literal_end(text, *state, from, to);
    if end == from {
        return Ok(from);
    }
    sink.end(end)?;
    *state = LexState::Gap;
    Ok(end)
}

/// Lets the sink read whole tokens by itself, from between tokens on, and gives their end.
#[inline(always)]
fn pass_on<K: TokenSink>(
    sink: &mut K,
    state: LexState,
    text: &[u8],
    from: usize,
    to: usize,
) -> Result<usize, AllocError>
    requires bounds { (from ≤ to) × (to ≤ length text.now) }
    requires turn { K.awaits sink.old (in_token state) }
    ensures bounds { IfOk result (λ end. (from ≤ end) × (end ≤ to)) }
    ensures read { IfOk result (λ end. GoesTo (K.has_seen sink.old) (K.has_seen sink.new) (lex state from (slice_range text.now from end)) state) }
    ensures turn { OnOk result (K.awaits sink.new (in_token state)) }
{
    match state {
        LexState::Gap => {
            let end = sink.pass(text, from, to)?;
            Ok(end)
        }
        _ => Ok(from),
    }
}

/// Reads the rest of a number, with a comma after it. There the sink may go on by itself where it wants counts: a list of
/// numbers is read faster here than token by token.
#[inline(always)]
fn numbers<K: TokenSink>(
    sink: &mut K,
    state: &mut LexState,
    text: &[u8],
    from: usize,
    to: usize,
) -> Result<usize, AllocError>
    requires bounds { (from ≤ to) × (to ≤ length text.now) }
    requires turn { K.awaits sink.old (in_token state.old) }
    ensures bounds { IfOk result (λ end. (from ≤ end) × (end ≤ to)) }
    ensures read { IfOk result (λ end. GoesTo (K.has_seen sink.old) (K.has_seen sink.new) (lex state.old from (slice_range text.now from end)) state.new) }
    ensures turn { OnOk result (K.awaits sink.new (in_token state.new)) }
{
    let end = number(sink, state, text, from, to)?;
    if !sink.wants_counts() {
        return Ok(end);
    }
    let behind = pass_on(sink, *state, text, end, to)?;
    Ok(behind)
}

/// Reads on from the state to which this byte led, over the rest of a token or over white space. Gives their end, and
/// sets the state after them. After a string, a comma or white space the sink may go on by itself.
#[inline(always)]
fn read_rest<K: TokenSink>(
    sink: &mut K,
    state: &mut LexState,
    text: &[u8],
    byte: u8,
    from: usize,
    to: usize,
    ahead: &mut Ahead,
) -> Result<usize, AllocError>
    requires bounds { (from ≤ to) × (to ≤ length text.now) }
    requires sound { IsSound text.now ahead.old }
    requires turn { K.awaits sink.old (in_token state.old) }
    ensures bounds { IfOk result (λ end. (from ≤ end) × (end ≤ to)) }
    ensures read { IfOk result (λ end. GoesTo (K.has_seen sink.old) (K.has_seen sink.new) (lex state.old from (slice_range text.now from end)) state.new) }
    ensures sound { OnOk result (IsSound text.now ahead.new) }
    ensures turn { OnOk result (K.awaits sink.new (in_token state.new)) }
{
    match *state {
        LexState::Str => {
            let end = string_rest(sink, state, text, from, to, ahead)?;
            let behind = pass_on(sink, *state, text, end, to)?;
            Ok(behind)
        }
        LexState::Gap => {
            let end = gap_end(text, byte, from, to);
            if byte >= b'[' {
                return Ok(end);
            }
            let behind = sink.pass(text, end, to)?;
            Ok(behind)
        }
        LexState::Minus | LexState::Zero | LexState::Int => {
            let end = numbers(sink, state, text, from, to)?;
            Ok(end)
        }
        LexState::T | LexState::F | LexState::N => {
            let end = literal(sink, state, text, from, to)?;
            Ok(end)
        }
        _ => Ok(more_digits(text, *state, from, to)),
    }
}

/// The knowledge of the UTF-8 ahead, for bytes that are read from this state on.
#[inline(always)]
fn known_ahead(state: LexState) -> Ahead
    ensures sound { (text : List ℕ) → IsSound text result }
{
    match state {
        LexState::Str => Ahead::inside_string(),
        LexState::Tail1 | LexState::Tail2 | LexState::Tail3 => Ahead::inside_string(),
        LexState::AfterE0 | LexState::AfterEd => Ahead::inside_string(),
        LexState::AfterF0 | LexState::AfterF4 => Ahead::inside_string(),
        _ => Ahead::nothing(),
    }
}

/// Reads the bytes of a text from one offset to another, from a known lexical state, into a sink. What the sink has
/// seen grows by the token starts and ends of that reading, with their offsets in the text.
///
/// Returns where the reading ends, or none where the sink wanted no more before. Then the rest was not looked at, and
/// what the sink has seen stands for it too. When out of memory, the sink is of no more use.
pub fn scan<K: TokenSink>(
    sink: &mut K,
    state: LexState,
    text: &[u8],
    from: usize,
    to: usize,
) -> Result<Option<LexExit>, AllocError>
    requires bounds { (from ≤ to) × (to ≤ length text.now) }
    requires turn { K.awaits sink.old (in_token state) }
    ensures seen { OnOk result (SeesTrack (K.has_seen sink.old) (K.has_seen sink.new) (lex state from (slice_range text.now from to))) }
    ensures exit { IfOk result (λ exit. IfSome exit (λ e. exit_of e ≡ (lex state from (slice_range text.now from to)).exit)) }
    ensures done { IfOk result (λ exit. IsNone exit → WantsNoMore (K.has_seen sink.new)) }
    ensures turn { IfOk result (λ exit. IfSome exit (AwaitsAt (K.awaits sink.new))) }
{
    let mut state = state;
    let begin = pass_on(sink, state, text, from, to)?;
    let mut i = begin;
    let mut ahead = known_ahead(state);
    while i < to {
        if sink.is_done() {
            return Ok(None);
        }
        let byte = text[i];
        let Some(next) = take_byte(sink, state, byte, i)? else {
            return Ok(Some(LexExit::Fault(i)));
        };
        state = next;
        let end = read_rest(sink, &mut state, text, byte, i + 1, to, &mut ahead)?;
        i = end;
    }
    Ok(Some(LexExit::State(state)))
}
