// Whole tokens, read over any open containers.
ghost use Rattle.std.specs.Prelude.{◌≡◌, ◌+◌, ◌<◌, ◌≤◌, ◌^◌, IsTrue, length, slice_range};
ghost use Rattle.jx_lex.specs.declared.alphabet.state.LexState.TheVariants.{Gap};
ghost use Rattle.jx_lex.specs.Lex.{lex};
ghost use Rattle.jx_lex.specs.Lex as exits;
ghost use Rattle.jx_reduce.specs.Read.{read, went};
ghost use Rattle.jx_reduce.specs.inside.Passed.{TakesValue};

use crate::stack::blocks::{commas_are_close, stretches};
use crate::stack::containers::Containers;
use crate::stack::watch::Nothing;
use crate::stack::whole_tokens::{ROOM, takes_value};
use crate::table::expect::Expect;

/// How many bytes must be left for `pass` to look at them.
const LEAST: usize = 8;

/// Whether a number begins with the byte (RFC 8259, section 6).
#[inline(always)]
fn begins_number(byte: u8) -> bool {
    byte == b'-' || (byte >= b'0' && byte <= b'9')
}

/// Whether a list of numbers may begin or go on here.
#[inline(always)]
fn begins_list(text: &[u8], at: usize) -> bool
    requires { at + 1 < length text.now }
{
    begins_number(text[at]) || (text[at] == b'[' && begins_number(text[at + 1]))
}

/// Whether a list of numbers is read from here on all the same: one with white space between them, or one of small numbers,
/// by blocks. It is looked at from some offsets alone, so that other lists take no longer.
#[inline(always)]
fn passes_list(text: &[u8], at: usize) -> bool
    requires { at ≤ length text.now }
{
    if at % 64 >= 8 {
        return false;
    }
    (at > 0 && text[at - 1] <= b' ') || commas_are_close(text, at)
}

/// Whether whole tokens are read from here on: a value may stand next, enough bytes are left, and no list of numbers begins
/// that `scan` reads faster.
#[inline(always)]
pub(crate) fn may_pass(text: &[u8], from: usize, to: usize, expect: Expect) -> bool
    requires { (from ≤ to) × (to ≤ length text.now) }
    ensures takes { IsTrue result → TakesValue expect }
    ensures room { IsTrue result → 32 ≤ length text.now }
{
    if to - from < LEAST || text.len() - from < ROOM {
        return false;
    }
    if begins_list(text, from) && !passes_list(text, from) {
        return false;
    }
    takes_value(expect)
}

/// Reads whole tokens of a text from between tokens on, where a value may stand next, as many as are ordinary. Returns
/// the offset after them, which is between tokens too, and what may stand next there. No more than `most` containers
/// stand open after any of them.
#[inline(always)]
pub fn pass_tokens<H: Containers>(
    text: &[u8],
    from: usize,
    to: usize,
    expect: Expect,
    holders: &mut H,
    most: usize,
) -> (usize, Expect)
    requires bounds { (from ≤ to) × (to ≤ length text.now) }
    requires within { (length (H.list holders.old) ≤ most) × (most < 2 ^ 32) }
    ensures bounds { (from ≤ result.0) × (result.0 ≤ to) }
    ensures exit { (lex Gap from (slice_range text.now from result.0)).exit ≡ exits.state Gap }
    ensures reads { went result.1 (H.list holders.new) ≡ read most (lex Gap from (slice_range text.now from result.0)).marks (went expect (H.list holders.old)) }
    ensures within { length (H.list holders.new) ≤ most }
{
    if !may_pass(text, from, to, expect) {
        return (from, expect);
    }
    stretches(text, from, to, expect, holders, most, &mut Nothing)
}
