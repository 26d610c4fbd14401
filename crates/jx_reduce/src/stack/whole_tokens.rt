// Whole tokens, read where only a value may stand next: each expectation is a place in the code.
ghost use Rattle.std.specs.Prelude.{◌≡◌, ◌≤◌, ◌<◌, ◌+◌, ◌^◌, ◌⊎◌, ℕ, List, [], IfSome, IsFalse, IsNone, IsTrue, Some, false, length, slice_index, true};
ghost use Rattle.jx_lex.specs.Ahead.{IsSound};
ghost use Rattle.jx_lex.specs.Seen.{has_end};
ghost use Rattle.jx_lex.specs.Whole.{Passes, PassesNumber, literal_of};
ghost use Rattle.jx_reduce.specs.declared.table.expect.Expect.TheVariants as expected;
ghost use Rattle.jx_reduce.specs.declared.table.holder.Holder.{Holder as Container};
ghost use Rattle.jx_reduce.specs.inside.Passed.{Leaves, Reads, TakesValue, expect_of};
ghost use Rattle.jx_reduce.specs.inside.Told.{Sees, leaves_by};
ghost use Rattle.jx_reduce.specs.Read.{went};
ghost use Rattle.jx_reduce.specs.Table.{where_string};

use crate::stack::containers::Containers;
use crate::stack::watch::Watch;
use crate::table::expect::Expect;
use crate::table::holder::Holder;
use jx_lex::{Ahead, Mark, MarkKind, pass_blanks, pass_literal, pass_number, pass_string};

/// How many bytes the text must have from wherever a token is read on: none of those that are compared stands past its end.
pub(crate) const ROOM: usize = 32;

/// The expectation, and whether reading goes on there.
#[derive(Clone, Copy)]
pub(crate) enum Turn {
    On(Expect),
    Stop(Expect),
}

/// The same, but that reading does not go on.
#[inline(always)]
fn stopped(turn: Turn) -> Turn
    ensures { expect_of result ≡ expect_of turn }
{
    match turn {
        Turn::On(expect) => Turn::Stop(expect),
        Turn::Stop(expect) => Turn::Stop(expect),
    }
}

/// Whether a value may stand next.
#[inline(always)]
pub(crate) fn takes_value(expect: Expect) -> bool
    ensures { IsTrue result → TakesValue expect }
{
    matches!(expect, Expect::Value | Expect::ArrayFirst)
}

/// The first offset at which no token is read: `to`, or an earlier one after which the text has no room.
#[inline(always)]
fn last_start(text: &[u8], to: usize) -> usize
    requires { (32 ≤ length text.now) × (to ≤ length text.now) }
    ensures within { result ≤ to }
    ensures room { result + 31 ≤ length text.now }
{
    (text.len() - ROOM + 1).min(to)
}

/// A token.
#[inline(always)]
fn mark_at(kind: MarkKind, at: usize) -> Mark
    ensures { result ≡ record { kind = kind; at = at } }
{
    Mark { kind, at }
}

/// Which token a comma or a closing bracket is.
#[inline(always)]
fn leave_kind(byte: u8) -> MarkKind
    ensures value { result ≡ leaves_by byte }
    ensures kind { has_end result ≡ false }
{
    if byte == b',' {
        MarkKind::Comma
    } else if byte == b']' {
        MarkKind::CloseArray
    } else {
        MarkKind::CloseObject
    }
}

/// Which literal begins with a byte.
#[inline(always)]
fn literal_kind(byte: u8) -> MarkKind
    ensures value { result ≡ literal_of byte }
    ensures kind { has_end result ≡ true }
{
    if byte == b't' {
        MarkKind::True
    } else if byte == b'f' {
        MarkKind::False
    } else {
        MarkKind::Null
    }
}

/// Goes past white space, and says whether a token may be read after it: one that begins before `last`.
#[inline(always)]
fn skip(text: &[u8], at: &mut usize, last: usize, to: usize) -> bool
    requires bounds { (at.old ≤ to) × (last ≤ to) × (to ≤ length text.now) }
    requires room { last + 31 ≤ length text.now }
    ensures bounds { (at.old ≤ at.new) × (at.new ≤ to) }
    ensures passes { Passes text.now at.old at.new [] [] }
    ensures room { IsTrue result → at.new < last }
{
    if *at >= last {
        return false;
    }
    *at = pass_blanks(text, *at, to);
    *at < last
}

/// Goes past white space and the name after it, and says whether there is one. Without a name it goes past the
/// white space.
#[inline(always)]
fn name<W: Watch>(
    text: &[u8],
    at: &mut usize,
    last: usize,
    to: usize,
    expect: Expect,
    ahead: &mut Ahead,
    watch: &mut W,
) -> bool
    requires bounds { (at.old ≤ to) × (last ≤ to) × (to ≤ length text.now) }
    requires room { last + 31 ≤ length text.now }
    requires takes { where_string expect ≡ Some expected.Colon }
    requires sound { IsSound text.now ahead.old }
    requires turn { W.awaits watch.old }
    ensures bounds { (at.old ≤ at.new) × (at.new ≤ to) }
    ensures named { IsTrue result → (depth : ℕ) (holders : List Container) → Reads depth text.now at.old at.new (went expect holders) (went expected.Colon holders) }
    ensures unnamed { IsFalse result → (depth : ℕ) (holders : List Container) → Reads depth text.now at.old at.new (went expect holders) (went expect holders) }
    ensures sound { IsSound text.now ahead.new }
    ensures seen { Sees (W.has_seen watch.old) (W.has_seen watch.new) text.now at.old at.new }
    ensures turn { W.awaits watch.new }
{
    if !skip(text, at, last, to) || text[*at] != b'"' {
        return false;
    }
    let end = pass_string(text, *at, to, ahead);
    if end == *at {
        return false;
    }
    watch.named(mark_at(MarkKind::String, *at), end);
    *at = end;
    true
}

/// The colon after a name.
#[inline(always)]
fn colon<W: Watch>(text: &[u8], at: &mut usize, last: usize, to: usize, watch: &mut W) -> Turn
    requires bounds { (at.old ≤ to) × (last ≤ to) × (to ≤ length text.now) }
    requires room { last + 31 ≤ length text.now }
    requires turn { W.awaits watch.old }
    ensures bounds { (at.old ≤ at.new) × (at.new ≤ to) }
    ensures reads { (depth : ℕ) (holders : List Container) → Reads depth text.now at.old at.new (went expected.Colon holders) (went (expect_of result) holders) }
    ensures seen { Sees (W.has_seen watch.old) (W.has_seen watch.new) text.now at.old at.new }
    ensures turn { W.awaits watch.new }
{
    if !skip(text, at, last, to) || text[*at] != b':' {
        return Turn::Stop(Expect::Colon);
    }
    watch.mark(mark_at(MarkKind::Colon, *at));
    *at += 1;
    Turn::On(Expect::Value)
}

/// A name and its colon, from the white space in front of it on.
#[inline(always)]
fn pair<W: Watch>(
    text: &[u8],
    at: &mut usize,
    last: usize,
    to: usize,
    expect: Expect,
    ahead: &mut Ahead,
    watch: &mut W,
) -> Turn
    requires bounds { (at.old ≤ to) × (last ≤ to) × (to ≤ length text.now) }
    requires room { last + 31 ≤ length text.now }
    requires takes { where_string expect ≡ Some expected.Colon }
    requires sound { IsSound text.now ahead.old }
    requires turn { W.awaits watch.old }
    ensures bounds { (at.old ≤ at.new) × (at.new ≤ to) }
    ensures reads { (depth : ℕ) (holders : List Container) → Reads depth text.now at.old at.new (went expect holders) (went (expect_of result) holders) }
    ensures sound { IsSound text.now ahead.new }
    ensures seen { Sees (W.has_seen watch.old) (W.has_seen watch.new) text.now at.old at.new }
    ensures turn { W.awaits watch.new }
{
    if name(text, at, last, to, expect, ahead, watch) {
        return colon(text, at, last, to, watch);
    }
    Turn::Stop(expect)
}

/// Whether a name may stand next.
#[inline(always)]
fn takes_name(expect: Expect) -> bool
    ensures { IsTrue result → where_string expect ≡ Some expected.Colon }
{
    matches!(expect, Expect::ObjectFirst | Expect::Name)
}

/// A name and its colon, where they stand next.
#[inline(always)]
fn member<W: Watch>(
    turn: Turn,
    text: &[u8],
    at: &mut usize,
    last: usize,
    to: usize,
    ahead: &mut Ahead,
    watch: &mut W,
) -> Turn
    requires bounds { (at.old ≤ to) × (last ≤ to) × (to ≤ length text.now) }
    requires room { last + 31 ≤ length text.now }
    requires sound { IsSound text.now ahead.old }
    requires turn { W.awaits watch.old }
    ensures bounds { (at.old ≤ at.new) × (at.new ≤ to) }
    ensures reads { (depth : ℕ) (holders : List Container) → Reads depth text.now at.old at.new (went (expect_of turn) holders) (went (expect_of result) holders) }
    ensures sound { IsSound text.now ahead.new }
    ensures seen { Sees (W.has_seen watch.old) (W.has_seen watch.new) text.now at.old at.new }
    ensures turn { W.awaits watch.new }
{
    match turn {
        Turn::On(expect) if takes_name(expect) => pair(text, at, last, to, expect, ahead, watch),
        _ => turn,
    }
}

/// A string, where a value stands next.
#[inline(always)]
fn string<W: Watch>(
    text: &[u8],
    at: &mut usize,
    to: usize,
    expect: Expect,
    ahead: &mut Ahead,
    watch: &mut W,
) -> Turn
    requires bounds { (at.old < to) × (to ≤ length text.now) }
    requires quote { slice_index text.now at.old ≡ 0x22 }
    requires takes { TakesValue expect }
    requires sound { IsSound text.now ahead.old }
    requires turn { W.awaits watch.old }
    ensures bounds { (at.old ≤ at.new) × (at.new ≤ to) }
    ensures reads { (depth : ℕ) (holders : List Container) → Reads depth text.now at.old at.new (went expect holders) (went (expect_of result) holders) }
    ensures sound { IsSound text.now ahead.new }
    ensures seen { Sees (W.has_seen watch.old) (W.has_seen watch.new) text.now at.old at.new }
    ensures turn { W.awaits watch.new }
{
    let end = pass_string(text, *at, to, ahead);
    if end == *at {
        return Turn::Stop(expect);
    }
    watch.token(mark_at(MarkKind::String, *at), end);
    *at = end;
    Turn::On(Expect::After)
}

/// A literal, where a value stands next.
#[inline(always)]
fn literal<W: Watch>(text: &[u8], at: &mut usize, to: usize, expect: Expect, watch: &mut W) -> Turn
    requires bounds { (at.old < to) × (to ≤ length text.now) }
    requires takes { TakesValue expect }
    requires turn { W.awaits watch.old }
    ensures bounds { (at.old ≤ at.new) × (at.new ≤ to) }
    ensures reads { (depth : ℕ) (holders : List Container) → Reads depth text.now at.old at.new (went expect holders) (went (expect_of result) holders) }
    ensures seen { Sees (W.has_seen watch.old) (W.has_seen watch.new) text.now at.old at.new }
    ensures turn { W.awaits watch.new }
{
    let end = pass_literal(text, *at, to);
    if end == *at {
        return Turn::Stop(expect);
    }
    watch.token(mark_at(literal_kind(text[*at]), *at), end);
    *at = end;
    Turn::On(Expect::After)
}

/// The expectation after a comma or a closing bracket that follows a value, and closes the container that the bracket
/// ends. None where the byte is another one, or is not allowed there.
#[inline(always)]
fn leave<H: Containers>(byte: u8, holders: &mut H) -> Option<Expect>
    ensures some { IfSome result (λ then. Leaves byte then (H.list holders.old) (H.list holders.new)) }
    ensures none { IsNone result → H.list holders.new ≡ H.list holders.old }
{
    match holders.top() {
        Holder::Array if byte == b',' => Some(Expect::Value),
        Holder::Array if byte == b']' => {
            holders.pop();
            Some(Expect::After)
        }
        Holder::Object if byte == b',' => Some(Expect::Name),
        Holder::Object if byte == b'}' => {
            holders.pop();
            Some(Expect::After)
        }
        _ => None,
    }
}

/// Whether the byte is white space that often follows a number.
#[inline(always)]
fn is_blank(byte: u8) -> bool
    ensures { IsTrue result → (byte ≡ 0x20) ⊎ (byte ≡ 0x0a) ⊎ (byte ≡ 0x0d) }
{
    byte == b' ' || byte == b'\n' || byte == b'\r'
}

/// The byte after a number that was skipped, where a value stood next.
#[inline(always)]
fn number_end<H: Containers, W: Watch>(
    text: &[u8],
    at: &mut usize,
    end: usize,
    expect: Expect,
    holders: &mut H,
    watch: &mut W,
) -> Turn
    requires number { PassesNumber text.now at.old end }
    requires bounds { (at.old ≤ end) × (end < length text.now) }
    requires takes { TakesValue expect }
    requires turn { W.awaits watch.old }
    ensures bounds { (at.old ≤ at.new) × (at.new ≤ end + 1) }
    ensures reads { (depth : ℕ) → Reads depth text.now at.old at.new (went expect (H.list holders.old)) (went (expect_of result) (H.list holders.new)) }
    ensures seen { Sees (W.has_seen watch.old) (W.has_seen watch.new) text.now at.old at.new }
    ensures turn { W.awaits watch.new }
{
    match leave(text[end], holders) {
        Some(then) => {
            watch.token(mark_at(MarkKind::Number, *at), end);
            watch.mark(mark_at(leave_kind(text[end]), end));
            *at = end + 1;
            Turn::On(then)
        }
        None if is_blank(text[end]) => {
            watch.token(mark_at(MarkKind::Number, *at), end);
            *at = end + 1;
            Turn::On(Expect::After)
        }
        None => Turn::Stop(expect),
    }
}

/// Whether numbers without white space between them stand in an array from here on, after its first one: a reader of
/// one number after another is faster there.
#[inline(always)]
fn goes_on(text: &[u8], end: usize, expect: Expect, holder: Holder) -> bool
    requires { end + 1 < length text.now }
{
    if !matches!(holder, Holder::Array) || text[end] != b',' {
        return false;
    }
    let next = text[end + 1];
    matches!(expect, Expect::Value) && (next == b'-' || (next >= b'0' && next <= b'9'))
}

/// A number, with the byte after it, where a value stands next.
#[inline(always)]
fn number<H: Containers, W: Watch>(
    text: &[u8],
    at: &mut usize,
    to: usize,
    expect: Expect,
    holders: &mut H,
    watch: &mut W,
) -> Turn
    requires bounds { (at.old < to) × (to ≤ length text.now) }
    requires takes { TakesValue expect }
    requires turn { W.awaits watch.old }
    ensures bounds { (at.old ≤ at.new) × (at.new ≤ to) }
    ensures reads { (depth : ℕ) → Reads depth text.now at.old at.new (went expect (H.list holders.old)) (went (expect_of result) (H.list holders.new)) }
    ensures seen { Sees (W.has_seen watch.old) (W.has_seen watch.new) text.now at.old at.new }
    ensures turn { W.awaits watch.new }
{
    let end = pass_number(text, *at, to);
    if end == *at || end == to || text.len() - end < 2 {
        return Turn::Stop(expect);
    }
    let more = goes_on(text, end, expect, holders.top());
    let turn = number_end(text, at, end, expect, holders, watch);
    if more { stopped(turn) } else { turn }
}

/// The beginning of an object, or a whole one that is empty, where a value stands next.
#[inline(always)]
fn object<H: Containers, W: Watch>(
    text: &[u8],
    at: &mut usize,
    last: usize,
    to: usize,
    expect: Expect,
    holders: &mut H,
    most: usize,
    watch: &mut W,
) -> Turn
    requires bounds { (at.old < to) × (last ≤ to) × (to ≤ length text.now) }
    requires room { last + 31 ≤ length text.now }
    requires bracket { slice_index text.now at.old ≡ 0x7b }
    requires takes { TakesValue expect }
    requires few { length (H.list holders.old) < 2 ^ 32 }
    requires turn { W.awaits watch.old }
    ensures bounds { (at.old ≤ at.new) × (at.new ≤ to) }
    ensures reads { Reads most text.now at.old at.new (went expect (H.list holders.old)) (went (expect_of result) (H.list holders.new)) }
    ensures seen { Sees (W.has_seen watch.old) (W.has_seen watch.new) text.now at.old at.new }
    ensures turn { W.awaits watch.new }
{
    if holders.len() >= most {
        return Turn::Stop(expect);
    }
    let mut first = *at + 1;
    if skip(text, &mut first, last, to) && text[first] == b'}' {
        watch.mark(mark_at(MarkKind::OpenObject, *at));
        watch.mark(mark_at(MarkKind::CloseObject, first));
        *at = first + 1;
        return Turn::On(Expect::After);
    }
    match holders.push(Holder::Object) {
        Ok(()) => {
            watch.mark(mark_at(MarkKind::OpenObject, *at));
            *at = first;
            Turn::On(Expect::ObjectFirst)
        }
        Err(_) => Turn::Stop(expect),
    }
}

/// The beginning of an array, or a whole one that is empty, where a value stands next.
#[inline(always)]
fn array<H: Containers, W: Watch>(
    text: &[u8],
    at: &mut usize,
    last: usize,
    to: usize,
    expect: Expect,
    holders: &mut H,
    most: usize,
    watch: &mut W,
) -> Turn
    requires bounds { (at.old < to) × (last ≤ to) × (to ≤ length text.now) }
    requires room { last + 31 ≤ length text.now }
    requires bracket { slice_index text.now at.old ≡ 0x5b }
    requires takes { TakesValue expect }
    requires few { length (H.list holders.old) < 2 ^ 32 }
    requires turn { W.awaits watch.old }
    ensures bounds { (at.old ≤ at.new) × (at.new ≤ to) }
    ensures reads { Reads most text.now at.old at.new (went expect (H.list holders.old)) (went (expect_of result) (H.list holders.new)) }
    ensures seen { Sees (W.has_seen watch.old) (W.has_seen watch.new) text.now at.old at.new }
    ensures turn { W.awaits watch.new }
{
    if holders.len() >= most {
        return Turn::Stop(expect);
    }
    let mut first = *at + 1;
    if skip(text, &mut first, last, to) && text[first] == b']' {
        watch.mark(mark_at(MarkKind::OpenArray, *at));
        watch.mark(mark_at(MarkKind::CloseArray, first));
        *at = first + 1;
        return Turn::On(Expect::After);
    }
    match holders.push(Holder::Array) {
        Ok(()) => {
            watch.mark(mark_at(MarkKind::OpenArray, *at));
            *at = first;
            Turn::On(Expect::ArrayFirst)
        }
        Err(_) => Turn::Stop(expect),
    }
}

/// A value, or the beginning of a container, from the white space in front of it on.
#[inline(always)]
fn value<H: Containers, W: Watch>(
    text: &[u8],
    at: &mut usize,
    last: usize,
    to: usize,
    expect: Expect,
    holders: &mut H,
    most: usize,
    ahead: &mut Ahead,
    watch: &mut W,
) -> Turn
    requires bounds { (at.old ≤ to) × (last ≤ to) × (to ≤ length text.now) }
    requires room { last + 31 ≤ length text.now }
    requires takes { TakesValue expect }
    requires few { length (H.list holders.old) < 2 ^ 32 }
    requires sound { IsSound text.now ahead.old }
    requires turn { W.awaits watch.old }
    ensures bounds { (at.old ≤ at.new) × (at.new ≤ to) }
    ensures reads { Reads most text.now at.old at.new (went expect (H.list holders.old)) (went (expect_of result) (H.list holders.new)) }
    ensures sound { IsSound text.now ahead.new }
    ensures seen { Sees (W.has_seen watch.old) (W.has_seen watch.new) text.now at.old at.new }
    ensures turn { W.awaits watch.new }
{
    if !skip(text, at, last, to) {
        return Turn::Stop(expect);
    }
    match text[*at] {
        b'"' => string(text, at, to, expect, ahead, watch),
        b'{' => object(text, at, last, to, expect, holders, most, watch),
        b'[' => array(text, at, last, to, expect, holders, most, watch),
        b't' | b'f' | b'n' => literal(text, at, to, expect, watch),
        _ => number(text, at, to, expect, holders, watch),
    }
}

/// The closing brackets and the comma after a value.
#[inline(always)]
fn after<H: Containers, W: Watch>(
    text: &[u8],
    at: &mut usize,
    last: usize,
    to: usize,
    holders: &mut H,
    watch: &mut W,
) -> Turn
    requires bounds { (at.old ≤ to) × (last ≤ to) × (to ≤ length text.now) }
    requires room { last + 31 ≤ length text.now }
    requires turn { W.awaits watch.old }
    ensures bounds { (at.old ≤ at.new) × (at.new ≤ to) }
    ensures reads { (depth : ℕ) → Reads depth text.now at.old at.new (went expected.After (H.list holders.old)) (went (expect_of result) (H.list holders.new)) }
    ensures seen { Sees (W.has_seen watch.old) (W.has_seen watch.new) text.now at.old at.new }
    ensures turn { W.awaits watch.new }
{
    for _ in *at..to {
        if !skip(text, at, last, to) {
            break;
        }
        match leave(text[*at], holders) {
            Some(Expect::After) => {
                watch.mark(mark_at(leave_kind(text[*at]), *at));
                *at += 1;
            }
            Some(then) => {
                watch.mark(mark_at(leave_kind(text[*at]), *at));
                *at += 1;
                return Turn::On(then);
            }
            None => break,
        }
    }
    Turn::Stop(Expect::After)
}

/// Whether a comma or a closing bracket may stand next.
#[inline(always)]
fn is_after(expect: Expect) -> bool
    ensures { IsTrue result → expect ≡ expected.After }
{
    matches!(expect, Expect::After)
}

/// The closing brackets and the comma after a value, where they stand next.
#[inline(always)]
fn ends<H: Containers, W: Watch>(
    turn: Turn,
    text: &[u8],
    at: &mut usize,
    last: usize,
    to: usize,
    holders: &mut H,
    watch: &mut W,
) -> Turn
    requires bounds { (at.old ≤ to) × (last ≤ to) × (to ≤ length text.now) }
    requires room { last + 31 ≤ length text.now }
    requires turn { W.awaits watch.old }
    ensures bounds { (at.old ≤ at.new) × (at.new ≤ to) }
    ensures reads { (depth : ℕ) → Reads depth text.now at.old at.new (went (expect_of turn) (H.list holders.old)) (went (expect_of result) (H.list holders.new)) }
    ensures seen { Sees (W.has_seen watch.old) (W.has_seen watch.new) text.now at.old at.new }
    ensures turn { W.awaits watch.new }
{
    match turn {
        Turn::On(expect) if is_after(expect) => after(text, at, last, to, holders, watch),
        _ => turn,
    }
}

/// From a place where a value stands next to another one.
#[inline(always)]
fn round<H: Containers, W: Watch>(
    text: &[u8],
    at: &mut usize,
    last: usize,
    to: usize,
    expect: Expect,
    holders: &mut H,
    most: usize,
    ahead: &mut Ahead,
    watch: &mut W,
) -> Turn
    requires bounds { (at.old ≤ to) × (last ≤ to) × (to ≤ length text.now) }
    requires room { last + 31 ≤ length text.now }
    requires takes { TakesValue expect }
    requires few { length (H.list holders.old) < 2 ^ 32 }
    requires sound { IsSound text.now ahead.old }
    requires turn { W.awaits watch.old }
    ensures bounds { (at.old ≤ at.new) × (at.new ≤ to) }
    ensures reads { Reads most text.now at.old at.new (went expect (H.list holders.old)) (went (expect_of result) (H.list holders.new)) }
    ensures sound { IsSound text.now ahead.new }
    ensures seen { Sees (W.has_seen watch.old) (W.has_seen watch.new) text.now at.old at.new }
    ensures turn { W.awaits watch.new }
{
    let begun = value(text, at, last, to, expect, holders, most, ahead, watch);
    let ended = ends(begun, text, at, last, to, holders, watch);
    member(ended, text, at, last, to, ahead, watch)
}

/// Reads whole tokens from a place where a value stands next. Gives the offset after them, and what may stand next
/// there.
#[inline(never)]
pub(crate) fn rounds<H: Containers, W: Watch>(
    text: &[u8],
    from: usize,
    to: usize,
    expect: Expect,
    holders: &mut H,
    most: usize,
    watch: &mut W,
) -> (usize, Expect)
    requires bounds { (from ≤ to) × (to ≤ length text.now) }
    requires room { 32 ≤ length text.now }
    requires takes { TakesValue expect }
    requires within { (length (H.list holders.old) ≤ most) × (most < 2 ^ 32) }
    requires turn { W.awaits watch.old }
    ensures bounds { (from ≤ result.0) × (result.0 ≤ to) }
    ensures reads { Reads most text.now from result.0 (went expect (H.list holders.old)) (went result.1 (H.list holders.new)) }
    ensures seen { Sees (W.has_seen watch.old) (W.has_seen watch.new) text.now from result.0 }
    ensures turn { W.awaits watch.new }
{
    let last = last_start(text, to);
    let mut at = from;
    let mut expect = expect;
    let mut ahead = Ahead::nothing();
    for _ in from..to {
        match round(
            text, &mut at, last, to, expect, holders, most, &mut ahead, watch,
        ) {
            Turn::On(next) if takes_value(next) => expect = next,
            Turn::On(next) => return (at, next),
            Turn::Stop(next) => return (at, next),
        }
    }
    (at, expect)
}
