// Expectations before each byte of a block, as words of bits.
ghost use Rattle.std.specs.Prelude.{◌≡◌, ◌<◌, ◌&&◌, ◌||◌, ℕ, suc, IfSome, true, false, not};
ghost use Rattle.jx_lex.specs.inside.Bits.{bit};
ghost use Rattle.jx_reduce.specs.inside.Blocks.{expect_at, LeadsBy, Placed, Turns};

use crate::table::expect::Expect;
use jx_block::{TokenKinds, is_bit};

/// The expectations before each byte of a block. Bit k of a word stands for byte k.
#[derive(Clone, Copy)]
struct NextWords {
    /// A value.
    value: u64,
    /// A name.
    name: u64,
    /// The first value or name of a container; where neither may stand, a colon.
    first: u64,
}

/// Sets a bit after each bit of `to`, and after it as far as the next bit of `starts`. Bit 0 is the carry, and goes on
/// so. Who calls it looks at each bit once more, so that no proof rests on it.
#[inline(always)]
fn spread(to: u64, starts: u64, carry: u64) -> u64 {
    let others = !starts;
    ((to << 1) | carry).wrapping_add(others) ^ others
}

/// The bits of what may stand next: a value, a name, and the first of a container or a colon.
#[inline(always)]
fn bits_of(expect: Expect) -> (u64, u64, u64) {
    match expect {
        Expect::Value => (1, 0, 0),
        Expect::ArrayFirst => (1, 0, 1),
        Expect::ObjectFirst => (0, 1, 1),
        Expect::Name => (0, 1, 0),
        Expect::Colon => (0, 0, 1),
        Expect::After => (0, 0, 0),
    }
}

/// After which tokens a value may stand.
#[inline(always)]
fn to_value(kinds: &TokenKinds, objects: u64) -> u64
    ensures { (k : ℕ) → k < 64 → bit result k ≡ ((bit kinds.now.open_arrays k || bit kinds.now.colons k) || (bit kinds.now.commas k && not (bit objects k))) }
{
    kinds.open_arrays | kinds.colons | (kinds.commas & !objects)
}

/// After which tokens a name may stand.
#[inline(always)]
fn to_name(kinds: &TokenKinds, objects: u64) -> u64
    ensures { (k : ℕ) → bit result k ≡ (bit kinds.now.open_objects k || (bit kinds.now.commas k && bit objects k)) }
{
    kinds.open_objects | (kinds.commas & objects)
}

/// After which tokens the first of a container may stand, or a colon.
#[inline(always)]
fn to_first(kinds: &TokenKinds, value: u64) -> u64
    ensures { (k : ℕ) → k < 64 → bit result k ≡ ((bit kinds.now.open_arrays k || bit kinds.now.open_objects k) || (bit kinds.now.strings k && not (bit value k))) }
{
    kinds.open_arrays | kinds.open_objects | (kinds.strings & !value)
}

/// The expectations before each byte. They are only sure where [`wrong`] has no bit.
#[inline(always)]
fn words_of(kinds: &TokenKinds, starts: u64, objects: u64, expect: Expect) -> NextWords {
    let (value, name, first) = bits_of(expect);
    let value = spread(to_value(kinds, objects), starts, value);
    NextWords {
        value,
        name: spread(to_name(kinds, objects), starts, name),
        first: spread(to_first(kinds, value), starts, first),
    }
}

/// Where a word does not go on as its tokens say.
#[inline(always)]
fn unlike(word: u64, to: u64, starts: u64) -> u64
    ensures { (k : ℕ) → k < 63 → bit result k ≡ false → bit word (suc k) ≡ (bit to k || (bit word k && not (bit starts k))) }
{
    (word >> 1) ^ (to | (word & !starts))
}

/// The tokens that stand at another place than one of these.
#[inline(always)]
fn against(tokens: u64, places: u64) -> u64
    ensures { (k : ℕ) → k < 64 → bit result k ≡ false → bit tokens k ≡ true → bit places k ≡ true }
{
    tokens & !places
}

/// The tokens that stand where they may not.
#[inline(always)]
fn misplaced(kinds: &TokenKinds, value: u64, name: u64, first: u64) -> u64
    ensures { (k : ℕ) → k < 64 → bit result k ≡ false → Placed kinds.now (bit value) (bit name) (bit first) k }
{
    let after = !(value | name | first);
    against(kinds.commas, after)
        | against(kinds.colons, !(value | name) & first)
        | against(kinds.strings, value | name)
        | against(
            kinds.scalars | kinds.open_arrays | kinds.open_objects,
            value,
        )
        | against(kinds.close_arrays, (value & first) | after)
        | against(kinds.close_objects, (!value & (name & first)) | after)
}

/// Where a token stands that may not, or where the words do not go on as its token says.
#[inline(always)]
fn wrong(kinds: &TokenKinds, starts: u64, objects: u64, next: &NextWords) -> u64
    ensures { (k : ℕ) → k < 63 → bit result k ≡ false → Turns kinds.now starts (bit objects) (bit next.now.value) (bit next.now.name) (bit next.now.first) k }
{
    misplaced(kinds, next.value, next.name, next.first)
        | unlike(next.value, to_value(kinds, objects), starts)
        | unlike(next.name, to_name(kinds, objects), starts)
        | unlike(next.first, to_first(kinds, next.value), starts)
}

/// The expectation before byte k.
#[inline(always)]
fn expect_before(next: &NextWords, k: usize) -> Expect
    requires { k < 64 }
    ensures { result ≡ expect_at (bit next.now.value k) (bit next.now.name k) (bit next.now.first k) }
{
    match (
        is_bit(next.value, k),
        is_bit(next.name, k),
        is_bit(next.first, k),
    ) {
        (true, _, true) => Expect::ArrayFirst,
        (true, _, false) => Expect::Value,
        (false, true, true) => Expect::ObjectFirst,
        (false, true, false) => Expect::Name,
        (false, false, true) => Expect::Colon,
        (false, false, false) => Expect::After,
    }
}

/// The expectation after the first bytes of a block, where each of its tokens is allowed where it is.
#[inline(always)]
pub(crate) fn next_behind(
    kinds: &TokenKinds,
    starts: u64,
    objects: u64,
    len: usize,
    expect: Expect,
) -> Option<Expect>
    requires { len < 64 }
    ensures leads { IfSome result (λ then. LeadsBy kinds.now starts (bit objects) len expect then) }
{
    let next = words_of(kinds, starts, objects, expect);
    // The last byte is never one of those that are read.
    if wrong(kinds, starts, objects, &next) << 1 != 0 || expect_before(&next, 0) != expect {
        return None;
    }
    Some(expect_before(&next, len))
}
