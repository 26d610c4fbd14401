// The brackets of a block, one by one over the innermost word of open containers.
ghost use Rattle.std.specs.Prelude.{◌≡◌, ◌+◌, ◌<◌, ◌≤◌, ◌||◌, ◌++◌, ◌∷◌, ℕ, Bool, List, IfSome, false, length, true};
ghost use Rattle.jx_lex.specs.inside.Bits.{bit};
ghost use Rattle.jx_reduce.specs.Bits.{holder_of, in_word};
ghost use Rattle.jx_reduce.specs.Containers.{IsInner};
ghost use Rattle.jx_reduce.specs.Read.{top, without_top};
ghost use Rattle.jx_reduce.specs.declared.table.holder.Holder.{Holder};
ghost use Rattle.jx_reduce.specs.inside.Blocks.{container, Steps, Walks};

use crate::stack::containers::Innermost;
use jx_block::{TokenKinds, is_bit, with_behind};

/// How many containers a word holds.
const WORD: usize = 64;

/// The result of the brackets of a block.
#[derive(Clone, Copy)]
pub(crate) struct Walked {
    pub inner: Innermost,
    /// Bit k says that the innermost container before byte k is an object.
    pub objects: u64,
}

/// Whether the innermost container is an object.
#[inline(always)]
fn is_object(inner: Innermost) -> bool
    requires { IsInner inner }
    ensures { (rest : List Holder) → top (in_word inner.count inner.bits ++ rest) ≡ container result }
{
    inner.bits % 2 == 1
}

/// The bit of a container.
#[inline(always)]
fn bit_of(object: bool) -> u64
    ensures within { result < 2 }
    ensures container { holder_of result ≡ container object }
{
    if object { 1 } else { 0 }
}

/// Opens one more container, where the word and `room` have a place for it.
#[inline(always)]
fn opened(inner: Innermost, object: bool, room: usize) -> Option<Innermost>
    requires { IsInner inner }
    ensures inner { IfSome result (λ r. IsInner r) }
    ensures room { IfSome result (λ r. inner.count < room) }
    ensures opened { IfSome result (λ r. (rest : List Holder) → in_word r.count r.bits ++ rest ≡ container object ∷ (in_word inner.count inner.bits ++ rest)) }
{
    if inner.count >= room || inner.count >= WORD {
        return None;
    }
    Some(Innermost {
        bits: inner.bits * 2 + bit_of(object),
        count: inner.count + 1,
    })
}

/// Closes the innermost container, where it is of this kind and another one is in the word.
#[inline(always)]
fn closed(inner: Innermost, object: bool) -> Option<Innermost>
    requires { IsInner inner }
    ensures inner { IfSome result (λ r. IsInner r) }
    ensures top { IfSome result (λ r. (rest : List Holder) → top (in_word inner.count inner.bits ++ rest) ≡ container object) }
    ensures closed { IfSome result (λ r. (rest : List Holder) → in_word r.count r.bits ++ rest ≡ without_top (in_word inner.count inner.bits ++ rest)) }
{
    if is_object(inner) != object || inner.count < 2 {
        return None;
    }
    Some(Innermost {
        bits: inner.bits / 2,
        count: inner.count - 1,
    })
}

/// Opens or closes a container at the bracket that is byte k.
#[inline(always)]
fn bracket(kinds: &TokenKinds, k: usize, inner: Innermost, room: usize) -> Option<Innermost>
    requires low { k < 64 }
    requires bracket { (((bit kinds.now.open_arrays k || bit kinds.now.open_objects k) || bit kinds.now.close_arrays k) || bit kinds.now.close_objects k) ≡ true }
    requires inner { IsInner inner }
    ensures inner { IfSome result (λ r. IsInner r) }
    ensures steps { IfSome result (λ r. (rest : List Holder) (most : ℕ) (object : ℕ → Bool) → length rest + room ≤ most → Steps kinds.now object most k (in_word inner.count inner.bits ++ rest) (in_word r.count r.bits ++ rest)) }
{
    if is_bit(kinds.open_arrays | kinds.open_objects, k) {
        return opened(inner, is_bit(kinds.open_objects, k), room);
    }
    closed(inner, is_bit(kinds.close_objects, k))
}

/// All bits of a word, or none.
#[inline(always)]
fn all_bits(set: bool) -> u64
    ensures { (j : ℕ) → j < 64 → bit result j ≡ set }
{
    if set { u64::MAX } else { 0 }
}

/// Walks over the brackets of a block. It gives nothing where one of them closes another container than the innermost, where
/// more containers would be open than there is room for, or where the word would run full or empty.
#[inline(always)]
pub(crate) fn walk(kinds: &TokenKinds, inner: Innermost, room: usize) -> Option<Walked>
    requires { IsInner inner }
    ensures inner { IfSome result (λ w. IsInner w.inner) }
    ensures walks { IfSome result (λ w. (rest : List Holder) (most n : ℕ) → length rest + room ≤ most → n ≤ 64 → ((k : ℕ) → n ≤ k → k < 64 → (((bit kinds.now.open_arrays k || bit kinds.now.open_objects k) || bit kinds.now.close_arrays k) || bit kinds.now.close_objects k) ≡ false) → Walks kinds.now (bit w.objects) most (in_word inner.count inner.bits ++ rest) n (in_word w.inner.count w.inner.bits ++ rest)) }
{
    let mut left = kinds.open_arrays
        | kinds.open_objects
        | kinds.close_arrays
        | kinds.close_objects;
    let mut inner = inner;
    let mut objects = all_bits(is_object(inner));
    let mut from = 0;
    while left != 0 {
        let k = left.trailing_zeros() as usize;
        inner = bracket(kinds, k, inner, room)?;
        objects = with_behind(objects, k, is_object(inner));
        left &= left - 1;
        from = k + 1;
    }
    // Shows the proof that all brackets are before this place.
    let _ = from;
    Some(Walked { inner, objects })
}
