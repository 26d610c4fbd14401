// Words of bits, and where a block is cut.
ghost use Rattle.std.specs.Prelude.{◌≡◌, ◌≤◌, ◌<◌, ◌^◌, ℕ, false};
ghost use Rattle.jx_lex.specs.inside.Bits.{bit};

/// The first n bits of a word.
#[inline(always)]
pub(crate) fn first_bits(word: u64, n: usize) -> u64
    requires { (0 < n) × (n ≤ 64) }
    ensures kept { (k : ℕ) → k < n → bit result k ≡ bit word k }
    ensures few { result < 2 ^ n }
{
    word & (u64::MAX >> (64 - n))
}

/// The last place that is not inside a token and has nothing wrong before it, or 0.
#[inline(always)]
pub(crate) fn last_boundary(inside: u64, wrong: u64) -> usize
    ensures few { result < 64 }
    ensures boundary { 0 < result → bit inside result ≡ false }
    ensures right { (k : ℕ) → k < result → bit wrong k ≡ false }
{
    // The bits up to the lowest one of `wrong`, or all.
    let up_to_wrong = wrong ^ wrong.wrapping_sub(1);
    let boundaries = !inside & up_to_wrong;
    if boundaries == 0 {
        return 0;
    }
    boundaries.ilog2() as usize
}

/// Whether bit k is set.
#[inline(always)]
pub fn is_bit(word: u64, k: usize) -> bool
    requires { k < 64 }
    ensures { result ≡ bit word k }
{
    (word >> k) & 1 == 1
}

/// The word with the bits after bit k all set, or none of them.
#[inline(always)]
pub fn with_behind(word: u64, k: usize, set: bool) -> u64
    requires { k < 64 }
    ensures before { (j : ℕ) → j ≤ k → bit result j ≡ bit word j }
    ensures behind { (j : ℕ) → k < j → j < 64 → bit result j ≡ set }
{
    let up_to = u64::MAX >> (63 - k);
    if set { word | !up_to } else { word & up_to }
}
