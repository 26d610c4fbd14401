// Where strings stand in a block.
ghost use Rattle.std.specs.Prelude.{◌≡◌, false};
ghost use Rattle.jx_lex.specs.inside.Bits.{bit};

/// The bits with an even place.
const EVEN: u64 = 0x5555_5555_5555_5555;

/// Which bytes follow an odd number of backslashes: of each run of backslashes the first, the third and so on escape
/// the byte after them. The first byte is after none.
#[inline(always)]
pub(crate) fn behind_odd_runs(backslashes: u64) -> u64
    ensures first { bit result 0 ≡ false }
{
    let behind = backslashes << 1;
    let odd_starts = backslashes & !EVEN & !behind;
    // The sum runs through each run that begins at an odd place, up to the byte after it.
    (EVEN ^ (odd_starts.wrapping_add(backslashes) << 1)) & behind
}

/// Bit k is the difference of the bits up to bit k. Who calls it looks at each bit once more, so that no proof rests on it.
#[inline(always)]
pub(crate) fn prefix_xor(word: u64) -> u64 {
    let by_2 = word ^ (word << 1);
    let by_4 = by_2 ^ (by_2 << 2);
    let by_8 = by_4 ^ (by_4 << 4);
    let by_16 = by_8 ^ (by_8 << 8);
    let by_32 = by_16 ^ (by_16 << 16);
    by_32 ^ (by_32 << 32)
}
