// How deeply bytes nest, by their brackets and braces alone.

use std::simd::prelude::*;

/// A run over bytes that open or close more containers than this one in another takes more memory than an eighth of 32 KiB.
const DEEP: i64 = 64;

/// How many containers more the bytes open than they close.
fn opened(block: u8x32) -> i64 {
    // In ASCII brackets differ from braces in this bit alone.
    let folded = block | u8x32::splat(0x20);
    let opens = folded.simd_eq(u8x32::splat(b'{')).to_bitmask();
    let closes = folded.simd_eq(u8x32::splat(b'}')).to_bitmask();
    i64::from(opens.count_ones()) - i64::from(closes.count_ones())
}

/// Whether bytes nest so deeply that a run over them would be large. Brackets in strings count too: in another state
/// they stand for containers.
pub(crate) fn nest_deeply(bytes: &[u8]) -> bool {
    let (blocks, _) = bytes.as_chunks::<32>();
    let mut height = 0i64;
    let mut lowest = 0i64;
    let mut highest = 0i64;
    for block in blocks {
        height = height.saturating_add(opened(u8x32::from_array(*block)));
        lowest = lowest.min(height);
        highest = highest.max(height);
    }
    highest.saturating_sub(lowest) > DEEP
}
