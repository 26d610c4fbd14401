// XXH64 with the seed 0.
ghost use Rattle.std.specs.Prelude.{◌≡◌, ◌+◌, ◌*◌, ◌≤◌, length};
ghost use Rattle.jx_file_index.specs.Digest.{avalanche, bytes_after, half_at, lanes_after, merged, of_lanes, round, started, with_byte, with_half, with_stripe, with_word, word_at, words_after, xxh64, half_after};

const PRIME_1: u64 = 0x9E37_79B1_85EB_CA87;

const PRIME_2: u64 = 0xC2B2_AE3D_27D4_EB4F;

const PRIME_3: u64 = 0x1656_67B1_9E37_79F9;

const PRIME_4: u64 = 0x85EB_CA77_C2B2_AE63;

const PRIME_5: u64 = 0x27D4_EB2F_1656_67C5;

/// The four lanes in which blocks of 32 bytes are read.
#[derive(Clone, Copy)]
struct Lanes {
    first: u64,
    second: u64,
    third: u64,
    fourth: u64,
}

/// Eight bytes, low byte first.
#[inline(always)]
pub(crate) fn word_at(bytes: &[u8], at: usize) -> u64
    requires { at + 8 ≤ length bytes.now }
    ensures { result ≡ word_at bytes.now at }
{
    u64::from_le_bytes([
        bytes[at],
        bytes[at + 1],
        bytes[at + 2],
        bytes[at + 3],
        bytes[at + 4],
        bytes[at + 5],
        bytes[at + 6],
        bytes[at + 7],
    ])
}

/// Four bytes, low byte first.
#[inline(always)]
pub(crate) fn half_at(bytes: &[u8], at: usize) -> u64
    requires { at + 4 ≤ length bytes.now }
    ensures { result ≡ half_at bytes.now at }
{
    u32::from_le_bytes([bytes[at], bytes[at + 1], bytes[at + 2], bytes[at + 3]]) as u64
}

#[inline(always)]
fn round(lane: u64, word: u64) -> u64
    ensures { result ≡ round lane word }
{
    lane.wrapping_add(word.wrapping_mul(PRIME_2))
        .rotate_left(31)
        .wrapping_mul(PRIME_1)
}

#[inline(always)]
fn with_stripe(bytes: &[u8], at: usize, lanes: Lanes) -> Lanes
    requires { at + 32 ≤ length bytes.now }
    ensures { result ≡ with_stripe bytes.now at lanes }
{
    Lanes {
        first: round(lanes.first, word_at(bytes, at)),
        second: round(lanes.second, word_at(bytes, at + 8)),
        third: round(lanes.third, word_at(bytes, at + 16)),
        fourth: round(lanes.fourth, word_at(bytes, at + 24)),
    }
}

/// The lanes after so many blocks.
#[tactic(auto, unfolding(crate::specs::Digest::lanes_after))]
fn lanes_after(bytes: &[u8], count: usize) -> Lanes
    requires { 32 * count ≤ length bytes.now }
    ensures { result ≡ lanes_after bytes.now count }
{
    let mut lanes = Lanes {
        first: PRIME_1.wrapping_add(PRIME_2),
        second: PRIME_2,
        third: 0,
        fourth: 0u64.wrapping_sub(PRIME_1),
    };
    'stripes: for n in 0..count {
        lanes = with_stripe(bytes, 32 * n, lanes);
    }
    lanes
}

#[inline(always)]
fn merged(hash: u64, lane: u64) -> u64
    ensures { result ≡ merged hash lane }
{
    (hash ^ round(0, lane))
        .wrapping_mul(PRIME_1)
        .wrapping_add(PRIME_4)
}

/// The digest of the lanes.
fn of_lanes(lanes: Lanes) -> u64
    ensures { result ≡ of_lanes lanes }
{
    let sum = lanes
        .first
        .rotate_left(1)
        .wrapping_add(lanes.second.rotate_left(7))
        .wrapping_add(lanes.third.rotate_left(12))
        .wrapping_add(lanes.fourth.rotate_left(18));
    let hash = merged(merged(sum, lanes.first), lanes.second);
    merged(merged(hash, lanes.third), lanes.fourth)
}

/// The digest of the blocks.
fn started(bytes: &[u8]) -> u64
    ensures { result ≡ started bytes.now }
{
    if bytes.len() < 32 {
        return PRIME_5;
    }
    of_lanes(lanes_after(bytes, bytes.len() / 32))
}

#[inline(always)]
fn with_word(hash: u64, word: u64) -> u64
    ensures { result ≡ with_word hash word }
{
    (hash ^ round(0, word))
        .rotate_left(27)
        .wrapping_mul(PRIME_1)
        .wrapping_add(PRIME_4)
}

#[inline(always)]
fn with_half(hash: u64, half: u64) -> u64
    ensures { result ≡ with_half hash half }
{
    (hash ^ half.wrapping_mul(PRIME_1))
        .rotate_left(23)
        .wrapping_mul(PRIME_2)
        .wrapping_add(PRIME_3)
}

#[inline(always)]
fn with_byte(hash: u64, byte: u8) -> u64
    ensures { result ≡ with_byte hash byte }
{
    (hash ^ (byte as u64).wrapping_mul(PRIME_5))
        .rotate_left(11)
        .wrapping_mul(PRIME_1)
}

/// Reads so many words from an offset on.
#[tactic(auto, unfolding(crate::specs::Digest::words_after))]
fn words_after(bytes: &[u8], at: usize, hash: u64, count: usize) -> u64
    requires { at + 8 * count ≤ length bytes.now }
    ensures { result ≡ words_after bytes.now at hash count }
{
    let mut read = hash;
    'words: for n in 0..count {
        read = with_word(read, word_at(bytes, at + 8 * n));
    }
    read
}

/// Reads four bytes where so many are left.
fn half_after(bytes: &[u8], hash: u64) -> u64
    ensures { result ≡ half_after bytes.now hash }
{
    if bytes.len() % 8 < 4 {
        return hash;
    }
    with_half(hash, half_at(bytes, bytes.len() / 8 * 8))
}

/// Reads so many bytes from an offset on.
#[tactic(auto, unfolding(crate::specs::Digest::bytes_after))]
fn bytes_after(bytes: &[u8], at: usize, hash: u64, count: usize) -> u64
    requires { at + count ≤ length bytes.now }
    ensures { result ≡ bytes_after bytes.now at hash count }
{
    let mut read = hash;
    'bytes: for n in 0..count {
        read = with_byte(read, bytes[at + n]);
    }
    read
}

fn avalanche(hash: u64) -> u64
    ensures { result ≡ avalanche hash }
{
    let hash = (hash ^ (hash >> 33)).wrapping_mul(PRIME_2);
    let hash = (hash ^ (hash >> 29)).wrapping_mul(PRIME_3);
    hash ^ (hash >> 32)
}

/// The digest XXH64 of these bytes, with the seed 0. It finds changed bytes, and no forged ones.
#[tactic(auto, unfolding(crate::specs::Digest::xxh64))]
pub fn digest_of(bytes: &[u8]) -> u64
    ensures { result ≡ xxh64 bytes.now }
{
    let len = bytes.len();
    let hash = started(bytes).wrapping_add(len as u64);
    let hash = words_after(bytes, len / 32 * 32, hash, len % 32 / 8);
    let hash = half_after(bytes, hash);
    avalanche(bytes_after(bytes, len / 4 * 4, hash, len % 4))
}
