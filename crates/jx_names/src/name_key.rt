// Keys of names: equal bytes have equal keys.
ghost use Rattle.std.specs.Prelude.{◌≡◌, ◌+◌, ◌*◌, ◌≤◌, length};
ghost use Rattle.jx_names.specs.inside.NameBytes.{bytes_key, half_at, key_of_bytes, next_key, word_at, words_key};

/// Eight bytes, low byte first.
#[inline(always)]
fn word_at(bytes: &[u8], at: usize) -> u64
    requires { at + 8 ≤ length bytes.now }
    ensures { result ≡ word_at bytes.now at }
{
    u64::from_le_bytes([
        bytes[at],
        bytes[at + 1],
        bytes[at + 2],
        bytes[at + 3],
        bytes[at + 4],
        bytes[at + 5],
        bytes[at + 6],
        bytes[at + 7],
    ])
}

/// Four bytes, low byte first.
#[inline(always)]
fn half_at(bytes: &[u8], at: usize) -> u64
    requires { at + 4 ≤ length bytes.now }
    ensures { result ≡ half_at bytes.now at }
{
    u32::from_le_bytes([bytes[at], bytes[at + 1], bytes[at + 2], bytes[at + 3]]) as u64
}

/// A key with one number more.
#[inline(always)]
fn next_key(key: u64, word: u64) -> u64
    ensures { result ≡ next_key key word }
{
    key.wrapping_add(word).wrapping_mul(0x9e37_79b9_7f4a_7c15)
}

/// The key of so many words.
#[inline(always)]
#[tactic(auto, unfolding(crate::specs::inside::NameBytes::words_key))]
fn words_key(bytes: &[u8], count: usize) -> u64
    requires { 8 * count ≤ length bytes.now }
    ensures { result ≡ words_key bytes.now count }
{
    let mut key = bytes.len() as u64;
    'words: for n in 0..count {
        key = next_key(key, word_at(bytes, 8 * n));
    }
    key
}

/// The key of so many bytes.
#[inline(always)]
#[tactic(auto, unfolding(crate::specs::inside::NameBytes::bytes_key))]
fn bytes_key(bytes: &[u8], count: usize) -> u64
    requires { count ≤ length bytes.now }
    ensures { result ≡ bytes_key bytes.now count }
{
    let mut key = bytes.len() as u64;
    'bytes: for n in 0..count {
        key = next_key(key, u64::from(bytes[n]));
    }
    key
}

/// The key of a name by its bytes.
#[inline(always)]
#[tactic(auto, unfolding(crate::specs::inside::NameBytes::key_of_bytes))]
pub(crate) fn key_of_bytes(bytes: &[u8]) -> u64
    ensures { result ≡ key_of_bytes bytes.now }
{
    let len = bytes.len();
    if len < 4 {
        return bytes_key(bytes, len);
    }
    if len < 8 {
        let high = half_at(bytes, len - 4).wrapping_mul(0x1_0000_0000);
        return next_key(
            next_key(len as u64, 0),
            half_at(bytes, 0).wrapping_add(high),
        );
    }
    if len < 16 {
        let first = next_key(len as u64, word_at(bytes, 0));
        return next_key(first, word_at(bytes, len - 8));
    }
    next_key(words_key(bytes, len / 8), word_at(bytes, len - 8))
}
