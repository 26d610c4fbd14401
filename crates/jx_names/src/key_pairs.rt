// Whether a few names have different keys: each is compared with those before it.
ghost use Rattle.std.specs.Prelude.{◌≡◌, ◌<◌, ℕ, false, get_or, length, map, IsTrue};
ghost use Rattle.jx_index.specs.inside.NameKeys.{AreApart};
ghost use Rattle.jx_names.specs.inside.ApartKeys.{key_of, IsNew};

use crate::name_bytes::Name;

/// Whether one of the names has the key.
fn has_key(names: &[Name], key: u64) -> bool
    ensures { result ≡ false → (k : ℕ) → k < length names.now → get_or (map key_of names.now) k 0 ≡ key → ⊥ }
{
    for at in 0..names.len() {
        if names[at].key == key {
            return true;
        }
    }
    false
}

/// Whether a name, by its place, has another key than all before it.
#[inline(always)]
fn is_new(names: &[Name], at: usize) -> bool
    requires { at < length names.now }
    ensures { IsTrue result → IsNew (map key_of names.now) at }
{
    !has_key(&names[..at], names[at].key)
}

/// Whether no two of the names have the same key.
pub(crate) fn pairs_are_apart(names: &[Name]) -> bool
    ensures { IsTrue result → AreApart (map key_of names.now) }
{
    'names: for at in 0..names.len() {
        if !is_new(names, at) {
            return false;
        }
    }
    true
}
