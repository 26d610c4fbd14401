// Whether many names have different keys, by a table of the keys before each.
ghost use Rattle.std.specs.Prelude.{◌≡◌, ◌+◌, ◌<◌, ◌≤◌, ◌==◌, ◌||◌, ℕ, length, map, slice_index, IfOk, IsTrue};
ghost use Rattle.std.specs.Slice.Scan.{IsFirstPlace};
ghost use Rattle.jx_index.specs.inside.NameKeys.{AreApart};
ghost use Rattle.jx_names.specs.inside.ApartKeys.{key_of, StandsIn};

use crate::name_bytes::Name;
use std::alloc::AllocError;

/// At how many places a key may stand, from its own on.
const REACH: usize = 32;

/// The first place of so many that is free or has the key, or the place after them.
#[inline(always)]
fn place_of(table: &[u64], from: usize, key: u64) -> usize
    requires { from + 32 ≤ length table.now }
    ensures { IsFirstPlace (λ k. (slice_index table.now k == 0) || (slice_index table.now k == key)) from (from + 32) result }
{
    for at in from..from + REACH {
        if table[at] == 0 || table[at] == key {
            return at;
        }
    }
    from + REACH
}

/// Puts a key into a table, by its highest bits, and says whether it was not there. It also says no where it finds no place.
#[inline(always)]
fn put(table: &mut [u64], shift: u32, key: u64) -> bool
    requires { shift < 64 }
    ensures new { IsTrue result → StandsIn table.old shift key → ⊥ }
    ensures put { IsTrue result → StandsIn table.new shift key }
    ensures kept { IsTrue result → (other : ℕ) → StandsIn table.old shift other → StandsIn table.new shift other }
{
    let from = (key >> shift) as usize;
    if key == 0 || table.len() < REACH || from > table.len() - REACH {
        return false;
    }
    let place = place_of(table, from, key);
    if place == from + REACH || table[place] != 0 {
        return false;
    }
    table[place] = key;
    true
}

/// Whether each key of the names was put into the table, where it was not.
fn are_put(table: &mut [u64], shift: u32, names: &[Name]) -> bool
    requires { shift < 64 }
    ensures { IsTrue result → AreApart (map key_of names.now) }
{
    'names: for at in 0..names.len() {
        if !put(table, shift, names[at].key) {
            return false;
        }
    }
    true
}

/// Whether no two of the names have the same key. A no leaves it open. The table is used again.
pub(crate) fn many_are_apart(names: &[Name], table: &mut Vec<u64>) -> Result<bool, AllocError>
    ensures { IfOk result (λ apart. IsTrue apart → AreApart (map key_of names.now)) }
{
    // More than two places for each name, four at most.
    let shift = names.len().leading_zeros().saturating_sub(1);
    let Some(len) = (usize::MAX >> shift).checked_add(REACH) else {
        return Ok(false);
    };
    table.clear();
    table.resize(len, 0)?;
    Ok(are_put(table, shift, names))
}
