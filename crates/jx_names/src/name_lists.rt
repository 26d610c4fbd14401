// Names by place, and those among them that are repeated.
ghost use Rattle.std.specs.Prelude.{◌≡◌, ◌∷◌, length, map, IfOk, IsTrue};
ghost use Rattle.std.specs.Ordering.{nat_cmp};
ghost use Rattle.std.specs.Cmp.Lexicographic.{slice_cmp};
ghost use Rattle.jx_index.specs.Repeats.{IsLeast};
ghost use Rattle.jx_index.specs.inside.NameKeys.{AreApart};
ghost use Rattle.jx_index.specs.inside.Ties.{earlier_of, tie_start, IsTie};
ghost use Rattle.jx_names.specs.inside.KeptNames.{keyed_in, start_of, IsInKeyOrder, IsRepeatedKept};
ghost use Rattle.jx_names.specs.inside.ApartKeys.{key_of};

use crate::key_pairs::pairs_are_apart;
use crate::key_table::many_are_apart;
use crate::name_bytes::{Name, bytes_in};
use std::alloc::AllocError;
use std::cmp::Ordering;

/// The lesser of two offsets, where there are any.
#[inline(always)]
pub(crate) fn earlier(one: Option<usize>, other: Option<usize>) -> Option<usize>
    ensures { result ≡ earlier_of one other }
{
    match (one, other) {
        (Some(first), Some(second)) => Some(first.min(second)),
        (Some(first), None) => Some(first),
        (None, second) => second,
    }
}

/// Two names by their keys, and where these are equal by their bytes.
fn compare(bytes: &[u8], one: Name, other: Name) -> Ordering
    ensures { result ≡ slice_cmp nat_cmp (keyed_in bytes.now one) (keyed_in bytes.now other) }
{
    match one.key.cmp(&other.key) {
        Ordering::Equal => bytes_in(bytes, one).cmp(&bytes_in(bytes, other)),
        unequal => unequal,
    }
}

/// Sorts names by their keys and bytes; equal names keep their order.
fn sort_names(bytes: &[u8], names: &mut Vec<Name>) -> Result<(), AllocError>
    ensures { IfOk result (λ _. IsInKeyOrder bytes.now names.old.items names.new.items) }
{
    names.sort_by(|a, b| compare(bytes, *a, *b))?;
    Ok(())
}

/// Where the second name begins, if it has the key and the bytes of the first.
fn start_of_equal(bytes: &[u8], first: Name, second: Name) -> Option<usize>
    ensures { result ≡ tie_start (keyed_in bytes.now) start_of first second }
{
    match compare(bytes, first, second) {
        Ordering::Equal => Some(second.at),
        Ordering::Less | Ordering::Greater => None,
    }
}

/// The least start of a name that has the key and the bytes of the one before it.
fn first_equal(bytes: &[u8], names: &[Name]) -> Option<usize>
    ensures { IsLeast (IsTie (keyed_in bytes.now) start_of names.now) result }
{
    let mut first = None;
    for at in 0..names.len().saturating_sub(1) {
        let equal = start_of_equal(bytes, names[at], names[at + 1]);
        first = earlier(first, equal);
    }
    first
}

/// The same among names by place of which none need stand beside another of its bytes. They are sorted in a list that is
/// used again.
fn first_repeated_by_order(
    bytes: &[u8],
    names: &[Name],
    sorted: &mut Vec<Name>,
) -> Result<Option<usize>, AllocError>
    ensures { IfOk result (IsLeast (IsRepeatedKept bytes.now names.now)) }
{
    sorted.clear();
    sorted.extend_from_slice(names)?;
    sort_names(bytes, sorted)?;
    Ok(first_equal(bytes, sorted))
}

/// How many names are compared one by one.
const FEW: usize = 8;

/// Whether no two of the names have the same key. A no leaves it open. The table is used again.
fn are_apart(names: &[Name], table: &mut Vec<u64>) -> Result<bool, AllocError>
    ensures { IfOk result (λ apart. IsTrue apart → AreApart (map key_of names.now)) }
{
    if names.len() <= FEW {
        return Ok(pairs_are_apart(names));
    }
    many_are_apart(names, table)
}

/// The least start of a name that has the bytes of one before it, among names by place. Where no two have the same key, they
/// are not sorted. The sorted names stand in a list that is used again, and so do the keys in a table.
#[inline(never)]
fn first_repeated_of_some(
    bytes: &[u8],
    names: &[Name],
    table: &mut Vec<u64>,
    sorted: &mut Vec<Name>,
) -> Result<Option<usize>, AllocError>
    ensures { IfOk result (IsLeast (IsRepeatedKept bytes.now names.now)) }
{
    if are_apart(names, table)? {
        return Ok(None);
    }
    first_repeated_by_order(bytes, names, sorted)
}

/// The same. One name alone costs next to nothing.
#[inline(always)]
pub(crate) fn first_repeated(
    bytes: &[u8],
    names: &[Name],
    table: &mut Vec<u64>,
    sorted: &mut Vec<Name>,
) -> Result<Option<usize>, AllocError>
    ensures { IfOk result (IsLeast (IsRepeatedKept bytes.now names.now)) }
{
    if names.len() < 2 {
        return Ok(None);
    }
    first_repeated_of_some(bytes, names, table, sorted)
}
