// Names as they stand in a text, in order, and those among them that are repeated.
ghost use Rattle.std.specs.Prelude.{◌≡◌, [], drop, IfOk};
ghost use Rattle.jx_index.specs.Repeats.{IsLeast};
ghost use Rattle.jx_index.specs.inside.NameLists.{name_tie, IsInUnitOrder, IsNameTie, IsRepeatedName};

use crate::name_keys::keys_are_apart;
use crate::names::compare_names;
use crate::repeats::earlier;
use jx_lex::Span;
use std::alloc::AllocError;
use std::cmp::Ordering;

/// The names after so many.
pub(crate) fn names_behind(names: &[Span], count: usize) -> &[Span]
    ensures { result.now ≡ drop count names.now }
{
    if count < names.len() {
        &names[count..]
    } else {
        &[]
    }
}

/// Sorts names by their units; equal names keep their order.
fn sort_names(text: &[u8], names: &mut Vec<Span>) -> Result<(), AllocError>
    ensures { IfOk result (λ _. IsInUnitOrder text.now names.old.items names.new.items) }
{
    names.sort_by(|a, b| compare_names(text, *a, *b))?;
    Ok(())
}

/// Where the second name begins, if it has the units of the first.
fn start_of_equal(text: &[u8], first: Span, second: Span) -> Option<usize>
    ensures { result ≡ name_tie text.now first second }
{
    match compare_names(text, first, second) {
        Ordering::Equal => Some(second.start),
        Ordering::Less | Ordering::Greater => None,
    }
}

/// The least start of a name that has the units of the one before it.
fn first_equal(text: &[u8], names: &[Span]) -> Option<usize>
    ensures { IsLeast (IsNameTie text.now names.now) result }
{
    let mut first = None;
    for at in 0..names.len().saturating_sub(1) {
        let equal = start_of_equal(text, names[at], names[at + 1]);
        first = earlier(first, equal);
    }
    first
}

/// The least start of a repeated name, among names by place that need not be sorted. They are sorted in a list that is
/// used again.
fn first_repeated_by_order(
    text: &[u8],
    names: &[Span],
    sorted: &mut Vec<Span>,
) -> Result<Option<usize>, AllocError>
    ensures { IfOk result (IsLeast (IsRepeatedName text.now names.now)) }
{
    sorted.clear();
    sorted.extend_from_slice(names)?;
    sort_names(text, sorted)?;
    Ok(first_equal(text, sorted))
}

/// How many names are distinguished by comparing each key with each other.
const FEW: usize = 96;

/// The least start of a name that has the units of one before it, among names by place. Where there are few, and no two have
/// the same key, they are not sorted. The keys and the sorted names stand in lists that are used again.
pub(crate) fn first_repeated(
    text: &[u8],
    names: &[Span],
    keys: &mut Vec<u64>,
    sorted: &mut Vec<Span>,
) -> Result<Option<usize>, AllocError>
    ensures { IfOk result (IsLeast (IsRepeatedName text.now names.now)) }
{
    if names.len() < 2 {
        return Ok(None);
    }
    if names.len() <= FEW {
        let apart = keys_are_apart(text, names, keys)?;
        if apart {
            return Ok(None);
        }
    }
    first_repeated_by_order(text, names, sorted)
}
