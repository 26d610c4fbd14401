// The state of a look-up after tokens of which only the counts are known.
ghost use Rattle.std.specs.Prelude.{◌≡◌, ◌+◌, ◌^◌, ◌<◌, reverse, IfSome};
ghost use Rattle.jx_index.specs.inside.Trie.{first_open};
ghost use Rattle.jx_find.specs.inside.SeekCounts.{CountsOn, with_count};

use jx_index::{Cursor, Seeker};
use jx_lex::TokenCounts;

/// The most children of one array among the tokens of a block.
const MOST: usize = 32;

/// How many containers are skipped after such tokens.
#[inline(always)]
fn skipped_after(skipped: usize, counts: &TokenCounts) -> Option<usize>
    ensures { IfSome result (λ more. more + counts.now.closing ≡ skipped + counts.now.opening) }
{
    let opened = skipped.checked_add(counts.opening as usize)?;
    let more = opened.checked_sub(counts.closing as usize)?;
    Some(more)
}

/// How many containers are skipped after such tokens, where some are skipped throughout.
#[inline(always)]
pub(crate) fn skipped_behind(skipped: usize, counts: &TokenCounts) -> Option<usize>
    ensures some { IfSome result (λ more. counts.now.lowest < skipped) }
    ensures value { IfSome result (λ more. more + counts.now.closing ≡ skipped + counts.now.opening) }
{
    if counts.lowest as usize >= skipped {
        return None;
    }
    let more = skipped_after(skipped, counts)?;
    Some(more)
}

/// The innermost open container.
#[inline(always)]
fn innermost(opened: &[Cursor]) -> Option<Cursor>
    ensures { result ≡ first_open (reverse opened.now) }
{
    match opened.last() {
        Some(top) => Some(*top),
        None => None,
    }
}

/// Whether the innermost open container is an array, of which no child is wanted that a block may have.
#[inline(always)]
pub(crate) fn may_count(seeker: &Seeker) -> bool {
    match innermost(&seeker.state.opened) {
        Some(top) => !top.is_object && top.count.saturating_add(MOST) <= seeker.next,
        None => false,
    }
}

/// A place in the innermost open container.
#[derive(Clone, Copy)]
pub(crate) struct Inside {
    /// How many children it has there.
    pub count: usize,
    /// How many containers are skipped there.
    pub skipped: usize,
}

/// The place in the innermost open container after such tokens, where it is an array, they fall to its level and no lower,
/// and no child of it that begins with them is wanted.
#[inline(always)]
pub(crate) fn place_behind(seeker: &Seeker, counts: &TokenCounts) -> Option<Inside>
    ensures fits { IfSome result (λ place. place.count < 2 ^ 64) }
    ensures counts { IfSome result (λ place. CountsOn seeker.now counts.now place.count) }
    ensures skipped { IfSome result (λ place. place.skipped + counts.now.closing ≡ seeker.now.state.skipped + counts.now.opening) }
{
    let state = &seeker.state;
    if counts.lowest as usize != state.skipped {
        return None;
    }
    if state.name.is_some() {
        return None;
    }
    let top = innermost(&state.opened)?;
    if top.is_object {
        return None;
    }
    let count = top.count.checked_add(counts.lowest_values as usize)?;
    if count > seeker.next {
        return None;
    }
    let skipped = skipped_after(state.skipped, counts)?;
    Some(Inside { count, skipped })
}

/// Sets how many children the innermost open container has, if there is one.
#[inline(always)]
pub(crate) fn set_count(opened: &mut Vec<Cursor>, count: usize)
    ensures { reverse opened.new.items ≡ with_count count (reverse opened.old.items) }
{
    let depth = opened.len();
    if depth == 0 {
        return;
    }
    let top = &mut opened[depth - 1];
    top.count = count;
}
