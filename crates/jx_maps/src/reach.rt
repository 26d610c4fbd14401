// Which segments of a map the tracks that come from the left reach.
ghost use Rattle.std.specs.Prelude.{◌≡◌, ◌≤◌, true, length, IfOk, OnOk, OnErr, ◌++◌, ◌+◌, ◌<◌, ◌^◌};
ghost use Rattle.jx_lex.specs.declared.alphabet.state.LexState.{LexState};
ghost use Rattle.jx_maps.specs.inside.Bundle.{AllLive, LiveAt, is_live};
ghost use Rattle.jx_maps.specs.inside.Closed.{ClosedTo};
ghost use Rattle.jx_maps.specs.Follow.{AreIn, IsIn, head, linked_segments};
ghost use Rattle.jx_maps.specs.inside.Pruned.{IsReached, pruned, with_exit_of};

use crate::bundle::is_live;
use crate::link::Link;
use crate::segment::{Segment, link_segments};
use jx_lex::LexState;
use std::alloc::{AllocError, Global};

/// Notes the state of this link, where it is an exit in a state.
fn note(live: &mut [bool; 32], link: Link)
    ensures { live.new ≡ with_exit_of link live.old }
{
    if let Link::State(state) = link {
        live[state.number()] = true;
    }
}

/// The states in which these segments end. The first `closed` end in none.
fn ends_of(segments: &[Segment], closed: usize) -> [bool; 32]
    requires within { closed ≤ length segments.now }
    requires all_closed { ClosedTo closed segments.now }
    ensures { AllLive result segments.now }
{
    let mut live = [false; 32];
    for i in closed..segments.len() {
        note(&mut live, segments[i].next());
    }
    live
}

/// The states in which the tracks of a map may end. The first `closed` segments lead to none.
pub(crate) fn exits(heads: &[Link; 32], segments: &[Segment], closed: usize) -> [bool; 32]
    requires within { closed ≤ length segments.now }
    requires all_closed { ClosedTo closed segments.now }
    ensures heads { (s : LexState) → LiveAt result (head heads.now s) }
    ensures segments { AllLive result segments.now }
{
    let mut live = ends_of(segments, closed);
    for state in LexState::all() {
        note(&mut live, heads[state.number()]);
    }
    live
}

/// Which of so many segments the heads of the live states lead to.
pub(crate) fn reached_from(
    alloc: Global,
    heads: &[Link; 32],
    live: &[bool; 32],
    count: usize,
) -> Result<Vec<bool>, AllocError>
    requires { (s : LexState) → IsIn count (head heads.now s) }
    ensures many { IfOk result (λ r. length r.items ≡ count) }
    ensures heads { IfOk result (λ r. (s : LexState) → is_live live.now s ≡ true → IsReached r.items (head heads.now s)) }
{
    let mut reached = vec![in alloc; false; count]?;
    for state in LexState::all() {
        if is_live(live, state) {
            if let Link::Ahead(skip) = heads[state.number()] {
                reached[skip] = true;
            }
        }
    }
    Ok(reached)
}

/// Empties the segments that are not reached.
fn prune(segments: &mut [Segment], reached: &mut [bool])
    requires many { length reached.old ≡ length segments.old }
    requires inside { AreIn segments.old }
    ensures { segments.new ≡ pruned reached.old segments.old }
{
    for i in 0..segments.len() {
        if !reached[i] {
            segments[i].empty();
        } else if let Link::Ahead(skip) = segments[i].next() {
            reached[i + 1 + skip] = true;
        }
    }
}

/// Moves the right's segments after the left's, and links each open exit of the left to the right map's head for that
/// state. Segments of the right that nothing reaches are emptied.
pub(crate) fn append_reached(
    left: &mut Vec<Segment>,
    right: &mut Vec<Segment>,
    heads: &[Link; 32],
    closed: usize,
    reached: Vec<bool>,
) -> Result<(), AllocError>
    requires many { length reached.items ≡ length right.old.items }
    requires segments { AreIn right.old.items }
    requires inside { (s : LexState) → IsIn (length right.old.items) (head heads.now s) }
    requires within { closed ≤ length left.old.items }
    requires all_closed { ClosedTo closed left.old.items }
    ensures ok { OnOk result (left.new.items ≡ linked_segments heads.now left.old.items ++ pruned reached.items right.old.items) }
    ensures err { OnErr result ((left.new.items ≡ left.old.items) × (right.new.items ≡ right.old.items)) }
    ensures fits { OnOk result (length left.old.items + length right.old.items < 2 ^ 64) }
{
    let mut reached = reached;
    let count = right.len();
    left.reserve(count)?;
    prune(right, &mut reached);
    link_segments(left, heads, closed, count);
    left.append(right)
}
