// The state after a chunk that need not be read.
ghost use Rattle.std.specs.Prelude.{◌≡◌, ◌<◌, ◌≤◌, None, reverse, is_some, true, false, IfSome};
ghost use Rattle.jx_reduce.specs.declared.table.expect.Expect.TheVariants.{After};
ghost use Rattle.jx_lex.specs.declared.alphabet.mark.MarkKind.{MarkKind};
ghost use Rattle.jx_lex.specs.TokenStates.{in_token};
ghost use Rattle.jx_index.specs.inside.Found.{finding};
ghost use Rattle.jx_index.specs.inside.Trie.{first_open, is_name_next, place_from, IsNextFrom};
ghost use Rattle.jx_file_query.specs.Passed.{waiting};
ghost use Rattle.jx_file_query.specs.Passing.{InArray, slot};
ghost use Rattle.jx_file_query.specs.inside.Over.{IsOver, KeepsTurn, finding_over, recounted};

use crate::laws::skipped_parts;
use jx_file_index::Entry;
use jx_find::Sought;
use jx_index::{Cursor, Edge, State};
use jx_lex::{LexState, Mark, MarkKind};
use jx_reduce::Expect;

/// The change of the state where a chunk is skipped.
#[derive(Clone, Copy)]
pub(crate) struct Over {
    /// How many elements of the innermost open array were counted, where that changes.
    pub count: Option<usize>,
    /// The least place in it that a pointer may want.
    pub next: usize,
    /// How many containers are open that no pointer wants.
    pub skipped: usize,
    /// A token that has begun and not ended, or one that stands for it.
    pub begun: Option<Mark>,
}

/// Whether a state is one of a token.
pub(crate) fn is_in_token(state: LexState) -> bool
    ensures { result ≡ in_token state }
{
    !matches!(state, LexState::Gap)
}

/// A token that stands for any other, where one has begun.
pub(crate) fn waiting(begun: bool) -> Option<Mark>
    ensures { result ≡ waiting begun }
{
    if begun {
        Some(Mark {
            kind: MarkKind::String,
            at: 0,
        })
    } else {
        None
    }
}

/// The innermost open container.
pub(crate) fn innermost(opened: &[Cursor]) -> Option<Cursor>
    ensures { result ≡ first_open (reverse opened.now) }
{
    match opened.last() {
        Some(top) => Some(*top),
        None => None,
    }
}

/// Whether a member's name may come next, or have begun.
fn may_name(state: &State) -> bool
    ensures { result ≡ false → (kind : MarkKind) → is_name_next kind (finding state.now) ≡ false }
{
    if state.skipped > 0 {
        return false;
    }
    if state.name.is_some() {
        return false;
    }
    match innermost(&state.opened) {
        Some(top) => top.is_object,
        None => false,
    }
}

/// Where no token start begins and no end shows.
fn pass_nothing(held: &Sought, edges: &[Edge], here: &Entry, behind: &Entry) -> Option<Over>
    ensures over { IfSome result (IsOver held.now edges.now here.now behind.now) }
    ensures turn { IfSome result (KeepsTurn held.now here.now behind.now) }
{
    if here.begins || here.ends || may_name(&held.state) {
        return None;
    }
    Some(Over {
        count: None,
        next: held.next,
        skipped: held.state.skipped,
        begun: held.begun,
    })
}

/// Whether a token is kept exactly where one has begun.
pub(crate) fn agrees(held: &Sought, here: &Entry) -> bool
    ensures same { result ≡ true → in_token here.now.state ≡ is_some held.now.begun }
    ensures other { result ≡ false → in_token here.now.state ≡ is_some held.now.begun → ⊥ }
{
    is_in_token(here.state) == held.begun.is_some()
}

/// Where fewer containers are closed than are skipped.
fn pass_inside(held: &Sought, edges: &[Edge], here: &Entry, behind: &Entry) -> Option<Over>
    ensures over { IfSome result (IsOver held.now edges.now here.now behind.now) }
    ensures turn { IfSome result (KeepsTurn held.now here.now behind.now) }
{
    skipped_parts();
    let closed = here.sum.closed as usize;
    if closed >= held.state.skipped || !agrees(held, here) {
        return None;
    }
    let skipped = held.state.skipped.checked_add(here.sum.opened as usize)?;
    Some(Over {
        count: None,
        next: held.next,
        skipped: skipped - closed,
        begun: waiting(is_in_token(behind.state)),
    })
}

/// How many elements may begin where this may stand next, in an array in which so many containers are open that are skipped;
/// one that has begun is not counted yet.
fn slot(skipped: usize, begun: bool, expect: Expect) -> usize
    ensures { result ≡ slot skipped begun expect }
{
    if skipped > 0 {
        return 0;
    }
    if begun {
        return 1;
    }
    match expect {
        Expect::Value | Expect::ArrayFirst => 1,
        _ => 0,
    }
}

/// The place that an edge names, where it is one from this node, or the greatest `usize`.
fn place_from(edges: &[Edge], at: usize, node: usize) -> usize
    ensures { result ≡ place_from edges.now at node }
{
    match edges.get(at) {
        Some(edge) if edge.parent == node => edge.place,
        _ => usize::MAX,
    }
}

/// The lesser of two places, where the first counts only below a count.
fn nearer(place: usize, count: usize, next: usize) -> usize
    ensures low { place < result → place < count }
    ensures most { result ≤ next }
{
    if place >= count && place < next {
        place
    } else {
        next
    }
}

/// The least place from a count on that an edge from a node names, if none is known to be below a greater one.
fn next_place(edges: &[Edge], node: usize, count: usize, known: usize) -> usize
    ensures { IsNextFrom edges.now node count known → IsNextFrom edges.now node count result }
{
    if known > count {
        return known;
    }
    let mut next = usize::MAX;
    'edges: for at in 0..edges.len() {
        next = nearer(place_from(edges, at, node), count, next);
    }
    next
}

/// Whether an entry is that of a part of an array's elements, where nothing is skipped.
fn is_among_elements(here: &Entry) -> bool
    ensures { result ≡ true → InArray here.now.expect × (in_token here.now.state ≡ true → here.now.expect ≡ After) }
{
    match here.expect {
        Expect::After => true,
        Expect::Value | Expect::ArrayFirst => !is_in_token(here.state),
        _ => false,
    }
}

/// Whether an entry is so, or something is skipped.
fn may_stand(skipped: usize, here: &Entry) -> bool
    ensures { result ≡ true → skipped ≡ 0 → InArray here.now.expect × (in_token here.now.state ≡ true → here.now.expect ≡ After) }
{
    if skipped > 0 {
        return true;
    }
    is_among_elements(here)
}

/// Whether no name waits for its value.
fn is_unnamed(state: &State) -> bool
    ensures { result ≡ true → state.now.name ≡ None }
{
    state.name.is_none()
}

/// Where as many containers are closed as are skipped, and no element of the innermost open array that begins is wanted.
fn pass_elements(held: &Sought, edges: &[Edge], here: &Entry, behind: &Entry) -> Option<Over>
    ensures over { IfSome result (IsOver held.now edges.now here.now behind.now) }
    ensures turn { IfSome result (KeepsTurn held.now here.now behind.now) }
{
    skipped_parts();
    let top = innermost(&held.state.opened)?;
    let skipped = held.state.skipped;
    if top.is_object || !is_unnamed(&held.state) || here.sum.closed as usize != skipped {
        return None;
    }
    if !agrees(held, here) || !may_stand(skipped, here) {
        return None;
    }
    let begun = is_in_token(here.state);
    let before = slot(skipped, begun, here.expect);
    let counted = top.count.checked_add(here.sum.commas as usize)?;
    let end = counted.checked_add(before)?;
    let next = next_place(edges, top.level, top.count, held.next);
    if end > next || end >= usize::MAX {
        return None;
    }
    let opened = here.sum.opened as usize;
    let waits = is_in_token(behind.state);
    let after = slot(opened, waits, behind.expect);
    let count = end.checked_sub(after)?;
    if count < top.count {
        return None;
    }
    let token = waiting(waits);
    Some(Over {
        count: Some(count),
        next,
        skipped: opened,
        begun: token,
    })
}

/// The change of the state where a chunk of an accepted text is skipped, if it can be, by its entry and that of the one
/// after it.
pub(crate) fn pass(held: &Sought, edges: &[Edge], here: &Entry, behind: &Entry) -> Option<Over>
    ensures over { IfSome result (IsOver held.now edges.now here.now behind.now) }
    ensures turn { IfSome result (KeepsTurn held.now here.now behind.now) }
{
    if let Some(over) = pass_nothing(held, edges, here, behind) {
        return Some(over);
    }
    if let Some(over) = pass_inside(held, edges, here, behind) {
        return Some(over);
    }
    pass_elements(held, edges, here, behind)
}

/// Counts so many children of the innermost open container.
fn recount(opened: &mut Vec<Cursor>, count: Option<usize>)
    ensures { reverse opened.new.items ≡ recounted count (reverse opened.old.items) }
{
    let depth = opened.len();
    if let Some(count) = count {
        if depth > 0 {
            let top = &mut opened[depth - 1];
            top.count = count;
        }
    }
}

impl Over {
    /// The state after the chunk.
    pub(crate) fn of(self, held: Sought) -> Sought
        ensures finding { finding result.state ≡ finding_over self (finding held.state) }
        ensures next { result.next ≡ self.next }
        ensures begun { result.begun ≡ self.begun }
    {
        let Sought {
            mut state,
            name,
            ..
        } = held;
        recount(&mut state.opened, self.count);
        state.skipped = self.skipped;
        Sought {
            state,
            next: self.next,
            begun: self.begun,
            name,
        }
    }
}
