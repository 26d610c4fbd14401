// Which bytes of a text the value of a pointer may have, while the text is read. No clause says so: what is kept is looked
// at once more when the value is known.

use jx_find::Sought;
use jx_index::{Cursor, Edge, Met, Pointer, PointerFault, State, Way, starts_of, trie_of, ways_of};
use jx_lex::Span;
use std::alloc::{AllocError, Global};

/// Where the value of a pointer is met: the number of a node in the trie of all pointers, and the edge that leads to it.
#[derive(Clone, Copy, Debug)]
pub(crate) struct Spot {
    node: usize,
    /// The node that the edge leads from; of the root the greatest `usize`.
    parent: usize,
    /// The place that the last token names in an array, or the greatest `usize`.
    place: usize,
}

/// Where a way in a trie ends.
fn spot_of(edges: &[Edge], way: &Way) -> Spot {
    let node = match way.nodes.last() {
        Some(node) => *node,
        None => 0,
    };
    match edges.get(node.wrapping_sub(1)) {
        Some(edge) => Spot {
            node,
            parent: edge.parent,
            place: edge.place,
        },
        None => Spot {
            node,
            parent: usize::MAX,
            place: usize::MAX,
        },
    }
}

/// Where the values of pointers are met; none for a string that is not a pointer.
pub(crate) fn spots_of(
    alloc: Global,
    pointers: &[Pointer],
    unread: &[Option<PointerFault>],
) -> Result<Vec<Option<Spot>>, AllocError> {
    let edges = trie_of(alloc, pointers)?;
    let starts = starts_of(alloc, &edges)?;
    let ways = ways_of(alloc, &edges, &starts, pointers)?;
    let mut spots = Vec::with_capacity(alloc, ways.len())?;
    for place in 0..ways.len().min(unread.len()) {
        let spot = match unread[place] {
            None => Some(spot_of(&edges, &ways[place])),
            Some(_) => None,
        };
        spots.push(spot)?;
    }
    Ok(spots)
}

/// Whether the next value is met at a spot.
fn is_next(state: &State, spot: &Spot) -> bool {
    if state.skipped > 0 {
        return false;
    }
    match state.opened.last() {
        None => spot.node == 0,
        Some(top) if top.is_object => match state.name {
            Some(Some(node)) => node == spot.node,
            Some(None) | None => false,
        },
        Some(top) => top.level == spot.parent && top.count == spot.place,
    }
}

/// Whether the container to which a node's tokens lead is open.
fn is_open(opened: &[Cursor], node: usize) -> bool {
    opened.iter().any(|cursor| cursor.level == node)
}

/// The span of the value that is met at a spot, as far as it was fed, or of a token that has begun and is met there. It is
/// empty where there is none.
fn span_at(sought: &Sought, spot: &Spot, end: usize) -> Span {
    let nothing = Span { start: end, end };
    match sought.state.met.get(spot.node) {
        Some(Met::Once(found)) if is_open(&sought.state.opened, spot.node) => Span {
            start: found.span.start,
            end,
        },
        Some(Met::Once(found)) => found.span,
        Some(Met::Never) => match sought.begun {
            Some(mark) if is_next(&sought.state, spot) => Span {
                start: mark.at,
                end,
            },
            _ => nothing,
        },
        Some(Met::Again) | None => nothing,
    }
}

/// The bytes that are wanted of a text for the spot with a number, once it was fed up to an end.
pub(crate) fn wanted_at(
    sought: Option<&Sought>,
    spots: &[Option<Spot>],
    number: usize,
    end: usize,
) -> Span {
    let nothing = Span { start: end, end };
    let Some(sought) = sought else {
        return nothing;
    };
    match spots.get(number) {
        Some(Some(spot)) => span_at(sought, spot, end),
        Some(None) | None => nothing,
    }
}
