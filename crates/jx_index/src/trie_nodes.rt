// The nodes of a trie: where tokens lead, and what was met there.
ghost use Rattle.std.specs.Prelude.{◌≡◌, ◌∷◌, ◌≤◌, [], length, slice_get, IfOk, IsTrue, Some};
ghost use Rattle.jx_index.specs.Units.{chars_units};
ghost use Rattle.jx_index.specs.inside.FewEdges.{is_led, BeginsAt, EndsAt};
ghost use Rattle.jx_index.specs.inside.Finding.{met_at};
ghost use Rattle.jx_index.specs.inside.PointerWays.{IsWayOf};
ghost use Rattle.jx_index.specs.inside.Trie.{child_at, follows, member_at, sought_key, stands_before, IsFirstFrom, IsTrie};

use crate::find::token_len;
use crate::finder::Met;
use crate::names::{keep, string_bytes};
use crate::pointer::Pointer;
use crate::starts::{edges_of, near};
use crate::trie::{Edge, Key, edge_at, is_before_key, leads_by, leads_on, place_of};
use crate::units::{Spelling, skip};
use jx_lex::Span;
use std::alloc::{AllocError, Global};

/// Whether there is an edge with this number, and it is before a key.
fn stands_before(edges: &[Edge], at: usize, key: &Key) -> bool
    ensures { result ≡ stands_before (slice_get edges.now at) (sought_key key.now) }
{
    match edges.get(at) {
        Some(edge) => is_before_key(edge, key),
        None => false,
    }
}

/// Whether all edges before this number are before a key, as far as the last of them shows.
fn follows(edges: &[Edge], at: usize, key: &Key) -> bool
    ensures { result ≡ follows edges.now at (sought_key key.now) }
{
    if at == 0 {
        return true;
    }
    stands_before(edges, at - 1, key)
}

/// Whether the edge with this number is the first that is not before a key, as its neighbour and itself show.
fn is_first(edges: &[Edge], at: usize, key: &Key) -> bool
    ensures within { IsTrue result → at ≤ length edges.now }
    ensures first { IsTrue result → IsTrie edges.now → IsFirstFrom edges.now (sought_key key.now) at }
{
    follows(edges, at, key) && !stands_before(edges, at, key)
}

/// The number of the first edge that is not before a key, or of what stands there in its stead. It is mostly that which
/// the starts lead to; where they are wrong all edges are halved.
fn first_from(edges: &[Edge], starts: &[usize], key: &Key) -> usize
    ensures within { result ≤ length edges.now }
    ensures first { IsTrie edges.now → IsFirstFrom edges.now (sought_key key.now) result }
{
    let near = near(edges, starts, key);
    if is_first(edges, near, key) {
        return near;
    }
    edges.partition_point(|edge| is_before_key(edge, key))
}

/// The node to which some units lead from another, where its edges are halved.
fn child_by_order(
    edges: &[Edge],
    starts: &[usize],
    node: usize,
    bytes: &[u8],
    spelling: Spelling,
) -> Option<usize>
    ensures { IsTrie edges.now → result ≡ child_at edges.now node (chars_units spelling 0 bytes.now) }
{
    let place = place_of(bytes, spelling);
    let key = Key {
        node,
        place,
        bytes,
        spelling,
    };
    let at = first_from(edges, starts, &key);
    match edge_at(edges, at) {
        Some(edge) if leads_on(&edge, &key) => Some(at + 1),
        _ => None,
    }
}

/// Whether no edge in front of this number leads from a node, as its neighbour shows.
#[inline(always)]
fn begins_at(edges: &[Edge], node: usize, at: usize) -> bool
    ensures { IsTrue result → IsTrie edges.now → BeginsAt edges.now node at }
{
    if at == 0 {
        return true;
    }
    match edge_at(edges, at - 1) {
        Some(edge) => edge.parent < node,
        None => false,
    }
}

/// Whether no edge from this number on leads from a node, as the first of them shows.
#[inline(always)]
fn ends_at(edges: &[Edge], node: usize, at: usize) -> bool
    ensures { IsTrue result → IsTrie edges.now → EndsAt edges.now node at }
{
    match edge_at(edges, at) {
        Some(edge) => node < edge.parent,
        None => true,
    }
}

/// Whether there is an edge with this number, and it leads on from a node.
#[inline(always)]
fn is_led(edges: &[Edge], at: usize, node: usize, bytes: &[u8], spelling: Spelling) -> bool
    ensures { result ≡ is_led (slice_get edges.now at) node (chars_units spelling 0 bytes.now) }
{
    match edges.get(at) {
        Some(edge) => leads_by(edge, node, bytes, spelling),
        None => false,
    }
}

/// The node to which some units lead from another whose edges all stand in a range: each of these is tried.
#[inline(always)]
fn child_among(
    edges: &[Edge],
    range: Span,
    node: usize,
    bytes: &[u8],
    spelling: Spelling,
) -> Option<usize>
    ensures { BeginsAt edges.now node range.start → EndsAt edges.now node range.end → result ≡ child_at edges.now node (chars_units spelling 0 bytes.now) }
{
    for at in range.start..range.end {
        if is_led(edges, at, node, bytes, spelling) {
            return Some(at + 1);
        }
    }
    None
}

/// How many edges of a node are tried one after another.
const FEW: usize = 8;

/// The node to which some units lead from another, in a trie of many edges.
#[inline(never)]
fn child_of_many(
    edges: &[Edge],
    starts: &[usize],
    node: usize,
    bytes: &[u8],
    spelling: Spelling,
) -> Option<usize>
    ensures { IsTrie edges.now → result ≡ child_at edges.now node (chars_units spelling 0 bytes.now) }
{
    let range = edges_of(edges, starts, node);
    let is_few = range.end - range.start <= FEW;
    if is_few && begins_at(edges, node, range.start) && ends_at(edges, node, range.end) {
        return child_among(edges, range, node, bytes, spelling);
    }
    child_by_order(edges, starts, node, bytes, spelling)
}

/// The node to which some units lead from another. Few edges are all tried, whatever node they lead from.
#[inline(always)]
pub(crate) fn child(
    edges: &[Edge],
    starts: &[usize],
    node: usize,
    bytes: &[u8],
    spelling: Spelling,
) -> Option<usize>
    ensures { IsTrie edges.now → result ≡ child_at edges.now node (chars_units spelling 0 bytes.now) }
{
    if edges.len() <= FEW {
        let all = Span {
            start: 0,
            end: edges.len(),
        };
        return child_among(edges, all, node, bytes, spelling);
    }
    child_of_many(edges, starts, node, bytes, spelling)
}

/// The node of the member of a node's object that has a name.
#[inline(always)]
pub(crate) fn member(
    text: &[u8],
    edges: &[Edge],
    starts: &[usize],
    node: usize,
    name: Span,
) -> Option<usize>
    ensures { IsTrie edges.now → result ≡ member_at text.now edges.now node (Some name) }
{
    let bytes = string_bytes(text, name);
    child(edges, starts, node, bytes, Spelling::InText)
}

/// The number of the first edge from a node that names this place or a later one, or of what stands there in its stead.
#[tactic(auto, unfolding(crate::specs::Units::chars_units))]
pub(crate) fn first_of_place(edges: &[Edge], starts: &[usize], node: usize, place: usize) -> usize
    ensures within { result ≤ length edges.now }
    ensures first { IsTrie edges.now → IsFirstFrom edges.now (node ∷ place ∷ []) result }
{
    let key = Key {
        node,
        place,
        bytes: &[],
        spelling: Spelling::InToken,
    };
    first_from(edges, starts, &key)
}

/// The values met at a node.
pub(crate) fn met_at(met: &[Met], node: usize) -> Met
    ensures { result ≡ met_at met.now node }
{
    match met.get(node) {
        Some(met) => *met,
        None => Met::Again,
    }
}

/// The nodes to which a pointer's tokens lead, the root first.
pub(crate) fn way_of(
    alloc: Global,
    edges: &[Edge],
    starts: &[usize],
    pointer: &Pointer,
) -> Result<Vec<usize>, AllocError>
    ensures { IfOk result (λ way. IsWayOf edges.now pointer.now way.items) }
{
    let mut way = Vec::new(alloc);
    let mut node = 0;
    let mut rest = pointer.bytes();
    while !rest.is_empty() {
        way.push(node)?;
        let bytes = skip(rest, 1);
        let len = token_len(bytes);
        match child(edges, starts, node, keep(bytes, len), Spelling::InToken) {
            Some(next) => node = next,
            None => return Ok(way),
        }
        rest = skip(bytes, len);
    }
    way.push(node)?;
    Ok(way)
}
