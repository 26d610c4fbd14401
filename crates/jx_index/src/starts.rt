// Where the edges of each node of a trie begin. Who takes such a place tests it.
ghost use Rattle.std.specs.Prelude.{◌≡◌, ◌<◌, ◌≤◌, ℕ, length, slice_get, Some, IfOk};
ghost use Rattle.jx_index.specs.declared.trie.Edge.{Edge};
ghost use Rattle.jx_index.specs.inside.Trie.{is_placed};

use crate::trie::{Edge, Key, is_before_key};
use jx_lex::Span;
use std::alloc::{AllocError, Global};

/// Lets each node up to this one that has no start yet begin at an edge.
fn fill(starts: &mut Vec<usize>, node: usize, at: usize) -> Result<(), AllocError>
    ensures far { IfOk result (λ _. node < length starts.new.items) }
    ensures no_shorter { IfOk result (λ _. length starts.old.items ≤ length starts.new.items) }
{
    while starts.len() <= node {
        starts.push(at)?;
    }
    Ok(())
}

/// The number of the first edge that leads from a node or a later one, for each node from which edges lead and each before it.
pub fn starts_of(alloc: Global, edges: &[Edge]) -> Result<Vec<usize>, AllocError>
    ensures { IfOk result (λ starts. (at : ℕ) (e : Edge) → slice_get edges.now at ≡ Some e → e.parent < length starts.items) }
{
    let mut starts = Vec::with_capacity(alloc, edges.len())?;
    for at in 0..edges.len() {
        fill(&mut starts, edges[at].parent, at)?;
    }
    Ok(starts)
}

/// Where the edges of a node begin, or how many edges there are.
fn start_of(edges: &[Edge], starts: &[usize], node: usize) -> usize
    ensures { result ≤ length edges.now }
{
    match starts.get(node) {
        Some(start) => (*start).min(edges.len()),
        None => edges.len(),
    }
}

/// Whether there is an edge with this number that names a place.
fn is_placed(edges: &[Edge], at: usize, place: usize) -> bool
    ensures { result ≡ is_placed (slice_get edges.now at) place }
{
    match edges.get(at) {
        Some(edge) => edge.place == place,
        None => false,
    }
}

/// Where the edges that lead from a node may be.
#[inline(always)]
pub(crate) fn edges_of(edges: &[Edge], starts: &[usize], node: usize) -> Span
    ensures ordered { result.start ≤ result.end }
    ensures within { result.end ≤ length edges.now }
{
    let end = start_of(edges, starts, node.saturating_add(1));
    let start = start_of(edges, starts, node).min(end);
    Span { start, end }
}

/// Where the first edge that is not before a key may be. In front of a place's edge stand those of no other places than
/// the earlier ones, so where all of these have edges its own stands as far after the first. Else the node's are
/// halved.
pub(crate) fn near(edges: &[Edge], starts: &[usize], key: &Key) -> usize
    ensures { result ≤ length edges.now }
{
    let Span { start, end } = edges_of(edges, starts, key.node);
    let dense = start.saturating_add(key.place).min(end);
    if dense < end && is_placed(edges, dense, key.place) {
        return dense;
    }
    start + edges[start..end].partition_point(|edge| is_before_key(edge, key))
}
