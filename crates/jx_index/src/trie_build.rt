// The trie of the tokens of pointers, made level by level.
ghost use Rattle.std.specs.Prelude.{◌≡◌, ◌+◌, ◌-◌, ◌<◌, ◌≤◌, [], ℕ, All, List, length, slice_get, IfOk};
ghost use Rattle.std.specs.List.Sorted.{IsPermutation, IsSortedBy};
ghost use Rattle.jx_index.specs.Pointers.{HasSlash};
ghost use Rattle.jx_index.specs.declared.trie_build.Part.{Part};
ghost use Rattle.jx_index.specs.inside.Growing.{added, is_same, part_before, total, IsLevel, IsPartFrom};
ghost use Rattle.jx_index.specs.inside.Trie.{HasWay, IsTrie};

use crate::find::token_len;
use crate::names::keep;
use crate::pointer::Pointer;
use crate::trie::{Edge, compare_edges, edge_of};
use crate::units::skip;
use std::alloc::{AllocError, Global};

/// A pointer of which some tokens are in the trie: the edge of the next one, and what follows that.
#[derive(Clone, Copy, Debug)]
pub struct Part<'p> {
    pub edge: Edge<'p>,
    pub rest: &'p [u8],
}

/// The rest of a pointer from a node on.
fn part_of<'p>(node: usize, rest: &'p [u8]) -> Part<'p>
    requires some { 0 < length rest.now }
    requires slash { HasSlash rest.now }
    ensures { IsPartFrom node rest.now result }
{
    let bytes = skip(rest, 1);
    let len = token_len(bytes);
    Part {
        edge: edge_of(node, keep(bytes, len)),
        rest: skip(bytes, len),
    }
}

/// The rests of pointers from the root on, but for those that lead to it.
fn parts_of<'p>(alloc: Global, pointers: &[Pointer<'p>]) -> Result<Vec<Part<'p>>, AllocError>
    ensures { IfOk result (λ parts. IsLevel pointers.now [] parts.items) }
{
    let mut parts = Vec::with_capacity(alloc, pointers.len())?;
    for pointer in pointers {
        let bytes = pointer.bytes();
        if !bytes.is_empty() {
            parts.push(part_of(0, bytes))?;
        }
    }
    Ok(parts)
}

/// Whether the last edge is this one.
fn is_last(edges: &[Edge], edge: &Edge) -> bool
    ensures { result ≡ is_same (slice_get edges.now (length edges.now - 1)) edge.now }
{
    match edges.last() {
        Some(last) => compare_edges(last, edge).is_eq(),
        None => false,
    }
}

/// Adds an edge, if it is not the last one.
fn add_edge<'p>(edges: &mut Vec<Edge<'p>>, edge: Edge<'p>) -> Result<(), AllocError>
    ensures { IfOk result (λ _. edges.new.items ≡ added edges.old.items edge.entry) }
{
    if !is_last(edges, &edge) {
        edges.push(edge)?;
    }
    Ok(())
}

/// The node to which the last edge leads.
fn last_node(edges: &[Edge]) -> usize
    ensures { result ≡ length edges.now }
{
    edges.len()
}

/// Adds the edges of parts that rise, each once. Returns what is left of those that go on.
fn add_level<'p>(
    alloc: Global,
    edges: &mut Vec<Edge<'p>>,
    parts: &[Part<'p>],
) -> Result<Vec<Part<'p>>, AllocError>
    requires rising { IsSortedBy part_before parts.now }
    requires slashes { All (λ (p : Part). HasSlash p.rest.now) parts.now }
    ensures level { IfOk result (λ later. (pointers : List (List ℕ)) → IsLevel pointers edges.old.items parts.now → IsLevel pointers edges.new.items later.items) }
    ensures fewer { IfOk result (λ later. total later.items + length parts.now ≤ total parts.now) }
{
    let mut later = Vec::new(alloc);
    for part in parts {
        add_edge(edges, part.edge)?;
        if !part.rest.is_empty() {
            later.push(part_of(last_node(edges), part.rest))?;
        }
    }
    Ok(later)
}

/// Sorts parts by their edges. Those of equal edges stand in any order, so no memory is needed.
fn sort_parts(parts: &mut Vec<Part>)
    ensures rising { IsSortedBy part_before parts.new.items }
    ensures each_once { IsPermutation parts.old.items parts.new.items }
{
    parts.sort_unstable_by(|one, other| compare_edges(&one.edge, &other.edge));
}

/// The trie of the pointers' tokens. Each level costs no more than to sort what is left of the pointers.
pub fn trie_of<'p>(alloc: Global, pointers: &[Pointer<'p>]) -> Result<Vec<Edge<'p>>, AllocError>
    ensures trie { IfOk result (λ edges. IsTrie edges.items) }
    ensures ways { IfOk result (λ edges. All (λ (pointer : List ℕ). HasWay edges.items pointer) pointers.now) }
{
    let mut edges = Vec::new(alloc);
    let mut parts = parts_of(alloc, pointers)?;
    while !parts.is_empty() {
        sort_parts(&mut parts);
        let later = add_level(alloc, &mut edges, &parts)?;
        parts = later;
    }
    Ok(edges)
}
