// The tokens of several pointers as a trie: tokens that begin several of them stand there once. Its root has the number 0.
ghost use Rattle.std.specs.Prelude.{◌≡◌, slice_get};
ghost use Rattle.std.specs.Ordering.{nat_cmp, is_lt};
ghost use Rattle.std.specs.Cmp.Lexicographic.{slice_cmp};
ghost use Rattle.jx_index.specs.declared.units.Spelling.TheVariants.{InToken};
ghost use Rattle.jx_index.specs.Units.{chars_units};
ghost use Rattle.jx_index.specs.inside.Trie.{edge_key, edge_units, leads_to_units, place_number, place_of, sought_key};

use crate::array_token::{Place, place_of_token};
use crate::names::{compare_spelt, first_plain};
use crate::units::{Spelling, Units};
use std::cmp::Ordering;

/// A token that leads from one node to another: the edge with the number `i` leads to the node `i + 1`.
#[derive(Clone, Copy, Debug)]
pub struct Edge<'p> {
    /// The node that it leads from.
    pub parent: usize,
    /// The place that the token names in an array, or the greatest `usize`.
    pub place: usize,
    /// The token as it is written.
    pub name: &'p [u8],
}

/// The place that a token names, or the greatest `usize`.
fn number_of(place: Place) -> usize
    ensures { result ≡ place_number place }
{
    match place {
        Place::Element(at) => at,
        Place::PastEnd | Place::AfterLast | Place::NotAnIndex => usize::MAX,
    }
}

/// The place that some units name, or the greatest `usize`. The first byte mostly decides.
pub(crate) fn place_of(bytes: &[u8], spelling: Spelling) -> usize
    ensures { result ≡ place_of (chars_units spelling 0 bytes.now) }
{
    match first_plain(bytes, spelling) {
        Some(first) if first > b'9' => usize::MAX,
        _ => number_of(place_of_token(Units::new(bytes, spelling), usize::MAX)),
    }
}

/// The edge of a token from a node.
pub(crate) fn edge_of(parent: usize, name: &[u8]) -> Edge
    ensures parent { result.parent ≡ parent }
    ensures place { result.place ≡ place_of (edge_units result) }
    ensures units { edge_units result ≡ chars_units InToken 0 name.now }
{
    Edge {
        parent,
        place: place_of(name, Spelling::InToken),
        name,
    }
}

/// Edges by their parents, then by the places that they name, then by their tokens.
pub(crate) fn compare_edges(one: &Edge, other: &Edge) -> Ordering
    ensures { result ≡ slice_cmp nat_cmp (edge_key one.now) (edge_key other.now) }
{
    match one.parent.cmp(&other.parent) {
        Ordering::Less => Ordering::Less,
        Ordering::Greater => Ordering::Greater,
        Ordering::Equal => match one.place.cmp(&other.place) {
            Ordering::Less => Ordering::Less,
            Ordering::Greater => Ordering::Greater,
            Ordering::Equal => compare_spelt(one.name, Spelling::InToken, other.name),
        },
    }
}

/// The key of an edge: the node that it leads from, a place, or the greatest `usize`, and the token as it is written.
#[derive(Clone, Copy, Debug)]
pub struct Key<'k> {
    pub node: usize,
    pub place: usize,
    pub bytes: &'k [u8],
    pub spelling: Spelling,
}

/// Whether an edge is before a key. No bytes are before all tokens.
pub(crate) fn is_before_key(edge: &Edge, key: &Key) -> bool
    ensures { result ≡ is_lt (slice_cmp nat_cmp (edge_key edge.now) (sought_key key.now)) }
{
    if edge.parent != key.node {
        return edge.parent < key.node;
    }
    if edge.place != key.place {
        return edge.place < key.place;
    }
    if key.bytes.is_empty() {
        return false;
    }
    compare_spelt(key.bytes, key.spelling, edge.name).is_gt()
}

/// Whether an edge leads on from a node by a token or a name, as it is written.
#[inline(always)]
pub(crate) fn leads_by(edge: &Edge, node: usize, bytes: &[u8], spelling: Spelling) -> bool
    ensures { result ≡ leads_to_units node (chars_units spelling 0 bytes.now) edge.now }
{
    edge.parent == node && compare_spelt(bytes, spelling, edge.name).is_eq()
}

/// Whether an edge leads on from a key's node by its token.
pub(crate) fn leads_on(edge: &Edge, key: &Key) -> bool
    ensures { result ≡ leads_to_units key.now.node (chars_units key.now.spelling 0 key.now.bytes.now) edge.now }
{
    leads_by(edge, key.node, key.bytes, key.spelling)
}

/// The edge with a number.
pub(crate) fn edge_at<'p>(edges: &[Edge<'p>], at: usize) -> Option<Edge<'p>>
    ensures { result ≡ slice_get edges.now at }
{
    match edges.get(at) {
        Some(edge) => Some(*edge),
        None => None,
    }
}
