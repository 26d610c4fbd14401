// Pointers that are made ready once, to be looked up in many texts.
ghost use Rattle.std.specs.Prelude.{IfOk};
ghost use Rattle.jx_find.specs.PointerTrie.{IsTrieOf};

use jx_index::{Edge, Pointer, Way, starts_of, trie_of, ways_of};
use std::alloc::{AllocError, Global};

/// Pointers, a trie of their tokens, and the way of each pointer in it.
#[derive(Drop)]
pub struct PointerTrie<'p> {
    pub pointers: Vec<Pointer<'p>>,
    pub edges: Vec<Edge<'p>>,
    /// Where the edges of each node begin.
    pub starts: Vec<usize>,
    pub ways: Vec<Way>,
}

impl<'p> PointerTrie<'p> {
    /// Makes pointers ready. Only want of memory is refused.
    pub fn of(alloc: Global, pointers: Vec<Pointer<'p>>) -> Result<PointerTrie<'p>, AllocError>
        ensures { IfOk result (IsTrieOf pointers.entry.items) }
    {
        let edges = trie_of(alloc, &pointers)?;
        let starts = starts_of(alloc, &edges)?;
        let ways = ways_of(alloc, &edges, &starts, &pointers)?;
        Ok(PointerTrie {
            pointers,
            edges,
            starts,
            ways,
        })
    }
}
