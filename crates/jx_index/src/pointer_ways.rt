// Where pointers lead in a trie, found once for many texts.
ghost use Rattle.std.specs.Prelude.{map, IfOk};
ghost use Rattle.std.specs.List.{AllZip};
ghost use Rattle.jx_index.specs.inside.PointerWays.{IsWayOf, nodes_of};

use crate::pointer::Pointer;
use crate::trie::Edge;
use crate::trie_nodes::way_of;
use std::alloc::{AllocError, Global};

/// The nodes to which the tokens of a pointer lead, the root first.
#[derive(Debug, Drop)]
pub struct Way {
    pub nodes: Vec<usize>,
}

/// The way of each pointer in a trie that has it, in order.
pub fn ways_of(
    alloc: Global,
    edges: &[Edge],
    starts: &[usize],
    pointers: &[Pointer],
) -> Result<Vec<Way>, AllocError>
    ensures { IfOk result (λ ways. AllZip (IsWayOf edges.now) pointers.now (map nodes_of ways.items)) }
{
    let mut ways = Vec::with_capacity(alloc, pointers.len())?;
    for pointer in pointers {
        let nodes = way_of(alloc, edges, starts, pointer)?;
        ways.push(Way { nodes })?;
    }
    Ok(ways)
}
