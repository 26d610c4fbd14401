// The walk over the children of a node.
ghost use Rattle.std.specs.Prelude.{◌≡◌};
ghost use Rattle.jx_index.specs.Walk.{IsForward, IsBounded, walk_children};

use crate::row::NodeId;
use std::marker::Model;

/// The children of a node, in order. Each step is one look at a list, whatever stands in the child.
#[derive(Debug, Drop)]
pub struct Children<'i> {
    after: &'i [usize],
    next: usize,
    end: usize,
}

impl<'i> Model for Children<'i> {
    ghost use Rattle.std.specs.Prelude.{ℕ, List, ◌≤◌, length};
    ghost use Rattle.jx_index.specs.Walk.{IsForward, walk_to};

    ghost Value = { List ℕ };

    ghost view = { λ c. walk_to c.after.now c.next c.end };

    ghost invariant = { λ c. IsForward c.after.now × (c.end ≤ length c.after.now) };
}

impl<'i> Iterator for Children<'i> {
    ghost use Rattle.std.specs.Iterator.{YieldsFirst, item_count};

    type Item = NodeId;

    ghost next_gives = { YieldsFirst (λ left. left) };

    ghost remaining = { item_count (λ left. left) };

    fn next(&mut self) -> Option<NodeId> {
        if self.next >= self.end {
            return None;
        }
        let node = self.next;
        self.next = self.after[node];
        Some(NodeId::new(node))
    }
}

/// The children of a node, where `after` has for each row the number of the row after all that stands in it.
pub(crate) fn children_in<'i>(after: &'i [usize], node: NodeId) -> Children<'i>
    requires forward { IsForward after.now }
    requires bounded { IsBounded after.now }
    ensures { result ≡ walk_children after.now node }
{
    let number = node.number();
    match after.get(number) {
        Some(end) => Children {
            after,
            next: number + 1,
            end: *end,
        },
        None => Children {
            after,
            next: 0,
            end: 0,
        },
    }
}
