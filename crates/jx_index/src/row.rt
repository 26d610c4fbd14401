ghost use Rattle.std.specs.Prelude.{◌≡◌};

use jx_lex::{Kind, Span};
use std::marker::Model;

/// The number of a row, counted from 0.
#[derive(Clone, Copy, Debug, PartialEq, Eq)]
pub struct NodeId {
    number: usize,
}

impl Model for NodeId {
    ghost use Rattle.std.specs.Prelude.{ℕ};

    ghost Value = { ℕ };

    ghost view = { λ node. node.number };

    ghost inverse = { λ number. record { number = number } };
}

impl NodeId {
    /// The node whose row has this number.
    pub(crate) fn new(number: usize) -> NodeId
        ensures { result ≡ number }
    {
        NodeId { number }
    }

    /// The number itself, the row's place in the list of all rows.
    pub fn number(self) -> usize
        ensures { result ≡ self }
    {
        self.number
    }
}

/// A value of a text.
#[derive(Clone, Copy, Debug, PartialEq, Eq)]
pub struct Row {
    pub kind: Kind,
    /// Where it stands, in bytes of the whole input: a string with its quotation marks, a container with its brackets.
    pub span: Span,
    /// The array or object that it stands in; none for the root.
    pub parent: Option<NodeId>,
    /// How many values are before it in its parent; 0 for the root.
    pub place: usize,
    /// Where its name stands, with the quotation marks, if its parent is an object.
    pub name: Option<Span>,
}
