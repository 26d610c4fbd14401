use jx_index::{FindFault, NodeId};
use jx_lex::{Kind, Span};

/// The answer to a pointer in an index.
#[derive(Clone, Copy, Debug, PartialEq, Eq)]
pub enum Answer {
    /// It leads to this node, which stands there in the whole input.
    Found {
        node: NodeId,
        kind: Kind,
        span: Span,
    },
    /// It leads nowhere.
    Fault(FindFault),
}
