// The answers to pointers in an index, in words.
use jx_answer::Answer;
use jx_index::{FindFault, Indexed, NodeId};
use jx_lex::{Kind, Span};
use std::alloc::Global;
use test_words::{Out, push_found};

/// Whether the node's row has this kind and this span.
fn is_row_of(index: &Indexed, node: NodeId, kind: Kind, span: Span) -> bool {
    match index.rows().get(node.number()) {
        Some(row) => row.kind == kind && row.span == span,
        None => false,
    }
}

/// The node that a pointer leads to, in the words of what is answered on it.
pub fn found_at(index: &Indexed, node: Result<NodeId, FindFault>) -> Answer {
    match node {
        Ok(node) => match index.rows().get(node.number()) {
            Some(row) => Answer::Found {
                node,
                kind: row.kind,
                span: row.span,
            },
            None => Answer::Fault(FindFault::NotAContainer { token: 0 }),
        },
        Err(fault) => Answer::Fault(fault),
    }
}

/// `found KIND S..E`, or why the pointer leads nowhere.
fn push_answer(out: &mut Out, index: &Indexed, answer: &Answer) {
    match answer {
        Answer::Found { node, kind, span } => {
            if !is_row_of(index, *node, *kind, *span) {
                out.push_str("another row: ");
            }
            push_found(out, *kind, *span);
        }
        Answer::Fault(fault) => out.put(*fault),
    }
}

/// The answers, or `-` where there is none.
pub fn told_of(alloc: Global, index: &Indexed, answers: &[Answer]) -> Out {
    let mut told = Out::new(alloc);
    told.list(
        "; ",
        answers,
        |told, answer| push_answer(told, index, answer),
    );
    told
}
