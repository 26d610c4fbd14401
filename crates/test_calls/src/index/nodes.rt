// The children of values, the members of objects by their names, and names that are repeated.
use crate::index::pointers::read_index;
use crate::reduce::outcomes::push_offset;
use jx_index::{Indexed, NodeId, Pointer};
use jx_lex::Kind;
use jx_run::NameRule;
use test_words::{Line, Out, text_of};

/// The number of a node, after a comma unless it is the first.
fn push_node(out: &mut Out, node: NodeId) {
    out.part(",");
    out.put(node.number());
}

/// `children TEXT POINTER`: the numbers of the rows of all children, in order, or `-`.
pub(crate) fn children(line: &mut Line<'_>) {
    let text = line.text();
    if let Some(index) = read_index(line, &text) {
        push_children(line, &index);
    }
}

fn push_children(line: &mut Line<'_>, index: &Indexed<'_>) {
    let Some(node) = node(line, index) else {
        return line.refuse();
    };
    for child in index.children(node) {
        push_node(&mut line.out, child);
    }
    if line.out.is_empty() {
        line.out.push_str("-");
    }
}

/// The node to which the pointer leads in the next word.
fn node(line: &mut Line<'_>, index: &Indexed<'_>) -> Option<NodeId> {
    let spelt = text_of(line.alloc, line.word()).ok()?;
    let pointer = Pointer::read(spelt.as_str()).ok()?;
    index.find(&pointer).ok()
}

/// `names TEXT`: the numbers of the rows of the outermost object's members, by rising names, or `-`.
pub(crate) fn names(line: &mut Line<'_>) {
    let text = line.text();
    if let Some(index) = read_index(line, &text) {
        push_names(line, &index);
    }
}

fn push_names(line: &mut Line<'_>, index: &Indexed<'_>) {
    let root = index.root();
    if index.row(root).kind != Kind::Object {
        return line.refuse();
    }
    for node in index.names(root) {
        push_node(&mut line.out, *node);
    }
    if line.out.is_empty() {
        line.out.push_str("-");
    }
}

/// `repeated TEXT`: where the first name stands that an object repeats, or `-`.
pub(crate) fn repeated(line: &mut Line<'_>) {
    let text = line.text();
    if let Some(index) = read_index(line, &text) {
        push_repeated(&mut line.out, &index);
    }
}

fn push_repeated(out: &mut Out, index: &Indexed<'_>) {
    let repeated = index.repeated();
    push_offset(out, repeated);
    if index.refused_name(NameRule::Unique) != repeated {
        out.push_str("; refuses another");
    }
    if index.refused_name(NameRule::Any).is_some() {
        out.push_str("; refuses without the rule");
    }
}
