// The children of all containers in order: elements by place, members by the values of their names.
ghost use Rattle.std.specs.Prelude.{◌≡◌, ℕ, List, ◌<◌, ◌++◌, ◌+◌, ◌≤◌, All, Some, length, slice_get, slice_index, IfOk, IfSome};
ghost use Rattle.jx_index.specs.declared.row.Row.{Row};
ghost use Rattle.jx_index.specs.Names.{IsInNameOrder};
ghost use Rattle.jx_index.specs.ChildLists.{HaveChildLists, IsAdded, child_list};
ghost use Rattle.jx_index.specs.inside.WideObjects.{AreFronts, AreFrontsBehind, AreFrontsThere, IsWide, IsWidened};
ghost use Rattle.jx_index.specs.Walk.{IsForward, IsBounded, walk_children};

use crate::children::children_in;
use crate::member_order::sort_members;
use crate::row::{NodeId, Row};
use jx_lex::Kind;
use std::alloc::{AllocError, Global};

/// Adds the children of a node to a list, by place.
fn add_children(after: &[usize], node: NodeId, list: &mut Vec<NodeId>) -> Result<(), AllocError>
    requires forward { IsForward after.now }
    requires bounded { IsBounded after.now }
    ensures { IfOk result (λ _. list.new.items ≡ list.old.items ++ walk_children after.now node) }
{
    let mut children = children_in(after, node);
    while let Some(child) = children.next() {
        list.push(child)?;
    }
    Ok(())
}

/// The members of an object by rising names, and the fronts of their names where there are many.
fn collect_members(
    text: &[u8],
    rows: &[Row],
    after: &[usize],
    object: NodeId,
    members: &mut Vec<NodeId>,
) -> Result<Option<Vec<u64>>, AllocError>
    requires forward { IsForward after.now }
    requires bounded { IsBounded after.now }
    ensures order { IfOk result (λ _. IsInNameOrder text.now rows.now (walk_children after.now object) members.new.items) }
    ensures fronts { IfOk result (λ fronts. IfSome fronts (λ f. AreFronts text.now rows.now members.new.items f.items)) }
{
    members.clear();
    add_children(after, object, members)?;
    sort_members(text, rows, members)
}

/// An object with many members, and the fronts of their names in the order of the names.
#[derive(Debug, Drop)]
pub struct WideObject {
    pub(crate) object: usize,
    pub(crate) fronts: Vec<u64>,
}

/// Keeps the fronts of the names of an object, if there are any.
fn keep_fronts(
    wide: &mut Vec<WideObject>,
    object: usize,
    fronts: Option<Vec<u64>>,
) -> Result<(), AllocError>
    ensures { IfOk result (λ _. (text : List ℕ) (rows : List Row) (members : List ℕ) → IfSome fronts (λ f. AreFronts text rows members f.items)
        → IsWidened text rows object members wide.old.items wide.new.items) }
{
    if let Some(fronts) = fronts {
        wide.push(WideObject { object, fronts })?;
    }
    Ok(())
}

/// Adds the children of one row; a scalar has none. Gives the fronts of their names where it has many members.
fn add_child_list(
    text: &[u8],
    rows: &[Row],
    after: &[usize],
    node: usize,
    members: &mut Vec<NodeId>,
    children: &mut Vec<NodeId>,
) -> Result<Option<Vec<u64>>, AllocError>
    requires row { node < length rows.now }
    requires forward { IsForward after.now }
    requires bounded { IsBounded after.now }
    ensures added { IfOk result (λ _. IsAdded text.now rows.now after.now node children.old.items children.new.items) }
    ensures fronts { IfOk result (λ fronts. IfSome fronts (λ f. AreFrontsBehind text.now rows.now children.old.items children.new.items f.items)) }
{
    match rows[node].kind {
        Kind::Object => {
            let fronts = collect_members(text, rows, after, NodeId::new(node), members)?;
            children.extend_from_slice(members)?;
            Ok(fronts)
        }
        Kind::Array => {
            add_children(after, NodeId::new(node), children)?;
            Ok(None)
        }
        _ => Ok(None),
    }
}

/// The elements of each array by place and the members of each object by rising names, container after container, and
/// where those of each row begin; the fronts of the names of objects with many members, in rising order of their rows.
#[derive(Debug, Drop)]
pub struct ChildLists {
    pub(crate) starts: Vec<usize>,
    pub(crate) children: Vec<NodeId>,
    pub(crate) wide: Vec<WideObject>,
}

impl ChildLists {
    /// The children of all rows, where `after` has for each row the number of the row after all that stands in it.
    pub fn of(
        alloc: Global,
        text: &[u8],
        rows: &[Row],
        after: &[usize],
    ) -> Result<ChildLists, AllocError>
        requires forward { IsForward after.now }
        requires bounded { IsBounded after.now }
        ensures starts { IfOk result (λ lists. length lists.starts.items ≡ length rows.now + 1) }
        ensures lists { IfOk result (λ lists. HaveChildLists text.now rows.now after.now lists.starts.items lists.children.items (length rows.now)) }
        ensures wide { IfOk result (λ lists. All (IsWide text.now rows.now lists.starts.items lists.children.items (length rows.now)) lists.wide.items) }
    {
        let mut starts = Vec::with_capacity(alloc, rows.len() + 1)?;
        let mut children = Vec::with_capacity(alloc, rows.len())?;
        let mut members = Vec::new(alloc);
        let mut wide = Vec::new(alloc);
        starts.push(0)?;
        for node in 0..rows.len() {
            let fronts = add_child_list(text, rows, after, node, &mut members, &mut children)?;
            keep_fronts(&mut wide, node, fronts)?;
            starts.push(children.len())?;
        }
        Ok(ChildLists {
            starts,
            children,
            wide,
        })
    }
}

/// The children of one row.
pub(crate) fn child_list<'i>(starts: &[usize], children: &'i [NodeId], node: usize) -> &'i [NodeId]
    requires there { node + 1 < length starts.now }
    requires ordered { slice_index starts.now node ≤ slice_index starts.now (node + 1) }
    requires within { slice_index starts.now (node + 1) ≤ length children.now }
    ensures { result.now ≡ child_list starts.now children.now node }
{
    &children[starts[node]..starts[node + 1]]
}

/// The wide object that is kept at a place.
fn wide_at<'i>(wide: &'i [WideObject], at: usize) -> &'i WideObject
    requires { at < length wide.now }
    ensures { slice_get wide.now at ≡ Some result.now }
{
    &wide[at]
}

/// The fronts of the names of an object in the order of the names, where they are kept.
pub(crate) fn fronts_of<'i>(wide: &'i [WideObject], object: usize) -> Option<&'i [u64]>
    ensures { IfSome result (λ fronts. AreFrontsThere wide.now object fronts.now) }
{
    let at = wide.partition_point(|one| one.object < object);
    if at >= wide.len() {
        return None;
    }
    let kept = wide_at(wide, at);
    if kept.object != object {
        return None;
    }
    Some(kept.fronts.as_slice())
}
