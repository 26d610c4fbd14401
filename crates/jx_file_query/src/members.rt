// The state after chunks of an object on the way that have no member that is wanted.
ghost use Rattle.std.specs.Prelude.{◌≡◌, ◌+◌, ◌<◌, Some, length, map, slice_get, true, false, IfOk, IfSome};
ghost use Rattle.jx_lex.specs.TokenStates.{in_token};
ghost use Rattle.jx_index.specs.declared.trie.Edge.{Edge};
ghost use Rattle.jx_index.specs.inside.Trie.{edge_units};
ghost use Rattle.jx_file_index.specs.NameHash.{name_hash};
ghost use Rattle.jx_file_query.specs.Members.{lacks, unwanted_name, InObject};
ghost use Rattle.jx_file_query.specs.inside.Members.{IsCounted, IsCut, IsStarted, NoneWants, WantsNone};

use crate::walk_passing::is_in_token;
use jx_file_index::{Entry, NameTables, hash_of_token};
use jx_find::Sought;
use jx_index::Edge;
use jx_reduce::Expect;
use std::alloc::{AllocError, Global};

/// The tables of the names of a text, and the hash of each edge's name.
#[derive(Drop)]
pub struct TextNames<'a> {
    pub tables: &'a NameTables,
    pub hashes: Vec<u32>,
}

/// The hashes of the names that edges ask for.
pub(crate) fn hashes_of(alloc: Global, edges: &[Edge]) -> Result<Vec<u32>, AllocError>
    ensures { IfOk result (λ hashes. hashes.items ≡ map (λ (e : Edge). name_hash (edge_units e)) edges.now) }
{
    let mut hashes = Vec::new(alloc);
    for edge in edges {
        hashes.push(hash_of_token(alloc, edge.name)?)?;
    }
    Ok(hashes)
}

/// Of the innermost object: how many members were counted, and how many containers are open in it that no pointer wants.
#[derive(Clone, Copy)]
pub(crate) struct Among {
    pub count: usize,
    pub skipped: usize,
}

/// How many members were begun and not counted, where so many containers are open that are skipped; a token may have begun.
fn lacks(skipped: usize, begun: bool, expect: Expect) -> usize
    ensures { result ≡ lacks skipped begun expect }
{
    if skipped > 0 {
        return 0;
    }
    if begun {
        return 1;
    }
    match expect {
        Expect::After => 0,
        _ => 1,
    }
}

/// Where a name leads whose value is still to come, if one does that no pointer wants.
pub(crate) fn unwanted_name(skipped: usize, begun: bool, expect: Expect) -> Option<Option<usize>>
    ensures { result ≡ unwanted_name skipped begun expect }
{
    if skipped > 0 {
        return None;
    }
    match (begun, expect) {
        (true, Expect::After) => Some(None),
        (false, Expect::Colon | Expect::Value) => Some(None),
        _ => None,
    }
}

/// Whether an edge asks for a name that a chunk may have.
fn may_want(names: &TextNames, at: usize, chunk: usize) -> bool
    ensures { result ≡ false → WantsNone names.now at chunk }
{
    match names.hashes.get(at) {
        Some(hash) => names.tables.may_have(chunk, *hash),
        None => true,
    }
}

/// Whether an edge is one from a node and asks for a name that a chunk may have.
fn wants_at(names: &TextNames, edges: &[Edge], node: usize, at: usize, chunk: usize) -> bool
    requires { at < length edges.now }
    ensures { result ≡ false → (e : Edge) → slice_get edges.now at ≡ Some e → e.parent ≡ node → WantsNone names.now at chunk }
{
    if edges[at].parent != node {
        return false;
    }
    may_want(names, at, chunk)
}

/// Whether an edge from a node asks for a name that a chunk may have.
fn any_wants(names: &TextNames, edges: &[Edge], node: usize, chunk: usize) -> bool
    ensures { result ≡ false → NoneWants names.now edges.now node chunk }
{
    'edges: for at in 0..edges.len() {
        if wants_at(names, edges, node, at, chunk) {
            return true;
        }
    }
    false
}

/// Whether a chunk may have a member that is wanted of the object of a node, where it closes as many containers as are skipped.
pub(crate) fn wants_some(
    names: &TextNames,
    edges: &[Edge],
    node: usize,
    chunk: usize,
    here: &Entry,
    skipped: usize,
) -> bool
    ensures { result ≡ false → here.now.sum.closed ≡ skipped → NoneWants names.now edges.now node chunk }
{
    if here.sum.closed as usize != skipped {
        return false;
    }
    any_wants(names, edges, node, chunk)
}

/// Whether two names that wait lead to the same.
fn is_same_name(one: Option<Option<usize>>, other: Option<Option<usize>>) -> bool
    ensures { result ≡ true → one ≡ other }
{
    match (one, other) {
        (None, None) => true,
        (Some(None), Some(None)) => true,
        _ => false,
    }
}

/// Whether an entry is that of a part of an object, where so many containers are skipped.
fn is_in_object(skipped: usize, here: &Entry) -> bool
    ensures { result ≡ true → InObject skipped (in_token here.now.state) here.now.expect }
{
    if skipped > 0 {
        return true;
    }
    match (is_in_token(here.state), here.expect) {
        (true, Expect::Colon | Expect::After) => true,
        (true, _) => false,
        (false, Expect::ArrayFirst) => false,
        (false, _) => true,
    }
}

/// Whether a name of the object is cut in front of this entry's chunk.
pub(crate) fn cuts_name(skipped: usize, here: &Entry) -> bool
    ensures { result ≡ false → IsCut skipped here.now → ⊥ }
{
    skipped == 0 && is_in_token(here.state) && matches!(here.expect, Expect::Colon)
}

/// Whether what is kept stands in an object before this entry's chunk, and no value waits there that is wanted.
pub(crate) fn may_start(held: &Sought, here: &Entry) -> bool
    ensures { result ≡ true → IsStarted held.now here.now }
{
    let skipped = held.state.skipped;
    let begun = is_in_token(here.state);
    if begun != held.begun.is_some() || !is_in_object(skipped, here) || cuts_name(skipped, here) {
        return false;
    }
    is_same_name(held.state.name, unwanted_name(skipped, begun, here.expect))
}

/// The members of a chunk that has none that is wanted where it closes as many containers as are skipped.
fn count_on(among: Among, here: &Entry, behind: &Entry, skipped: usize) -> Option<usize>
    ensures { IfSome result (λ count. here.now.sum.closed ≡ among.skipped → count + lacks skipped (in_token behind.now.state) behind.now.expect
        ≡ among.count + here.now.sum.commas + lacks among.skipped (in_token here.now.state) here.now.expect) }
{
    let counted = among.count.checked_add(here.sum.commas as usize)?;
    let begun = lacks(among.skipped, is_in_token(here.state), here.expect);
    let all = counted.checked_add(begun)?;
    all.checked_sub(lacks(skipped, is_in_token(behind.state), behind.expect))
}

/// The state after a chunk that has no member that is wanted.
pub(crate) fn over_chunk(among: Among, here: &Entry, behind: &Entry, wants: bool) -> Option<Among>
    ensures counted { IfSome result (λ next. IsCounted here.now behind.now among.count among.skipped next.count next.skipped) }
    ensures none { IfSome result (λ _. here.now.sum.closed ≡ among.skipped → wants ≡ false) }
{
    let closed = here.sum.closed as usize;
    if closed > among.skipped {
        return None;
    }
    let skipped = (among.skipped - closed).checked_add(here.sum.opened as usize)?;
    if closed < among.skipped {
        return Some(Among {
            count: among.count,
            skipped,
        });
    }
    if wants {
        return None;
    }
    let count = count_on(among, here, behind, skipped)?;
    Some(Among { count, skipped })
}
