// Answers to pointers (RFC 6901, section 4), by what was met at the nodes of a trie.
ghost use Rattle.std.specs.Prelude.{◌≡◌, ◌<◌, List, Some, length, map, slice_get, IfOk, IfSome, OnOk};
ghost use Rattle.std.specs.List.{AllZip};
ghost use Rattle.jx_index.specs.declared.trie.Edge.{Edge};
ghost use Rattle.jx_index.specs.declared.units.Spelling.TheVariants.{InToken};
ghost use Rattle.jx_index.specs.Units.{chars_units};
ghost use Rattle.jx_index.specs.inside.Finding.{met_at, missing, read_from, read_root};
ghost use Rattle.jx_index.specs.inside.Found.{tokens_of};
ghost use Rattle.jx_index.specs.inside.PointerWays.{IsFoundAlong, IsWayOf, nodes_of};
ghost use Rattle.jx_index.specs.inside.Seeking.{IsReadOf};

use crate::array_token::{Place, place_of_token};
use crate::find_fault::FindFault;
use crate::finder::{Found, Met};
use crate::pointer::Pointer;
use crate::pointer_ways::Way;
use crate::trie::Edge;
use crate::trie_nodes::{met_at, way_of};
use crate::units::{Spelling, Units};
use crate::wanted::{Wanted, wanted_of};
use jx_lex::Kind;
use std::alloc::{AllocError, Global};

/// Why a token leads nowhere from a value of this kind, where no child has its name or its place.
fn missing(kind: Kind, name: &[u8], token: usize) -> FindFault
    ensures { result ≡ missing kind (chars_units InToken 0 name.now) token }
{
    match kind {
        Kind::Object => FindFault::NoSuchMember { token },
        Kind::Array => match place_of_token(Units::new(name, Spelling::InToken), 0) {
            Place::AfterLast => FindFault::AfterLast { token },
            Place::NotAnIndex => FindFault::NotAnIndex { token },
            Place::PastEnd | Place::Element(_) => FindFault::PastEnd { token },
        },
        _ => FindFault::NotAContainer { token },
    }
}

/// The token with this number, counted from 0.
fn token_at<'p>(wanted: &[Wanted<'p>], number: usize) -> Wanted<'p>
    requires { number < length wanted.now }
    ensures { slice_get wanted.now number ≡ Some result }
{
    wanted[number]
}

/// The value that the tokens lead to from the root, by what was met where they lead.
fn read_from(wanted: &[Wanted], met: &[Met], root: Found) -> Result<Found, FindFault>
    ensures { result ≡ read_from met.now (tokens_of wanted.now) 0 root }
{
    let mut here = root;
    for level in 0..wanted.len() {
        here = match met_at(met, level + 1) {
            Met::Once(next) => next,
            Met::Never => {
                let token = token_at(wanted, level);
                return Err(missing(here.kind, token.name, level));
            }
            Met::Again => return Err(FindFault::NameRepeated { token: level }),
        };
    }
    Ok(here)
}

/// The value that the tokens lead to, by what was met where they lead. In a text the root is met once.
fn read(wanted: &[Wanted], met: &[Met]) -> Result<Found, FindFault>
    ensures { result ≡ read_root (met_at met.now 0) met.now (tokens_of wanted.now) }
{
    match met_at(met, 0) {
        Met::Once(root) => read_from(wanted, met, root),
        _ => Err(FindFault::NotAContainer { token: 0 }),
    }
}

/// The tokens that were met at each node of a way, in order.
fn met_on(alloc: Global, met: &[Met], way: &[usize]) -> Result<Vec<Met>, AllocError>
    ensures { IfOk result (λ along. along.items ≡ map (met_at met.now) way.now) }
{
    let mut along = Vec::with_capacity(alloc, way.len())?;
    for node in way {
        along.push(met_at(met, *node))?;
    }
    Ok(along)
}

/// The value that was met last on a way each of whose nodes was met once. As many tokens lead along it as nodes follow its first one.
fn found_along(met: &[Met], way: &[usize]) -> Option<Found>
    ensures { IfSome result (IsFoundAlong met.now way.now) }
{
    let mut last = None;
    for node in way {
        match met_at(met, *node) {
            Met::Once(found) => last = Some(found),
            Met::Never | Met::Again => return None,
        }
    }
    last
}

/// The answer to a pointer, by what was met on its way.
fn read_one(
    alloc: Global,
    met: &[Met],
    way: &[usize],
    pointer: &Pointer,
) -> Result<Result<Found, FindFault>, AllocError>
    ensures { IfOk result (λ found. (edges : List Edge) → IsWayOf edges pointer.now way.now → IsReadOf edges met.now pointer.now found) }
{
    if let Some(found) = found_along(met, way) {
        return Ok(Ok(found));
    }
    let along = met_on(alloc, met, way)?;
    let wanted = wanted_of(alloc, pointer)?;
    Ok(read(&wanted, &along))
}

/// The answer to each pointer, in order.
pub(crate) fn read_each(
    alloc: Global,
    edges: &[Edge],
    starts: &[usize],
    met: &[Met],
    pointers: &[Pointer],
) -> Result<Vec<Result<Found, FindFault>>, AllocError>
    ensures { IfOk result (λ found. AllZip (IsReadOf edges.now met.now) pointers.now found.items) }
{
    let mut found = Vec::with_capacity(alloc, pointers.len())?;
    for pointer in pointers {
        let way = way_of(alloc, edges, starts, pointer)?;
        let one = read_one(alloc, met, &way, pointer)?;
        found.push(one)?;
    }
    Ok(found)
}

/// The pointer with this place, counted from 0.
fn pointer_at<'a, 'p>(pointers: &'a [Pointer<'p>], place: usize) -> &'a Pointer<'p>
    requires { place < length pointers.now }
    ensures { slice_get pointers.now place ≡ Some result.now }
{
    &pointers[place]
}

/// The nodes of the way with this place.
fn nodes_at(ways: &[Way], place: usize) -> &[usize]
    requires { place < length ways.now }
    ensures { slice_get (map nodes_of ways.now) place ≡ Some result.now }
{
    &ways[place].nodes
}

/// The same for each pointer, in order, in place of what was found before.
pub(crate) fn read_ways(
    alloc: Global,
    met: &[Met],
    ways: &[Way],
    pointers: &[Pointer],
    found: &mut Vec<Result<Found, FindFault>>,
) -> Result<(), AllocError>
    requires { length pointers.now ≡ length ways.now }
    ensures { OnOk result ((edges : List Edge) → AllZip (IsWayOf edges) pointers.now (map nodes_of ways.now) → AllZip (IsReadOf edges met.now) pointers.now found.new.items) }
{
    found.clear();
    for place in 0..pointers.len() {
        let one = read_one(
            alloc,
            met,
            nodes_at(ways, place),
            pointer_at(pointers, place),
        )?;
        found.push(one)?;
    }
    Ok(())
}
