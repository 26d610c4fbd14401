// The look-up of a name among ordered members, by halving.
ghost use Rattle.std.specs.Prelude.{◌≡◌, ◌<◌, ◌≤◌, ◌↔◌, ℕ, IsTrue, IfSome, filter, length, map, slice_index};
ghost use Rattle.std.specs.List.Sorted.{IsNonDecreasing, IsSortedBy};
ghost use Rattle.jx_index.specs.declared.units.Spelling.TheVariants.{InToken};
ghost use Rattle.jx_index.specs.Names.{is_below};
ghost use Rattle.jx_index.specs.Leads.{only};
ghost use Rattle.jx_index.specs.inside.LookUp.{rank_of, IsEqualAt};
ghost use Rattle.jx_index.specs.inside.NameFronts.{front_at};
ghost use Rattle.jx_index.specs.RowsLead.{is_equal};
ghost use Rattle.jx_index.specs.Units.{chars_units};

use crate::find_fault::FindFault;
use crate::indexed::NameOrder;
use crate::member_order::front_of;
use crate::names::compare_to_token;
use crate::row::{NodeId, Row};
use crate::units::Spelling;
use jx_lex::Span;
use std::cmp::Ordering;

/// How a member's name compares with what a token encodes: 0 where it is less, 1 where equal, 2 where greater.
fn rank(text: &[u8], rows: &[Row], node: NodeId, name: &[u8]) -> u8
    ensures { result ≡ rank_of text.now rows.now (chars_units InToken 0 name.now) node }
{
    match compare_to_token(text, rows, node, name) {
        Ordering::Less => 0,
        Ordering::Equal => 1,
        Ordering::Greater => 2,
    }
}

/// Whether there is a member at this index whose name is what a token encodes.
fn is_equal_at(text: &[u8], rows: &[Row], names: &[NodeId], at: usize, name: &[u8]) -> bool
    ensures { IsTrue result ↔ IsEqualAt (rank_of text.now rows.now (chars_units InToken 0 name.now)) names.now at }
{
    at < names.len() && rank(text, rows, names[at], name) == 1
}

/// The only member with the name that a token encodes, among members by rising names. It looks at no more names than a
/// halving needs: those where it halves, the first that is not below the token, and the one after that.
fn find_name(
    text: &[u8],
    rows: &[Row],
    names: &[NodeId],
    name: &[u8],
    token: usize,
) -> Result<NodeId, FindFault>
    requires { IsSortedBy (is_below text.now rows.now) names.now }
    ensures { result ≡ only (filter (is_equal text.now rows.now (chars_units InToken 0 name.now)) names.now) token }
{
    let at = names.partition_point(|member| rank(text, rows, *member, name) < 1);
    if !is_equal_at(text, rows, names, at, name) {
        return Err(FindFault::NoSuchMember { token });
    }
    if is_equal_at(text, rows, names, at + 1, name) {
        return Err(FindFault::NameRepeated { token });
    }
    Ok(names[at])
}

/// Where the fronts stand that equal one, among rising ones.
fn equal_fronts(fronts: &[u64], front: u64) -> Span
    requires rising { IsNonDecreasing fronts.now }
    ensures ordered { result.start ≤ result.end }
    ensures within { result.end ≤ length fronts.now }
    ensures before { (k : ℕ) → k < result.start → slice_index fronts.now k ≡ front → ⊥ }
    ensures behind { (k : ℕ) → result.end ≤ k → k < length fronts.now → slice_index fronts.now k ≡ front → ⊥ }
{
    let start = fronts.partition_point(|one| *one < front);
    let end = fronts.partition_point(|one| *one <= front);
    Span {
        start,
        end: end.max(start),
    }
}

/// The member with a name, where the fronts of all names are known: only members with the token's front are looked at.
fn find_by_front(
    text: &[u8],
    rows: &[Row],
    names: &[NodeId],
    fronts: &[u64],
    name: &[u8],
    token: usize,
) -> Result<NodeId, FindFault>
    requires rising { IsSortedBy (is_below text.now rows.now) names.now }
    requires fronts { fronts.now ≡ map (front_at text.now rows.now) names.now }
    ensures { result ≡ only (filter (is_equal text.now rows.now (chars_units InToken 0 name.now)) names.now) token }
{
    let equal = equal_fronts(fronts, front_of(name, Spelling::InToken));
    find_name(text, rows, &names[equal.start..equal.end], name, token)
}

/// The only member with the name that a token encodes, among members by rising names.
pub fn find_member(
    text: &[u8],
    rows: &[Row],
    order: NameOrder,
    name: &[u8],
    token: usize,
) -> Result<NodeId, FindFault>
    requires rising { IsSortedBy (is_below text.now rows.now) order.names.now }
    requires fronts { IfSome order.fronts (λ fronts. fronts.now ≡ map (front_at text.now rows.now) order.names.now) }
    ensures { result ≡ only (filter (is_equal text.now rows.now (chars_units InToken 0 name.now)) order.entry.names.now) token }
{
    match order.fronts {
        None => find_name(text, rows, order.names, name, token),
        Some(fronts) => find_by_front(text, rows, order.names, fronts, name, token),
    }
}
