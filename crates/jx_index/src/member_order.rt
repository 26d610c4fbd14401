// Members by the units of their names. Where there are many, a number beside each decides between most of them.
ghost use Rattle.std.specs.Prelude.{◌≡◌, [], map, IfOk, IfSome};
ghost use Rattle.std.specs.Ordering.{nat_cmp};
ghost use Rattle.std.specs.Cmp.Lexicographic.{slice_cmp};
ghost use Rattle.jx_index.specs.Names.{IsInNameOrder};
ghost use Rattle.jx_index.specs.Units.{chars_units};
ghost use Rattle.jx_index.specs.inside.NameFronts.{behind_digit, digit, front_in, front_of, fronted_units, node_of, with_front, IsInFrontOrder};
ghost use Rattle.jx_index.specs.inside.UnitsLeft.{units_left};
ghost use Rattle.jx_index.specs.inside.WideObjects.{AreFronts};

use crate::names::{compare_members, name_bytes};
use crate::row::{NodeId, Row};
use crate::units::{Spelling, Units};
use std::alloc::{AllocError, Global};
use std::cmp::Ordering;

/// From so many members on, the fronts of their names are written down before they are sorted. A comparison of two fronts reads
/// what is at hand, one of two names their rows and the text.
const MANY: usize = 64;

/// So many units are in a front.
const FRONT: usize = 8;

/// A member, and the first units of its name in a number: where one is less, so is the name.
#[derive(Clone, Copy, Debug)]
pub struct Fronted {
    front: u64,
    node: NodeId,
}

/// No units.
#[tactic(auto, unfolding(crate::specs::Units::chars_units))]
fn no_units<'a>() -> Units<'a>
    ensures { units_left result ≡ [] }
{
    Units::new(&[], Spelling::InText)
}

/// The next unit, as far as a byte holds it. After one that is greater, and after the last one, all are 0.
fn next_digit(units: &mut Units) -> u64
    ensures digit { result ≡ digit (units_left units.old) }
    ensures behind { units_left units.new ≡ behind_digit (units_left units.old) }
{
    match units.next_unit() {
        Some(unit) if unit < 255 => u64::from(unit),
        Some(_) => {
            *units = no_units();
            255
        }
        None => {
            *units = no_units();
            0
        }
    }
}

/// The first units of a name or of a token in a number.
pub(crate) fn front_of(bytes: &[u8], spelling: Spelling) -> u64
    ensures { result ≡ front_of (chars_units spelling 0 bytes.now) }
{
    let mut units = Units::new(bytes, spelling);
    let mut front = 0u64;
    for at in 0..FRONT {
        front = front * 256 + next_digit(&mut units);
    }
    front
}

/// Members with the fronts of their names.
fn with_fronts(
    alloc: Global,
    text: &[u8],
    rows: &[Row],
    members: &[NodeId],
) -> Result<Vec<Fronted>, AllocError>
    ensures { IfOk result (λ list. list.items ≡ map (with_front text.now rows.now) members.now) }
{
    let mut list = Vec::with_capacity(alloc, members.len())?;
    for node in members {
        let front = front_of(name_bytes(text, rows, *node), Spelling::InText);
        list.push(Fronted { front, node: *node })?;
    }
    Ok(list)
}

/// The first one's front against the second's, and where they are equal the one's name against the other's.
fn compare_fronted(text: &[u8], rows: &[Row], first: &Fronted, second: &Fronted) -> Ordering
    ensures { result ≡ slice_cmp nat_cmp (fronted_units text.now rows.now first.now) (fronted_units text.now rows.now second.now) }
{
    if first.front < second.front {
        return Ordering::Less;
    }
    if second.front < first.front {
        return Ordering::Greater;
    }
    compare_members(text, rows, first.node, second.node)
}

/// Sorts members by their fronts and then by the units of their names; equal names keep their order.
fn sort_fronted(text: &[u8], rows: &[Row], list: &mut Vec<Fronted>) -> Result<(), AllocError>
    ensures { IfOk result (λ _. IsInFrontOrder text.now rows.now list.old.items list.new.items) }
{
    list.sort_by(|a, b| compare_fronted(text, rows, a, b))?;
    Ok(())
}

/// Lists the members without their fronts.
fn list_members(list: &[Fronted], members: &mut Vec<NodeId>) -> Result<(), AllocError>
    ensures { IfOk result (λ _. members.new.items ≡ map node_of list.now) }
{
    members.clear();
    for one in list {
        members.push(one.node)?;
    }
    Ok(())
}

/// Lists the fronts without their members.
fn list_fronts(alloc: Global, list: &[Fronted]) -> Result<Vec<u64>, AllocError>
    ensures { IfOk result (λ fronts. fronts.items ≡ map front_in list.now) }
{
    let mut fronts = Vec::with_capacity(alloc, list.len())?;
    for one in list {
        fronts.push(one.front)?;
    }
    Ok(fronts)
}

/// Sorts many members by the units of their names; equal names keep their order. Gives the fronts of their names.
fn sort_many(text: &[u8], rows: &[Row], members: &mut Vec<NodeId>) -> Result<Vec<u64>, AllocError>
    ensures order { IfOk result (λ _. IsInNameOrder text.now rows.now members.old.items members.new.items) }
    ensures fronts { IfOk result (λ fronts. AreFronts text.now rows.now members.new.items fronts.items) }
{
    let alloc = *members.allocator();
    let mut list = with_fronts(alloc, text, rows, members)?;
    sort_fronted(text, rows, &mut list)?;
    list_members(&list, members)?;
    let fronts = list_fronts(alloc, &list)?;
    Ok(fronts)
}

/// Sorts members by the units of their names; equal names keep their order. Where the order holds already, one comparison
/// for each two neighbours is all that it costs, and up to 20 members take no memory.
fn sort_few(text: &[u8], rows: &[Row], members: &mut Vec<NodeId>) -> Result<(), AllocError>
    ensures { IfOk result (λ _. IsInNameOrder text.now rows.now members.old.items members.new.items) }
{
    members.sort_by(|a, b| compare_members(text, rows, *a, *b))?;
    Ok(())
}

/// Sorts members by the units of their names; equal names keep their order. Gives the fronts of their names where there are
/// many. Up to 20 members take no memory.
pub(crate) fn sort_members(
    text: &[u8],
    rows: &[Row],
    members: &mut Vec<NodeId>,
) -> Result<Option<Vec<u64>>, AllocError>
    ensures order { IfOk result (λ _. IsInNameOrder text.now rows.now members.old.items members.new.items) }
    ensures fronts { IfOk result (λ fronts. IfSome fronts (λ f. AreFronts text.now rows.now members.new.items f.items)) }
{
    if members.len() < MANY {
        sort_few(text, rows, members)?;
        return Ok(None);
    }
    let fronts = sort_many(text, rows, members)?;
    Ok(Some(fronts))
}
