// How the tokens of a pointer lead on from byte to byte.
ghost use Rattle.std.specs.Prelude.{◌≡◌, ◌+◌, ◌<◌, ◌≤◌, ◌^◌, IfSome, MatchOption, None, Some, slice_get};
ghost use Rattle.jx_each.specs.Machine.{ahead_next, at_element, at_member, at_value, begins_part, begins_value, begun, elements_next, height_by, height_in, in_array, in_object, members_next, name_next, open_next, pair_next, stage_next, stand_by, takes_next};
ghost use Rattle.jx_each.specs.inside.Paths.{aim_of, count_in, path_of};

use crate::content::LineContent;
use crate::number::is_number;
use crate::sign::Turn;
use crate::stand::{LineStand, Stage, height_next};
use crate::target::Target;
use crate::token::Token;
use jx_compact::{Place, next};
use jx_string::has_units;

/// The units of the token that leads on, if there is one.
fn token_at(path: &[Token], level: usize) -> Option<&[u32]>
    ensures token { MatchOption result (slice_get (path_of path.now) level ≡ None) (λ units. slice_get (path_of path.now) level ≡ Some units.now) }
    ensures within { IfSome result (λ _. level + 1 < 2 ^ 64) }
{
    if level < path.len() {
        Some(&path[level].units)
    } else {
        None
    }
}

/// The stage in the container, where it is an array.
fn in_array(content: LineContent) -> Stage
    ensures { result ≡ in_array content }
{
    match content {
        LineContent::Alone => Stage::Array,
        LineContent::Named => Stage::Over,
        LineContent::NameAlone => Stage::Over,
        LineContent::Empty => Stage::Empties,
    }
}

/// The stage in the container, where it is an object.
fn in_object(content: LineContent) -> Stage
    ensures { result ≡ in_object content }
{
    match content {
        LineContent::Alone => Stage::Object,
        LineContent::Named => Stage::Name,
        LineContent::NameAlone => Stage::Names,
        LineContent::Empty => Stage::Empties,
    }
}

/// The stage in front of an element that follows so many.
fn at_element(target: &Target, level: usize, count: usize) -> Stage
    ensures { result ≡ at_element target.now.content (slice_get (path_of target.now.path.items) level) level count }
{
    let Some(units) = token_at(&target.path, level) else {
        return in_array(target.content);
    };
    if is_number(units, count) {
        Stage::Ahead { level: level + 1 }
    } else {
        Stage::Elements { level, count }
    }
}

/// The stage in front of a member.
fn at_member(target: &Target, level: usize) -> Stage
    ensures { result ≡ at_member target.now.content (slice_get (path_of target.now.path.items) level) level }
{
    match token_at(&target.path, level) {
        Some(_) => Stage::Members { level },
        None => in_object(target.content),
    }
}

/// The stage after a name and its colon.
fn at_value(path: &[Token], level: usize, name: &[u8]) -> Stage
    ensures { result ≡ at_value (slice_get (path_of path.now) level) level name.now }
{
    let Some(units) = token_at(path, level) else {
        return Stage::Members { level };
    };
    if has_units(name, units) {
        Stage::Ahead { level: level + 1 }
    } else {
        Stage::Members { level }
    }
}

/// The stage after a byte in front of a value.
fn ahead_next(target: &Target, level: usize, turn: Turn) -> Stage
    ensures { result ≡ ahead_next (aim_of target.now) level turn }
{
    match turn {
        Turn::EnterArray => at_element(target, level, 0),
        Turn::EnterObject => at_member(target, level),
        Turn::Past => Stage::Over,
        Turn::Next => Stage::Ahead { level },
        Turn::Value => Stage::Ahead { level },
        Turn::Leave => Stage::Ahead { level },
        Turn::Stay => Stage::Ahead { level },
    }
}

/// The stage after a byte in an array on the way.
fn elements_next(target: &Target, level: usize, count: usize, turn: Turn) -> Stage
    requires { count + 1 < 2 ^ 64 }
    ensures { result ≡ elements_next (aim_of target.now) level count turn }
{
    match turn {
        Turn::Next => at_element(target, level, count + 1),
        Turn::Leave => Stage::Over,
        Turn::EnterArray => Stage::Elements { level, count },
        Turn::EnterObject => Stage::Elements { level, count },
        Turn::Past => Stage::Elements { level, count },
        Turn::Value => Stage::Elements { level, count },
        Turn::Stay => Stage::Elements { level, count },
    }
}

/// The stage after a byte in an object on the way, where a name may have been read.
fn members_next(target: &Target, level: usize, name: &[u8], turn: Turn) -> Stage
    ensures { result ≡ members_next (aim_of target.now) level name.now turn }
{
    match turn {
        Turn::Value => at_value(&target.path, level, name),
        Turn::Leave => Stage::Over,
        Turn::EnterArray => Stage::Members { level },
        Turn::EnterObject => Stage::Members { level },
        Turn::Past => Stage::Members { level },
        Turn::Next => Stage::Members { level },
        Turn::Stay => Stage::Members { level },
    }
}

/// The stage after a byte in the container itself.
fn open_next(stage: Stage, turn: Turn) -> Stage
    ensures { result ≡ open_next stage turn }
{
    match turn {
        Turn::Leave => Stage::Over,
        Turn::EnterArray => stage,
        Turn::EnterObject => stage,
        Turn::Past => stage,
        Turn::Next => stage,
        Turn::Value => stage,
        Turn::Stay => stage,
    }
}

/// The stage after a byte in the container, in front of the colon of a member whose name is written.
fn name_next(turn: Turn) -> Stage
    ensures { result ≡ name_next turn }
{
    match turn {
        Turn::Value => Stage::Pair,
        Turn::Leave => Stage::Over,
        Turn::EnterArray => Stage::Name,
        Turn::EnterObject => Stage::Name,
        Turn::Past => Stage::Name,
        Turn::Next => Stage::Name,
        Turn::Stay => Stage::Name,
    }
}

/// The stage after a byte in the container, after that colon.
fn pair_next(turn: Turn) -> Stage
    ensures { result ≡ pair_next turn }
{
    match turn {
        Turn::Next => Stage::Name,
        Turn::Leave => Stage::Over,
        Turn::EnterArray => Stage::Pair,
        Turn::EnterObject => Stage::Pair,
        Turn::Past => Stage::Pair,
        Turn::Value => Stage::Pair,
        Turn::Stay => Stage::Pair,
    }
}

/// The stage after a byte.
fn stage_next(target: &Target, stage: Stage, name: &[u8], turn: Turn) -> Stage
    requires { count_in stage + 1 < 2 ^ 64 }
    ensures { result ≡ stage_next (aim_of target.now) stage name.now turn }
{
    match stage {
        Stage::Ahead { level } => ahead_next(target, level, turn),
        Stage::Elements { level, count } => elements_next(target, level, count, turn),
        Stage::Members { level } => members_next(target, level, name, turn),
        Stage::Array => open_next(Stage::Array, turn),
        Stage::Object => open_next(Stage::Object, turn),
        Stage::Name => name_next(turn),
        Stage::Pair => pair_next(turn),
        Stage::Names => open_next(Stage::Names, turn),
        Stage::Empties => open_next(Stage::Empties, turn),
        Stage::Over => Stage::Over,
    }
}

/// Whether an element or a name that is kept begins where a container or a comma was read.
fn begins_part(stage: Stage) -> bool
    ensures { result ≡ begins_part stage }
{
    match stage {
        Stage::Array => true,
        Stage::Members { level: _ } => true,
        Stage::Name => true,
        Stage::Names => true,
        Stage::Empties => true,
        Stage::Object => false,
        Stage::Pair => false,
        Stage::Ahead { level: _ } => false,
        Stage::Elements { level: _, count: _ } => false,
        Stage::Over => false,
    }
}

/// Whether a value that is written begins after a colon.
fn begins_value(stage: Stage) -> bool
    ensures { result ≡ begins_value stage }
{
    match stage {
        Stage::Object => true,
        Stage::Pair => true,
        Stage::Name => false,
        Stage::Names => false,
        Stage::Empties => false,
        Stage::Array => false,
        Stage::Members { level: _ } => false,
        Stage::Ahead { level: _ } => false,
        Stage::Elements { level: _, count: _ } => false,
        Stage::Over => false,
    }
}

/// Whether what follows a byte is kept, by the stage there.
fn takes_next(stage: Stage, takes: bool, turn: Turn) -> bool
    ensures { result ≡ takes_next stage takes turn }
{
    match turn {
        Turn::EnterArray => begins_part(stage),
        Turn::EnterObject => begins_part(stage),
        Turn::Next => begins_part(stage),
        Turn::Value => begins_value(stage),
        Turn::Leave => false,
        Turn::Past => false,
        Turn::Stay => takes,
    }
}

/// A height by the stage there: heights count from the value that is ahead.
fn height_in(stage: Stage, height: usize) -> usize
    ensures value { result ≡ height_in stage height }
    ensures most { result ≤ height }
{
    match stage {
        Stage::Ahead { level: _ } => 0,
        Stage::Elements { level: _, count: _ } => height,
        Stage::Members { level: _ } => height,
        Stage::Array => height,
        Stage::Object => height,
        Stage::Name => height,
        Stage::Pair => height,
        Stage::Names => height,
        Stage::Empties => height,
        Stage::Over => height,
    }
}

/// A height after a byte that does this.
fn height_by(turn: Turn, stage: Stage, height: usize) -> usize
    ensures value { result ≡ height_by turn stage height }
    ensures most { result ≤ height }
{
    match turn {
        Turn::EnterArray => height_in(stage, height),
        Turn::EnterObject => height_in(stage, height),
        Turn::Next => height_in(stage, height),
        Turn::Value => height_in(stage, height),
        Turn::Leave => height,
        Turn::Past => height,
        Turn::Stay => height,
    }
}

/// Where the next byte stands, after a byte that does this; `part` is what was kept before it.
pub(crate) fn stand_by(
    target: &Target,
    turn: Turn,
    stand: LineStand,
    part: &[u8],
    byte: u8,
) -> LineStand
    requires height { stand.height + 1 < 2 ^ 64 }
    requires count { count_in stand.stage + 1 < 2 ^ 64 }
    ensures value { result ≡ stand_by (aim_of target.now) turn stand part.now byte }
    ensures height { result.height ≤ stand.height + 1 }
    ensures count { count_in result.stage ≤ count_in stand.stage + 1 }
{
    let stage = stage_next(target, stand.stage, part, turn);
    let height = height_next(stand.place, stand.height, byte);
    LineStand {
        place: next(stand.place, byte),
        height: height_by(turn, stage, height),
        stage,
        takes: takes_next(stage, stand.takes, turn),
    }
}

/// Where the first byte of a text stands.
pub(crate) fn stand_at_start() -> LineStand
    ensures { result ≡ begun.stand }
{
    LineStand {
        place: Place::Between,
        height: 0,
        stage: Stage::Ahead { level: 0 },
        takes: false,
    }
}
