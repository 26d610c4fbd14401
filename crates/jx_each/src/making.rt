// Lines are made of a text's bytes, one byte after another.
ghost use Rattle.std.specs.Prelude.{◌≡◌, ◌+◌, ◌-◌, ◌<◌, ◌≤◌, ◌^◌, ◌++◌, [], Bool, codes, IfOk, IsTrue, OnOk, if◌then◌else◌, length, slice_range, true};
ghost use Rattle.jx_compact.specs.Compact.{kept};
ghost use Rattle.jx_each.specs.Turns.{turn_at};
ghost use Rattle.jx_each.specs.Machine.{Aim, empty_line_of, line_of, lines_next, lines_with, part_at, part_next, part_of_value, run, step};
ghost use Rattle.jx_each.specs.inside.Paths.{aim_of, count_in};
ghost use Rattle.jx_each.specs.inside.Stretches.{spot, spot_in_array};

use crate::blocks::BLOCK;
use crate::copies::push_stretch;
use crate::deep::push_deep;
use crate::elements::make_elements;
use crate::sign::Turn;
use crate::stand::{LineStand, Stage, turn_at};
use crate::stretch::{Stretch, blanks_from, stretch_from};
use crate::target::Target;
use crate::way::stand_by;
use jx_compact::{Place, is_kept};
use std::alloc::AllocError;

/// Appends a byte of an element where it stays.
fn push_kept(part: &mut Vec<u8>, stand: LineStand, byte: u8) -> Result<(), AllocError>
    ensures { OnOk result (part.new.items ≡ part.old.items ++ (if stand.takes then kept stand.place byte else [])) }
{
    if stand.takes {
        if is_kept(stand.place, byte) {
            part.push(byte)?;
        }
    }
    Ok(())
}

/// Appends the line of a value, if there is one.
fn end_value(lines: &mut Vec<u8>, part: &[u8]) -> Result<(), AllocError>
    ensures { OnOk result (lines.new.items ≡ lines.old.items ++ line_of part.now) }
{
    if !part.is_empty() {
        lines.extend_from_slice(part)?;
        lines.push(b'\n')?;
    }
    Ok(())
}

/// Appends an empty line for an element or a member, if there is one.
fn end_empty(lines: &mut Vec<u8>, part: &[u8]) -> Result<(), AllocError>
    ensures { OnOk result (lines.new.items ≡ lines.old.items ++ empty_line_of part.now) }
{
    if part.is_empty() {
        return Ok(());
    }
    lines.push(b'\n')?;
    Ok(())
}

/// Appends the line of a name and a value.
fn end_pair(lines: &mut Vec<u8>, part: &[u8]) -> Result<(), AllocError>
    ensures { OnOk result (lines.new.items ≡ lines.old.items ++ (part.now ++ codes "}\n")) }
{
    lines.extend_from_slice(part)?;
    lines.extend_from_slice(b"}\n")
}

/// Appends the line of what is kept, where that is an element or the name of a member.
fn end_line(lines: &mut Vec<u8>, stage: Stage, part: &[u8]) -> Result<(), AllocError>
    ensures { OnOk result (lines.new.items ≡ lines_with stage lines.old.items part.now) }
{
    match stage {
        Stage::Array => end_value(lines, part),
        Stage::Object => end_value(lines, part),
        Stage::Pair => end_pair(lines, part),
        Stage::Names => end_value(lines, part),
        Stage::Empties => end_empty(lines, part),
        Stage::Name => Ok(()),
        Stage::Members { level: _ } => Ok(()),
        Stage::Ahead { level: _ } => Ok(()),
        Stage::Elements { level: _, count: _ } => Ok(()),
        Stage::Over => Ok(()),
    }
}

/// Ends what ends with a byte that does this.
fn end_lines(lines: &mut Vec<u8>, stage: Stage, turn: Turn, part: &[u8]) -> Result<(), AllocError>
    ensures { OnOk result (lines.new.items ≡ lines_next stage turn lines.old.items part.now) }
{
    match turn {
        Turn::Next => end_line(lines, stage, part),
        Turn::Leave => end_line(lines, stage, part),
        Turn::EnterArray => Ok(()),
        Turn::EnterObject => Ok(()),
        Turn::Value => Ok(()),
        Turn::Past => Ok(()),
        Turn::Stay => Ok(()),
    }
}

/// Lets go what was kept, and keeps what stands in front of an element or of a name, by the stage there.
fn begin_part(part: &mut Vec<u8>, stage: Stage) -> Result<(), AllocError>
    ensures { OnOk result (part.new.items ≡ part_at stage) }
{
    part.clear();
    match stage {
        Stage::Name => part.extend_from_slice(b"{\"name\":"),
        Stage::Array => Ok(()),
        Stage::Object => Ok(()),
        Stage::Pair => Ok(()),
        Stage::Names => Ok(()),
        Stage::Empties => Ok(()),
        Stage::Members { level: _ } => Ok(()),
        Stage::Ahead { level: _ } => Ok(()),
        Stage::Elements { level: _, count: _ } => Ok(()),
        Stage::Over => Ok(()),
    }
}

/// Keeps what stands between a name and its value where both are written, by the stage in front of the colon. A name stays
/// that is written alone or counted; else lets go what was kept.
fn begin_value(part: &mut Vec<u8>, stage: Stage) -> Result<(), AllocError>
    ensures { OnOk result (part.new.items ≡ part_of_value stage part.old.items) }
{
    match stage {
        Stage::Name => part.extend_from_slice(b",\"value\":"),
        Stage::Names => Ok(()),
        Stage::Empties => Ok(()),
        Stage::Array => {
            part.clear();
            Ok(())
        }
        Stage::Object => {
            part.clear();
            Ok(())
        }
        Stage::Pair => {
            part.clear();
            Ok(())
        }
        Stage::Members { level: _ } => {
            part.clear();
            Ok(())
        }
        Stage::Ahead { level: _ } => {
            part.clear();
            Ok(())
        }
        Stage::Elements { level: _, count: _ } => {
            part.clear();
            Ok(())
        }
        Stage::Over => {
            part.clear();
            Ok(())
        }
    }
}

/// Keeps what stays of what stands there, or what the byte begins that leads to another stage.
fn keep_part(
    part: &mut Vec<u8>,
    stand: LineStand,
    stage: Stage,
    turn: Turn,
    byte: u8,
) -> Result<(), AllocError>
    ensures { OnOk result (part.new.items ≡ part_next turn stand stage part.old.items byte) }
{
    match turn {
        Turn::Stay => push_kept(part, stand, byte),
        Turn::EnterArray => begin_part(part, stage),
        Turn::EnterObject => begin_part(part, stage),
        Turn::Next => begin_part(part, stage),
        Turn::Value => begin_value(part, stand.stage),
        Turn::Leave => {
            part.clear();
            Ok(())
        }
        Turn::Past => {
            part.clear();
            Ok(())
        }
    }
}

/// Takes in a byte, and answers where the byte after it stands.
fn make(
    target: &Target,
    stand: LineStand,
    lines: &mut Vec<u8>,
    part: &mut Vec<u8>,
    byte: u8,
) -> Result<LineStand, AllocError>
    requires height { stand.height + 1 < 2 ^ 64 }
    requires count { count_in stand.stage + 1 < 2 ^ 64 }
    ensures made { IfOk result (λ next. record { stand = next; lines = lines.new.items; part = part.new.items } ≡ step (aim_of target.now) (record { stand = stand; lines = lines.old.items; part = part.old.items }) byte) }
    ensures height { IfOk result (λ next. next.height ≤ stand.height + 1) }
    ensures count { IfOk result (λ next. count_in next.stage ≤ count_in stand.stage + 1) }
{
    let turn = turn_at(stand, byte);
    let next = stand_by(target, turn, stand, part, byte);
    end_lines(lines, stand.stage, turn, part)?;
    keep_part(part, stand, next.stage, turn, byte)?;
    Ok(next)
}

/// Whether this is the container itself, an array.
#[inline(always)]
fn is_array(stage: Stage) -> bool
    ensures { IsTrue result → stage ≡ Stage.Array }
{
    match stage {
        Stage::Array => true,
        Stage::Object => false,
        Stage::Name => false,
        Stage::Pair => false,
        Stage::Names => false,
        Stage::Empties => false,
        Stage::Members { level: _ } => false,
        Stage::Ahead { level: _ } => false,
        Stage::Elements { level: _, count: _ } => false,
        Stage::Over => false,
    }
}

/// Whether a byte follows an element of the container, an array, where another one follows.
#[inline(always)]
fn is_border(stand: LineStand, byte: u8) -> bool
    ensures { IsTrue result → (stand ≡ spot_in_array stand.takes) × (byte ≡ 0x2c) }
{
    if byte != b',' || stand.height != 1 {
        return false;
    }
    match stand.place {
        Place::Inside | Place::Escaped => false,
        Place::Between => is_array(stand.stage),
    }
}

/// Takes in a comma after an element of an array, and answers where the byte after it stands. That is what
/// `make` does there, in less time.
#[inline(always)]
fn end_element(lines: &mut Vec<u8>, part: &mut Vec<u8>) -> Result<LineStand, AllocError>
    ensures made { IfOk result (λ next. (aim : Aim) (takes : Bool) → record { stand = next; lines = lines.new.items; part = part.new.items } ≡ step aim (record { stand = spot_in_array takes; lines = lines.old.items; part = part.old.items }) 0x2c) }
    ensures next { IfOk result (λ next. next ≡ spot_in_array true) }
{
    end_value(lines, part)?;
    part.clear();
    Ok(LineStand {
        place: Place::Between,
        height: 1,
        stage: Stage::Array,
        takes: true,
    })
}

/// Whether a byte stands in an array whose elements are written.
#[inline(always)]
fn is_in_elements(stand: LineStand) -> bool
    ensures { IsTrue result → (stand.stage ≡ Stage.Array) × (stand.takes ≡ true) × (1 ≤ stand.height) }
{
    is_array(stand.stage) && stand.takes && stand.height >= 1
}

/// Whether the next bytes are so many that it takes less time to move what is kept.
#[inline(always)]
fn is_long(bytes: &[u8], at: usize) -> bool
    requires { at ≤ length bytes.now }
{
    bytes.len() - at > 4 * BLOCK
}

/// Takes in blocks from a byte on that stands there, as far as that takes less time, and answers where the
/// byte after them stands. What is kept of an element is moved only where it is shorter than the bytes, or where it is
/// moved at once.
#[inline(always)]
fn make_blocks(
    stand: LineStand,
    lines: &mut Vec<u8>,
    part: &mut Vec<u8>,
    bytes: &[u8],
    at: usize,
) -> Result<Stretch, AllocError>
    requires within { at ≤ length bytes.now }
    requires fits { stand.height + (length bytes.now - at) < 2 ^ 64 }
    ensures bounds { IfOk result (λ deep. (at ≤ deep.end) × (deep.end ≤ length bytes.now)) }
    ensures high { IfOk result (λ deep. deep.height ≤ stand.height + (deep.end - at)) }
    ensures made { IfOk result (λ deep. (aim : Aim) → run aim (record { stand = stand; lines = lines.old.items; part = part.old.items }) (slice_range bytes.now at deep.end)
        ≡ spot deep.place deep.height stand.stage stand.takes lines.new.items part.new.items) }
{
    let is_short = lines.is_empty() || part.len() <= bytes.len();
    if is_in_elements(stand) && is_short && is_long(bytes, at) {
        make_elements(lines, part, stand.place, stand.height, bytes, at)
    } else {
        push_deep(part, stand.place, stand.height, stand.takes, bytes, at)
    }
}

/// The stand at another place and height.
#[inline(always)]
fn moved(stand: LineStand, place: Place, height: usize) -> LineStand
    ensures { result ≡ record { place = place; height = height; stage = stand.stage; takes = stand.takes } }
{
    LineStand {
        place,
        height,
        stage: stand.stage,
        takes: stand.takes,
    }
}

/// Takes in bytes, the first of which stands there, and answers where the byte after them stands.
pub(crate) fn make_all(
    target: &Target,
    stand: LineStand,
    lines: &mut Vec<u8>,
    part: &mut Vec<u8>,
    bytes: &[u8],
) -> Result<LineStand, AllocError>
    requires height { stand.height + length bytes.now < 2 ^ 64 }
    requires count { count_in stand.stage + length bytes.now < 2 ^ 64 }
    ensures made { IfOk result (λ next. record { stand = next; lines = lines.new.items; part = part.new.items } ≡ run (aim_of target.now) (record { stand = stand; lines = lines.old.items; part = part.old.items }) bytes.now) }
    ensures height { IfOk result (λ next. next.height ≤ stand.height + length bytes.now) }
    ensures count { IfOk result (λ next. count_in next.stage ≤ count_in stand.stage + length bytes.now) }
{
    let mut stand = stand;
    let mut at = 0;
    while at < bytes.len() {
        let deep = make_blocks(stand, lines, part, bytes, at)?;
        stand = moved(stand, deep.place, deep.height);
        let found = stretch_from(stand.place, stand.height, bytes, deep.end);
        push_stretch(part, stand.takes, bytes, deep.end, found.end)?;
        stand = moved(stand, found.place, found.height);
        if found.end < bytes.len() && is_border(stand, bytes[found.end]) {
            stand = end_element(lines, part)?;
            at = found.end + 1;
        } else {
            at = blanks_from(found.place, bytes, found.end);
            if at == deep.end && at < bytes.len() {
                stand = make(target, stand, lines, part, bytes[at])?;
                at += 1;
            }
        }
    }
    Ok(stand)
}
