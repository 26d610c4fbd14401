// Parts are taken in where the bytes before them lead to what they begin with.
ghost use Rattle.std.specs.Prelude.{◌≡◌, ◌+◌, ◌-◌, ◌<◌, ◌≤◌, ◌^◌, All, IfOk, IfSome, IsTrue, drop, length};
ghost use Rattle.jx_each.specs.Machine.{run};
ghost use Rattle.jx_each.specs.inside.Paths.{aim_of, count_in};
ghost use Rattle.jx_each.specs.inside.Fronted.{IsFronted};

use crate::making::make_all;
use crate::section::Section;
use crate::stand::LineStand;
use crate::target::Target;
use std::alloc::AllocError;

/// How far lines were made, and where the next byte stands.
#[derive(Clone, Copy, Debug)]
struct Reached {
    at: usize,
    stand: LineStand,
}

/// Whether two stands are one.
fn is_same(one: LineStand, other: LineStand) -> bool
    ensures { IsTrue result → one ≡ other }
{
    one.place == other.place
        && one.height == other.height
        && one.stage == other.stage
        && one.takes == other.takes
}

/// Makes the lines of the bytes before a part, and takes it in where it was made from where these lead to. A part that
/// begins before them, or ends after all, is left out.
fn take_section(
    target: &Target,
    from: Reached,
    lines: &mut Vec<u8>,
    part: &mut Vec<u8>,
    bytes: &[u8],
    section: Section,
) -> Result<Reached, AllocError>
    requires within { from.at ≤ length bytes.now }
    requires height { from.stand.height + (length bytes.now - from.at) < 2 ^ 64 }
    requires count { count_in from.stand.stage + (length bytes.now - from.at) < 2 ^ 64 }
    requires section { IsFronted (aim_of target.now) bytes.now section }
    ensures within { IfOk result (λ to. (from.at ≤ to.at) × (to.at ≤ length bytes.now)) }
    ensures height { IfOk result (λ to. to.stand.height ≤ from.stand.height + (to.at - from.at)) }
    ensures count { IfOk result (λ to. count_in to.stand.stage ≤ count_in from.stand.stage + (to.at - from.at)) }
    ensures made { IfOk result (λ to. run (aim_of target.now) (record { stand = to.stand; lines = lines.new.items; part = part.new.items }) (drop to.at bytes.now)
        ≡ run (aim_of target.now) (record { stand = from.stand; lines = lines.old.items; part = part.old.items }) (drop from.at bytes.now)) }
{
    let start = section.span.start;
    if start < from.at || bytes.len() < section.span.end {
        return Ok(from);
    }
    let stand = make_all(target, from.stand, lines, part, &bytes[from.at..start])?;
    if !is_same(stand, section.first) || part.as_slice() != section.front.as_slice() {
        return Ok(Reached { at: start, stand });
    }
    lines.extend_from_slice(&section.lines)?;
    *part = section.part;
    Ok(Reached {
        at: section.span.end,
        stand: section.last,
    })
}

/// Takes in a part, where there is one.
fn take_if_any(
    target: &Target,
    from: Reached,
    lines: &mut Vec<u8>,
    part: &mut Vec<u8>,
    bytes: &[u8],
    section: Option<Section>,
) -> Result<Reached, AllocError>
    requires within { from.at ≤ length bytes.now }
    requires height { from.stand.height + (length bytes.now - from.at) < 2 ^ 64 }
    requires count { count_in from.stand.stage + (length bytes.now - from.at) < 2 ^ 64 }
    requires section { IfSome section (IsFronted (aim_of target.now) bytes.now) }
    ensures within { IfOk result (λ to. (from.at ≤ to.at) × (to.at ≤ length bytes.now)) }
    ensures height { IfOk result (λ to. to.stand.height ≤ from.stand.height + (to.at - from.at)) }
    ensures count { IfOk result (λ to. count_in to.stand.stage ≤ count_in from.stand.stage + (to.at - from.at)) }
    ensures made { IfOk result (λ to. run (aim_of target.now) (record { stand = to.stand; lines = lines.new.items; part = part.new.items }) (drop to.at bytes.now)
        ≡ run (aim_of target.now) (record { stand = from.stand; lines = lines.old.items; part = part.old.items }) (drop from.at bytes.now)) }
{
    match section {
        Some(section) => take_section(target, from, lines, part, bytes, section),
        None => Ok(from),
    }
}

/// Takes in bytes, the first of which stands there, by parts of a slice that begins with them, the last one
/// first. It answers what `make_all` does, whatever the parts are.
pub(crate) fn make_by_sections(
    target: &Target,
    stand: LineStand,
    lines: &mut Vec<u8>,
    part: &mut Vec<u8>,
    bytes: &[u8],
    sections: Vec<Option<Section>>,
) -> Result<LineStand, AllocError>
    requires height { stand.height + length bytes.now < 2 ^ 64 }
    requires count { count_in stand.stage + length bytes.now < 2 ^ 64 }
    requires sections { All (λ s. IfSome s (IsFronted (aim_of target.now) bytes.now)) sections.items }
    ensures made { IfOk result (λ next. record { stand = next; lines = lines.new.items; part = part.new.items } ≡ run (aim_of target.now) (record { stand = stand; lines = lines.old.items; part = part.old.items }) bytes.now) }
    ensures height { IfOk result (λ next. next.height ≤ stand.height + length bytes.now) }
    ensures count { IfOk result (λ next. count_in next.stage ≤ count_in stand.stage + length bytes.now) }
{
    let mut sections = sections;
    let mut reached = Reached { at: 0, stand };
    while let Some(section) = sections.pop() {
        reached = take_if_any(target, reached, lines, part, bytes, section)?;
    }
    make_all(target, reached.stand, lines, part, &bytes[reached.at..])
}
