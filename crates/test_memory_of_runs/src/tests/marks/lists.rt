// Token starts and their structures.
ghost use Rattle.std.specs.Prelude.{◌≡◌, ◌≤◌, IfOk, length};
ghost use Rattle.jx_reduce.specs.Offsets.{RisingFrom};

use jx_lex::{Depth, JoinFault, Mark, MarkKind};
use jx_reduce::{Holder, Reduced, Reductions};
use std::alloc::{AllocError, Global};
use test_words::{EXPECTS, Maker, parts_of};

/// The token start of this kind at an offset.
pub(crate) fn mark(kind: MarkKind, at: usize) -> Mark
    ensures { result ≡ record { kind = kind; at = at } }
{
    Mark { kind, at }
}

/// The depth of so many containers, or the default one where there is none such.
pub(crate) fn depth_of(containers: u32) -> Depth
    ensures { containers ≤ 65535 → result ≡ containers }
{
    Depth::new(containers).unwrap_or_default()
}

/// The kind of token start that this byte stands for.
pub(crate) fn kind_of(byte: u8) -> MarkKind {
    test_words::kind_of(byte).unwrap_or(MarkKind::Number)
}

/// The token starts that these bytes stand for, each at the place of its byte.
pub(crate) fn marks_of(alloc: Global, text: &[u8]) -> Result<Vec<Mark>, AllocError>
    ensures { IfOk result (λ marks. RisingFrom 0 marks.items) }
{
    let mut marks = Vec::new(alloc);
    for (at, byte) in text.iter().enumerate() {
        let kind = kind_of(*byte);
        marks.push(Mark { kind, at })?;
    }
    Ok(marks)
}

const HOLDERS: [Holder; 3] = [Holder::Bottom, Holder::Array, Holder::Object];

/// Whether both show the same levels, containers, exits and heights, from each expectation. It takes no memory.
fn shows_the_same(one: &Reduced, other: &Reduced) -> bool {
    one.level_count() == other.level_count()
        && (0..one.level_count()).all(|index| one.level(index) == other.level(index))
        && one.opens() == other.opens()
        && HOLDERS
            .iter()
            .all(|holder| one.exit_of(*holder) == other.exit_of(*holder))
        && one.heights() == other.heights()
}

/// Whether two structures show the same from each expectation. It takes no memory.
pub(crate) fn is_same(one: &Reductions, other: &Reductions) -> bool {
    one.depth() == other.depth()
        && EXPECTS.iter().all(|expect| shows_the_same(one.entry(*expect), other.entry(*expect)))
}

/// Whether two structures are those of both parts of a list, which are made once more.
fn are_both_parts(
    alloc: Global,
    marks: &[Mark],
    cut: usize,
    left: &Reductions,
    right: &Reductions,
) -> Result<bool, AllocError>
    requires rising { RisingFrom 0 marks.now }
    requires cut { cut ≤ length marks.now }
{
    let (first, second) = parts_of(alloc, marks, cut, left.depth(), Maker::AtOnce)?;
    Ok(is_same(left, &first) && is_same(right, &second))
}

/// The structures of both parts of a list, joined. Where the join is refused, the sides that it handed back have to be those that came
/// in, and are joined again.
pub(crate) fn joined_at(
    alloc: Global,
    marks: &[Mark],
    cut: usize,
    depth: Depth,
    maker: Maker,
) -> Result<Option<Reductions>, AllocError>
    requires rising { RisingFrom 0 marks.now }
    requires cut { cut ≤ length marks.now }
{
    let (left, right) = parts_of(alloc, marks, cut, depth, maker)?;
    match left.join(right) {
        Ok(both) => Ok(Some(both)),
        Err(JoinFault { left, right }) => {
            if !are_both_parts(alloc, marks, cut, &left, &right)? {
                return Ok(None);
            }
            Ok(left.join(right).ok())
        }
    }
}
