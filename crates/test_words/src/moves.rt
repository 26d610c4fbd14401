// The table of moves, read one token start at a time, and the outcomes of lists of token starts by it.
ghost use Rattle.std.specs.Prelude.{◌≤◌, length};
ghost use Rattle.jx_reduce.specs.Reduced.{depth_of};

use jx_lex::{Depth, Mark, MarkKind};
use jx_reduce::{Expect, Holder, Outcome, Reduced, Reductions, next};
use std::alloc::{AllocError, Global};

/// All expectations in order.
pub const EXPECTS: [Expect; 6] = [
    Expect::Value,
    Expect::ArrayFirst,
    Expect::ObjectFirst,
    Expect::Name,
    Expect::Colon,
    Expect::After,
];

const A: Holder = Holder::Array;

const O: Holder = Holder::Object;

/// Every list of at most three containers.
pub const HOLDER_LISTS: [&[Holder]; 15] = [
    &[],
    &[A],
    &[O],
    &[A, A],
    &[A, O],
    &[O, A],
    &[O, O],
    &[A, A, A],
    &[A, A, O],
    &[A, O, A],
    &[A, O, O],
    &[O, A, A],
    &[O, A, O],
    &[O, O, A],
    &[O, O, O],
];

/// The kind of token start that this letter stands for.
pub fn kind_of(letter: u8) -> Option<MarkKind> {
    match letter {
        b'[' => Some(MarkKind::OpenArray),
        b']' => Some(MarkKind::CloseArray),
        b'{' => Some(MarkKind::OpenObject),
        b'}' => Some(MarkKind::CloseObject),
        b':' => Some(MarkKind::Colon),
        b',' => Some(MarkKind::Comma),
        b's' => Some(MarkKind::String),
        b'n' => Some(MarkKind::Number),
        b't' => Some(MarkKind::True),
        b'f' => Some(MarkKind::False),
        b'z' => Some(MarkKind::Null),
        _ => None,
    }
}

/// The containers that stand open after a token start of this kind, which the table allows.
pub fn follow(open: &mut Vec<Holder>, kind: MarkKind) -> Result<(), AllocError> {
    match kind {
        MarkKind::OpenArray => open.push(Holder::Array)?,
        MarkKind::OpenObject => open.push(Holder::Object)?,
        MarkKind::CloseArray | MarkKind::CloseObject => {
            let _ = open.pop();
        }
        _ => {}
    }
    Ok(())
}

/// The outcome of the token starts by the table of moves, one at a time, from this expectation and over these open containers, of which
/// there are no more than the depth allows.
fn read_by_table(
    alloc: Global,
    marks: &[Mark],
    depth: usize,
    expect: Expect,
    holders: &[Holder],
) -> Result<Outcome, AllocError> {
    let mut open = Vec::from_slice(alloc, holders)?;
    let mut expect = expect;
    for mark in marks {
        let top = open.last().copied().unwrap_or(Holder::Bottom);
        let Some(then) = next(mark.kind, expect, top) else {
            return Ok(Outcome::Stopped(mark.at));
        };
        expect = then;
        follow(&mut open, mark.kind)?;
        if open.len() > depth {
            return Ok(Outcome::TooDeep(mark.at));
        }
    }
    Ok(Outcome::Went {
        expect,
        holders: open,
    })
}

/// Adds what the table makes of the token starts from an expectation, over each of these lists that the depth allows.
fn add_by_table(
    outcomes: &mut Vec<Outcome>,
    alloc: Global,
    marks: &[Mark],
    depth: usize,
    expect: Expect,
    lists: &[&[Holder]],
) -> Result<(), AllocError> {
    for holders in lists {
        if holders.len() <= depth {
            outcomes.push(read_by_table(alloc, marks, depth, expect, holders)?)?;
        }
    }
    Ok(())
}

/// The moves of the table by the token starts, from each expectation and over each of these lists of containers that the depth allows.
pub fn all_by_table(
    alloc: Global,
    marks: &[Mark],
    depth: Depth,
    lists: &[&[Holder]],
) -> Result<Vec<Outcome>, AllocError> {
    let depth = depth.containers() as usize;
    let mut outcomes = Vec::new(alloc);
    for expect in &EXPECTS {
        add_by_table(&mut outcomes, alloc, marks, depth, *expect, lists)?;
    }
    Ok(outcomes)
}

/// How many of the wanted outcomes are those over these lists, in order; none where one is not.
fn count_as_wanted(
    all: &Reductions,
    expect: Expect,
    lists: &[&[Holder]],
    wanted: &[Outcome],
) -> Result<Option<usize>, AllocError> {
    let depth = all.depth().containers() as usize;
    let mut count = 0usize;
    for holders in lists {
        if depth < holders.len() {
            continue;
        }
        if !acts_so(all.entry(expect), holders, wanted.get(count))? {
            return Ok(None);
        }
        count = count.wrapping_add(1);
    }
    Ok(Some(count))
}

/// Whether this is the outcome of the token starts over these containers.
fn acts_so(one: &Reduced, holders: &[Holder], wanted: Option<&Outcome>) -> Result<bool, AllocError>
    requires { length holders.now ≤ depth_of one.now }
{
    let outcome = one.act(holders)?;
    Ok(wanted == Some(&outcome))
}

/// Whether the structure has these outcomes, from each expectation and over each of these lists that the depth allows.
pub fn comes_to(
    all: &Reductions,
    lists: &[&[Holder]],
    wanted: &[Outcome],
) -> Result<bool, AllocError> {
    let mut rest = wanted;
    for expect in &EXPECTS {
        let Some(count) = count_as_wanted(all, *expect, lists, rest)? else {
            return Ok(false);
        };
        rest = rest.get(count..).unwrap_or(&[]);
    }
    Ok(rest.is_empty())
}
