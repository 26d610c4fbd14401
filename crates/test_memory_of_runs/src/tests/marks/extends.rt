// One right side extends several lefts, and a copy of one of them.
ghost use Rattle.std.specs.Prelude.{◌≡◌, IfOk};
ghost use Rattle.jx_reduce.specs.Reductions.{IsBefore, SpansIn};

use crate::tests::marks::lists::{depth_of, is_same, marks_of};
use jx_reduce::{Expect, Holder, Outcome, Reductions, Whole};
use std::alloc::{AllocError, Global};
use std::test::Fail;

#[test]
fn one_right_serves_several_lefts(rt: HostRuntime) -> Result<(), Fail> {
    let right = right_of_one(rt.alloc())?;
    let empty = Reductions::new(rt.alloc(), depth_of(1));
    let serves = serves_two(rt.alloc(), &empty, &right)?;
    assert!(rt; serves);
    Ok(())
}

fn right_of_one(alloc: Global) -> Result<Reductions, AllocError>
    ensures { IfOk result (λ r. r.depth ≡ 1) }
{
    let marks = marks_of(alloc, b"n]")?;
    Reductions::of(alloc, &marks, depth_of(1))
}

// Whether it extends a copy of the empty structure and one of its own, and the empty one stays what it was.
fn serves_two(alloc: Global, empty: &Reductions, right: &Reductions) -> Result<bool, AllocError>
    requires before { SpansIn 0 0 empty.now }
    requires left { empty.now.depth ≡ 1 }
    requires right { right.now.depth ≡ 1 }
{
    let copy = empty.copy()?;
    let first = is_extended(copy, right)?;
    let fresh = Reductions::new(alloc, depth_of(1));
    let second = is_extended(fresh, right)?;
    Ok(first && second && is_at_start(empty))
}

fn is_at_start(empty: &Reductions) -> bool {
    empty.entry(Expect::Value).whole()
        == Whole::Went {
            expect: Expect::Value,
            open: 0,
        }
}

// Whether the left, extended by the right, is like the right, and closes one array.
fn is_extended(left: Reductions, right: &Reductions) -> Result<bool, AllocError>
    requires before { IsBefore left right.now }
    requires left { left.depth ≡ 1 }
    requires right { right.now.depth ≡ 1 }
{
    let mut left = left;
    left.extend(right)?;
    Ok(is_same(&left, right) && closes_an_array(&left)? && stops_alone(&left)?)
}

fn closes_an_array(one: &Reductions) -> Result<bool, AllocError>
    requires { one.now.depth ≡ 1 }
{
    match one.entry(Expect::Value).act(&[Holder::Array])? {
        Outcome::Went { expect, holders } => Ok(expect == Expect::After && holders.is_empty()),
        _ => Ok(false),
    }
}

fn stops_alone(one: &Reductions) -> Result<bool, AllocError> {
    let outcome = one.entry(Expect::Value).act(&[])?;
    Ok(matches!(outcome, Outcome::Stopped(1)))
}
