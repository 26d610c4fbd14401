// A place in the reading of a text.
ghost use Rattle.std.specs.Prelude.{◌≡◌, true};
ghost use Rattle.jx_edit.specs.inside.Places.{came_to, origin};
ghost use Rattle.jx_run.specs.Laws.{verdict_of};

use jx_lex::{LexExit, LexState};
use jx_reduce::{Expect, Holder, Whole};
use jx_run::{Verdict, verdict_from};
use std::alloc::Global;
use std::marker::Model;

/// A place in the reading of a text: the lexical state, what may stand next, and the open containers, outermost first.
#[derive(Drop)]
pub(crate) struct Place {
    pub(crate) state: LexState,
    pub(crate) expect: Expect,
    pub(crate) holders: Vec<Holder>,
}

impl Model for Place {
    ghost use Rattle.std.specs.Prelude.{reverse};
    ghost use Rattle.jx_edit.specs.inside.Places.{PlaceValue};

    ghost Value = { PlaceValue };

    ghost view = { λ p. record { state = p.state; expect = p.expect; holders = reverse p.holders.items } };
}

fn is_state(one: LexState, other: LexState) -> bool
    ensures { result ≡ true → one ≡ other }
{
    one == other
}

fn is_expect(one: Expect, other: Expect) -> bool
    ensures { result ≡ true → one ≡ other }
{
    one == other
}

fn are_same(some: &[Holder], others: &[Holder]) -> bool
    ensures { result ≡ true → some.now ≡ others.now }
{
    if some.len() != others.len() {
        return false;
    }
    for place in 0..some.len() {
        if some[place] != others[place] {
            return false;
        }
    }
    true
}

impl Place {
    /// Where a text begins: between tokens, with a value expected and no container open. It takes no memory.
    pub(crate) fn origin(alloc: Global) -> Place
        ensures { result ≡ origin }
    {
        Place {
            state: LexState::Gap,
            expect: Expect::Value,
            holders: Vec::new(alloc),
        }
    }

    /// Whether the other is the same place.
    pub(crate) fn is_same(&self, other: &Place) -> bool
        ensures { result ≡ true → self.now ≡ other.now }
    {
        if !is_state(self.state, other.state) {
            return false;
        }
        if !is_expect(self.expect, other.expect) {
            return false;
        }
        are_same(&self.holders, &other.holders)
    }

    /// The verdict on a text that led here.
    pub(crate) fn verdict(&self) -> Verdict
        ensures { result ≡ verdict_of (came_to self.now) }
    {
        let whole = Whole::Went {
            expect: self.expect,
            open: self.holders.len(),
        };
        verdict_from(LexExit::State(self.state), whole)
    }
}
