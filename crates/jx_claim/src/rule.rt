// The invariant of the claim word and the worker handles, and the three kinds of atomic step that may be taken on them.
use atomic_table::{Join, Play, Split, TableRule};
use std::collections::LinkedList;
use std::marker::{Brand, PhantomData};

/// The arguments with which a chunk queue is opened.
#[derive(Drop)]
pub struct Terms {
    pub pieces: u32,
    pub workers: u8,
}

/// The knowledge of a worker handle: for how many worker handles it stands, the numbers that it got, and how often it
/// got `None`. No value of it is ever made: it is used in proofs alone.
pub struct View {
    pub seats: u64,
    pub got: LinkedList<u64>,
    pub nones: u64,
}

/// The rule of the table that holds the claim word: of which views a worker handle may be, and the first one.
pub struct ClaimRule;

impl TableRule<(), View, Terms> for ClaimRule {
    ghost use Rattle.jx_claim.specs.inside.Dealt.{Dealt, view};
    ghost use Rattle.std.specs.Prelude.{[]};

    ghost holds = { Dealt };

    ghost first = { λ k. view k.workers [] 0 };
}

/// How many chunks there are, for a step, which cannot read the table's terms. A call picks it.
pub trait Count {
    ghost use Rattle.std.specs.Prelude.{ℕ};

    ghost pieces: { ℕ };
}

impl Count for Brand {
    ghost use Rattle.std.specs.Prelude.{ℕ};

    ghost pieces = { 0 };
}

/// The step that takes a chunk.
pub struct DrawStep<C> {
    of: PhantomData<C>,
}

impl<C: Count> Play<(), View> for DrawStep<C> {
    ghost use Rattle.jx_claim.specs.inside.Dealt.{DrawsFrom};

    ghost then = { DrawsFrom C.pieces };
}

/// The step that cuts one worker handle off those for which a worker handle stands.
pub struct CutSeat;

impl Split<View> for CutSeat {
    ghost use Rattle.std.specs.Prelude.{◌-◌, []};
    ghost use Rattle.jx_claim.specs.inside.Dealt.{view};

    ghost left = { λ v. view (v.seats - 1) v.got v.nones };

    ghost right = { λ v. view 1 [] 0 };
}

/// The step that joins a worker handle to another; the one joined away stands for no worker handle and holds nothing.
pub struct JoinSeats;

impl Join<View> for JoinSeats {
    ghost use Rattle.std.specs.Prelude.{[]};
    ghost use Rattle.jx_claim.specs.inside.Dealt.{view, both};

    ghost both = { both };

    ghost spent = { view 0 [] 0 };
}
