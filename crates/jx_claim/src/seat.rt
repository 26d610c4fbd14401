ghost use Rattle.std.specs.Prelude.{◌≡◌, [], false};
ghost use Rattle.jx_claim.specs.Claimed.{SeatValue, fresh_seat};
ghost use Rattle.jx_claim.specs.inside.Dealt.{view};

use crate::rule::View;
use atomic_table::Seat;
use std::marker::Model;

/// One worker's right to take chunks of the claims that gave it.
#[derive(Drop)]
pub struct ClaimSeat {
    pub(crate) seat: Seat<(), View>,
    pub(crate) number: usize,
    pub(crate) spent: bool,
}

impl Model for ClaimSeat {
    ghost use Rattle.std.specs.Prelude.{◌≡◌, [], if◌then◌else◌};
    ghost use Rattle.jx_claim.specs.Claimed.{SeatValue, seat_code};

    ghost Value = { SeatValue };

    ghost coded = { seat_code };

    ghost view = { λ s. record { id = s.seat.table_id; number = s.number; got = s.seat.me.0.got; spent = s.spent } };

    ghost invariant = { λ s. (s.seat.me.0.seats ≡ 1) × (s.seat.me.0.nones ≡ (if s.spent then 1 else 0)) × (s.seat.me.1 ≡ []) };
}

impl ClaimSeat {
    /// A worker handle that has taken nothing, at its place among the worker handles.
    pub(crate) fn new(seat: Seat<(), View>, number: usize) -> ClaimSeat
        requires { seat.me ≡ (view 1 [] 0, []) }
        ensures { result ≡ fresh_seat seat.table_id number }
    {
        ClaimSeat {
            seat,
            number,
            spent: false,
        }
    }

    /// The place in the vector that `Claims::open` gave, counted from 0.
    pub fn number(&self) -> usize
        ensures { result ≡ self.now.number }
    {
        self.number
    }

    /// Whether it got `None`, after which it takes no more.
    pub fn spent(&self) -> bool
        ensures { result ≡ self.now.spent }
    {
        self.spent
    }
}
