ghost use Rattle.std.specs.Prelude.{◌≡◌, ℕ, ◌+◌, ◌<◌, [], ◌∷◌, ◌++◌, true, false, All, IfOk, IfSome, MatchOption, length, vec_len, count_by};
ghost use Rattle.jx_claim.specs.Claimed.{ClaimsValue, AreFresh, AllSeats, EachGotOnce};
ghost use Rattle.jx_claim.specs.inside.Dealt.{IsDraw, view};
ghost use Rattle.jx_claim.specs.Undrawn.{undrawn, Draws};

use crate::drawn::Drawn;
use crate::rule::{ClaimRule, Count, CutSeat, DrawStep, JoinSeats, Terms, View};
use crate::seat::ClaimSeat;
use atomic_table::{Seat, Table};
use jx_crew::{PieceNo, Workers};
use std::alloc::{AllocError, Global};
use std::marker::{Brand, Model};

/// A chunk queue: the chunks that are left to be taken, in one word, the number that the next worker finds. Threads
/// share it by reference.
#[derive(Drop)]
pub struct Claims {
    table: Table<(), View, Terms, ClaimRule, Global>,
    pieces: u32,
    workers: u8,
}

impl Model for Claims {
    ghost use Rattle.std.specs.Prelude.{◌≡◌, ◌<◌, ◌≤◌};
    ghost use Rattle.jx_claim.specs.Claimed.{ClaimsValue, claims_code};

    ghost Value = { ClaimsValue };

    ghost coded = { claims_code };

    ghost view = { λ c. record { id = c.table.shared.table_id; pieces = c.pieces; workers = c.workers } };

    ghost invariant = { λ c. (c.table.shared.table_id.words ≡ 1) × (c.table.shared.table_id.slots ≡ 0) × (c.table.shared.key.pieces ≡ c.pieces) × (c.table.shared.key.workers ≡ c.workers) × (0 < c.workers) × (c.workers ≤ 64) };
}

impl Claims {
    /// Claims on the chunks below a count, and one worker handle for each worker. It fails only when out of memory.
    pub fn open(
        alloc: Global,
        pieces: u32,
        workers: Workers,
    ) -> Result<(Claims, Vec<ClaimSeat>), AllocError>
        ensures claims { IfOk result (λ r. (r.0.pieces ≡ pieces) × (r.0.workers ≡ workers)) }
        ensures len { IfOk result (λ r. vec_len r.1 ≡ workers) }
        ensures seats { IfOk result (λ r. AreFresh r.0.id r.1.items) }
    {
        let count = workers.count();
        let terms = Terms {
            pieces,
            workers: count,
        };
        let (table, seat) = Table::of_words(alloc, &[0], &terms)?;
        let claims = Claims {
            table,
            pieces,
            workers: count,
        };
        let seats = claims.seats(alloc, seat)?;
        Ok((claims, seats))
    }

    /// Cuts the first worker handle into one for each worker.
    fn seats(&self, alloc: Global, mut rest: Seat<(), View>) -> Result<Vec<ClaimSeat>, AllocError>
        requires { (rest.table_id ≡ self.now.id) × (rest.me ≡ (view self.now.workers [] 0, [])) }
        ensures len { IfOk result (λ v. vec_len v ≡ self.now.workers) }
        ensures seats { IfOk result (λ v. AreFresh self.now.id v.items) }
    {
        let mut seats = Vec::new(alloc);
        let last = self.workers - 1;
        for number in 0..last {
            let seat = self.table.shared.split_seat::<CutSeat>(&mut rest);
            seats.push(ClaimSeat::new(seat, usize::from(number)))?;
        }
        seats.push(ClaimSeat::new(rest, usize::from(last)))?;
        Ok(seats)
    }

    /// One atomic step of a worker handle: the number that it finds, and one more in the word.
    fn take<C: Count>(&self, seat: &mut Seat<(), View>) -> u64
        requires pieces { C.pieces ≡ self.now.pieces }
        requires seat { (seat.old.table_id ≡ self.now.id) × (seat.old.me.0.seats ≡ 1) × (seat.old.me.0.nones ≡ 0) }
        ensures below { All (λ n. n < result) seat.old.me.0.got }
        ensures draw { IsDraw C.pieces result seat.old.me.0 seat.new.me.0 }
        ensures seat { (seat.new.table_id ≡ seat.old.table_id) × (seat.new.me.1 ≡ seat.old.me.1) }
    {
        self.table.shared.fetch_add::<DrawStep<C>>(seat, 0, 1)
    }

    /// Takes the next chunk, or `None` where all chunks had been taken. It takes no memory and waits for nobody. It is
    /// one atomic step on the word that it finds, which all numbers that the worker handle got before are below: where
    /// the word is a chunk, it is the first untaken one, and the step leaves the others untaken; else none is untaken.
    /// That no other worker handle gets the same number is shown by `close`.
    pub fn draw(&self, seat: &mut ClaimSeat) -> Option<PieceNo>
        requires seat { seat.old.id ≡ self.now.id }
        requires unspent { seat.old.spent ≡ false }
        ensures seat { (seat.new.id ≡ seat.old.id) × (seat.new.number ≡ seat.old.number) }
        ensures drew { MatchOption result ((seat.new.got ≡ seat.old.got) × (seat.new.spent ≡ true)) (λ p. (seat.new.got ≡ seat.old.got ++ p.0 ∷ []) × (seat.new.spent ≡ false)) }
        ensures piece { IfSome result (λ p. p.0 < self.now.pieces) }
        ensures undrawn { (word : ℕ) × All (λ n. n < word) seat.old.got × MatchOption result (undrawn word self.now.pieces ≡ []) (λ p. (p.0 ≡ word) × Draws (undrawn word self.now.pieces) p.0 (undrawn (word + 1) self.now.pieces)) }
    {
        let found = self.take::<Brand>(&mut seat.seat);
        if found < u64::from(self.pieces) {
            Some(PieceNo(found as u32))
        } else {
            seat.spent = true;
            None
        }
    }

    /// Takes all worker handles back. The numbers that they got are those below the count that it names, each in one
    /// worker handle once; where a worker handle got `None`, that count is the number of chunks. It takes no memory and
    /// waits for nobody.
    pub fn close(self, mut seats: Vec<ClaimSeat>) -> Drawn
        requires all { AllSeats self seats.items }
        ensures some { 0 < length seats.items }
        ensures got { EachGotOnce seats.items result.pieces }
        ensures spent { 0 < count_by (λ s. s.spent) seats.items → result.pieces ≡ self.pieces }
    {
        let Claims {
            table,
            pieces,
            workers: _,
        } = self;
        let Some(first) = seats.pop() else {
            unreachable!()
        };
        let ClaimSeat {
            seat: mut all,
            number: _,
            spent: _,
        } = first;
        while let Some(next) = seats.pop() {
            let ClaimSeat {
                seat,
                number: _,
                spent: _,
            } = next;
            table.shared.join_seat::<JoinSeats>(&mut all, seat);
        }
        let closed = table.close_with(all);
        let next = closed.word(0);
        closed.free();
        Drawn {
            pieces: next.min(u64::from(pieces)) as u32,
        }
    }
}
