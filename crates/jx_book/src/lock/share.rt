ghost use Rattle.std.specs.Prelude.{◌≡◌, ◌+◌};
ghost use Rattle.jx_book.specs.Shares.{ShareValue, share};

use std::marker::Model;
use std::sync::ledger;
use std::sync::ledger::Ledger;

/// One worker's part of an accumulator's totals: the bytes that it put, and those that it took out.
#[derive(Drop)]
pub struct Share<P: Ledger, T: Ledger> {
    put: ledger::Share<P>,
    taken: ledger::Share<T>,
    total_put: u128,
    total_taken: u128,
}

impl<P: Ledger, T: Ledger> Model for Share<P, T> {
    ghost use Rattle.std.specs.Prelude.{◌≡◌};
    ghost use Rattle.jx_book.specs.Shares.{ShareValue, share};

    ghost Value = { ShareValue };

    ghost view = { λ s. share s.total_put s.total_taken };

    ghost invariant = { λ s. (s.put.parts ≡ 1) × (s.taken.parts ≡ 1) × (s.put.amount ≡ s.total_put) × (s.taken.amount ≡ s.total_taken) };
}

impl<P: Ledger, T: Ledger> Share<P, T> {
    /// Nothing put and nothing taken, with one part of each ledger.
    pub(crate) fn new(put: ledger::Share<P>, taken: ledger::Share<T>) -> Share<P, T>
        requires { (put.parts ≡ 1) × (taken.parts ≡ 1) × (put.amount ≡ 0) × (taken.amount ≡ 0) }
        ensures { result ≡ share 0 0 }
    {
        Share {
            put,
            taken,
            total_put: 0,
            total_taken: 0,
        }
    }

    /// The number of bytes that it put.
    pub fn total_put(&self) -> u128
        ensures { result ≡ self.now.put }
    {
        self.total_put
    }

    /// The number of bytes that it took out.
    pub fn total_taken(&self) -> u128
        ensures { result ≡ self.now.taken }
    {
        self.total_taken
    }

    /// Adds to the bytes put, here and in the ledger, whose total is `total` then.
    pub(crate) fn add_put(&mut self, book: &mut ledger::Book<P>, amount: usize, total: u128)
        requires { book.old.total + amount ≡ total }
        ensures book { book.new.total ≡ total }
        ensures share { self.new ≡ share (self.old.put + amount) self.old.taken }
    {
        book.add(&mut self.put, amount as u64);
        book.audit(&mut self.put);
        self.total_put += amount as u128;
    }

    /// Adds to the bytes taken, here and in the ledger, whose total is `total` then.
    pub(crate) fn add_taken(&mut self, book: &mut ledger::Book<T>, amount: usize, total: u128)
        requires { book.old.total + amount ≡ total }
        ensures book { book.new.total ≡ total }
        ensures share { self.new ≡ share self.old.put (self.old.taken + amount) }
    {
        book.add(&mut self.taken, amount as u64);
        book.audit(&mut self.taken);
        self.total_taken += amount as u128;
    }

    /// Its parts of the ledgers.
    pub(crate) fn into_parts(self) -> (ledger::Share<P>, ledger::Share<T>)
        ensures parts { (result.0.parts ≡ 1) × (result.1.parts ≡ 1) }
        ensures amounts { (result.0.amount ≡ self.put) × (result.1.amount ≡ self.taken) }
    {
        let Share {
            put,
            taken,
            total_put: _,
            total_taken: _,
        } = self;
        (put, taken)
    }
}
