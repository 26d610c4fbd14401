// The outcome of a structure from one expectation, as it is shown.
ghost use Rattle.std.specs.Prelude.{◌≡◌, ◌≤◌, List, [], IfOk, length, reverse};
ghost use Rattle.jx_reduce.specs.Fits.{IsOfSize};
ghost use Rattle.jx_reduce.specs.Outcome.{reading_of};
ghost use Rattle.jx_reduce.specs.Reduced.{answer_of, depth_of, form_in};
ghost use Rattle.jx_reduce.specs.Structure.{answer_from};
ghost use Rattle.jx_reduce.specs.Whole.{whole_of};
ghost use Rattle.jx_reduce.specs.declared.table.holder.Holder.{Holder};

use crate::forms::structure::Structure;
use crate::reducing::reduced::Reduced;
use crate::table::expect::Expect;
use crate::table::holder::Holder;
use crate::table::outcome::Outcome;
use crate::table::whole::Whole;
use jx_lex::Depth;
use std::alloc::AllocError;
use std::marker::Model;

/// A view of a structure from one expectation.
#[derive(Drop)]
pub struct EntryView<'a> {
    pub(crate) structure: &'a Structure,
    pub(crate) expect: Expect,
}

impl<'a> Model for EntryView<'a> {
    ghost use Rattle.jx_reduce.specs.Structure.{EntryValue};

    ghost Value = { EntryValue };

    ghost view = { λ v. record { structure = v.structure.now; expect = v.expect } };
}

impl<'a> EntryView<'a> {
    /// The number of containers that may stand open at once.
    pub fn depth(&self) -> Depth
        ensures { result ≡ self.now.structure.depth }
    {
        self.structure.depth()
    }

    /// The outcome of the tokens over these open containers, outermost first and none of them `Bottom`. The earlier of
    /// two offsets is answered, and `Stopped` where they are equal. It fails only when out of memory.
    pub fn act(&self, holders: &[Holder]) -> Result<Outcome, AllocError>
        requires { length holders.now ≤ self.now.structure.depth }
        ensures { IfOk result (λ o. reading_of o ≡ answer_from self.now (reverse holders.now)) }
    {
        self.structure.act(self.expect, holders)
    }

    /// The outcome that `act` answers on the empty list, with the number of open containers in place of their list. It
    /// takes no memory.
    pub fn whole(&self) -> Whole
        ensures { result ≡ whole_of (answer_from self.now []) }
    {
        self.structure.whole(self.expect)
    }

    /// The form of the tokens, which is made of the first of them and of the form that is kept of those after them. It
    /// fails only when out of memory.
    pub fn reduced(&self) -> Result<Reduced, AllocError>
        ensures depth { IfOk result (λ r. depth_of r ≡ self.now.structure.depth) }
        ensures answers { IfOk result (λ r. (holders : List Holder) → length holders ≤ self.now.structure.depth → answer_of r holders ≡ answer_from self.now holders) }
        ensures size { IfOk result (λ r. IsOfSize self.now.structure.depth (form_in r)) }
    {
        self.structure.reduced(self.expect)
    }
}
