// A reader of lines as C holds it: memory of the library behind one pointer.
ghost use Rattle.std.specs.Prelude.{◌≡◌, MatchOption, None, Option, Some};
ghost use Rattle.jx_ndjson.specs.Tally.{TallyValue};

use crate::shapes::handle::Handle;
use jx_ndjson::LineTally;
use std::alloc::Global;
use std::marker::Model;
use std::mem::replace;

/// The handle of a reader of lines, or of none. C moves it, and leaves what stands in it to the library.
#[repr(C)]
pub struct JxLines {
    // where the reader stands; null for none
    inside: *mut u8,
    pub ghost held: { Option TallyValue },
}

impl Model for JxLines {
    ghost use Rattle.jx_c.specs.Held.{held_at};
    ghost use Rattle.jx_ndjson.specs.contracts.line_tally.LineTally as tally;

    ghost also_owns = { λ d. held_at tally.the_row d.inside d.held };
}

impl JxLines {
    /// Makes what C holds of a handle.
    fn of(handle: Handle<LineTally>) -> JxLines
        ensures { result.held ≡ handle.held }
    {
        let Handle { at } = handle;
        let inside = at as *mut u8;
        JxLines { inside }
    }

    /// Gives the handle of what C held.
    fn into_handle(self) -> Handle<LineTally>
        ensures { result.held ≡ self.held }
    {
        let JxLines { inside } = self;
        let at = inside as *mut LineTally;
        Handle { at }
    }

    /// Puts a reader in, or none, and gives what was there.
    pub fn replace(&mut self, alloc: Global, kept: Option<Box<LineTally>>) -> Option<Box<LineTally>>
        ensures put { MatchOption kept (self.new.held ≡ None) (λ d. self.new.held ≡ Some d.value) }
        ensures taken { MatchOption result (self.old.held ≡ None) (λ d. self.old.held ≡ Some d.value) }
    {
        let next = JxLines::of(Handle::of(kept));
        replace(self, next).into_handle().into_box(alloc)
    }
}
