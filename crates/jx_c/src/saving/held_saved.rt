// A saved index as C holds it, with what goes on by it: memory of the library behind one pointer.
ghost use Rattle.std.specs.Prelude.{◌≡◌, MatchOption, None, Option, Some};
ghost use Rattle.jx_c.specs.declared.saving.opened.OpenedIndex.{OpenedIndex};

use crate::saving::opened::OpenedIndex;
use crate::shapes::handle::Handle;
use std::alloc::Global;
use std::marker::Model;
use std::mem::replace;

/// The handle of an index, or of none. C moves it, and leaves what stands in it to the library.
#[repr(C)]
pub struct JxSaved {
    // where the index stands; null for none
    inside: *mut u8,
    pub ghost held: { Option OpenedIndex },
}

impl Model for JxSaved {
    ghost use Rattle.jx_c.specs.Held.{held_at};
    ghost use Rattle.jx_c.specs.contracts.saving.opened.OpenedIndex as opened;

    ghost also_owns = { λ d. held_at opened.the_row d.inside d.held };
}

impl JxSaved {
    /// Makes what C holds of a handle.
    fn of(handle: Handle<OpenedIndex>) -> JxSaved
        ensures { result.held ≡ handle.held }
    {
        let Handle { at } = handle;
        let inside = at as *mut u8;
        JxSaved { inside }
    }

    /// Gives the handle of what C held.
    fn into_handle(self) -> Handle<OpenedIndex>
        ensures { result.held ≡ self.held }
    {
        let JxSaved { inside } = self;
        let at = inside as *mut OpenedIndex;
        Handle { at }
    }

    /// Puts an index in, or none, and gives what was there.
    pub fn replace(
        &mut self,
        alloc: Global,
        opened: Option<Box<OpenedIndex>>,
    ) -> Option<Box<OpenedIndex>>
        ensures put { MatchOption opened (self.new.held ≡ None) (λ d. self.new.held ≡ Some d.value) }
        ensures taken { MatchOption result (self.old.held ≡ None) (λ d. self.old.held ≡ Some d.value) }
    {
        let next = JxSaved::of(Handle::of(opened));
        replace(self, next).into_handle().into_box(alloc)
    }
}
