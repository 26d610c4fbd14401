// An index as C holds it: memory of the library behind one pointer.
ghost use Rattle.std.specs.Prelude.{◌≡◌, MatchOption, None, Option, Some};
ghost use Rattle.jx_index.specs.Indexed.{IndexedValue};

use crate::shapes::handle::Handle;
use crate::texts::catalog::Catalog;
use std::alloc::Global;
use std::marker::Model;
use std::mem::replace;

/// The handle of an index, or of none. C moves it, and leaves what stands in it to the library.
#[repr(C)]
pub struct JxIndex {
    // where the index stands; null for none
    inside: *mut u8,
    pub ghost held: { Option IndexedValue },
}

impl Model for JxIndex {
    ghost use Rattle.jx_c.specs.Held.{held_at};
    ghost use Rattle.jx_c.specs.contracts.texts.catalog.Catalog as catalog;

    ghost also_owns = { λ d. held_at catalog.the_row d.inside d.held };
}

impl JxIndex {
    /// Makes what C holds of a handle.
    fn of(handle: Handle<Catalog>) -> JxIndex
        ensures { result.held ≡ handle.held }
    {
        let Handle { at } = handle;
        let inside = at as *mut u8;
        JxIndex { inside }
    }

    /// Gives the handle of what C held.
    fn into_handle(self) -> Handle<Catalog>
        ensures { result.held ≡ self.held }
    {
        let JxIndex { inside } = self;
        let at = inside as *mut Catalog;
        Handle { at }
    }

    /// Puts an index in, or none, and gives what was there.
    pub fn replace(&mut self, alloc: Global, index: Option<Box<Catalog>>) -> Option<Box<Catalog>>
        ensures put { MatchOption index (self.new.held ≡ None) (λ d. self.new.held ≡ Some d.value) }
        ensures taken { MatchOption result (self.old.held ≡ None) (λ d. self.old.held ≡ Some d.value) }
    {
        let next = JxIndex::of(Handle::of(index));
        replace(self, next).into_handle().into_box(alloc)
    }
}
