// A shelf as C holds it: memory of the library behind one pointer.
ghost use Rattle.std.specs.Prelude.{◌≡◌, MatchOption, None, Option, Some};
ghost use Rattle.jx_shelf.specs.Shelved.{NoteValue};

use crate::shapes::handle::Handle;
use crate::texts::shelf_share::ShelfShare;
use std::alloc::Global;
use std::marker::Model;
use std::mem::replace;

/// The handle of a shelf, or of none. C moves it, and leaves what stands in it to the library.
#[repr(C)]
pub struct JxShelf {
    // where the share in the shelf stands; null for none
    inside: *mut u8,
    pub ghost held: { Option NoteValue },
}

impl Model for JxShelf {
    ghost use Rattle.jx_c.specs.Held.{held_at};
    ghost use Rattle.jx_c.specs.contracts.texts.shelf_share.ShelfShare as share;

    ghost also_owns = { λ d. held_at share.the_row d.inside d.held };
}

impl JxShelf {
    /// Makes what C holds of a handle.
    fn of(handle: Handle<ShelfShare>) -> JxShelf
        ensures { result.held ≡ handle.held }
    {
        let Handle { at } = handle;
        let inside = at as *mut u8;
        JxShelf { inside }
    }

    /// Gives the handle of what C held.
    fn into_handle(self) -> Handle<ShelfShare>
        ensures { result.held ≡ self.held }
    {
        let JxShelf { inside } = self;
        let at = inside as *mut ShelfShare;
        Handle { at }
    }

    /// Puts a share in, or none, and gives what was there.
    pub fn replace(
        &mut self,
        alloc: Global,
        share: Option<Box<ShelfShare>>,
    ) -> Option<Box<ShelfShare>>
        ensures put { MatchOption share (self.new.held ≡ None) (λ d. self.new.held ≡ Some d.value) }
        ensures taken { MatchOption result (self.old.held ≡ None) (λ d. self.old.held ≡ Some d.value) }
    {
        let next = JxShelf::of(Handle::of(share));
        replace(self, next).into_handle().into_box(alloc)
    }
}
