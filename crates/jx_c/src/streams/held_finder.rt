// A look-up that is fed, as C holds it: memory of the library behind one pointer.
ghost use Rattle.std.specs.Coded.{codes};
ghost use Rattle.std.specs.Prelude.{◌≡◌, MatchOption, None, Option, Some};
ghost use Rattle.jx_c.specs.contracts.streams.seeking.Seeking.{the_row};
ghost use Rattle.jx_c.specs.Seeks.{SeekingValue};

use crate::shapes::handle::Handle;
use crate::streams::seeking::Seeking;
use std::alloc::Global;
use std::marker::Model;
use std::mem::replace;

/// The handle of a look-up, or of none. C moves it, and leaves what stands in it to the library.
#[repr(C)]
pub struct JxFinder {
    // where the look-up stands; null for none
    inside: *mut u8,
    pub ghost held: { Option SeekingValue } by { Prim.hlevel (codes, the_row.coded) },
}

impl Model for JxFinder {
    ghost use Rattle.jx_c.specs.Held.{held_at};
    ghost use Rattle.jx_c.specs.contracts.streams.seeking.Seeking as seeking;

    ghost also_owns = { λ d. held_at seeking.the_row d.inside d.held };
}

impl JxFinder {
    /// Makes what C holds of a handle.
    fn of(handle: Handle<Seeking>) -> JxFinder
        ensures { result.held ≡ handle.held }
    {
        let Handle { at } = handle;
        let inside = at as *mut u8;
        JxFinder { inside }
    }

    /// Gives the handle of what C held.
    fn into_handle(self) -> Handle<Seeking>
        ensures { result.held ≡ self.held }
    {
        let JxFinder { inside } = self;
        let at = inside as *mut Seeking;
        Handle { at }
    }

    /// Puts a look-up in, or none, and gives what was there.
    pub fn replace(&mut self, alloc: Global, seeking: Option<Box<Seeking>>) -> Option<Box<Seeking>>
        ensures put { MatchOption seeking (self.new.held ≡ None) (λ d. self.new.held ≡ Some d.value) }
        ensures taken { MatchOption result (self.old.held ≡ None) (λ d. self.old.held ≡ Some d.value) }
    {
        let next = JxFinder::of(Handle::of(seeking));
        replace(self, next).into_handle().into_box(alloc)
    }
}
