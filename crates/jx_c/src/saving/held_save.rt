// A text whose index is made, as C holds it: memory of the library behind one pointer.
ghost use Rattle.std.specs.Coded.{codes};
ghost use Rattle.std.specs.Prelude.{◌≡◌, MatchOption, None, Option, Some};
ghost use Rattle.jx_c.specs.contracts.saving.saver.Saver.{the_row};
ghost use Rattle.jx_c.specs.declared.saving.saver.Saver.{Saver};

use crate::saving::saver::Saver;
use crate::shapes::handle::Handle;
use std::alloc::Global;
use std::marker::Model;
use std::mem::replace;

/// The handle of a saver, or of none. C moves it, and leaves what stands in it to the library.
#[repr(C)]
pub struct JxSave {
    // where the saver stands; null for none
    inside: *mut u8,
    pub ghost held: { Option Saver } by { Prim.hlevel (codes, the_row.coded) },
}

impl Model for JxSave {
    ghost use Rattle.jx_c.specs.Held.{held_at};
    ghost use Rattle.jx_c.specs.contracts.saving.saver.Saver as saver;

    ghost also_owns = { λ d. held_at saver.the_row d.inside d.held };
}

impl JxSave {
    /// Makes what C holds of a handle.
    fn of(handle: Handle<Saver>) -> JxSave
        ensures { result.held ≡ handle.held }
    {
        let Handle { at } = handle;
        let inside = at as *mut u8;
        JxSave { inside }
    }

    /// Gives the handle of what C held.
    fn into_handle(self) -> Handle<Saver>
        ensures { result.held ≡ self.held }
    {
        let JxSave { inside } = self;
        let at = inside as *mut Saver;
        Handle { at }
    }

    /// Puts a saver in, or none, and gives what was there.
    pub fn replace(&mut self, alloc: Global, saver: Option<Box<Saver>>) -> Option<Box<Saver>>
        ensures put { MatchOption saver (self.new.held ≡ None) (λ d. self.new.held ≡ Some d.value) }
        ensures taken { MatchOption result (self.old.held ≡ None) (λ d. self.old.held ≡ Some d.value) }
    {
        let next = JxSave::of(Handle::of(saver));
        replace(self, next).into_handle().into_box(alloc)
    }
}
