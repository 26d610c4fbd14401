// A value behind one pointer, as each struct of C that is a handle has it.
ghost use Rattle.std.specs.Prelude.{◌≡◌, MatchOption, None, Option, Some};

use crate::shapes::unboxed::Unboxed;
use std::alloc::Global;
use std::marker::Model;
use std::ptr::null_mut;

/// A value behind its pointer, or none. A struct of C has no type parameter, so each kind of handle is a struct of its own, which
/// is made of this one and taken apart into it.
pub struct Handle<T> {
    /// Where the value stands; null for none.
    pub at: *mut T,
    pub ghost held: { Option T },
}

impl<T> Model for Handle<T> {
    ghost use Rattle.jx_c.specs.Held.{held_at};

    ghost also_owns = { λ h. held_at T.row h.at h.held };
}

impl<T: Drop> Handle<T> {
    /// Makes a handle of none.
    fn none() -> Handle<T>
        ensures { result.held ≡ None }
    {
        Handle { at: null_mut() }
    }

    /// Makes a handle of the value that was taken out of its box.
    fn of_unboxed(value: Unboxed<T, Global>) -> Handle<T>
        ensures { result.held ≡ Some value.value }
    {
        let Unboxed { at, alloc: _ } = value;
        Handle { at }
    }

    /// Gives the value, if there is one.
    fn into_unboxed(self, alloc: Global) -> Option<Unboxed<T, Global>>
        ensures { MatchOption result (self.held ≡ None) (λ u. self.held ≡ Some u.value) }
    {
        let Handle { at } = self;
        if at.is_null() {
            None
        } else {
            Some(Unboxed { at, alloc })
        }
    }

    /// Makes a handle of what stands in the box, if there is one.
    pub fn of(value: Option<Box<T>>) -> Handle<T>
        ensures { MatchOption value (result.held ≡ None) (λ b. result.held ≡ Some b.value) }
    {
        match value {
            Some(value) => Handle::of_unboxed(Unboxed::of(value)),
            None => Handle::none(),
        }
    }

    /// Gives the value back in its box, if there is one.
    pub fn into_box(self, alloc: Global) -> Option<Box<T>>
        ensures { MatchOption result (self.held ≡ None) (λ b. self.held ≡ Some b.value) }
    {
        match self.into_unboxed(alloc) {
            Some(value) => Some(value.into_box()),
            None => None,
        }
    }
}
