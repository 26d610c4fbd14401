// A stream of values as C holds it: memory of the library behind one pointer.
ghost use Rattle.std.specs.Coded.{codes};
ghost use Rattle.std.specs.Prelude.{◌≡◌, MatchOption, None, Option, Some};
ghost use Rattle.jx_c.specs.contracts.streams.stream.ValueStream.{the_row};
ghost use Rattle.jx_c.specs.Values.{StreamValue};

use crate::shapes::handle::Handle;
use crate::streams::stream::ValueStream;
use std::alloc::Global;
use std::marker::Model;
use std::mem::replace;

/// The handle of a stream of values, or of none. C moves it, and leaves what stands in it to the library.
#[repr(C)]
pub struct JxValues {
    // where the stream stands; null for none
    inside: *mut u8,
    pub ghost held: { Option StreamValue } by { Prim.hlevel (codes, the_row.coded) },
}

impl Model for JxValues {
    ghost use Rattle.jx_c.specs.Held.{held_at};
    ghost use Rattle.jx_c.specs.contracts.streams.stream.ValueStream as stream;

    ghost also_owns = { λ d. held_at stream.the_row d.inside d.held };
}

impl JxValues {
    /// Makes what C holds of a handle.
    fn of(handle: Handle<ValueStream>) -> JxValues
        ensures { result.held ≡ handle.held }
    {
        let Handle { at } = handle;
        let inside = at as *mut u8;
        JxValues { inside }
    }

    /// Gives the handle of what C held.
    fn into_handle(self) -> Handle<ValueStream>
        ensures { result.held ≡ self.held }
    {
        let JxValues { inside } = self;
        let at = inside as *mut ValueStream;
        Handle { at }
    }

    /// Puts a stream in, or none, and gives what was there.
    pub fn replace(
        &mut self,
        alloc: Global,
        stream: Option<Box<ValueStream>>,
    ) -> Option<Box<ValueStream>>
        ensures put { MatchOption stream (self.new.held ≡ None) (λ d. self.new.held ≡ Some d.value) }
        ensures taken { MatchOption result (self.old.held ≡ None) (λ d. self.old.held ≡ Some d.value) }
    {
        let next = JxValues::of(Handle::of(stream));
        replace(self, next).into_handle().into_box(alloc)
    }
}
