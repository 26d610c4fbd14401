// A document as C holds it: memory of the library behind one pointer.
ghost use Rattle.std.specs.Prelude.{◌≡◌, MatchOption, None, Option, Some};
ghost use Rattle.jx_edit.specs.Document.{DocumentValue};

use crate::shapes::handle::Handle;
use jx_edit::Document;
use std::alloc::Global;
use std::marker::Model;
use std::mem::replace;

/// The handle of a document, or of none. C moves it, and leaves what stands in it to the library.
#[repr(C)]
pub struct JxDocument {
    // where the document stands; null for none
    inside: *mut u8,
    pub ghost held: { Option DocumentValue },
}

impl Model for JxDocument {
    ghost use Rattle.jx_c.specs.Held.{held_at};
    ghost use Rattle.jx_edit.specs.contracts.document.Document as document;

    ghost also_owns = { λ d. held_at document.the_row d.inside d.held };
}

impl JxDocument {
    /// Makes what C holds of a handle.
    fn of(handle: Handle<Document>) -> JxDocument
        ensures { result.held ≡ handle.held }
    {
        let Handle { at } = handle;
        let inside = at as *mut u8;
        JxDocument { inside }
    }

    /// Gives the handle of what C held.
    fn into_handle(self) -> Handle<Document>
        ensures { result.held ≡ self.held }
    {
        let JxDocument { inside } = self;
        let at = inside as *mut Document;
        Handle { at }
    }

    /// Puts a document in, or none, and gives what was there.
    pub fn replace(&mut self, alloc: Global, whole: Option<Box<Document>>) -> Option<Box<Document>>
        ensures put { MatchOption whole (self.new.held ≡ None) (λ d. self.new.held ≡ Some d.value) }
        ensures taken { MatchOption result (self.old.held ≡ None) (λ d. self.old.held ≡ Some d.value) }
    {
        let next = JxDocument::of(Handle::of(whole));
        replace(self, next).into_handle().into_box(alloc)
    }
}
