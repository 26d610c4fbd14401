ghost use Rattle.std.specs.Prelude.{◌≡◌, Some, None, IfSome, IfNone, IfOk, IfErr};
ghost use Rattle.jx_shelf.specs.ShelfFaults.{Refuses};
ghost use Rattle.jx_shelf.specs.Shelved.{Agree, Keeps};

use crate::shelf_fault::ShelfFault;
use jx_index::Indexed;
use once_cell::race::{Note, OnceBox};
use std::alloc::{AllocFailed, Global};
use std::marker::Model;

/// A place for one index. Threads share it by reference, and none of its calls waits for another.
#[derive(Drop)]
pub struct Shelf<'a> {
    cell: OnceBox<Indexed<'a>>,
    alloc: Global,
}

impl<'a> Model for Shelf<'a> {
    ghost use Rattle.std.specs.Prelude.{ℕ};
    ghost use Rattle.once_cell.specs.Once.{cell_name};

    ghost Value = { ℕ };

    ghost view = { λ shelf. cell_name shelf.cell };
}

/// The knowledge of a holder of a shelf: nothing yet, or which index is there. It has no bytes.
#[derive(Drop)]
pub struct ShelfNote<'a> {
    note: Note<Indexed<'a>>,
}

impl<'a> Model for ShelfNote<'a> {
    ghost use Rattle.jx_shelf.specs.Shelved.{NoteValue};

    ghost Value = { NoteValue };

    ghost view = { λ n. record { shelf = n.note.cell; known = n.note.known } };
}

impl<'a> Shelf<'a> {
    /// An empty shelf. It takes no memory before an index is published.
    pub fn new(alloc: Global) -> Shelf<'a> {
        Shelf {
            cell: OnceBox::new(alloc),
            alloc,
        }
    }

    /// A note of this shelf that knows nothing yet.
    pub fn note(&self) -> ShelfNote<'a>
        ensures shelf { result.shelf ≡ self.now }
        ensures nothing { result.known ≡ None }
    {
        ShelfNote {
            note: self.cell.note(),
        }
    }

    /// Puts an index on the shelf, where none stands there: the note then knows it. Else the index is handed back with
    /// `Taken`, and when out of memory with `Memory`.
    pub fn publish(
        &self,
        note: &mut ShelfNote<'a>,
        index: Indexed<'a>,
    ) -> Result<(), ShelfFault<'a>>
        requires { note.old.shelf ≡ self.now }
        ensures shelf { note.new.shelf ≡ note.old.shelf }
        ensures published { IfOk result (λ _. note.new.known ≡ Some index.entry) }
        ensures first { IfOk result (λ _. note.old.known ≡ None) }
        ensures refused { IfErr result (Refuses index.entry note.old.known note.new.known) }
        ensures kept { Keeps note.old.known note.new.known }
    {
        match Box::new(self.alloc, index) {
            Ok(boxed) => match self.cell.set_as(boxed, &mut note.note) {
                Ok(()) => Ok(()),
                Err(back) => Err(ShelfFault::Taken(Box::into_inner(back))),
            },
            Err(AllocFailed { value }) => Err(ShelfFault::Memory(value)),
        }
    }

    /// Shows the index, where one stands on the shelf: the note then knows it. A note that knows an index is shown that
    /// one each time. It takes no memory.
    pub fn look<'b>(&'b self, note: &mut ShelfNote<'a>) -> Option<&'b Indexed<'a>>
        requires { note.old.shelf ≡ self.now }
        ensures shelf { note.new.shelf ≡ note.old.shelf }
        ensures shown { IfSome result (λ index. note.new.known ≡ Some index.now) }
        ensures empty { IfNone result (note.new.known ≡ None) }
        ensures kept { Keeps note.old.known note.new.known }
    {
        self.cell.get_as(&mut note.note)
    }
}

impl<'a> ShelfNote<'a> {
    /// Shows that two notes of one shelf that know an index know the same one. It does nothing.
    pub fn agree(&mut self, other: ShelfNote<'a>)
        requires { other.shelf ≡ self.old.shelf }
        ensures same { self.new ≡ self.old }
        ensures agree { Agree self.old.known other.entry.known }
    {
        let ShelfNote { note } = other;
        self.note.compare(note);
    }
}
