// The parts of a handle of a shelf: the shelf, which other handles lead to as well, and what was learned by this one.
ghost use Rattle.std.specs.Prelude.{◌≡◌, None, Some, IfErr, IfNone, IfOk, IfSome, true, false};
ghost use Rattle.jx_index.specs.Indexed.{IndexedValue};
ghost use Rattle.jx_c.specs.Indexes.{IsAnswerIn, row_at};
ghost use Rattle.jx_c.specs.Shelves.{Looks, Refuses};

use crate::shapes::places::JxRow;
use crate::texts::catalog::Catalog;
use crate::texts::index::{answer_in, row_at};
use crate::texts::look_up::JxAnswer;
use jx_shelf::{Shelf, ShelfFault, ShelfNote};
use std::alloc::{AllocError, Global};
use std::marker::Model;
use std::sync::Arc;

/// Why an index was not put on a shelf.
#[derive(Drop)]
pub enum Unpublished {
    /// Another one stands there. It is handed back.
    Taken(Catalog),
    /// An allocation failed. It is freed.
    Memory,
}

/// The bytes of a text, which C leaves as they are for as long as an index of it is kept: to the library, for ever.
#[repr(C)]
#[derive(Clone, Copy)]
pub struct JxText<'t> {
    pub bytes: &'t [u8],
}

/// A share in a shelf, with a note of it. Each handle has one of its own, so a thread that looks by its handle waits for none.
#[derive(Drop)]
pub struct ShelfShare {
    shelf: Arc<Shelf<'static>>,
    note: ShelfNote<'static>,
}

impl Model for ShelfShare {
    ghost use Rattle.std.specs.Prelude.{◌≡◌};
    ghost use Rattle.jx_shelf.specs.Shelved.{NoteValue};

    ghost Value = { NoteValue };

    ghost view = { λ s. s.note };

    ghost invariant = { λ s. s.note.shelf ≡ s.shelf.value };
}

impl ShelfShare {
    /// A share in a new shelf, on which no index stands.
    pub fn new(alloc: Global) -> Result<ShelfShare, AllocError>
        ensures { IfOk result (λ share. share.known ≡ None) }
    {
        let shelf = Arc::new(alloc, Shelf::new(alloc))?;
        let note = shelf.note();
        Ok(ShelfShare { shelf, note })
    }

    /// Another share in the same shelf, which knows nothing yet.
    pub fn another(&self) -> Result<ShelfShare, AllocError>
        ensures shelf { IfOk result (λ share. share.shelf ≡ self.now.shelf) }
        ensures nothing { IfOk result (λ share. share.known ≡ None) }
    {
        let shelf = Arc::try_clone(&self.shelf)?;
        let note = shelf.note();
        Ok(ShelfShare { shelf, note })
    }

    /// Puts an index on the shelf, where there is none. Else it is handed back, or lost when out of memory.
    pub fn publish(&mut self, whole: Catalog) -> Result<(), Unpublished>
        ensures looked { Looks self.old self.new }
        ensures published { IfOk result (λ _. self.new.known ≡ Some whole) }
        ensures first { IfOk result (λ _. self.old.known ≡ None) }
        ensures refused { IfErr result (Refuses whole self.new.known) }
    {
        match self.shelf.publish(&mut self.note, whole.into_index()) {
            Ok(()) => Ok(()),
            Err(ShelfFault::Taken(back)) => Err(Unpublished::Taken(Catalog::of(back))),
            Err(ShelfFault::Memory(_)) => Err(Unpublished::Memory),
        }
    }

    /// The answer to the bytes of a pointer in the index, where one is on the shelf.
    pub fn find(&mut self, pointer: &[u8]) -> Option<JxAnswer>
        ensures looked { Looks self.old self.new }
        ensures found { IfSome result (λ told. (index : IndexedValue) × (self.new.known ≡ Some index) × IsAnswerIn index pointer.now told) }
        ensures empty { IfNone result (self.old.known ≡ None) }
    {
        let index = self.shelf.look(&mut self.note)?;
        Some(answer_in(index, pointer))
    }

    /// The row with a number in the index, where one stands on the shelf; none after the last.
    pub fn row(&mut self, number: usize) -> Option<Option<JxRow>>
        ensures looked { Looks self.old self.new }
        ensures row { IfSome result (λ told. (index : IndexedValue) × (self.new.known ≡ Some index) × (told ≡ row_at index number)) }
        ensures empty { IfNone result (self.old.known ≡ None) }
    {
        let index = self.shelf.look(&mut self.note)?;
        Some(row_at(index, number))
    }

    /// Gives the text of the index, where one is on the shelf, and whether one is.
    pub fn tell(&mut self, text: &mut JxText<'static>) -> bool
        ensures looked { Looks self.old self.new }
        ensures told { result ≡ true → (index : IndexedValue) × (self.new.known ≡ Some index) × (text.new.bytes.now ≡ index.text) }
        ensures empty { result ≡ false → (self.old.known ≡ None) × (text.new ≡ text.old) }
    {
        let Some(index) = self.shelf.look(&mut self.note) else {
            return false;
        };
        text.bytes = index.text();
        true
    }
}
