// Indexes and their shelf where an allocation fails.
ghost use Rattle.std.specs.Prelude.{◌≡◌};

use crate::inputs::Worked;
use crate::rows::are_rows;
use crate::tests::growths::texts::{Made, check_texts};
use jx_index::Indexed;
use jx_lex::Depth;
use jx_run::{Summary, TextRun, Verdict};
use jx_shelf::{Shelf, ShelfFault, ShelfNote};
use std::alloc::{AllocError, Global};

#[test]
fn indexes_and_their_shelf_under_a_refused_growth(rt: HostRuntime) {
    check_texts(&rt, rt.alloc(), Made::Indexes);
}

// The index of a text, if it is accepted.
fn index_of(alloc: Global, text: &[u8], depth: Depth) -> Result<Option<Indexed<'_>>, AllocError> {
    let run = TextRun::of(alloc, text, 0, text.len(), depth)?;
    let started = run.started()?;
    match started.verdict() {
        Verdict::Refused(_) => Ok(None),
        Verdict::Accepted => Ok(Some(Indexed::build(alloc, text, &started)?)),
    }
}

// Whether an index has the rows of an accepted text.
fn is_index_of(index: &Indexed<'_>, worked: &Worked) -> bool {
    match worked.answer {
        Ok(rows) => are_rows(index.rows(), rows, 0) && index.repeated() == worked.repeated,
        Err(_) => false,
    }
}

// The index of a text, which is made again where it is refused.
fn index_again(
    alloc: Global,
    text: &[u8],
    depth: Depth,
) -> Result<Option<Indexed<'_>>, AllocError> {
    match index_of(alloc, text, depth) {
        Err(AllocError) => index_of(alloc, text, depth),
        index => index,
    }
}

/// Whether a text has the index that was worked out, which is shown on a shelf; a refused text has none.
pub(crate) fn is_right(alloc: Global, worked: &Worked) -> Result<bool, AllocError> {
    let Some(depth) = Depth::new(worked.containers) else {
        return Ok(false);
    };
    match index_again(alloc, worked.text, depth)? {
        Some(index) => Ok(is_shown(alloc, worked, index)),
        None => Ok(worked.answer.is_err()),
    }
}

// Whether an index is the one that was worked out, and is shown on an empty shelf.
fn is_shown(alloc: Global, worked: &Worked, index: Indexed<'_>) -> bool {
    if !is_index_of(&index, worked) {
        return false;
    }
    let shelf = Shelf::new(alloc);
    let mut note = shelf.note();
    is_published(&shelf, &mut note, worked, index) && shows(&shelf, &mut note, worked)
}

fn shows<'a>(shelf: &Shelf<'a>, note: &mut ShelfNote<'a>, worked: &Worked) -> bool
    requires { note.old.shelf ≡ shelf.now }
{
    match shelf.look(note) {
        Some(shown) => is_index_of(shown, worked),
        None => false,
    }
}

// Whether an index is published.
fn is_published<'a>(
    shelf: &Shelf<'a>,
    note: &mut ShelfNote<'a>,
    worked: &Worked,
    index: Indexed<'a>,
) -> bool
    requires { note.old.shelf ≡ shelf.now }
    ensures { note.new.shelf ≡ note.old.shelf }
{
    match shelf.publish(note, index) {
        Ok(()) => true,
        Err(ShelfFault::Memory(index)) => is_published_again(shelf, note, worked, index),
        Err(ShelfFault::Taken(_)) => false,
    }
}

// Whether nothing is shown where the shelf had no memory, the index came back, and is published then.
fn is_published_again<'a>(
    shelf: &Shelf<'a>,
    note: &mut ShelfNote<'a>,
    worked: &Worked,
    index: Indexed<'a>,
) -> bool
    requires { note.old.shelf ≡ shelf.now }
    ensures { note.new.shelf ≡ note.old.shelf }
{
    if shelf.look(note).is_some() || !is_index_of(&index, worked) {
        return false;
    }
    matches!(shelf.publish(note, index), Ok(()))
}
