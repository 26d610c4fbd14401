// The index that is published on a shelf, and who sees it.
ghost use Rattle.std.specs.Prelude.{◌≡◌};

use jx_index::Indexed;
use jx_lex::Depth;
use jx_run::{Summary, TextRun, Verdict};
use jx_shelf::{Shelf, ShelfFault, ShelfNote};
use std::alloc::Global;
use std::process::Abort;
use std::thread;
use std::thread::Threads;

// The shelf shows the first index to each note, and hands a second one back.
#[test]
fn the_first_index_stays_on_the_shelf(rt: HostRuntime) {
    let alloc = rt.alloc();
    let shelf = Shelf::new(alloc);
    let mut note = shelf.note();
    assert_eq!(rt; rows_on(&shelf, &mut note), None);
    let index = index_of(&rt, alloc, b"[10,20]");
    assert!(rt; is_published(&shelf, &mut note, index));
    let mut late = shelf.note();
    let index = index_of(&rt, alloc, b"[1]");
    assert!(rt; is_handed_back(&shelf, &mut note, index, 2));
    let index = index_of(&rt, alloc, b"1");
    assert!(rt; is_handed_back(&shelf, &mut late, index, 1));
    assert_eq!(rt; rows_on(&shelf, &mut note), Some(3));
    assert_eq!(rt; rows_on(&shelf, &mut late), Some(3));
    note.agree(late);
}

#[test]
fn another_thread_sees_the_index(rt: HostRuntime) {
    let alloc = rt.alloc();
    let shelf = Shelf::new(alloc);
    let index = index_of(&rt, alloc, b"[10,20]");
    let (published, seen) = rows_seen_there(&rt, &shelf, index);
    assert!(rt; published);
    assert_eq!(rt; seen, Some(3));
}

fn index_of<'a, R: Abort>(rt: &R, alloc: Global, text: &'a [u8]) -> Indexed<'a> {
    let run = TextRun::of(alloc, text, 0, text.len(), Depth::default()).expect(rt, "a run");
    let started = run.started().expect(rt, "a text");
    assert!(rt; started.verdict() == Verdict::Accepted);
    Indexed::build(alloc, text, &started).expect(rt, "an index")
}

fn is_published<'a>(shelf: &Shelf<'a>, note: &mut ShelfNote<'a>, index: Indexed<'a>) -> bool
    requires { note.old.shelf ≡ shelf.now }
    ensures { note.new.shelf ≡ note.old.shelf }
{
    matches!(shelf.publish(note, index), Ok(()))
}

/// Whether another index stands on the shelf, so that this one, of so many rows, comes back.
fn is_handed_back<'a>(
    shelf: &Shelf<'a>,
    note: &mut ShelfNote<'a>,
    index: Indexed<'a>,
    count: usize,
) -> bool
    requires { note.old.shelf ≡ shelf.now }
    ensures { note.new.shelf ≡ note.old.shelf }
{
    match shelf.publish(note, index) {
        Err(ShelfFault::Taken(index)) => index.rows().len() == count,
        _ => false,
    }
}

/// How many rows the index has that the shelf shows.
fn rows_on<'a>(shelf: &Shelf<'a>, note: &mut ShelfNote<'a>) -> Option<usize>
    requires { note.old.shelf ≡ shelf.now }
    ensures { note.new.shelf ≡ note.old.shelf }
{
    match shelf.look(note) {
        Some(index) => Some(index.rows().len()),
        None => None,
    }
}

// Publishes on one thread, and then looks on another with a new note.
fn rows_seen_there<'a, R: Threads + Sync>(
    rt: &R,
    shelf: &Shelf<'a>,
    index: Indexed<'a>,
) -> (bool, Option<usize>) {
    let mut mine = shelf.note();
    let mut theirs = shelf.note();
    let (published, _) = thread::join(rt, move || shelf.publish(&mut mine, index).is_ok(), || ());
    let (seen, _) = thread::join(
        rt,
        move || shelf.look(&mut theirs).map(|index| index.rows().len()),
        || (),
    );
    (published, seen)
}
