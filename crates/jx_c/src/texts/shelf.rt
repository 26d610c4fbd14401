// A place for an index that C's threads look at while one of them puts it there. Each thread has a handle of its own, and each call
// takes it out of the caller's struct and puts it back. The calls of the C header have these names without `_non_null`, and answer
// null pointers.
ghost use Rattle.std.specs.Prelude.{◌≡◌, ◌⊎◌, None, Some, IfOk, IsSome};
ghost use Rattle.jx_index.specs.Indexed.{IndexedValue};
ghost use Rattle.jx_shelf.specs.Shelved.{NoteValue};
ghost use Rattle.jx_c.specs.Indexes.{IsAnswerIn, row_at};
ghost use Rattle.jx_c.specs.Shelves.{HasLooked, HasSeen, HasSeenSome, IsFresh, IsShared, Looks};

use crate::shapes::places::JxRow;
use crate::shapes::status::{NO_INDEX, NO_MEMORY, NO_SHELF, OK, OUT_OF_BOUNDS, TAKEN};
use crate::shapes::unboxed::sent;
use crate::texts::catalog::Catalog;
use crate::texts::held_index::JxIndex;
use crate::texts::held_shelf::JxShelf;
use crate::texts::look_up::JxAnswer;
use crate::texts::shelf_share::{JxText, ShelfShare, Unpublished};
use std::alloc::{AllocError, Global};

/// A share in a box.
fn boxed(alloc: Global, share: ShelfShare) -> Result<Box<ShelfShare>, AllocError>
    ensures { IfOk result (λ whole. whole.value ≡ share) }
{
    Ok(Box::new(alloc, sent(share))?)
}

/// A new shelf, in a box.
fn fresh(alloc: Global) -> Result<Box<ShelfShare>, AllocError>
    ensures { IfOk result (λ whole. whole.value.known ≡ None) }
{
    let share = ShelfShare::new(alloc)?;
    let whole = boxed(alloc, share)?;
    Ok(whole)
}

/// Makes a shelf on which no index stands. What the struct held is freed.
#[unsafe(no_mangle)]
pub extern "C" fn jx_shelf_new_non_null(alloc: Global, shelf: &mut JxShelf) -> u32
    ensures made { result ≡ OK → IsFresh shelf.new.held }
    ensures status { (result ≡ OK) ⊎ (result ≡ NO_MEMORY) }
    ensures unchanged { (result ≡ OK → ⊥) → shelf.new.held ≡ shelf.old.held }
{
    match fresh(alloc) {
        Ok(empty) => {
            let _ = shelf.replace(alloc, Some(empty));
            OK
        }
        Err(AllocError) => NO_MEMORY,
    }
}

/// Another share in the same shelf, in a box.
fn shared(alloc: Global, share: &ShelfShare) -> Result<Box<ShelfShare>, AllocError>
    ensures { IfOk result (λ whole. IsShared share.now whole.value) }
{
    let another = share.another()?;
    let whole = boxed(alloc, another)?;
    Ok(whole)
}

/// Makes another handle of the same shelf, for another thread. What `other` held is freed.
#[unsafe(no_mangle)]
pub extern "C" fn jx_shelf_share_non_null(
    alloc: Global,
    shelf: &mut JxShelf,
    other: &mut JxShelf,
) -> u32
    ensures none { shelf.old.held ≡ None → result ≡ NO_SHELF }
    ensures shared { (n : NoteValue) → shelf.old.held ≡ Some n → result ≡ OK → (m : NoteValue) × (other.new.held ≡ Some m) × IsShared n m }
    ensures status { (n : NoteValue) → shelf.old.held ≡ Some n → (result ≡ OK) ⊎ (result ≡ NO_MEMORY) }
    ensures same { shelf.new.held ≡ shelf.old.held }
    ensures unchanged { (result ≡ OK → ⊥) → other.new.held ≡ other.old.held }
{
    let Some(whole) = shelf.replace(alloc, None) else {
        return NO_SHELF;
    };
    let made = shared(alloc, &whole);
    let _ = shelf.replace(alloc, Some(whole));
    match made {
        Ok(made) => {
            let _ = other.replace(alloc, Some(made));
            OK
        }
        Err(AllocError) => NO_MEMORY,
    }
}

/// Puts an index on the shelf, if none stands there. The struct then holds none. Else it holds the index as before, and the other
/// one is seen by this handle from then on.
#[unsafe(no_mangle)]
pub extern "C" fn jx_shelf_put_non_null(
    alloc: Global,
    shelf: &mut JxShelf,
    index: &mut JxIndex,
) -> u32
    ensures none { shelf.old.held ≡ None → (result ≡ NO_SHELF) × (index.new.held ≡ index.old.held) }
    ensures empty { (n : NoteValue) → shelf.old.held ≡ Some n → index.old.held ≡ None → (result ≡ NO_INDEX) × (index.new.held ≡ None) }
    ensures status { (n : NoteValue) (i : IndexedValue) → shelf.old.held ≡ Some n → index.old.held ≡ Some i → (result ≡ OK) ⊎ ((result ≡ TAKEN) ⊎ (result ≡ NO_MEMORY)) }
    ensures put { (n : NoteValue) (i : IndexedValue) → shelf.old.held ≡ Some n → index.old.held ≡ Some i → result ≡ OK → (n.known ≡ None) × (index.new.held ≡ None) × HasSeen i n shelf.new.held }
    ensures taken { (n : NoteValue) (i : IndexedValue) → shelf.old.held ≡ Some n → index.old.held ≡ Some i → result ≡ TAKEN → (index.new.held ≡ Some i) × HasSeenSome n shelf.new.held }
    ensures lost { (n : NoteValue) → shelf.old.held ≡ Some n → result ≡ NO_MEMORY → (index.new.held ≡ None) × HasLooked n shelf.new.held }
    ensures same { (result ≡ NO_SHELF) ⊎ (result ≡ NO_INDEX) → shelf.new.held ≡ shelf.old.held }
{
    let Some(mut share) = shelf.replace(alloc, None) else {
        return NO_SHELF;
    };
    let status = put(alloc, &mut share, index);
    let _ = shelf.replace(alloc, Some(share));
    status
}

/// Puts the index that the struct holds on the shelf.
fn put(alloc: Global, share: &mut ShelfShare, index: &mut JxIndex) -> u32
    ensures empty { index.old.held ≡ None → result ≡ NO_INDEX }
    ensures status { (i : IndexedValue) → index.old.held ≡ Some i → (result ≡ OK) ⊎ ((result ≡ TAKEN) ⊎ (result ≡ NO_MEMORY)) }
    ensures put { (i : IndexedValue) → index.old.held ≡ Some i → result ≡ OK → (share.old.known ≡ None) × (share.new.known ≡ Some i) }
    ensures looked { Looks share.old share.new }
    ensures taken { result ≡ TAKEN → IsSome share.new.known × (index.new.held ≡ index.old.held) }
    ensures gone { (result ≡ TAKEN → ⊥) → index.new.held ≡ None }
    ensures same { result ≡ NO_INDEX → share.new ≡ share.old }
{
    let Some(whole) = index.replace(alloc, None) else {
        return NO_INDEX;
    };
    match share.publish(Box::into_inner(whole)) {
        Ok(()) => OK,
        Err(Unpublished::Memory) => NO_MEMORY,
        Err(Unpublished::Taken(back)) => put_back(alloc, index, back),
    }
}

/// Puts an index back into its struct, unless an allocation failed.
fn put_back(alloc: Global, index: &mut JxIndex, back: Catalog) -> u32
    requires { index.old.held ≡ None }
    ensures status { (result ≡ TAKEN) ⊎ (result ≡ NO_MEMORY) }
    ensures back { result ≡ TAKEN → index.new.held ≡ Some back }
    ensures lost { result ≡ NO_MEMORY → index.new.held ≡ None }
{
    match Box::new(alloc, back) {
        Ok(whole) => {
            let _ = index.replace(alloc, Some(whole));
            TAKEN
        }
        Err(_) => NO_MEMORY,
    }
}

/// Looks up the value of a pointer (RFC 6901) in the text of the index, if one is on the shelf. It takes no memory.
#[unsafe(no_mangle)]
pub extern "C" fn jx_shelf_find_non_null(
    alloc: Global,
    shelf: &mut JxShelf,
    pointer: &[u8],
    answer: &mut JxAnswer,
) -> u32
    ensures none { shelf.old.held ≡ None → (result ≡ NO_SHELF) × (shelf.new.held ≡ None) }
    ensures answer { (n : NoteValue) → shelf.old.held ≡ Some n → result ≡ OK → (i : IndexedValue) × HasSeen i n shelf.new.held × IsAnswerIn i pointer.now answer.new }
    ensures empty { (n : NoteValue) → shelf.old.held ≡ Some n → result ≡ NO_INDEX → (n.known ≡ None) × HasLooked n shelf.new.held }
    ensures status { (n : NoteValue) → shelf.old.held ≡ Some n → (result ≡ OK) ⊎ (result ≡ NO_INDEX) }
    ensures unchanged { (result ≡ OK → ⊥) → answer.new ≡ answer.old }
{
    let Some(mut share) = shelf.replace(alloc, None) else {
        return NO_SHELF;
    };
    let found = share.find(pointer);
    let _ = shelf.replace(alloc, Some(share));
    match found {
        Some(found) => {
            *answer = found;
            OK
        }
        None => NO_INDEX,
    }
}

/// A value of the text by the number of its row, if an index stands on the shelf. It takes no memory.
#[unsafe(no_mangle)]
pub extern "C" fn jx_shelf_row_non_null(
    alloc: Global,
    shelf: &mut JxShelf,
    number: usize,
    row: &mut JxRow,
) -> u32
    ensures none { shelf.old.held ≡ None → (result ≡ NO_SHELF) × (shelf.new.held ≡ None) }
    ensures row { (n : NoteValue) → shelf.old.held ≡ Some n → result ≡ OK → (i : IndexedValue) × HasSeen i n shelf.new.held × (row_at i number ≡ Some row.new) }
    ensures behind { (n : NoteValue) → shelf.old.held ≡ Some n → result ≡ OUT_OF_BOUNDS → (i : IndexedValue) × HasSeen i n shelf.new.held × (row_at i number ≡ None) }
    ensures empty { (n : NoteValue) → shelf.old.held ≡ Some n → result ≡ NO_INDEX → (n.known ≡ None) × HasLooked n shelf.new.held }
    ensures status { (n : NoteValue) → shelf.old.held ≡ Some n → (result ≡ OK) ⊎ ((result ≡ OUT_OF_BOUNDS) ⊎ (result ≡ NO_INDEX)) }
    ensures unchanged { (result ≡ OK → ⊥) → row.new ≡ row.old }
{
    let Some(mut share) = shelf.replace(alloc, None) else {
        return NO_SHELF;
    };
    let told = share.row(number);
    let _ = shelf.replace(alloc, Some(share));
    match told {
        Some(Some(told)) => {
            *row = told;
            OK
        }
        Some(None) => OUT_OF_BOUNDS,
        None => NO_INDEX,
    }
}

/// Gives the text of the index, if one is on the shelf. It takes no memory.
#[unsafe(no_mangle)]
pub extern "C" fn jx_shelf_text_non_null(
    alloc: Global,
    shelf: &mut JxShelf,
    text: &mut JxText<'static>,
) -> u32
    ensures none { shelf.old.held ≡ None → (result ≡ NO_SHELF) × (shelf.new.held ≡ None) }
    ensures told { (n : NoteValue) → shelf.old.held ≡ Some n → result ≡ OK → (i : IndexedValue) × HasSeen i n shelf.new.held × (text.new.bytes.now ≡ i.text) }
    ensures empty { (n : NoteValue) → shelf.old.held ≡ Some n → result ≡ NO_INDEX → (n.known ≡ None) × HasLooked n shelf.new.held }
    ensures status { (n : NoteValue) → shelf.old.held ≡ Some n → (result ≡ OK) ⊎ (result ≡ NO_INDEX) }
    ensures unchanged { (result ≡ OK → ⊥) → text.new ≡ text.old }
{
    let Some(mut share) = shelf.replace(alloc, None) else {
        return NO_SHELF;
    };
    let is_told = share.tell(text);
    let _ = shelf.replace(alloc, Some(share));
    if is_told { OK } else { NO_INDEX }
}

/// Frees the handle, if there is one. The struct holds none afterwards. The shelf and the index go with its last handle.
#[unsafe(no_mangle)]
pub extern "C" fn jx_shelf_free_non_null(alloc: Global, shelf: &mut JxShelf)
    ensures { shelf.new.held ≡ None }
{
    let _ = shelf.replace(alloc, None);
}
