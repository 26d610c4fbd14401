// The answers to pointers.
ghost use Rattle.std.specs.Prelude.{◌≡◌, length};

use crate::index::fed::is_fed_alike;
use jx_find::find_each_by;
use jx_index::{FindFault, Found, Indexed, Pointer, Row};
use jx_lex::{Depth, Span};
use jx_run::{NoPause, Refusal, Settings};
use std::alloc::{AllocError, Global};
use std::slice;
use test_words::{Line, Out, push_found};

/// The answer to a pointer.
type Led = Result<Found, FindFault>;

/// The span of all of a text.
fn whole(text: &[u8]) -> Span
    ensures start { result.start ≡ 0 }
    ensures end { result.end ≡ length text.now }
{
    Span {
        start: 0,
        end: text.len(),
    }
}

fn index_of(alloc: Global, text: &[u8]) -> Result<Result<Indexed<'_>, Refusal>, AllocError> {
    Indexed::read(alloc, text, whole(text), Depth::default(), &mut NoPause)
}

/// The index of a text within the default depth. A refused text makes it no such call.
pub(crate) fn read_index<'t>(line: &mut Line<'_>, text: &'t [u8]) -> Option<Indexed<'t>> {
    match line.keep(index_of(line.alloc, text))? {
        Ok(index) => Some(index),
        Err(_) => {
            line.refuse();
            None
        }
    }
}

/// The answer where an index of a text and one pass over it do not agree.
const DIFFER: &str = "the index and one pass differ";

/// The answer where one pass over a text and a finder that is fed it by slices do not agree.
const FED_ELSEWHERE: &str = "slices differ";

/// The pointers in these words, without words that are not pointers.
pub(crate) fn pointers_of(alloc: Global, words: &[String]) -> Result<Vec<Pointer<'_>>, AllocError> {
    let mut pointers = Vec::with_capacity(alloc, words.len())?;
    for word in words {
        if let Ok(pointer) = Pointer::read(word.as_str()) {
            pointers.push(pointer)?;
        }
    }
    Ok(pointers)
}

/// The answers to pointers in a text by one pass over it for all of them, in order. A refused text has no answers.
fn found_at_once(
    alloc: Global,
    text: &[u8],
    pointers: &[Pointer<'_>],
) -> Result<Vec<Led>, AllocError> {
    let settings = Settings::from(Depth::default());
    match find_each_by(alloc, text, &settings, pointers)? {
        Ok(found) => Ok(found),
        Err(_) => Ok(Vec::new(alloc)),
    }
}

/// The kind and the span of a row, if they are those that are wanted.
fn push_row_as(out: &mut Out, row: &Row, wanted: &Led) {
    match wanted {
        Ok(found) if found.kind == row.kind && found.span == row.span => {
            push_found(out, row.kind, row.span);
        }
        _ => out.push_str(DIFFER),
    }
}

/// Appends the answer to a pointer in an index, if that is wanted.
fn push_in_index(out: &mut Out, index: &Indexed<'_>, pointer: &Pointer<'_>, wanted: &Led) {
    match index.find(pointer) {
        Ok(node) => push_row_as(out, index.row(node), wanted),
        Err(fault) if *wanted == Err(fault) => out.put(fault),
        Err(_) => out.push_str(DIFFER),
    }
}

/// Appends the answer to a pointer in an index, if one pass over the text for it alone gives this too.
fn push_agreed(
    out: &mut Out,
    alloc: Global,
    index: &Indexed<'_>,
    pointer: &Pointer<'_>,
    wanted: &Led,
) -> Result<(), AllocError> {
    let alone = found_at_once(alloc, index.text(), slice::from_ref(pointer))?;
    if alone.as_slice() == slice::from_ref(wanted) {
        push_in_index(out, index, pointer, wanted);
    } else {
        out.push_str(DIFFER);
    }
    Ok(())
}

/// The kind and the span of the value to which a pointer leads, or why it leads to none. An index of the text, one pass over
/// it for this pointer and one for all, of which the next answer is taken, have to agree.
fn push_led(
    out: &mut Out,
    alloc: Global,
    index: &Indexed<'_>,
    pointer: &str,
    all: &mut &[Led],
) -> Result<(), AllocError> {
    let pointer = match Pointer::read(pointer) {
        Ok(pointer) => pointer,
        Err(fault) => {
            out.put(fault);
            return Ok(());
        }
    };
    let [first, rest @ ..] = *all else {
        out.push_str(DIFFER);
        return Ok(());
    };
    *all = rest;
    push_agreed(out, alloc, index, &pointer, first)
}

/// Appends the answer to each pointer.
fn push_each(
    out: &mut Out,
    alloc: Global,
    index: &Indexed<'_>,
    pointers: &[String],
) -> Result<(), AllocError> {
    let spelt = pointers_of(alloc, pointers)?;
    let found = found_at_once(alloc, index.text(), &spelt)?;
    if !is_fed_alike(alloc, index.text(), pointers, &found)? {
        out.part("; ");
        out.push_str(FED_ELSEWHERE);
        return Ok(());
    }
    let mut all = found.as_slice();
    for pointer in pointers {
        out.part("; ");
        push_led(out, alloc, index, pointer.as_str(), &mut all)?;
    }
    Ok(())
}

/// `find TEXT POINTER..`
pub(crate) fn find(line: &mut Line<'_>) {
    let text = line.text();
    let pointers = line.texts();
    if let Some(index) = read_index(line, &text) {
        let told = push_each(&mut line.out, line.alloc, &index, &pointers);
        line.settle(told);
    }
}
