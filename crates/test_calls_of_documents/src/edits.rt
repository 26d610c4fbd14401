// The answers of a document after each of its edits.
use jx_edit::{Document, DocumentFault};
use std::alloc::{AllocError, Global};
use std::thread::Threads;
use test_words::{Line, LineFault, Out, bytes_of, number_of, push_text, push_verdict};

/// Bytes that are put in the place of those from `start` up to `end`.
#[derive(Drop)]
struct Edit {
    start: usize,
    end: usize,
    replacement: Vec<u8>,
}

/// The edit in a word, `S..E=TEXT`. Its end may lie anywhere.
fn edit_of(alloc: Global, word: &str) -> Result<Edit, LineFault> {
    let (range, text) = word.split_once("=").ok_or(LineFault::NoSuchCall)?;
    let (start, end) = range.split_once("..").ok_or(LineFault::NoSuchCall)?;
    let (start, end) = (number_of(start)?, number_of(end)?);
    let replacement = bytes_of(alloc, text)?;
    Ok(Edit {
        start,
        end,
        replacement,
    })
}

/// The bytes of a document, chunk by chunk.
fn pieces_of(alloc: Global, document: &Document) -> Result<Vec<u8>, AllocError> {
    let mut bytes = Vec::new(alloc);
    for piece in document.chunks() {
        bytes.extend_from_slice(piece)?;
    }
    Ok(bytes)
}

/// Whether each of these bytes is the first one that the document has from its offset on, and none follows them.
fn is_at_each(document: &Document, bytes: &[u8]) -> bool {
    for offset in 0..bytes.len() {
        match document.chunk_at(offset) {
            [] => return false,
            [byte, ..] => {
                if *byte != bytes[offset] {
                    return false;
                }
            }
        }
    }
    document.chunk_at(bytes.len()).is_empty()
}

/// Writes the verdict and the bytes, or that the ways to get them differ.
fn push_state(out: &mut Out, alloc: Global, document: &mut Document) -> Result<(), AllocError> {
    push_verdict(out, document.verdict()?);
    let bytes = pieces_of(alloc, document)?;
    out.push_str(" ");
    push_text(out, &bytes);
    let Ok(copy) = document.copy(0, document.len()) else {
        out.push_str(", and no copy");
        return Ok(());
    };
    let same = copy.as_slice() == bytes.as_slice();
    if !same || !is_at_each(document, &bytes) || document.is_empty() != bytes.is_empty() {
        out.push_str(", by another way else");
    }
    Ok(())
}

/// The document of a text, or the fault in words.
fn made_or_told(out: &mut Out, made: Result<Document, DocumentFault>) -> Option<Document> {
    match made {
        Ok(document) => Some(document),
        Err(fault) => {
            out.put(fault);
            None
        }
    }
}

/// Makes the edit in the next word, and writes a refusal.
fn push_edit(line: &mut Line<'_>, document: &mut Document) {
    match edit_of(line.alloc, line.word()) {
        Ok(edit) => {
            if let Err(fault) = document.edit(edit.start, edit.end, &edit.replacement) {
                line.out.put(format_args!("{fault}, "));
            }
        }
        Err(fault) => line.note(fault),
    }
}

/// `document DEPTH SETTINGS TEXT EDIT..`: the verdict and the bytes, after no edit and after each of them.
pub(crate) fn document(line: &mut Line<'_>) {
    let depth = line.depth();
    let settings = line.settings(depth);
    let text = line.text();
    let made = Document::of(line.alloc, &text, settings);
    if let Some(mut document) = made_or_told(&mut line.out, made) {
        push_states(line, &mut document);
    }
}

fn push_states(line: &mut Line<'_>, document: &mut Document) {
    let told = push_state(&mut line.out, line.alloc, document);
    line.settle(told);
    for _ in 0..line.count() {
        line.out.push_str("; ");
        push_edit(line, document);
        let told = push_state(&mut line.out, line.alloc, document);
        line.settle(told);
    }
}

/// `workers COUNT DEPTH SETTINGS TEXT`: the verdict on the document that so many workers make, and how many bytes it has.
pub(crate) fn workers<R: Threads + Sync>(line: &mut Line<'_>, rt: &R) {
    let count = line.number();
    let depth = line.depth();
    let settings = line.settings(depth);
    let text = line.text();
    let made = Document::of_by(rt, line.alloc, &text, settings, count);
    if let Some(mut document) = made_or_told(&mut line.out, made) {
        let told = push_made(&mut line.out, line.alloc, &mut document, &text);
        line.settle(told);
    }
}

fn push_made(
    out: &mut Out,
    alloc: Global,
    document: &mut Document,
    text: &[u8],
) -> Result<(), AllocError> {
    push_verdict(out, document.verdict()?);
    let bytes = pieces_of(alloc, document)?;
    out.put(format_args!(" {} bytes", bytes.len()));
    if bytes.as_slice() != text {
        out.push_str(", and others");
    }
    Ok(())
}
