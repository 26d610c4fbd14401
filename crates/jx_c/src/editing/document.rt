// Texts that are edited. Each call takes the document out of the caller's struct and puts it back. The calls of the C header
// have these names without `_non_null`, and answer null pointers.
ghost use Rattle.std.specs.Prelude.{◌≡◌, ◌⊎◌, ◌<◌, ◌≤◌, ◌+◌, IfOk, None, Some, length, slice_range};
ghost use Rattle.jx_edit.specs.Document.{DocumentValue, edited};
ghost use Rattle.jx_run.specs.declared.texts.settings.NameRule.TheVariants.{Any};
ghost use Rattle.jx_c.specs.Document.{IsVerdictOf, status_in};
ghost use Rattle.jx_c.specs.Settings.{settings_in};

use crate::editing::held::JxDocument;
use crate::shapes::settings::{JxSettings, settings_in};
use crate::shapes::status::{
    DEPTH_TOO_GREAT, NO_DOCUMENT, NO_MEMORY, NO_UNIQUE_NAMES, OK, OUT_OF_BOUNDS, UNKNOWN_FLAG,
};
use crate::shapes::unboxed::sent;
use crate::shapes::verdict::{JxVerdict, shown};
use jx_edit::{Document, DocumentFault};
use jx_run::{NameRule, Settings};
use std::alloc::{AllocError, Global};

/// A document of these bytes.
fn boxed(alloc: Global, text: &[u8], settings: Settings) -> Result<Box<Document>, AllocError>
    requires { settings.names ≡ Any }
    ensures { IfOk result (λ d. d.value ≡ record { settings = settings; bytes = text.now }) }
{
    match Document::of(alloc, text, settings) {
        Ok(document) => Ok(Box::new(alloc, sent(document))?),
        Err(_) => Err(AllocError),
    }
}

/// The status of an edit.
fn status_in(done: Result<(), DocumentFault>) -> u32
    ensures { result ≡ status_in done }
{
    match done {
        Ok(()) => OK,
        Err(DocumentFault::OutOfBounds) => OUT_OF_BOUNDS,
        Err(DocumentFault::UniqueNames) => NO_UNIQUE_NAMES,
        Err(DocumentFault::Memory) => NO_MEMORY,
    }
}

/// Makes a document of a copy of the bytes. The one that the struct held is freed. Unique names are refused, as a document
/// keeps no names.
#[unsafe(no_mangle)]
pub extern "C" fn jx_document_new_non_null(
    alloc: Global,
    text: &[u8],
    settings: &JxSettings,
    document: &mut JxDocument,
) -> u32
    ensures made { result ≡ OK → document.new.held ≡ Some (record { settings = settings_in settings.now; bytes = text.now }) }
    ensures depth { 65535 < settings.now.depth → result ≡ DEPTH_TOO_GREAT }
    ensures flags { settings.now.depth ≤ 65535 → 3 < settings.now.flags → result ≡ UNKNOWN_FLAG }
    ensures names { settings.now.depth ≤ 65535 → 1 < settings.now.flags → settings.now.flags ≤ 3 → result ≡ NO_UNIQUE_NAMES }
    ensures status { settings.now.depth ≤ 65535 → settings.now.flags ≤ 1 → (result ≡ OK) ⊎ (result ≡ NO_MEMORY) }
    ensures unchanged { (result ≡ OK → ⊥) → document.new.held ≡ document.old.held }
{
    let asked = match settings_in(settings) {
        Ok(asked) => asked,
        Err(status) => return status,
    };
    if asked.names == NameRule::Unique {
        return NO_UNIQUE_NAMES;
    }
    match boxed(alloc, text, asked) {
        Ok(whole) => {
            let _ = document.replace(alloc, Some(whole));
            OK
        }
        Err(AllocError) => NO_MEMORY,
    }
}

/// Puts other bytes in the place of those from `start` up to `end`. Where that is refused nothing changes.
#[unsafe(no_mangle)]
pub extern "C" fn jx_document_edit_non_null(
    alloc: Global,
    document: &mut JxDocument,
    start: usize,
    end: usize,
    replacement: &[u8],
) -> u32
    ensures none { document.old.held ≡ None → result ≡ NO_DOCUMENT }
    ensures edited { (d : DocumentValue) → document.old.held ≡ Some d → result ≡ OK → document.new.held ≡ Some (record { settings = d.settings; bytes = edited start end replacement.now d.bytes }) }
    ensures inside { (d : DocumentValue) → document.old.held ≡ Some d → start ≤ end → end ≤ length d.bytes → (result ≡ OK) ⊎ (result ≡ NO_MEMORY) }
    ensures outside { (d : DocumentValue) → document.old.held ≡ Some d → (start ≤ end → end ≤ length d.bytes → ⊥) → result ≡ OUT_OF_BOUNDS }
    ensures unchanged { (result ≡ OK → ⊥) → document.new.held ≡ document.old.held }
{
    let Some(mut whole) = document.replace(alloc, None) else {
        return NO_DOCUMENT;
    };
    let status = status_in(whole.edit(start, end, replacement));
    let _ = document.replace(alloc, Some(whole));
    status
}

/// The verdict on all bytes as a whole text by the document's settings (RFC 8259).
#[unsafe(no_mangle)]
pub extern "C" fn jx_document_verdict_non_null(
    alloc: Global,
    document: &mut JxDocument,
    verdict: &mut JxVerdict,
) -> u32
    ensures none { document.old.held ≡ None → result ≡ NO_DOCUMENT }
    ensures judged { (d : DocumentValue) → document.old.held ≡ Some d → result ≡ OK → IsVerdictOf d verdict.new }
    ensures status { (d : DocumentValue) → document.old.held ≡ Some d → (result ≡ OK) ⊎ (result ≡ NO_MEMORY) }
    ensures same { document.new.held ≡ document.old.held }
    ensures unchanged { (result ≡ OK → ⊥) → verdict.new ≡ verdict.old }
{
    let Some(mut whole) = document.replace(alloc, None) else {
        return NO_DOCUMENT;
    };
    let told = whole.verdict();
    let _ = document.replace(alloc, Some(whole));
    match told {
        Ok(told) => {
            *verdict = shown(told);
            OK
        }
        Err(AllocError) => NO_MEMORY,
    }
}

/// Gives the number of bytes.
#[unsafe(no_mangle)]
pub extern "C" fn jx_document_size_non_null(
    alloc: Global,
    document: &mut JxDocument,
    size: &mut usize,
) -> u32
    ensures none { document.old.held ≡ None → (result ≡ NO_DOCUMENT) × (size.new ≡ size.old) }
    ensures size { (d : DocumentValue) → document.old.held ≡ Some d → (result ≡ OK) × (size.new ≡ length d.bytes) }
    ensures same { document.new.held ≡ document.old.held }
{
    let Some(whole) = document.replace(alloc, None) else {
        return NO_DOCUMENT;
    };
    *size = whole.len();
    let _ = document.replace(alloc, Some(whole));
    OK
}

/// Copies the bytes from `start` on, as many as there is room for.
#[unsafe(no_mangle)]
pub extern "C" fn jx_document_copy_non_null(
    alloc: Global,
    document: &mut JxDocument,
    start: usize,
    bytes: &mut [u8],
) -> u32
    ensures none { document.old.held ≡ None → result ≡ NO_DOCUMENT }
    ensures copied { (d : DocumentValue) → document.old.held ≡ Some d → result ≡ OK → bytes.new ≡ slice_range d.bytes start (start + length bytes.old) }
    ensures inside { (d : DocumentValue) → document.old.held ≡ Some d → start + length bytes.old ≤ length d.bytes → (result ≡ OK) ⊎ (result ≡ NO_MEMORY) }
    ensures outside { (d : DocumentValue) → document.old.held ≡ Some d → length d.bytes < start + length bytes.old → result ≡ OUT_OF_BOUNDS }
    ensures same { document.new.held ≡ document.old.held }
    ensures unchanged { (result ≡ OK → ⊥) → bytes.new ≡ bytes.old }
{
    let Some(whole) = document.replace(alloc, None) else {
        return NO_DOCUMENT;
    };
    let status = copied(&whole, start, bytes);
    let _ = document.replace(alloc, Some(whole));
    status
}

/// Copies the bytes of a document from `start` on, as many as there is room for.
fn copied(document: &Document, start: usize, bytes: &mut [u8]) -> u32
    ensures copied { result ≡ OK → bytes.new ≡ slice_range document.now.bytes start (start + length bytes.old) }
    ensures inside { start + length bytes.old ≤ length document.now.bytes → (result ≡ OK) ⊎ (result ≡ NO_MEMORY) }
    ensures outside { length document.now.bytes < start + length bytes.old → result ≡ OUT_OF_BOUNDS }
    ensures unchanged { (result ≡ OK → ⊥) → bytes.new ≡ bytes.old }
{
    if document.len() < start || document.len() - start < bytes.len() {
        return OUT_OF_BOUNDS;
    }
    match document.copy(start, start + bytes.len()) {
        Ok(copy) => {
            bytes.copy_from_slice(&copy);
            OK
        }
        Err(_) => NO_MEMORY,
    }
}

/// Frees the document, if there is one. The struct holds none afterwards.
#[unsafe(no_mangle)]
pub extern "C" fn jx_document_free_non_null(alloc: Global, document: &mut JxDocument)
    ensures { document.new.held ≡ None }
{
    let _ = document.replace(alloc, None);
}
