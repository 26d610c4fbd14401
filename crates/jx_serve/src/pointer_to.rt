// Pointers to values (RFC 6901).
ghost use Rattle.std.specs.Prelude.{◌≡◌, ℕ, Ok, Some, IfOk, IfSome, IsTrue, slice_get};
ghost use Rattle.jx_index.specs.Leads.{leads};
ghost use Rattle.jx_index.specs.Pointers.{tokens};
ghost use Rattle.jx_index.specs.Rows.{rows};
ghost use Rattle.jx_run.specs.Settings.{IsDocumentBy};
ghost use Rattle.jx_run.specs.Tree.{Tree};
ghost use Rattle.jx_serve.specs.inside.Leading.{StartsAt};

use jx_around::Around;
use jx_find::find_each_by;
use jx_index::{FindFault, Found, Pointer, rows_of_look_ups, strings_pointers_and_rows};
use jx_run::{NameRule, Settings, unique_tree_by_settings};
use jx_wire::{StringFault, unescaped};
use std::alloc::{AllocError, Global};
use std::str;

/// Why a value has no pointer.
#[derive(Clone, Copy, Debug, PartialEq, Eq)]
enum PointerLack {
    /// A name has half of a surrogate pair without the other half.
    LoneSurrogate,
    /// An allocation failed.
    Memory,
}

impl From<AllocError> for PointerLack {
    fn from(_: AllocError) -> PointerLack {
        PointerLack::Memory
    }
}

impl From<StringFault> for PointerLack {
    fn from(fault: StringFault) -> PointerLack {
        match fault {
            StringFault::NoString | StringFault::LoneSurrogate => PointerLack::LoneSurrogate,
            StringFault::Memory => PointerLack::Memory,
        }
    }
}

/// Adds a name as a token, in which `~0` stands for `~` and `~1` for `/`.
fn add_name(out: &mut Vec<u8>, name: &[u8]) -> Result<(), AllocError> {
    for byte in name {
        match byte {
            b'~' => out.extend_from_slice(b"~0")?,
            b'/' => out.extend_from_slice(b"~1")?,
            _ => out.push(*byte)?,
        }
    }
    Ok(())
}

/// Adds the token that leads from its parent to a value.
fn add_token(
    alloc: Global,
    out: &mut Vec<u8>,
    text: &[u8],
    row: &Around,
) -> Result<(), PointerLack> {
    out.extend_from_slice(b"/")?;
    match row.name {
        None => {
            let place = row.place;
            let place = format!(in alloc; "{place}")?;
            out.extend_from_slice(place.as_bytes())?;
        }
        Some(span) => {
            let name = unescaped(alloc, text.get(span.start..span.end).unwrap_or(&[]))?;
            add_name(out, &name)?;
        }
    }
    Ok(())
}

/// The names and the places on the way from the root to a value, as a pointer.
fn spelt_way(alloc: Global, text: &[u8], way: &[Around]) -> Result<Vec<u8>, PointerLack> {
    let mut pointer = Vec::new(alloc);
    for row in way {
        if row.parent.is_some() {
            add_token(alloc, &mut pointer, text, row)?;
        }
    }
    Ok(pointer)
}

/// Whether the first answer is a value that starts at an offset.
fn starts_at(answers: &[Result<Found, FindFault>], offset: usize) -> bool
    ensures { IsTrue result → StartsAt offset answers.now }
{
    match answers.first() {
        Some(Ok(found)) => found.span.start == offset,
        _ => false,
    }
}

/// Whether a pointer leads to the value of a row in a text, whatever names its objects have.
fn finds(
    alloc: Global,
    text: &[u8],
    settings: &Settings,
    pointer: Pointer,
    row: &Around,
) -> Result<bool, AllocError>
    ensures { IfOk result (λ found. IsTrue found → (tree : Tree) (number : ℕ) → IsDocumentBy settings.now 0 text.now tree
        → slice_get (rows tree) number ≡ Some row.now → leads text.now tree (tokens pointer.entry) ≡ Ok number) }
{
    strings_pointers_and_rows();
    rows_of_look_ups();
    unique_tree_by_settings();
    let any = Settings {
        depth: settings.depth,
        mark: settings.mark,
        names: NameRule::Any,
    };
    match find_each_by(alloc, text, &any, &[pointer])? {
        Err(_) => Ok(false),
        Ok(found) => Ok(starts_at(&found, row.span.start)),
    }
}

/// Whether some bytes are a pointer that leads to the value of a row.
fn leads_to(
    alloc: Global,
    text: &[u8],
    settings: &Settings,
    pointer: &[u8],
    row: &Around,
) -> Result<bool, AllocError>
    ensures { IfOk result (λ led. IsTrue led → (tree : Tree) (number : ℕ) → IsDocumentBy settings.now 0 text.now tree
        → slice_get (rows tree) number ≡ Some row.now → leads text.now tree (tokens pointer.now) ≡ Ok number) }
{
    let Ok(spelt) = str::from_utf8(pointer) else {
        return Ok(false);
    };
    let Ok(pointer) = Pointer::read(spelt) else {
        return Ok(false);
    };
    finds(alloc, text, settings, pointer, row)
}

/// The pointer to the value of a row, by the rows on the way to it, of which it is the last. It is looked up before it is
/// returned: there is none where a name on the way is repeated in its object, or has half of a surrogate pair without the other half.
pub(crate) fn pointer_to(
    alloc: Global,
    text: &[u8],
    settings: &Settings,
    way: &[Around],
    row: &Around,
) -> Result<Option<Vec<u8>>, AllocError>
    ensures { IfOk result (λ told. IfSome told (λ pointer. (tree : Tree) (number : ℕ) → IsDocumentBy settings.now 0 text.now tree
        → slice_get (rows tree) number ≡ Some row.now → leads text.now tree (tokens pointer.items) ≡ Ok number)) }
{
    let pointer = match spelt_way(alloc, text, way) {
        Ok(pointer) => pointer,
        Err(PointerLack::LoneSurrogate) => return Ok(None),
        Err(PointerLack::Memory) => return Err(AllocError),
    };
    let led = leads_to(alloc, text, settings, &pointer, row)?;
    if led { Ok(Some(pointer)) } else { Ok(None) }
}
