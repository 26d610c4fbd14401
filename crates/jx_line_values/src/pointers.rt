// Strings that are read as pointers before a line is read.
ghost use Rattle.std.specs.Prelude.{◌≡◌, ◌<◌, All, Some, length, map, slice_get, string_bytes, IfNone, IfOk, IfSome};
ghost use Rattle.jx_index.specs.Pointers.{IsPointer};
ghost use Rattle.jx_index.specs.PointerFaults.{IsFaultOf};
ghost use Rattle.jx_line_values.specs.LineValues.{IsMisspelt};

use jx_index::{Pointer, PointerFault};
use std::alloc::{AllocError, Global};

/// A string that is no pointer, and why.
#[derive(Clone, Copy, Debug, PartialEq, Eq)]
pub struct Misspelt<'p> {
    pub word: &'p str,
    pub fault: PointerFault,
}

/// Why a string is not a pointer, if so.
fn fault_of(spelt: &str) -> Option<PointerFault>
    ensures none { IfNone result (IsPointer spelt.now) }
    ensures fault { IfSome result (IsFaultOf spelt.now) }
{
    match Pointer::read(spelt) {
        Ok(_) => None,
        Err(fault) => Some(fault),
    }
}

/// The string at this place, counted from 0.
pub(crate) fn spelt_at(pointers: &[String], place: usize) -> &str
    requires { place < length pointers.now }
    ensures { slice_get (map string_bytes pointers.now) place ≡ Some result.now }
{
    pointers[place].as_str()
}

/// The first of some strings that is no pointer (RFC 6901, section 3), and why. None where each is one.
pub fn first_misspelt(pointers: &[String]) -> Option<Misspelt<'_>>
    ensures none { IfNone result (All IsPointer (map string_bytes pointers.now)) }
    ensures fault { IfSome result (λ misspelt. IsMisspelt (map string_bytes pointers.now) misspelt.word.now misspelt.fault) }
{
    for place in 0..pointers.len() {
        let word = spelt_at(pointers, place);
        if let Some(fault) = fault_of(word) {
            return Some(Misspelt { word, fault });
        }
    }
    None
}

/// A string that is a pointer, read as one.
fn read_one(spelt: &str) -> Pointer<'_>
    requires { IsPointer spelt.now }
    ensures { result ≡ spelt.now }
{
    match Pointer::read(spelt) {
        Ok(pointer) => pointer,
        Err(_) => unreachable!(),
    }
}

/// Strings that are pointers, read as such, in their order.
pub(crate) fn read_all<'p>(
    alloc: Global,
    spelt: &'p [String],
) -> Result<Vec<Pointer<'p>>, AllocError>
    requires { All IsPointer (map string_bytes spelt.now) }
    ensures { IfOk result (λ pointers. pointers.items ≡ map string_bytes spelt.now) }
{
    let mut pointers = Vec::with_capacity(alloc, spelt.len())?;
    for place in 0..spelt.len() {
        pointers.push(read_one(spelt_at(spelt, place)))?;
    }
    Ok(pointers)
}
