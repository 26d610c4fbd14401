// Values of a document as symbols, in messages.
ghost use Rattle.std.specs.Prelude.{◌≡◌, [], true, IfOk, OnOk};
ghost use Rattle.jx_serve.specs.inside.Sound.{kind_member, AddsNamed, AddsString, AddsValue, IsAString, IsPlainValue, IsWhole};

use crate::plain::{both, is_plain_value, is_unescaped_string, plain_inside};
use crate::symbols::{Outline, Symbol};
use crate::value_words::{add_comma, add_ends, add_number, begin_list};
use jx_index::Row;
use jx_lex::Kind;
use jx_wire::{StringFault, quoted, unescaped};
use std::alloc::{AllocError, Global};
use std::str;

/// The member for a kind, with the commas around it (Language Server Protocol 3.17, "SymbolKind").
fn kind_member(kind: Kind) -> &'static [u8]
    ensures { result.now ≡ kind_member kind }
{
    match kind {
        Kind::String => b",\"kind\":15,",
        Kind::Number => b",\"kind\":16,",
        Kind::True | Kind::False => b",\"kind\":17,",
        Kind::Array => b",\"kind\":18,",
        Kind::Object => b",\"kind\":19,",
        Kind::Null => b",\"kind\":21,",
    }
}

/// Whether a text has no other characters than those that editors count as white space.
fn is_blank(text: &[u8]) -> bool {
    let Ok(text) = str::from_utf8(text) else {
        return false;
    };
    for character in text.chars() {
        if !character.is_whitespace() && character != '\u{feff}' {
            return false;
        }
    }
    true
}

/// The name of a member as a string, as the text has it. Editors refuse a name of white space alone, so its quotation marks are shown
/// too. Some refuse half of a surrogate pair, so the text's own encoding of it is shown.
fn shown_name(alloc: Global, spelt: &[u8]) -> Result<Vec<u8>, AllocError> {
    match unescaped(alloc, spelt) {
        Ok(name) if is_blank(&name) => quoted(alloc, spelt),
        Ok(_) => Vec::from_slice(alloc, spelt),
        Err(StringFault::Memory) => Err(AllocError),
        Err(StringFault::NoString | StringFault::LoneSurrogate) => {
            let inside = spelt.get(1..spelt.len().saturating_sub(1));
            quoted(alloc, inside.unwrap_or(spelt))
        }
    }
}

/// Adds a string, and returns whether it is known to be one.
fn add_string(out: &mut Vec<u8>, string: &[u8]) -> Result<bool, AllocError>
    ensures { IfOk result (λ known. known ≡ true → AddsString out.old.items out.new.items) }
{
    out.extend_from_slice(string)?;
    Ok(is_unescaped_string(string))
}

/// Adds the name of a member as a string, and returns whether it is known to be one.
fn add_member_name(alloc: Global, out: &mut Vec<u8>, spelt: &[u8]) -> Result<bool, AllocError>
    ensures { IfOk result (λ known. known ≡ true → AddsString out.old.items out.new.items) }
{
    match plain_inside(spelt) {
        Some(inside) if !is_blank(inside) => {
            out.extend_from_slice(spelt)?;
            Ok(true)
        }
        _ => {
            let name = shown_name(alloc, spelt)?;
            add_string(out, &name)
        }
    }
}

/// Adds the place of an element as a string.
fn add_place(out: &mut Vec<u8>, place: usize) -> Result<(), AllocError>
    ensures { OnOk result (AddsString out.old.items out.new.items) }
{
    out.extend_from_slice(b"\"")?;
    add_number(out, place)?;
    out.extend_from_slice(b"\"")?;
    Ok(())
}

/// Adds the name of a value as a string: that of a member, or the place in an array. Returns whether it is known to be one.
fn add_name(alloc: Global, out: &mut Vec<u8>, text: &[u8], row: &Row) -> Result<bool, AllocError>
    ensures { IfOk result (λ known. known ≡ true → AddsString out.old.items out.new.items) }
{
    match row.name {
        Some(span) => {
            let spelt = text.get(span.start..span.end).unwrap_or(&[]);
            add_member_name(alloc, out, spelt)
        }
        None if row.parent.is_none() => {
            out.extend_from_slice(b"\"root\"")?;
            Ok(true)
        }
        None => {
            add_place(out, row.place)?;
            Ok(true)
        }
    }
}

/// Begins a symbol: the name of a value and its kind, and the comma after them. Returns whether the name is known to be a string.
pub(crate) fn add_named(
    alloc: Global,
    out: &mut Vec<u8>,
    text: &[u8],
    row: &Row,
) -> Result<bool, AllocError>
    ensures { IfOk result (λ known. known ≡ true → AddsNamed out.old.items out.new.items) }
{
    out.extend_from_slice(b"{\"name\":")?;
    let known = add_name(alloc, out, text, row)?;
    out.extend_from_slice(kind_member(row.kind))?;
    Ok(known)
}

/// Adds a value as a `SymbolInformation`. Returns whether its name is known to be a string.
fn add_symbol(
    alloc: Global,
    out: &mut Vec<u8>,
    uri: &[u8],
    text: &[u8],
    symbol: &Symbol,
) -> Result<bool, AllocError>
    ensures { IfOk result (λ known. known ≡ true → IsAString uri.now → AddsValue 510 out.old.items out.new.items) }
{
    let known = add_named(alloc, out, text, &symbol.row)?;
    out.extend_from_slice(b"\"location\":{\"uri\":")?;
    out.extend_from_slice(uri)?;
    out.extend_from_slice(b",\"range\":")?;
    add_ends(out, symbol.outer, symbol.end)?;
    out.extend_from_slice(b"}}")?;
    Ok(known)
}

/// Whether the id of a request and the name of a document are known to be JSON.
fn are_known(id: &[u8], uri: &[u8]) -> bool
    ensures id { result ≡ true → IsPlainValue id.now }
    ensures uri { result ≡ true → IsAString uri.now }
{
    is_plain_value(id) && is_unescaped_string(uri)
}

/// Adds the answer that lists values. Returns whether it is known to be a JSON text that repeats no name.
pub(crate) fn add_outlined(
    alloc: Global,
    out: &mut Vec<u8>,
    id: &[u8],
    uri: &[u8],
    outline: &Outline,
) -> Result<bool, AllocError>
    requires { out.old.items ≡ [] }
    ensures { IfOk result (λ known. known ≡ true → IsWhole 512 out.new.items) }
{
    begin_list(out, id)?;
    let mut known = are_known(id, uri);
    for (number, symbol) in outline.symbols.iter().enumerate() {
        add_comma(out, number == 0)?;
        let is_known = add_symbol(alloc, out, uri, &outline.text, symbol)?;
        known = both(known, is_known);
    }
    out.extend_from_slice(b"]}")?;
    Ok(known)
}
