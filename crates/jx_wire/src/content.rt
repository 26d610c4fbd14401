// The content of a document that is opened: one text, or JSON Lines.
ghost use Rattle.std.specs.Prelude.{◌≡◌, IfOk, IfSome, codes};
ghost use Rattle.jx_wire.specs.Requests.{content_by, ends_in, has_lines, is_of_lines, items_in, text_in, HasContent};
ghost use Rattle.jx_wire.specs.Values.{seen, Says};
ghost use Rattle.jx_wire.specs.inside.Nodes.{IsAt};
ghost use Rattle.jx_wire.specs.inside.Spelt.{IsSpelt};

use crate::call::{Content, Uri};
use crate::message::{Message, Value};
use jx_index::NodeId;
use jx_string::StringFault;
use std::alloc::{AllocError, Global};

/// Whether a language is one of JSON Lines, as editors name it.
fn is_of_lines(language: &[u8]) -> bool
    ensures { result ≡ is_of_lines language.now }
{
    language == b"jsonl".as_slice()
        || language == b"ndjson".as_slice()
        || language == b"jsonlines".as_slice()
}

/// The text that a string stands for; none where there is no value or another one, and of a string with half of a surrogate pair.
fn text_of(alloc: Global, value: Option<Value>) -> Result<Option<Vec<u8>>, AllocError>
    ensures { IfSome value.entry IsSpelt → IfOk result (λ text. text_in (seen value.entry) ≡ items_in text) }
{
    let Some(value) = value else {
        return Ok(None);
    };
    match value.text(alloc) {
        Ok(text) => Ok(Some(text)),
        Err(StringFault::NoString | StringFault::LoneSurrogate) => Ok(None),
        Err(StringFault::Memory) => Err(AllocError),
    }
}

/// Whether a language is one of JSON Lines; false where there is no language.
fn has_lines(language: &Option<Vec<u8>>) -> bool
    ensures { result ≡ has_lines (items_in language.now) }
{
    match language {
        None => false,
        Some(language) => is_of_lines(language),
    }
}

/// Whether a name ends so.
fn ends_in(name: &[u8], ending: &[u8]) -> bool
    ensures { result ≡ ends_in ending.now name.now }
{
    name.get(name.len().saturating_sub(ending.len())..)
        .unwrap_or(&[])
        == ending
}

/// The content of a document by its language and its name.
fn content_by(language: &Option<Vec<u8>>, name: &[u8]) -> Content
    ensures { result ≡ content_by (items_in language.now) name.now }
{
    if has_lines(language) || ends_in(name, b".jsonl") || ends_in(name, b".ndjson") {
        Content::Lines
    } else {
        Content::Text
    }
}

/// The content of the document that a message opens.
pub(crate) fn content_of(
    alloc: Global,
    message: &Message,
    document: &Option<NodeId>,
    uri: &Uri,
) -> Result<Content, AllocError>
    requires { IsAt message.now (codes "/params/textDocument") document.now }
    ensures { IfOk result (λ content. Says message.now (λ at. HasContent at uri.now content)) }
{
    let language = text_of(alloc, message.value_in(document, "languageId"))?;
    Ok(content_by(&language, &uri.name))
}
