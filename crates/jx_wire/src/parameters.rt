// The parameters of the calls that the server knows.
ghost use Rattle.std.specs.Prelude.{◌≡◌, ◌++◌, ◌∷◌, ℕ, Option, Some, None, IfOk, IfErr, IfSome, IsErrOf, OnOk, List, [], codes, true};
ghost use Rattle.jx_wire.specs.declared.call.Change.{Change};
ghost use Rattle.jx_wire.specs.declared.call.Offer.{Offer};
ghost use Rattle.jx_wire.specs.declared.call.Place.{Place};
ghost use Rattle.jx_wire.specs.declared.call.Uri.{Uri};
ghost use Rattle.jx_wire.specs.declared.call.Versioned.{Versioned};
ghost use Rattle.jx_wire.specs.Requests.{flag_in, is_true_in, items_in, number_in, number_spelt, AreChanges, IsBetween, IsChange, IsDepth, IsOffer, IsPlace, IsUri, IsVersioned, IsWhole, Offers};
ghost use Rattle.jx_wire.specs.Values.{seen, text_by, Says};
ghost use Rattle.jx_wire.specs.inside.Changes.{ranged};
ghost use Rattle.jx_wire.specs.inside.Nodes.{is_word, IsAt};
ghost use Rattle.jx_wire.specs.inside.Spelt.{IsSpelt};

use crate::call::{Change, Offer, Place, Uri, Versioned};
use crate::message::{Message, Value};
use jx_index::NodeId;
use jx_lex::Kind;
use jx_string::StringFault;
use std::alloc::{AllocError, Global};

/// Why parameters are not read.
#[derive(Clone, Copy, Debug, PartialEq, Eq)]
pub(crate) enum ParameterFault {
    /// One is missing or of a wrong kind.
    Wrong,
    /// An allocation failed.
    Memory,
}

impl From<AllocError> for ParameterFault {
    ghost use Rattle.std.specs.Prelude.{◌≡◌};
    ghost use Rattle.jx_wire.specs.declared.parameters.ParameterFault.TheVariants.{Memory};

    ghost from_gives = { λ _ fault. fault ≡ Memory };

    fn from(_: AllocError) -> ParameterFault {
        ParameterFault::Memory
    }
}

/// The text that a string stands for.
fn text_of(alloc: Global, value: &Value) -> Result<Vec<u8>, ParameterFault>
    ensures ok { IsSpelt value.now → IfOk result (λ text. text_by value.now.kind value.now.bytes.now ≡ Some text.items) }
    ensures wrong { IsSpelt value.now → IsErrOf result ParameterFault.Wrong → text_by value.now.kind value.now.bytes.now ≡ None }
{
    match value.text(alloc) {
        Ok(text) => Ok(text),
        Err(StringFault::NoString | StringFault::LoneSurrogate) => Err(ParameterFault::Wrong),
        Err(StringFault::Memory) => Err(ParameterFault::Memory),
    }
}

/// The name of the document that a message is about.
pub(crate) fn uri_of(
    alloc: Global,
    message: &Message,
    params: &Option<NodeId>,
) -> Result<Uri, ParameterFault>
    requires { IsAt message.now (codes "/params") params.now }
    ensures ok { IfOk result (λ uri. Says message.now (λ at. IsUri at uri)) }
    ensures wrong { IsErrOf result ParameterFault.Wrong → Says message.now (λ at. (uri : Uri) → IsUri at uri → ⊥) }
{
    let document = message.member(params, "textDocument");
    let Some(value) = message.value_in(&document, "uri") else {
        return Err(ParameterFault::Wrong);
    };
    let name = text_of(alloc, &value)?;
    let spelt = Vec::from_slice(alloc, value.bytes)?;
    Ok(Uri { name, spelt })
}

/// The version of the document that a message is about. One that is no number is as none.
fn version_of(
    alloc: Global,
    message: &Message,
    document: &Option<NodeId>,
) -> Result<Option<Vec<u8>>, AllocError>
    requires { IsAt message.now (codes "/params/textDocument") document.now }
    ensures { IfOk result (λ version. Says message.now (λ at. number_spelt (at (codes "/params/textDocument/version")) ≡ items_in version)) }
{
    match message.value_in(document, "version") {
        None => Ok(None),
        Some(value) => match value.kind {
            Kind::Number => {
                let version = Vec::from_slice(alloc, value.bytes)?;
                Ok(Some(version))
            }
            _ => Ok(None),
        },
    }
}

/// The document that a message is about, with its version.
pub(crate) fn versioned_of(
    alloc: Global,
    message: &Message,
    params: &Option<NodeId>,
) -> Result<Versioned, ParameterFault>
    requires { IsAt message.now (codes "/params") params.now }
    ensures ok { IfOk result (λ document. Says message.now (λ at. IsVersioned at document)) }
    ensures wrong { IsErrOf result ParameterFault.Wrong → Says message.now (λ at. (document : Versioned) → IsVersioned at document → ⊥) }
{
    let uri = uri_of(alloc, message, params)?;
    let version = version_of(alloc, message, &message.member(params, "textDocument"))?;
    Ok(Versioned { uri, version })
}

/// The change that puts a text in the place of all bytes, where the value is a string.
pub(crate) fn whole_of(alloc: Global, value: Option<Value>) -> Result<Change, ParameterFault>
    ensures ok { IfSome value.entry IsSpelt → IfOk result (IsWhole (seen value.entry)) }
    ensures wrong { IfSome value.entry IsSpelt → IsErrOf result ParameterFault.Wrong → (change : Change) → IsWhole (seen value.entry) change → ⊥ }
{
    let Some(value) = value else {
        return Err(ParameterFault::Wrong);
    };
    match value.text(alloc) {
        Ok(text) => Ok(Change::Whole(text)),
        Err(StringFault::LoneSurrogate) => Ok(Change::Unknown),
        Err(StringFault::NoString) => Err(ParameterFault::Wrong),
        Err(StringFault::Memory) => Err(ParameterFault::Memory),
    }
}

/// The number that a member is.
fn number_in(message: &Message, node: &Option<NodeId>, name: &str) -> Option<usize>
    ensures { is_word name.now ≡ true → (pointer : List ℕ) → IsAt message.now pointer node.now
        → Says message.now (λ at. number_in (at (pointer ++ 0x2f ∷ name.now)) ≡ result) }
{
    message.value_in(node, name)?.number()
}

/// The place in a node, if it has one.
pub(crate) fn place_at(message: &Message, node: &Option<NodeId>) -> Option<Place>
    ensures some { (pointer : List ℕ) → IsAt message.now pointer node.now → IfSome result (λ place. Says message.now (λ at. IsPlace at pointer place)) }
    ensures none { (pointer : List ℕ) → IsAt message.now pointer node.now → result ≡ None → Says message.now (λ at. (place : Place) → IsPlace at pointer place → ⊥) }
{
    let line = number_in(message, node, "line")?;
    let character = number_in(message, node, "character")?;
    Some(Place { line, character })
}

/// The start and the end of a range.
fn places_of(message: &Message, range: &Option<NodeId>) -> Option<(Place, Place)>
    ensures some { (pointer : List ℕ) → IsAt message.now (pointer ++ codes "/range") range.now
        → IfSome result (λ places. Says message.now (λ at. IsBetween at pointer places.0 places.1)) }
    ensures none { (pointer : List ℕ) → IsAt message.now (pointer ++ codes "/range") range.now → result ≡ None
        → Says message.now (λ at. (start end : Place) → IsBetween at pointer start end → ⊥) }
{
    let start = place_at(message, &message.member(range, "start"))?;
    let end = place_at(message, &message.member(range, "end"))?;
    Some((start, end))
}

/// A text in the place of a range.
fn ranged(whole: Change, start: Place, end: Place) -> Change
    ensures { result ≡ ranged whole start end }
{
    match whole {
        Change::Whole(text) => Change::Range { start, end, text },
        other => other,
    }
}

/// The change in a node.
fn change_at(
    alloc: Global,
    message: &Message,
    node: &Option<NodeId>,
) -> Result<Change, ParameterFault>
    ensures ok { (pointer : List ℕ) → IsAt message.now pointer node.now → IfOk result (λ change. Says message.now (λ at. IsChange at pointer change)) }
    ensures wrong { (pointer : List ℕ) → IsAt message.now pointer node.now → IsErrOf result ParameterFault.Wrong
        → Says message.now (λ at. (change : Change) → IsChange at pointer change → ⊥) }
{
    let whole = whole_of(alloc, message.value_in(node, "text"))?;
    let range = message.member(node, "range");
    if range.is_none() {
        return Ok(whole);
    }
    let Some((start, end)) = places_of(message, &range) else {
        return Err(ParameterFault::Wrong);
    };
    Ok(ranged(whole, start, end))
}

/// Adds an element after others.
pub(crate) fn add<T: Drop>(list: &mut Vec<T>, element: T) -> Result<(), AllocError>
    ensures { OnOk result (list.new.items ≡ list.old.items ++ element ∷ []) }
{
    list.push(element)?;
    Ok(())
}

/// The changes of a message, which are a list.
pub(crate) fn changes_of(
    alloc: Global,
    message: &Message,
    list: &Option<NodeId>,
) -> Result<Vec<Change>, ParameterFault>
    requires { IsAt message.now (codes "/params/contentChanges") list.now }
    ensures ok { IfOk result (λ changes. Says message.now (λ at. AreChanges at changes.items)) }
    ensures wrong { IsErrOf result ParameterFault.Wrong → Says message.now (λ at. (changes : List Change) → AreChanges at changes → ⊥) }
{
    let Some(elements) = message.elements(list) else {
        return Err(ParameterFault::Wrong);
    };
    let mut changes = Vec::new(alloc);
    for element in elements {
        let change = change_at(alloc, message, &Some(element))?;
        add(&mut changes, change)?;
    }
    Ok(changes)
}

/// Whether a setting is on. One that is missing is off.
fn is_on(message: &Message, node: &Option<NodeId>, name: &str) -> Option<bool>
    ensures { is_word name.now ≡ true → (pointer : List ℕ) → IsAt message.now pointer node.now
        → Says message.now (λ at. flag_in (at (pointer ++ 0x2f ∷ name.now)) ≡ result) }
{
    match message.value_in(node, name) {
        None => Some(false),
        Some(value) => match value.kind {
            Kind::True => Some(true),
            Kind::False => Some(false),
            _ => None,
        },
    }
}

/// The depth that is asked for. It is at most 65,535.
fn depth_of(message: &Message, options: &Option<NodeId>) -> Result<Option<usize>, ParameterFault>
    requires { IsAt message.now (codes "/params/initializationOptions") options.now }
    ensures ok { IfOk result (λ depth. Says message.now (λ at. IsDepth (at (codes "/params/initializationOptions/depth")) depth)) }
    ensures wrong { IfErr result (λ _. Says message.now (λ at. (depth : Option ℕ) → IsDepth (at (codes "/params/initializationOptions/depth")) depth → ⊥)) }
{
    match message.value_in(options, "depth") {
        None => Ok(None),
        Some(value) => match value.number() {
            Some(depth) if depth <= 65535 => Ok(Some(depth)),
            _ => Err(ParameterFault::Wrong),
        },
    }
}

/// Whether the client can count columns in bytes. An object may list its encodings with numbers for names, so that they are
/// asked for by pointers.
fn counts_bytes(alloc: Global, message: &Message) -> Result<bool, AllocError>
    ensures { IfOk result (λ utf8. Says message.now (λ at. Offers at 0 utf8)) }
{
    for number in 0..u64::MAX {
        let pointer = format!(in alloc; "/params/capabilities/general/positionEncodings/{number}")?;
        let Some(value) = message.at(pointer.as_str()) else {
            return Ok(false);
        };
        if value.stands_for(alloc, b"utf-8")? {
            return Ok(true);
        }
    }
    // There are more encodings than a word counts.
    Err(AllocError)
}

/// Whether a capability is `true`.
fn is_true(message: &Message, node: &Option<NodeId>, name: &str) -> bool
    ensures { is_word name.now ≡ true → (pointer : List ℕ) → IsAt message.now pointer node.now
        → Says message.now (λ at. is_true_in (at (pointer ++ 0x2f ∷ name.now)) ≡ result) }
{
    match message.value_in(node, name) {
        None => false,
        Some(value) => match value.kind {
            Kind::True => true,
            _ => false,
        },
    }
}

/// Whether a client can show symbols in symbols.
fn shows_nested(message: &Message, params: &Option<NodeId>) -> bool
    requires { IsAt message.now (codes "/params") params.now }
    ensures { Says message.now (λ at. is_true_in (at (codes "/params/capabilities/textDocument/documentSymbol/hierarchicalDocumentSymbolSupport")) ≡ result) }
{
    let capabilities = message.member(params, "capabilities");
    let document = message.member(&capabilities, "textDocument");
    let symbols = message.member(&document, "documentSymbol");
    is_true(message, &symbols, "hierarchicalDocumentSymbolSupport")
}

/// The capabilities that a client offers with `initialize`.
pub(crate) fn offer_of(
    alloc: Global,
    message: &Message,
    params: &Option<NodeId>,
) -> Result<Offer, ParameterFault>
    requires { IsAt message.now (codes "/params") params.now }
    ensures ok { IfOk result (λ offer. Says message.now (λ at. IsOffer at offer)) }
    ensures wrong { IsErrOf result ParameterFault.Wrong → Says message.now (λ at. (offer : Offer) → IsOffer at offer → ⊥) }
{
    let options = message.member(params, "initializationOptions");
    let utf8 = counts_bytes(alloc, message)?;
    let depth = depth_of(message, &options)?;
    let Some(ignore_bom) = is_on(message, &options, "ignoreBom") else {
        return Err(ParameterFault::Wrong);
    };
    let Some(unique_names) = is_on(message, &options, "uniqueNames") else {
        return Err(ParameterFault::Wrong);
    };
    let nested = shows_nested(message, params);
    Ok(Offer {
        utf8,
        depth,
        ignore_bom,
        unique_names,
        nested,
    })
}
