ghost use Rattle.std.specs.Prelude.{◌≡◌, ◌≢◌, ℕ, List, Option, Some, None, IfOk, IfErr, IfSome, IsErrOf, codes, true, false};
ghost use Rattle.jx_index.specs.ByNames.{IsVerdictBy};
ghost use Rattle.jx_run.specs.declared.texts.verdict.Verdict.TheVariants.{Accepted};
ghost use Rattle.jx_wire.specs.Messages.{wire_settings, IsFaultOf};
ghost use Rattle.jx_wire.specs.Requests.{text_in, AsksFor, CallsFor, IsHover, IsId, IsNamed, IsRefusedFor, IsRequest, IsSelection, TellsChange, TellsOf, TellsOpen};
ghost use Rattle.jx_wire.specs.Values.{Says};
ghost use Rattle.jx_wire.specs.inside.Nodes.{IsAt};
ghost use Rattle.jx_wire.specs.declared.call.Call.{Call};
ghost use Rattle.jx_wire.specs.declared.call.Place.{Place};
ghost use Rattle.jx_wire.specs.declared.call.Uri.{Uri};

use crate::call::{Call, Place, Request, Uri};
use crate::content::content_of;
use crate::message::Message;
use crate::method::{Method, method_of};
use crate::parameters::{
    ParameterFault, changes_of, offer_of, place_at, uri_of, versioned_of, whole_of,
};
use crate::positions::positions_of;
use crate::request_fault::RequestFault;
use jx_index::NodeId;
use jx_lex::Kind;
use jx_string::StringFault;
use std::alloc::{AllocError, Global};

/// The id of a message, as its bytes; none for a notification. `Err` where it is neither a string nor a number.
fn id_of(alloc: Global, message: &Message) -> Result<Option<Vec<u8>>, RequestFault>
    ensures ok { IfOk result (λ id. Says message.now (λ at. IsId (at (codes "/id")) id)) }
    ensures why { IfErr result (λ fault. Says message.now (λ at. IsRefusedFor at fault)) }
    ensures refused { IfErr result (λ fault. (body : List ℕ) → IsVerdictBy wire_settings body Accepted → IsFaultOf body fault) }
{
    match message.top_value("id") {
        None => Ok(None),
        Some(value) => match value.kind {
            Kind::String | Kind::Number => {
                let id = Vec::from_slice(alloc, value.bytes)?;
                Ok(Some(id))
            }
            _ => Err(RequestFault::NoRequest { id: None }),
        },
    }
}

/// Whether a message is of JSON-RPC 2.0.
fn is_of_protocol(alloc: Global, message: &Message) -> Result<bool, AllocError>
    ensures yes { IfOk result (λ is. is ≡ true → Says message.now (λ at. text_in (at (codes "/jsonrpc")) ≡ Some (codes "2.0"))) }
    ensures no { IfOk result (λ is. is ≡ false → Says message.now (λ at. text_in (at (codes "/jsonrpc")) ≢ Some (codes "2.0"))) }
{
    match message.top_value("jsonrpc") {
        Some(value) => value.stands_for(alloc, b"2.0"),
        None => Ok(false),
    }
}

/// The method of a message; none where it has none.
fn method_in(alloc: Global, message: &Message) -> Result<Option<Vec<u8>>, AllocError>
    ensures some { IfOk result (λ name. IfSome name (λ name. Says message.now (λ at. text_in (at (codes "/method")) ≡ Some name.items))) }
    ensures none { IfOk result (λ name. name ≡ None → Says message.now (λ at. text_in (at (codes "/method")) ≡ None)) }
{
    let Some(value) = message.top_value("method") else {
        return Ok(None);
    };
    match value.text(alloc) {
        Ok(name) => Ok(Some(name)),
        Err(StringFault::Memory) => Err(AllocError),
        Err(StringFault::NoString | StringFault::LoneSurrogate) => Ok(None),
    }
}

/// The name of the method of a message; none where it has none, or is of another protocol.
fn name_of(alloc: Global, message: &Message) -> Result<Option<Vec<u8>>, AllocError>
    ensures some { IfOk result (λ name. IfSome name (λ name. Says message.now (λ at. IsNamed at name.items))) }
    ensures none { IfOk result (λ name. name ≡ None → Says message.now (λ at. (name : List ℕ) → IsNamed at name → ⊥)) }
{
    if !is_of_protocol(alloc, message)? {
        return Ok(None);
    }
    method_in(alloc, message)
}

/// The call of a request. One about a document is answered by how far the client has come, even where its parameters are wrong.
fn request_call(
    alloc: Global,
    message: &Message,
    params: &Option<NodeId>,
    method: Method,
) -> Result<Call, ParameterFault>
    requires { IsAt message.now (codes "/params") params.now }
    ensures ok { IfOk result (λ call. Says message.now (λ at. AsksFor at method call)) }
    ensures wrong { IsErrOf result ParameterFault.Wrong → Says message.now (λ at. (call : Call) → AsksFor at method call → ⊥) }
{
    match method {
        Method::Initialize => Ok(Call::Initialize(offer_of(alloc, message, params)?)),
        Method::Shutdown => Ok(Call::Shutdown),
        Method::Hover => match hover_of(alloc, message, params) {
            Ok((uri, place)) => Ok(Call::Hover { uri, place }),
            Err(ParameterFault::Wrong) => Ok(Call::WrongParameters),
            Err(ParameterFault::Memory) => Err(ParameterFault::Memory),
        },
        Method::Symbols => match uri_of(alloc, message, params) {
            Ok(uri) => Ok(Call::Symbols(uri)),
            Err(ParameterFault::Wrong) => Ok(Call::WrongParameters),
            Err(ParameterFault::Memory) => Err(ParameterFault::Memory),
        },
        Method::Folds => match uri_of(alloc, message, params) {
            Ok(uri) => Ok(Call::Folds(uri)),
            Err(ParameterFault::Wrong) => Ok(Call::WrongParameters),
            Err(ParameterFault::Memory) => Err(ParameterFault::Memory),
        },
        Method::Selection => match selection_of(alloc, message, params) {
            Ok((uri, places)) => Ok(Call::Selection { uri, places }),
            Err(ParameterFault::Wrong) => Ok(Call::WrongParameters),
            Err(ParameterFault::Memory) => Err(ParameterFault::Memory),
        },
        Method::Exit | Method::Open | Method::Change | Method::Close | Method::Other => {
            Ok(Call::Other)
        }
    }
}

/// The document and the place that a request asks about.
fn hover_of(
    alloc: Global,
    message: &Message,
    params: &Option<NodeId>,
) -> Result<(Uri, Place), ParameterFault>
    requires { IsAt message.now (codes "/params") params.now }
    ensures ok { IfOk result (λ asked. Says message.now (λ at. IsHover at asked.0 asked.1)) }
    ensures wrong { IsErrOf result ParameterFault.Wrong → Says message.now (λ at. (uri : Uri) (place : Place) → IsHover at uri place → ⊥) }
{
    let uri = uri_of(alloc, message, params)?;
    let Some(place) = place_at(message, &message.member(params, "position")) else {
        return Err(ParameterFault::Wrong);
    };
    Ok((uri, place))
}

/// The document and the places that a request asks about.
fn selection_of(
    alloc: Global,
    message: &Message,
    params: &Option<NodeId>,
) -> Result<(Uri, Vec<Place>), ParameterFault>
    requires { IsAt message.now (codes "/params") params.now }
    ensures ok { IfOk result (λ asked. Says message.now (λ at. IsSelection at asked.0 asked.1.items)) }
    ensures wrong { IsErrOf result ParameterFault.Wrong → Says message.now (λ at. (uri : Uri) (places : List Place) → IsSelection at uri places → ⊥) }
{
    let uri = uri_of(alloc, message, params)?;
    let places = positions_of(alloc, message, &message.member(params, "positions"))?;
    Ok((uri, places))
}

/// A document is opened.
fn open_call(
    alloc: Global,
    message: &Message,
    params: &Option<NodeId>,
) -> Result<Call, ParameterFault>
    requires { IsAt message.now (codes "/params") params.now }
    ensures ok { IfOk result (λ call. Says message.now (λ at. TellsOpen at call)) }
    ensures wrong { IsErrOf result ParameterFault.Wrong → Says message.now (λ at. (call : Call) → TellsOpen at call → ⊥) }
{
    let mut document = versioned_of(alloc, message, params)?;
    // It is kept as long as the document is open.
    document.uri.name.shrink_to_fit();
    let node = message.member(params, "textDocument");
    let content = content_of(alloc, message, &node, &document.uri)?;
    let text = whole_of(alloc, message.value_in(&node, "text"))?;
    Ok(Call::Open {
        document,
        content,
        text,
    })
}

/// A document is changed.
fn change_call(
    alloc: Global,
    message: &Message,
    params: &Option<NodeId>,
) -> Result<Call, ParameterFault>
    requires { IsAt message.now (codes "/params") params.now }
    ensures ok { IfOk result (λ call. Says message.now (λ at. TellsChange at call)) }
    ensures wrong { IsErrOf result ParameterFault.Wrong → Says message.now (λ at. (call : Call) → TellsChange at call → ⊥) }
{
    let document = versioned_of(alloc, message, params)?;
    let changes = changes_of(alloc, message, &message.member(params, "contentChanges"))?;
    Ok(Call::Change { document, changes })
}

/// The call of a notification.
fn notification_call(
    alloc: Global,
    message: &Message,
    params: &Option<NodeId>,
    method: Method,
) -> Result<Call, ParameterFault>
    requires { IsAt message.now (codes "/params") params.now }
    ensures ok { IfOk result (λ call. Says message.now (λ at. TellsOf at method call)) }
    ensures wrong { IsErrOf result ParameterFault.Wrong → Says message.now (λ at. (call : Call) → TellsOf at method call → ⊥) }
{
    match method {
        Method::Exit => Ok(Call::Exit),
        Method::Open => open_call(alloc, message, params),
        Method::Change => change_call(alloc, message, params),
        Method::Close => {
            let uri = uri_of(alloc, message, params)?;
            Ok(Call::Close(uri))
        }
        Method::Initialize
        | Method::Shutdown
        | Method::Hover
        | Method::Symbols
        | Method::Folds
        | Method::Selection
        | Method::Other => Ok(Call::Other),
    }
}

/// The call of a message with this id and this method.
fn call_of(
    alloc: Global,
    message: &Message,
    id: &Option<Vec<u8>>,
    name: &[u8],
) -> Result<Call, ParameterFault>
    ensures ok { IfOk result (λ call. Says message.now (λ at. CallsFor at name.now id.now call)) }
    ensures wrong { IsErrOf result ParameterFault.Wrong → Says message.now (λ at. (call : Call) → CallsFor at name.now id.now call → ⊥) }
{
    let method = method_of(name);
    let params = message.member(&message.root(), "params");
    match id {
        Some(_) => request_call(alloc, message, &params, method),
        None => notification_call(alloc, message, &params, method),
    }
}

/// The request in the body of a frame: a JSON text within a depth of 64 that repeats no name, and has a method.
pub fn request_of(alloc: Global, body: &[u8]) -> Result<Request, RequestFault>
    ensures text { IfOk result (λ _. IsVerdictBy wire_settings body.now Accepted) }
    // The request, by the values to which pointers lead in the body's tree.
    ensures says { IfOk result (λ request. Says body.now (λ at. IsRequest at request)) }
    ensures refused { IfErr result (IsFaultOf body.now) }
    // A refused body is no request.
    ensures why { IfErr result (λ fault. Says body.now (λ at. IsRefusedFor at fault)) }
{
    let message = match Message::read(alloc, body)? {
        Ok(message) => message,
        Err(refusal) => return Err(RequestFault::NoText(refusal)),
    };
    let id = id_of(alloc, &message)?;
    let Some(name) = name_of(alloc, &message)? else {
        return Err(RequestFault::NoRequest { id });
    };
    match call_of(alloc, &message, &id, &name) {
        Ok(call) => Ok(Request { id, call }),
        Err(ParameterFault::Wrong) => Err(RequestFault::WrongParameters { id }),
        Err(ParameterFault::Memory) => Err(RequestFault::Memory),
    }
}
