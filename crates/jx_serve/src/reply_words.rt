// Replies as messages.
ghost use Rattle.std.specs.Prelude.{◌≡◌, ◌++◌, [], true, IfOk, IfSome, OnOk, string_bytes};
ghost use Rattle.jx_index.specs.ByNames.{IsVerdictBy};
ghost use Rattle.jx_run.specs.declared.texts.verdict.Verdict.TheVariants.{Accepted};
ghost use Rattle.jx_serve.specs.Messages.{message_settings};
ghost use Rattle.jx_serve.specs.inside.Sound.{IsWhole};
ghost use Rattle.jx_serve.specs.Words.{diagnostic, initialized, logged, null_of, number_of_code, opening, published, refused, told_at, word_of_refusal, words_of_code, words_of_id, words_of_place, words_of_refusal, words_of_trouble, IsMessageOf};

use crate::fold_words::add_folded;
use crate::line_words::add_published_lines;
use crate::mark::Mark;
use crate::nested_words::add_nested;
use crate::reply::{Code, Reply, Trouble};
use crate::selection_words::add_selected;
use crate::selections::Extent;
use crate::symbol_words::add_outlined;
use crate::value_words::{add_all, add_hovered, add_range};
use jx_index::verdict_with_unique_names;
use jx_lex::Depth;
use jx_run::{FrontMark, NameRule, NoPause, Refusal, Settings, Verdict};
use std::alloc::{AllocError, Global};

/// The version of the program.
pub const VERSION: &str = "0.3.0";

fn number_of_code(code: Code) -> &'static str
    ensures { result.now ≡ number_of_code code }
{
    match code {
        Code::ParseError => "-32700",
        Code::InvalidRequest => "-32600",
        Code::MethodNotFound => "-32601",
        Code::InvalidParams => "-32602",
        Code::NotInitialized => "-32002",
        Code::RequestFailed => "-32803",
    }
}

fn words_of_code(code: Code) -> &'static str
    ensures { result.now ≡ words_of_code code }
{
    match code {
        Code::ParseError => "no JSON text, or no frame",
        Code::InvalidRequest => "no request, or none at this time",
        Code::MethodNotFound => "method not known",
        Code::InvalidParams => "parameters missing or of a wrong kind",
        Code::NotInitialized => "not initialized",
        Code::RequestFailed => "out of memory",
    }
}

fn words_of_trouble(trouble: Trouble) -> &'static str
    ensures { result.now ≡ words_of_trouble trouble }
{
    match trouble {
        Trouble::WrongParameters => "jx: parameters missing or of a wrong kind",
        Trouble::NotOpen => "jx: document not open",
        Trouble::Lost => "jx: document lost until its whole text is sent",
        Trouble::Memory => "jx: out of memory",
    }
}

/// The word for a refusal.
pub(crate) fn code_of_refusal(refusal: Refusal) -> &'static str
    ensures { result.now ≡ word_of_refusal refusal }
{
    match refusal {
        Refusal::Stopped { .. } => "stopped",
        Refusal::Truncated => "truncated",
        Refusal::TooDeep { .. } => "too deep",
        Refusal::RepeatedName { .. } => "repeated name",
    }
}

/// The words of a refusal, as `jx check` prints them.
fn words_of_refusal(alloc: Global, refusal: Refusal) -> Result<String, AllocError>
    ensures { IfOk result (λ words. string_bytes words ≡ words_of_refusal refusal) }
{
    let words = code_of_refusal(refusal);
    match refusal {
        Refusal::Stopped { at } | Refusal::TooDeep { at } | Refusal::RepeatedName { at } => {
            format!(in alloc; "{words} at {at}")
        }
        Refusal::Truncated => String::from_str(alloc, words),
    }
}

/// The offset of a refusal, after its sentence.
pub(crate) fn words_of_place(alloc: Global, refusal: Refusal) -> Result<String, AllocError>
    ensures { IfOk result (λ words. string_bytes words ≡ words_of_place refusal) }
{
    match refusal {
        Refusal::Stopped { at } | Refusal::TooDeep { at } | Refusal::RepeatedName { at } => {
            format!(in alloc; " (byte {at})")
        }
        Refusal::Truncated => Ok(String::new(alloc)),
    }
}

fn add_initialized(out: &mut Vec<u8>, id: &[u8], utf8: bool) -> Result<(), AllocError>
    ensures { OnOk result (out.new.items ≡ out.old.items ++ initialized id.now utf8) }
{
    let encoding: &[u8] = if utf8 {
        b"\"positionEncoding\":\"utf-8\","
    } else {
        b""
    };
    add_all(
        out,
        &[
            b"{\"jsonrpc\":\"2.0\",\"id\":",
            id,
            b",\"result\":{\"capabilities\":{",
            encoding,
            b"\"textDocumentSync\":{\"openClose\":true,\"change\":2},\"hoverProvider\":true,\"documentSymbolProvider\":true,\"foldingRangeProvider\":true,\"selectionRangeProvider\":true},",
            b"\"serverInfo\":{\"name\":\"jx-lsp\",\"version\":\"",
            VERSION.as_bytes(),
            b"\"}}}",
        ],
    )
}

fn add_null(out: &mut Vec<u8>, id: &[u8]) -> Result<(), AllocError>
    ensures { OnOk result (out.new.items ≡ out.old.items ++ null_of id.now) }
{
    add_all(
        out,
        &[b"{\"jsonrpc\":\"2.0\",\"id\":", id, b",\"result\":null}"],
    )
}

/// The bytes of an id as it was written; one that was not read is `null`.
fn words_of_id(id: &Option<Vec<u8>>) -> &[u8]
    ensures { result.now ≡ words_of_id id.now }
{
    match id {
        Some(id) => id.as_slice(),
        None => b"null",
    }
}

fn add_refused(
    alloc: Global,
    out: &mut Vec<u8>,
    id: &Option<Vec<u8>>,
    code: Code,
    refusal: Option<Refusal>,
) -> Result<(), AllocError>
    ensures { OnOk result (out.new.items ≡ out.old.items ++ refused id.now code refusal) }
{
    out.extend_from_slice(b"{\"jsonrpc\":\"2.0\",\"id\":")?;
    out.extend_from_slice(words_of_id(id))?;
    add_all(
        out,
        &[
            b",\"error\":{\"code\":",
            number_of_code(code).as_bytes(),
            b",\"message\":\"",
            words_of_code(code).as_bytes(),
            b"\"",
        ],
    )?;
    if let Some(refusal) = refusal {
        let words = words_of_refusal(alloc, refusal)?;
        add_all(out, &[b",\"data\":\"", words.as_bytes(), b"\""])?;
    }
    out.extend_from_slice(b"}}")
}

/// Adds a diagnostic: a range, the word for what is wrong there, its sentence, and the place after it.
pub(crate) fn add_told(
    out: &mut Vec<u8>,
    extent: Extent,
    word: &str,
    sentence: &[u8],
    place: &str,
) -> Result<(), AllocError>
    ensures { OnOk result (out.new.items ≡ out.old.items ++ told_at extent.start extent.end word.now sentence.now place.now) }
{
    out.extend_from_slice(b"{")?;
    add_range(out, extent.start, extent.end)?;
    add_all(
        out,
        &[
            b",\"severity\":1,\"code\":\"",
            word.as_bytes(),
            b"\",\"source\":\"jx\",\"message\":\"",
        ],
    )?;
    out.extend_from_slice(sentence)?;
    out.extend_from_slice(place.as_bytes())?;
    out.extend_from_slice(b"\"}")
}

fn add_mark(alloc: Global, out: &mut Vec<u8>, mark: &Mark) -> Result<(), AllocError>
    ensures { OnOk result (out.new.items ≡ out.old.items ++ diagnostic mark.now) }
{
    let extent = Extent {
        start: mark.start,
        end: mark.end,
    };
    let word = code_of_refusal(mark.refusal);
    let place = words_of_place(alloc, mark.refusal)?;
    add_told(out, extent, word, &mark.sentence, place.as_str())
}

/// Adds the message that publishes diagnostics, up to the first of them.
pub(crate) fn add_opening(
    out: &mut Vec<u8>,
    uri: &[u8],
    version: &Option<Vec<u8>>,
) -> Result<(), AllocError>
    ensures { OnOk result (out.new.items ≡ out.old.items ++ opening uri.now version.now) }
{
    add_all(
        out,
        &[
            b"{\"jsonrpc\":\"2.0\",\"method\":\"textDocument/publishDiagnostics\",\"params\":{\"uri\":",
            uri,
        ],
    )?;
    if let Some(version) = version {
        add_all(out, &[b",\"version\":", version])?;
    }
    out.extend_from_slice(b",\"diagnostics\":[")
}

fn add_published(
    alloc: Global,
    out: &mut Vec<u8>,
    uri: &[u8],
    version: &Option<Vec<u8>>,
    mark: &Option<Mark>,
) -> Result<(), AllocError>
    ensures { OnOk result (out.new.items ≡ out.old.items ++ published uri.now version.now mark.now) }
{
    add_opening(out, uri, version)?;
    if let Some(mark) = mark {
        add_mark(alloc, out, mark)?;
    }
    out.extend_from_slice(b"]}}")
}

fn add_logged(out: &mut Vec<u8>, trouble: Trouble) -> Result<(), AllocError>
    ensures { OnOk result (out.new.items ≡ out.old.items ++ logged trouble) }
{
    add_all(
        out,
        &[
            b"{\"jsonrpc\":\"2.0\",\"method\":\"window/logMessage\",\"params\":{\"type\":2,\"message\":\"",
            words_of_trouble(trouble).as_bytes(),
            b"\"}}",
        ],
    )
}

/// Adds the message of a reply that is no list of values.
fn add_reply(alloc: Global, out: &mut Vec<u8>, reply: &Reply) -> Result<(), AllocError>
    requires { out.old.items ≡ [] }
    ensures { OnOk result (IsMessageOf reply.now out.new.items) }
{
    match reply {
        Reply::Initialized { id, utf8 } => add_initialized(out, id, *utf8),
        Reply::Null { id } => add_null(out, id),
        Reply::Hovered { id, hover } => add_hovered(alloc, out, id, hover),
        Reply::Refused { id, code, refusal } => add_refused(alloc, out, id, *code, *refusal),
        Reply::Published { uri, version, mark } => add_published(alloc, out, uri, version, mark),
        Reply::PublishedLines {
            uri,
            version,
            marks,
        } => add_published_lines(alloc, out, uri, version, marks),
        Reply::Closed { uri } => add_published(alloc, out, uri, &None, &None),
        Reply::Logged { trouble } => add_logged(out, *trouble),
        Reply::Nothing => Ok(()),
        // Lists are added by `add_message`.
        Reply::Outlined { .. } => Ok(()),
        Reply::Folded { .. } => Ok(()),
        Reply::Selected { .. } => Ok(()),
    }
}

/// Adds the message of a reply, and returns whether it is known to be a JSON text that repeats no name.
fn add_message(alloc: Global, out: &mut Vec<u8>, reply: &Reply) -> Result<bool, AllocError>
    requires { out.old.items ≡ [] }
    ensures spelt { IfOk result (λ known. IsMessageOf reply.now out.new.items) }
    ensures known { IfOk result (λ known. known ≡ true → IsWhole 512 out.new.items) }
{
    match reply {
        Reply::Outlined {
            id,
            nested: true,
            outline,
            ..
        } => add_nested(alloc, out, id, outline),
        Reply::Outlined {
            id,
            uri,
            nested: false,
            outline,
        } => add_outlined(alloc, out, id, uri, outline),
        Reply::Folded { id, outline } => add_folded(out, id, outline),
        Reply::Selected { id, selections } => add_selected(out, id, selections),
        _ => {
            add_reply(alloc, out, reply)?;
            Ok(false)
        }
    }
}

/// How messages are read.
fn message_settings() -> Settings
    ensures { result ≡ message_settings }
{
    Settings {
        depth: Depth::default(),
        mark: FrontMark::Refused,
        names: NameRule::Unique,
    }
}

fn verdict_on(alloc: Global, text: &[u8]) -> Result<Verdict, AllocError>
    ensures { IfOk result (IsVerdictBy message_settings text.now) }
{
    verdict_with_unique_names(alloc, text, &message_settings(), &mut NoPause)
}

/// The message for a reply: a JSON text (RFC 8259) that repeats no name. What is not known to be one is read before it is
/// returned; none where it is no such text. `Err` when out of memory.
pub fn message_of(alloc: Global, reply: &Reply) -> Result<Option<Vec<u8>>, AllocError>
    ensures text { IfOk result (λ told. IfSome told (λ message. IsVerdictBy message_settings message.items Accepted)) }
    ensures spelt { IfOk result (λ told. IfSome told (λ message. IsMessageOf reply.now message.items)) }
{
    let mut message = Vec::new(alloc);
    let known = add_message(alloc, &mut message, reply)?;
    if known {
        return Ok(Some(message));
    }
    match verdict_on(alloc, &message)? {
        Verdict::Accepted => Ok(Some(message)),
        Verdict::Refused(_) => Ok(None),
    }
}
