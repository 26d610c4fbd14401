// The bytes of a value, and whether something is written for it.
ghost use Rattle.std.specs.Prelude.{◌≡◌, is_some, slice_range};
ghost use Rattle.jx_values.specs.Values.{is_string, value_written};

use crate::form::Form;
use jx_lex::{Kind, Span};
use jx_string::has_text;

/// The bytes of a span, as far as the text has them.
pub(crate) fn bytes_at(text: &[u8], span: Span) -> &[u8]
    ensures { result.now ≡ slice_range text.now span.start span.end }
{
    let end = span.end.min(text.len());
    if span.start < end {
        &text[span.start..end]
    } else {
        &[]
    }
}

pub(crate) fn is_string(kind: Kind) -> bool
    ensures { result ≡ is_string kind }
{
    match kind {
        Kind::String => true,
        Kind::Object | Kind::Array | Kind::Number | Kind::True | Kind::False | Kind::Null => false,
    }
}

/// Whether something is written for a value: for each, but a string without a text where texts are asked for.
pub(crate) fn is_written(form: Form, kind: Kind, bytes: &[u8]) -> bool
    ensures { result ≡ is_some (value_written form kind bytes.now) }
{
    if form.is_raw && is_string(kind) {
        has_text(bytes)
    } else {
        true
    }
}
