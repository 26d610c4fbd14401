use jx_index::Indexed;
use jx_lex::Span;
use jx_run::Refusal;

/// The answer on an element of a JSON text sequence.
#[derive(Debug, Drop)]
pub enum ElementAnswer<'a> {
    /// It is a text within the depth; this is its index, whose spans are in the whole input.
    Accepted(Indexed<'a>),
    /// It is not valid JSON within the depth. Offsets are in the whole input.
    Refused(Refusal),
    /// Its value is a number, `true`, `false` or `null` with nothing after it, so it may be the beginning of a longer
    /// one that was cut (RFC 7464, section 2.4).
    MayBeCut,
    /// It is before the first record separator.
    Unmarked,
}

/// An element of a JSON text sequence (RFC 7464, section 2.1): a longest part without a record separator.
#[derive(Debug, Drop)]
pub struct Element<'a> {
    /// Where it stands, as offsets in the whole input.
    pub span: Span,
    pub answer: ElementAnswer<'a>,
}
