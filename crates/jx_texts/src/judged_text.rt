use jx_lex::Span;
use jx_run::Verdict;

/// A text of a stream, and the verdict on it.
#[derive(Clone, Copy, Debug, PartialEq, Eq)]
pub struct JudgedText {
    /// Where it stands without the white space around it, as offsets in the whole input: up to its fault, if it has one.
    pub span: Span,
    pub verdict: Verdict,
}
