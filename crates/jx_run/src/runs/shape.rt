use crate::readers::started::Started;
use crate::runs::text_run::TextRun;

/// The shape of a run over part of a JSON text sequence (RFC 7464, section 2). A record separator is the byte 1E.
#[derive(Clone, Copy, Drop)]
pub enum Shape<'a> {
    /// The bytes hold no record separator.
    Plain(&'a TextRun),
    /// The run of the bytes before the first separator, the readings of the parts between two neighbouring ones, in
    /// order, and the run of the bytes after the last. Empty parts are left out.
    Marked {
        before: &'a TextRun,
        done: &'a [Started],
        after: &'a TextRun,
    },
}
