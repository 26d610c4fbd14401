// The rows of a text, without what look-ups want besides.
ghost use Rattle.std.specs.Prelude.{◌≡◌, ◌≤◌, ℕ, length, slice_range, IfOk, IfErr};
ghost use Rattle.jx_run.specs.declared.texts.verdict.Verdict.TheVariants.{Accepted, Refused};
ghost use Rattle.jx_run.specs.Settings.{JudgedBy};
ghost use Rattle.jx_run.specs.Text.{IsText};
ghost use Rattle.jx_run.specs.Tree.{Tree};
ghost use Rattle.jx_run.specs.Verdict.{Judged};
ghost use Rattle.jx_index.specs.ByNames.{IsVerdictBy};
ghost use Rattle.jx_index.specs.Indexed.{HasNodes};
ghost use Rattle.jx_index.specs.Rows.{rows as rows_of};
ghost use Rattle.jx_index.specs.RowsAlone.{AreRowsBy, AreRowsFrom, AreRowsRead};
ghost use Rattle.jx_index.specs.Settled.{rest_from};

use crate::builder::{Builder, Nodes};
use crate::in_order::InOrder;
use crate::laws::index_behind_a_front;
use crate::row::Row;
use crate::unique_names::verdict_with_unique_names;
use jx_lex::{Depth, Span, grammar_of_tokens};
use jx_run::{Front, NameRule, NoPause, Pace, Refusal, Settings, Verdict, front, read_into};
use std::alloc::{AllocError, Global};

/// The nodes of the text at a span, in one pass that keeps nothing else; the refusal where it is not a text.
pub(crate) fn read_nodes<P: Pace>(
    alloc: Global,
    text: &[u8],
    span: Span,
    depth: Depth,
    pace: &mut P,
) -> Result<Result<Nodes, Refusal>, AllocError>
    requires ordered { span.start ≤ span.end }
    requires within { span.end ≤ length text.now }
    ensures nodes { IfOk result (λ read. IfOk read (λ nodes. HasNodes text.now span nodes.rows.items nodes.after.items)) }
    ensures rows { IfOk result (λ read. IfOk read (λ nodes. (limit : ℕ) (tree : Tree)
        → IsText text.now span.start span.end limit tree → nodes.rows.items ≡ rows_of tree)) }
    ensures accepted { IfOk result (λ read. IfOk read (λ nodes. Judged span.start (slice_range text.now span.start span.end) depth Accepted)) }
    ensures refused { IfOk result (λ read. IfErr read (λ refusal. Judged span.start (slice_range text.now span.start span.end) depth (Refused refusal))) }
{
    grammar_of_tokens();
    let builder = Builder::new(alloc);
    let sink = InOrder::new(builder);
    let told = read_into(alloc, text, span.start, span.end, depth, sink, pace)?;
    match told.verdict {
        Verdict::Refused(refusal) => Ok(Err(refusal)),
        Verdict::Accepted => {
            let built = told.sink.finish(span.end)?;
            Ok(Ok(built.into_nodes()))
        }
    }
}

/// Reads the bytes from an offset on as a whole text (RFC 8259, section 2) in one pass that keeps nothing but the rows.
/// No children are listed, and no names sorted. Returns the rows where the text is accepted, else the refusal. It
/// pauses where the pace says, which changes nothing of that. `Err` when out of memory.
pub fn rows_from<P: Pace>(
    alloc: Global,
    text: &[u8],
    start: usize,
    depth: Depth,
    pace: &mut P,
) -> Result<Result<Vec<Row>, Refusal>, AllocError>
    requires within { start ≤ length text.now }
    ensures accepted { IfOk result (λ read. IfOk read (λ rows. AreRowsFrom start text.now depth rows.items)) }
    ensures refused { IfOk result (λ read. IfErr read (λ refusal. Judged start (rest_from start text.now) depth (Refused refusal))) }
{
    let end = text.len();
    let read = read_nodes(alloc, text, Span { start, end }, depth, pace)?;
    match read {
        Ok(nodes) => Ok(Ok(nodes.rows)),
        Err(refusal) => Ok(Err(refusal)),
    }
}

/// The rows of a text, whatever names its objects have.
fn rows_behind_front(
    alloc: Global,
    text: &[u8],
    settings: &Settings,
) -> Result<Result<Vec<Row>, Refusal>, AllocError>
    ensures accepted { IfOk result (λ read. IfOk read (λ rows. AreRowsRead settings.now text.now rows.items)) }
    ensures refused { IfOk result (λ read. IfErr read (λ refusal. JudgedBy settings.now 0 text.now (Refused refusal))) }
{
    index_behind_a_front();
    match front(text, settings.mark) {
        Front::Refused(refusal) => Ok(Err(refusal)),
        Front::Skip(count) => rows_from(alloc, text, count, settings.depth, &mut NoPause),
    }
}

/// The rows of a JSON text (RFC 8259) by settings: those of the index that `TextAnswer::read` makes, without the index.
/// The refusal where it is not a text, or where a name is refused. `Err` when out of memory.
pub fn read_rows(
    alloc: Global,
    text: &[u8],
    settings: &Settings,
) -> Result<Result<Vec<Row>, Refusal>, AllocError>
    ensures accepted { IfOk result (λ read. IfOk read (λ rows. AreRowsBy settings.now text.now rows.items)) }
    ensures refused { IfOk result (λ read. IfErr read (λ refusal. IsVerdictBy settings.now text.now (Refused refusal))) }
{
    match settings.names {
        NameRule::Any => rows_behind_front(alloc, text, settings),
        NameRule::Unique => {
            let verdict = verdict_with_unique_names(alloc, text, settings, &mut NoPause)?;
            match verdict {
                Verdict::Refused(refusal) => Ok(Err(refusal)),
                Verdict::Accepted => rows_behind_front(alloc, text, settings),
            }
        }
    }
}
