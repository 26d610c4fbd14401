// Texts whose objects may repeat no name, read without an index.
ghost use Rattle.std.specs.Prelude.{◌≡◌, ◌≤◌, ℕ, length, slice_range, IfOk, IfErr};
ghost use Rattle.jx_run.specs.declared.texts.settings.NameRule.TheVariants.{Unique};
ghost use Rattle.jx_run.specs.declared.texts.verdict.Verdict.TheVariants.{Accepted, Refused};
ghost use Rattle.jx_run.specs.Text.{IsText};
ghost use Rattle.jx_run.specs.Tree.{Tree};
ghost use Rattle.jx_run.specs.Verdict.{Judged};
ghost use Rattle.jx_index.specs.ByNames.{IsVerdictBy};
ghost use Rattle.jx_index.specs.Repeats.{IsLeast, IsRepeat};
ghost use Rattle.jx_index.specs.Rows.{rows};
ghost use Rattle.jx_index.specs.inside.NameLists.{accepted_unless};

use crate::in_order::{InOrder, Marking};
use crate::laws::index_behind_a_front;
use crate::open_names::OpenNames;
use jx_lex::{Depth, MarkKind, Span, grammar_of_tokens};
use jx_run::{Front, Pace, Refusal, Settings, Verdict, front, read_into};
use std::alloc::{AllocError, Global};
use std::marker::{Brand, PhantomData};

/// The bytes of a text, for names that are kept of it. A call picks them.
pub trait Source {
    ghost use Rattle.std.specs.Prelude.{ℕ, List};

    ghost bytes: { List ℕ };
}

impl Source for Brand {
    ghost use Rattle.std.specs.Prelude.{[]};

    ghost bytes = { [] };
}

/// The names of open objects of a text that has these bytes.
#[derive(Drop)]
struct NamesOf<'a, S> {
    names: OpenNames<'a>,
    source: PhantomData<S>,
}

impl<'a, S: Source> Marking for NamesOf<'a, S> {
    ghost use Rattle.jx_index.specs.inside.OpenNames.{held, IsHeldOf};

    ghost holds = { λ k b. IsHeldOf S.bytes b (held k.names) };

    #[inline(always)]
    fn take(&mut self, kind: MarkKind, at: usize, end: usize) -> Result<(), AllocError> {
        self.names.mark(kind, at, end)
    }
}

/// The first repeated name as by `repeated_name`, of a text with the bytes of a source.
fn repeated_name_of<S: Source, P: Pace>(
    alloc: Global,
    text: &[u8],
    span: Span,
    depth: Depth,
    pace: &mut P,
) -> Result<Result<Option<usize>, Refusal>, AllocError>
    requires source { text.now ≡ S.bytes }
    requires ordered { span.start ≤ span.end }
    requires within { span.end ≤ length text.now }
    ensures accepted { IfOk result (λ read. IfOk read (λ _. Judged span.start (slice_range text.now span.start span.end) depth Accepted)) }
    ensures refused { IfOk result (λ read. IfErr read (λ refusal. Judged span.start (slice_range text.now span.start span.end) depth (Refused refusal))) }
    ensures name { IfOk result (λ read. IfOk read (λ name. (limit : ℕ) (tree : Tree)
        → IsText text.now span.start span.end limit tree → IsLeast (IsRepeat text.now (rows tree)) name)) }
{
    grammar_of_tokens();
    let names: NamesOf<'_, S> = NamesOf {
        names: OpenNames::new(alloc, text),
        source: PhantomData,
    };
    let sink = InOrder::new(names);
    let told = read_into(alloc, text, span.start, span.end, depth, sink, pace)?;
    match told.verdict {
        Verdict::Refused(refusal) => Ok(Err(refusal)),
        Verdict::Accepted => {
            let all = told.sink.finish(span.end)?;
            Ok(Ok(all.names.first()))
        }
    }
}

/// Reads the bytes of a span as a whole text (RFC 8259, section 2) in one pass, and looks for a name that an object
/// repeats. Returns the start of the first one, if there is one; names are compared as lists of UTF-16 code units.
/// Returns the refusal where the bytes are not a text. It holds the names of open objects alone. It pauses where the
/// pace says, which changes nothing of that. `Err` when out of memory.
pub fn repeated_name<P: Pace>(
    alloc: Global,
    text: &[u8],
    span: Span,
    depth: Depth,
    pace: &mut P,
) -> Result<Result<Option<usize>, Refusal>, AllocError>
    requires ordered { span.start ≤ span.end }
    requires within { span.end ≤ length text.now }
    ensures accepted { IfOk result (λ read. IfOk read (λ _. Judged span.start (slice_range text.now span.start span.end) depth Accepted)) }
    ensures refused { IfOk result (λ read. IfErr read (λ refusal. Judged span.start (slice_range text.now span.start span.end) depth (Refused refusal))) }
    ensures name { IfOk result (λ read. IfOk read (λ name. (limit : ℕ) (tree : Tree)
        → IsText text.now span.start span.end limit tree → IsLeast (IsRepeat text.now (rows tree)) name)) }
{
    repeated_name_of::<Brand, P>(alloc, text, span, depth, pace)
}

/// The verdict on a text, unless a name is refused.
fn accepted_unless(name: Option<usize>) -> Verdict
    ensures { result ≡ accepted_unless name }
{
    match name {
        None => Verdict::Accepted,
        Some(at) => Verdict::Refused(Refusal::RepeatedName { at }),
    }
}

/// The verdict on a JSON text (RFC 8259) whose objects may repeat no name (section 4), by settings that say so. The
/// calling thread reads the text in one pass, as `repeated_name` does. A byte order mark in front may be ignored
/// (section 8.1). `Err` when out of memory.
pub fn verdict_with_unique_names<P: Pace>(
    alloc: Global,
    text: &[u8],
    settings: &Settings,
    pace: &mut P,
) -> Result<Verdict, AllocError>
    requires unique { settings.now.names ≡ Unique }
    ensures verdict { IfOk result (IsVerdictBy settings.now text.now) }
{
    index_behind_a_front();
    let start = match front(text, settings.mark) {
        Front::Refused(refusal) => return Ok(Verdict::Refused(refusal)),
        Front::Skip(count) => count,
    };
    let end = text.len();
    let read = repeated_name(alloc, text, Span { start, end }, settings.depth, pace)?;
    match read {
        Err(refusal) => Ok(Verdict::Refused(refusal)),
        Ok(name) => Ok(accepted_unless(name)),
    }
}
