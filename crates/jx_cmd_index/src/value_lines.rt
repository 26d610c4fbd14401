// The lines of values, which are written one by one.
ghost use Rattle.std.specs.Prelude.{◌≡◌, ◌≢◌, ◌<◌, ◌++◌, ◌↔◌, Some, true, false, length, map, slice_get, string_bytes, IfErr, IfOk, IsErrOf, OnOk};
ghost use Rattle.std.specs.Io.KnownBytes.{Appends};
ghost use Rattle.jx_ends.specs.Ends.{AppendsBeginning};
ghost use Rattle.jx_values.specs.Values.{told_line, value_line};
ghost use Rattle.jx_cmd_index.specs.Offsets.{HasSize};
ghost use Rattle.jx_cmd_index.specs.PlaceReports.{IsOfText};
ghost use Rattle.jx_cmd_index.specs.inside.Alone.{alone, span_of};
ghost use Rattle.jx_cmd_index.specs.inside.HeldChunks.{IsHeldIn};
ghost use Rattle.jx_cmd_index.specs.inside.ValueLines.{AddsTold, BeganLine, BeganSome, WroteAll, WroteLine, WroteSome};
ghost use Rattle.jx_cmd_index.specs.inside.Texts.{IsChangeIn};

use crate::held_chunk::HeldChunk;
use crate::look_fault::LookFault;
use crate::read_at::ReadAt;
use crate::value_reading::read_value;
use jx_ends::{ReportFault, Sink};
use jx_file_index::Index;
use jx_lex::Span;
use jx_values::{Form, add_told, write_values};
use jx_words::PointerAnswer;
use std::alloc::Global;

/// How many bytes are written at a time, where a value has more.
const BUFFER: usize = 64 * 1024;

/// Writes the line of a pointer with this answer in these bytes, and adds the report on it.
fn write_line<W: Sink>(
    alloc: Global,
    writer: &mut W,
    told: &mut Vec<u8>,
    form: Form,
    pointer: &str,
    bytes: &[u8],
    answer: PointerAnswer,
) -> Result<(), LookFault>
    requires { W.has_failed writer.old ≡ false }
    ensures ok { OnOk result (Appends (W.contents writer.old) (W.contents writer.new) (value_line form bytes.now answer)) }
    ensures told { OnOk result (told.new.items ≡ told.old.items ++ told_line form bytes.now pointer.now answer) }
    ensures beginning { IsErrOf result LookFault.Write → AppendsBeginning (W.contents writer.old) (W.contents writer.new) (value_line form bytes.now answer) }
    ensures unwritten { IfErr result (λ fault. fault ≢ LookFault.Write → writer.new ≡ writer.old) }
    ensures write { IsErrOf result LookFault.Write ↔ (W.has_failed writer.new ≡ true) }
    ensures memory { IfErr result (λ fault. fault ≢ LookFault.Write → fault ≡ LookFault.Memory) }
{
    add_told(told, form, bytes, pointer, answer)?;
    let size = bytes.len().saturating_add(1).min(BUFFER);
    match write_values(alloc, writer, form, bytes, &[answer], size) {
        Ok(()) => Ok(()),
        Err(ReportFault::Write) => Err(LookFault::Write),
        Err(ReportFault::Memory | ReportFault::Read | ReportFault::Pieces) => {
            Err(LookFault::Memory)
        }
    }
}

/// The span of the value of an answer, and no bytes where it has none.
fn span_of(answer: PointerAnswer) -> Span
    ensures { result ≡ span_of answer }
{
    match answer {
        PointerAnswer::Found { span, .. } => span,
        PointerAnswer::Unread(_) | PointerAnswer::Lost(_) => Span { start: 0, end: 0 },
    }
}

/// The answer where the value stands alone and has so many bytes.
fn alone(answer: PointerAnswer, len: usize) -> PointerAnswer
    ensures { result ≡ alone answer len }
{
    match answer {
        PointerAnswer::Found { kind, .. } => PointerAnswer::Found {
            kind,
            span: Span { start: 0, end: len },
        },
        PointerAnswer::Unread(fault) => PointerAnswer::Unread(fault),
        PointerAnswer::Lost(fault) => PointerAnswer::Lost(fault),
    }
}

/// Writes the line of a pointer with this answer once all bytes of its value were read, and adds the report on it.
fn write_answer<F: ReadAt, W: Sink>(
    alloc: Global,
    file: &mut F,
    index: &Index,
    held: &mut HeldChunk,
    writer: &mut W,
    told: &mut Vec<u8>,
    form: Form,
    pointer: &str,
    answer: PointerAnswer,
) -> Result<(), LookFault>
    requires file { F.has_failed file.old ≡ false }
    requires writer { W.has_failed writer.old ≡ false }
    requires size { HasSize (F.content file.old) index.now.size }
    requires held { IsHeldIn (F.content file.old) index.now held.old }
    ensures ok { OnOk result (WroteLine (F.content file.old) index.now form answer (W.contents writer.old) (W.contents writer.new)) }
    ensures told { OnOk result (AddsTold (F.content file.old) index.now form pointer.now answer told.old.items told.new.items) }
    ensures held { OnOk result (IsHeldIn (F.content file.old) index.now held.new) }
    ensures beginning { IsErrOf result LookFault.Write → BeganLine (F.content file.old) index.now form pointer.now answer (W.contents writer.old) (W.contents writer.new) }
    ensures unwritten { IfErr result (λ fault. fault ≢ LookFault.Write → writer.new ≡ writer.old) }
    ensures changed { IfErr result (IsChangeIn (F.content file.old) index.now) }
    ensures kept { F.content file.new ≡ F.content file.old }
    ensures read { IsErrOf result LookFault.TextRead ↔ (F.has_failed file.new ≡ true) }
    ensures write { IsErrOf result LookFault.Write ↔ (W.has_failed writer.new ≡ true) }
    ensures fault { IfErr result (λ fault. fault ≢ LookFault.Write → IsOfText fault) }
{
    let value = read_value(alloc, file, index, held, span_of(answer))?;
    write_line(
        alloc,
        writer,
        told,
        form,
        pointer,
        &value,
        alone(answer, value.len()),
    )
}

/// The pointer with this number, counted from 0, as it was written.
fn pointer_at(pointers: &[String], number: usize) -> &str
    requires { number < length pointers.now }
    ensures { slice_get (map string_bytes pointers.now) number ≡ Some result.now }
{
    pointers[number].as_str()
}

/// The answer with this number, counted from 0.
fn answer_at(answers: &[PointerAnswer], number: usize) -> PointerAnswer
    requires { number < length answers.now }
    ensures { slice_get answers.now number ≡ Some result }
{
    answers[number]
}

/// Writes a line for each pointer with its answer, in their order, and answers the report on them.
pub(crate) fn write_answers<F: ReadAt, W: Sink>(
    alloc: Global,
    file: &mut F,
    index: &Index,
    writer: &mut W,
    form: Form,
    pointers: &[String],
    answers: &[PointerAnswer],
) -> Result<Vec<u8>, LookFault>
    requires file { F.has_failed file.old ≡ false }
    requires writer { W.has_failed writer.old ≡ false }
    requires size { HasSize (F.content file.old) index.now.size }
    ensures ok { IfOk result (λ told. WroteAll (F.content file.old) index.now form (map string_bytes pointers.now) answers.now told.items (W.contents writer.old) (W.contents writer.new)) }
    ensures some { IfErr result (λ fault. fault ≢ LookFault.Write → WroteSome (F.content file.old) index.now form (map string_bytes pointers.now) answers.now (W.contents writer.old) (W.contents writer.new)) }
    ensures beginning { IsErrOf result LookFault.Write → BeganSome (F.content file.old) index.now form (map string_bytes pointers.now) answers.now (W.contents writer.old) (W.contents writer.new) }
    ensures changed { IfErr result (IsChangeIn (F.content file.old) index.now) }
    ensures read { IsErrOf result LookFault.TextRead ↔ (F.has_failed file.new ≡ true) }
    ensures write { IsErrOf result LookFault.Write ↔ (W.has_failed writer.new ≡ true) }
    ensures fault { IfErr result (λ fault. fault ≢ LookFault.Write → IsOfText fault) }
{
    let mut held = HeldChunk::none(alloc);
    let mut told = Vec::new(alloc);
    let count = pointers.len().min(answers.len());
    'answers: for number in 0..count {
        let pointer = pointer_at(pointers, number);
        let answer = answer_at(answers, number);
        write_answer(
            alloc, file, index, &mut held, writer, &mut told, form, pointer, answer,
        )?;
    }
    Ok(told)
}
