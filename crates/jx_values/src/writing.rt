// Values are written through one buffer, which is taken before the first byte is written and does not grow.
ghost use Rattle.std.specs.Prelude.{◌≡◌, ◌≢◌, ◌≤◌, ◌↔◌, ◌++◌, [], false, true, flat_map, is_err, unwrap_or, vec_capacity, IfErr, IsErrOf, OnErr, OnOk};
ghost use Rattle.std.specs.Io.KnownBytes.{Appends};
ghost use Rattle.jx_ends.specs.Ends.{AppendsBeginning};
ghost use Rattle.jx_words.specs.inside.Room.{IsPut};
ghost use Rattle.jx_values.specs.Values.{formed, value_line, value_written, written};

use crate::compact::{CHUNK, put_compact};
use crate::form::Form;
use crate::putting::put;
use crate::raw::put_text;
use crate::telling::answer_at;
use crate::value::{bytes_at, is_string};
use jx_ends::{ReportFault, Sink, write_whole};
use jx_lex::Kind;
use jx_words::PointerAnswer;
use std::alloc::Global;

/// Writes the bytes of a value, or their compact form, after what waits in the buffer.
fn put_formed<W: Sink>(
    writer: &mut W,
    out: &mut Vec<u8>,
    form: Form,
    bytes: &[u8],
) -> Result<(), ReportFault>
    requires unfailed { W.has_failed writer.old ≡ false }
    requires large { CHUNK ≤ vec_capacity out.old }
    ensures large { OnOk result (CHUNK ≤ vec_capacity out.new) }
    ensures ok { OnOk result (IsPut (W.contents writer.old) (W.contents writer.new) out.new.items (out.old.items ++ formed form bytes.now)) }
    ensures err { OnErr result (AppendsBeginning (W.contents writer.old) (W.contents writer.new) (out.old.items ++ formed form bytes.now)) }
    ensures fault { IfErr result (λ fault. fault ≡ ReportFault.Write) }
    ensures failed { W.has_failed writer.new ≡ is_err result }
{
    if form.is_compact {
        put_compact(writer, out, bytes)
    } else {
        put(writer, out, bytes)
    }
}

/// Writes a value of this kind after what waits in the buffer: nothing for a string without a text, where texts are
/// asked for.
fn put_value<W: Sink>(
    writer: &mut W,
    out: &mut Vec<u8>,
    form: Form,
    kind: Kind,
    bytes: &[u8],
) -> Result<(), ReportFault>
    requires unfailed { W.has_failed writer.old ≡ false }
    requires large { CHUNK ≤ vec_capacity out.old }
    ensures large { OnOk result (CHUNK ≤ vec_capacity out.new) }
    ensures ok { OnOk result (IsPut (W.contents writer.old) (W.contents writer.new) out.new.items (out.old.items ++ unwrap_or (value_written form kind bytes.now) [])) }
    ensures err { OnErr result (AppendsBeginning (W.contents writer.old) (W.contents writer.new) (out.old.items ++ unwrap_or (value_written form kind bytes.now) [])) }
    ensures fault { IfErr result (λ fault. fault ≡ ReportFault.Write) }
    ensures failed { W.has_failed writer.new ≡ is_err result }
{
    if form.is_raw && is_string(kind) {
        put_text(writer, out, bytes)
    } else {
        put_formed(writer, out, form, bytes)
    }
}

/// Writes what is to be written for a pointer with this answer after what waits in the buffer.
fn put_answer<W: Sink>(
    writer: &mut W,
    out: &mut Vec<u8>,
    form: Form,
    text: &[u8],
    answer: PointerAnswer,
) -> Result<(), ReportFault>
    requires unfailed { W.has_failed writer.old ≡ false }
    requires large { CHUNK ≤ vec_capacity out.old }
    ensures large { OnOk result (CHUNK ≤ vec_capacity out.new) }
    ensures ok { OnOk result (IsPut (W.contents writer.old) (W.contents writer.new) out.new.items (out.old.items ++ unwrap_or (written form text.now answer) [])) }
    ensures err { OnErr result (AppendsBeginning (W.contents writer.old) (W.contents writer.new) (out.old.items ++ unwrap_or (written form text.now answer) [])) }
    ensures fault { IfErr result (λ fault. fault ≡ ReportFault.Write) }
    ensures failed { W.has_failed writer.new ≡ is_err result }
{
    match answer {
        PointerAnswer::Found { kind, span } => {
            put_value(writer, out, form, kind, bytes_at(text, span))
        }
        PointerAnswer::Unread(_) | PointerAnswer::Lost(_) => put(writer, out, &[]),
    }
}

/// Writes the line of a pointer with this answer after what waits in the buffer. Its end may be left there.
fn put_line<W: Sink>(
    writer: &mut W,
    out: &mut Vec<u8>,
    form: Form,
    text: &[u8],
    answer: PointerAnswer,
) -> Result<(), ReportFault>
    requires unfailed { W.has_failed writer.old ≡ false }
    requires large { CHUNK ≤ vec_capacity out.old }
    ensures large { OnOk result (CHUNK ≤ vec_capacity out.new) }
    ensures ok { OnOk result (IsPut (W.contents writer.old) (W.contents writer.new) out.new.items (out.old.items ++ value_line form text.now answer)) }
    ensures err { OnErr result (AppendsBeginning (W.contents writer.old) (W.contents writer.new) (out.old.items ++ value_line form text.now answer)) }
    ensures fault { IfErr result (λ fault. fault ≡ ReportFault.Write) }
    ensures failed { W.has_failed writer.new ≡ is_err result }
{
    put_answer(writer, out, form, text, answer)?;
    put(writer, out, b"\n")
}

/// Writes a line for each answer, in their order. The last ones may be left in the buffer.
fn put_values<W: Sink>(
    writer: &mut W,
    out: &mut Vec<u8>,
    form: Form,
    text: &[u8],
    answers: &[PointerAnswer],
) -> Result<(), ReportFault>
    requires unfailed { W.has_failed writer.old ≡ false }
    requires large { CHUNK ≤ vec_capacity out.old }
    ensures ok { OnOk result (IsPut (W.contents writer.old) (W.contents writer.new) out.new.items (out.old.items ++ flat_map (value_line form text.now) answers.now)) }
    ensures err { OnErr result (AppendsBeginning (W.contents writer.old) (W.contents writer.new) (out.old.items ++ flat_map (value_line form text.now) answers.now)) }
    ensures fault { IfErr result (λ fault. fault ≡ ReportFault.Write) }
    ensures failed { W.has_failed writer.new ≡ is_err result }
{
    for number in 0..answers.len() {
        put_line(writer, out, form, text, answer_at(answers, number))?;
    }
    Ok(())
}

/// Writes a line for each answer in a text, in their order, through a buffer of so many bytes, or of a chunk where that is more.
pub fn write_values<W: Sink>(
    alloc: Global,
    writer: &mut W,
    form: Form,
    text: &[u8],
    answers: &[PointerAnswer],
    size: usize,
) -> Result<(), ReportFault>
    requires { W.has_failed writer.old ≡ false }
    ensures ok { OnOk result (Appends (W.contents writer.old) (W.contents writer.new) (flat_map (value_line form text.now) answers.now)) }
    ensures write { IsErrOf result ReportFault.Write ↔ (W.has_failed writer.new ≡ true) }
    ensures beginning { IsErrOf result ReportFault.Write → AppendsBeginning (W.contents writer.old) (W.contents writer.new) (flat_map (value_line form text.now) answers.now) }
    // Where the buffer is not to be had, the writer is as it was.
    ensures unwritten { IfErr result (λ fault. fault ≢ ReportFault.Write → writer.new ≡ writer.old) }
    ensures unread { IfErr result (λ fault. fault ≢ ReportFault.Read) }
    ensures uncut { IfErr result (λ fault. fault ≢ ReportFault.Pieces) }
{
    let mut out = Vec::with_capacity(alloc, size.max(CHUNK))?;
    put_values(writer, &mut out, form, text, answers)?;
    write_whole(writer, &out)
}
