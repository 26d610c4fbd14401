// A reply is written through one buffer, and the lines of many rows through those of workers. All buffers are taken before the
// first byte is written, and none grows.
ghost use Rattle.std.specs.Prelude.{◌≡◌, ◌≢◌, ◌≤◌, ◌↔◌, ◌++◌, false, true, is_err, length, vec_capacity, IfErr, IfOk, IsErrOf, OnErr, OnOk};
ghost use Rattle.std.specs.Io.KnownBytes.{Appends};
ghost use Rattle.jx_report.specs.Elements.{judged_lines};
ghost use Rattle.jx_ends.specs.Ends.{AppendsBeginning};
ghost use Rattle.jx_words.specs.inside.Lines.{pointer_lines};
ghost use Rattle.jx_report.specs.inside.Pages.{lines_between, lines_from};
ghost use Rattle.jx_report.specs.inside.Replies.{reply_exit, reply_output};
ghost use Rattle.jx_words.specs.inside.Room.{HasRoom, IsPut};
ghost use Rattle.jx_words.specs.Verdicts.{shown_output};
ghost use Rattle.jx_report.specs.RowWords.{row_lines};

use crate::element_words::{element_at, push_element};
use crate::reply::Reply;
use crate::row_pages::{pages_for, write_in_rounds};
use crate::row_words::RowColumns;
use jx_crew::Crew;
use jx_ends::{Exit, ReportFault, Sink, write_whole};
use jx_index::Row;
use jx_run::JudgedElement;
use jx_words::{PointerAnswer, answer_at, push_bytes, push_pointer, push_verdict};
use std::thread::Threads;

/// How many bytes the longest line has: that of a row whose numbers have 20 digits each.
pub(crate) const LONGEST_LINE: usize = 156;

/// Writes what waits in the buffer, unless there is room for a line after it.
fn make_room<W: Sink>(writer: &mut W, out: &mut Vec<u8>) -> Result<(), ReportFault>
    requires unfailed { W.has_failed writer.old ≡ false }
    requires large { LONGEST_LINE ≤ vec_capacity out.old }
    ensures ok { OnOk result (IsPut (W.contents writer.old) (W.contents writer.new) out.new.items out.old.items) }
    ensures room { OnOk result (HasRoom out.new LONGEST_LINE) }
    ensures err { OnErr result (AppendsBeginning (W.contents writer.old) (W.contents writer.new) out.old.items) }
    ensures fault { IfErr result (λ fault. fault ≡ ReportFault.Write) }
    ensures failed { W.has_failed writer.new ≡ is_err result }
{
    if out.capacity() - out.len() < LONGEST_LINE {
        write_whole(writer, out)?;
        out.clear();
    }
    Ok(())
}

/// Writes the lines of the rows from one on. The last lines may be left in the buffer.
fn write_rows_from<W: Sink>(
    writer: &mut W,
    out: &mut Vec<u8>,
    rows: &[Row],
    first: usize,
) -> Result<(), ReportFault>
    requires unfailed { W.has_failed writer.old ≡ false }
    requires large { LONGEST_LINE ≤ vec_capacity out.old }
    requires first { first ≤ length rows.now }
    ensures ok { OnOk result (IsPut (W.contents writer.old) (W.contents writer.new) out.new.items (out.old.items ++ lines_from rows.now first)) }
    ensures err { OnErr result (AppendsBeginning (W.contents writer.old) (W.contents writer.new) (out.old.items ++ lines_from rows.now first)) }
    ensures fault { IfErr result (λ fault. fault ≡ ReportFault.Write) }
    ensures failed { W.has_failed writer.new ≡ is_err result }
{
    let mut columns = RowColumns::new();
    for number in first..rows.len() {
        make_room(writer, out)?;
        columns.push_row(out, number, &rows[number]);
    }
    Ok(())
}

/// Writes what waits in the buffer and then the lines that the workers make, where there are enough rows for them, and
/// answers which row comes then.
fn write_by_workers<R: Threads + Sync, G, W: Sink>(
    crew: &Crew<'_, R, G>,
    writer: &mut W,
    out: &mut Vec<u8>,
    rows: &[Row],
) -> Result<usize, ReportFault>
    requires unfailed { W.has_failed writer.old ≡ false }
    ensures within { IfOk result (λ next. next ≤ length rows.now) }
    ensures ok { IfOk result (λ next. IsPut (W.contents writer.old) (W.contents writer.new) out.new.items (out.old.items ++ lines_between rows.now 0 next)) }
    ensures large { vec_capacity out.old ≤ vec_capacity out.new }
    ensures err { OnErr result (AppendsBeginning (W.contents writer.old) (W.contents writer.new) (out.old.items ++ row_lines 0 rows.now)) }
    ensures fault { IfErr result (λ fault. fault ≡ ReportFault.Write) }
    ensures failed { W.has_failed writer.new ≡ is_err result }
{
    match pages_for(crew.alloc, crew.workers, rows.len()) {
        Ok(pages) if !pages.is_empty() => {
            write_whole(writer, out)?;
            out.clear();
            write_in_rounds(crew, writer, pages, rows)
        }
        _ => Ok(0),
    }
}

/// Writes the lines of all rows, which are numbered from 0. The last lines may be left in the buffer.
fn write_rows<R: Threads + Sync, G, W: Sink>(
    crew: &Crew<'_, R, G>,
    writer: &mut W,
    out: &mut Vec<u8>,
    rows: &[Row],
) -> Result<(), ReportFault>
    requires unfailed { W.has_failed writer.old ≡ false }
    requires large { LONGEST_LINE ≤ vec_capacity out.old }
    ensures ok { OnOk result (IsPut (W.contents writer.old) (W.contents writer.new) out.new.items (out.old.items ++ row_lines 0 rows.now)) }
    ensures err { OnErr result (AppendsBeginning (W.contents writer.old) (W.contents writer.new) (out.old.items ++ row_lines 0 rows.now)) }
    ensures fault { IfErr result (λ fault. fault ≡ ReportFault.Write) }
    ensures failed { W.has_failed writer.new ≡ is_err result }
{
    let next = write_by_workers(crew, writer, out, rows)?;
    write_rows_from(writer, out, rows, next)
}

/// Writes a line for each pointer, in their order. The last lines may be left in the buffer.
fn write_pointers<W: Sink>(
    writer: &mut W,
    out: &mut Vec<u8>,
    answers: &[PointerAnswer],
) -> Result<(), ReportFault>
    requires unfailed { W.has_failed writer.old ≡ false }
    requires large { LONGEST_LINE ≤ vec_capacity out.old }
    ensures ok { OnOk result (IsPut (W.contents writer.old) (W.contents writer.new) out.new.items (out.old.items ++ pointer_lines answers.now)) }
    ensures err { OnErr result (AppendsBeginning (W.contents writer.old) (W.contents writer.new) (out.old.items ++ pointer_lines answers.now)) }
    ensures fault { IfErr result (λ fault. fault ≡ ReportFault.Write) }
    ensures failed { W.has_failed writer.new ≡ is_err result }
{
    for number in 0..answers.len() {
        make_room(writer, out)?;
        push_pointer(out, answer_at(answers, number));
    }
    Ok(())
}

/// Writes a line for each element, in their order. The last lines may be left in the buffer.
fn write_elements<W: Sink>(
    writer: &mut W,
    out: &mut Vec<u8>,
    elements: &[JudgedElement],
) -> Result<(), ReportFault>
    requires unfailed { W.has_failed writer.old ≡ false }
    requires large { LONGEST_LINE ≤ vec_capacity out.old }
    ensures ok { OnOk result (IsPut (W.contents writer.old) (W.contents writer.new) out.new.items (out.old.items ++ judged_lines elements.now)) }
    ensures err { OnErr result (AppendsBeginning (W.contents writer.old) (W.contents writer.new) (out.old.items ++ judged_lines elements.now)) }
    ensures fault { IfErr result (λ fault. fault ≡ ReportFault.Write) }
    ensures failed { W.has_failed writer.new ≡ is_err result }
{
    for number in 0..elements.len() {
        make_room(writer, out)?;
        push_element(out, element_at(elements, number));
    }
    Ok(())
}

/// Writes a reply after what waits in the buffer. Its last lines may be left there.
fn write_lines<R: Threads + Sync, G, W: Sink>(
    crew: &Crew<'_, R, G>,
    writer: &mut W,
    out: &mut Vec<u8>,
    reply: &Reply,
) -> Result<(), ReportFault>
    requires unfailed { W.has_failed writer.old ≡ false }
    requires room { HasRoom out.old LONGEST_LINE }
    ensures ok { OnOk result (IsPut (W.contents writer.old) (W.contents writer.new) out.new.items (out.old.items ++ reply_output reply.now)) }
    ensures err { OnErr result (AppendsBeginning (W.contents writer.old) (W.contents writer.new) (out.old.items ++ reply_output reply.now)) }
    ensures fault { IfErr result (λ fault. fault ≡ ReportFault.Write) }
    ensures failed { W.has_failed writer.new ≡ is_err result }
{
    match reply {
        Reply::Verdict(verdict) => {
            push_verdict(out, *verdict);
            Ok(())
        }
        Reply::Rows(rows) => {
            push_bytes(out, b"accepted\n");
            write_rows(crew, writer, out, rows)
        }
        Reply::Pointers(answers) => write_pointers(writer, out, answers),
        Reply::Elements(elements) => write_elements(writer, out, elements),
    }
}

/// Writes a reply through a buffer of so many bytes, or of as many as the longest line has where that is more.
fn write_reply<R: Threads + Sync, G, W: Sink>(
    crew: &Crew<'_, R, G>,
    writer: &mut W,
    reply: &Reply,
    size: usize,
) -> Result<(), ReportFault>
    requires { W.has_failed writer.old ≡ false }
    ensures ok { OnOk result (Appends (W.contents writer.old) (W.contents writer.new) (reply_output reply.now)) }
    ensures write { IsErrOf result ReportFault.Write ↔ (W.has_failed writer.new ≡ true) }
    ensures beginning { IsErrOf result ReportFault.Write → AppendsBeginning (W.contents writer.old) (W.contents writer.new) (reply_output reply.now) }
    // Where the buffer is not to be had, the writer is as it was.
    ensures unwritten { IfErr result (λ fault. fault ≢ ReportFault.Write → writer.new ≡ writer.old) }
    ensures unread { IfErr result (λ fault. fault ≢ ReportFault.Read) }
    ensures uncut { IfErr result (λ fault. fault ≢ ReportFault.Pieces) }
{
    let mut out = Vec::with_capacity(crew.alloc, size.max(LONGEST_LINE))?;
    write_lines(crew, writer, &mut out, reply)?;
    write_whole(writer, &out)
}

/// Writes a reply, or nothing where it is quiet, and answers the exit.
pub(crate) fn show_reply<R: Threads + Sync, G, W: Sink>(
    crew: &Crew<'_, R, G>,
    writer: &mut W,
    reply: &Reply,
    quiet: bool,
    size: usize,
) -> Result<Exit, ReportFault>
    requires { W.has_failed writer.old ≡ false }
    ensures ok { IfOk result (λ exit. (exit ≡ reply_exit reply.now) × Appends (W.contents writer.old) (W.contents writer.new) (shown_output quiet (reply_output reply.now))) }
    ensures write { IsErrOf result ReportFault.Write ↔ (W.has_failed writer.new ≡ true) }
    ensures beginning { IsErrOf result ReportFault.Write → AppendsBeginning (W.contents writer.old) (W.contents writer.new) (shown_output quiet (reply_output reply.now)) }
    // Where the buffer is not to be had, the writer is as it was.
    ensures unwritten { IfErr result (λ fault. fault ≢ ReportFault.Write → writer.new ≡ writer.old) }
    ensures unread { IfErr result (λ fault. fault ≢ ReportFault.Read) }
    ensures uncut { IfErr result (λ fault. fault ≢ ReportFault.Pieces) }
{
    if !quiet {
        write_reply(crew, writer, reply, size)?;
    }
    Ok(reply.exit())
}
