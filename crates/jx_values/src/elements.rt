// The elements of a container are written while the text is read.
ghost use Rattle.std.specs.Prelude.{◌≡◌, ◌≢◌, ◌<◌, ◌↔◌, ◌++◌, Bool, List, ℕ, true, false, IfErr, IfOk, IsErrOf, OnErr, OnOk};
ghost use Rattle.jx_drive.specs.Reports.{ReportsAll, WroteDue, WroteInPart, WroteLines};
ghost use Rattle.jx_run.specs.declared.texts.settings.Settings.{Settings};
ghost use Rattle.jx_index.specs.Pointers.{IsPointer};
ghost use Rattle.jx_each.specs.declared.content.LineContent.{LineContent};
ghost use Rattle.jx_each.specs.declared.content.LineContent.TheVariants.{NameAlone};
ghost use Rattle.jx_values.specs.Elements.{IsDue, ToldOutput};
ghost use Rattle.jx_values.specs.inside.ElementsTeller.{HasTaken};

use crate::elements_teller::{ElementsTask, ElementsTeller};
use jx_crew::{Crew, Gate};
use jx_drive::report_by;
use jx_each::{LineContent, lines_due_of_no_byte};
use jx_ends::{Exit, ReportFault, Sink, Source};
use jx_run::Settings;
use std::alloc::AllocError;
use std::sync::Wait;
use std::thread::Threads;

/// How many bytes are read at a time, at most. What is read is looked at before it leaves the processor's cache.
const STEP: usize = 256 * 1024;

/// How many bytes are read at a time, at most, where several workers share them.
const SHARED_STEP: usize = 4 * 1024 * 1024;

/// How many bytes are read at a time, at most, for a crew.
fn room_for<R, G>(crew: &Crew<'_, R, G>) -> usize
    ensures { 0 < result }
{
    if crew.workers.count() > 1 {
        SHARED_STEP
    } else {
        STEP
    }
}

/// Reads to the end of input, and writes and reports what `report_elements` says, or the texts of the lines.
fn report_lines<R: Threads + Wait + Sync, S: Source, W: Sink, E: Sink, G: Gate + Sync>(
    crew: &Crew<'_, R, G>,
    reader: &mut S,
    writer: &mut W,
    errors: &mut E,
    task: &ElementsTask<'_>,
    piece: usize,
) -> Result<Exit, ReportFault>
    requires pointer { IsPointer task.now.pointer.now }
    requires reader { S.has_failed reader.old ≡ false }
    requires writer { W.has_failed writer.old ≡ false }
    ensures ok { IfOk result (λ exit. ReportsAll (ToldOutput task.now.by_texts task.now.content task.now.settings task.now.pointer.now (E.has_failed errors.new) (E.contents errors.old) (E.contents errors.new)) (S.remaining reader.old) (S.remaining reader.new) (W.contents writer.old) (W.contents writer.new) exit) }
    ensures read { IsErrOf result ReportFault.Read ↔ (S.has_failed reader.new ≡ true) }
    ensures write { IsErrOf result ReportFault.Write ↔ (W.has_failed writer.new ≡ true) }
    ensures untold { OnErr result (errors.new ≡ errors.old) }
    ensures due { IsErrOf result ReportFault.Read → WroteDue (IsDue task.now.by_texts task.now.content task.now.settings task.now.pointer.now) (S.remaining reader.old) (S.remaining reader.new) (W.contents writer.old) (W.contents writer.new) }
    ensures lines { IsErrOf result ReportFault.Memory → WroteLines (IsDue task.now.by_texts task.now.content task.now.settings task.now.pointer.now) (S.remaining reader.old) (S.remaining reader.new) (W.contents writer.old) (W.contents writer.new) }
    ensures beginning { IsErrOf result ReportFault.Write → WroteInPart (IsDue task.now.by_texts task.now.content task.now.settings task.now.pointer.now) (S.remaining reader.old) (S.remaining reader.new) (W.contents writer.old) (W.contents writer.new) }
    ensures uncut { IfErr result (λ fault. fault ≢ ReportFault.Pieces) }
{
    lines_due_of_no_byte();
    let mut lines = ElementsTeller::new(crew.alloc, task)?;
    let take = |lines: &mut ElementsTeller<'_>, slice: &[u8]| -> Result<(), AllocError>
        ensures { OnOk result ((by_texts : Bool) (content : LineContent) (settings : Settings) (pointer bytes given : List ℕ) → HasTaken by_texts content settings pointer bytes given lines.old
            → HasTaken by_texts content settings pointer (bytes ++ slice.now) given lines.new) }
    { lines.take(crew, slice, piece) };
    report_by(
        crew.alloc,
        reader,
        writer,
        errors,
        task,
        &mut lines,
        room_for(crew),
        &take,
    )
}

/// Reads to the end of input, and writes a line for each element of the array that a pointer leads to, by the first
/// member of each of its names (RFC 6901, section 4), or for the value of each member of the object: its compact form.
/// Where `content` asks for names, it writes a line for each member of an object alone: its name and value, or its name.
/// Each line is written before the next read may wait. After that it reports why the input is not valid JSON, by a line with the verdict, or why the
/// pointer leads to no container, or to no object where names are asked for, by a line `POINTER: ANSWER`. A name on its way
/// that is repeated is reported too. The status is good where nothing is reported.
///
/// A written line is never taken back: of a refused input the lines are those of the elements whose comma or bracket is
/// before the first fault. One batch and one element or name are kept. The names of the settings are ignored: objects
/// may repeat them. Where reporting fails, no more is reported, and the status is the same.
///
/// Several workers share what one read gives, where that is a MiB or more or the gate is asked: they read it by chunks
/// of so many bytes, and make its lines. Where the pointer has tokens or names are asked for, one of them looks the
/// pointer up. The gate is asked as chunks are read. For every number of workers, every chunk and every gate the output
/// is the same.
pub fn report_elements<R: Threads + Wait + Sync, S: Source, W: Sink, E: Sink, G: Gate + Sync>(
    crew: &Crew<'_, R, G>,
    reader: &mut S,
    writer: &mut W,
    errors: &mut E,
    settings: &Settings,
    content: LineContent,
    pointer: &str,
    piece: usize,
) -> Result<Exit, ReportFault>
    requires pointer { IsPointer pointer.now }
    requires reader { S.has_failed reader.old ≡ false }
    requires writer { W.has_failed writer.old ≡ false }
    // All that the reader had was read, and its whole output was written and told.
    ensures ok { IfOk result (λ exit. ReportsAll (ToldOutput false content settings.now pointer.now (E.has_failed errors.new) (E.contents errors.old) (E.contents errors.new)) (S.remaining reader.old) (S.remaining reader.new) (W.contents writer.old) (W.contents writer.new) exit) }
    ensures read { IsErrOf result ReportFault.Read ↔ (S.has_failed reader.new ≡ true) }
    ensures write { IsErrOf result ReportFault.Write ↔ (W.has_failed writer.new ≡ true) }
    // After each fault nothing was reported.
    ensures untold { OnErr result (errors.new ≡ errors.old) }
    // After a read fault what is due of the bytes read was written, after a refusal of memory whole lines of that, and after a
    // write fault a beginning of it.
    ensures due { IsErrOf result ReportFault.Read → WroteDue (IsDue false content settings.now pointer.now) (S.remaining reader.old) (S.remaining reader.new) (W.contents writer.old) (W.contents writer.new) }
    ensures lines { IsErrOf result ReportFault.Memory → WroteLines (IsDue false content settings.now pointer.now) (S.remaining reader.old) (S.remaining reader.new) (W.contents writer.old) (W.contents writer.new) }
    ensures beginning { IsErrOf result ReportFault.Write → WroteInPart (IsDue false content settings.now pointer.now) (S.remaining reader.old) (S.remaining reader.new) (W.contents writer.old) (W.contents writer.new) }
    ensures uncut { IfErr result (λ fault. fault ≢ ReportFault.Pieces) }
{
    let task = ElementsTask {
        settings: *settings,
        content,
        by_texts: false,
        pointer,
    };
    report_lines(crew, reader, writer, errors, &task, piece)
}

/// As `report_elements` with `LineContent::NameAlone`, but of each name it writes the text that it stands for (RFC 8259,
/// section 7), so that one with line feeds takes several lines. A name that has half of a surrogate pair alone stands for none, and
/// has an empty line. That is reported too, once, before what else is.
pub fn report_name_texts<R: Threads + Wait + Sync, S: Source, W: Sink, E: Sink, G: Gate + Sync>(
    crew: &Crew<'_, R, G>,
    reader: &mut S,
    writer: &mut W,
    errors: &mut E,
    settings: &Settings,
    pointer: &str,
    piece: usize,
) -> Result<Exit, ReportFault>
    requires pointer { IsPointer pointer.now }
    requires reader { S.has_failed reader.old ≡ false }
    requires writer { W.has_failed writer.old ≡ false }
    // All that the reader had was read, and its whole output was written and told.
    ensures ok { IfOk result (λ exit. ReportsAll (ToldOutput true NameAlone settings.now pointer.now (E.has_failed errors.new) (E.contents errors.old) (E.contents errors.new)) (S.remaining reader.old) (S.remaining reader.new) (W.contents writer.old) (W.contents writer.new) exit) }
    ensures read { IsErrOf result ReportFault.Read ↔ (S.has_failed reader.new ≡ true) }
    ensures write { IsErrOf result ReportFault.Write ↔ (W.has_failed writer.new ≡ true) }
    // After each fault nothing was reported.
    ensures untold { OnErr result (errors.new ≡ errors.old) }
    // After a read fault what is due of the bytes read was written, after a refusal of memory whole lines of that, and after a
    // write fault a beginning of it.
    ensures due { IsErrOf result ReportFault.Read → WroteDue (IsDue true NameAlone settings.now pointer.now) (S.remaining reader.old) (S.remaining reader.new) (W.contents writer.old) (W.contents writer.new) }
    ensures lines { IsErrOf result ReportFault.Memory → WroteLines (IsDue true NameAlone settings.now pointer.now) (S.remaining reader.old) (S.remaining reader.new) (W.contents writer.old) (W.contents writer.new) }
    ensures beginning { IsErrOf result ReportFault.Write → WroteInPart (IsDue true NameAlone settings.now pointer.now) (S.remaining reader.old) (S.remaining reader.new) (W.contents writer.old) (W.contents writer.new) }
    ensures uncut { IfErr result (λ fault. fault ≢ ReportFault.Pieces) }
{
    let task = ElementsTask {
        settings: *settings,
        content: LineContent::NameAlone,
        by_texts: true,
        pointer,
    };
    report_lines(crew, reader, writer, errors, &task, piece)
}
