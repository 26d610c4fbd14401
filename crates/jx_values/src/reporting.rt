ghost use Rattle.std.specs.Prelude.{◌≡◌, ◌≢◌, ◌<◌, ◌≤◌, ◌↔◌, [], length, map, string_bytes, true, false, IfOk, IfErr, IsErrOf, OnErr, OnOk};
ghost use Rattle.jx_run.specs.declared.texts.settings.NameRule.TheVariants.{Any};
ghost use Rattle.jx_report.specs.Reports.{greatest_length};
ghost use Rattle.jx_values.specs.Reports.{IsTooLong, ReportsValues, ReportsValuesInPart};
ghost use Rattle.jx_values.specs.inside.Kept.{AreAllRead, AreValuesRead, IsHeldAnswer};

use crate::form::Form;
use crate::reply::{Held, reply_on};
use crate::telling::{exit_by, tell};
use crate::value_reader::ValuesReader;
use crate::writing::write_values;
use jx_claim::Cutting;
use jx_crew::{Crew, Gate};
use jx_ends::{Exit, ReportFault, Sink, Source, read_to_end};
use jx_run::{NameRule, Settings};
use jx_task::ValuesTask;
use std::alloc::Global;
use std::sync::Wait;
use std::thread::Threads;

/// How many bytes are written at a time, where values are shorter.
const BUFFER: usize = 64 * 1024;

/// How many bytes are read at a time, at most, where pointers are looked up while the input is read. What is read is looked
/// at before it leaves the processor's cache.
const STEP: usize = 256 * 1024;

/// How many pointers are looked up so, at most. Each is asked after each read, and one value inside another is kept twice.
const FEW: usize = 64;

/// Whether the pointers of a task are few, and objects may have any names.
fn are_few(task: &ValuesTask) -> bool
    ensures { result ≡ true → task.now.settings.names ≡ Any }
{
    match task.settings.names {
        NameRule::Any => task.pointers.len() <= FEW,
        NameRule::Unique => false,
    }
}

/// Reads to the end of input, and looks pointers up in what each read gives.
fn look_up_all<S: Source>(
    reader: &mut S,
    values: &mut ValuesReader<'_>,
    settings: &Settings,
    spelt: &[String],
    buffer: &mut [u8],
) -> Result<(), ReportFault>
    requires reader { S.has_failed reader.old ≡ false }
    requires room { 0 < length buffer.old }
    requires looked { AreValuesRead settings.now (map string_bytes spelt.now) [] values.old }
    ensures ok { OnOk result (AreAllRead settings.now (map string_bytes spelt.now) (S.remaining reader.old) (S.remaining reader.new) values.new) }
    ensures read { IsErrOf result ReportFault.Read ↔ (S.has_failed reader.new ≡ true) }
    ensures going { OnOk result (S.has_failed reader.new ≡ false) }
    ensures unwritten { IfErr result (λ fault. fault ≢ ReportFault.Write) }
    ensures uncut { IfErr result (λ fault. fault ≢ ReportFault.Pieces) }
{
    for _ in 0..u64::MAX {
        match reader.read(buffer) {
            Ok(0) => return Ok(()),
            Ok(count) => values.read(&buffer[..count])?,
            Err(_) => return Err(ReportFault::Read),
        }
    }
    Err(ReportFault::Memory)
}

/// Whether so many bytes make no more chunks than there may be.
fn count_pieces(len: usize, piece: usize) -> Result<(), ReportFault>
    requires { 1 ≤ piece }
    ensures few { IfOk result (λ _. len ≤ greatest_length piece) }
    ensures pieces { IsErrOf result ReportFault.Pieces → greatest_length piece < len }
    ensures unread { IfErr result (λ fault. fault ≢ ReportFault.Read) }
    ensures unwritten { IfErr result (λ fault. fault ≢ ReportFault.Write) }
{
    let Ok(_) = Cutting::every(len, piece) else {
        return Err(ReportFault::Pieces);
    };
    Ok(())
}

/// Reads to the end of input, and answers the few pointers of a task, while what is read is freed but for their values.
fn held_for_few<S: Source>(
    alloc: Global,
    reader: &mut S,
    form: Form,
    task: &ValuesTask,
) -> Result<Held, ReportFault>
    requires reader { S.has_failed reader.old ≡ false }
    requires any { task.now.settings.names ≡ Any }
    requires piece { 1 ≤ task.now.piece }
    ensures ok { IfOk result (IsHeldAnswer form task.now (S.remaining reader.old) (S.remaining reader.new)) }
    ensures read { IsErrOf result ReportFault.Read ↔ (S.has_failed reader.new ≡ true) }
    ensures unwritten { IfErr result (λ fault. fault ≢ ReportFault.Write) }
    ensures pieces { IsErrOf result ReportFault.Pieces → IsTooLong task.now.piece (S.remaining reader.old) (S.remaining reader.new) }
{
    let settings = &task.settings;
    let spelt = task.pointers.as_slice();
    let mut values = ValuesReader::new(alloc, settings, spelt)?;
    let mut buffer: Vec<u8> = vec![in alloc; 0; STEP]?;
    look_up_all(reader, &mut values, settings, spelt, &mut buffer)?;
    count_pieces(values.end(), task.piece)?;
    let held = values.into_held(form, task)?;
    Ok(held)
}

/// Reads to the end of input, holds all of it, and answers the pointers of a task.
fn held_for_all<R: Threads + Wait + Sync, S: Source, G: Gate + Sync>(
    crew: &Crew<'_, R, G>,
    reader: &mut S,
    form: Form,
    task: &ValuesTask,
) -> Result<Held, ReportFault>
    requires reader { S.has_failed reader.old ≡ false }
    requires piece { 1 ≤ task.now.piece }
    ensures ok { IfOk result (IsHeldAnswer form task.now (S.remaining reader.old) (S.remaining reader.new)) }
    ensures read { IsErrOf result ReportFault.Read ↔ (S.has_failed reader.new ≡ true) }
    ensures unwritten { IfErr result (λ fault. fault ≢ ReportFault.Write) }
    ensures pieces { IsErrOf result ReportFault.Pieces → IsTooLong task.now.piece (S.remaining reader.old) (S.remaining reader.new) }
{
    let text = read_to_end(crew.alloc, reader)?;
    let reply = reply_on(crew, form, task, &text)?;
    Ok(Held { text, reply })
}

/// Reads to the end of input, and answers the pointers of a task.
fn held_for<R: Threads + Wait + Sync, S: Source, G: Gate + Sync>(
    crew: &Crew<'_, R, G>,
    reader: &mut S,
    form: Form,
    task: &ValuesTask,
) -> Result<Held, ReportFault>
    requires reader { S.has_failed reader.old ≡ false }
    requires piece { 1 ≤ task.now.piece }
    ensures ok { IfOk result (IsHeldAnswer form task.now (S.remaining reader.old) (S.remaining reader.new)) }
    ensures read { IsErrOf result ReportFault.Read ↔ (S.has_failed reader.new ≡ true) }
    ensures unwritten { IfErr result (λ fault. fault ≢ ReportFault.Write) }
    ensures pieces { IsErrOf result ReportFault.Pieces → IsTooLong task.now.piece (S.remaining reader.old) (S.remaining reader.new) }
{
    if are_few(task) {
        held_for_few(crew.alloc, reader, form, task)
    } else {
        held_for_all(crew, reader, form, task)
    }
}

/// Reads to the end of input, looks pointers up in it, and writes a line for each, in their order: the bytes of its
/// value, their compact form, or where texts are asked for that of a string. The line is empty where there is none of
/// these. After that it reports why, by a line `POINTER: ANSWER`. Of a text that is refused nothing is written, and its
/// verdict is reported. The status is good where nothing is reported.
///
/// Where objects may have any names and pointers are few, only the bytes of their values are kept while the text is read.
/// Else the text is kept. Values are written from where they stand in what is kept. No memory is taken once the first
/// byte is written. Where reporting fails, no more is reported, and the status is the same. Many pointers are looked up
/// in an index by the workers. Where names have to be unique and pointers are few, the workers judge the text first.
/// They ask the gate; a thread that reads alone asks nothing.
pub fn report_values<R: Threads + Wait + Sync, S: Source, W: Sink, E: Sink, G: Gate + Sync>(
    rt: &R,
    alloc: Global,
    reader: &mut S,
    writer: &mut W,
    errors: &mut E,
    task: &ValuesTask,
    form: Form,
    gate: &G,
) -> Result<Exit, ReportFault>
    requires reader { S.has_failed reader.old ≡ false }
    requires writer { W.has_failed writer.old ≡ false }
    requires piece { 1 ≤ task.now.piece }
    // All that the reader had was read, and its whole output was written and told.
    ensures ok { IfOk result (λ exit. ReportsValues form task.now (S.remaining reader.old) (S.remaining reader.new)
        (W.contents writer.old) (W.contents writer.new) (E.has_failed errors.new) (E.contents errors.old) (E.contents errors.new) exit) }
    ensures read { IsErrOf result ReportFault.Read ↔ (S.has_failed reader.new ≡ true) }
    ensures write { IsErrOf result ReportFault.Write ↔ (W.has_failed writer.new ≡ true) }
    // After any other fault the writer is as it was, and after each fault nothing was reported.
    ensures unwritten { IfErr result (λ fault. fault ≢ ReportFault.Write → writer.new ≡ writer.old) }
    ensures untold { OnErr result (errors.new ≡ errors.old) }
    // After a write fault all was read, and a beginning of its output was written.
    ensures beginning { IsErrOf result ReportFault.Write → ReportsValuesInPart form task.now (S.remaining reader.old)
        (S.remaining reader.new) (W.contents writer.old) (W.contents writer.new) }
    // Chunks are too many only where all was read, and it has more of them than there may be.
    ensures pieces { IsErrOf result ReportFault.Pieces → IsTooLong task.now.piece (S.remaining reader.old)
        (S.remaining reader.new) }
{
    let crew = Crew {
        rt,
        alloc,
        workers: task.workers,
        gate,
    };
    let held = held_for(&crew, reader, form, task)?;
    write_values(alloc, writer, form, &held.text, &held.reply.answers, BUFFER)?;
    tell(errors, &held.reply.told);
    Ok(exit_by(&held.reply.told))
}
