// An input that is read to its end and answered.
ghost use Rattle.std.specs.Prelude.{◌≡◌, ◌≢◌, ◌<◌, ◌≤◌, ◌↔◌, [], length, take, vec_len, false, true, OnOk, IfOk, IfErr, IfSome, IsErrOf};
ghost use Rattle.std.specs.Io.KnownBytes.{Consumes, IsAtEnd};
ghost use Rattle.jx_report.specs.Output.{Output};
ghost use Rattle.jx_report.specs.Reports.{HasTooManyPieces, IsAnswered};
ghost use Rattle.jx_report.specs.inside.Batches.{IsFilled, IsReadingOf, ReadsOn};
ghost use Rattle.jx_report.specs.inside.Replies.{reply_exit, reply_output};

use crate::pointer_reader::few_pointers;
use crate::reading::Reading;
use crate::reply::{Reply, reply_to};
use jx_answer::is_short;
use jx_claim::Cutting;
use jx_crew::{Crew, Event, Gate, Go, PieceNo};
use jx_ends::{ReportFault, Source, fill_buffer, read_to_end};
use jx_task::Command;
use std::alloc::AllocError;
use std::sync::Wait;
use std::thread::Threads;
use std::{mem, thread};

/// How many bytes of an input are read at a time at first, where there are several workers. Long batches take fresh memory,
/// which costs a short input more than workers gain.
const FIRST_STEP: usize = 256 * 1024;

/// After so many bytes batches are longer.
const ENOUGH: usize = 4 * 1024 * 1024;

/// How many bytes are read at a time after that, at the least. From there on batches grow with the input.
const SHARED_STEP: usize = 2 * 1024 * 1024;

/// How many bytes are read first where a batch may have so many. Several workers still have more than one chunk in
/// them.
fn first_step(command: &Command, batch: usize) -> usize
    ensures { result ≤ batch }
{
    if command.workers.count() > 1 && command.piece <= FIRST_STEP / 2 {
        batch.min(FIRST_STEP)
    } else {
        batch
    }
}

/// How many bytes are read next, where so many were read before: once there were enough, a quarter of them, so that fresh
/// memory stays a part of the input, up to a whole batch.
fn next_step(before: usize, step: usize, batch: usize) -> usize
    requires { step ≤ batch }
    ensures { (step ≤ result) × (result ≤ batch) }
{
    if before < ENOUGH {
        step
    } else {
        (before / 4).max(SHARED_STEP).max(step).min(batch)
    }
}

/// Takes in a batch, while the next one is read into another buffer.
fn read_beside<R: Threads + Wait + Sync, S: Source + Send, G: Gate + Sync>(
    crew: &Crew<'_, R, G>,
    reader: &mut S,
    reading: &mut Reading<'_>,
    bytes: &[u8],
    piece: usize,
    next: &mut Vec<u8>,
    step: usize,
) -> Result<usize, ReportFault>
    requires reader { S.has_failed reader.old ≡ false }
    requires piece { 1 ≤ piece }
    requires within { vec_len next.old ≤ step }
    ensures reads { IfOk result (λ _. ReadsOn bytes.now reading.old reading.new) }
    ensures filled { IsFilled S.remaining S.has_failed step reader.old reader.new next.new result }
{
    let (filled, read) = thread::join_mut(
        crew.rt,
        &mut || -> Result<usize, ReportFault>
            requires { (S.has_failed reader.now ≡ false) × (vec_len next.now ≤ step) }
            ensures { IsFilled S.remaining S.has_failed step reader.entry.now reader.exit.now next.exit.now result }
        { fill_buffer(reader, next, step) },
        &mut || -> Result<(), AllocError>
            requires { 1 ≤ piece }
            ensures { OnOk result (ReadsOn bytes.entry.now reading.entry.now reading.exit.now) }
        { reading.read(crew, bytes, piece) },
    );
    let filled = filled?;
    read?;
    Ok(filled)
}

/// Reads to the end of input, keeps all of it, and has it answered by the command's workers.
fn answer_to_all<R: Threads + Wait + Sync, S: Source, G: Gate + Sync>(
    crew: &Crew<'_, R, G>,
    reader: &mut S,
    command: &Command,
) -> Result<Reply, ReportFault>
    requires reader { S.has_failed reader.old ≡ false }
    requires piece { 1 ≤ command.now.piece }
    ensures ok { IfOk result (λ reply. IsAnswered (Output command.now.task command.now.settings) command.now.piece (S.remaining reader.old)
        (S.remaining reader.new) (reply_output reply) (reply_exit reply)) }
    ensures read { IsErrOf result ReportFault.Read ↔ (S.has_failed reader.new ≡ true) }
    ensures unwritten { IfErr result (λ fault. fault ≢ ReportFault.Write) }
    ensures pieces { IsErrOf result ReportFault.Pieces → HasTooManyPieces command.now (S.remaining reader.old)
        (S.remaining reader.new) }
{
    let text = read_to_end(crew.alloc, reader)?;
    let Ok(cutting) = Cutting::every(text.len(), command.piece) else {
        return Err(ReportFault::Pieces);
    };
    let reply = reply_to(crew, command, &text, &cutting)?;
    Ok(reply)
}

/// Reads to the end of input batch by batch, and has it answered by the crew.
///
/// Where workers share a batch, the next one is read meanwhile. After a short one it is read afterwards: that takes
/// less time than to start a thread, and no second buffer.
fn answer_in_batches<R: Threads + Wait + Sync, S: Source + Send, G: Gate + Sync>(
    crew: &Crew<'_, R, G>,
    reader: &mut S,
    command: &Command,
    mut reading: Reading<'_>,
    batch: usize,
) -> Result<Reply, ReportFault>
    requires reader { S.has_failed reader.old ≡ false }
    requires begins { IsReadingOf command.now.task command.now.settings [] reading }
    requires piece { 1 ≤ command.now.piece }
    ensures ok { IfOk result (λ reply. IsAnswered (Output command.now.task command.now.settings) command.now.piece (S.remaining reader.old)
        (S.remaining reader.new) (reply_output reply) (reply_exit reply)) }
    ensures read { IsErrOf result ReportFault.Read ↔ (S.has_failed reader.new ≡ true) }
    ensures unwritten { IfErr result (λ fault. fault ≢ ReportFault.Write) }
    ensures pieces { IsErrOf result ReportFault.Pieces → HasTooManyPieces command.now (S.remaining reader.old)
        (S.remaining reader.new) }
{
    let mut bytes = Vec::new(crew.alloc);
    let mut next = Vec::new(crew.alloc);
    let mut step = first_step(command, batch);
    let mut filled = fill_buffer(reader, &mut bytes, step)?;
    for _ in crew.rt.forever() {
        if filled < step {
            reading.read(crew, &bytes[..filled], command.piece)?;
            return reading.into_reply(command);
        }
        step = next_step(reading.end(), step, batch);
        let slice = &bytes[..filled];
        if crew.workers.count() > 1 && !is_short(filled, crew.gate) {
            filled = read_beside(
                crew,
                reader,
                &mut reading,
                slice,
                command.piece,
                &mut next,
                step,
            )?;
            mem::swap(&mut bytes, &mut next);
        } else {
            reading.read(crew, slice, command.piece)?;
            filled = fill_buffer(reader, &mut bytes, step)?;
        }
    }
    unreachable!()
}

/// How many bytes are read first, where one thread reads and judges. A short text takes no more memory than it needs.
const FIRST_READ: usize = 16 * 1024;

/// Reads once, and returns how many bytes the reader gave; 0 at the end of input.
fn read_once<S: Source>(reader: &mut S, bytes: &mut [u8]) -> Result<usize, ReportFault>
    requires unfailed { S.has_failed reader.old ≡ false }
    requires room { 1 ≤ length bytes.old }
    ensures within { IfOk result (λ count. count ≤ length bytes.new) }
    ensures ok { IfOk result (λ count. Consumes (S.remaining reader.old) (S.remaining reader.new) (take count bytes.new)) }
    ensures end { IfOk result (λ count. count ≡ 0 → IsAtEnd (S.remaining reader.new)) }
    ensures going { IfOk result (λ _. S.has_failed reader.new ≡ false) }
    ensures read { IsErrOf result ReportFault.Read ↔ (S.has_failed reader.new ≡ true) }
    ensures unwritten { IfErr result (λ fault. fault ≢ ReportFault.Write) }
    ensures uncut { IfErr result (λ fault. fault ≢ ReportFault.Pieces) }
{
    match reader.read(bytes) {
        Ok(count) => Ok(count),
        Err(_) => Err(ReportFault::Read),
    }
}

/// Twice as much room for the next read, up to `most` bytes, where the last one had too little.
fn widen(bytes: &mut Vec<u8>, count: usize, most: usize) -> Result<(), AllocError>
    requires some { 1 ≤ vec_len bytes.old }
    ensures some { OnOk result (1 ≤ vec_len bytes.new) }
{
    if count < bytes.len() || bytes.len() >= most {
        return Ok(());
    }
    bytes.resize(bytes.len().saturating_mul(2).min(most), 0)
}

/// Whether a reading asks no gate by itself: its tokens are judged in turn, without chunks.
fn asks_nothing(reading: &Reading<'_>) -> bool {
    match reading {
        Reading::Names(_) | Reading::Pointers(_) => true,
        Reading::Text { .. } | Reading::Elements(_) => false,
    }
}

/// Asks the gate before a read is judged as one chunk. After a stop nothing is asked.
fn is_asked_again<G: Gate>(gate: &G) -> bool {
    let event = Event::Drew {
        worker: 0,
        piece: PieceNo(0),
    };
    gate.pass(event) == Go::On
}

/// Reads to the end of input on one thread, and takes in what each read gives. So who fills a pipe writes while this judges,
/// and neither waits until a buffer is full.
fn answer_read_by_read<R: Threads + Wait + Sync, S: Source, G: Gate + Sync>(
    crew: &Crew<'_, R, G>,
    reader: &mut S,
    command: &Command,
    mut reading: Reading<'_>,
    most: usize,
) -> Result<Reply, ReportFault>
    requires reader { S.has_failed reader.old ≡ false }
    requires begins { IsReadingOf command.now.task command.now.settings [] reading }
    requires piece { 1 ≤ command.now.piece }
    requires some { 1 ≤ most }
    ensures ok { IfOk result (λ reply. IsAnswered (Output command.now.task command.now.settings) command.now.piece (S.remaining reader.old)
        (S.remaining reader.new) (reply_output reply) (reply_exit reply)) }
    ensures read { IsErrOf result ReportFault.Read ↔ (S.has_failed reader.new ≡ true) }
    ensures unwritten { IfErr result (λ fault. fault ≢ ReportFault.Write) }
    ensures pieces { IsErrOf result ReportFault.Pieces → HasTooManyPieces command.now (S.remaining reader.old)
        (S.remaining reader.new) }
{
    let mut bytes = Vec::new(crew.alloc);
    bytes.resize(FIRST_READ.min(most), 0)?;
    let mut asks = asks_nothing(&reading);
    for _ in crew.rt.forever() {
        let count = read_once(reader, bytes.as_mut_slice())?;
        if count == 0 {
            return reading.into_reply(command);
        }
        asks = asks && is_asked_again(crew.gate);
        reading.read(crew, &bytes[..count], command.piece)?;
        widen(&mut bytes, count, most)?;
    }
    unreachable!()
}

/// How many bytes are read at most at a time where one thread reads and judges: there is one worker, or tokens are judged in
/// turn.
fn most_alone(command: &Command, reading: &Reading<'_>, batch: usize) -> Option<usize>
    requires some { 1 ≤ batch }
    ensures some { IfSome result (λ most. 1 ≤ most) }
{
    if command.workers.count() == 1 {
        return Some(batch);
    }
    if asks_nothing(reading) {
        Some(batch.min(FIRST_STEP))
    } else {
        None
    }
}

/// Reads to the end of input, and has it answered by the crew. While a text or the elements of a sequence are judged, or few
/// pointers are looked up, at most two batches of the input are kept, of so many bytes each. Beside them a name is kept for
/// pointers, the names of open objects of a text whose names have to be unique, and the last element of such a sequence. For
/// rows and many pointers the whole input is kept.
pub(crate) fn answer_to_input<R: Threads + Wait + Sync, S: Source + Send, G: Gate + Sync>(
    crew: &Crew<'_, R, G>,
    reader: &mut S,
    command: &Command,
    batch: usize,
) -> Result<Reply, ReportFault>
    requires reader { S.has_failed reader.old ≡ false }
    requires piece { 1 ≤ command.now.piece }
    requires some { 1 ≤ batch }
    ensures ok { IfOk result (λ reply. IsAnswered (Output command.now.task command.now.settings) command.now.piece (S.remaining reader.old)
        (S.remaining reader.new) (reply_output reply) (reply_exit reply)) }
    ensures read { IsErrOf result ReportFault.Read ↔ (S.has_failed reader.new ≡ true) }
    ensures unwritten { IfErr result (λ fault. fault ≢ ReportFault.Write) }
    ensures pieces { IsErrOf result ReportFault.Pieces → HasTooManyPieces command.now (S.remaining reader.old)
        (S.remaining reader.new) }
{
    let few = few_pointers(crew.alloc, command)?;
    let Some(reading) = Reading::of(crew.alloc, command, few)? else {
        return answer_to_all(crew, reader, command);
    };
    match most_alone(command, &reading, batch) {
        Some(most) => answer_read_by_read(crew, reader, command, reading, most),
        None => answer_in_batches(crew, reader, command, reading, batch),
    }
}
