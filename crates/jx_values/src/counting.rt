// How many elements a container has.
ghost use Rattle.std.specs.Prelude.{◌≡◌, ◌≢◌, ◌↔◌, [], Some, false, true, IfErr, IfOk, IsErrOf, OnErr, OnOk, decimal};
ghost use Rattle.std.specs.Io.KnownBytes.{Appends};
ghost use Rattle.jx_drive.specs.Reports.{ReportsAll};
ghost use Rattle.jx_ends.specs.Ends.{AppendsBeginning};
ghost use Rattle.jx_index.specs.Pointers.{IsPointer};
ghost use Rattle.jx_each.specs.declared.content.LineContent.TheVariants.{Empty};
ghost use Rattle.jx_words.specs.Words.{line};
ghost use Rattle.jx_values.specs.Counts.{ToldCount, WroteCountInPart};
ghost use Rattle.jx_values.specs.Elements.{ToldOutput};
ghost use Rattle.jx_values.specs.inside.Tally.{line_feeds, number_by};

use crate::elements::report_elements;
use crate::tally::Tally;
use jx_crew::{Crew, Gate};
use jx_each::{LineContent, lines_due_of_a_text};
use jx_ends::{End, Exit, ReportFault, Sink, Source, write_whole};
use jx_run::Settings;
use jx_words::add_number;
use std::alloc::{AllocError, Global};
use std::sync::Wait;
use std::thread::Threads;

/// How many elements were counted, and the status.
#[derive(Clone, Copy, Debug)]
struct Counted {
    count: usize,
    exit: Exit,
}

/// The fault of a count: a number that is too great is a refusal of memory.
fn fault_of_count(fault: ReportFault) -> ReportFault
    ensures read { (result ≡ ReportFault.Read) ↔ (fault ≡ ReportFault.Read) }
    ensures written { result ≢ ReportFault.Write }
    ensures uncut { fault ≢ ReportFault.Pieces → result ≢ ReportFault.Pieces }
{
    match fault {
        ReportFault::Read => ReportFault::Read,
        ReportFault::Write => ReportFault::Memory,
        ReportFault::Memory => ReportFault::Memory,
        ReportFault::Pieces => ReportFault::Pieces,
    }
}

/// Reads to the end of input, counts the elements, and reports as `report_elements` does.
fn count_elements<R: Threads + Wait + Sync, S: Source, E: Sink, G: Gate + Sync>(
    crew: &Crew<'_, R, G>,
    reader: &mut S,
    errors: &mut E,
    settings: &Settings,
    pointer: &str,
    piece: usize,
) -> Result<Counted, ReportFault>
    requires pointer { IsPointer pointer.now }
    requires reader { S.has_failed reader.old ≡ false }
    ensures ok { IfOk result (λ counted. ReportsAll (ToldOutput false Empty settings.now pointer.now (E.has_failed errors.new) (E.contents errors.old) (E.contents errors.new)) (S.remaining reader.old) (S.remaining reader.new)
        (Some []) (Some (line_feeds counted.count)) counted.exit) }
    ensures read { IsErrOf result ReportFault.Read ↔ (S.has_failed reader.new ≡ true) }
    ensures unwritten { IfErr result (λ fault. fault ≢ ReportFault.Write) }
    ensures uncut { IfErr result (λ fault. fault ≢ ReportFault.Pieces) }
    ensures untold { OnErr result (errors.new ≡ errors.old) }
{
    let mut tally = End::new(Tally { count: 0 });
    match report_elements(
        crew,
        reader,
        &mut tally,
        errors,
        settings,
        LineContent::Empty,
        pointer,
        piece,
    ) {
        Ok(exit) => Ok(Counted {
            count: tally.inner.count,
            exit,
        }),
        Err(fault) => Err(fault_of_count(fault)),
    }
}

/// A line with a number.
fn number_line(alloc: Global, number: usize) -> Result<Vec<u8>, AllocError>
    ensures { IfOk result (λ bytes. bytes.items ≡ line (decimal number)) }
{
    let mut bytes = Vec::new(alloc);
    add_number(&mut bytes, number)?;
    bytes.push(b'\n')?;
    Ok(bytes)
}

/// Writes a line with the number, where the status is good.
fn write_count<W: Sink>(alloc: Global, writer: &mut W, counted: Counted) -> Result<(), ReportFault>
    requires { W.has_failed writer.old ≡ false }
    ensures ok { OnOk result (Appends (W.contents writer.old) (W.contents writer.new) (number_by counted.exit counted.count)) }
    ensures write { IsErrOf result ReportFault.Write ↔ (W.has_failed writer.new ≡ true) }
    ensures beginning { IsErrOf result ReportFault.Write → AppendsBeginning (W.contents writer.old) (W.contents writer.new) (number_by counted.exit counted.count) }
    ensures unwritten { IfErr result (λ fault. fault ≢ ReportFault.Write → writer.new ≡ writer.old) }
    ensures good { OnErr result (counted.exit ≡ Exit.Good) }
    ensures unread { IfErr result (λ fault. fault ≢ ReportFault.Read) }
    ensures uncut { IfErr result (λ fault. fault ≢ ReportFault.Pieces) }
{
    match counted.exit {
        Exit::Good => write_whole(writer, &number_line(alloc, counted.count)?),
        Exit::Bad => Ok(()),
    }
}

/// Reads to the end of input, and writes a line with the number of elements of the array that a pointer leads to, by the
/// first member of each of its names (RFC 6901, section 4), or of members of the object: repeated names count too. Where
/// the input is not valid JSON or the pointer leads to no container, it writes nothing, and reports that as
/// `report_elements` does. The status is good where the line is written. One element or name is kept, and one batch.
pub fn report_count<R: Threads + Wait + Sync, S: Source, W: Sink, E: Sink, G: Gate + Sync>(
    crew: &Crew<'_, R, G>,
    reader: &mut S,
    writer: &mut W,
    errors: &mut E,
    settings: &Settings,
    pointer: &str,
    piece: usize,
) -> Result<Exit, ReportFault>
    requires pointer { IsPointer pointer.now }
    requires reader { S.has_failed reader.old ≡ false }
    requires writer { W.has_failed writer.old ≡ false }
    // All that the reader had was read, and its whole output was written and told.
    ensures ok { IfOk result (λ exit. ReportsAll (ToldCount settings.now pointer.now (E.has_failed errors.new) (E.contents errors.old) (E.contents errors.new)) (S.remaining reader.old) (S.remaining reader.new) (W.contents writer.old) (W.contents writer.new) exit) }
    ensures read { IsErrOf result ReportFault.Read ↔ (S.has_failed reader.new ≡ true) }
    ensures write { IsErrOf result ReportFault.Write ↔ (W.has_failed writer.new ≡ true) }
    // After each fault nothing was reported, and after all but a write fault nothing was written.
    ensures untold { OnErr result (E.has_failed errors.new ≡ false → Appends (E.contents errors.old) (E.contents errors.new) []) }
    ensures unwritten { IfErr result (λ fault. fault ≢ ReportFault.Write → writer.new ≡ writer.old) }
    ensures beginning { IsErrOf result ReportFault.Write → WroteCountInPart settings.now pointer.now (S.remaining reader.old) (S.remaining reader.new)
        (W.contents writer.old) (W.contents writer.new) }
    ensures uncut { IfErr result (λ fault. fault ≢ ReportFault.Pieces) }
{
    lines_due_of_a_text();
    let counted = match count_elements(crew, reader, errors, settings, pointer, piece) {
        Ok(counted) => counted,
        Err(fault) => return Err(fault),
    };
    match write_count(crew.alloc, writer, counted) {
        Ok(()) => Ok(counted.exit),
        Err(fault) => Err(fault),
    }
}
