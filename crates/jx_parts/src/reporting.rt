// The output for a part, for several run files, and for the run files of a whole text.
ghost use Rattle.std.specs.Prelude.{◌≡◌, ◌≢◌, ◌↔◌, ℕ, List, Option, Some, true, false, IfOk, IfErr, IsErrOf, OnOk};
ghost use Rattle.jx_portion.specs.Portion.{IsRecord};
ghost use Rattle.jx_ends.specs.declared.report_fault.ReportFault.TheVariants.{Read, Write};
ghost use Rattle.jx_parts.specs.Records.{HoldsRuns};
ghost use Rattle.jx_parts.specs.Refusals.{IsJoinFault, IsOfBounds, IsReport, IsWholeFault};
ghost use Rattle.jx_parts.specs.Reports.{Joins, SaysWhole, SaysWholeSo, Writes, WritesInPart};

use crate::joining::read_joined;
use crate::parts_fault::PartsFault;
use crate::portion_reading::{BATCH, read_portion};
use crate::record_writing::write_record;
use jx_ends::{Exit, Sink, Source};
use jx_lex::Depth;
use jx_words::write_verdict;
use std::alloc::Global;

/// Reads a part of a text to its end, batch by batch, and then writes its run. Where `from` is given, the part
/// begins at that offset of the text. It is also out of memory where its last byte has no offset.
pub fn report_part<S: Source, W: Sink>(
    alloc: Global,
    reader: &mut S,
    writer: &mut W,
    from: Option<usize>,
    depth: Depth,
) -> Result<(), PartsFault>
    requires reader { S.has_failed reader.old ≡ false }
    requires writer { W.has_failed writer.old ≡ false }
    // All that the reader had was read, and its run file was written.
    ensures ok { OnOk result (Writes (λ text output. IsRecord text from depth output) (S.remaining reader.old) (S.remaining reader.new)
        (W.contents writer.old) (W.contents writer.new)) }
    ensures read { IsErrOf result (PartsFault.Report Read) ↔ (S.has_failed reader.new ≡ true) }
    ensures write { IsErrOf result (PartsFault.Report Write) ↔ (W.has_failed writer.new ≡ true) }
    // It refuses no bytes.
    ensures only { IfErr result IsReport }
    // After any fault but a write fault the writer is as it was.
    ensures unwritten { IfErr result (λ fault. fault ≢ PartsFault.Report Write → writer.new ≡ writer.old) }
    // After a write fault all was read, and a beginning of its run file was written.
    ensures beginning { IsErrOf result (PartsFault.Report Write) → WritesInPart (λ text output. IsRecord text from depth output) (S.remaining reader.old)
        (S.remaining reader.new) (W.contents writer.old) (W.contents writer.new) }
{
    let portion = read_portion(alloc, reader, from, depth, BATCH)?;
    write_record(alloc, writer, &portion)
}

/// Reads runs to the end of input, one after another in the order of their parts, and then writes the run of all these
/// parts. Each has to be made with this depth, and to begin where the one before it ends, if they say so.
pub fn report_joined<S: Source, W: Sink>(
    alloc: Global,
    reader: &mut S,
    writer: &mut W,
    depth: Depth,
) -> Result<(), PartsFault>
    requires reader { S.has_failed reader.old ≡ false }
    requires writer { W.has_failed writer.old ≡ false }
    // All that the reader had was read; where it was run files of parts, that of the parts joined was written.
    ensures ok { OnOk result (Writes (Joins depth) (S.remaining reader.old) (S.remaining reader.new)
        (W.contents writer.old) (W.contents writer.new)) }
    ensures read { IsErrOf result (PartsFault.Report Read) ↔ (S.has_failed reader.new ≡ true) }
    ensures write { IsErrOf result (PartsFault.Report Write) ↔ (W.has_failed writer.new ≡ true) }
    // Where the bytes that the reader had are known, which fault they get.
    ensures refused { (stream : List ℕ) → S.remaining reader.old ≡ Some stream → IfErr result (IsJoinFault depth stream) }
    // Runs of neighbours get none: then an end failed, or it was out of memory.
    ensures taken { (stream : List ℕ) (from : Option ℕ) (count : ℕ) → S.remaining reader.old ≡ Some stream → HoldsRuns depth from count stream → IfErr result IsReport }
    // After any other fault the writer is as it was.
    ensures unwritten { IfErr result (λ fault. fault ≢ PartsFault.Report Write → writer.new ≡ writer.old) }
    // After a write fault all was read, and a beginning of the output was written.
    ensures beginning { IsErrOf result (PartsFault.Report Write) → WritesInPart (Joins depth) (S.remaining reader.old) (S.remaining reader.new)
        (W.contents writer.old) (W.contents writer.new) }
{
    let joined = read_joined(alloc, reader, depth)?;
    write_record(alloc, writer, &joined)
}

/// Reads runs to the end of input as `report_joined` does, and then writes the line of the verdict on the text that they make, as
/// a report on this text does, unless it is quiet. They have to cover the bytes of the text from the offset `from` up to the
/// offset `to`.
pub fn report_whole<S: Source, W: Sink>(
    alloc: Global,
    reader: &mut S,
    writer: &mut W,
    depth: Depth,
    from: usize,
    to: usize,
    quiet: bool,
) -> Result<Exit, PartsFault>
    requires reader { S.has_failed reader.old ≡ false }
    requires writer { W.has_failed writer.old ≡ false }
    // All that the reader had was read; where it was run files of parts, the verdict on the parts joined was written.
    ensures ok { IfOk result (λ exit. Writes (SaysWhole from to depth quiet exit) (S.remaining reader.old) (S.remaining reader.new)
        (W.contents writer.old) (W.contents writer.new)) }
    ensures read { IsErrOf result (PartsFault.Report Read) ↔ (S.has_failed reader.new ≡ true) }
    ensures write { IsErrOf result (PartsFault.Report Write) ↔ (W.has_failed writer.new ≡ true) }
    // Where the bytes that the reader had are known, which fault they get.
    ensures refused { (stream : List ℕ) → S.remaining reader.old ≡ Some stream → IfErr result (IsWholeFault depth from to stream) }
    // Runs of neighbours get none but that they are those of another part of the text.
    ensures taken { (stream : List ℕ) (at : Option ℕ) (count : ℕ) → S.remaining reader.old ≡ Some stream → HoldsRuns depth at count stream
        → IfErr result (IsOfBounds at count from to) }
    // After any other fault the writer is as it was.
    ensures unwritten { IfErr result (λ fault. fault ≢ PartsFault.Report Write → writer.new ≡ writer.old) }
    // After a write fault all was read, and a beginning of the line was written.
    ensures beginning { IsErrOf result (PartsFault.Report Write) → WritesInPart (SaysWholeSo from to depth quiet) (S.remaining reader.old)
        (S.remaining reader.new) (W.contents writer.old) (W.contents writer.new) }
{
    let joined = read_joined(alloc, reader, depth)?;
    let (start, end) = (joined.start(), joined.end());
    if start != from || end != to {
        return Err(PartsFault::Elsewhere {
            start,
            end,
            from,
            to,
        });
    }
    let exit = write_verdict(alloc, writer, joined.verdict(), quiet)?;
    Ok(exit)
}
