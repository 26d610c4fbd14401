// A run file, as it is written.
ghost use Rattle.std.specs.Prelude.{◌≡◌, ◌≢◌, ◌↔◌, false, true, IfErr, IsErrOf, OnOk};
ghost use Rattle.std.specs.Io.KnownBytes.{Appends};
ghost use Rattle.jx_ends.specs.Ends.{AppendsBeginning};
ghost use Rattle.jx_ends.specs.declared.report_fault.ReportFault.TheVariants.{Read, Write};
ghost use Rattle.jx_parts.specs.Refusals.{IsReport};
ghost use Rattle.jx_parts.specs.inside.Writing.{IsWritten};

use crate::parts_fault::PartsFault;
use jx_ends::{Sink, write_whole};
use jx_portion::Portion;
use std::alloc::Global;

/// Writes the run file of a partial result.
pub(crate) fn write_record<W: Sink>(
    alloc: Global,
    writer: &mut W,
    portion: &Portion,
) -> Result<(), PartsFault>
    requires { W.has_failed writer.old ≡ false }
    ensures ok { OnOk result (IsWritten (Appends (W.contents writer.old) (W.contents writer.new)) portion.now) }
    ensures write { IsErrOf result (PartsFault.Report Write) ↔ (W.has_failed writer.new ≡ true) }
    ensures beginning { IsErrOf result (PartsFault.Report Write)
        → IsWritten (AppendsBeginning (W.contents writer.old) (W.contents writer.new)) portion.now }
    ensures unwritten { IfErr result (λ fault. fault ≢ PartsFault.Report Write → writer.new ≡ writer.old) }
    ensures unread { IfErr result (λ fault. fault ≢ PartsFault.Report Read) }
    ensures only { IfErr result IsReport }
{
    let bytes = portion.encode(alloc)?;
    write_whole(writer, &bytes)?;
    Ok(())
}
