// The first line of a table.
ghost use Rattle.std.specs.Prelude.{◌≡◌, ◌↔◌, ◌≢◌, false, true, IfErr, IsErrOf, OnOk};
ghost use Rattle.std.specs.Io.KnownBytes.{Appends};
ghost use Rattle.jx_ends.specs.Ends.{AppendsBeginning};
ghost use Rattle.jx_line_values.specs.LineValues.{header};

use crate::adding::add_header;
use crate::task::LineValuesTask;
use jx_ends::{ReportFault, Sink, write_whole};
use std::alloc::Global;

/// Writes the first line of a table, in front of the rows of `report_line_values`: the pointers as they were given, each as
/// the cell of a text. After a write fault a beginning of it was written, and out of memory nothing.
pub fn write_header<W: Sink>(
    alloc: Global,
    writer: &mut W,
    task: &LineValuesTask,
) -> Result<(), ReportFault>
    requires { W.has_failed writer.old ≡ false }
    ensures ok { OnOk result (Appends (W.contents writer.old) (W.contents writer.new) (header task.now)) }
    ensures going { OnOk result (W.has_failed writer.new ≡ false) }
    ensures write { IsErrOf result ReportFault.Write ↔ (W.has_failed writer.new ≡ true) }
    ensures beginning { IsErrOf result ReportFault.Write → AppendsBeginning (W.contents writer.old) (W.contents writer.new) (header task.now) }
    ensures unwritten { IfErr result (λ fault. fault ≢ ReportFault.Write → writer.new ≡ writer.old) }
    ensures unread { IfErr result (λ fault. fault ≢ ReportFault.Read) }
    ensures uncut { IfErr result (λ fault. fault ≢ ReportFault.Pieces) }
{
    let mut line = Vec::new(alloc);
    add_header(&mut line, task)?;
    write_whole(writer, &line)?;
    Ok(())
}
