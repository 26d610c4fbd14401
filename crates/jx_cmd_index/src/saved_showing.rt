// Shows what was read of an input: writes the bytes of its index, or reports its verdict.
ghost use Rattle.std.specs.Prelude.{◌≡◌, ◌≢◌, ◌↔◌, true, false, IfOk, IfErr, IsErrOf, OnErr, OnOk};
ghost use Rattle.std.specs.Io.KnownBytes.{Appends};
ghost use Rattle.jx_ends.specs.Ends.{AppendsBeginning};
ghost use Rattle.jx_file_index.specs.TextSpelling.{spelt_saved};
ghost use Rattle.jx_cmd_index.specs.inside.Shown.{Shows, ShowsInPart};

use jx_ends::{Exit, ReportFault, Sink, write_whole};
use jx_file_index::SavedText;
use jx_run::Refusal;
use jx_values::{tell, told_of_refusal};
use std::alloc::Global;

/// Writes the bytes of what is saved of a text.
fn write_saved<W: Sink>(alloc: Global, writer: &mut W, saved: &SavedText) -> Result<(), ReportFault>
    requires { W.has_failed writer.old ≡ false }
    ensures ok { OnOk result (Appends (W.contents writer.old) (W.contents writer.new) (spelt_saved saved.now)) }
    ensures write { IsErrOf result ReportFault.Write ↔ (W.has_failed writer.new ≡ true) }
    ensures beginning { IsErrOf result ReportFault.Write → AppendsBeginning (W.contents writer.old) (W.contents writer.new) (spelt_saved saved.now) }
    ensures unwritten { IfErr result (λ fault. fault ≢ ReportFault.Write → writer.new ≡ writer.old) }
    ensures unread { IfErr result (λ fault. fault ≢ ReportFault.Read) }
    ensures uncut { IfErr result (λ fault. fault ≢ ReportFault.Pieces) }
{
    let bytes = saved.encode(alloc)?;
    write_whole(writer, &bytes)
}

/// Writes the bytes of the index of a text, with its tables, or reports why an input is not a text. The bytes are made before the
/// first one is written. Where reporting fails, the status is the same.
pub(crate) fn show_saved<W: Sink, E: Sink>(
    alloc: Global,
    writer: &mut W,
    errors: &mut E,
    read: Result<SavedText, Refusal>,
) -> Result<Exit, ReportFault>
    requires { W.has_failed writer.old ≡ false }
    ensures ok { IfOk result (Shows read (W.contents writer.old) (W.contents writer.new) (E.has_failed errors.new) (E.contents errors.old) (E.contents errors.new)) }
    ensures write { IsErrOf result ReportFault.Write ↔ (W.has_failed writer.new ≡ true) }
    ensures unwritten { IfErr result (λ fault. fault ≢ ReportFault.Write → writer.new ≡ writer.old) }
    ensures untold { OnErr result (errors.new ≡ errors.old) }
    ensures beginning { IsErrOf result ReportFault.Write → ShowsInPart read (W.contents writer.old) (W.contents writer.new) }
    ensures unread { IfErr result (λ fault. fault ≢ ReportFault.Read) }
    ensures uncut { IfErr result (λ fault. fault ≢ ReportFault.Pieces) }
{
    match read {
        Ok(saved) => {
            write_saved(alloc, writer, &saved)?;
            Ok(Exit::Good)
        }
        Err(refusal) => {
            let told = told_of_refusal(alloc, refusal)?;
            tell(errors, &told);
            Ok(Exit::Bad)
        }
    }
}
