ghost use Rattle.std.specs.Prelude.{◌≡◌, false, OnOk, OnErr, IfErr, is_err};
ghost use Rattle.std.specs.Io.KnownBytes.{Appends};
ghost use Rattle.jx_ends.specs.Ends.{AppendsBeginning};

use crate::report_fault::ReportFault;
use crate::sink::Sink;

/// Writes all bytes, as many at a time as the writer takes.
pub fn write_whole<W: Sink>(writer: &mut W, bytes: &[u8]) -> Result<(), ReportFault>
    requires { W.has_failed writer.old ≡ false }
    ensures ok { OnOk result (Appends (W.contents writer.old) (W.contents writer.new) bytes.now) }
    ensures err { OnErr result (AppendsBeginning (W.contents writer.old) (W.contents writer.new) bytes.now) }
    ensures fault { IfErr result (λ fault. fault ≡ ReportFault.Write) }
    ensures failed { W.has_failed writer.new ≡ is_err result }
{
    let mut written = 0;
    while written < bytes.len() {
        match writer.write(&bytes[written..]) {
            Ok(0) | Err(_) => return Err(ReportFault::Write),
            Ok(count) => written += count,
        }
    }
    Ok(())
}
