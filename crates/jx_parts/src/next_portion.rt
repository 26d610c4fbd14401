// The next run file of a stream.
ghost use Rattle.std.specs.Prelude.{◌≡◌, ◌≢◌, ◌↔◌, [], ℕ, List, Option, Some, false, true, IfOk, IfErr, IsErrOf};
ghost use Rattle.jx_portion.specs.Portion.{IsPortion, IsRecord, IsSaidBy};
ghost use Rattle.jx_ends.specs.declared.report_fault.ReportFault.TheVariants.{Read, Write};
ghost use Rattle.jx_parts.specs.Refusals.{IsNoRecord, IsNoRun};
ghost use Rattle.jx_parts.specs.inside.Reading.{IsFaultOf, IsNext};

use crate::parts_fault::{PartsFault, fault_of_run};
use crate::record_reading::next_record;
use jx_ends::Source;
use jx_lex::Depth;
use jx_portion::{Portion, decode};
use std::alloc::Global;

/// The partial result that a run file says, whose number is reported where it is refused.
fn portion_by(alloc: Global, bytes: &[u8], number: usize) -> Result<Portion, PartsFault>
    ensures reads { IfOk result (λ p. (part : List ℕ) (from : Option ℕ) (depth : ℕ) → IsRecord part from depth bytes.now → IsPortion part from depth p) }
    ensures found { IfOk result (IsSaidBy bytes.now) }
    ensures refused { IfErr result (IsFaultOf number (IsNoRun bytes.now)) }
    ensures unread { IfErr result (λ fault. fault ≢ PartsFault.Report Read) }
    ensures unwritten { IfErr result (λ fault. fault ≢ PartsFault.Report Write) }
{
    match decode(alloc, bytes) {
        Ok(portion) => Ok(portion),
        Err(fault) => Err(fault_of_run(fault, number)),
    }
}

/// Reads the next run file of a stream, which has this number, and answers the partial result that it says, or nothing
/// where the stream ends.
pub(crate) fn next_portion<S: Source>(
    alloc: Global,
    reader: &mut S,
    depth: Depth,
    number: usize,
) -> Result<Option<Portion>, PartsFault>
    requires unfailed { S.has_failed reader.old ≡ false }
    ensures ok { IfOk result (IsNext depth (S.remaining reader.old) (S.remaining reader.new)) }
    ensures refused { (stream : List ℕ) → S.remaining reader.old ≡ Some stream
        → IfErr result (IsFaultOf number (λ why. (stream ≢ []) × IsNoRecord depth stream why)) }
    ensures read { IsErrOf result (PartsFault.Report Read) ↔ (S.has_failed reader.new ≡ true) }
    ensures going { IfOk result (λ _. S.has_failed reader.new ≡ false) }
    ensures unwritten { IfErr result (λ fault. fault ≢ PartsFault.Report Write) }
{
    match next_record(alloc, reader, depth, number)? {
        None => Ok(None),
        Some(bytes) => {
            let portion = portion_by(alloc, &bytes, number)?;
            Ok(Some(portion))
        }
    }
}
