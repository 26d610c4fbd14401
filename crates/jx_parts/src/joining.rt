// The joined run of the runs of a stream.
ghost use Rattle.std.specs.Prelude.{◌≡◌, ◌≢◌, ◌+◌, ◌↔◌, ◌++◌, ℕ, List, Option, Some, false, true, IfOk, IfErr, IsErrOf};
ghost use Rattle.jx_portion.specs.Portion.{IsMismatch, IsPortion, Meets};
ghost use Rattle.jx_ends.specs.declared.report_fault.ReportFault.TheVariants.{Read, Write};
ghost use Rattle.jx_parts.specs.Refusals.{IsJoinFault};
ghost use Rattle.jx_parts.specs.inside.Reading.{IsApart, IsJoined};

use crate::next_portion::next_portion;
use crate::parts_fault::{PartsFault, RunRefusal};
use jx_ends::{ReportFault, Source};
use jx_lex::Depth;
use jx_portion::{Mismatch, Portion};
use std::alloc::Global;

/// Why a run, which has this number, does not follow those before it.
#[tactic(auto, using(crate::proofs::Refused::apart_too_long, crate::proofs::Refused::apart_depths))]
fn fault_by(mismatch: Mismatch, joined: &Portion, next: &Portion, number: usize) -> PartsFault
    requires mismatch { IsMismatch joined.now next.now mismatch }
    requires depths { joined.now.run.depth ≡ next.now.run.depth }
    ensures apart { IsApart joined.now next.now number result }
    ensures unread { result ≢ PartsFault.Report Read }
    ensures unwritten { result ≢ PartsFault.Report Write }
{
    match mismatch {
        Mismatch::TooLong => PartsFault::Report(ReportFault::Memory),
        Mismatch::Depths => {
            let depth = next.depth().containers();
            let why = RunRefusal::OtherDepth { depth };
            PartsFault::Run { number, why }
        }
        Mismatch::Place => {
            let at = next.start();
            let due = joined.end();
            let why = RunRefusal::Misplaced { at, due };
            PartsFault::Run { number, why }
        }
        // Where the run has an offset, all those before it have none.
        Mismatch::Froms => match next.from() {
            Some(_) => PartsFault::Run {
                number: 0,
                why: RunRefusal::NoFrom,
            },
            None => PartsFault::Run {
                number,
                why: RunRefusal::NoFrom,
            },
        },
    }
}

/// The run of a part and of the next one, whose run has this number.
fn join_next(joined: Portion, next: Portion, number: usize) -> Result<Portion, PartsFault>
    requires depths { joined.run.depth ≡ next.run.depth }
    ensures of { IfOk result (λ whole. (xs ys : List ℕ) (f g : Option ℕ) (depth : ℕ) → IsPortion xs f depth joined → IsPortion ys g depth next
        → IsPortion (xs ++ ys) f depth whole) }
    ensures meets { IfOk result (λ whole. Meets joined next) }
    ensures from { IfOk result (λ whole. whole.from ≡ joined.from) }
    ensures end { IfOk result (λ whole. whole.run.end ≡ joined.run.end + next.run.end) }
    ensures depth { IfOk result (λ whole. whole.run.depth ≡ joined.run.depth) }
    ensures refused { IfErr result (IsApart joined next number) }
    ensures unread { IfErr result (λ fault. fault ≢ PartsFault.Report Read) }
    ensures unwritten { IfErr result (λ fault. fault ≢ PartsFault.Report Write) }
{
    match joined.meets(&next) {
        Err(mismatch) => Err(fault_by(mismatch, &joined, &next, number)),
        Ok(()) => {
            let whole = joined.join(next)?;
            Ok(whole)
        }
    }
}

/// Reads a stream of run files to its end, and answers the joined run of their parts. Two runs are kept at a time.
pub(crate) fn read_joined<S: Source>(
    alloc: Global,
    reader: &mut S,
    depth: Depth,
) -> Result<Portion, PartsFault>
    requires unfailed { S.has_failed reader.old ≡ false }
    ensures ok { IfOk result (IsJoined depth (S.remaining reader.old) (S.remaining reader.new)) }
    ensures refused { (stream : List ℕ) → S.remaining reader.old ≡ Some stream → IfErr result (IsJoinFault depth stream) }
    ensures read { IsErrOf result (PartsFault.Report Read) ↔ (S.has_failed reader.new ≡ true) }
    ensures unwritten { IfErr result (λ fault. fault ≢ PartsFault.Report Write) }
{
    let Some(first) = next_portion(alloc, reader, depth, 0)? else {
        return Err(PartsFault::NoRuns);
    };
    let mut joined = first;
    for number in 1..usize::MAX {
        let Some(next) = next_portion(alloc, reader, depth, number)? else {
            return Ok(joined);
        };
        joined = join_next(joined, next, number)?;
    }
    // There are more runs than a word counts.
    Err(PartsFault::Report(ReportFault::Memory))
}
