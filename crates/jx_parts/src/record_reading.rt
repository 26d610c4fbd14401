// The bytes of the next run file of a stream.
ghost use Rattle.std.specs.Prelude.{◌≡◌, ◌≢◌, ◌+◌, ◌<◌, ◌≤◌, ◌↔◌, ◌++◌, [], ℕ, List, Some, length, false, true, vec_len, IfOk, IfErr, IsErrOf};
ghost use Rattle.std.specs.Io.KnownBytes.{Consumes, IsAtEnd};
ghost use Rattle.jx_ends.specs.declared.report_fault.ReportFault.TheVariants.{Read, Write};
ghost use Rattle.jx_parts.specs.Refusals.{most, IsHead, IsNoHead, IsNoRecord};
ghost use Rattle.jx_parts.specs.inside.Reading.{told_depth, told_size, IsFaultOf, IsNextRecord};
ghost use Rattle.jx_parts.specs.declared.parts_fault.RunRefusal.TheVariants as refusal;

use crate::parts_fault::{PartsFault, RunRefusal, fault_of_run};
use jx_ends::{ReportFault, Source, fill_buffer};
use jx_lex::Depth;
use jx_portion::{HEAD, head_of};
use std::alloc::Global;

/// Reads so many bytes, or fewer where the input ends.
fn read_up_to<S: Source>(
    alloc: Global,
    reader: &mut S,
    limit: usize,
) -> Result<Vec<u8>, ReportFault>
    requires unfailed { S.has_failed reader.old ≡ false }
    ensures ok { IfOk result (λ bytes. Consumes (S.remaining reader.old) (S.remaining reader.new) bytes.items) }
    ensures within { IfOk result (λ bytes. vec_len bytes ≤ limit) }
    ensures end { IfOk result (λ bytes. vec_len bytes < limit → IsAtEnd (S.remaining reader.new)) }
    ensures read { IsErrOf result ReportFault.Read ↔ (S.has_failed reader.new ≡ true) }
    ensures going { IfOk result (λ _. S.has_failed reader.new ≡ false) }
    ensures unwritten { IfErr result (λ fault. fault ≢ ReportFault.Write) }
{
    let mut bytes = Vec::new(alloc);
    let filled = fill_buffer(reader, &mut bytes, limit)?;
    bytes.truncate(filled);
    Ok(bytes)
}

/// How many bytes a run file has at most, whatever text its part is of: some of them, and some for each container of
/// the depth.
const MOST: usize = 4096;

const MOST_A_CONTAINER: usize = 1120;

/// The greatest size of a run file that is read with this depth.
fn most(depth: Depth) -> usize
    ensures { result ≡ most depth }
{
    MOST + MOST_A_CONTAINER * depth.containers() as usize
}

/// The size by the head of the run file with this number, where it is one that is read with this depth.
#[tactic(auto, using(crate::proofs::Heads::head_told))]
fn size_by(head: &[u8], depth: Depth, number: usize) -> Result<usize, PartsFault>
    ensures size { IfOk result (λ size. size ≡ told_size head.now) }
    ensures depth { IfOk result (λ _. told_depth head.now ≡ depth) }
    ensures least { IfOk result (λ size. 24 ≤ size) }
    ensures whole { IfOk result (λ _. 24 ≤ length head.now) }
    ensures head { IfOk result (λ size. IsHead depth size head.now) }
    ensures refused { IfErr result (IsFaultOf number (IsNoHead depth head.now)) }
    ensures unread { IfErr result (λ fault. fault ≢ PartsFault.Report Read) }
    ensures unwritten { IfErr result (λ fault. fault ≢ PartsFault.Report Write) }
{
    match head_of(head) {
        Err(fault) => Err(fault_of_run(fault, number)),
        Ok((found, _)) => {
            if found.depth != depth.containers() {
                let depth = found.depth;
                let why = RunRefusal::OtherDepth { depth };
                return Err(PartsFault::Run { number, why });
            }
            if found.size < HEAD || found.size > most(depth) {
                let why = RunRefusal::Malformed;
                return Err(PartsFault::Run { number, why });
            }
            Ok(found.size)
        }
    }
}

/// Reads a run file on after its head, up to its size.
fn read_behind<S: Source>(
    alloc: Global,
    reader: &mut S,
    mut bytes: Vec<u8>,
    size: usize,
    number: usize,
) -> Result<Vec<u8>, PartsFault>
    requires unfailed { S.has_failed reader.old ≡ false }
    requires head { vec_len bytes ≤ size }
    ensures ok { IfOk result (λ whole. (rest : List ℕ) × (Consumes (S.remaining reader.old) (S.remaining reader.new) rest × (whole.items ≡ bytes.items ++ rest))) }
    ensures long { IfOk result (λ whole. vec_len whole ≡ size) }
    ensures refused { (stream : List ℕ) → S.remaining reader.old ≡ Some stream
        → IfErr result (IsFaultOf number (λ why. (vec_len bytes + length stream < size) × (why ≡ refusal.CutShort))) }
    ensures read { IsErrOf result (PartsFault.Report Read) ↔ (S.has_failed reader.new ≡ true) }
    ensures going { IfOk result (λ _. S.has_failed reader.new ≡ false) }
    ensures unwritten { IfErr result (λ fault. fault ≢ PartsFault.Report Write) }
{
    let missing = size - bytes.len();
    let mut rest = read_up_to(alloc, reader, missing)?;
    if rest.len() < missing {
        let why = RunRefusal::CutShort;
        return Err(PartsFault::Run { number, why });
    }
    bytes.append(&mut rest)?;
    Ok(bytes)
}

/// Reads the next run file of a stream, which has this number, or nothing where the stream ends. No more of it is
/// looked at than its size and its depth.
pub(crate) fn next_record<S: Source>(
    alloc: Global,
    reader: &mut S,
    depth: Depth,
    number: usize,
) -> Result<Option<Vec<u8>>, PartsFault>
    requires unfailed { S.has_failed reader.old ≡ false }
    ensures ok { IfOk result (IsNextRecord depth (S.remaining reader.old) (S.remaining reader.new)) }
    ensures refused { (stream : List ℕ) → S.remaining reader.old ≡ Some stream
        → IfErr result (IsFaultOf number (λ why. (stream ≢ []) × IsNoRecord depth stream why)) }
    ensures read { IsErrOf result (PartsFault.Report Read) ↔ (S.has_failed reader.new ≡ true) }
    ensures going { IfOk result (λ _. S.has_failed reader.new ≡ false) }
    ensures unwritten { IfErr result (λ fault. fault ≢ PartsFault.Report Write) }
{
    let head = read_up_to(alloc, reader, HEAD)?;
    if head.is_empty() {
        return Ok(None);
    }
    let size = size_by(&head, depth, number)?;
    let bytes = read_behind(alloc, reader, head, size, number)?;
    Ok(Some(bytes))
}
