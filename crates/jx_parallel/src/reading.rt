// Reads at offsets, into a buffer of the worker's own.
ghost use Rattle.std.specs.Prelude.{◌≡◌, ◌≤◌, ◌<◌, IfErr, IfOk, length, take};
ghost use Rattle.jx_parallel.specs.Faults.{ReadFailsBy};
ghost use Rattle.jx_parallel.specs.Offsets.{EndsBefore, StandThere};

use crate::check_fault::CheckFault;
use crate::kept::Kept;
use crate::known::Known;
use crate::lead::Lead;
use crate::shared_at::SharedAt;
use jx_lex::Depth;
use std::alloc::Global;
use std::sync::Wait;

/// Reads into the buffer from an offset on, once.
pub(crate) fn read_some<F: SharedAt>(
    file: &F,
    buffer: &mut [u8],
    at: usize,
) -> Result<usize, CheckFault<F::Fault>>
    ensures within { IfOk result (λ n. n ≤ length buffer.new) }
    ensures length { length buffer.new ≡ length buffer.old }
    ensures bytes { IfOk result (λ n. StandThere (F.content file.now) at (take n buffer.new)) }
    ensures end { IfOk result (λ n. n ≡ 0 → 0 < length buffer.old → EndsBefore (F.content file.now) at) }
    ensures fault { IfErr result (ReadFailsBy (F.may_fail file.now)) }
{
    match file.read_at(buffer, at) {
        Ok(count) => Ok(count),
        Err(reason) => Err(CheckFault::Read(reason)),
    }
}

/// The run of what one read gives there; none at the end.
pub(crate) fn run_there<F: SharedAt, K: Known>(
    alloc: Global,
    file: &F,
    buffer: &mut [u8],
    at: usize,
    depth: Depth,
) -> Result<Option<Kept<K>>, CheckFault<F::Fault>>
    requires text { K.text ≡ F.content file.now }
    requires depth { depth ≡ K.settings.depth }
    ensures length { length buffer.new ≡ length buffer.old }
{
    let count = read_some(file, buffer, at)?;
    if count == 0 {
        return Ok(None);
    }
    let run = Kept::<K>::read(alloc, &buffer[..count], at, depth)?;
    Ok(Some(run))
}

/// Lets the reader read on by what one read gives, and returns how many bytes that were; 0 at the end.
pub(crate) fn lead_there<F: SharedAt, K: Known>(
    file: &F,
    buffer: &mut [u8],
    lead: Lead<K>,
) -> Result<(Lead<K>, usize), CheckFault<F::Fault>>
    requires text { K.text ≡ F.content file.now }
    ensures length { length buffer.new ≡ length buffer.old }
    ensures end { IfOk result (λ read. read.1 ≡ 0 → 0 < length buffer.old → EndsBefore (F.content file.now) read.0.count) }
    ensures fault { IfErr result (ReadFailsBy (F.may_fail file.now)) }
{
    let at = lead.end();
    let count = read_some(file, buffer, at)?;
    if count == 0 {
        return Ok((lead, 0));
    }
    let lead = lead.feed(&buffer[..count])?;
    Ok((lead, count))
}

/// Lets the reader read on up to an offset, or to the end or a fault of the text, and returns whether it is at the offset.
pub(crate) fn lead_to<F: SharedAt, K: Known, R: Wait>(
    rt: &R,
    file: &F,
    buffer: &mut [u8],
    end: usize,
    lead: Lead<K>,
) -> Result<(Lead<K>, bool), CheckFault<F::Fault>>
    requires text { K.text ≡ F.content file.now }
    ensures length { length buffer.new ≡ length buffer.old }
    ensures fault { IfErr result (ReadFailsBy (F.may_fail file.now)) }
{
    let mut lead = lead;
    for _ in rt.forever() {
        let at = lead.end();
        if at >= end {
            return Ok((lead, true));
        }
        let room = buffer.len().min(end - at);
        let (further, count) = lead_there::<F, K>(file, &mut buffer[..room], lead)?;
        lead = further;
        if count == 0 || lead.decided().is_some() {
            return Ok((lead, false));
        }
    }
    unreachable!()
}
