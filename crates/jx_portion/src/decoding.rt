// Partial results from their run files.
ghost use Rattle.std.specs.Prelude.{◌≡◌, ℕ, List, Option, map, IfOk, IfErr, Ok};
ghost use Rattle.std.specs.List.{AllByRecursion};
ghost use Rattle.jx_reduce.specs.Parts.{structure_of_parts};
ghost use Rattle.jx_reduce.specs.Sound.{IsSound};
ghost use Rattle.jx_portion.specs.Fields.{run_fields, RunFields};
ghost use Rattle.jx_portion.specs.Portion.{portion_in, IsAnswer, IsMemory, IsPortion, IsRecord, IsRun, IsSaidBy, IsSpelt, OnlyParts};
ghost use Rattle.jx_portion.specs.Reading.{record_at, IsSealed};

use crate::fault::{DecodeFault, Field, RunFault};
use crate::portion::Portion;
use crate::record::{RunParts, record_of};
use jx_lex::Depth;
use jx_reduce::{Structure, StructureParts};
use jx_run::OutcomeRun;
use std::alloc::Global;

/// The structures that have these parts, where all of them are sound.
fn structures_of(
    alloc: Global,
    depth: Depth,
    parts: Vec<StructureParts>,
) -> Result<Vec<Structure>, DecodeFault>
    ensures made { IfOk result (λ s. (s.items ≡ map (structure_of_parts depth) parts.items) × AllByRecursion IsSound s.items) }
    ensures fault { IfErr result (λ e. OnlyParts e (AllByRecursion IsSound (map (structure_of_parts depth) parts.items))) }
{
    let mut structures = Vec::new(alloc);
    for part in parts {
        match Structure::of_parts(alloc, depth, part) {
            Some(structure) => structures.push(structure)?,
            None => return Err(DecodeFault::Fault(RunFault::Malformed(Field::Parts))),
        }
    }
    Ok(structures)
}

/// The partial result that has these parts, if any has.
fn portion_of(alloc: Global, depth: Depth, parts: RunParts) -> Result<Portion, DecodeFault>
    ensures made { IfOk result (λ p. (p ≡ portion_in depth (run_fields parts)) × IsRun depth (run_fields parts)) }
    ensures fault { IfErr result (λ e. OnlyParts e (IsRun depth (run_fields parts))) }
{
    let RunParts {
        from,
        end,
        transitions,
        structures,
    } = parts;
    let structures = structures_of(alloc, depth, structures)?;
    if from.unwrap_or(0).checked_add(end).is_none() {
        return Err(DecodeFault::Fault(RunFault::Malformed(Field::Parts)));
    }
    match OutcomeRun::of_parts(depth, end, transitions, structures) {
        Some(run) => Ok(Portion { from, run }),
        None => Err(DecodeFault::Fault(RunFault::Malformed(Field::Parts))),
    }
}

/// The partial result that the bytes encode, where a run has it.
fn answer(alloc: Global, bytes: &[u8]) -> Result<Portion, DecodeFault>
    ensures exact { IsAnswer result (record_at bytes.now) }
    ensures sealed { IfErr result (λ fault. fault ≡ DecodeFault.Memory → IsSealed bytes.now) }
{
    let (depth, parts) = record_of(alloc, bytes)?;
    portion_of(alloc, depth, parts)
}

/// The partial result whose run file these bytes are, all of them. Nothing is reserved by a size or a count that they
/// name.
pub fn decode(alloc: Global, bytes: &[u8]) -> Result<Portion, DecodeFault>
    // Which fault it is: the first one from left to right, and last that no run has these parts.
    ensures exact { IsAnswer result (record_at bytes.now) }
    // Memory is asked for only where the head and the digest are those of a run file.
    ensures sealed { IfErr result (λ fault. fault ≡ DecodeFault.Memory → IsSealed bytes.now) }
    // Nothing else is read.
    ensures found { IfOk result (IsSaidBy bytes.now) }
    // A run file that is written so is read, unless memory runs out.
    ensures only { (d : ℕ) (r : RunFields) → IsSpelt d r bytes.now → IsAnswer result (Ok (d, r)) }
    // The summary that was encoded is one of the same bytes again.
    ensures reads { (xs : List ℕ) (f : Option ℕ) (d : ℕ) → IsRecord xs f d bytes.now → IfOk result (IsPortion xs f d) }
    ensures refuses { (xs : List ℕ) (f : Option ℕ) (d : ℕ) → IsRecord xs f d bytes.now → IfErr result IsMemory }
{
    answer(alloc, bytes)
}
