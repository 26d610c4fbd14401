// Partial results as run files.
ghost use Rattle.std.specs.Prelude.{◌≡◌, ◌+◌, ◌≤◌, ◌<◌, ◌^◌, ◌++◌, ℕ, List, Option, length, IfOk, OnOk};
ghost use Rattle.std.specs.List.{flat_map, AllByRecursion};
ghost use Rattle.jx_run.specs.OutcomeRun.{IsWellFormed};
ghost use Rattle.jx_portion.specs.Portion.{IsPortion, IsRecord};
ghost use Rattle.jx_portion.specs.inside.Said.{run_said, structure_said, IsSaid};
ghost use Rattle.jx_portion.specs.Spelling.{head, number, run, sealed, RunFits};

use crate::forms::put_structure;
use crate::portion::Portion;
use crate::record::{DIGEST, HEAD, TAG};
use crate::spelt::{Spelt, put_optional, put_several};
use jx_lex::Depth;
use jx_reduce::Structure;
use jx_run::OutcomeRun;
use jx_summary::Summary;
use sha2::{Digest, Sha256};
use std::alloc::{AllocError, Global};

/// Puts a structure after these bytes.
fn put_one(structure: &Structure, out: &mut Vec<u8>) -> Result<(), AllocError>
    ensures said { OnOk result (IsSaid structure.now) }
    ensures put { OnOk result (out.new.items ≡ out.old.items ++ structure_said structure.now) }
{
    put_structure(structure.parts(), out)?;
    Ok(())
}

/// Puts how many structures there are, and each of them, after these bytes.
fn put_structures(structures: &[Structure], out: &mut Vec<u8>) -> Result<(), AllocError>
    ensures few { length structures.now < 2 ^ 64 }
    ensures said { OnOk result (AllByRecursion IsSaid structures.now) }
    ensures put { OnOk result (out.new.items ≡ out.old.items ++ (number (length structures.now) ++ flat_map structure_said structures.now)) }
{
    structures.len().put(out)?;
    for structure in structures {
        put_one(structure, out)?;
    }
    Ok(())
}

/// All that stands between the head and the digest.
fn body_of(alloc: Global, from: Option<usize>, whole: &OutcomeRun) -> Result<Vec<u8>, AllocError>
    ensures fits { IfOk result (λ _. RunFits (run_said from whole.now)) }
    ensures said { IfOk result (λ _. AllByRecursion IsSaid whole.now.structures) }
    ensures kept { IfOk result (λ _. IsWellFormed whole.now) }
    ensures put { IfOk result (λ b. b.items ≡ run (run_said from whole.now)) }
{
    let mut body = Vec::new(alloc);
    put_optional(from, &mut body)?;
    whole.span().end.put(&mut body)?;
    put_several(whole.transitions(), &mut body)?;
    put_structures(whole.structures(), &mut body)?;
    Ok(body)
}

/// The run file of this depth that has these bytes between its head and its digest.
fn sealed_of(alloc: Global, depth: Depth, body: &[u8]) -> Result<Vec<u8>, AllocError>
    ensures low { depth ≤ 65535 }
    ensures size { 56 + length body.now < 2 ^ 64 }
    ensures sealed { IfOk result (λ r. r.items ≡ sealed (head (56 + length body.now) depth ++ body.now)) }
{
    let mut bytes = Vec::new(alloc);
    TAG.put(&mut bytes)?;
    (HEAD + DIGEST + body.len()).put(&mut bytes)?;
    (depth.containers() as usize).put(&mut bytes)?;
    bytes.extend_from_slice(body)?;
    let digest = Sha256::digest(bytes.as_slice());
    bytes.extend_from_slice(&digest)?;
    Ok(bytes)
}

impl Portion {
    /// The run file. It fails only when out of memory.
    pub fn encode(&self, alloc: Global) -> Result<Vec<u8>, AllocError>
        ensures { IfOk result (λ r. (bytes : List ℕ) (f : Option ℕ) (d : ℕ) → IsPortion bytes f d self.now → IsRecord bytes f d r.items) }
    {
        let whole = self.run.trimmed()?;
        let body = body_of(alloc, self.from, &whole)?;
        sealed_of(alloc, whole.depth(), &body)
    }
}
