// A run file as a whole: its head, what it says of a run, and its digest.
ghost use Rattle.std.specs.Prelude.{◌≡◌, ◌≢◌, ◌≤◌, map, IfErr, IfOk};
ghost use Rattle.jx_portion.specs.Fields.{run_fields, structure_fields};
ghost use Rattle.jx_portion.specs.Reading.{body_at, depth_at, head_at, many_at, record_at, run_at, sealed_at, structure_at, structures_at, tag_at, Gives, IsSealed};
ghost use Rattle.jx_portion.specs.Spelling.{head};

use crate::fault::{DecodeFault, Field, RunFault};
use crate::forms::structure_of;
use crate::spelt::{Spelt, read_optional, read_several};
use jx_lex::Depth;
use jx_reduce::StructureParts;
use jx_run::Transition;
use sha2::{Digest, Sha256};
use std::alloc::Global;

/// How many bytes the head of a run file has.
pub const HEAD: usize = 24;

/// How many bytes the digest has.
pub(crate) const DIGEST: usize = 32;

/// How many structures a run may have.
const STRUCTURES: usize = 32;

/// The first eight bytes of a run file: 89, `jxrun`, a line feed and the version.
pub(crate) const TAG: usize = 0x896A_7872_756E_0A01;

/// The head of a run file: how many bytes the run file has, and how many containers the depth of its run allows.
#[derive(Clone, Copy, Debug, PartialEq, Eq)]
pub struct Head {
    pub size: usize,
    pub depth: u32,
}

/// The contents of a run file.
#[derive(Drop)]
pub(crate) struct RunParts {
    pub(crate) from: Option<usize>,
    pub(crate) end: usize,
    pub(crate) transitions: Vec<Transition>,
    pub(crate) structures: Vec<StructureParts>,
}

/// Reads that the bytes are a run file of this version.
#[tactic(auto, unfolding(crate::specs::Reading::tag_at))]
fn tag_of(bytes: &[u8]) -> Result<&[u8], DecodeFault>
    ensures reads { Gives (λ x. x.now) result (tag_at bytes.now) }
    ensures told { IfErr result (λ fault. fault ≢ DecodeFault.Memory) }
{
    if bytes.len() < 8 {
        return Err(DecodeFault::Fault(RunFault::NotARun));
    }
    let (tag, rest) = usize::read(bytes)?;
    if tag == TAG {
        Ok(rest)
    } else if tag / 256 == TAG / 256 {
        Err(DecodeFault::Fault(RunFault::OtherVersion))
    } else {
        Err(DecodeFault::Fault(RunFault::NotARun))
    }
}

/// Reads how many containers a depth allows.
#[tactic(auto, unfolding(crate::specs::Reading::depth_at))]
fn depth_of(bytes: &[u8]) -> Result<(u32, &[u8]), DecodeFault>
    ensures reads { Gives (λ x. (x.0, x.1.now)) result (depth_at bytes.now) }
    ensures low { IfOk result (λ x. x.0 ≤ 65535) }
    ensures told { IfErr result (λ fault. fault ≢ DecodeFault.Memory) }
{
    let (containers, rest) = usize::read(bytes)?;
    if containers > 65535 {
        return Err(DecodeFault::Fault(RunFault::Malformed(Field::Depth)));
    }
    Ok((containers as u32, rest))
}

/// The head of a run file, by its first bytes. They have to be `HEAD` bytes at least; the rest is not looked at.
#[tactic(auto, unfolding(crate::specs::Reading::head_at))]
pub fn head_of(bytes: &[u8]) -> Result<(Head, &[u8]), DecodeFault>
    ensures reads { Gives (λ x. (x.0, x.1.now)) result (head_at bytes.now) }
    ensures low { IfOk result (λ x. x.0.depth ≤ 65535) }
    ensures told { IfErr result (λ fault. fault ≢ DecodeFault.Memory) }
{
    let rest = tag_of(bytes)?;
    let (size, rest) = usize::read(rest)?;
    let (depth, rest) = depth_of(rest)?;
    Ok((Head { size, depth }, rest))
}

/// Reads up to the digest, which has to be that of all bytes of the run file before it.
#[tactic(auto, unfolding(crate::specs::Reading::sealed_at))]
fn sealed<'a>(bytes: &[u8], rest: &'a [u8]) -> Result<&'a [u8], DecodeFault>
    ensures reads { Gives (λ x. x.now) result (sealed_at bytes.now rest.now) }
    ensures told { IfErr result (λ fault. fault ≢ DecodeFault.Memory) }
{
    if bytes.len() < DIGEST || rest.len() < DIGEST {
        return Err(DecodeFault::Fault(RunFault::Malformed(Field::Size)));
    }
    let (message, digest) = bytes.split_at(bytes.len() - DIGEST);
    let wanted = Sha256::digest(message);
    if wanted.as_slice() == digest {
        let (body, _) = rest.split_at(rest.len() - DIGEST);
        Ok(body)
    } else {
        Err(DecodeFault::Fault(RunFault::Damaged))
    }
}

/// The depth that a run file names, and its bytes between the head and the digest.
#[tactic(auto, unfolding(crate::specs::Reading::body_at))]
pub(crate) fn body_of(bytes: &[u8]) -> Result<(u32, &[u8]), DecodeFault>
    ensures reads { Gives (λ x. (x.0, x.1.now)) result (body_at bytes.now) }
    ensures low { IfOk result (λ x. x.0 ≤ 65535) }
    ensures told { IfErr result (λ fault. fault ≢ DecodeFault.Memory) }
{
    let (head, rest) = head_of(bytes)?;
    if bytes.len() < head.size {
        return Err(DecodeFault::Fault(RunFault::CutShort));
    }
    if head.size < bytes.len() {
        return Err(DecodeFault::Fault(RunFault::Malformed(Field::Rest)));
    }
    let body = sealed(bytes, rest)?;
    Ok((head.depth, body))
}

/// Reads so many structures.
fn many_structures(
    alloc: Global,
    count: usize,
    bytes: &[u8],
) -> Result<(Vec<StructureParts>, &[u8]), DecodeFault>
    ensures { Gives (λ x. (map structure_fields x.0.items, x.1.now)) result (many_at structure_at count bytes.now) }
{
    let mut structures = Vec::new(alloc);
    let mut rest = bytes;
    for _ in 0..count {
        let (structure, after) = structure_of(alloc, rest)?;
        structures.push(structure)?;
        rest = after;
    }
    Ok((structures, rest))
}

/// Reads how many structures there are, and each of them. More than a run may have are not read: each takes a hundred times the
/// room of its two bytes.
#[tactic(auto, unfolding(crate::specs::Reading::structures_at))]
fn several_structures(
    alloc: Global,
    bytes: &[u8],
) -> Result<(Vec<StructureParts>, &[u8]), DecodeFault>
    ensures { Gives (λ x. (map structure_fields x.0.items, x.1.now)) result (structures_at bytes.now) }
{
    let (count, rest) = usize::read(bytes)?;
    if count > STRUCTURES {
        return Err(DecodeFault::Fault(RunFault::Malformed(Field::Parts)));
    }
    many_structures(alloc, count, rest)
}

/// Reads all that stands between the head and the digest.
#[tactic(auto, unfolding(crate::specs::Reading::run_at))]
fn run_of(alloc: Global, bytes: &[u8]) -> Result<RunParts, DecodeFault>
    ensures { Gives run_fields result (run_at bytes.now) }
{
    let (from, rest) = read_optional(bytes)?;
    let (end, rest) = usize::read(rest)?;
    let (transitions, rest) = read_several(alloc, rest)?;
    let (structures, rest) = several_structures(alloc, rest)?;
    if !rest.is_empty() {
        return Err(DecodeFault::Fault(RunFault::Malformed(Field::Rest)));
    }
    Ok(RunParts {
        from,
        end,
        transitions,
        structures,
    })
}

/// The contents of a run file: a depth, and the fields of a run.
#[tactic(auto, unfolding(crate::specs::Reading::record_at))]
pub(crate) fn record_of(alloc: Global, bytes: &[u8]) -> Result<(Depth, RunParts), DecodeFault>
    ensures reads { Gives (λ x. (x.0, run_fields x.1)) result (record_at bytes.now) }
    ensures sealed { IfErr result (λ fault. fault ≡ DecodeFault.Memory → IsSealed bytes.now) }
{
    let (containers, body) = body_of(bytes)?;
    let parts = run_of(alloc, body)?;
    match Depth::new(containers) {
        Some(depth) => Ok((depth, parts)),
        None => Err(DecodeFault::Fault(RunFault::Malformed(Field::Depth))),
    }
}
