// The structures of a run in a run file.
ghost use Rattle.std.specs.Prelude.{◌≡◌, ◌++◌, OnOk};
ghost use Rattle.jx_portion.specs.Fields.{form_fields, form_seen, rest_fields, rest_seen, structure_fields, structure_seen};
ghost use Rattle.jx_portion.specs.Reading.{form_at, rest_at, structure_at, Gives};
ghost use Rattle.jx_portion.specs.Spelling.{form, rest, structure, FormFits, RestFits, StructureFits};

use crate::choices::flag_of;
use crate::fault::DecodeFault;
use crate::spelt::{Spelt, put_optional, put_several, read_optional, read_several};
use jx_lex::Mark;
use jx_reduce::{FormParts, FormRef, Level, RestParts, RestRef, StructureParts, StructureRef};
use std::alloc::{AllocError, Global};

/// Puts a form after these bytes.
pub(crate) fn put_form(parts: FormRef<'_>, out: &mut Vec<u8>) -> Result<(), AllocError>
    ensures fits { OnOk result (FormFits (form_seen parts.entry)) }
    ensures put { OnOk result (out.new.items ≡ out.old.items ++ form (form_seen parts.entry)) }
{
    put_several(parts.ended, out)?;
    parts.last.put(out)?;
    put_several(parts.opens, out)?;
    put_optional(parts.exit, out)?;
    put_several(parts.heights, out)
}

fn put_rest(parts: RestRef<'_>, out: &mut Vec<u8>) -> Result<(), AllocError>
    ensures fits { OnOk result (RestFits (rest_seen parts.entry)) }
    ensures put { OnOk result (out.new.items ≡ out.old.items ++ rest (rest_seen parts.entry)) }
{
    parts.mark.put(out)?;
    put_form(parts.tail, out)
}

/// Puts a structure after these bytes.
pub(crate) fn put_structure(parts: StructureRef<'_>, out: &mut Vec<u8>) -> Result<(), AllocError>
    ensures fits { OnOk result (StructureFits (structure_seen parts.entry)) }
    ensures put { OnOk result (out.new.items ≡ out.old.items ++ structure (structure_seen parts.entry)) }
{
    put_optional(parts.string, out)?;
    match parts.rest {
        None => {
            out.push(0)?;
            Ok(())
        }
        Some(rest) => {
            out.push(1)?;
            put_rest(rest, out)
        }
    }
}

/// Reads a form.
#[tactic(auto, unfolding(crate::specs::Reading::form_at))]
pub(crate) fn form_of(alloc: Global, bytes: &[u8]) -> Result<(FormParts, &[u8]), DecodeFault>
    ensures { Gives (λ x. (form_fields x.0, x.1.now)) result (form_at bytes.now) }
{
    let (ended, rest) = read_several(alloc, bytes)?;
    let (last, rest) = Level::read(rest)?;
    let (opens, rest) = read_several(alloc, rest)?;
    let (exit, rest) = read_optional(rest)?;
    let (heights, rest) = read_several(alloc, rest)?;
    let form = FormParts {
        ended,
        last,
        opens,
        exit,
        heights,
    };
    Ok((form, rest))
}

#[tactic(auto, unfolding(crate::specs::Reading::rest_at))]
fn rest_of(alloc: Global, bytes: &[u8]) -> Result<(RestParts, &[u8]), DecodeFault>
    ensures { Gives (λ x. (rest_fields x.0, x.1.now)) result (rest_at bytes.now) }
{
    let (mark, rest) = Mark::read(bytes)?;
    let (tail, rest) = form_of(alloc, rest)?;
    Ok((RestParts { mark, tail }, rest))
}

/// Reads a structure.
#[tactic(auto, unfolding(crate::specs::Reading::structure_at, crate::specs::Reading::optional_at))]
pub(crate) fn structure_of(
    alloc: Global,
    bytes: &[u8],
) -> Result<(StructureParts, &[u8]), DecodeFault>
    ensures { Gives (λ x. (structure_fields x.0, x.1.now)) result (structure_at bytes.now) }
{
    let (string, rest) = read_optional(bytes)?;
    let (is_there, rest) = flag_of(rest)?;
    if !is_there {
        return Ok((StructureParts { string, rest: None }, rest));
    }
    let (behind, rest) = rest_of(alloc, rest)?;
    let parts = StructureParts {
        string,
        rest: Some(behind),
    };
    Ok((parts, rest))
}
