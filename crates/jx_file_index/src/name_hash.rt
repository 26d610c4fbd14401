// The hash that is kept of a name.
ghost use Rattle.std.specs.Prelude.{◌≡◌, ◌<◌, ◌^◌, ◌++◌, ℕ, List, IfOk, OnOk};
ghost use Rattle.std.specs.Int.{w32, to_le_bytes};
ghost use Rattle.std.specs.List.{flat_map};
ghost use Rattle.jx_index.specs.declared.units.Spelling.TheVariants.{InText, InToken};
ghost use Rattle.jx_index.specs.Units.{chars_units};
ghost use Rattle.jx_string.specs.Texts.{string_units};
ghost use Rattle.jx_file_index.specs.NameHash.{name_hash};

use crate::digest::digest_of;
use crate::name_tables::HASHES;
use jx_string::{Units, between_marks, token_units};
use std::alloc::{AllocError, Global};

/// The hash of encoded units, four bytes each.
fn hash_of(spelt: &[u8]) -> u32
    ensures below { result < 2 ^ 26 }
    ensures value { (units : List ℕ) → spelt.now ≡ flat_map (to_le_bytes w32) units → result ≡ name_hash units }
{
    (digest_of(spelt) % u64::from(HASHES)) as u32
}

/// Appends the units of a string, by its bytes between the quotation marks, four bytes each.
fn add_units(spelt: &mut Vec<u8>, bytes: &[u8]) -> Result<(), AllocError>
    ensures { OnOk result (spelt.new.items ≡ spelt.old.items ++ flat_map (to_le_bytes w32) (chars_units InText 0 bytes.now)) }
{
    let mut left = Units::new(bytes);
    while let Some(unit) = left.next_unit() {
        spelt.extend_from_slice(&unit.to_le_bytes())?;
    }
    Ok(())
}

/// The hash of a name that is a string, by its bytes with the quotation marks. What `scratch` has is forgotten.
pub fn hash_of_string(scratch: &mut Vec<u8>, string: &[u8]) -> Result<u32, AllocError>
    ensures below { IfOk result (λ hash. hash < 2 ^ 26) }
    ensures value { IfOk result (λ hash. hash ≡ name_hash (string_units string.now)) }
{
    scratch.clear();
    add_units(scratch, between_marks(string))?;
    Ok(hash_of(scratch))
}

/// Units, four bytes each.
fn spelt_units(alloc: Global, units: &[u32]) -> Result<Vec<u8>, AllocError>
    ensures { IfOk result (λ spelt. spelt.items ≡ flat_map (to_le_bytes w32) units.now) }
{
    let mut spelt = Vec::new(alloc);
    for unit in units {
        spelt.extend_from_slice(&unit.to_le_bytes())?;
    }
    Ok(spelt)
}

/// The hash of the name that a pointer's token asks for.
pub fn hash_of_token(alloc: Global, token: &[u8]) -> Result<u32, AllocError>
    ensures below { IfOk result (λ hash. hash < 2 ^ 26) }
    ensures value { IfOk result (λ hash. hash ≡ name_hash (chars_units InToken 0 token.now)) }
{
    let units = token_units(alloc, token)?;
    let spelt = spelt_units(alloc, &units)?;
    Ok(hash_of(&spelt))
}
