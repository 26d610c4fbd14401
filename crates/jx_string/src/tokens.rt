// The units of a pointer's token (RFC 6901, section 3), and of a string against them.
ghost use Rattle.std.specs.Prelude.{◌≡◌, ◌++◌, IfOk, OnOk, option_to_list};
ghost use Rattle.std.specs.Ordering.{nat_cmp, is_eq};
ghost use Rattle.std.specs.Cmp.Lexicographic.{slice_cmp};
ghost use Rattle.jx_index.specs.declared.units.Spelling.TheVariants.{InToken};
ghost use Rattle.jx_index.specs.Units.{chars_units};
ghost use Rattle.jx_string.specs.Texts.{string_units};

use crate::characters::between_marks;
use crate::spelt::{behind, token_spelt_at};
use crate::units::Units;
use std::alloc::{AllocError, Global};

/// Appends a unit, if there is one.
fn push_some(units: &mut Vec<u32>, unit: Option<u32>) -> Result<(), AllocError>
    ensures { OnOk result (units.new.items ≡ units.old.items ++ option_to_list unit) }
{
    if let Some(unit) = unit {
        units.push(unit)?;
    }
    Ok(())
}

/// The UTF-16 code units that a token of a pointer encodes (RFC 6901, section 4), by its bytes: `~0` stands for `~`,
/// and `~1` for a slash. `Err` when out of memory.
pub fn token_units(alloc: Global, token: &[u8]) -> Result<Vec<u32>, AllocError>
    ensures { IfOk result (λ units. units.items ≡ chars_units InToken 0 token.now) }
{
    let mut units = Vec::new(alloc);
    let mut left = token;
    while !left.is_empty() {
        let first = left[0];
        let rest = &left[1..];
        let spelt = token_spelt_at(first, rest);
        units.push(spelt.first)?;
        push_some(&mut units, spelt.second)?;
        left = behind(rest, spelt.more);
    }
    Ok(units)
}

/// Whether a string, by its bytes with the quotation marks, stands for these UTF-16 code units (RFC 8259, section 8.3). No
/// memory is taken.
pub fn has_units(string: &[u8], units: &[u32]) -> bool
    ensures { result ≡ is_eq (slice_cmp nat_cmp (string_units string.now) units.now) }
{
    let mut left = Units::new(between_marks(string));
    let mut right = units;
    loop {
        let Some(one) = left.next_unit() else {
            return right.is_empty();
        };
        if right.is_empty() {
            return false;
        }
        if one != right[0] {
            return false;
        }
        right = &right[1..];
    }
}
