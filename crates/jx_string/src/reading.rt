// The UTF-16 code units of a string, one by one.
ghost use Rattle.std.specs.Prelude.{◌≡◌, ◌<◌, ◌∷◌, [], IfSome, MatchOption};
ghost use Rattle.jx_index.specs.declared.units.Spelling.TheVariants.{InText};
ghost use Rattle.jx_index.specs.Units.{chars_units};
ghost use Rattle.jx_string.specs.inside.UnitsLeft.{units_left};

use crate::spelt::{behind, spelt_at};
use crate::units::Units;

impl<'a> Units<'a> {
    /// The units that the bytes between the quotation marks of a string encode, from the first one on.
    pub fn new(chars: &'a [u8]) -> Units<'a>
        ensures { units_left result ≡ chars_units InText 0 chars.now }
    {
        Units {
            rest: chars,
            pending: None,
        }
    }

    /// The next unit; none where no unit is left.
    pub fn next_unit(&mut self) -> Option<u32>
        ensures unit { MatchOption result (units_left self.old ≡ []) (λ unit. units_left self.old ≡ unit ∷ units_left self.new) }
        ensures small { IfSome result (λ unit. unit < 0x11_0000) }
    {
        if let Some(unit) = self.pending {
            self.pending = None;
            return Some(unit);
        }
        if self.rest.is_empty() {
            return None;
        }
        let first = self.rest[0];
        let rest = &self.rest[1..];
        let spelt = spelt_at(first, rest);
        self.rest = behind(rest, spelt.more);
        self.pending = spelt.second;
        Some(spelt.first)
    }
}
