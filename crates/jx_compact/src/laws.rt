ghost use Rattle.std.specs.Prelude.{◌≡◌, ◌++◌, ℕ, List, All};
ghost use Rattle.jx_compact.specs.declared.place.Place.{Place};
ghost use Rattle.jx_compact.specs.declared.place.Place.TheVariants.{Between};
ghost use Rattle.jx_compact.specs.Compact.{compact, compact_from, place_behind, HasPlainStrings, IsNoControl};

/// Compact bytes stay as they are.
pub fn compact_idempotence()
    ensures { (bytes : List ℕ) → compact (compact bytes) ≡ compact bytes }
{}

/// The compact form of bytes, and of those after them, is the compact form of both, wherever the cut falls.
pub fn compact_of_two_parts()
    ensures { (place : Place) (front back : List ℕ) → compact_from place (front ++ back) ≡ compact_from place front ++ compact_from (place_behind place front) back }
{}

/// The compact form has no tab, line feed or carriage return, unless a string has one. A JSON string has none raw (RFC
/// 8259, section 7).
pub fn compact_without_line_ends()
    ensures { (bytes : List ℕ) → HasPlainStrings Between bytes → All IsNoControl (compact bytes) }
{}
