ghost use Rattle.std.specs.Prelude.{◌≡◌, ℕ, List};
ghost use Rattle.jx_lex.specs.Token.{IsString};
ghost use Rattle.jx_string.specs.Texts.{string_units};

use jx_index::strings_pointers_and_rows;

/// The units that are read off the bytes of a string are those that RFC 8259, section 7, gives it.
pub fn units_of_strings()
    ensures { (string units : List ℕ) → IsString string units → string_units string ≡ units }
{
    strings_pointers_and_rows();
}
