ghost use Rattle.std.specs.Prelude.{◌≡◌, ◌∷◌, ◌<◌, [], true, MatchOption};
ghost use Rattle.std.specs.Char.Utf16.{is_high_surrogate, is_low_surrogate, lone_unit_char, surrogate_pair_char, utf16_chars};
ghost use Rattle.jx_index.specs.Units.{between_marks};
ghost use Rattle.jx_string.specs.CharactersLeft.{characters_left};
ghost use Rattle.jx_string.specs.Texts.{string_units};
ghost use Rattle.jx_string.specs.inside.UnitsLeft.{units_left};

use crate::units::Units;

/// The characters that a string stands for (RFC 8259, section 7), one by one.
#[derive(Clone, Copy, Debug)]
pub struct Characters<'a> {
    units: Units<'a>,
}

/// The bytes of a string between its quotation marks.
pub fn between_marks(string: &[u8]) -> &[u8]
    ensures { result.now ≡ between_marks string.now }
{
    match string {
        [_, chars @ .., _] => chars,
        _ => &[],
    }
}

/// Whether a unit is the first half of a surrogate pair.
fn is_first_half(unit: u32) -> bool
    ensures { result ≡ is_high_surrogate unit }
{
    0xd800 <= unit && unit < 0xdc00
}

/// Whether a unit is the second half of a surrogate pair.
fn is_second_half(unit: u32) -> bool
    ensures { result ≡ is_low_surrogate unit }
{
    0xdc00 <= unit && unit < 0xe000
}

/// The character of a unit that is in no pair; none where it is half of one.
fn alone(unit: u32) -> Option<char>
    requires { unit < 0x11_0000 }
    ensures { result ≡ lone_unit_char unit }
{
    char::from_u32(unit)
}

/// The character of a surrogate pair.
fn of_pair(first: u32, second: u32) -> Option<char>
    requires first { is_high_surrogate first ≡ true }
    requires second { is_low_surrogate second ≡ true }
    ensures { result ≡ Some (surrogate_pair_char first second) }
{
    char::from_u32(0x1_0000 + (first - 0xd800) * 0x400 + (second - 0xdc00))
}

/// The next character of units that are to come; none where half of a surrogate pair stands without the other half.
fn next_of(units: &mut Units<'_>) -> Option<Option<char>>
    ensures { MatchOption result (utf16_chars (units_left units.old) ≡ []) (λ character. utf16_chars (units_left units.old) ≡ character ∷ utf16_chars (units_left units.new)) }
{
    let first = units.next_unit()?;
    if !is_first_half(first) {
        return Some(alone(first));
    }
    let mut ahead = *units;
    let Some(second) = ahead.next_unit() else {
        return Some(None);
    };
    if !is_second_half(second) {
        return Some(None);
    }
    *units = ahead;
    Some(of_pair(first, second))
}

impl<'a> Characters<'a> {
    /// The characters of a string, by its bytes with the quotation marks.
    pub fn of_string(string: &'a [u8]) -> Characters<'a>
        ensures { characters_left result ≡ utf16_chars (string_units string.now) }
    {
        Characters {
            units: Units::new(between_marks(string)),
        }
    }

    /// The next character, as `Some(Some(_))`; `Some(None)` where half of a surrogate pair stands without the other
    /// half; and `None` after the last one.
    pub fn next_character(&mut self) -> Option<Option<char>>
        ensures { MatchOption result (characters_left self.old ≡ []) (λ character. characters_left self.old ≡ character ∷ characters_left self.new) }
    {
        next_of(&mut self.units)
    }
}
