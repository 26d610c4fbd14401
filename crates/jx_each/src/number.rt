// Which element of an array a token names (RFC 6901, section 4).
ghost use Rattle.std.specs.Prelude.{◌≡◌, ◌==◌};
ghost use Rattle.jx_index.specs.ArrayTokens.{all_digits, is_digit, is_index, value_after};
ghost use Rattle.jx_each.specs.Due.{is_number};

fn is_digit(unit: u32) -> bool
    ensures { result ≡ is_digit unit }
{
    0x30 <= unit && unit <= 0x39
}

fn all_digits(units: &[u32]) -> bool
    ensures { result ≡ all_digits units.now }
{
    for unit in units {
        if !is_digit(*unit) {
            return false;
        }
    }
    true
}

/// Whether units are 0, or digits without a leading 0.
fn is_index(units: &[u32]) -> bool
    ensures { result ≡ is_index units.now }
{
    if units.is_empty() {
        return false;
    }
    if !is_digit(units[0]) {
        return false;
    }
    if units.len() == 1 {
        return true;
    }
    units[0] != 0x30 && all_digits(&units[1..])
}

/// Whether the number that digits encode is this one.
fn has_value(units: &[u32], number: usize) -> bool
    ensures { result ≡ (value_after 0 units.now == number) }
{
    let number = number as u128;
    let mut value: u128 = 0;
    for unit in units {
        if value > number {
            return false;
        }
        value = value * 10 + (*unit).saturating_sub(0x30) as u128;
    }
    value == number
}

/// Whether a token with these units names the element after so many others.
pub(crate) fn is_number(units: &[u32], count: usize) -> bool
    ensures { result ≡ is_number units.now count }
{
    is_index(units) && has_value(units, count)
}
