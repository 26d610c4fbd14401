// Numbers in decimal digits.
ghost use Rattle.std.specs.Prelude.{◌≡◌};
ghost use Rattle.jx_wire.specs.Numbers.{number_of};

/// Greater numbers are read as this one.
const GREATEST: usize = 4_294_967_296;

/// The number of these decimal digits, or 2 to the 32 where it is greater; none where the bytes are no such digits.
pub fn number_of(digits: &[u8]) -> Option<usize>
    ensures { result ≡ number_of digits.now }
{
    if digits.is_empty() {
        return None;
    }
    let mut number = 0;
    for digit in digits {
        if !digit.is_ascii_digit() {
            return None;
        }
        number = (number * 10 + usize::from(*digit - b'0')).min(GREATEST);
    }
    Some(number)
}
