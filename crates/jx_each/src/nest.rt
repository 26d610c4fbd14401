// The open containers in an array whose elements are written.
ghost use Rattle.std.specs.Prelude.{◌≡◌, ◌+◌, ◌<◌, ◌≤◌, ◌^◌, [], ◌∷◌, IfSome, IsNone, IsTrue, drop, false, get_or, length, take, true};
ghost use Rattle.jx_compact.specs.Compact.{is_kept, next};
ghost use Rattle.jx_compact.specs.declared.place.Place.TheVariants.{Between};
ghost use Rattle.jx_each.specs.Turns.{sign_of, turn_by};
ghost use Rattle.jx_each.specs.inside.Stretches.{IsLed};

use crate::sign::Turn;
use crate::stand::height_next;
use jx_compact::Place;

/// Where the element that is open begins among what was made, and how many containers are open.
#[derive(Clone, Copy, Debug)]
pub struct Nest {
    pub begin: usize,
    pub height: usize,
}

/// Whether a byte turns nothing in an array, where so many containers are open.
#[inline(always)]
fn is_within(height: usize, byte: u8) -> bool
    requires { 1 ≤ height }
    ensures turn { IsTrue result → turn_by height (sign_of byte) ≡ Turn.Stay }
    ensures near { result ≡ false → height ≡ 1 }
{
    height > 1 || byte == b'[' || byte == b'{'
}

/// Takes in a byte that is a bracket, a comma or a colon outside of strings, and stands at an offset among
/// what was made: a comma after an element becomes a line feed. None where the array ends or where no element is before
/// the byte.
#[inline(always)]
pub(crate) fn pass_stop(made: &mut [u8], at: usize, byte: u8, nest: Nest) -> Option<Nest>
    requires within { at < length made.old }
    requires byte { get_or made.old at 0 ≡ byte }
    requires begin { nest.begin ≤ at }
    requires high { 1 ≤ nest.height }
    requires fits { nest.height + 1 < 2 ^ 64 }
    requires outside { (next Between byte ≡ Between) × (is_kept Between byte ≡ true) }
    ensures length { length made.new ≡ length made.old }
    ensures rest { drop (at + 1) made.new ≡ drop (at + 1) made.old }
    ensures none { IsNone result → made.new ≡ made.old }
    ensures begin { IfSome result (λ next. next.begin ≤ at + 1) }
    ensures high { IfSome result (λ next. (1 ≤ next.height) × (next.height ≤ nest.height + 1)) }
    ensures led { IfSome result (λ next. IsLed Between nest (take at made.old) (byte ∷ []) Between next (take (at + 1) made.new)) }
{
    if is_within(nest.height, byte) {
        return Some(Nest {
            begin: nest.begin,
            height: height_next(Place::Between, nest.height, byte),
        });
    }
    if byte == b',' && nest.begin < at {
        made[at] = b'\n';
        return Some(Nest {
            begin: at + 1,
            height: nest.height,
        });
    }
    None
}
