// Where the first byte of a block stands.
ghost use Rattle.std.specs.Prelude.{◌≡◌, IfSome};
ghost use Rattle.jx_each.specs.inside.Blocks.{placed};

use jx_compact::Place;

/// Whether a byte stands in a string, unless a backslash escapes it.
#[inline(always)]
pub(crate) fn inside_of(place: Place) -> Option<bool>
    ensures { IfSome result (λ inside. place ≡ placed inside) }
{
    match place {
        Place::Between => Some(false),
        Place::Inside => Some(true),
        Place::Escaped => None,
    }
}

/// The place in a string, or between tokens.
#[inline(always)]
pub(crate) fn place_of(inside: bool) -> Place
    ensures { result ≡ placed inside }
{
    if inside {
        Place::Inside
    } else {
        Place::Between
    }
}
