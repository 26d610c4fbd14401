// A chunk that need not be read.
ghost use Rattle.std.specs.Prelude.{◌≡◌, true, IfSome};
ghost use Rattle.jx_file_query.specs.Cuts.{cuts_of};
ghost use Rattle.jx_file_query.specs.inside.PassedChunks.{AllInPart, IsPassed};

use crate::cutting::{Aim, Parting};
use jx_file_index::Sum;
use jx_lex::Span;

/// Whether all of a part that has a byte stands in the part that is open.
fn is_in_part(aim: Aim, number: usize, span: Span) -> bool
    ensures { result ≡ true → AllInPart aim number span }
{
    if span.start >= span.end {
        return false;
    }
    match (aim.part_of(span.start), aim.part_of(span.end - 1)) {
        (Some(first), Some(last)) => first == number && last == number,
        _ => false,
    }
}

/// The sum after a chunk whose token starts have a sum, where no part begins or ends in it. That is so where all of its
/// token starts stand in children that it does not end, or where it does not end the container and stands in the open
/// part.
pub(crate) fn pass(held: &Parting, aim: Aim, span: Span, sum: Sum) -> Option<Sum>
    ensures { IfSome result (IsPassed aim span sum (cuts_of held.now)) }
{
    if !held.some || held.sum.closed != 0 || span.start <= aim.whole.start {
        return None;
    }
    if sum.closed > held.sum.opened {
        return None;
    }
    if sum.closed == held.sum.opened && !is_in_part(aim, held.number, span) {
        return None;
    }
    held.sum.join(sum)
}
