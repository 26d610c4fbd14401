use crate::forms::ended_level::EndedLevel;
use crate::forms::entry::Entry;
use crate::forms::level::Level;
use crate::table::holder::Holder;

/// The parts of a reduced form, borrowed: the levels that end and the last one, what is open above it, outermost first, and
/// the exit. Also the offsets at which one container more than ever was open.
#[derive(Clone, Copy)]
pub struct FormRef<'a> {
    pub ended: &'a [EndedLevel],
    pub last: Level,
    pub opens: &'a [Holder],
    pub exit: Option<Entry>,
    pub heights: &'a [usize],
}
