// Offsets that grow by a distance, where they fit a word.
ghost use Rattle.std.specs.Prelude.{◌≡◌, ℕ, map};
ghost use Rattle.jx_reduce.specs.inside.Shifted.{shifted_end, shifted_fault, shifted_level, shifted_offset};

use crate::forms::ended_level::EndedLevel;
use crate::forms::level::Level;

/// A value with offsets, which may be moved further on.
pub(crate) trait Shift: Copy {
    ghost shift: { ℕ → Self → Self };

    /// The value so many bytes further on.
    fn shifted(self, by: usize) -> Self
        ensures { result ≡ shift by self };
}

impl Shift for usize {
    ghost shift = { shifted_offset };

    fn shifted(self, by: usize) -> usize {
        by.saturating_add(self)
    }
}

impl Shift for Option<usize> {
    ghost shift = { shifted_fault };

    fn shifted(self, by: usize) -> Option<usize> {
        match self {
            Some(at) => Some(at.shifted(by)),
            None => None,
        }
    }
}

impl Shift for Level {
    ghost shift = { shifted_level };

    fn shifted(self, by: usize) -> Level {
        Level {
            array: self.array.shifted(by),
            object: self.object.shifted(by),
            bottom: self.bottom.shifted(by),
        }
    }
}

impl Shift for EndedLevel {
    ghost shift = { shifted_end };

    fn shifted(self, by: usize) -> EndedLevel {
        EndedLevel {
            array: self.array.shifted(by),
            object: self.object.shifted(by),
            bottom: self.bottom.shifted(by),
        }
    }
}

/// Moves each item of the list so many bytes further on.
pub(crate) fn shift_all<T: Shift>(list: &mut [T], by: usize)
    ensures { list.new ≡ map (T.shift by) list.old }
{
    for at in 0..list.len() {
        list[at] = list[at].shifted(by);
    }
}
