// Whether parts of forms are such that a structure may have them.
ghost use Rattle.std.specs.Prelude.{◌≡◌, ◌<◌, ◌^◌, ◌↔◌, IsTrue, length};
ghost use Rattle.std.specs.List.{list_all};
ghost use Rattle.jx_reduce.specs.Fits.{Fits, GoesOn};
ghost use Rattle.jx_reduce.specs.Levels.{form_of};
ghost use Rattle.jx_reduce.specs.Offsets.{OffsetsIn};
ghost use Rattle.jx_reduce.specs.inside.Checked.{is_decided, is_end_in, is_fault_in, is_form_in, is_in, is_level_in, is_small, IsIn};

use crate::forms::ended_level::EndedLevel;
use crate::forms::level::Level;
use crate::forms::levels::Levels;

/// Which offsets there may be.
#[derive(Clone, Copy)]
pub(crate) enum Bound {
    Above(usize),
    Below(usize),
}

impl Bound {
    /// Whether this offset may be.
    pub fn has(self, at: usize) -> bool
        ensures { result ≡ is_in self at }
    {
        match self {
            Bound::Above(low) => low < at,
            Bound::Below(high) => at < high,
        }
    }

    /// Whether the offset may be, if there is one.
    pub fn has_fault(self, fault: Option<usize>) -> bool
        ensures { result ≡ is_fault_in self fault }
    {
        match fault {
            Some(at) => self.has(at),
            None => true,
        }
    }

    /// Whether the faults of each holder may be.
    fn has_level(self, level: Level) -> bool
        ensures { result ≡ is_level_in self level }
    {
        self.has_fault(level.array) && self.has_fault(level.object) && self.has_fault(level.bottom)
    }

    /// Whether the faults of each level may be.
    fn has_levels(self, levels: &[EndedLevel]) -> bool
        ensures { result ≡ list_all (is_end_in self) levels.now }
    {
        levels.iter().all(|level| self.has_level(level.level()))
    }

    /// Whether each offset may be.
    fn has_all(self, offsets: &[usize]) -> bool
        ensures { result ≡ list_all (is_in self) offsets.now }
    {
        offsets.iter().all(|at| self.has(*at))
    }
}

/// Whether a depth allows so many ended levels, open containers and heights.
fn is_small(depth: usize, ended: usize, opens: usize, heights: usize) -> bool
    requires { depth < 2 ^ 32 }
    ensures { result ≡ is_small depth ended opens heights }
{
    ended <= depth && opens <= depth && heights <= depth + 1 && opens <= ended + heights
}

impl Levels {
    /// Whether each offset that is kept may be.
    fn has_offsets(&self, bound: Bound) -> bool
        ensures { result ≡ is_form_in bound (form_of self.now) }
    {
        bound.has_levels(&self.ended) && bound.has_level(self.last) && bound.has_all(&self.heights)
    }

    /// Whether each offset that is kept may be.
    pub(crate) fn lie_in(&self, bound: Bound) -> bool
        ensures { IsTrue result ↔ OffsetsIn (IsIn bound) (form_of self.now) }
    {
        self.has_offsets(bound)
    }

    /// Whether the exit is there just where some holder goes on, unless the heights decide.
    fn is_decided(&self, depth: usize) -> bool
        requires levels { length self.now.ended.items < 2 ^ 33 }
        requires heights { length self.now.heights.items < 2 ^ 33 }
        ensures { result ≡ is_decided depth (form_of self.now) }
    {
        if self.exit.is_some() {
            !self.last.is_all()
        } else {
            self.last.is_all() || depth < self.ended.len() + self.heights.len()
        }
    }

    /// Whether a depth allows the form, and it goes on for some holder where it has an exit.
    pub(crate) fn fit(&self, depth: usize) -> bool
        requires { depth < 2 ^ 32 }
        ensures { IsTrue result ↔ Fits depth (form_of self.now) × GoesOn (form_of self.now) }
    {
        let (ended, opens, heights) = (self.ended.len(), self.opens.len(), self.heights.len());
        is_small(depth, ended, opens, heights) && self.is_decided(depth)
    }
}
