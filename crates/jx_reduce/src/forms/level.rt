ghost use Rattle.std.specs.Prelude.{◌≡◌};
ghost use Rattle.jx_reduce.specs.Form.{fault_of};
ghost use Rattle.jx_reduce.specs.Join.{all_faulted, merged, filled, closed, first_of};
ghost use Rattle.jx_reduce.specs.inside.Quiet.{unfaulted};

use crate::forms::ended_level::EndedLevel;
use crate::forms::quiet::{ARRAY, BOTTOM, OBJECT};
use crate::table::holder::Holder;

/// The tokens directly in one container that was open at entry, or in none. Holds the offset of the first fault, if
/// any, for each holder that the container may be.
#[derive(Clone, Copy, Debug, PartialEq, Eq)]
pub struct Level {
    pub array: Option<usize>,
    pub object: Option<usize>,
    pub bottom: Option<usize>,
}

impl Level {
    pub(crate) const NONE: Level = Level {
        array: None,
        object: None,
        bottom: None,
    };

    /// The offset of the first fault for this holder.
    pub fn fault(self, holder: Holder) -> Option<usize>
        ensures { result ≡ fault_of self holder }
    {
        match holder {
            Holder::Array => self.array,
            Holder::Object => self.object,
            Holder::Bottom => self.bottom,
        }
    }

    /// Whether each holder has faulted.
    pub(crate) fn is_all(self) -> bool
        ensures { result ≡ all_faulted self }
    {
        self.array.is_some() && self.object.is_some() && self.bottom.is_some()
    }

    /// The holders that have not faulted.
    pub(crate) fn unfaulted(self) -> u8
        ensures { result ≡ unfaulted self }
    {
        let array = if self.array.is_none() { ARRAY } else { 0 };
        let object = if self.object.is_none() { OBJECT } else { 0 };
        let bottom = if self.bottom.is_none() { BOTTOM } else { 0 };
        array + object + bottom
    }

    /// These faults, and the later ones for holders that have none here.
    pub(crate) fn merged(self, later: Level) -> Level
        ensures { result ≡ merged self later }
    {
        Level {
            array: first(self.array, later.array),
            object: first(self.object, later.object),
            bottom: first(self.bottom, later.bottom),
        }
    }

    /// These faults, and this one for holders that have none.
    pub(crate) fn filled(self, at: usize) -> Level
        ensures { result ≡ filled self at }
    {
        Level {
            array: Some(self.array.unwrap_or(at)),
            object: Some(self.object.unwrap_or(at)),
            bottom: Some(self.bottom.unwrap_or(at)),
        }
    }

    /// The level where it ends: these faults, and those of its end for holders that have none here.
    pub(crate) fn closed(self, end: EndedLevel) -> EndedLevel
        ensures { result ≡ closed self end }
    {
        EndedLevel {
            array: first(self.array, end.array),
            object: first(self.object, end.object),
            bottom: self.bottom.unwrap_or(end.bottom),
        }
    }
}

/// `a`, or `b` where there is no `a`.
fn first(a: Option<usize>, b: Option<usize>) -> Option<usize>
    ensures { result ≡ first_of a b }
{
    match a {
        Some(at) => Some(at),
        None => b,
    }
}
