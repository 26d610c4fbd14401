ghost use Rattle.std.specs.Prelude.{◌≡◌, is_some, ◌&&◌};
ghost use Rattle.jx_reduce.specs.Form.{end_fault_of, level_of};
ghost use Rattle.jx_reduce.specs.Join.{filled_end};

use crate::forms::level::Level;
use crate::table::holder::Holder;

/// The first fault of each holder in a level that has ended. No close is allowed where no container is open, so the
/// bottom always has one.
#[derive(Clone, Copy, Debug, PartialEq, Eq)]
pub struct EndedLevel {
    pub array: Option<usize>,
    pub object: Option<usize>,
    pub bottom: usize,
}

impl EndedLevel {
    /// The first fault of this holder, if it has one.
    pub(crate) fn fault(self, holder: Holder) -> Option<usize>
        ensures { result ≡ end_fault_of self holder }
    {
        match holder {
            Holder::Array => self.array,
            Holder::Object => self.object,
            Holder::Bottom => Some(self.bottom),
        }
    }

    /// Whether no holder gets past this level.
    pub(crate) fn is_all(self) -> bool
        ensures { result ≡ (is_some self.array && is_some self.object) }
    {
        self.array.is_some() && self.object.is_some()
    }

    /// The level with these faults, which may have ended or not.
    pub(crate) fn level(self) -> Level
        ensures { result ≡ level_of self }
    {
        Level {
            array: self.array,
            object: self.object,
            bottom: Some(self.bottom),
        }
    }

    /// The level that no holder gets past, with the end's offset as the fault of those that met none before.
    pub(crate) fn filled(self) -> Level
        ensures { result ≡ filled_end self }
    {
        Level {
            array: Some(self.array.unwrap_or(self.bottom)),
            object: Some(self.object.unwrap_or(self.bottom)),
            bottom: Some(self.bottom),
        }
    }
}
