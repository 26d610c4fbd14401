// The index of a text that C keeps for as long as a handle holds it.
ghost use Rattle.std.specs.Prelude.{◌≡◌};

use jx_index::Indexed;
use std::marker::Model;

/// An index over a text that C leaves as it is until it frees the handle: to the library, for ever.
#[derive(Drop)]
pub struct Catalog {
    index: Indexed<'static>,
}

impl Model for Catalog {
    ghost use Rattle.jx_index.specs.Indexed.{IndexedValue};

    ghost Value = { IndexedValue };

    ghost view = { λ c. c.index };
}

impl Catalog {
    /// Keeps an index.
    pub fn of(index: Indexed<'static>) -> Catalog
        ensures { result ≡ index.entry }
    {
        Catalog { index }
    }

    /// The index that is kept.
    pub fn index(&self) -> &Indexed<'static>
        ensures { result.now ≡ self.now }
    {
        &self.index
    }

    /// Gives the index up.
    pub fn into_index(self) -> Indexed<'static>
        ensures { result ≡ self }
    {
        self.index
    }
}
