// The state of names between two slices.
ghost use Rattle.std.specs.Prelude.{◌≡◌, [], ℕ, List, None, length, IfOk};
ghost use Rattle.jx_lex.specs.declared.alphabet.mark.Mark.{Mark};
ghost use Rattle.jx_index.specs.inside.Building.{built_of};
ghost use Rattle.jx_names.specs.inside.HeldNames.{IsHeld};
ghost use Rattle.jx_names.specs.inside.KeptNames.{kept, Stands};

use crate::open_names::OpenNames;
use jx_lex::Mark;
use std::alloc::{AllocError, Global};

/// The names of open objects. Also a token that has begun, and of a name the bytes so far.
#[derive(Drop)]
pub struct Held {
    pub names: OpenNames,
    pub begun: Option<Mark>,
    pub name: Vec<u8>,
}

impl Held {
    /// The state before the first byte.
    pub(crate) fn new(alloc: Global) -> Held
        ensures held { IsHeld [] [] [] result.names result.begun result.name.items }
        ensures begun { result.begun ≡ None }
    {
        Held {
            names: OpenNames::new(alloc),
            begun: None,
            name: Vec::new(alloc),
        }
    }

    /// The first name that an object repeats, where the text ends here.
    pub(crate) fn into_names(self) -> Result<OpenNames, AllocError>
        ensures { IfOk result (λ names. (bytes : List ℕ) (marks : List Mark) (ends : List ℕ) → IsHeld bytes marks ends self.names self.begun self.name.items
            → Stands bytes (built_of (length bytes) marks ends) (kept names)) }
    {
        let Some(mark) = self.begun else {
            return Ok(self.names);
        };
        let mut names = self.names;
        names.tell(mark.kind, mark.at, &self.name)?;
        Ok(names)
    }
}
