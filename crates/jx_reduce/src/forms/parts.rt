// The parts of structures: owned ones, from which a structure is made, and borrowed ones, which are looked at.
ghost use Rattle.std.specs.Prelude.{◌≡◌};
ghost use Rattle.jx_reduce.specs.Levels.{form_of};
ghost use Rattle.jx_reduce.specs.Parts.{form_of_parts};

use crate::forms::ended_level::EndedLevel;
use crate::forms::entry::Entry;
use crate::forms::form_ref::FormRef;
use crate::forms::level::Level;
use crate::forms::levels::Levels;
use crate::table::holder::Holder;
use jx_lex::Mark;

/// The parts of a reduced form: the levels that end and the last one, what is open above it, outermost first, and the exit.
/// Also the offsets at which one container more than ever was open.
#[derive(Drop)]
pub struct FormParts {
    pub ended: Vec<EndedLevel>,
    pub last: Level,
    pub opens: Vec<Holder>,
    pub exit: Option<Entry>,
    pub heights: Vec<usize>,
}

/// A token, and the parts of the form of the tokens after it.
#[derive(Drop)]
pub struct RestParts {
    pub mark: Mark,
    pub tail: FormParts,
}

/// The parts of a structure: the offset of a string with which the tokens begin, the first token after it, and the form
/// of those after that.
#[derive(Drop)]
pub struct StructureParts {
    pub string: Option<usize>,
    pub rest: Option<RestParts>,
}

/// `RestParts`, borrowed.
#[derive(Clone, Copy)]
pub struct RestRef<'a> {
    pub mark: Mark,
    pub tail: FormRef<'a>,
}

/// `StructureParts`, borrowed.
#[derive(Clone, Copy)]
pub struct StructureRef<'a> {
    pub string: Option<usize>,
    pub rest: Option<RestRef<'a>>,
}

impl FormParts {
    /// The levels that have these parts.
    pub(crate) fn levels(self) -> Levels
        ensures { form_of result ≡ form_of_parts self }
    {
        let FormParts {
            ended,
            last,
            opens,
            exit,
            heights,
        } = self;
        Levels {
            ended,
            last,
            opens,
            exit,
            heights,
        }
    }
}
