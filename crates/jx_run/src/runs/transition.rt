// Where reading part of a text leads from the lexical states.
ghost use Rattle.std.specs.Prelude.{◌≡◌, map};
ghost use Rattle.jx_run.specs.inside.Moved.{moved_transition};

use jx_lex::LexExit;

/// The transition from one lexical state: where reading ends, and the number of the structure that its tokens have.
#[derive(Clone, Copy)]
pub struct Transition {
    pub exit: LexExit,
    pub structure: usize,
}

impl Transition {
    /// The transition over bytes so much further on.
    fn shifted(self, by: usize) -> Transition
        ensures { result ≡ moved_transition by self }
    {
        let exit = match self.exit {
            LexExit::State(last) => LexExit::State(last),
            LexExit::Fault(at) => LexExit::Fault(by.saturating_add(at)),
        };
        Transition {
            exit,
            structure: self.structure,
        }
    }
}

/// The transitions over bytes so much further on.
pub(crate) fn transitions_shifted(by: usize, mut transitions: Vec<Transition>) -> Vec<Transition>
    ensures { result.items ≡ map (moved_transition by) transitions.items }
{
    for at in 0..transitions.len() {
        transitions[at] = transitions[at].shifted(by);
    }
    transitions
}
