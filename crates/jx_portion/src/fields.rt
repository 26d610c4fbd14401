// The fields of structures and transitions.
ghost use Rattle.jx_portion.specs.Reading.{ended_at, exit_at, level_at, mark_at, transition_at};
ghost use Rattle.jx_portion.specs.Spelling.{ended, exit, level, mark, transition, EndedFits, ExitFits, LevelFits, MarkFits, TransitionFits};

use crate::choices::flag_of;
use crate::fault::DecodeFault;
use crate::spelt::{Spelt, put_optional, read_optional};
use jx_lex::{LexExit, LexState, Mark, MarkKind};
use jx_reduce::{EndedLevel, Level};
use jx_run::Transition;
use std::alloc::AllocError;

impl Spelt for Level {
    ghost spelling = { level };

    ghost reading = { level_at };

    ghost fits = { LevelFits };

    fn put(self, out: &mut Vec<u8>) -> Result<(), AllocError> {
        put_optional(self.array, out)?;
        put_optional(self.object, out)?;
        put_optional(self.bottom, out)
    }

    #[tactic(auto, unfolding(crate::specs::Reading::level_at))]
    fn read(bytes: &[u8]) -> Result<(Level, &[u8]), DecodeFault> {
        let (array, rest) = read_optional(bytes)?;
        let (object, rest) = read_optional(rest)?;
        let (bottom, rest) = read_optional(rest)?;
        let level = Level {
            array,
            object,
            bottom,
        };
        Ok((level, rest))
    }
}

impl Spelt for EndedLevel {
    ghost spelling = { ended };

    ghost reading = { ended_at };

    ghost fits = { EndedFits };

    fn put(self, out: &mut Vec<u8>) -> Result<(), AllocError> {
        put_optional(self.array, out)?;
        put_optional(self.object, out)?;
        self.bottom.put(out)
    }

    #[tactic(auto, unfolding(crate::specs::Reading::ended_at))]
    fn read(bytes: &[u8]) -> Result<(EndedLevel, &[u8]), DecodeFault> {
        let (array, rest) = read_optional(bytes)?;
        let (object, rest) = read_optional(rest)?;
        let (bottom, rest) = usize::read(rest)?;
        let level = EndedLevel {
            array,
            object,
            bottom,
        };
        Ok((level, rest))
    }
}

impl Spelt for Mark {
    ghost spelling = { mark };

    ghost reading = { mark_at };

    ghost fits = { MarkFits };

    fn put(self, out: &mut Vec<u8>) -> Result<(), AllocError> {
        self.kind.put(out)?;
        self.at.put(out)
    }

    #[tactic(auto, unfolding(crate::specs::Reading::mark_at))]
    fn read(bytes: &[u8]) -> Result<(Mark, &[u8]), DecodeFault> {
        let (kind, rest) = MarkKind::read(bytes)?;
        let (at, rest) = usize::read(rest)?;
        Ok((Mark { kind, at }, rest))
    }
}

impl Spelt for LexExit {
    ghost spelling = { exit };

    ghost reading = { exit_at };

    ghost fits = { ExitFits };

    fn put(self, out: &mut Vec<u8>) -> Result<(), AllocError> {
        match self {
            LexExit::State(state) => {
                out.push(0)?;
                state.put(out)
            }
            LexExit::Fault(at) => {
                out.push(1)?;
                at.put(out)
            }
        }
    }

    #[tactic(auto, unfolding(crate::specs::Reading::exit_at))]
    fn read(bytes: &[u8]) -> Result<(LexExit, &[u8]), DecodeFault> {
        let (is_fault, rest) = flag_of(bytes)?;
        if is_fault {
            let (at, rest) = usize::read(rest)?;
            Ok((LexExit::Fault(at), rest))
        } else {
            let (state, rest) = LexState::read(rest)?;
            Ok((LexExit::State(state), rest))
        }
    }
}

impl Spelt for Transition {
    ghost spelling = { transition };

    ghost reading = { transition_at };

    ghost fits = { TransitionFits };

    fn put(self, out: &mut Vec<u8>) -> Result<(), AllocError> {
        self.exit.put(out)?;
        self.structure.put(out)
    }

    #[tactic(auto, unfolding(crate::specs::Reading::transition_at))]
    fn read(bytes: &[u8]) -> Result<(Transition, &[u8]), DecodeFault> {
        let (exit, rest) = LexExit::read(bytes)?;
        let (structure, rest) = usize::read(rest)?;
        Ok((Transition { exit, structure }, rest))
    }
}
