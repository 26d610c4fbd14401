// Things that one byte distinguishes.
ghost use Rattle.std.specs.Prelude.{◌∷◌, []};
ghost use Rattle.jx_lex.specs.Ordinal.{all_states, ordinal};
ghost use Rattle.jx_portion.specs.Choices.{entries, holders, holder_number, kinds, kind_number};
ghost use Rattle.jx_portion.specs.Reading.{choice_at, flag_at, Gives};
ghost use Rattle.jx_reduce.specs.Entries.{place};
ghost use Rattle.jx_portion.specs.declared.fault.Field.TheVariants as field;

use crate::fault::{DecodeFault, Field, RunFault};
use crate::spelt::Spelt;
use jx_lex::{LexState, MarkKind};
use jx_reduce::{Entry, Holder};
use std::alloc::AllocError;

/// The kinds of token starts, in the order of their numbers.
const KINDS: [MarkKind; 11] = [
    MarkKind::OpenArray,
    MarkKind::CloseArray,
    MarkKind::OpenObject,
    MarkKind::CloseObject,
    MarkKind::Colon,
    MarkKind::Comma,
    MarkKind::String,
    MarkKind::Number,
    MarkKind::True,
    MarkKind::False,
    MarkKind::Null,
];

/// Reads a byte that is the number of one of these.
fn choice_of<'a, T: Copy>(
    all: &[T],
    fault: Field,
    bytes: &'a [u8],
) -> Result<(T, &'a [u8]), DecodeFault>
    ensures { Gives (λ x. (x.0, x.1.now)) result (choice_at all.now fault bytes.now) }
{
    match bytes {
        [] => Err(DecodeFault::Fault(RunFault::CutShort)),
        [number, rest @ ..] => match all.get(*number as usize) {
            Some(one) => Ok((*one, rest)),
            None => Err(DecodeFault::Fault(RunFault::Malformed(fault))),
        },
    }
}

/// Reads whether something follows, or which of two things.
pub(crate) fn flag_of(bytes: &[u8]) -> Result<(bool, &[u8]), DecodeFault>
    ensures { Gives (λ x. (x.0, x.1.now)) result (flag_at bytes.now) }
{
    choice_of(&[false, true], Field::Flag, bytes)
}

impl Spelt for MarkKind {
    ghost use Rattle.jx_portion.specs.Choices.{kinds, kind_number};

    ghost spelling = { λ kind. kind_number kind ∷ [] };

    ghost reading = { choice_at kinds field.Mark };

    ghost fits = { λ _. Unit {0} };

    fn put(self, out: &mut Vec<u8>) -> Result<(), AllocError> {
        out.push(self as u8)?;
        Ok(())
    }

    fn read(bytes: &[u8]) -> Result<(MarkKind, &[u8]), DecodeFault> {
        choice_of(&KINDS, Field::Mark, bytes)
    }
}

impl Spelt for Holder {
    ghost spelling = { λ holder. holder_number holder ∷ [] };

    ghost reading = { choice_at holders field.Container };

    ghost fits = { λ _. Unit {0} };

    fn put(self, out: &mut Vec<u8>) -> Result<(), AllocError> {
        out.push(self as u8)?;
        Ok(())
    }

    fn read(bytes: &[u8]) -> Result<(Holder, &[u8]), DecodeFault> {
        let all = [Holder::Array, Holder::Object, Holder::Bottom];
        choice_of(&all, Field::Container, bytes)
    }
}

impl Spelt for Entry {
    ghost spelling = { λ entry. place entry ∷ [] };

    ghost reading = { choice_at entries field.Entry };

    ghost fits = { λ _. Unit {0} };

    fn put(self, out: &mut Vec<u8>) -> Result<(), AllocError> {
        out.push(self.index() as u8)?;
        Ok(())
    }

    fn read(bytes: &[u8]) -> Result<(Entry, &[u8]), DecodeFault> {
        choice_of(&Entry::ALL, Field::Entry, bytes)
    }
}

impl Spelt for LexState {
    ghost spelling = { λ state. ordinal state ∷ [] };

    ghost reading = { choice_at all_states field.State };

    ghost fits = { λ _. Unit {0} };

    fn put(self, out: &mut Vec<u8>) -> Result<(), AllocError> {
        out.push(self.number() as u8)?;
        Ok(())
    }

    fn read(bytes: &[u8]) -> Result<(LexState, &[u8]), DecodeFault> {
        choice_of(&LexState::all(), Field::State, bytes)
    }
}
