// Where a reading stands in a text, and what may stand there.
ghost use Rattle.std.specs.Prelude.{◌≡◌, ◌≤◌, ◌++◌, ◌∷◌, [], ◌↔◌, ℕ, List, None, true, length, slice_range, reverse, IfOk, IfSome};
ghost use Rattle.jx_lex.specs.Classes.{class_at};
ghost use Rattle.jx_lex.specs.Lex.{lex};
ghost use Rattle.jx_lex.specs.declared.alphabet.state.LexState.TheVariants.{Gap};
ghost use Rattle.jx_reduce.specs.Read.{top};
ghost use Rattle.jx_run.specs.Laws.{BeginsAtSomeDepth};
ghost use Rattle.jx_sentence.specs.Choices.{are_named, choices, choices_of};
ghost use Rattle.jx_sentence.specs.Standing.{StandsBehind, last_at};
ghost use Rattle.jx_sentence.specs.declared.standing.Standing.{Standing};

use crate::choice::{Choices, choices_for};
use jx_lex::{Depth, LexExit, LexState, Mark, TokenSink, scan};
use jx_reduce::{Expect, Holder, KnownStack};
use jx_run::reader_and_grammar;
use std::alloc::{AllocError, Global};

/// Where a reading stands after bytes that begin a text.
#[derive(Clone, Copy, Debug)]
pub struct Standing {
    /// How far it is in a token, or that it stands between two.
    pub state: LexState,
    /// The expectation between tokens.
    pub expect: Expect,
    /// The innermost open container.
    pub top: Holder,
    /// Where the last token begins.
    pub token: usize,
}

/// The known stack, and where the last token began.
#[derive(Drop)]
struct Watching {
    stack: KnownStack,
    token: usize,
}

impl TokenSink for Watching {
    ghost use Rattle.jx_sentence.specs.inside.Watched.{HasWatched};

    ghost has_seen = { λ watching marks ends. HasWatched marks ends watching.stack watching.token };

    ghost awaits = { λ _ _. Unit {0} };

    #[inline(always)]
    fn begin(&mut self, mark: Mark) -> Result<(), AllocError> {
        self.token = mark.at;
        self.stack.push(mark)?;
        Ok(())
    }

    #[inline(always)]
    fn end(&mut self, _at: usize) -> Result<(), AllocError> {
        Ok(())
    }

    #[inline(always)]
    fn is_done(&self) -> bool {
        self.stack.is_done()
    }
}

/// The last of open containers, which stand outermost first.
pub fn innermost(mut holders: Vec<Holder>) -> Holder
    ensures { result ≡ top (reverse holders.items) }
{
    match holders.pop() {
        Some(holder) => holder,
        None => Holder::Bottom,
    }
}

/// The standing of a reading after the bytes of a text from one offset up to another, from the start of a text on; none just where it meets a fault
/// among them. The last token is the one that the last token start begins; without a token start it is at the first offset. Fails only when out of
/// memory.
pub fn standing_behind(
    alloc: Global,
    text: &[u8],
    from: usize,
    to: usize,
    depth: Depth,
) -> Result<Option<Standing>, AllocError>
    requires { (from ≤ to) × (to ≤ length text.now) }
    ensures stands { IfOk result (λ found. IfSome found (λ s. StandsBehind depth from (slice_range text.now from to) s)) }
    ensures token { IfOk result (λ found. IfSome found (λ s. s.token ≡ last_at from (lex Gap from (slice_range text.now from to)).marks)) }
    ensures none { IfOk result (λ found. found ≡ None → (s : Standing) → StandsBehind depth from (slice_range text.now from to) s → ⊥) }
{
    let mut watching = Watching {
        stack: KnownStack::new(alloc, depth),
        token: from,
    };
    let Some(exit) = scan(&mut watching, LexState::Gap, text, from, to)? else {
        return Ok(None);
    };
    let LexExit::State(state) = exit else {
        return Ok(None);
    };
    if watching.stack.is_done() {
        return Ok(None);
    }
    let (expect, holders) = watching.stack.take_standing()?;
    Ok(Some(Standing {
        state,
        expect,
        top: innermost(holders),
        token: watching.token,
    }))
}

/// The choices that may stand where a reading stands: with a byte that is named, and with no other, the bytes before it begin a text of some depth.
pub fn choices_at(standing: &Standing) -> Choices
    ensures value { choices_of result ≡ choices standing.now.state standing.now.expect standing.now.top }
    ensures allowed { (limit from : ℕ) (bytes : List ℕ) (byte : ℕ) → StandsBehind limit from bytes standing.now
        → (are_named (choices_of result) (class_at byte) ≡ true) ↔ BeginsAtSomeDepth (bytes ++ byte ∷ []) }
{
    reader_and_grammar();
    choices_for(standing.state, standing.expect, standing.top)
}
