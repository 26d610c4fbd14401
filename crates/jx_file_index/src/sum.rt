// The effect of the token starts of a part of a text on open containers.
ghost use Rattle.std.specs.Prelude.{◌≡◌, ◌+◌, ℕ, List, SomeIff, IfSome, fold};
ghost use Rattle.jx_lex.specs.declared.alphabet.mark.Mark.{Mark};
ghost use Rattle.jx_lex.specs.Counts.{HasCounts};
ghost use Rattle.jx_file_index.specs.Sums.{closing, at_comma, opening, Fits, joined, noted, nothing};

use jx_lex::{MarkKind, TokenCounts};

/// The sum of tokens of which only the counts are known. There is none where a count is too large to be held.
#[inline(always)]
fn sum_by_counts(counts: &TokenCounts) -> Option<Sum>
    ensures closed { IfSome result (λ sum. sum.closed ≡ counts.now.lowest) }
    ensures opened { IfSome result (λ sum. sum.opened + counts.now.closing ≡ counts.now.lowest + counts.now.opening) }
    ensures commas { IfSome result (λ sum. sum.commas ≡ counts.now.lowest_commas) }
{
    let raised = counts.lowest as u64 + counts.opening as u64;
    let opened = raised.checked_sub(counts.closing as u64)?;
    if counts.lowest > u16::MAX as u32 || opened > u16::MAX as u64 {
        return None;
    }
    Some(Sum {
        closed: counts.lowest as u16,
        opened: opened as u16,
        commas: counts.lowest_commas as u64,
    })
}

/// The effect of the token starts of a part of a text on the containers that are open, whichever these are.
#[derive(Clone, Copy, Debug, PartialEq, Eq)]
pub struct Sum {
    /// How many containers it closes that stood open before it.
    pub closed: u16,
    /// How many containers that it opened stand open after it.
    pub opened: u16,
    /// How many of its commas stand in the innermost container where the fewest are open.
    pub commas: u64,
}

impl Sum {
    /// The sum of no token start.
    pub fn new() -> Sum
        ensures { result ≡ nothing }
    {
        Sum {
            closed: 0,
            opened: 0,
            commas: 0,
        }
    }

    #[inline(always)]
    fn opening(self) -> Option<Sum>
        ensures { SomeIff result (Fits (opening self)) (opening self) }
    {
        match self.opened.checked_add(1) {
            Some(opened) => Some(Sum { opened, ..self }),
            None => None,
        }
    }

    #[inline(always)]
    fn closing(self) -> Option<Sum>
        ensures { SomeIff result (Fits (closing self)) (closing self) }
    {
        if self.opened > 0 {
            return Some(Sum {
                opened: self.opened - 1,
                ..self
            });
        }
        match self.closed.checked_add(1) {
            Some(closed) => Some(Sum {
                closed,
                opened: 0,
                commas: 0,
            }),
            None => None,
        }
    }

    #[inline(always)]
    fn at_comma(self) -> Option<Sum>
        ensures { SomeIff result (Fits (at_comma self)) (at_comma self) }
    {
        if self.opened > 0 {
            return Some(self);
        }
        match self.commas.checked_add(1) {
            Some(commas) => Some(Sum { commas, ..self }),
            None => None,
        }
    }

    /// The sum with one more token start of this kind after it. There is none where a count is too large to be held.
    #[inline(always)]
    pub fn step(self, kind: MarkKind) -> Option<Sum>
        ensures { SomeIff result (Fits (noted kind self)) (noted kind self) }
    {
        match kind {
            MarkKind::OpenArray | MarkKind::OpenObject => self.opening(),
            MarkKind::CloseArray | MarkKind::CloseObject => self.closing(),
            MarkKind::Comma => self.at_comma(),
            _ => Some(self),
        }
    }

    /// The sum with tokens after it of which only the counts are known. There is none where a count is too large to be
    /// held.
    #[inline(always)]
    pub fn counted(self, counts: &TokenCounts) -> Option<Sum>
        ensures { IfSome result (λ sum. (marks : List Mark) (ends : List ℕ) → HasCounts marks ends counts.now → sum ≡ fold (λ s mark. noted mark.kind s) self marks) }
    {
        let behind = sum_by_counts(counts)?;
        let sum = self.join(behind)?;
        Some(sum)
    }

    /// The sum of both parts, one after the other. There is none where a count is too large to be held.
    pub fn join(self, right: Sum) -> Option<Sum>
        ensures { SomeIff result (Fits (joined self right)) (joined self right) }
    {
        if right.closed < self.opened {
            let opened = (self.opened - right.closed).checked_add(right.opened)?;
            return Some(Sum { opened, ..self });
        }
        let closed = self.closed.checked_add(right.closed - self.opened)?;
        let commas = if right.closed == self.opened {
            self.commas.checked_add(right.commas)?
        } else {
            right.commas
        };
        Some(Sum {
            closed,
            opened: right.opened,
            commas,
        })
    }
}
