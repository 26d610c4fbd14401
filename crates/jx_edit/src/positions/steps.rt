// Positions at even steps of bytes, so that no more than one step is counted to find one.
ghost use Rattle.std.specs.Prelude.{◌≡◌, ◌≤◌, ◌<◌, ◌+◌, ◌*◌, ◌^◌, IfOk, IfSome, length, take};
ghost use Rattle.jx_edit.specs.inside.Moves.{position_of, AreSteps};
ghost use Rattle.jx_edit.specs.inside.Nearing.{IsBefore};
ghost use Rattle.jx_edit.specs.Positions.{first, position_behind, reach};

use crate::positions::encoding::Encoding;
use crate::positions::position::{Position, Reached, behind, reach};
use std::alloc::{AllocError, Global};

/// How many bytes a step has. The fewer there are, the fewer are counted to find a position, and the more positions are kept.
const STEP: usize = 128;

/// A position in half of the memory.
#[derive(Clone, Copy)]
pub(crate) struct Step {
    pub(crate) line: u32,
    pub(crate) character: u32,
}

/// The positions at each step of bytes, by one encoding, where a text begins with the bytes.
#[derive(Drop)]
pub(crate) struct Steps {
    pub(crate) encoding: Encoding,
    pub(crate) steps: Vec<Step>,
}

impl Step {
    /// The step at a position; none where that has a greater line or character than a step can have.
    fn of(position: Position) -> Option<Step>
        ensures { IfSome result (λ step. position_of step ≡ position) }
    {
        let line = u32::try_from(position.line).ok()?;
        let character = u32::try_from(position.character).ok()?;
        Some(Step { line, character })
    }

    /// Its position.
    fn position(self) -> Position
        ensures { result ≡ position_of self }
    {
        Position {
            line: self.line as usize,
            character: self.character as usize,
        }
    }
}

impl Steps {
    /// The steps of these bytes, as far as they can be kept.
    pub(crate) fn of(alloc: Global, bytes: &[u8], encoding: Encoding) -> Result<Steps, AllocError>
        ensures steps { IfOk result (AreSteps bytes.now) }
        ensures encoding { IfOk result (λ steps. steps.encoding ≡ encoding) }
    {
        let count = bytes.len() / STEP + 1;
        let mut steps = Vec::with_capacity(alloc, count)?;
        let mut position = Position::first();
        for number in 0..count {
            let Some(step) = Step::of(position) else {
                return Ok(Steps { encoding, steps });
            };
            steps.push(step)?;
            let start = number * STEP;
            let end = start.saturating_add(STEP).min(bytes.len());
            position = position.joined(behind(&bytes[start..end], encoding));
        }
        Ok(Steps { encoding, steps })
    }

    /// The position after so many of the bytes whose steps these are.
    pub(crate) fn position_behind(&self, bytes: &[u8], at: usize) -> Position
        requires steps { AreSteps bytes.now self.now }
        requires within { at ≤ length bytes.now }
        ensures { result ≡ position_behind self.now.encoding first (take at bytes.now) }
    {
        let number = at / STEP;
        if number < self.steps.len() {
            let start = number * STEP;
            let step = self.steps[number];
            return step
                .position()
                .joined(behind(&bytes[start..at], self.encoding));
        }
        behind(&bytes[..at], self.encoding)
    }

    /// The last step that is not after a position, where the bytes whose steps these are stand at another one; their start where
    /// none is.
    fn last_before(&self, bytes: &[u8], from: Position, to: Position) -> Reached
        requires steps { AreSteps bytes.now self.now }
        requires lines { from.line + length bytes.now < 2 ^ 64 }
        requires characters { from.character + 2 * length bytes.now < 2 ^ 64 }
        ensures { IsBefore self.now.encoding from to bytes.now result }
    {
        let mut last = Reached {
            count: 0,
            position: from,
        };
        for number in 0..self.steps.len() {
            let position = from.joined(self.steps[number].position());
            if position.is_behind(to) {
                return last;
            }
            let count = number.saturating_mul(STEP).min(bytes.len());
            last = Reached { count, position };
        }
        last
    }

    /// How many of the bytes whose steps these are, which stand at one position, come before the next position is after another.
    pub(crate) fn reach(&self, bytes: &[u8], from: Position, to: Position) -> Reached
        requires steps { AreSteps bytes.now self.now }
        requires lines { from.line + length bytes.now < 2 ^ 64 }
        requires characters { from.character + 2 * length bytes.now < 2 ^ 64 }
        ensures count { result.count ≡ reach self.now.encoding from to bytes.now }
        ensures within { result.count ≤ length bytes.now }
        ensures position { result.position ≡ position_behind self.now.encoding from (take result.count bytes.now) }
    {
        let last = self.last_before(bytes, from, to);
        let near = reach(&bytes[last.count..], last.position, to, self.encoding);
        Reached {
            count: last.count + near.count,
            position: near.position,
        }
    }
}
