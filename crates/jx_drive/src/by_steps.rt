ghost use Rattle.std.specs.Prelude.{◌≡◌, ◌+◌, ◌<◌, ◌≤◌, ◌^◌, ◌++◌, ℕ, List, length, take, IfOk, OnOk};

use std::alloc::AllocError;

/// A reporter that takes a slice by steps, as a text or an element ends within it.
pub trait StepTaker {
    ghost use Rattle.std.specs.Prelude.{ℕ, List};

    /// The question that is asked of the input.
    type Task;

    /// It has taken these bytes of an input, from its start. This was written before what waits.
    ghost has_taken: { Self.Task → List ℕ → List ℕ → Self → Type 0 };

    /// The offset just past the last byte that it has taken.
    ghost end: { Self → ℕ };

    /// The offset just past the last byte that it has taken.
    fn end(&self) -> usize
        ensures { result ≡ end self.now };

    /// Takes bytes of a slice after all that it has taken, and answers how many those are.
    fn take_step(&mut self, task: &Self::Task, slice: &[u8]) -> Result<usize, AllocError>
        requires some { 0 < length slice.now }
        requires fits { end self.old + length slice.now < 2 ^ 64 }
        ensures within { IfOk result (λ taken. taken ≤ length slice.now) }
        ensures some { IfOk result (λ taken. 0 < taken) }
        ensures taken { IfOk result (λ taken. (bytes given : List ℕ) → has_taken task.now bytes given self.old → has_taken task.now (bytes ++ take taken slice.now) given self.new) }
        ensures count { IfOk result (λ taken. end self.new ≡ end self.old + taken) };
}

/// Takes a slice step by step. It has an offset just past its last byte.
fn take_all<T: StepTaker>(taker: &mut T, task: &T::Task, slice: &[u8]) -> Result<(), AllocError>
    requires fits { T.end taker.old + length slice.now < 2 ^ 64 }
    ensures taken { OnOk result ((bytes given : List ℕ) → T.has_taken task.now bytes given taker.old → T.has_taken task.now (bytes ++ slice.now) given taker.new) }
{
    let mut at = 0;
    while at < slice.len() {
        at += taker.take_step(task, &slice[at..])?;
    }
    Ok(())
}

/// Takes a slice after all bytes that a reporter has taken. Also out of memory where its last byte has no offset.
pub fn take_by_steps<T: StepTaker>(
    taker: &mut T,
    task: &T::Task,
    slice: &[u8],
) -> Result<(), AllocError>
    ensures { OnOk result ((bytes given : List ℕ) → T.has_taken task.now bytes given taker.old → T.has_taken task.now (bytes ++ slice.now) given taker.new) }
{
    if slice.len() > usize::MAX - taker.end() {
        return Err(AllocError);
    }
    take_all(taker, task, slice)
}
