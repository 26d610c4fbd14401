ghost use Rattle.std.specs.Prelude.{◌≡◌, ◌++◌, ℕ, List, [], IfOk};
ghost use Rattle.jx_ends.specs.declared.exit.Exit.{Exit};

use jx_ends::Exit;
use std::alloc::AllocError;

/// A reporter, which takes an input slice by slice, and has ready what is due of it. Its messages, if it has any, go to a `B`.
pub trait Reporter<B> {
    ghost use Rattle.std.specs.Prelude.{ℕ, List};
    ghost use Rattle.jx_ends.specs.declared.exit.Exit.{Exit};

    /// The question that is asked of the input.
    type Task;

    /// The output that is due of these bytes of an input, from its start, and the messages that lead `B` from one state to
    /// another.
    ghost is_due: { Self.Task → B → B → List ℕ → List ℕ → Type 0 };

    /// An output for these bytes of an input of which a beginning was written when a write failed, and the messages before that.
    ghost is_begun: { Self.Task → B → B → List ℕ → List ℕ → Type 0 };

    /// The whole output for an input, all messages on it, and the status.
    ghost is_output: { Self.Task → B → B → List ℕ → List ℕ → Exit → Type 0 };

    /// It has taken these bytes of an input, from its start. This was written, and the messages led `B` from one state to
    /// another, before what waits.
    ghost has_taken: { Self.Task → B → B → List ℕ → List ℕ → Self → Type 0 };

    /// It has taken the whole input, and the status is this.
    ghost has_ended: { Self.Task → B → B → List ℕ → List ℕ → Exit → Self → Type 0 };

    /// The output that waits to be written.
    ghost ready: { Self → List ℕ };

    /// The messages that wait.
    ghost told: { Self → List ℕ };

    /// The bytes that were written and those that wait are due of the bytes that were taken, where no message waits.
    fn what_waits_is_due()
        ensures due { (task : Self.Task) (was now : B) (bytes given : List ℕ) (reporter : Self) → has_taken task was now bytes given reporter → told reporter ≡ []
            → is_due task was now bytes (given ++ ready reporter) }
        ensures begun { (task : Self.Task) (was now : B) (bytes given : List ℕ) (reporter : Self) → has_taken task was now bytes given reporter → is_begun task was now bytes (given ++ ready reporter) }
        ensures ended { (task : Self.Task) (was now : B) (bytes given : List ℕ) (exit : Exit) (reporter : Self) → has_ended task was now bytes given exit reporter
            → is_begun task was now bytes (given ++ ready reporter) };

    /// The output that waits to be written.
    fn ready(&self) -> &[u8]
        ensures ready { result.now ≡ ready self.now };

    /// Lets what waits go: the output, which was written, and the messages, which it writes.
    fn clear(&mut self, beside: &mut B)
        ensures ready { ready self.new ≡ [] }
        ensures told { told self.new ≡ [] }
        ensures taken { (task : Self.Task) (was : B) (bytes given : List ℕ) → has_taken task was beside.old bytes given self.old → has_taken task was beside.new bytes (given ++ ready self.old) self.new }
        ensures output { (task : Self.Task) (was : B) (bytes given : List ℕ) (exit : Exit) → has_ended task was beside.old bytes given exit self.old
            → is_output task was beside.new bytes (given ++ ready self.old) exit };

    /// Takes the end of the input: what waits then is the rest of the output and of the messages.
    fn finish(&mut self, task: &Self::Task) -> Result<Exit, AllocError>
        ensures ended { IfOk result (λ exit. (was now : B) (bytes given : List ℕ) → has_taken task.now was now bytes given self.old → has_ended task.now was now bytes given exit self.new) };
}
