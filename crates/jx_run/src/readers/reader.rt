// A text that is read from its start, slice by slice or run by run.

ghost use Rattle.std.specs.Prelude.{◌≡◌, ◌+◌, ◌<◌, ◌^◌, ◌↔◌, ◌++◌, ◌≤◌, ℕ, List, [], Some, false, IsTrue, OnOk, OnErr, IfOk, IsErr, length, take};
ghost use Rattle.jx_lex.specs.declared.alphabet.mark.Mark.{Mark};
ghost use Rattle.jx_lex.specs.Lex.{lex};
ghost use Rattle.jx_lex.specs.Seen.{SeesTrack};
ghost use Rattle.jx_reduce.specs.KnownStack.{HasRead as StackHasRead, IsFault};
ghost use Rattle.jx_reduce.specs.Read.{read as read_marks};
ghost use Rattle.jx_run.specs.OutcomeRun.{IsOutcomeRun};
ghost use Rattle.jx_run.specs.Reader.{HasRead, HasFailed, IsInFront, Outcome as CameTo, expect_behind, is_fault, state_behind};
ghost use Rattle.jx_run.specs.Settings.{JudgedBy};
ghost use Rattle.jx_run.specs.Telling.{AwaitsBehind, SeesPast, standing_of, track_of};

use crate::laws::reader_and_grammar;
use crate::readers::progress::{
    OpenStack, Progress, progress_at_start, read_beginning, read_on, settled, verdict_at,
};
use crate::readers::telling::tell_on;
use crate::runs::outcome_run::OutcomeRun;
use crate::texts::settings::Settings;
use crate::texts::verdict::{Refusal, Verdict};
use jx_lex::{LexExit, LexState, TokenSink};
use jx_reduce::{Expect, KnownStack, Outcome, Whole};
use jx_summary::Summary;
use std::alloc::{AllocError, Global};
use std::marker::Model;
use std::mem;

/// A text that is read from its start: fed by slices or by runs, one after another, it has the verdict on all their
/// bytes at any moment. It keeps no byte and no token; up to 64 open containers take no memory. A byte order mark that
/// the settings ignore may be cut anywhere between two slices.
#[derive(Drop)]
pub struct Reader {
    alloc: Global,
    settings: Settings,
    start: usize,
    count: usize,
    progress: Progress,
    stack: KnownStack,
}

impl Model for Reader {
    ghost use Rattle.jx_run.specs.Reader.{ReaderValue};

    ghost Value = { ReaderValue };

    ghost use Rattle.jx_run.specs.ReaderInside.{reader_of, IsLawful};

    ghost view = { reader_of };

    ghost invariant = { IsLawful };
}

impl Reader {
    ghost use Rattle.jx_run.specs.ReaderInside.{GoesOn, IsCut};

    /// Reads the bytes of a run that stands from `base` on.
    fn read_run(
        stack: &mut KnownStack,
        state: LexState,
        run: &OutcomeRun,
        base: usize,
    ) -> Result<Progress, AllocError>
        requires going { IsFault stack.old.reading → ⊥ }
        requires depth { run.now.depth ≡ stack.old.depth }
        requires start { run.now.start ≡ 0 }
        requires of { (more : List ℕ) × IsOutcomeRun more run.now }
        ensures cut { IfOk result IsCut }
        ensures goes_on { IfOk result (λ progress. (marks : List Mark) (more : List ℕ) → StackHasRead marks stack.old → IsOutcomeRun more run.now
            → GoesOn stack.old (lex state 0 more) (read_marks stack.old.depth (lex state 0 more).marks stack.old.reading) base progress stack.new) }
    {
        let (expect, holders) = stack.take_standing()?;
        let exit = run.exit(state);
        let whole = match run.entry(state, expect).act(&holders)? {
            Outcome::Went { expect, holders } => match exit {
                LexExit::State(state) => {
                    stack.stand(expect, &holders)?;
                    return Ok(Progress::Going(state));
                }
                LexExit::Fault(at) => Whole::Stopped(at),
            },
            Outcome::Stopped(at) => Whole::Stopped(at),
            Outcome::TooDeep(at) => Whole::TooDeep(at),
        };
        stack.reset();
        Ok(settled(base, Some(exit), whole))
    }

    /// A reader of a text whose first byte has this offset. Its settings' names are ignored. Nothing is allocated.
    pub fn new(alloc: Global, settings: &Settings, start: usize) -> Reader
        ensures settings { result.settings ≡ settings.now }
        ensures start { result.start ≡ start }
        ensures reads { HasRead [] result }
    {
        Reader {
            alloc,
            settings: *settings,
            start,
            count: 0,
            progress: progress_at_start(settings.mark),
            stack: KnownStack::new(alloc, settings.depth),
        }
    }

    /// The settings by which it reads.
    pub fn settings(&self) -> Settings
        ensures { result ≡ self.now.settings }
    {
        self.settings
    }

    /// The offset of its text's first byte.
    pub fn start(&self) -> usize
        ensures { result ≡ self.now.start }
    {
        self.start
    }

    /// The offset just past the last byte that it has read.
    pub fn end(&self) -> usize
        ensures { result ≡ self.now.start + self.now.count }
    {
        self.start + self.count
    }

    /// Begins another text, whose first byte has this offset. The memory stays, unless some was refused.
    pub fn reset(&mut self, start: usize)
        ensures settings { self.new.settings ≡ self.old.settings }
        ensures start { self.new.start ≡ start }
        ensures reads { HasRead [] self.new }
    {
        match self.progress {
            Progress::Failed => {
                self.stack = KnownStack::new(self.alloc, self.settings.depth);
            }
            _ => self.stack.reset(),
        }
        self.start = start;
        self.count = 0;
        self.progress = progress_at_start(self.settings.mark);
    }

    /// Reads the slice after all bytes that it has read. After a fault no byte is looked at. Fails only when out of
    /// memory, and from then on every slice and every run is.
    pub fn feed(&mut self, slice: &[u8]) -> Result<(), AllocError>
        requires { self.old.start + self.old.count + length slice.now < 2 ^ 64 }
        ensures settings { self.new.settings ≡ self.old.settings }
        ensures start { self.new.start ≡ self.old.start }
        ensures reads { OnOk result ((bytes : List ℕ) → HasRead bytes self.old → HasRead (bytes ++ slice.now) self.new) }
        ensures count { OnOk result (self.new.count ≡ self.old.count + length slice.now) }
        ensures err { OnErr result (HasFailed self.new) }
        ensures failed { HasFailed self.old → IsErr result }
    {
        let base = self.start + self.count;
        let progress = self.progress;
        self.count += slice.len();
        // When out of memory, what the stack holds is of no use.
        self.progress = Progress::Failed;
        self.progress = read_on(&mut self.stack, progress, slice, base)?;
        Ok(())
    }

    /// Reads the bytes of the slice before `to` as `feed` does. Those after are only looked at: whoever has read on
    /// already, as to the next line, lets the reader take the last tokens as fast as the others.
    pub fn feed_beginning(&mut self, slice: &[u8], to: usize) -> Result<(), AllocError>
        requires within { to ≤ length slice.now }
        requires fits { self.old.start + self.old.count + to < 2 ^ 64 }
        ensures settings { self.new.settings ≡ self.old.settings }
        ensures start { self.new.start ≡ self.old.start }
        ensures reads { OnOk result ((bytes : List ℕ) → HasRead bytes self.old → HasRead (bytes ++ take to slice.now) self.new) }
        ensures count { OnOk result (self.new.count ≡ self.old.count + to) }
        ensures err { OnErr result (HasFailed self.new) }
        ensures failed { HasFailed self.old → IsErr result }
    {
        let base = self.start + self.count;
        let progress = self.progress;
        self.count += to;
        // When out of memory, what the stack holds is of no use.
        self.progress = Progress::Failed;
        self.progress = read_beginning(&mut self.stack, progress, slice, to, base)?;
        Ok(())
    }

    /// Reads the slice as `feed` does, and gives a sink its tokens, with offsets counted from the slice's first byte.
    /// Bytes of a byte order mark are given to nobody, and nothing is given at or after a fault. Gives the sink back;
    /// when out of memory it is gone.
    pub fn feed_into<K: TokenSink + Drop>(&mut self, sink: K, slice: &[u8]) -> Result<K, AllocError>
        requires fits { self.old.start + self.old.count + length slice.now < 2 ^ 64 }
        requires turn { (before : CameTo) → self.old.outcome ≡ Some before → AwaitsBehind (K.awaits sink) before }
        ensures settings { self.new.settings ≡ self.old.settings }
        ensures start { self.new.start ≡ self.old.start }
        ensures reads { OnOk result ((bytes : List ℕ) → HasRead bytes self.old → HasRead (bytes ++ slice.now) self.new) }
        ensures count { OnOk result (self.new.count ≡ self.old.count + length slice.now) }
        ensures err { OnErr result (HasFailed self.new) }
        ensures failed { HasFailed self.old → IsErr result }
        ensures told { IfOk result (λ told. is_fault self.new.outcome ≡ false → (before : CameTo) → self.old.outcome ≡ Some before
            → SeesTrack (K.has_seen sink) (K.has_seen told) (track_of before slice.now)) }
        ensures past { IfOk result (λ told. (before : CameTo) → self.old.outcome ≡ Some before
            → SeesPast (K.has_seen sink) (K.has_seen told) self.old.settings.depth (standing_of before) (track_of before slice.now).marks (track_of before slice.now).ends) }
        ensures turn { IfOk result (λ told. (after : CameTo) → self.new.outcome ≡ Some after → AwaitsBehind (K.awaits told) after) }
    {
        let base = self.start + self.count;
        let progress = self.progress;
        self.count += slice.len();
        // When out of memory, what the stack holds is of no use.
        self.progress = Progress::Failed;
        let none = KnownStack::new(self.alloc, self.settings.depth);
        let stack = mem::replace(&mut self.stack, none);
        let told = tell_on(stack, sink, progress, slice, base)?;
        self.stack = told.stack;
        self.progress = told.progress;
        Ok(told.sink)
    }

    /// Whether a fault was met. No byte after it changes the verdict.
    pub fn is_done(&self) -> bool
        ensures { result ≡ is_fault self.now.outcome }
    {
        matches!(self.progress, Progress::Stopped(_) | Progress::TooDeep(_))
    }

    /// Whether a byte order mark may begin or go on with the next byte.
    pub fn is_in_front(&self) -> bool
        ensures { IsTrue result ↔ IsInFront self.now }
    {
        matches!(self.progress, Progress::Front(_))
    }

    /// The lexical state after all bytes that it has read, and the tokens that may stand next. In front of a text, and
    /// after a fault, these are the state between tokens, and a value.
    pub fn standing(&self) -> (LexState, Expect)
        ensures { (now : CameTo) → self.now.outcome ≡ Some now → (result.0 ≡ state_behind now) × (result.1 ≡ expect_behind now) }
    {
        match (self.progress, self.stack.whole()) {
            (Progress::Going(state), Whole::Went { expect, .. }) => (state, expect),
            _ => (LexState::Gap, Expect::Value),
        }
    }

    /// Reads the bytes of a run after all bytes that it has read, where no byte order mark may stand among them. The
    /// run is over a text of its own, and its offsets are moved to where its bytes stand here. Fails only when out of
    /// memory, and from then on every slice and every run is.
    pub fn follow(&mut self, run: &OutcomeRun) -> Result<(), AllocError>
        requires behind { IsInFront self.old → ⊥ }
        requires depth { run.now.depth ≡ self.old.settings.depth }
        requires start { run.now.start ≡ 0 }
        requires fits { self.old.start + self.old.count + run.now.end < 2 ^ 64 }
        requires of { (more : List ℕ) × IsOutcomeRun more run.now }
        ensures settings { self.new.settings ≡ self.old.settings }
        ensures start { self.new.start ≡ self.old.start }
        ensures reads { OnOk result ((bytes more : List ℕ) → HasRead bytes self.old → IsOutcomeRun more run.now → HasRead (bytes ++ more) self.new) }
        ensures count { OnOk result (self.new.count ≡ self.old.count + run.now.end) }
        ensures err { OnErr result (HasFailed self.new) }
        ensures failed { HasFailed self.old → IsErr result }
    {
        reader_and_grammar();
        let base = self.start + self.count;
        self.count += run.span().end;
        let state = match self.progress {
            Progress::Going(state) => state,
            Progress::Stopped(_) => return Ok(()),
            Progress::TooDeep(_) => return Ok(()),
            Progress::Failed => return Err(AllocError),
            Progress::Front(_) => unreachable!(),
        };
        self.progress = Progress::Failed;
        self.progress = Reader::read_run(&mut self.stack, state, run, base)?;
        Ok(())
    }

    /// The verdict on the bytes that it has read, as a whole text, whatever names its objects have. When out of memory
    /// there is no verdict, and this says that the text is cut short.
    pub fn verdict(&self) -> Verdict
        ensures verdict { (bytes : List ℕ) → HasRead bytes self.now → JudgedBy self.now.settings self.now.start bytes result }
        ensures failed { HasFailed self.now → result ≡ Verdict.Refused Refusal.Truncated }
    {
        verdict_at(self.progress, self.stack.whole())
    }
}
