// The moves over tokens from the start of a text.

ghost use Rattle.std.specs.Prelude.{◌≡◌, ◌↔◌, ◌++◌, ◌+◌, ◌<◌, ◌≤◌, List, [], ◌∷◌, IsTrue, OnOk, OnErr, IfOk, false, length, reverse, slice_range};
ghost use Rattle.jx_reduce.specs.Table.{added};
ghost use Rattle.jx_reduce.specs.Read.{changed, then_by, step, read, went};
ghost use Rattle.jx_reduce.specs.Whole.{whole_of};
ghost use Rattle.jx_reduce.specs.KnownStack.{HasRead, IsFault, IsPartRead};
ghost use Rattle.jx_lex.specs.declared.alphabet.mark.Mark.{Mark};
ghost use Rattle.jx_lex.specs.declared.alphabet.state.LexState.TheVariants.{Gap};
ghost use Rattle.jx_lex.specs.Lex.{lex};
ghost use Rattle.jx_lex.specs.Lex as exits;
ghost use Rattle.jx_lex.specs.Seen.{SeesTrack};

use crate::stack::blocks::stretches;
use crate::stack::containers::Containers;
use crate::stack::open_containers::OpenContainers;
use crate::stack::pass::{may_pass, pass_tokens};
use crate::stack::watch::Listener;
use crate::table::expect::Expect;
use crate::table::holder::Holder;
use crate::table::moves::next;
use crate::table::whole::Whole;
use jx_lex::{Depth, Mark, MarkKind, TokenSink};
use std::alloc::{AllocError, Global};
use std::marker::Model;

#[derive(Clone, Copy)]
enum Fault {
    Stopped(usize),
    TooDeep(usize),
}

/// The known stack of a text that is read from its start, where a value is expected and nothing is open. Applies the
/// moves at each token to the open containers (RFC 8259, sections 2 to 5). Up to 64 open containers take no memory.
#[derive(Drop)]
pub struct KnownStack {
    depth: Depth,
    expect: Expect,
    open: OpenContainers,
    fault: Option<Fault>,
}

impl Model for KnownStack {
    ghost use Rattle.jx_reduce.specs.KnownStack.{Known};

    ghost Value = { Known };

    ghost use Rattle.jx_reduce.specs.inside.KnownInside.{known_of, IsLawful};

    ghost view = { known_of };

    ghost invariant = { IsLawful };
}

impl KnownStack {
    ghost use Rattle.jx_reduce.specs.inside.KnownInside.{fault_reading};

    /// The stack at the start of a text. It takes no memory.
    pub fn new(alloc: Global, depth: Depth) -> KnownStack
        ensures depth { result.depth ≡ depth }
        ensures reads { HasRead [] result }
    {
        KnownStack {
            depth,
            expect: Expect::Value,
            open: OpenContainers::new(alloc),
            fault: None,
        }
    }

    /// The number of containers that may stand open at once.
    pub fn depth(&self) -> Depth
        ensures { result ≡ self.now.depth }
    {
        self.depth
    }

    /// Whether a fault was met. After it no token changes anything.
    #[inline(always)]
    pub fn is_done(&self) -> bool
        ensures { IsTrue result ↔ IsFault self.now.reading }
    {
        self.fault.is_some()
    }

    /// The outcome of the tokens so far.
    pub fn whole(&self) -> Whole
        ensures { result ≡ whole_of self.now.reading }
    {
        match self.fault {
            Some(Fault::Stopped(at)) => Whole::Stopped(at),
            Some(Fault::TooDeep(at)) => Whole::TooDeep(at),
            None => {
                // Shows the proof that the number of open containers is within the depth.
                let _ = self.depth.containers();
                Whole::Went {
                    expect: self.expect,
                    open: self.open.len(),
                }
            }
        }
    }

    /// Puts the stack at the start of a text again. The memory stays, and a fault that was met is forgotten.
    pub fn reset(&mut self)
        ensures depth { self.new.depth ≡ self.old.depth }
        ensures reads { HasRead [] self.new }
    {
        self.expect = Expect::Value;
        self.open.clear();
        self.fault = None;
    }

    /// Takes out what may stand next and the open containers, outermost first, where no fault was met. What the stack
    /// stands for after that is not said.
    pub fn take_standing(&mut self) -> Result<(Expect, Vec<Holder>), AllocError>
        requires going { IsFault self.old.reading → ⊥ }
        ensures depth { self.new.depth ≡ self.old.depth }
        ensures standing { IfOk result (λ s. self.old.reading ≡ went s.0 (reverse s.1.items)) }
        ensures within { IfOk result (λ s. length s.1.items ≤ self.old.depth) }
    {
        // Shows the proof that the number of open containers is within the depth.
        let _ = self.depth.containers();
        let expect = self.expect;
        let holders = self.open.take_all()?;
        Ok((expect, holders))
    }

    /// Stands, from now on, where this may stand next and these containers are open, outermost first. They are refused,
    /// as when out of memory, where one of them is `Bottom`.
    pub fn stand(&mut self, expect: Expect, holders: &[Holder]) -> Result<(), AllocError>
        requires within { length holders.now ≤ self.old.depth }
        ensures depth { self.new.depth ≡ self.old.depth }
        ensures standing { OnOk result (self.new.reading ≡ went expect (reverse holders.now)) }
    {
        self.fault = None;
        self.expect = expect;
        self.open.clear();
        self.open.push_all(holders)
    }

    /// Ends the reading at this fault, unless it ended at one before.
    #[cold]
    fn halt(&mut self, fault: Fault)
        ensures depth { self.new.depth ≡ self.old.depth }
        ensures reads { self.new.reading ≡ then_by (λ _ _. fault_reading fault) self.old.reading }
    {
        if self.fault.is_none() {
            self.expect = Expect::After;
            self.open.clear();
            self.fault = Some(fault);
        }
    }

    /// Opens one more container, or ends the reading where that is more than the depth.
    #[inline(always)]
    fn enter(&mut self, holder: Holder, expect: Expect, at: usize) -> Result<(), AllocError>
        requires holder { holder ≡ Holder.Bottom → ⊥ }
        requires going { IsFault self.old.reading → ⊥ }
        ensures depth { self.new.depth ≡ self.old.depth }
        ensures ok { OnOk result (self.new.reading ≡ then_by (λ _ s. changed self.old.depth at (added holder) expect s) self.old.reading) }
        ensures err { OnErr result (self.new ≡ self.old) }
    {
        if self.open.len() < self.depth.containers() as usize {
            self.open.push(holder)?;
            self.expect = expect;
        } else {
            self.halt(Fault::TooDeep(at));
        }
        Ok(())
    }

    /// The move at one token.
    #[inline(always)]
    fn step(&mut self, mark: Mark) -> Result<(), AllocError>
        ensures depth { self.new.depth ≡ self.old.depth }
        ensures reads { OnOk result (self.new.reading ≡ step self.old.depth mark self.old.reading) }
        ensures err { OnErr result (self.new ≡ self.old) }
    {
        let Some(expect) = next(mark.kind, self.expect, self.open.top()) else {
            self.halt(Fault::Stopped(mark.at));
            return Ok(());
        };
        match mark.kind {
            MarkKind::OpenArray => return self.enter(Holder::Array, expect, mark.at),
            MarkKind::OpenObject => return self.enter(Holder::Object, expect, mark.at),
            MarkKind::CloseArray | MarkKind::CloseObject => self.open.pop(),
            _ => {}
        }
        self.expect = expect;
        Ok(())
    }

    /// Pushes one more token. It fails only when out of memory, where one more container takes one more word, and then
    /// nothing changes.
    #[inline(always)]
    pub fn push(&mut self, mark: Mark) -> Result<(), AllocError>
        ensures depth { self.new.depth ≡ self.old.depth }
        ensures reads { OnOk result (self.new.reading ≡ step self.old.depth mark self.old.reading) }
        ensures marks { OnOk result ((before : List Mark) → HasRead before self.old → HasRead (before ++ mark ∷ []) self.new) }
        ensures err { OnErr result (self.new ≡ self.old) }
    {
        self.step(mark)?;
        Ok(())
    }

    /// Reads whole tokens of a text from between tokens on, where a value may stand next, as many as are ordinary.
    /// Gives the offset after them, which is between tokens too.
    #[inline(always)]
    pub fn pass(&mut self, text: &[u8], from: usize, to: usize) -> usize
        requires { (from ≤ to) × (to ≤ length text.now) }
        ensures bounds { (from ≤ result) × (result ≤ to) }
        ensures depth { self.new.depth ≡ self.old.depth }
        ensures exit { (lex Gap from (slice_range text.now from result)).exit ≡ exits.state Gap }
        ensures reads { self.new.reading ≡ read self.old.depth (lex Gap from (slice_range text.now from result)).marks self.old.reading }
        ensures marks { (before : List Mark) → HasRead before self.old → HasRead (before ++ (lex Gap from (slice_range text.now from result)).marks) self.new }
    {
        if self.fault.is_some() {
            return from;
        }
        let most = self.depth.containers() as usize;
        let (at, expect) = pass_tokens(text, from, to, self.expect, &mut self.open, most);
        self.expect = expect;
        at
    }

    /// Reads whole tokens as `pass` does, and hands each to a sink in one call, or many of them by their counts where it takes these.
    /// Once the sink has failed, it takes nothing more.
    #[inline(always)]
    pub fn pass_into<K: TokenSink + Drop>(
        &mut self,
        text: &[u8],
        from: usize,
        to: usize,
        listener: &mut Listener<K>,
    ) -> usize
        requires bounds { (from ≤ to) × (to ≤ length text.now) }
        requires fresh { listener.old.has_failed ≡ false }
        requires turn { K.awaits listener.old.sink false }
        ensures bounds { (from ≤ result) × (result ≤ to) }
        ensures depth { self.new.depth ≡ self.old.depth }
        ensures exit { (lex Gap from (slice_range text.now from result)).exit ≡ exits.state Gap }
        ensures reads { self.new.reading ≡ read self.old.depth (lex Gap from (slice_range text.now from result)).marks self.old.reading }
        ensures marks { (before : List Mark) → HasRead before self.old → HasRead (before ++ (lex Gap from (slice_range text.now from result)).marks) self.new }
        ensures going { (IsFault self.old.reading → ⊥) → IsFault self.new.reading → ⊥ }
        ensures seen { listener.new.has_failed ≡ false → SeesTrack (K.has_seen listener.old.sink) (K.has_seen listener.new.sink) (lex Gap from (slice_range text.now from result)) }
        ensures turn { listener.new.has_failed ≡ false → K.awaits listener.new.sink false }
    {
        if self.fault.is_some() || !may_pass(text, from, to, self.expect) {
            return from;
        }
        let most = self.depth.containers() as usize;
        let (at, expect) = stretches(text, from, to, self.expect, &mut self.open, most, listener);
        self.expect = expect;
        at
    }

    /// Takes one token after another, and stops once the reading is done: the reading is that of all of them.
    fn step_all(&mut self, marks: &[Mark]) -> Result<(), AllocError>
        ensures depth { self.new.depth ≡ self.old.depth }
        ensures reads { OnOk result (self.new.reading ≡ read self.old.depth marks.now self.old.reading) }
        ensures err { OnErr result (IsPartRead self.old self.new marks.now) }
    {
        for mark in marks {
            if self.is_done() {
                break;
            }
            self.step(*mark)?;
        }
        Ok(())
    }

    /// Pushes one token after another. It fails only where `push` of one of them does: the tokens before that one were
    /// taken.
    pub fn extend(&mut self, marks: &[Mark]) -> Result<(), AllocError>
        ensures depth { self.new.depth ≡ self.old.depth }
        ensures reads { OnOk result (self.new.reading ≡ read self.old.depth marks.now self.old.reading) }
        ensures marks { OnOk result ((before : List Mark) → HasRead before self.old → HasRead (before ++ marks.now) self.new) }
        ensures err { OnErr result (IsPartRead self.old self.new marks.now) }
    {
        self.step_all(marks)?;
        Ok(())
    }
}
