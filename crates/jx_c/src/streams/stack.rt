// The moves over token starts from the start of a text, in a struct of fixed size that C holds.
//
// Each of its fields may hold any number, since C may hand anything over: what they mean is said for all of them.
// So it is no `KnownStack` over other words, whose fields keep an invariant; but the same loops read over both.
ghost use Rattle.std.specs.Prelude.{◌≡◌, ◌+◌, ◌-◌, ◌*◌, ◌%◌, ◌<◌, ◌↔◌, ◌++◌, ◌∷◌, [], ℕ, List, IsTrue, length};
ghost use Rattle.jx_lex.specs.declared.alphabet.mark.Mark.{Mark};
ghost use Rattle.jx_reduce.specs.Bits.{holder_of};
ghost use Rattle.jx_reduce.specs.KnownStack.{HasRead, IsFault};
ghost use Rattle.jx_reduce.specs.Read.{changed, step, top, without_top};
ghost use Rattle.jx_reduce.specs.Table.{added};
ghost use Rattle.jx_reduce.specs.KnownStack.{HasSeen};
ghost use Rattle.jx_c.specs.Containers.{holders, inner_count};
ghost use Rattle.jx_c.specs.Stack.{code_of, stage_in, holders_of, known_of};

use jx_lex::{Mark, MarkKind, TokenSink};
use jx_reduce::{Containers, Expect, Holder, Innermost, Whole, next, pass_tokens};
use jx_run::{OpenStack, readings_after_a_fault};
use std::alloc::AllocError;

/// Half of what a word counts to.
const HALF: u64 = 0x8000_0000_0000_0000;

/// The stage after a token start that the table of moves does not allow.
const STOPPED: u32 = 6;

/// The stage after a token start that opens one container more than the depth.
const TOO_DEEP: u32 = 7;

/// The expectation, or which fault was met.
#[derive(Clone, Copy)]
pub enum Stage {
    Going(Expect),
    Stopped,
    TooDeep,
}

/// Where token starts lead from the start of a text (RFC 8259, sections 2 to 5). The open containers are bits, an array 0 and
/// an object 1: words of 64 of them, and the innermost word, which has one at least where any is open.
#[repr(C)]
#[derive(Drop)]
pub struct JxStack {
    /// The innermost containers, the innermost lowest.
    pub bits: u64,
    /// The offset of the fault.
    pub at: usize,
    /// The expectation, from 0 to 5; 6 after a token start that is not allowed, and more after one that is too deep.
    pub stage: u32,
    /// How many containers may stand open at once.
    pub depth: u16,
    /// How many containers are open.
    pub count: u16,
    /// The full words around the innermost one, the outermost first.
    pub words: [u64; 1024],
}

/// The bit of a container.
#[inline(always)]
fn bit_of(holder: Holder) -> u64
    requires { holder ≡ Holder.Bottom → ⊥ }
    ensures within { result < 2 }
    ensures holder { holder_of result ≡ holder }
{
    match holder {
        Holder::Array => 0,
        Holder::Object => 1,
        Holder::Bottom => unreachable!(),
    }
}

/// The number of what may stand next.
#[inline(always)]
fn code_of(expect: Expect) -> u32
    ensures { result ≡ code_of expect }
{
    match expect {
        Expect::Value => 0,
        Expect::ArrayFirst => 1,
        Expect::ObjectFirst => 2,
        Expect::Name => 3,
        Expect::Colon => 4,
        Expect::After => 5,
    }
}

/// The stage of a number.
#[inline(always)]
fn stage_of(code: u32) -> Stage
    ensures { result ≡ stage_in code }
{
    if code == 0 {
        Stage::Going(Expect::Value)
    } else if code == 1 {
        Stage::Going(Expect::ArrayFirst)
    } else if code == 2 {
        Stage::Going(Expect::ObjectFirst)
    } else if code == 3 {
        Stage::Going(Expect::Name)
    } else if code == 4 {
        Stage::Going(Expect::Colon)
    } else if code == 5 {
        Stage::Going(Expect::After)
    } else if code == STOPPED {
        Stage::Stopped
    } else {
        Stage::TooDeep
    }
}

impl JxStack {
    /// A stack at the start of a text.
    pub fn new(depth: u16) -> JxStack
        ensures depth { result.depth ≡ depth }
        ensures reads { HasRead [] (known_of result) }
    {
        JxStack {
            bits: 0,
            at: 0,
            stage: 0,
            depth,
            count: 0,
            words: [0; 1024],
        }
    }

    /// The start of a text: nothing is open, and a value is expected.
    pub fn start(&mut self, depth: u16)
        ensures depth { self.new.depth ≡ depth }
        ensures reads { HasRead [] (known_of self.new) }
    {
        self.bits = 0;
        self.at = 0;
        self.stage = 0;
        self.depth = depth;
        self.count = 0;
    }

    /// The full words, and those behind them.
    #[inline(always)]
    fn words(&self) -> &[u64]
        ensures same { result.now ≡ self.now.words }
        ensures all { length self.now.words ≡ 1024 }
    {
        &self.words
    }

    /// How many containers are open.
    #[inline(always)]
    fn open_count(&self) -> usize
        ensures count { result ≡ self.now.count }
        ensures long { result ≡ length (holders_of self.now) }
    {
        let _ = self.words();
        self.count as usize
    }

    /// How many containers the innermost word has.
    #[inline(always)]
    fn inner_count(&self) -> u16
        ensures value { result ≡ inner_count self.now.count }
        ensures few { self.now.count < 65536 }
    {
        if self.count == 0 {
            return 0;
        }
        (self.count - 1) % 64 + 1
    }

    /// The innermost container.
    #[inline(always)]
    fn top(&self) -> Holder
        ensures { result ≡ top (holders_of self.now) }
    {
        if self.count == 0 {
            Holder::Bottom
        } else if self.bits % 2 == 0 {
            Holder::Array
        } else {
            Holder::Object
        }
    }

    /// Puts the innermost word among the full ones, where it is full: so one container more has its place in a word.
    #[inline(always)]
    fn keep_full_word(&mut self)
        requires { self.old.count < 65535 }
        ensures depth { self.new.depth ≡ self.old.depth }
        ensures count { self.new.count ≡ self.old.count }
        ensures bits { self.new.bits ≡ self.old.bits }
        ensures more { (x : ℕ) → x < 2 → holders (self.old.count + 1) (self.old.bits % HALF * 2 + x) self.new.words ≡ holder_of x ∷ holders_of self.old }
    {
        let _ = self.words();
        if self.inner_count() == 64 {
            self.words[(self.count / 64 - 1) as usize] = self.bits;
        }
    }

    /// Opens a container.
    #[inline(always)]
    fn open(&mut self, holder: Holder)
        requires holder { holder ≡ Holder.Bottom → ⊥ }
        requires room { self.old.count < 65535 }
        ensures depth { self.new.depth ≡ self.old.depth }
        ensures holders { holders_of self.new ≡ holder ∷ holders_of self.old }
    {
        self.keep_full_word();
        self.bits = self.bits % HALF * 2 + bit_of(holder);
        self.count += 1;
    }

    /// The innermost word once the innermost container is closed: the one around it where no other container is in it.
    #[inline(always)]
    fn bits_less(&self) -> u64
        requires { 0 < self.now.count }
        ensures { holders (self.now.count - 1) result self.now.words ≡ without_top (holders_of self.now) }
    {
        let words = self.words();
        if self.count % 64 != 1 {
            self.bits / 2
        } else if self.count == 1 {
            0
        } else {
            words[(self.count / 64 - 1) as usize]
        }
    }

    /// Closes the innermost container, if there is one.
    #[inline(always)]
    fn close(&mut self)
        ensures depth { self.new.depth ≡ self.old.depth }
        ensures holders { holders_of self.new ≡ without_top (holders_of self.old) }
    {
        if self.count > 0 {
            self.bits = self.bits_less();
            self.count -= 1;
        }
    }

    /// Whether a fault was met.
    #[inline(always)]
    pub fn is_faulty(&self) -> bool
        ensures { IsTrue result ↔ IsFault (known_of self.now).reading }
    {
        match stage_of(self.stage) {
            Stage::Going(_) => false,
            Stage::Stopped => true,
            Stage::TooDeep => true,
        }
    }

    /// Opens a container where the depth allows it; else the token start is too deep.
    #[inline(always)]
    fn enter(&mut self, holder: Holder, expect: Expect, at: usize)
        requires { holder ≡ Holder.Bottom → ⊥ }
        ensures depth { self.new.depth ≡ self.old.depth }
        ensures reads { (known_of self.new).reading ≡ changed self.old.depth at (added holder) expect (holders_of self.old) }
    {
        if self.open_count() < self.depth as usize {
            self.open(holder);
            self.stage = code_of(expect);
        } else {
            self.stage = TOO_DEEP;
            self.at = at;
        }
    }

    /// The move at one token start. After a fault no token start changes anything.
    #[inline(always)]
    fn step(&mut self, mark: Mark)
        ensures depth { self.new.depth ≡ self.old.depth }
        ensures reads { (known_of self.new).reading ≡ step self.old.depth mark (known_of self.old).reading }
    {
        let Stage::Going(expect) = stage_of(self.stage) else {
            return;
        };
        let Some(then) = next(mark.kind, expect, self.top()) else {
            self.stage = STOPPED;
            self.at = mark.at;
            return;
        };
        match mark.kind {
            MarkKind::OpenArray => return self.enter(Holder::Array, then, mark.at),
            MarkKind::OpenObject => return self.enter(Holder::Object, then, mark.at),
            MarkKind::CloseArray | MarkKind::CloseObject => self.close(),
            _ => {}
        }
        self.stage = code_of(then);
    }

    /// Takes one more token start.
    #[inline(always)]
    fn take(&mut self, mark: Mark)
        ensures depth { self.new.depth ≡ self.old.depth }
        ensures marks { (before : List Mark) → HasRead before (known_of self.old) → HasRead (before ++ mark ∷ []) (known_of self.new) }
    {
        self.step(mark);
    }
}

// The words stand in the struct, so nothing is allocated: `push` fails only where `count` is at its greatest number.
impl Containers for JxStack {
    ghost list = { λ stack. holders_of stack };

    #[inline(always)]
    fn top(&self) -> Holder {
        self.top()
    }

    #[inline(always)]
    fn len(&self) -> usize {
        self.open_count()
    }

    #[inline(always)]
    fn push(&mut self, holder: Holder) -> Result<(), AllocError> {
        if self.count == u16::MAX {
            return Err(AllocError);
        }
        self.open(holder);
        Ok(())
    }

    #[inline(always)]
    fn pop(&mut self) {
        self.close();
    }

    #[inline(always)]
    fn inner(&self) -> Option<Innermost> {
        let _ = self.words();
        let count = self.inner_count();
        if count == 0 {
            return None;
        }
        Some(Innermost {
            bits: self.bits & (u64::MAX >> (64 - count)),
            count: count as usize,
        })
    }

    #[inline(always)]
    fn put_inner(&mut self, inner: Innermost) -> bool {
        let _ = self.words();
        let around = self.count - self.inner_count();
        if inner.count > (u16::MAX - around) as usize {
            return false;
        }
        self.bits = inner.bits;
        self.count = around + inner.count as u16;
        true
    }
}

impl TokenSink for JxStack {
    ghost has_seen = { λ stack marks ends. HasSeen marks ends (known_of stack) };

    ghost awaits = { λ _ _. Unit {0} };

    #[inline(always)]
    fn begin(&mut self, mark: Mark) -> Result<(), AllocError> {
        self.take(mark);
        Ok(())
    }

    #[inline(always)]
    fn end(&mut self, _at: usize) -> Result<(), AllocError> {
        Ok(())
    }

    #[inline(always)]
    fn is_done(&self) -> bool {
        readings_after_a_fault();
        self.is_faulty()
    }

    // Only numbers that C wrote have more containers open than the depth: no whole token is read over those.
    #[inline(always)]
    fn pass(&mut self, text: &[u8], from: usize, to: usize) -> Result<usize, AllocError> {
        let Stage::Going(expect) = stage_of(self.stage) else {
            return Ok(from);
        };
        let depth = self.depth;
        if self.open_count() > depth as usize {
            return Ok(from);
        }
        let (at, then) = pass_tokens(text, from, to, expect, self, depth as usize);
        self.depth = depth;
        self.stage = code_of(then);
        Ok(at)
    }
}

impl OpenStack for JxStack {
    ghost known = { λ stack. known_of stack };

    ghost sees = { λ stack marks ends seen. seen };

    ghost is_seen = { λ stack marks ends seen. seen };

    ghost is_free = { λ _ _. tt };

    fn whole(&self) -> Whole {
        match stage_of(self.stage) {
            Stage::Going(expect) => Whole::Went {
                expect,
                open: self.open_count(),
            },
            Stage::Stopped => Whole::Stopped(self.at),
            Stage::TooDeep => Whole::TooDeep(self.at),
        }
    }
}
