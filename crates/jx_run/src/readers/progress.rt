// How far the reading of a text came, and how it goes on over a stack that knows all open containers.
ghost use Rattle.std.specs.Prelude.{◌≡◌, ◌+◌, ◌<◌, ◌^◌, ◌++◌, ◌≤◌, ℕ, Bool, List, [], IfOk, IfSome, IsErr, IsNone, OnOk, length, slice_range, take};
ghost use Rattle.jx_lex.specs.declared.alphabet.mark.Mark.{Mark};
ghost use Rattle.jx_lex.specs.declared.alphabet.state.LexState.TheVariants.{Gap};
ghost use Rattle.jx_lex.specs.Lex.{lex};
ghost use Rattle.jx_lex.specs.Seen.{GoesTo, SeesTrack, WantsNoMore};
ghost use Rattle.jx_lex.specs.Exit.{exit_of};
ghost use Rattle.jx_reduce.specs.KnownStack.{Known, HasRead as StackHasRead};
ghost use Rattle.jx_reduce.specs.Read.{Reading, read as read_marks};
ghost use Rattle.jx_reduce.specs.Whole.{whole_of};
ghost use Rattle.jx_reduce.specs.KnownStack.{HasSeen};
ghost use Rattle.jx_run.specs.Reader.{read_by};
ghost use Rattle.jx_run.specs.ReaderInside.{GoesOn, IsCut, IsOfUse, IsReadTo, outcome_at, settled};
ghost use Rattle.jx_run.specs.Settings.{JudgedBy};
ghost use Rattle.jx_run.specs.declared.texts.settings.FrontMark.{FrontMark};
ghost use Rattle.jx_run.specs.declared.texts.settings.Settings.{Settings};

use crate::laws::reader_and_grammar;
use crate::runs::outcome_run::verdict_from;
use crate::texts::byte_order_mark::count_agreed;
use crate::texts::settings::FrontMark;
use crate::texts::verdict::{Refusal, Verdict};
use jx_lex::{LexExit, LexState, TokenSink, scan};
use jx_reduce::{KnownStack, Whole};
use std::alloc::AllocError;

/// How far the reading of a text came.
#[derive(Clone, Copy)]
pub enum Progress {
    /// So many bytes were read, fewer than three, and a byte order mark that they begin may yet be ignored.
    Front(usize),
    /// No fault so far, and the lexical state.
    Going(LexState),
    Stopped(usize),
    TooDeep(usize),
    /// Out of memory.
    Failed,
}

/// The progress at which the reading of a text begins.
pub fn progress_at_start(mark: FrontMark) -> Progress
    ensures read { (settings : Settings) (start : ℕ) (stack : Known) → settings.mark ≡ mark → stack.depth ≡ settings.depth → StackHasRead [] stack
        → IsReadTo settings start [] result stack }
    ensures cut { IsCut result }
{
    match mark {
        FrontMark::Refused => Progress::Going(LexState::Gap),
        FrontMark::Ignored => Progress::Front(0),
    }
}

/// A sink of tokens that knows all open containers of a text, and so what its tokens have led to.
pub trait OpenStack: TokenSink {
    ghost known: { Self → Known };

    /// The outcome of the tokens so far.
    fn whole(&self) -> Whole
        ensures { result ≡ whole_of (known self.now).reading };

    ghost sees: { (stack : Self) (marks : List Mark) (ends : List ℕ) → Self.has_seen stack marks ends → HasSeen marks ends (known stack) };

    ghost is_seen: { (stack : Self) (marks : List Mark) (ends : List ℕ) → HasSeen marks ends (known stack) → Self.has_seen stack marks ends };

    // It takes token starts and ends in any order.
    ghost is_free: { (stack : Self) (inside : Bool) → Self.awaits stack inside };
}

impl OpenStack for KnownStack {
    ghost known = { λ stack. stack };

    #[inline(always)]
    fn whole(&self) -> Whole {
        self.whole()
    }

    ghost sees = { λ stack marks ends seen. seen };

    ghost is_seen = { λ stack marks ends seen. seen };

    ghost is_free = { λ _ _. tt };
}

/// Where a scan over a slice that stands from `base` on has led.
pub(crate) fn settled(base: usize, exit: Option<LexExit>, whole: Whole) -> Progress
    ensures value { result ≡ settled base exit whole }
    ensures cut { IsCut result }
{
    match whole {
        Whole::Stopped(at) => Progress::Stopped(base.saturating_add(at)),
        Whole::TooDeep(at) => Progress::TooDeep(base.saturating_add(at)),
        Whole::Went { .. } => match exit {
            Some(LexExit::State(state)) => Progress::Going(state),
            Some(LexExit::Fault(at)) => Progress::Stopped(base.saturating_add(at)),
            None => Progress::Failed,
        },
    }
}

/// Lets the stack read whole tokens from between tokens on, where a slice begins. `scan` has a loop of its own for them.
#[inline(never)]
fn passed<S: OpenStack>(stack: &mut S, slice: &[u8], to: usize) -> Result<usize, AllocError>
    requires { to ≤ length slice.now }
    ensures bounds { IfOk result (λ end. end ≤ to) }
    ensures read { IfOk result (λ end. GoesTo (S.has_seen stack.old) (S.has_seen stack.new) (lex Gap 0 (slice_range slice.now 0 end)) Gap) }
{
    let end = stack.pass(slice, 0, to)?;
    Ok(end)
}

/// Reads the bytes of a slice before `to` from between tokens on, and gives where that ends; none where the stack
/// wanted no more before. Mostly the stack reads a short slice by itself, and no scan begins. Fails only when out of
/// memory.
#[inline(always)]
pub fn read_between<S: OpenStack>(
    stack: &mut S,
    slice: &[u8],
    to: usize,
) -> Result<Option<LexExit>, AllocError>
    requires { to ≤ length slice.now }
    ensures seen { OnOk result (SeesTrack (S.has_seen stack.old) (S.has_seen stack.new) (lex Gap 0 (slice_range slice.now 0 to))) }
    ensures exit { IfOk result (λ exit. IfSome exit (λ e. exit_of e ≡ (lex Gap 0 (slice_range slice.now 0 to)).exit)) }
    ensures done { IfOk result (λ exit. IsNone exit → WantsNoMore (S.has_seen stack.new)) }
{
    let at = passed(stack, slice, to)?;
    if at == to {
        return Ok(Some(LexExit::State(LexState::Gap)));
    }
    let exit = scan(stack, LexState::Gap, slice, at, to)?;
    Ok(exit)
}

/// Reads the bytes of a slice before `to`, and gives where that ends; none where the stack wanted no more before.
#[inline(always)]
fn read_to<S: OpenStack>(
    stack: &mut S,
    state: LexState,
    slice: &[u8],
    to: usize,
) -> Result<Option<LexExit>, AllocError>
    requires { to ≤ length slice.now }
    ensures seen { OnOk result (SeesTrack (S.has_seen stack.old) (S.has_seen stack.new) (lex state 0 (slice_range slice.now 0 to))) }
    ensures exit { IfOk result (λ exit. IfSome exit (λ e. exit_of e ≡ (lex state 0 (slice_range slice.now 0 to)).exit)) }
    ensures done { IfOk result (λ exit. IsNone exit → WantsNoMore (S.has_seen stack.new)) }
{
    match state {
        LexState::Gap => read_between(stack, slice, to),
        _ => scan(stack, state, slice, 0, to),
    }
}

/// Reads the bytes of a slice before `to`, which stand from `base` on.
fn read_slice<S: OpenStack>(
    stack: &mut S,
    state: LexState,
    slice: &[u8],
    to: usize,
    base: usize,
) -> Result<Progress, AllocError>
    requires { to ≤ length slice.now }
    ensures cut { IfOk result IsCut }
    ensures goes_on { IfOk result (λ progress. (marks : List Mark) → StackHasRead marks (S.known stack.old)
        → GoesOn (S.known stack.old) (lex state 0 (take to slice.now)) (read_marks (S.known stack.old).depth (lex state 0 (take to slice.now)).marks (S.known stack.old).reading) base progress (S.known stack.new)) }
{
    let exit = read_to(stack, state, slice, to)?;
    Ok(settled(base, exit, stack.whole()))
}

/// Reads a slice that stands from `base` on.
fn read_all<S: OpenStack>(
    stack: &mut S,
    state: LexState,
    slice: &[u8],
    base: usize,
) -> Result<Progress, AllocError>
    ensures cut { IfOk result IsCut }
    ensures goes_on { IfOk result (λ progress. (marks : List Mark) → StackHasRead marks (S.known stack.old)
        → GoesOn (S.known stack.old) (lex state 0 slice.now) (read_marks (S.known stack.old).depth (lex state 0 slice.now).marks (S.known stack.old).reading) base progress (S.known stack.new)) }
{
    read_slice(stack, state, slice, slice.len(), base)
}

/// Reads a slice after so many bytes of a byte order mark.
#[cold]
fn read_front<S: OpenStack>(
    stack: &mut S,
    before: usize,
    slice: &[u8],
    base: usize,
) -> Result<Progress, AllocError>
    requires cut { before < 3 }
    requires fits { base + length slice.now < 2 ^ 64 }
    ensures cut { IfOk result IsCut }
    ensures of_use { IfOk result (λ next. (mark : FrontMark) (depth : ℕ) → IsOfUse (Progress.Front before) mark depth (S.known stack.old) → IsOfUse next mark depth (S.known stack.new)) }
    ensures reads { IfOk result (λ next. (settings : Settings) (start : ℕ) (bytes : List ℕ) → base ≡ start + length bytes
        → IsReadTo settings start bytes (Progress.Front before) (S.known stack.old) → IsReadTo settings start (bytes ++ slice.now) next (S.known stack.new)) }
{
    reader_and_grammar();
    let count = count_agreed(slice, before);
    let more = count - before;
    if count == 3 {
        return read_all(stack, LexState::Gap, &slice[more..slice.len()], base + more);
    }
    if more == slice.len() {
        return Ok(Progress::Front(count));
    }
    if count == 0 {
        return read_all(stack, LexState::Gap, slice, base);
    }
    Ok(Progress::Stopped(base + more))
}

/// Reads the bytes of a slice before `to` after all bytes that were read; they stand from `base` on. Those after are
/// only room for a reader that looks at many bytes at a time: nothing depends on them. After a fault no byte is looked
/// at. Fails only when out of memory, and then the stack is of no more use.
#[inline]
pub fn read_beginning<S: OpenStack>(
    stack: &mut S,
    progress: Progress,
    slice: &[u8],
    to: usize,
    base: usize,
) -> Result<Progress, AllocError>
    requires cut { IsCut progress }
    requires within { to ≤ length slice.now }
    requires fits { base + to < 2 ^ 64 }
    ensures cut { IfOk result IsCut }
    ensures of_use { IfOk result (λ next. (mark : FrontMark) (depth : ℕ) → IsOfUse progress mark depth (S.known stack.old) → IsOfUse next mark depth (S.known stack.new)) }
    ensures reads { IfOk result (λ next. (settings : Settings) (start : ℕ) (bytes : List ℕ) → base ≡ start + length bytes
        → IsReadTo settings start bytes progress (S.known stack.old) → IsReadTo settings start (bytes ++ take to slice.now) next (S.known stack.new)) }
    ensures failed { progress ≡ Progress.Failed → IsErr result }
{
    reader_and_grammar();
    match progress {
        Progress::Front(before) => read_front(stack, before, &slice[..to], base),
        Progress::Going(state) => read_slice(stack, state, slice, to, base),
        Progress::Stopped(_) => Ok(progress),
        Progress::TooDeep(_) => Ok(progress),
        Progress::Failed => Err(AllocError),
    }
}

/// Reads a slice after all bytes that were read; it stands from `base` on. After a fault no byte is looked at. Fails
/// only when out of memory, and then the stack is of no more use.
#[inline]
pub fn read_on<S: OpenStack>(
    stack: &mut S,
    progress: Progress,
    slice: &[u8],
    base: usize,
) -> Result<Progress, AllocError>
    requires cut { IsCut progress }
    requires fits { base + length slice.now < 2 ^ 64 }
    ensures cut { IfOk result IsCut }
    ensures of_use { IfOk result (λ next. (mark : FrontMark) (depth : ℕ) → IsOfUse progress mark depth (S.known stack.old) → IsOfUse next mark depth (S.known stack.new)) }
    ensures reads { IfOk result (λ next. (settings : Settings) (start : ℕ) (bytes : List ℕ) → base ≡ start + length bytes
        → IsReadTo settings start bytes progress (S.known stack.old) → IsReadTo settings start (bytes ++ slice.now) next (S.known stack.new)) }
    ensures failed { progress ≡ Progress.Failed → IsErr result }
{
    read_beginning(stack, progress, slice, slice.len(), base)
}

/// The verdict on the bytes that were read, as a whole text, by what their tokens have led to. When out of memory there
/// is no verdict, and this says that the text is cut short.
pub fn verdict_at(progress: Progress, whole: Whole) -> Verdict
    ensures verdict { (settings : Settings) (start : ℕ) (bytes : List ℕ) (reading : Reading) → whole ≡ whole_of reading
        → outcome_at progress reading ≡ Some (read_by settings.mark settings.depth start bytes) → JudgedBy settings start bytes result }
    ensures failed { progress ≡ Progress.Failed → result ≡ Verdict.Refused Refusal.Truncated }
{
    reader_and_grammar();
    match progress {
        Progress::Going(state) => verdict_from(LexExit::State(state), whole),
        Progress::Stopped(at) => Verdict::Refused(Refusal::Stopped { at }),
        Progress::TooDeep(at) => Verdict::Refused(Refusal::TooDeep { at }),
        Progress::Front(_) | Progress::Failed => Verdict::Refused(Refusal::Truncated),
    }
}
