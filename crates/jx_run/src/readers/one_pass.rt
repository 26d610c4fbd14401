// A text that is read once, from its start to its end, while something else is kept of its tokens.
ghost use Rattle.std.specs.Prelude.{◌≡◌, ◌≤◌, ◌<◌, ℕ, List, [], ◌++◌, length, slice_range, IfOk, IfSome, IsNone, OnOk, false};
ghost use Rattle.jx_lex.specs.declared.alphabet.state.LexState.TheVariants.{Gap};
ghost use Rattle.jx_lex.specs.Lex.{lex};
ghost use Rattle.jx_lex.specs.Seen.{SeesTrack, WantsNoMore};
ghost use Rattle.jx_lex.specs.Exit.{exit_of};
ghost use Rattle.jx_run.specs.Verdict.{Judged};
ghost use Rattle.jx_run.specs.declared.texts.verdict.Verdict.TheVariants.{Accepted};

use crate::laws::reader_and_grammar;
use crate::runs::outcome_run::verdict_from;
use crate::texts::verdict::Verdict;
use jx_lex::{Depth, LexExit, LexState, Mark, TokenSink, lex_of_two_parts, scan};
use jx_reduce::{KnownStack, Listener};
use std::alloc::{AllocError, Global};

/// The known stack, and a sink that is given the same. Where the stack meets a fault, both are of no more use.
#[derive(Drop)]
struct Beside<K: Drop> {
    stack: KnownStack,
    other: Listener<K>,
}

impl<K: TokenSink + Drop> TokenSink for Beside<K> {
    ghost use Rattle.jx_run.specs.inside.Beside.{BothHaveSeen};

    ghost has_seen = { λ both marks ends. BothHaveSeen (K.has_seen both.other.sink) marks ends both.stack };

    ghost awaits = { λ both inside. K.awaits both.other.sink inside };

    #[inline(always)]
    fn begin(&mut self, mark: Mark) -> Result<(), AllocError> {
        self.stack.push(mark)?;
        self.other.sink.begin(mark)?;
        Ok(())
    }

    #[inline(always)]
    fn end(&mut self, at: usize) -> Result<(), AllocError> {
        self.other.sink.end(at)?;
        Ok(())
    }

    #[inline(always)]
    fn is_done(&self) -> bool {
        self.stack.is_done()
    }

    #[inline(always)]
    fn wants_counts(&self) -> bool {
        self.other.sink.wants_counts()
    }

    #[inline(always)]
    fn pass(&mut self, text: &[u8], from: usize, to: usize) -> Result<usize, AllocError> {
        self.other.has_failed = false;
        let end = self.stack.pass_into(text, from, to, &mut self.other);
        if self.other.has_failed {
            return Err(AllocError);
        }
        Ok(end)
    }
}

/// Says where a reading pauses.
pub trait Pace {
    /// The offset at which a reading that stands at `at`, before `end`, asks again. One that is not after `at`, or past
    /// `end`, counts as `end`.
    fn next_stop(&mut self, at: usize, end: usize) -> usize;
}

/// Lets a reading go on to its end.
#[derive(Clone, Copy, Debug)]
pub struct NoPause;

impl Pace for NoPause {
    fn next_stop(&mut self, _at: usize, end: usize) -> usize {
        end
    }
}

/// The stop where it is after `at` and not past `end`, and otherwise `end`.
fn stop_within(stop: usize, at: usize, end: usize) -> usize
    requires { at < end }
    ensures { (at < result) × (result ≤ end) }
{
    if at < stop && stop <= end { stop } else { end }
}

/// Scans a text from its start, and pauses now and then; what the sink has seen and the exit are those of one scan.
fn scan_by<K: TokenSink, P: Pace>(
    sink: &mut K,
    pace: &mut P,
    text: &[u8],
    from: usize,
    to: usize,
) -> Result<Option<LexExit>, AllocError>
    requires bounds { (from ≤ to) × (to ≤ length text.now) }
    requires turn { K.awaits sink.old false }
    ensures seen { OnOk result (SeesTrack (K.has_seen sink.old) (K.has_seen sink.new) (lex Gap from (slice_range text.now from to))) }
    ensures exit { IfOk result (λ exit. IfSome exit (λ e. exit_of e ≡ (lex Gap from (slice_range text.now from to)).exit)) }
    ensures done { IfOk result (λ exit. IsNone exit → WantsNoMore (K.has_seen sink.new)) }
{
    lex_of_two_parts();
    let mut state = LexState::Gap;
    let mut at = from;
    while at < to {
        let stop = stop_within(pace.next_stop(at, to), at, to);
        let Some(exit) = scan(sink, state, text, at, stop)? else {
            return Ok(None);
        };
        match exit {
            LexExit::State(next) => state = next,
            LexExit::Fault(fault) => return Ok(Some(LexExit::Fault(fault))),
        }
        at = stop;
    }
    Ok(Some(LexExit::State(state)))
}

/// A text's verdict, and what was kept of its tokens.
#[derive(Drop)]
pub struct OnePass<K: Drop> {
    pub verdict: Verdict,
    pub sink: K,
}

/// Reads the bytes from one offset to another as a whole text (RFC 8259, section 2), in one pass from their start.
/// Gives its tokens to a sink that has seen no token so far, and perhaps some ends. It has then seen all token starts
/// and ends of an accepted text too, with their offsets; soon after the first fault it is given nothing more. Fails
/// only when out of memory. It pauses where the pace says, which changes nothing of that.
pub fn read_into<K: TokenSink + Drop, P: Pace>(
    alloc: Global,
    text: &[u8],
    from: usize,
    to: usize,
    depth: Depth,
    sink: K,
    pace: &mut P,
) -> Result<OnePass<K>, AllocError>
    requires bounds { (from ≤ to) × (to ≤ length text.now) }
    requires turn { K.awaits sink false }
    ensures verdict { IfOk result (λ told. Judged from (slice_range text.now from to) depth told.verdict) }
    ensures seen { IfOk result (λ told. told.verdict ≡ Accepted → (ends : List ℕ) → K.has_seen sink [] ends
        → K.has_seen told.sink (lex Gap from (slice_range text.now from to)).marks (ends ++ (lex Gap from (slice_range text.now from to)).ends)) }
{
    reader_and_grammar();
    let mut both = Beside {
        stack: KnownStack::new(alloc, depth),
        other: Listener {
            sink,
            has_failed: false,
        },
    };
    // The scan ends early only at a fault of the stack, and then it does not matter where.
    let exit = scan_by(&mut both, pace, text, from, to)?;
    let verdict = verdict_from(
        exit.unwrap_or(LexExit::State(LexState::Gap)),
        both.stack.whole(),
    );
    Ok(OnePass {
        verdict,
        sink: both.other.sink,
    })
}
