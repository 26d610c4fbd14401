// A text that is read from its start, slice by slice, while a sink is given its tokens.
ghost use Rattle.std.specs.Prelude.{◌≡◌, ◌+◌, ◌<◌, ◌≤◌, ◌^◌, ◌++◌, [], ℕ, List, Some, drop, false, length, slice_range, IfOk, IsErr};
ghost use Rattle.jx_lex.specs.declared.alphabet.mark.Mark.{Mark};
ghost use Rattle.jx_lex.specs.Lex.{lex};
ghost use Rattle.jx_lex.specs.Seen.{Grows};
ghost use Rattle.jx_lex.specs.TokenStates.{in_token};
ghost use Rattle.jx_reduce.specs.KnownStack.{HasRead as StackHasRead, IsFault};
ghost use Rattle.jx_reduce.specs.Read.{read as read_marks};
ghost use Rattle.jx_run.specs.Front.{agreed};
ghost use Rattle.jx_run.specs.Reader.{Outcome, is_fault, read_by};
ghost use Rattle.jx_run.specs.ReaderInside.{GoesOn, IsCut, IsOfUse, IsReadTo, outcome_at};
ghost use Rattle.jx_run.specs.Settings.{byte_order_mark, JudgedBy};
ghost use Rattle.jx_run.specs.Telling.{AwaitsBehind, IsAcceptedFrom, SeesPast, moved_ends, moved_marks, no_tokens, standing_of, tokens_by, track_in_front, track_of};
ghost use Rattle.jx_run.specs.declared.texts.settings.FrontMark.{FrontMark};
ghost use Rattle.jx_run.specs.declared.texts.settings.Settings.{Settings};
ghost use Rattle.jx_run.specs.declared.texts.verdict.Verdict.TheVariants.{Accepted};

use crate::laws::{reader_and_grammar, unique_verdict_by_settings};
use crate::readers::progress::{Progress, settled};
use crate::texts::byte_order_mark::count_agreed;
use jx_lex::{LexState, Mark, TokenSink, lex_of_two_parts, scan};
use jx_reduce::{KnownStack, Listener};
use std::alloc::AllocError;
use std::marker::{Brand, PhantomData};

/// The tokens that a sink had seen before a slice, and the known stack then. A call picks both.
pub trait Earlier {
    ghost use Rattle.jx_lex.specs.Seen.{Seen};
    ghost use Rattle.jx_reduce.specs.KnownStack.{Known};

    ghost seen: { Seen };

    ghost stack: { Known };
}

impl Earlier for Brand {
    ghost use Rattle.jx_reduce.specs.KnownStack.{start};

    ghost seen = { λ marks ends. Unit {0} };

    ghost stack = { record { depth = 0; reading = start } };
}

/// The known stack, and a sink that is given what the stack goes past.
#[derive(Drop)]
struct Past<K: Drop, E> {
    stack: KnownStack,
    other: Listener<K>,
    earlier: PhantomData<E>,
}

impl<K: TokenSink + Drop, E: Earlier> TokenSink for Past<K, E> {
    ghost use Rattle.jx_run.specs.inside.Past.{HasSeenPast};

    ghost has_seen = { λ both marks ends. HasSeenPast E.seen E.stack (K.has_seen both.other.sink) marks ends both.stack };

    // After a fault the sink is given nothing more, and so awaits nothing.
    ghost awaits = { λ both inside. (IsFault both.stack.reading → ⊥) → K.awaits both.other.sink inside };

    #[inline(always)]
    fn begin(&mut self, mark: Mark) -> Result<(), AllocError> {
        self.stack.push(mark)?;
        if self.stack.is_done() {
            return Ok(());
        }
        self.other.sink.begin(mark)?;
        Ok(())
    }

    #[inline(always)]
    fn end(&mut self, at: usize) -> Result<(), AllocError> {
        if self.stack.is_done() {
            return Ok(());
        }
        self.other.sink.end(at)?;
        Ok(())
    }

    #[inline(always)]
    fn is_done(&self) -> bool {
        self.stack.is_done()
    }

    #[inline(always)]
    fn wants_counts(&self) -> bool {
        self.other.sink.wants_counts()
    }

    #[inline(always)]
    fn pass(&mut self, text: &[u8], from: usize, to: usize) -> Result<usize, AllocError> {
        if self.stack.is_done() {
            return Ok(from);
        }
        self.other.has_failed = false;
        let end = self.stack.pass_into(text, from, to, &mut self.other);
        if self.other.has_failed {
            return Err(AllocError);
        }
        Ok(end)
    }
}

/// How far a reading came, its stack, and the sink that was given its tokens.
#[derive(Drop)]
pub struct Told<K: Drop> {
    pub progress: Progress,
    pub stack: KnownStack,
    pub sink: K,
}

/// The tokens of bytes that are read slice by slice are those of each slice, moved to where it stands. No slice undoes a
/// fault, and no byte has no token.
pub fn slices_are_told_in_turn()
    ensures marks { (mark : FrontMark) (limit : ℕ) (bytes slice : List ℕ) → is_fault (Some (read_by mark limit 0 bytes)) ≡ false
        → (tokens_by mark (bytes ++ slice)).marks ≡ (tokens_by mark bytes).marks ++ moved_marks (length bytes) (track_of (read_by mark limit 0 bytes) slice).marks }
    ensures ends { (mark : FrontMark) (limit : ℕ) (bytes slice : List ℕ) → is_fault (Some (read_by mark limit 0 bytes)) ≡ false
        → (tokens_by mark (bytes ++ slice)).ends ≡ (tokens_by mark bytes).ends ++ moved_ends (length bytes) (track_of (read_by mark limit 0 bytes) slice).ends }
    ensures faults { (mark : FrontMark) (limit : ℕ) (bytes slice : List ℕ) → is_fault (Some (read_by mark limit 0 (bytes ++ slice))) ≡ false
        → is_fault (Some (read_by mark limit 0 bytes)) ≡ false }
    ensures none { (mark : FrontMark) → tokens_by mark [] ≡ no_tokens }
{
    lex_of_two_parts();
}

/// The tokens of an accepted text are those of the bytes after what stands in front of it.
pub fn accepted_texts_stand_behind_fronts()
    ensures { (settings : Settings) (bytes : List ℕ) → JudgedBy settings 0 bytes Accepted → IsAcceptedFrom settings bytes }
{
    reader_and_grammar();
    unique_verdict_by_settings();
}

/// Reads a slice that stands from `base` on, from an offset in it to its end, and gives its tokens to the sink.
fn tell_slice<K: TokenSink + Drop, E: Earlier>(
    stack: KnownStack,
    sink: K,
    state: LexState,
    slice: &[u8],
    from: usize,
    base: usize,
) -> Result<Told<K>, AllocError>
    requires within { from ≤ length slice.now }
    requires stack { stack ≡ E.stack }
    requires going { IsFault stack.reading → ⊥ }
    requires seen { Grows E.seen (K.has_seen sink) [] [] }
    requires turn { K.awaits sink (in_token state) }
    ensures cut { IfOk result (λ told. IsCut told.progress) }
    ensures goes_on { IfOk result (λ told. (marks : List Mark) → StackHasRead marks stack
        → GoesOn stack (lex state from (slice_range slice.now from (length slice.now))) (read_marks stack.depth (lex state from (slice_range slice.now from (length slice.now))).marks stack.reading) base told.progress told.stack) }
    ensures all { IfOk result (λ told. is_fault (outcome_at told.progress told.stack.reading) ≡ false
        → Grows E.seen (K.has_seen told.sink) (lex state from (slice_range slice.now from (length slice.now))).marks (lex state from (slice_range slice.now from (length slice.now))).ends) }
    ensures past { IfOk result (λ told. SeesPast E.seen (K.has_seen told.sink) stack.depth stack.reading
        (lex state from (slice_range slice.now from (length slice.now))).marks (lex state from (slice_range slice.now from (length slice.now))).ends) }
    ensures turn { IfOk result (λ told. (after : Outcome) → outcome_at told.progress told.stack.reading ≡ Some after → AwaitsBehind (K.awaits told.sink) after) }
{
    let mut both: Past<K, E> = Past {
        stack,
        other: Listener {
            sink,
            has_failed: false,
        },
        earlier: PhantomData,
    };
    let exit = scan(&mut both, state, slice, from, slice.len())?;
    Ok(Told {
        progress: settled(base, exit, both.stack.whole()),
        stack: both.stack,
        sink: both.other.sink,
    })
}

/// Reads a slice after so many bytes of a byte order mark, and gives its tokens to the sink.
#[cold]
fn tell_front<K: TokenSink + Drop>(
    stack: KnownStack,
    sink: K,
    before: usize,
    slice: &[u8],
    base: usize,
) -> Result<Told<K>, AllocError>
    requires cut { before < 3 }
    requires fits { base + length slice.now < 2 ^ 64 }
    requires fresh { StackHasRead [] stack }
    requires turn { K.awaits sink false }
    ensures cut { IfOk result (λ told. IsCut told.progress) }
    ensures of_use { IfOk result (λ told. (mark : FrontMark) (depth : ℕ) → IsOfUse (Progress.Front before) mark depth stack → IsOfUse told.progress mark depth told.stack) }
    ensures reads { IfOk result (λ told. (settings : Settings) (start : ℕ) (bytes : List ℕ) → base ≡ start + length bytes
        → IsReadTo settings start bytes (Progress.Front before) stack → IsReadTo settings start (bytes ++ slice.now) told.progress told.stack) }
    ensures all { IfOk result (λ told. is_fault (outcome_at told.progress told.stack.reading) ≡ false → Grows (K.has_seen sink) (K.has_seen told.sink)
        (track_in_front before (before + agreed slice.now (drop before byte_order_mark)) slice.now).marks (track_in_front before (before + agreed slice.now (drop before byte_order_mark)) slice.now).ends) }
    ensures past { IfOk result (λ told. SeesPast (K.has_seen sink) (K.has_seen told.sink) stack.depth stack.reading
        (track_in_front before (before + agreed slice.now (drop before byte_order_mark)) slice.now).marks (track_in_front before (before + agreed slice.now (drop before byte_order_mark)) slice.now).ends) }
    ensures turn { IfOk result (λ told. (after : Outcome) → outcome_at told.progress told.stack.reading ≡ Some after → AwaitsBehind (K.awaits told.sink) after) }
{
    reader_and_grammar();
    let count = count_agreed(slice, before);
    let more = count - before;
    if count == 3 {
        return tell_slice::<K, Brand>(stack, sink, LexState::Gap, slice, more, base);
    }
    if more == slice.len() {
        return Ok(Told {
            progress: Progress::Front(count),
            stack,
            sink,
        });
    }
    if count == 0 {
        return tell_slice::<K, Brand>(stack, sink, LexState::Gap, slice, 0, base);
    }
    Ok(Told {
        progress: Progress::Stopped(base + more),
        stack,
        sink,
    })
}

/// Reads a slice after all bytes that were read, as `read_on` does, and gives its tokens to the sink, with offsets
/// counted from its first byte. Nothing is given at or after a fault.
pub(crate) fn tell_on<K: TokenSink + Drop>(
    stack: KnownStack,
    sink: K,
    progress: Progress,
    slice: &[u8],
    base: usize,
) -> Result<Told<K>, AllocError>
    requires cut { IsCut progress }
    requires fits { base + length slice.now < 2 ^ 64 }
    requires of_use { (mark : FrontMark) × (depth : ℕ) × IsOfUse progress mark depth stack }
    requires turn { (before : Outcome) → outcome_at progress stack.reading ≡ Some before → AwaitsBehind (K.awaits sink) before }
    ensures cut { IfOk result (λ told. IsCut told.progress) }
    ensures of_use { IfOk result (λ told. (mark : FrontMark) (depth : ℕ) → IsOfUse progress mark depth stack → IsOfUse told.progress mark depth told.stack) }
    ensures reads { IfOk result (λ told. (settings : Settings) (start : ℕ) (bytes : List ℕ) → base ≡ start + length bytes
        → IsReadTo settings start bytes progress stack → IsReadTo settings start (bytes ++ slice.now) told.progress told.stack) }
    ensures failed { progress ≡ Progress.Failed → IsErr result }
    ensures all { IfOk result (λ told. is_fault (outcome_at told.progress told.stack.reading) ≡ false → (before : Outcome) → outcome_at progress stack.reading ≡ Some before
        → Grows (K.has_seen sink) (K.has_seen told.sink) (track_of before slice.now).marks (track_of before slice.now).ends) }
    ensures past { IfOk result (λ told. (before : Outcome) → outcome_at progress stack.reading ≡ Some before
        → SeesPast (K.has_seen sink) (K.has_seen told.sink) stack.depth (standing_of before) (track_of before slice.now).marks (track_of before slice.now).ends) }
    ensures turn { IfOk result (λ told. (after : Outcome) → outcome_at told.progress told.stack.reading ≡ Some after → AwaitsBehind (K.awaits told.sink) after) }
{
    reader_and_grammar();
    match progress {
        Progress::Front(before) => tell_front(stack, sink, before, slice, base),
        Progress::Going(state) => { tell_slice::<K, Brand>(stack, sink, state, slice, 0, base) }
        Progress::Stopped(_) => Ok(Told {
            progress,
            stack,
            sink,
        }),
        Progress::TooDeep(_) => Ok(Told {
            progress,
            stack,
            sink,
        }),
        Progress::Failed => Err(AllocError),
    }
}
