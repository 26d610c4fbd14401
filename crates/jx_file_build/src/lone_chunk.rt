// A chunk that is read without the bytes before it.
ghost use Rattle.std.specs.Prelude.{◌≡◌, ◌≤◌, ℕ, List, length, slice_range, true, Some, IfOk, IfSome};
ghost use Rattle.jx_lex.specs.Lex as lexical;
ghost use Rattle.jx_lex.specs.Lex.{lex};
ghost use Rattle.jx_run.specs.OutcomeRun.{IsOutcomeRun};
ghost use Rattle.jx_file_build.specs.LoneChunk.{HasItsBytes, IsReadAlone};
ghost use Rattle.jx_file_build.specs.inside.Tallied.{Tells};

use crate::chunk_sum::ChunkSum;
use crate::likely::likely_state;
use jx_file_index::digest_of;
use jx_lex::{Depth, LexExit, LexState, lex_of_two_parts, scan};
use jx_run::{OutcomeRun, Summary};
use std::alloc::{AllocError, Global};
use std::marker::Model;

/// How many bytes at the beginning of a chunk are kept.
const HEAD: usize = 64;

/// A chunk of a text that was read without the bytes before it. Its tokens are summed from a likely state; where the text leads to
/// another, the chunk is of no use.
#[derive(Drop)]
pub struct LoneChunk {
    /// The outcome of its bytes, whatever the bytes before are.
    run: OutcomeRun,
    /// Its first bytes: in which state they are read makes a difference at first.
    head: Vec<u8>,
    /// The likely state after these.
    state: LexState,
    /// The sum of the tokens after these.
    rest: ChunkSum,
    digest: u64,
}

impl Model for LoneChunk {
    ghost use Rattle.jx_file_build.specs.LoneChunk.{HasItsBytes, LoneValue, lone_of};

    ghost Value = { LoneValue };

    ghost view = { lone_of };

    ghost invariant = { λ a. HasItsBytes (lone_of a) };
}

/// The sum of the tokens of some bytes, and the state after them.
#[derive(Drop)]
struct Head {
    sum: ChunkSum,
    state: LexState,
}

/// The state in which a scan has ended, if it ended in one.
fn state_at(exit: Option<LexExit>) -> Option<LexState>
    ensures { IfSome result (λ state. exit ≡ Some (LexExit.State state)) }
{
    match exit {
        Some(LexExit::State(state)) => Some(state),
        _ => None,
    }
}

/// The result of reading the first bytes of a chunk from a state; nothing where they are no tokens.
fn read_head(state: LexState, head: &[u8]) -> Option<Head>
    ensures sum { IfSome result (λ read. Tells (lex state 0 head.now).marks (lex state 0 head.now).ends read.sum.sum read.sum.begins read.sum.ends) }
    ensures exit { IfSome result (λ read. (lex state 0 head.now).exit ≡ lexical.state read.state) }
{
    let mut sum = ChunkSum::new();
    let Ok(exit) = scan(&mut sum, state, head, 0, head.len()) else {
        return None;
    };
    let Some(next) = state_at(exit) else {
        return None;
    };
    Some(Head { sum, state: next })
}

/// The sum of the tokens of the bytes from an offset on, which are read from a state.
fn sum_behind(state: LexState, chunk: &[u8], from: usize) -> Result<ChunkSum, AllocError>
    requires within { from ≤ length chunk.now }
    ensures { IfOk result (λ sum. Tells (lex state from (slice_range chunk.now from (length chunk.now))).marks (lex state from (slice_range chunk.now from (length chunk.now))).ends sum.sum sum.begins sum.ends) }
{
    let mut sum = ChunkSum::new();
    scan(&mut sum, state, chunk, from, chunk.len())?;
    Ok(sum)
}

/// Whether two states are the same.
fn are_same(one: LexState, other: LexState) -> bool
    ensures { result ≡ true → one ≡ other }
{
    one == other
}

impl LoneChunk {
    /// A chunk whose bytes from an offset on are read from a state.
    fn behind(
        alloc: Global,
        run: OutcomeRun,
        chunk: &[u8],
        from: usize,
        state: LexState,
    ) -> Result<LoneChunk, AllocError>
        requires within { from ≤ length chunk.now }
        requires run { IsOutcomeRun chunk.now run }
        requires start { run.start ≡ 0 }
        ensures { IfOk result (IsReadAlone run.depth chunk.now) }
    {
        let rest = sum_behind(state, chunk, from)?;
        let mut head = Vec::new(alloc);
        head.extend_from_slice(&chunk[0..from])?;
        Ok(LoneChunk {
            run,
            head,
            state,
            rest,
            digest: digest_of(chunk),
        })
    }

    /// Reads the bytes of a chunk, within a depth. There is nothing where no state is likely, as where the text is not JSON.
    pub fn read(alloc: Global, chunk: &[u8], depth: Depth) -> Result<Option<LoneChunk>, AllocError>
        ensures { IfOk result (λ read. IfSome read (IsReadAlone depth chunk.now)) }
    {
        let run = OutcomeRun::of(alloc, chunk, 0, chunk.len(), depth)?;
        let Some(before) = likely_state(&run)? else {
            return Ok(None);
        };
        let from = chunk.len().min(HEAD);
        let Some(head) = read_head(before, &chunk[0..from]) else {
            return Ok(None);
        };
        let lone = LoneChunk::behind(alloc, run, chunk, from, head.state)?;
        Ok(Some(lone))
    }

    /// How many bytes the chunk has.
    pub(crate) fn len(&self) -> usize
        ensures { result ≡ self.now.run.end }
    {
        self.run.span().end
    }

    /// The outcome of its bytes.
    pub(crate) fn run(&self) -> &OutcomeRun
        ensures run { result.now ≡ self.now.run }
        ensures kept { HasItsBytes self.now }
    {
        &self.run
    }

    /// The digest of its bytes.
    pub(crate) fn digest(&self) -> u64
        ensures { result ≡ self.now.digest }
    {
        self.digest
    }

    /// The sum of its tokens, which are read from this state; none where that leads to another state than the likely one.
    pub(crate) fn sum_from(&self, state: LexState) -> Option<ChunkSum>
        ensures { IfSome result (λ sum. (depth : ℕ) (bytes : List ℕ) → IsReadAlone depth bytes self.now
            → Tells (lex state 0 bytes).marks (lex state 0 bytes).ends sum.sum sum.begins sum.ends) }
    {
        lex_of_two_parts();
        let Some(head) = read_head(state, &self.head) else {
            return None;
        };
        if are_same(head.state, self.state) {
            return head.sum.joined(&self.rest);
        }
        None
    }
}
