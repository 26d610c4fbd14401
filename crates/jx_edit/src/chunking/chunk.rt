// A part of a document, with the result of reading it.
ghost use Rattle.std.specs.Prelude.{◌≡◌, ◌≤◌, ◌<◌, ◌+◌, ◌*◌, ◌^◌, IfOk, IfSome, length, take, true};
ghost use Rattle.jx_edit.specs.inside.Chunks.{open_ended, text_of, AreFresh, IsFresh, IsRunOver};
ghost use Rattle.jx_edit.specs.inside.Leads.{reading_in, IsLedWithin};
ghost use Rattle.jx_edit.specs.inside.Places.{read_on};
ghost use Rattle.jx_edit.specs.Positions.{first, position_behind, reach};
ghost use Rattle.jx_run.specs.OutcomeRun.{IsOutcomeRun};

use crate::chunking::filled::Filled;
use crate::positions::encoding::Encoding;
use crate::positions::moves::{Moves, kept_by};
use crate::positions::position::{Position, Reached, behind, reach};
use crate::positions::steps::Steps;
use crate::reading::led::{Led, follow_bytes, follow_run};
use crate::reading::nesting::nest_deeply;
use crate::reading::place::Place;
use jx_lex::Depth;
use jx_run::{OutcomeRun, Summary};
use std::alloc::{AllocError, Global};
use std::marker::Model;

/// Bytes, and the run that is the summary of exactly these, as if they stood at the start of an input: so it stays as it
/// is wherever they stand. Bytes that nest deeply have none, since it would be larger than they are.
#[derive(Drop)]
pub(crate) struct Chunk {
    depth: Depth,
    bytes: Vec<u8>,
    run: Option<OutcomeRun>,
    // where it led when it was last followed
    to: Place,
    // whether it leads there from where the chunk before it leads
    linked: bool,
    // how far its bytes move a position on, where that was counted
    moves: Option<Moves>,
    // the positions at even steps of them, where they were counted
    steps: Option<Steps>,
}

impl Model for Chunk {
    ghost use Rattle.std.specs.Prelude.{◌≤◌, IfSome, length};
    ghost use Rattle.jx_edit.specs.inside.Chunks.{ChunkValue, IsRunOver};
    ghost use Rattle.jx_edit.specs.inside.Moves.{AreMoves, AreSteps};

    ghost Value = { ChunkValue };

    ghost view = { λ c. record { depth = c.depth; bytes = c.bytes.items; to = c.to; linked = c.linked } };

    ghost invariant = { λ c. IfSome c.run (IsRunOver c.depth c.bytes.items) × (length c.to.holders ≤ c.depth) × IfSome c.moves (AreMoves c.bytes.items) × IfSome c.steps (AreSteps c.bytes.items) };
}

/// The run over bytes, with no spare room.
fn run_over(alloc: Global, bytes: &[u8], depth: Depth) -> Result<OutcomeRun, AllocError>
    ensures start { IfOk result (λ run. run.start ≡ 0) }
    ensures depth { IfOk result (λ run. run.depth ≡ depth) }
    ensures of { IfOk result (IsOutcomeRun bytes.now) }
{
    let whole = OutcomeRun::of(alloc, bytes, 0, bytes.len(), depth)?;
    let run = whole.trimmed()?;
    Ok(run)
}

/// The run over bytes, with no spare room, unless it would be large.
fn small_run_over(
    alloc: Global,
    bytes: &[u8],
    depth: Depth,
) -> Result<Option<OutcomeRun>, AllocError>
    ensures { IfOk result (λ run. IfSome run (IsRunOver depth bytes.now)) }
{
    if nest_deeply(bytes) {
        return Ok(None);
    }
    let run = run_over(alloc, bytes, depth)?;
    Ok(Some(run))
}

impl Chunk {
    /// The chunk of these bytes.
    pub(crate) fn of(alloc: Global, bytes: Vec<u8>, depth: Depth) -> Result<Chunk, AllocError>
        ensures fresh { IfOk result (IsFresh depth) }
        ensures bytes { IfOk result (λ c. c.bytes ≡ bytes.items) }
    {
        let run = small_run_over(alloc, &bytes, depth)?;
        Ok(Chunk {
            depth,
            bytes,
            run,
            to: Place::origin(alloc),
            linked: false,
            moves: None,
            steps: None,
        })
    }

    /// Its bytes.
    pub(crate) fn bytes(&self) -> &[u8]
        ensures { result.now ≡ self.now.bytes }
    {
        self.bytes.as_slice()
    }

    /// The position after its bytes where a text begins with them.
    pub(crate) fn moves(&self, encoding: Encoding) -> Position
        ensures { result ≡ position_behind encoding first self.now.bytes }
    {
        match kept_by(self.moves, encoding) {
            Some(position) => position,
            None => behind(&self.bytes, encoding),
        }
    }

    /// The position after so many of its bytes where a text begins with them.
    pub(crate) fn position_behind(&self, at: usize, encoding: Encoding) -> Position
        requires { at ≤ length self.now.bytes }
        ensures { result ≡ position_behind encoding first (take at self.now.bytes) }
    {
        match &self.steps {
            Some(steps) if steps.encoding == encoding => steps.position_behind(&self.bytes, at),
            _ => behind(&self.bytes[..at], encoding),
        }
    }

    /// How many of its bytes, which stand at one position, come before the next position is after another.
    pub(crate) fn reach(&self, from: Position, to: Position, encoding: Encoding) -> Reached
        requires lines { from.line + length self.now.bytes < 2 ^ 64 }
        requires characters { from.character + 2 * length self.now.bytes < 2 ^ 64 }
        ensures count { result.count ≡ reach encoding from to self.now.bytes }
        ensures within { result.count ≤ length self.now.bytes }
        ensures position { result.position ≡ position_behind encoding from (take result.count self.now.bytes) }
    {
        match &self.steps {
            Some(steps) if steps.encoding == encoding => steps.reach(&self.bytes, from, to),
            _ => reach(&self.bytes, from, to, encoding),
        }
    }

    /// Counts its positions by one encoding, and keeps the last one and those at even steps.
    pub(crate) fn count(&mut self, encoding: Encoding) -> Result<(), AllocError>
        ensures { self.new ≡ self.old }
    {
        let steps = Steps::of(*self.bytes.allocator(), &self.bytes, encoding)?;
        let position = steps.position_behind(&self.bytes, self.bytes.len());
        self.moves = Some(Moves { encoding, position });
        self.steps = Some(steps);
        Ok(())
    }

    /// The place that it keeps.
    pub(crate) fn place(&self) -> &Place
        ensures place { result.now ≡ self.now.to }
        ensures within { length result.now.holders ≤ self.now.depth }
    {
        &self.to
    }

    /// Whether it leads there from where the chunk before it leads.
    pub(crate) fn is_linked(&self) -> bool
        ensures { result ≡ self.now.linked }
    {
        self.linked
    }

    /// Where it leads from a place.
    pub(crate) fn follow(&self, from: &Place) -> Result<Led, AllocError>
        requires within { length from.now.holders ≤ self.now.depth }
        ensures reads { IfOk result (λ led. reading_in led ≡ read_on self.now.depth from.now self.now.bytes) }
        ensures within { IfOk result (IsLedWithin self.now.depth) }
    {
        match &self.run {
            Some(run) => {
                let led = follow_run(from, run)?;
                Ok(led)
            }
            None => {
                let alloc = *self.bytes.allocator();
                let read = follow_bytes(alloc, from, &self.bytes, self.depth)?;
                Ok(read)
            }
        }
    }

    /// Links it to the place to which it leads, and returns whether that is the one it had.
    pub(crate) fn link(&mut self, to: Place) -> bool
        requires within { length to.holders ≤ self.old.depth }
        ensures linked { self.new ≡ record { depth = self.old.depth; bytes = self.old.bytes; to = to; linked = true } }
        ensures same { result ≡ true → to ≡ self.old.to }
    {
        let same = to.is_same(&self.to);
        self.to = to;
        self.linked = true;
        same
    }

    /// Gives its link up.
    pub(crate) fn unlink(&mut self)
        ensures { self.new ≡ open_ended self.old }
    {
        self.linked = false;
    }
}

/// The bytes of chunks, one after another.
#[tactic(auto, using(crate::proofs::Texts::text_more))]
pub(crate) fn text_of(alloc: Global, chunks: &[Chunk]) -> Result<Vec<u8>, AllocError>
    ensures { IfOk result (λ bytes. bytes.items ≡ text_of chunks.now) }
{
    let mut bytes = Vec::new(alloc);
    for chunk in chunks {
        bytes.extend_from_slice(chunk.bytes())?;
    }
    Ok(bytes)
}

/// Counts each of the chunks by one encoding, if any.
pub(crate) fn count_all(chunks: &mut [Chunk], counted: Option<Encoding>) -> Result<(), AllocError>
    ensures { chunks.new ≡ chunks.old }
{
    let Some(encoding) = counted else {
        return Ok(());
    };
    for chunk in chunks.iter_mut() {
        chunk.count(encoding)?;
    }
    Ok(())
}

/// The chunks of these bytes, none of them longer than `size`.
pub(crate) fn chunks_of(
    alloc: Global,
    bytes: &[u8],
    size: usize,
    depth: Depth,
) -> Result<Vec<Chunk>, AllocError>
    requires { 0 < size }
    ensures fresh { IfOk result (λ chunks. AreFresh depth chunks.items) }
    ensures bytes { IfOk result (λ chunks. text_of chunks.items ≡ bytes.now) }
{
    let filled = Filled::of(alloc, bytes, size, depth)?;
    filled.finish(alloc, depth)
}
