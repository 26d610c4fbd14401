// A chunk that is read once after all bytes before it: its entry, and its names where these are asked for.
ghost use Rattle.std.specs.Prelude.{◌≡◌, ◌+◌, ◌*◌, ◌<◌, ◌≤◌, ◌^◌, ◌++◌, ℕ, Bool, List, Some, suc, false, length, IfOk, OnOk};
ghost use Rattle.jx_run.specs.Reader.{Outcome, is_fault};
ghost use Rattle.jx_run.specs.Telling.{track_of};
ghost use Rattle.jx_run.specs.declared.texts.settings.Settings.{Settings};
ghost use Rattle.jx_index.specs.inside.InTurn.{IsInTurn};
ghost use Rattle.jx_file_index.specs.Chunks.{entry_behind};
ghost use Rattle.jx_file_build.specs.Held.{HasReadBy};
ghost use Rattle.jx_file_build.specs.inside.ChunkNames.{IsTold};
ghost use Rattle.jx_file_build.specs.inside.OpenKinds.{kinds};
ghost use Rattle.jx_file_build.specs.inside.NamedChunks.{AreBegun, AreFit, AreNamesAt};
ghost use Rattle.jx_file_build.specs.inside.Tallied.{ReadsOn, Tells};

use crate::chunk_sum::ChunkSum;
use crate::named_chunks::NamedChunks;
use crate::on_chunk::{Before, OnChunk};
use crate::sink_pair::SinkPair;
use crate::standing::{Standing, ToldChunk};
use jx_file_index::{Entry, digest_of};
use jx_run::{Reader, slices_are_told_in_turn};
use std::alloc::{AllocError, Global};
use std::marker::Brand;

/// Reads a chunk after all bytes that were read, and sums its tokens.
fn sum_chunk(reader: &mut Reader, chunk: &[u8]) -> Result<ChunkSum, AllocError>
    requires fits { reader.old.start + reader.old.count + length chunk.now < 2 ^ 64 }
    ensures reads { OnOk result (ReadsOn reader.old reader.new chunk.now) }
    ensures sums { IfOk result (λ sum. is_fault reader.new.outcome ≡ false → (before : Outcome) → reader.old.outcome ≡ Some before
        → Tells (track_of before chunk.now).marks (track_of before chunk.now).ends sum.sum sum.begins sum.ends) }
{
    reader.feed_into(ChunkSum::new(), chunk)
}

/// The sum of a chunk's tokens, and its names.
#[derive(Drop)]
struct NamedChunk {
    sum: ChunkSum,
    names: ToldChunk,
}

/// The same, and gathers its names.
fn name_chunk<B: Before>(
    alloc: Global,
    reader: &mut Reader,
    standing: Standing,
    chunk: &[u8],
) -> Result<NamedChunk, AllocError>
    requires fits { reader.old.start + reader.old.count + length chunk.now < 2 ^ 64 }
    requires chunk { chunk.now ≡ B.start.chunk }
    requires base { reader.old.start + reader.old.count ≡ B.start.base }
    requires kinds { kinds standing.kinds ≡ B.start.kinds }
    requires begun { standing.begun ≡ B.start.begun }
    requires name { standing.name.items ≡ B.start.name }
    requires turn { IsInTurn reader.old.outcome standing.begun }
    ensures reads { OnOk result (ReadsOn reader.old reader.new chunk.now) }
    ensures sums { IfOk result (λ told. is_fault reader.new.outcome ≡ false → (before : Outcome) → reader.old.outcome ≡ Some before
        → Tells (track_of before chunk.now).marks (track_of before chunk.now).ends told.sum.sum told.sum.begins told.sum.ends) }
    ensures named { IfOk result (λ told. is_fault reader.new.outcome ≡ false → (before : Outcome) → reader.old.outcome ≡ Some before
        → IsTold B.start (track_of before chunk.now).marks (track_of before chunk.now).ends told.names) }
    ensures turn { IfOk result (λ told. IsInTurn reader.new.outcome told.names.standing.begun) }
{
    let base = reader.end();
    let pair: SinkPair<ChunkSum, OnChunk<'_, B>> = SinkPair {
        one: ChunkSum::new(),
        other: OnChunk::new(alloc, chunk, base, standing),
    };
    let told = reader.feed_into(pair, chunk)?;
    let SinkPair { one, other } = told;
    let names = other.into_told()?;
    Ok(NamedChunk { sum: one, names })
}

/// The sum of a chunk's tokens, and the names so far.
#[derive(Drop)]
struct Summed {
    sum: ChunkSum,
    names: Option<NamedChunks>,
}

/// Reads a chunk after all bytes that were read, and its names where these are asked for.
fn sum_and_name(
    reader: &mut Reader,
    names: Option<NamedChunks>,
    chunk: &[u8],
) -> Result<Summed, AllocError>
    requires fits { reader.old.start + reader.old.count + length chunk.now < 2 ^ 64 }
    requires turn { AreBegun reader.old.outcome names }
    ensures reads { OnOk result (ReadsOn reader.old reader.new chunk.now) }
    ensures sums { IfOk result (λ read. is_fault reader.new.outcome ≡ false → (before : Outcome) → reader.old.outcome ≡ Some before
        → Tells (track_of before chunk.now).marks (track_of before chunk.now).ends read.sum.sum read.sum.begins read.sum.ends) }
    ensures turn { IfOk result (λ read. AreBegun reader.new.outcome read.names) }
    ensures room { IfOk result (λ read. AreFit names → AreFit read.names) }
    ensures named { IfOk result (λ read. (has_names : Bool) (settings : Settings) (size : ℕ) (bytes : List ℕ) (n : ℕ) → length bytes ≡ n * size → length chunk.now ≤ size
        → HasReadBy settings bytes reader.old → AreNamesAt has_names settings size bytes n reader.old.outcome names
        → AreNamesAt has_names settings size (bytes ++ chunk.now) (suc n) reader.new.outcome read.names) }
{
    slices_are_told_in_turn();
    match names {
        None => {
            let sum = sum_chunk(reader, chunk)?;
            Ok(Summed { sum, names: None })
        }
        Some(names) => {
            let NamedChunks {
                alloc,
                standing,
                blocks,
                most,
            } = names;
            let told = name_chunk::<Brand>(alloc, reader, standing, chunk)?;
            let blocks = blocks.add(alloc, &told.names.hashes, most)?;
            Ok(Summed {
                sum: told.sum,
                names: Some(NamedChunks {
                    alloc,
                    standing: told.names.standing,
                    blocks,
                    most,
                }),
            })
        }
    }
}

/// The entry of a chunk, and the names so far.
#[derive(Drop)]
pub(crate) struct ReadChunk {
    pub entry: Entry,
    pub names: Option<NamedChunks>,
}

/// Reads a chunk after all bytes that were read.
pub(crate) fn read_chunk(
    reader: &mut Reader,
    names: Option<NamedChunks>,
    chunk: &[u8],
) -> Result<ReadChunk, AllocError>
    requires fits { reader.old.start + reader.old.count + length chunk.now < 2 ^ 64 }
    requires turn { AreBegun reader.old.outcome names }
    ensures reads { OnOk result (ReadsOn reader.old reader.new chunk.now) }
    ensures entry { IfOk result (λ read. is_fault reader.new.outcome ≡ false → (before : Outcome) → reader.old.outcome ≡ Some before
        → read.entry ≡ entry_behind before chunk.now) }
    ensures turn { IfOk result (λ read. AreBegun reader.new.outcome read.names) }
    ensures room { IfOk result (λ read. AreFit names → AreFit read.names) }
    ensures named { IfOk result (λ read. (has_names : Bool) (settings : Settings) (size : ℕ) (bytes : List ℕ) (n : ℕ) → length bytes ≡ n * size → length chunk.now ≤ size
        → HasReadBy settings bytes reader.old → AreNamesAt has_names settings size bytes n reader.old.outcome names
        → AreNamesAt has_names settings size (bytes ++ chunk.now) (suc n) reader.new.outcome read.names) }
{
    let (state, expect) = reader.standing();
    let read = sum_and_name(reader, names, chunk)?;
    Ok(ReadChunk {
        entry: Entry {
            state,
            expect,
            sum: read.sum.sum,
            begins: read.sum.begins,
            ends: read.sum.ends,
            digest: digest_of(chunk),
        },
        names: read.names,
    })
}
