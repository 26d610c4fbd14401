// The calls of `jx_file_lines`.
use jx_file_index::{ChunkSize, SavedFault};
use jx_file_lines::{LineIndex, LineIndexer, LinePlace, behind_feeds};
use std::alloc::{AllocError, Global};
use test_words::{Line, Out, Ways};

/// The index of the lines of a text that is fed by these slices, one after another.
fn index_of(alloc: Global, chunk: ChunkSize, slices: &[&[u8]]) -> Result<LineIndex, AllocError> {
    let mut indexer = LineIndexer::new(alloc, chunk);
    for slice in slices {
        indexer.feed(*slice)?;
    }
    indexer.finish()
}

/// Its bytes, two digits for each.
fn told_by(alloc: Global, chunk: ChunkSize, slices: &[&[u8]]) -> Result<Out, AllocError> {
    let index = index_of(alloc, chunk, slices)?;
    let mut out = Out::new(alloc);
    out.push_str("index ");
    let bytes = index.encode(alloc)?;
    for byte in &bytes {
        out.put(format_args!("{byte:02x}"));
    }
    Ok(out)
}

/// `lines CHUNK TEXT`: the bytes of the index of a text's lines, for chunks of so many bytes; whole, and by slices of several sizes.
pub(crate) fn lines(line: &mut Line<'_>) {
    let chunk = line.number();
    let text = line.text();
    let Some(chunk) = ChunkSize::new(chunk) else {
        line.out.push_str("no size of a chunk");
        return;
    };
    let alloc = line.alloc;
    let mut ways = Ways::new(alloc);
    let sizes = [1 << 20, 1, 2, 63, 64, 65, 200];
    ways.add_sliced(&text, &sizes, |slices| told_by(alloc, chunk, slices));
    ways.push_to(&mut line.out);
}

/// Writes where a line begins: an offset, or a chunk and how many line feeds of its own are before it, and the offset by its bytes.
fn push_place(out: &mut Out, index: &LineIndex, text: &[u8], place: LinePlace) {
    match place {
        LinePlace::At(offset) => out.put(format_args!("at {offset}")),
        LinePlace::Behind { chunk, feeds } => {
            out.put(format_args!("chunk {chunk} behind {feeds}: "));
            let Some(span) = index.chunk_span(chunk) else {
                out.push_str("no chunk");
                return;
            };
            let bytes = text.get(span.start..span.end).unwrap_or(&[]);
            match behind_feeds(bytes, feeds) {
                Some(at) if index.is_kept(chunk, bytes) => {
                    out.put(format_args!("at {}", span.start.saturating_add(at)));
                }
                _ => out.push_str("other bytes"),
            }
        }
    }
}

/// `line CHUNK FEEDS TEXT`: where the line behind so many line feeds of a text begins, by the index for chunks of so many bytes.
pub(crate) fn line(line: &mut Line<'_>) {
    let chunk = line.number();
    let feeds = line.number();
    let text = line.text();
    let Some(chunk) = ChunkSize::new(chunk) else {
        line.out.push_str("no size of a chunk");
        return;
    };
    match index_of(line.alloc, chunk, &[&text]) {
        Ok(index) => {
            let place = index.place_behind(feeds);
            push_place(&mut line.out, &index, &text, place);
        }
        Err(error) => line.settle(Err(error)),
    }
}

/// `load_lines BYTES`: what the index of lines says whose bytes these are, or why they are those of none.
pub(crate) fn load_lines(line: &mut Line<'_>) {
    let bytes = line.text();
    match LineIndex::decode(line.alloc, &bytes) {
        Ok(index) => {
            let out = &mut line.out;
            out.put(format_args!("{} {}", index.chunk.bytes(), index.size));
            for entry in &index.entries {
                out.put(format_args!(" {},{:016x}", entry.feeds, entry.digest));
            }
        }
        Err(SavedFault::Memory) => line.settle(Err(AllocError)),
        Err(fault) => line.out.put(format_args!("{fault}")),
    }
}
