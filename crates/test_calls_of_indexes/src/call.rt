// The calls of `jx_file_index` and `jx_file_build`, and where those of `jx_file_lines` are.
use crate::answers::{push_loaded, told_by};
use crate::line_calls;
use jx_file_index::{ChunkSize, Index, SavedFault, digest_of};
use std::alloc::AllocError;
use test_words::{Line, Ways};

/// `save DEPTH SETTINGS CHUNK TEXT`: the bytes of a text's index, for chunks of so many bytes, or why it has none; whole, and by slices of
/// several sizes. Names are ignored.
fn save(line: &mut Line<'_>) {
    let depth = line.depth();
    let settings = line.settings(depth);
    let chunk = line.number();
    let text = line.text();
    let Some(chunk) = ChunkSize::new(chunk) else {
        line.out.push_str("no size of a chunk");
        return;
    };
    let alloc = line.alloc;
    let mut ways = Ways::new(alloc);
    let sizes = [1 << 20, 1, 2, 63, 64, 65, 200];
    ways.add_sliced(
        &text,
        &sizes,
        |slices| told_by(alloc, &settings, chunk, slices),
    );
    ways.push_to(&mut line.out);
}

/// `digest TEXT`: the digest of bytes, its digits from the highest on.
fn digest(line: &mut Line<'_>) {
    let text = line.text();
    for byte in &digest_of(&text).to_be_bytes() {
        line.out.put(format_args!("{byte:02x}"));
    }
}

/// `load BYTES`: what the index says whose bytes these are, or why they are those of none.
fn load(line: &mut Line<'_>) {
    let bytes = line.text();
    match Index::decode(line.alloc, &bytes) {
        Ok(index) => push_loaded(&mut line.out, &index),
        Err(SavedFault::Memory) => line.settle(Err(AllocError)),
        Err(fault) => line.out.put(format_args!("{fault}")),
    }
}

/// Makes the call that a line names.
pub(crate) fn make(line: &mut Line<'_>) {
    match line.word() {
        "digest" => digest(line),
        "line" => line_calls::line(line),
        "lines" => line_calls::lines(line),
        "load" => load(line),
        "load_lines" => line_calls::load_lines(line),
        "save" => save(line),
        _ => line.refuse(),
    }
}
