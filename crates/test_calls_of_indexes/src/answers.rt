// The bytes of the index of a text that is fed by slices, and what bytes say.
use jx_file_build::Indexer;
use jx_file_index::{ChunkSize, Entry, Index};
use jx_run::{NameRule, Settings, Verdict};
use std::alloc::{AllocError, Global};
use test_words::{Out, push_verdict};

/// Writes the bytes of an index, two digits for each.
fn push_index(out: &mut Out, alloc: Global, index: &Index) -> Result<(), AllocError> {
    out.push_str("index ");
    let bytes = index.encode(alloc)?;
    for byte in &bytes {
        out.put(format_args!("{byte:02x}"));
    }
    Ok(())
}

/// The index of a text that is fed by these slices, one after another, or why it has none.
pub(crate) fn told_by(
    alloc: Global,
    settings: &Settings,
    chunk: ChunkSize,
    slices: &[&[u8]],
) -> Result<Out, AllocError> {
    let any = Settings {
        names: NameRule::Any,
        ..*settings
    };
    let mut indexer = Indexer::new(alloc, &any, chunk, false);
    for slice in slices {
        indexer.feed(*slice)?;
    }
    let mut out = Out::new(alloc);
    match indexer.finish()? {
        Ok(saved) => push_index(&mut out, alloc, &saved.index)?,
        Err(refusal) => push_verdict(&mut out, Verdict::Refused(refusal)),
    }
    Ok(out)
}

/// Writes what is kept of a chunk, or of neighbours.
fn push_entry(out: &mut Out, entry: &Entry) {
    let sum = entry.sum;
    out.put(format_args!(" {},{},{}", sum.closed, sum.opened, sum.commas));
    out.put(format_args!(",{:?},{:?}", entry.state, entry.expect));
    out.put(format_args!(",{},{}", entry.begins, entry.ends));
    out.put(format_args!(",{:016x}", entry.digest));
}

/// Writes what an index says: the settings, the sizes, the entry at the top and the others.
pub(crate) fn push_loaded(out: &mut Out, index: &Index) {
    let settings = index.settings;
    out.put(format_args!("{} {:?}", settings.depth.containers(), settings.mark));
    out.put(format_args!(" {:?} {}", settings.names, index.chunk.bytes()));
    out.put(format_args!(" {}", index.size));
    push_entry(out, &index.top);
    for entry in &index.entries {
        push_entry(out, entry);
    }
}
