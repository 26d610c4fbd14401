// The calls of `jx_ndjson`.
use crate::answers::told_by;
use jx_ndjson::texts_in_front;
use test_words::{Line, Ways};

/// `lines DEPTH SETTINGS TEXT`: the answers on the lines of a text, whole, cut in two at each place, and by slices of 1, 2, 3 and 7
/// bytes.
fn lines(line: &mut Line<'_>) {
    let depth = line.depth();
    let settings = line.settings(depth);
    let text = line.text();
    let alloc = line.alloc;
    let mut ways = Ways::new(alloc);
    ways.add_halved(&text, 1, |slices| told_by(alloc, &settings, slices));
    ways.add_sliced(
        &text,
        &[1, 2, 3, 7],
        |slices| told_by(alloc, &settings, slices),
    );
    ways.push_to(&mut line.out);
}

/// `texts DEPTH TEXT`: how many lines in front of a text are texts, and how many bytes they have.
fn texts(line: &mut Line<'_>) {
    let depth = line.depth();
    let text = line.text();
    let texts = texts_in_front(line.alloc, &text, depth);
    if let Some(texts) = line.keep(texts) {
        let (count, len) = (texts.count(), texts.len());
        line.out.put(format_args!("{count} lines, {len} bytes"));
    }
}

/// Makes the call that a line names.
pub(crate) fn make(line: &mut Line<'_>) {
    match line.word() {
        "lines" => lines(line),
        "texts" => texts(line),
        _ => line.refuse(),
    }
}
