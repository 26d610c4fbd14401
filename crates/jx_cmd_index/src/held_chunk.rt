// A chunk of a text that was read and checked against its checksum.
ghost use Rattle.std.specs.Prelude.{◌≡◌, ◌-◌, ◌<◌, ◌≤◌, ◌↔◌, [], Some, true, false, length, slice_range, IfErr, IsErrOf, OnOk};
ghost use Rattle.jx_file_query.specs.Chunks.{chunk_at};
ghost use Rattle.jx_cmd_index.specs.Offsets.{HasSize};
ghost use Rattle.jx_cmd_index.specs.PlaceReports.{IsOfText};
ghost use Rattle.jx_cmd_index.specs.inside.Texts.{IsChangeIn};
ghost use Rattle.jx_cmd_index.specs.inside.HeldChunks.{IsHeldIn};

use crate::file_part::read_part;
use crate::look_fault::LookFault;
use crate::read_at::ReadAt;
use jx_file_index::Index;
use jx_file_query::{chunk_at, is_kept};
use jx_lex::Span;
use std::alloc::Global;

/// Bytes of a text that were read, and where they stand in it.
#[derive(Debug, Drop)]
pub(crate) struct HeldChunk {
    pub span: Span,
    pub bytes: Vec<u8>,
}

impl HeldChunk {
    /// The chunk without bytes.
    pub fn none(alloc: Global) -> HeldChunk
        ensures start { result.span.start ≡ 0 }
        ensures end { result.span.end ≡ 0 }
        ensures bytes { result.bytes.items ≡ [] }
    {
        HeldChunk {
            span: Span { start: 0, end: 0 },
            bytes: Vec::new(alloc),
        }
    }

    /// Whether it has the byte at an offset.
    fn has(&self, at: usize) -> bool
        ensures start { result ≡ true → self.now.span.start ≤ at }
        ensures end { result ≡ true → at < self.now.span.end }
    {
        self.span.start <= at && at < self.span.end
    }

    /// The bytes from one offset of the text to another.
    pub fn part(&self, from: usize, to: usize) -> &[u8]
        requires start { self.now.span.start ≤ from }
        requires order { from ≤ to }
        requires end { to ≤ self.now.span.end }
        requires long { length self.now.bytes.items ≡ self.now.span.end - self.now.span.start }
        ensures { result.now ≡ slice_range self.now.bytes.items (from - self.now.span.start) (to - self.now.span.start) }
    {
        &self.bytes[from - self.span.start..to - self.span.start]
    }
}

/// A chunk: which one it is, counted from 0, and where it stands.
#[derive(Clone, Copy, Debug)]
struct Place {
    number: usize,
    span: Span,
}

/// The chunk that has the byte at an offset.
fn place_of(index: &Index, at: usize) -> Place
    requires { at < index.now.size }
    ensures chunk { chunk_at index.now result.number ≡ Some result.span }
    ensures start { result.span.start ≤ at }
    ensures end { at < result.span.end }
{
    let number = at / index.chunk.bytes();
    match chunk_at(index, number) {
        Some(span) => Place { number, span },
        None => unreachable!(),
    }
}

/// Reads the chunk that has the byte at an offset, and holds it to its digest.
fn read_chunk<F: ReadAt>(
    file: &mut F,
    index: &Index,
    held: &mut HeldChunk,
    at: usize,
) -> Result<(), LookFault>
    requires unfailed { F.has_failed file.old ≡ false }
    requires size { HasSize (F.content file.old) index.now.size }
    requires inside { at < index.now.size }
    ensures start { OnOk result (held.new.span.start ≤ at) }
    ensures end { OnOk result (at < held.new.span.end) }
    ensures held { OnOk result (IsHeldIn (F.content file.old) index.now held.new) }
    ensures changed { IfErr result (IsChangeIn (F.content file.old) index.now) }
    ensures kept { F.content file.new ≡ F.content file.old }
    ensures read { IsErrOf result LookFault.TextRead ↔ (F.has_failed file.new ≡ true) }
    ensures fault { IfErr result IsOfText }
{
    let place = place_of(index, at);
    read_part(file, &mut held.bytes, place.span)?;
    // The file was cut short meanwhile.
    if held.bytes.len() < place.span.end - place.span.start {
        return Err(LookFault::Changed(place.span));
    }
    if !is_kept(index, place.number, place.span, &held.bytes) {
        return Err(LookFault::Changed(place.span));
    }
    held.span = place.span;
    Ok(())
}

/// Holds the chunk that has the byte at an offset. It is read unless it is kept already.
pub(crate) fn hold<F: ReadAt>(
    file: &mut F,
    index: &Index,
    held: &mut HeldChunk,
    at: usize,
) -> Result<(), LookFault>
    requires unfailed { F.has_failed file.old ≡ false }
    requires size { HasSize (F.content file.old) index.now.size }
    requires inside { at < index.now.size }
    requires held { IsHeldIn (F.content file.old) index.now held.old }
    ensures start { OnOk result (held.new.span.start ≤ at) }
    ensures end { OnOk result (at < held.new.span.end) }
    ensures held { OnOk result (IsHeldIn (F.content file.old) index.now held.new) }
    ensures changed { IfErr result (IsChangeIn (F.content file.old) index.now) }
    ensures kept { F.content file.new ≡ F.content file.old }
    ensures read { IsErrOf result LookFault.TextRead ↔ (F.has_failed file.new ≡ true) }
    ensures fault { IfErr result IsOfText }
{
    if held.has(at) {
        return Ok(());
    }
    read_chunk(file, index, held, at)
}
