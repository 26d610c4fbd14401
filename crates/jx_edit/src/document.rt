// A text that is edited.
ghost use Rattle.std.specs.Prelude.{◌≡◌, ◌≤◌, ◌<◌, ◌+◌, ◌-◌, ◌^◌, ◌↔◌, IsTrue, [], Err, IfErr, IfOk, IfSome, OnErr, OnOk, length, slice_index, slice_range, take};
ghost use Rattle.std.specs.List.{concat};
ghost use Rattle.jx_edit.specs.Document.{edited};
ghost use Rattle.jx_edit.specs.declared.document_fault.DocumentFault.TheVariants.{Memory, OutOfBounds, UniqueNames};
ghost use Rattle.jx_edit.specs.inside.Fronts.{skipped};
ghost use Rattle.jx_edit.specs.Standing.{StandsBefore};
ghost use Rattle.jx_edit.specs.Positions.{first, is_in_crlf, offset_at, position_at, reach};
ghost use Rattle.jx_run.specs.declared.texts.settings.NameRule.TheVariants.{Any, Unique};
ghost use Rattle.jx_run.specs.Settings.{JudgedBy, byte_order_mark};

use crate::chunking::chunked::{Chunked, MOST};
use crate::chunking::chunks::Chunks;
use crate::chunking::replacement::Replacement;
use crate::document_fault::DocumentFault;
use crate::positions::encoding::Encoding;
use crate::positions::position::{Position, Reached, behind, reach};
use crate::reading::place::Place;
use crate::reading::standing::Stand;
use jx_run::{Front, NameRule, Settings, Verdict, beginning_of_a_text_by_its_front, front};
use std::alloc::{AllocError, Global};
use std::marker::Model;
use std::thread::Threads;

/// U+FEFF in UTF-8.
const BYTE_ORDER_MARK: [u8; 3] = [0xEF, 0xBB, 0xBF];

/// A text that is edited, and the verdict on all of it after each edit.
#[derive(Drop)]
pub struct Document {
    settings: Settings,
    // an ignored byte order mark, which is in none of the chunks
    front: Front,
    rest: Chunked,
}

impl Model for Document {
    ghost use Rattle.jx_edit.specs.Document.{DocumentValue};
    ghost use Rattle.jx_edit.specs.inside.Fronts.{with_front, IsFronted};

    ghost Value = { DocumentValue };

    ghost view = { λ d. record { settings = d.settings; bytes = with_front d.front d.rest.bytes } };

    ghost invariant = { λ d. IsFronted d.settings d.front d.rest };
}

/// How many bytes are skipped.
fn skipped(front: Front) -> usize
    ensures { result ≡ skipped front }
{
    match front {
        Front::Skip(count) => count,
        Front::Refused(_) => 0,
    }
}

/// The bytes that are skipped.
fn in_front(front: Front) -> &'static [u8]
    requires { skipped front ≤ 3 }
    ensures { result.now ≡ take (skipped front) byte_order_mark }
{
    &BYTE_ORDER_MARK[..skipped(front)]
}

impl Document {
    /// A document of these bytes. Unique names are refused, as a document keeps no names.
    pub fn of(alloc: Global, bytes: &[u8], settings: Settings) -> Result<Document, DocumentFault>
        ensures settings { IfOk result (λ d. d.settings ≡ settings) }
        ensures bytes { IfOk result (λ d. d.bytes ≡ bytes.now) }
        ensures names { settings.names ≡ Unique → result ≡ Err UniqueNames }
        ensures any { settings.names ≡ Any → IfErr result (λ fault. fault ≡ Memory) }
    {
        Document::made(alloc, bytes, settings, None)
    }

    /// A document of these bytes, which finds positions by this encoding fast. By another one they are found too.
    pub fn counted(
        alloc: Global,
        bytes: &[u8],
        settings: Settings,
        encoding: Encoding,
    ) -> Result<Document, DocumentFault>
        ensures settings { IfOk result (λ d. d.settings ≡ settings) }
        ensures bytes { IfOk result (λ d. d.bytes ≡ bytes.now) }
        ensures names { settings.names ≡ Unique → result ≡ Err UniqueNames }
        ensures any { settings.names ≡ Any → IfErr result (λ fault. fault ≡ Memory) }
    {
        Document::made(alloc, bytes, settings, Some(encoding))
    }

    /// A document of these bytes that keeps counts by one encoding, if any.
    fn made(
        alloc: Global,
        bytes: &[u8],
        settings: Settings,
        counted: Option<Encoding>,
    ) -> Result<Document, DocumentFault>
        ensures settings { IfOk result (λ d. d.settings ≡ settings) }
        ensures bytes { IfOk result (λ d. d.bytes ≡ bytes.now) }
        ensures names { settings.names ≡ Unique → result ≡ Err UniqueNames }
        ensures any { settings.names ≡ Any → IfErr result (λ fault. fault ≡ Memory) }
    {
        if settings.names == NameRule::Unique {
            return Err(DocumentFault::UniqueNames);
        }
        let front = front(bytes, settings.mark);
        let rest = Chunked::of(alloc, &bytes[skipped(front)..], settings.depth, counted)?;
        Ok(Document {
            settings,
            front,
            rest,
        })
    }

    /// A document as `of` makes it, where so many workers each make a part of it, in a thread of its own where one can be made. It has the
    /// same bytes for every number of workers.
    pub fn of_by<R: Threads + Sync>(
        rt: &R,
        alloc: Global,
        bytes: &[u8],
        settings: Settings,
        workers: usize,
    ) -> Result<Document, DocumentFault>
        ensures settings { IfOk result (λ d. d.settings ≡ settings) }
        ensures bytes { IfOk result (λ d. d.bytes ≡ bytes.now) }
        ensures names { settings.names ≡ Unique → result ≡ Err UniqueNames }
        ensures any { settings.names ≡ Any → IfErr result (λ fault. fault ≡ Memory) }
    {
        let NameRule::Any = settings.names else {
            return Err(DocumentFault::UniqueNames);
        };
        let front = front(bytes, settings.mark);
        let rest = Chunked::of_by(rt, alloc, &bytes[skipped(front)..], settings.depth, workers)?;
        Ok(Document {
            settings,
            front,
            rest,
        })
    }

    /// The number of its bytes, with those of a byte order mark in front.
    pub fn len(&self) -> usize
        ensures { result ≡ length self.now.bytes }
    {
        skipped(self.front) + self.rest.len()
    }

    /// Whether it has no byte.
    pub fn is_empty(&self) -> bool
        ensures { IsTrue result ↔ self.now.bytes ≡ [] }
    {
        self.len() == 0
    }

    /// The bytes from an offset on, up to the end of a chunk: at least one, or none where the offset is the end or
    /// lies after it. Nothing is copied.
    pub fn chunk_at(&self, offset: usize) -> &[u8]
        ensures part { result.now ≡ slice_range self.now.bytes offset (offset + length result.now) }
        ensures some { offset < length self.now.bytes → 0 < length result.now }
    {
        let mark = in_front(self.front);
        if offset < mark.len() {
            return &mark[offset..];
        }
        self.rest.chunk_at(offset - mark.len())
    }

    /// The bytes, chunk by chunk. Nothing is copied.
    pub fn chunks(&self) -> Chunks<'_>
        ensures { concat result ≡ self.now.bytes }
    {
        let mark = &BYTE_ORDER_MARK[..skipped(self.front)];
        self.rest.chunks_behind(mark)
    }

    /// The position of an offset, or of the end where the offset lies after it (Language Server Protocol 3.17, "Position").
    pub fn position_of(&self, offset: usize, encoding: Encoding) -> Position
        ensures { result ≡ position_at encoding self.now.bytes offset }
    {
        let mark = in_front(self.front);
        let front = behind(&mark[..offset.min(mark.len())], encoding);
        self.rest
            .position_from(front, offset.saturating_sub(mark.len()), encoding)
    }

    /// The offset of a position. Inside of a character it is that of the character. Where the line has fewer units, it is that
    /// of the line's end, which is LF or CR LF; and where there are fewer lines, the end.
    pub fn offset_of(&self, position: Position, encoding: Encoding) -> usize
        ensures at { result ≡ offset_at encoding self.now.bytes position }
        ensures within { result ≤ length self.now.bytes }
    {
        let Reached {
            count,
            position: reached,
        } = self.reach(position, encoding);
        if reached.character < position.character && self.is_in_crlf(count) {
            return count.saturating_sub(1);
        }
        count
    }

    /// How many bytes come before the next position is after one.
    fn reach(&self, position: Position, encoding: Encoding) -> Reached
        ensures count { result.count ≡ reach encoding first position self.now.bytes }
        ensures within { result.count ≤ length self.now.bytes }
        ensures position { result.position ≡ position_at encoding self.now.bytes result.count }
    {
        let mark = in_front(self.front);
        let front = behind(mark, encoding);
        if front.is_behind(position) {
            return reach(mark, Position::first(), position, encoding);
        }
        let rest = self.rest.reach_from(front, position, encoding);
        Reached {
            count: mark.len() + rest.count,
            position: rest.position,
        }
    }

    /// Whether an offset stands between CR and LF.
    fn is_in_crlf(&self, offset: usize) -> bool
        ensures { result ≡ is_in_crlf self.now.bytes offset }
    {
        self.byte_at(offset.saturating_sub(1)) == b'\r' && self.byte_at(offset) == b'\n'
    }

    /// The byte at an offset, or 0 where none stands there.
    fn byte_at(&self, offset: usize) -> u8
        ensures { result ≡ slice_index self.now.bytes offset }
    {
        match self.chunk_at(offset) {
            [] => 0,
            [byte, ..] => *byte,
        }
    }

    /// The settings that it was made with.
    pub fn settings(&self) -> Settings
        ensures { result ≡ self.now.settings }
    {
        self.settings
    }

    /// The verdict on its bytes as a whole text by its settings (RFC 8259, sections 2, 8.1 and 9). Offsets count all bytes.
    /// It takes up only what edits changed since the last verdict.
    pub fn verdict(&mut self) -> Result<Verdict, AllocError>
        ensures same { self.new ≡ self.old }
        ensures verdict { IfOk result (JudgedBy self.old.settings 0 self.old.bytes) }
    {
        beginning_of_a_text_by_its_front();
        match self.front {
            Front::Skip(count) => {
                let verdict = self.rest.verdict(count)?;
                Ok(verdict)
            }
            Front::Refused(refusal) => Ok(Verdict::Refused(refusal)),
        }
    }

    /// The stand of a reading of its text by its settings at an offset; none where the bytes before it do not begin a text. It is known after a
    /// verdict, which reads the text: before it may be none. It reads the bytes of one chunk.
    pub fn stand(&self, at: usize) -> Result<Option<Stand>, AllocError>
        ensures { IfOk result (λ found. IfSome found (StandsBefore self.now.settings self.now.bytes at)) }
    {
        let Front::Skip(skip) = self.front else {
            return Ok(None);
        };
        if at < skip || self.len() < at {
            return Ok(None);
        }
        match self.rest.stand(at - skip)? {
            None => Ok(None),
            Some(place) => {
                let Place {
                    state,
                    expect,
                    holders,
                } = place;
                Ok(Some(Stand {
                    state,
                    expect,
                    holders,
                }))
            }
        }
    }

    /// Puts other bytes in the place of those from `start` up to `end`. Where that is refused nothing changes.
    pub fn edit(
        &mut self,
        start: usize,
        end: usize,
        replacement: &[u8],
    ) -> Result<(), DocumentFault>
        ensures settings { self.new.settings ≡ self.old.settings }
        ensures ok { OnOk result (self.new.bytes ≡ edited start end replacement.now self.old.bytes) }
        ensures err { OnErr result (self.new ≡ self.old) }
        ensures inside { start ≤ end → end ≤ length self.old.bytes → IfErr result (λ fault. fault ≡ Memory) }
        ensures outside { (start ≤ end → end ≤ length self.old.bytes → ⊥) → result ≡ Err OutOfBounds }
    {
        if end < start || self.len() < end {
            return Err(DocumentFault::OutOfBounds);
        }
        let kept = self.len() - (end - start);
        if MOST < kept.saturating_add(replacement.len()) {
            return Err(DocumentFault::Memory);
        }
        if start < BYTE_ORDER_MARK.len() {
            self.edit_front(start, end, replacement)?;
            return Ok(());
        }
        let skip = skipped(self.front);
        self.rest
            .edit(start - skip, end - skip, Replacement::of(replacement))?;
        Ok(())
    }

    /// Makes an edit at a place so near to the start that a byte order mark in front may change.
    fn edit_front(&mut self, start: usize, end: usize, replacement: &[u8]) -> Result<(), AllocError>
        requires order { start ≤ end }
        requires within { end ≤ length self.old.bytes }
        requires fits { (length self.old.bytes - (end - start)) + length replacement.now < 2 ^ 63 }
        ensures settings { self.new.settings ≡ self.old.settings }
        ensures ok { OnOk result (self.new.bytes ≡ edited start end replacement.now self.old.bytes) }
        ensures err { OnErr result (self.new ≡ self.old) }
    {
        // After three bytes nothing changes what stands in front.
        let far = end.saturating_add(3).min(self.len());
        let before = self.bytes_between(0, start)?;
        let behind = self.bytes_between(end, far)?;
        let put = Replacement {
            before: &before,
            bytes: replacement,
            behind: &behind,
        };
        let front = put.front(self.rest.allocator(), self.settings.mark)?;
        let skip = skipped(self.front);
        self.rest.edit(0, far - skip, put.without(skipped(front)))?;
        self.front = front;
        Ok(())
    }

    /// A copy of the bytes from `start` up to `end`.
    pub fn copy(&self, start: usize, end: usize) -> Result<Vec<u8>, DocumentFault>
        ensures ok { IfOk result (λ bytes. bytes.items ≡ slice_range self.now.bytes start end) }
        ensures inside { start ≤ end → end ≤ length self.now.bytes → IfErr result (λ fault. fault ≡ Memory) }
        ensures outside { (start ≤ end → end ≤ length self.now.bytes → ⊥) → result ≡ Err OutOfBounds }
    {
        if end < start || self.len() < end {
            return Err(DocumentFault::OutOfBounds);
        }
        Ok(self.bytes_between(start, end)?)
    }

    fn bytes_between(&self, start: usize, end: usize) -> Result<Vec<u8>, AllocError>
        requires order { start ≤ end }
        requires within { end ≤ length self.now.bytes }
        ensures { IfOk result (λ bytes. bytes.items ≡ slice_range self.now.bytes start end) }
    {
        let skip = skipped(self.front);
        if skip <= start {
            let bytes = self.rest.copy(start - skip, end - skip)?;
            return Ok(bytes);
        }
        let mark = &BYTE_ORDER_MARK[..skip];
        let mut bytes = Vec::from_slice(self.rest.allocator(), &mark[start..end.min(skip)])?;
        let behind = self.rest.copy(0, end.saturating_sub(skip))?;
        bytes.extend_from_slice(&behind)?;
        Ok(bytes)
    }
}
