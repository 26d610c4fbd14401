// A document that a client has open.
ghost use Rattle.std.specs.Prelude.{◌≡◌, ◌≤◌, ◌<◌, length, not, false, true, None, IfOk, IfSome, OnErr, OnOk, fold, is_some};
ghost use Rattle.jx_edit.specs.declared.positions.encoding.Encoding.{Encoding};
ghost use Rattle.jx_index.specs.ByNames.{IsVerdictBy};
ghost use Rattle.jx_run.specs.Settings.{JudgedBy};
ghost use Rattle.jx_serve.specs.Changes.{changed, held, lose, position, replaced};
ghost use Rattle.jx_serve.specs.LineMarks.{AreLineMarks};
ghost use Rattle.jx_serve.specs.Marks.{told, IsPlaced};
ghost use Rattle.jx_serve.specs.Values.{any_names, shown_from, IsHovered, IsOutline, IsOutlined};
ghost use Rattle.jx_serve.specs.Selections.{AreSelected, AreSelections};
ghost use Rattle.jx_complete.specs.Completed.{IsCompleted, IsCutInMark};
ghost use Rattle.jx_serve.specs.inside.Names.{IsHeld};
ghost use Rattle.jx_edit.specs.Positions.{offset_at};

use crate::hover::Hover;
use crate::line_mark::{LineMarks, line_marks_of};
use crate::line_table::LineTable;
use crate::mark::{Mark, mark_of};
use crate::selections::{Selection, selections_of};
use crate::symbols::{Outline, symbols_of};
use crate::under_cursor::{start_of, value_at};
use jx_around::Around;
use jx_complete::{Completed, complete};
use jx_edit::{Document, DocumentFault, Encoding, Position};
use jx_index::{read_rows, repeated_name_by_rows, verdict_with_unique_names};
use jx_run::{NameRule, NoPause, Settings, Verdict};
use jx_wire::{Change, Place};
use std::alloc::{AllocError, Global};
use std::marker::Model;

/// The bytes that a client has in a document, unless they are lost: where a change was refused, the client has gone on with
/// other bytes, and nobody knows these until it sends all of them.
#[derive(Drop)]
pub struct Held {
    alloc: Global,
    settings: Settings,
    document: Document,
    // of JSON Lines the lines that were read; of one text none are
    lines: LineTable,
    lost: bool,
}

impl Model for Held {
    ghost use Rattle.jx_serve.specs.Changes.{HeldValue};
    ghost use Rattle.jx_serve.specs.inside.LineTables.{IsTable};
    ghost use Rattle.jx_serve.specs.inside.Names.{IsHeld};

    ghost Value = { HeldValue };

    ghost view = { λ h. record { settings = h.settings; bytes = h.document.bytes; lost = h.lost } };

    ghost invariant = { λ h. IsHeld h.settings h.document.settings × IsTable h.settings.depth h.document.bytes h.lines };
}

/// The offset at which a value is shown that contains an offset: the start of its name where the offset is before the value.
fn shown_from(row: &Around, offset: usize) -> usize
    ensures { result ≡ shown_from offset row.now }
{
    if offset < row.span.start {
        start_of(row.name, row.span)
    } else {
        row.span.start
    }
}

/// The text that is read in place of bytes that have a verdict. Where they are a text they are not read for that.
fn completed_by(
    alloc: Global,
    bytes: Vec<u8>,
    settings: &Settings,
    verdict: Verdict,
) -> Result<Option<Completed>, AllocError>
    requires { JudgedBy settings.now 0 bytes.items verdict }
    ensures some { IfOk result (λ c. IfSome c (λ c. IsCompleted settings.now bytes.items c.text.items c.kept)) }
    ensures none { IfOk result (λ c. c ≡ None → IsCutInMark settings.now bytes.items) }
{
    match verdict {
        Verdict::Accepted => {
            let kept = bytes.len();
            Ok(Some(Completed { text: bytes, kept }))
        }
        Verdict::Refused(_) => complete(alloc, bytes, settings),
    }
}

/// A document of these bytes, whatever names its objects have, that finds positions by this encoding fast.
fn document_of(
    alloc: Global,
    text: &[u8],
    settings: &Settings,
    encoding: Encoding,
) -> Result<Document, AllocError>
    ensures bytes { IfOk result (λ d. d.bytes ≡ text.now) }
    ensures settings { IfOk result (λ d. IsHeld settings.now d.settings) }
{
    let any = Settings {
        depth: settings.depth,
        mark: settings.mark,
        names: NameRule::Any,
    };
    match Document::counted(alloc, text, any, encoding) {
        Ok(document) => Ok(document),
        Err(_) => Err(AllocError),
    }
}

impl Held {
    /// A document of these bytes, which finds positions by this encoding fast.
    pub fn of(
        alloc: Global,
        text: &[u8],
        settings: Settings,
        encoding: Encoding,
    ) -> Result<Held, AllocError>
        ensures { IfOk result (λ h. h ≡ held settings text.now) }
    {
        let document = document_of(alloc, text, &settings, encoding)?;
        Ok(Held {
            alloc,
            settings,
            document,
            lines: LineTable::new(alloc),
            lost: false,
        })
    }

    /// Whether its bytes are lost.
    pub fn is_lost(&self) -> bool
        ensures { result ≡ self.now.lost }
    {
        self.lost
    }

    /// The diagnostic that shows a verdict on it.
    pub fn mark(&self, encoding: Encoding, verdict: Verdict) -> Result<Option<Mark>, AllocError>
        ensures told { IfOk result (λ mark. told mark ≡ verdict) }
        ensures placed { IfOk result (λ mark. IfSome mark (IsPlaced encoding self.now.bytes)) }
    {
        mark_of(
            self.alloc,
            &self.document,
            &self.settings,
            encoding,
            verdict,
        )
    }

    /// Forgets the bytes until all of them come.
    pub fn lose(&mut self)
        ensures { self.new ≡ lose self.old }
    {
        self.lost = true;
    }

    /// Makes a change. When out of memory, the bytes are lost.
    pub fn change(&mut self, change: &Change, encoding: Encoding) -> Result<(), AllocError>
        ensures ok { OnOk result (self.new ≡ changed encoding self.old change.now) }
        ensures err { OnErr result (self.new ≡ lose self.old) }
    {
        match change {
            Change::Whole(text) => self.renew(text, encoding),
            Change::Unknown => {
                self.lost = true;
                Ok(())
            }
            Change::Range { start, end, text } => {
                if self.lost {
                    return Ok(());
                }
                let from = self.document.offset_of(position_of(*start), encoding);
                // The text that is put in has one place: its offset is not looked for twice.
                if start == end {
                    return self.replace(from, from, text);
                }
                let to = self.document.offset_of(position_of(*end), encoding);
                self.replace(from, to, text)
            }
        }
    }

    /// Begins anew with other bytes.
    fn renew(&mut self, text: &[u8], encoding: Encoding) -> Result<(), AllocError>
        ensures ok { OnOk result (self.new ≡ held self.old.settings text.now) }
        ensures err { OnErr result (self.new ≡ lose self.old) }
    {
        match document_of(self.alloc, text, &self.settings, encoding) {
            Ok(document) => {
                self.document = document;
                self.lines = LineTable::new(self.alloc);
                self.lost = false;
                Ok(())
            }
            Err(AllocError) => {
                self.lost = true;
                Err(AllocError)
            }
        }
    }

    /// Puts other bytes in the place of those from `start` up to `end`. The bytes are lost where that is no range.
    fn replace(&mut self, start: usize, end: usize, text: &[u8]) -> Result<(), AllocError>
        requires { end ≤ length self.old.bytes }
        ensures ok { OnOk result (self.new ≡ replaced start end text.now self.old) }
        ensures err { OnErr result (self.new ≡ lose self.old) }
    {
        if end < start {
            self.lost = true;
            return Ok(());
        }
        self.lines.open(self.document.len(), start, end);
        match self.document.edit(start, end, text) {
            Ok(()) => Ok(()),
            Err(DocumentFault::Memory) => {
                self.lost = true;
                Err(AllocError)
            }
            Err(DocumentFault::OutOfBounds | DocumentFault::UniqueNames) => {
                self.lost = true;
                Ok(())
            }
        }
    }

    /// Makes changes, each to what the one before it left. When out of memory, the bytes are lost.
    pub fn change_all(&mut self, changes: &[Change], encoding: Encoding) -> Result<(), AllocError>
        ensures ok { OnOk result (self.new ≡ fold (changed encoding) self.old changes.now) }
        ensures err { OnErr result (self.new.lost ≡ true) }
    {
        for change in changes {
            self.change(change, encoding)?;
        }
        Ok(())
    }

    /// The innermost value at a place before the fault, with its positions (RFC 8259), whatever names objects have; none where the
    /// bytes are lost, or where no value stands there before the fault. A copy of all bytes is read.
    pub fn hover(&mut self, place: Place, encoding: Encoding) -> Result<Option<Hover>, AllocError>
        ensures same { self.new ≡ self.old }
        ensures lost { self.old.lost ≡ true → IfOk result (λ hover. hover ≡ None) }
        ensures value { self.old.lost ≡ false → IfOk result (IsHovered encoding self.old.settings self.old.bytes (offset_at encoding self.old.bytes (position place))) }
    {
        if self.lost {
            return Ok(None);
        }
        let Some(completed) = self.completed()? else {
            return Ok(None);
        };
        self.hover_at(&completed, place, encoding)
    }

    /// The innermost value of a completed text at a place before the fault.
    fn hover_at(
        &self,
        completed: &Completed,
        place: Place,
        encoding: Encoding,
    ) -> Result<Option<Hover>, AllocError>
        requires { IsCompleted (any_names self.now.settings) self.now.bytes completed.now.text.items completed.now.kept }
        ensures { IfOk result (IsHovered encoding self.now.settings self.now.bytes (offset_at encoding self.now.bytes (position place))) }
    {
        let offset = self.document.offset_of(position_of(place), encoding);
        if completed.kept <= offset {
            return Ok(None);
        }
        self.hover_in(completed, offset, encoding)
    }

    /// The innermost value of a completed text at an offset, unless it is due at the fault.
    fn hover_in(
        &self,
        completed: &Completed,
        offset: usize,
        encoding: Encoding,
    ) -> Result<Option<Hover>, AllocError>
        requires completed { IsCompleted (any_names self.now.settings) self.now.bytes completed.now.text.items completed.now.kept }
        requires before { offset < completed.now.kept }
        ensures { IfOk result (IsHovered encoding self.now.settings self.now.bytes offset) }
    {
        let settings = self.document.settings();
        match value_at(self.alloc, &completed.text, &settings, offset)? {
            None => Ok(None),
            Some(value) => {
                let kept = completed.kept;
                if kept <= value.row.span.start {
                    return Ok(None);
                }
                let from = shown_from(&value.row, offset);
                let end = kept.min(value.row.span.end);
                let start = self.document.position_of(from, encoding);
                let end = self.document.position_of(end, encoding);
                Ok(Some(Hover {
                    value,
                    kept,
                    start,
                    end,
                }))
            }
        }
    }

    /// The first 10,000 values that begin before the fault, with their positions (RFC 8259), whatever names objects have; none
    /// where the bytes are lost, or begin no more than a byte order mark before the fault. A copy of all bytes is read.
    pub fn symbols(&mut self, encoding: Encoding) -> Result<Option<Outline>, AllocError>
        ensures same { self.new ≡ self.old }
        ensures lost { self.old.lost ≡ true → IfOk result (λ outline. outline ≡ None) }
        ensures values { self.old.lost ≡ false → IfOk result (IsOutlined encoding self.old.settings self.old.bytes) }
    {
        if self.lost {
            return Ok(None);
        }
        let Some(completed) = self.completed()? else {
            return Ok(None);
        };
        let outline = self.outline_in(completed, encoding)?;
        Ok(Some(outline))
    }

    /// The first 10,000 values of a completed text that begin before the fault.
    fn outline_in(&self, completed: Completed, encoding: Encoding) -> Result<Outline, AllocError>
        requires completed { IsCompleted (any_names self.now.settings) self.now.bytes completed.text.items completed.kept }
        ensures { IfOk result (IsOutline encoding self.now.settings self.now.bytes) }
    {
        let settings = self.document.settings();
        let kept = completed.kept;
        match read_rows(self.alloc, &completed.text, &settings)? {
            // The completed bytes are a text.
            Err(_) => unreachable!(),
            Ok(rows) => {
                let text = completed.text;
                let symbols = symbols_of(self.alloc, &self.document, &text, &rows, kept, encoding)?;
                Ok(Outline { text, symbols })
            }
        }
    }

    /// The ranges around each of some places before the fault, with their positions (RFC 8259), whatever names objects have; none
    /// where the bytes are lost, or begin no more than a byte order mark before the fault. A copy of all bytes is read.
    pub fn selections(
        &mut self,
        places: &[Place],
        encoding: Encoding,
    ) -> Result<Option<Vec<Selection>>, AllocError>
        ensures same { self.new ≡ self.old }
        ensures lost { self.old.lost ≡ true → IfOk result (λ selections. selections ≡ None) }
        ensures values { self.old.lost ≡ false → IfOk result (AreSelected encoding self.old.settings self.old.bytes places.now) }
    {
        if self.lost {
            return Ok(None);
        }
        let Some(completed) = self.completed()? else {
            return Ok(None);
        };
        let selections = self.selections_in(&completed, places, encoding)?;
        Ok(Some(selections))
    }

    /// The ranges around places of a completed text before the fault.
    fn selections_in(
        &self,
        completed: &Completed,
        places: &[Place],
        encoding: Encoding,
    ) -> Result<Vec<Selection>, AllocError>
        requires completed { IsCompleted (any_names self.now.settings) self.now.bytes completed.now.text.items completed.now.kept }
        ensures { IfOk result (λ selections. AreSelections encoding self.now.settings self.now.bytes places.now selections.items) }
    {
        let settings = self.document.settings();
        let kept = completed.kept;
        match read_rows(self.alloc, &completed.text, &settings)? {
            // The completed bytes are a text.
            Err(_) => unreachable!(),
            Ok(rows) => {
                let alloc = self.alloc;
                let selections = selections_of(
                    alloc,
                    &self.document,
                    &rows,
                    kept,
                    places,
                    encoding,
                )?;
                Ok(selections)
            }
        }
    }

    /// The text that is read in place of the bytes: the bytes where they are a text, or those before the fault, completed.
    fn completed(&mut self) -> Result<Option<Completed>, AllocError>
        ensures same { self.new ≡ self.old }
        ensures some { IfOk result (λ c. IfSome c (λ c. IsCompleted (any_names self.old.settings) self.old.bytes c.text.items c.kept)) }
        ensures none { IfOk result (λ c. c ≡ None → IsCutInMark (any_names self.old.settings) self.old.bytes) }
    {
        let verdict = self.document.verdict()?;
        let bytes = self.copy()?;
        let settings = self.document.settings();
        completed_by(self.alloc, bytes, &settings, verdict)
    }

    /// All bytes.
    fn copy(&self) -> Result<Vec<u8>, AllocError>
        ensures { IfOk result (λ bytes. bytes.items ≡ self.now.bytes) }
    {
        match self.document.copy(0, self.document.len()) {
            Ok(bytes) => Ok(bytes),
            Err(_) => Err(AllocError),
        }
    }

    /// The verdict on the bytes by the settings (RFC 8259); none where they are lost. Where names have to be unique, a copy of
    /// all bytes is read.
    pub fn verdict(&mut self) -> Result<Option<Verdict>, AllocError>
        ensures same { self.new ≡ self.old }
        ensures lost { IfOk result (λ verdict. is_some verdict ≡ not self.old.lost) }
        ensures verdict { IfOk result (λ verdict. IfSome verdict (IsVerdictBy self.old.settings self.old.bytes)) }
    {
        repeated_name_by_rows();
        if self.lost {
            return Ok(None);
        }
        match self.settings.names {
            NameRule::Any => {
                let verdict = self.document.verdict()?;
                Ok(Some(verdict))
            }
            NameRule::Unique => {
                // After a verdict of its own the document knows where its reading is.
                self.document.verdict()?;
                let bytes = self.copy()?;
                let verdict = verdict_with_unique_names(
                    self.alloc,
                    &bytes,
                    &self.settings,
                    &mut NoPause,
                )?;
                Ok(Some(verdict))
            }
        }
    }

    /// The lines that are not valid JSON, as JSON Lines has them: how the first 1,000 are shown, and how many more there are; none where
    /// the bytes are lost. Names may be repeated, whatever the settings say. Lines that no change has touched are not read again.
    pub fn line_marks(&mut self, encoding: Encoding) -> Result<Option<LineMarks>, AllocError>
        ensures same { self.new ≡ self.old }
        ensures lost { IfOk result (λ marks. is_some marks ≡ not self.old.lost) }
        ensures marks { IfOk result (λ marks. IfSome marks (λ marks. AreLineMarks encoding self.old.settings self.old.bytes marks)) }
    {
        if self.lost {
            return Ok(None);
        }
        self.lines
            .fill(self.alloc, &self.document, self.settings.depth)?;
        let marks = line_marks_of(
            self.alloc,
            &self.document,
            &self.lines,
            &self.settings,
            encoding,
        )?;
        Ok(Some(marks))
    }
}

/// A place of a message as a position in a document.
pub(crate) fn position_of(place: Place) -> Position
    ensures { result ≡ position place }
{
    Position {
        line: place.line,
        character: place.character,
    }
}
