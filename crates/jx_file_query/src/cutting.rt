// The state kept of the token starts of a container, for its parts.
ghost use Rattle.std.specs.Prelude.{◌≡◌, IfSome, OnOk};
ghost use Rattle.jx_file_query.specs.Cuts.{at_child, at_last, at_level, cut, cuts_of, begun, with_mark, with_part};
ghost use Rattle.jx_file_query.specs.Parts.{part_of};

use crate::part::ContainerPart;
use jx_file_index::Sum;
use jx_lex::{Mark, MarkKind, Span};
use std::alloc::{AllocError, Global};

/// A container, and into how many parts its bytes are cut.
#[derive(Clone, Copy, Debug, PartialEq, Eq)]
pub struct Aim {
    /// Where the container stands.
    pub whole: Span,
    /// How many parts.
    pub parts: usize,
}

/// The state after the token starts of a text.
#[derive(Debug, Drop)]
pub struct Parting {
    /// The sum of the token starts after the container's opening bracket, up to its closing one.
    pub sum: Sum,
    /// Whether one of them was another than that.
    pub some: bool,
    /// The parts that have ended.
    pub ended: Vec<ContainerPart>,
    /// The number of the part that has not.
    pub number: usize,
    /// Where the comma or the bracket before its first child stands.
    pub start: usize,
    /// Its first child, counted from 0.
    pub first: usize,
}

impl Aim {
    /// In which part an offset of the container stands, if its number is a `usize`.
    pub(crate) fn part_of(self, at: usize) -> Option<usize>
        ensures { IfSome result (λ number. number ≡ part_of self.parts self.whole at) }
    {
        let long = self.whole.end.saturating_sub(self.whole.start);
        if long == 0 {
            return None;
        }
        let far = at.saturating_sub(self.whole.start) as u128;
        let number = far * self.parts as u128 / long as u128;
        usize::try_from(number).ok()
    }
}

impl Parting {
    /// Before the first token start.
    pub(crate) fn new(alloc: Global, whole: Span) -> Parting
        ensures { cuts_of result ≡ begun whole }
    {
        Parting {
            sum: Sum::new(),
            some: false,
            ended: Vec::new(alloc),
            number: 0,
            start: whole.start,
            first: 0,
        }
    }

    /// Counts a token start.
    fn count(&mut self, kind: MarkKind) -> Result<(), AllocError>
        ensures { OnOk result (cuts_of self.new ≡ with_mark kind (cuts_of self.old)) }
    {
        let Some(sum) = self.sum.step(kind) else {
            return Err(AllocError);
        };
        self.sum = sum;
        self.some = true;
        Ok(())
    }

    /// Ends the open part at a comma or a bracket, before a child.
    fn end_part(&mut self, at: usize, end: usize) -> Result<(), AllocError>
        ensures { OnOk result (cuts_of self.new ≡ with_part at end (cuts_of self.old)) }
    {
        let start = self.start.checked_add(1).ok_or(AllocError)?;
        self.ended.push(ContainerPart {
            number: self.number,
            span: Span { start, end: at },
            first: self.first,
            end,
        })?;
        Ok(())
    }

    /// At a comma, after which a child of the part with this number stands.
    fn begin_child(&mut self, number: usize, at: usize) -> Result<(), AllocError>
        ensures { OnOk result (cuts_of self.new ≡ at_child number at (cuts_of self.old)) }
    {
        if number == self.number {
            return Ok(());
        }
        let first = self.sum.commas as usize;
        self.end_part(at, first)?;
        self.number = number;
        self.start = at;
        self.first = first;
        Ok(())
    }

    /// At the closing bracket.
    fn close(&mut self, at: usize) -> Result<(), AllocError>
        ensures { OnOk result (cuts_of self.new ≡ at_last at self.old.some (cuts_of self.old)) }
    {
        let Some(sum) = self.sum.step(MarkKind::CloseArray) else {
            return Err(AllocError);
        };
        if self.some {
            let end = (self.sum.commas as usize).checked_add(1).ok_or(AllocError)?;
            self.end_part(at, end)?;
        }
        self.sum = sum;
        Ok(())
    }

    /// At a token start between children.
    fn turn(&mut self, aim: Aim, kind: MarkKind, at: usize) -> Result<(), AllocError>
        ensures { OnOk result (cuts_of self.new ≡ at_level aim kind at (cuts_of self.old)) }
    {
        match kind {
            MarkKind::CloseArray | MarkKind::CloseObject => self.close(at),
            MarkKind::Comma => {
                let number = aim.part_of(at).ok_or(AllocError)?;
                self.count(MarkKind::Comma)?;
                self.begin_child(number, at)
            }
            _ => self.count(kind),
        }
    }

    /// Takes one token start more. Fails only when out of memory, and counts that are too large.
    pub(crate) fn take(&mut self, aim: Aim, mark: Mark) -> Result<(), AllocError>
        ensures { OnOk result (cuts_of self.new ≡ cut aim mark (cuts_of self.old)) }
    {
        if mark.at <= aim.whole.start || self.sum.closed != 0 {
            return Ok(());
        }
        if self.sum.opened > 0 {
            return self.count(mark.kind);
        }
        self.turn(aim, mark.kind, mark.at)
    }
}
