// Numbers, and the parts of a text that words name by them.
ghost use Rattle.std.specs.Prelude.{◌≤◌, IfOk};

use crate::line::LineFault;
use jx_lex::{Depth, Span};
use std::alloc::Global;

/// The number in a word.
pub fn number_of(word: &str) -> Result<usize, LineFault> {
    word.parse::<usize>().ok().ok_or(LineFault::NoSuchCall)
}

/// The numbers of a list.
pub fn numbers_of(alloc: Global, word: &str) -> Result<Vec<usize>, LineFault> {
    let mut numbers = Vec::new(alloc);
    if word == "-" {
        return Ok(numbers);
    }
    for number in word.split(',') {
        numbers.push(number_of(number)?)?;
    }
    Ok(numbers)
}

/// The depth of so many containers.
pub fn depth_of(word: &str) -> Result<Depth, LineFault> {
    let containers = word.parse::<u32>().ok().ok_or(LineFault::NoSuchCall)?;
    Depth::new(containers).ok_or(LineFault::NoSuchCall)
}

/// A span within so many bytes.
pub fn span_within(word: &str, len: usize) -> Result<Span, LineFault>
    ensures ordered { IfOk result (λ span. span.start ≤ span.end) }
    ensures within { IfOk result (λ span. span.end ≤ len) }
{
    let (start, end) = word.split_once("..").ok_or(LineFault::NoSuchCall)?;
    let (start, end) = (number_of(start)?, number_of(end)?);
    if start <= end && end <= len {
        Ok(Span { start, end })
    } else {
        Err(LineFault::NoSuchCall)
    }
}

/// Two spans that meet.
#[derive(Clone, Copy)]
pub struct Meeting {
    /// Where the left one starts.
    pub start: usize,
    /// Where they meet.
    pub cut: usize,
    /// Where the right one ends.
    pub end: usize,
}

/// Two spans that meet, within so many bytes.
pub fn meeting_within(word: &str, len: usize) -> Result<Meeting, LineFault>
    ensures left { IfOk result (λ meeting. meeting.start ≤ meeting.cut) }
    ensures right { IfOk result (λ meeting. meeting.cut ≤ meeting.end) }
    ensures within { IfOk result (λ meeting. meeting.end ≤ len) }
{
    let (start, right) = word.split_once("..").ok_or(LineFault::NoSuchCall)?;
    let start = number_of(start)?;
    let right = span_within(right, len)?;
    let (cut, end) = (right.start, right.end);
    if start <= cut {
        Ok(Meeting { start, cut, end })
    } else {
        Err(LineFault::NoSuchCall)
    }
}
