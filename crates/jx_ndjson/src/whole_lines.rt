// Whole lines of an input, judged without what is before them.
ghost use Rattle.std.specs.Prelude.{◌≡◌, ◌+◌, ◌<◌, ◌≤◌, ◌^◌, ◌++◌, ℕ, List, length, map, vec_len, OnOk, OnErr};
ghost use Rattle.jx_ndjson.specs.declared.judged_line.JudgedLine.{JudgedLine};
ghost use Rattle.jx_ndjson.specs.WholeLines.{AreWhole, moved_line};

use crate::judged_line::JudgedLine;
use jx_run::reader_and_grammar;
use std::alloc::AllocError;
use std::marker::Model;

/// Lines that a line feed ends, each judged as a text of its own. Offsets count from their first byte, and numbers from 1.
#[derive(Debug, Drop)]
pub struct WholeLines {
    len: usize,
    count: usize,
    bad: Vec<JudgedLine>,
}

impl Model for WholeLines {
    ghost use Rattle.std.specs.Prelude.{◌≤◌, length};
    ghost use Rattle.jx_ndjson.specs.WholeLines.{WholeLinesValue};

    ghost Value = { WholeLinesValue };

    ghost view = { λ w. record { len = w.len; count = w.count; bad = w.bad.items } };

    ghost invariant = { λ w. (length w.bad.items ≤ w.count) × (w.count ≤ w.len) };
}

/// Appends the same lines after so many lines, which have so many bytes. When out of memory nothing is appended.
pub(crate) fn append_behind(
    bad: &mut Vec<JudgedLine>,
    more: &[JudgedLine],
    lines: usize,
    bytes: usize,
) -> Result<(), AllocError>
    ensures ok { OnOk result (bad.new.items ≡ bad.old.items ++ map (moved_line lines bytes) more.now) }
    ensures err { OnErr result (bad.new.items ≡ bad.old.items) }
{
    let before = bad.len();
    for at in 0..more.len() {
        if bad.push(more[at].behind(lines, bytes)).is_err() {
            bad.truncate(before);
            return Err(AllocError);
        }
    }
    Ok(())
}

impl WholeLines {
    pub(crate) fn new(len: usize, count: usize, bad: Vec<JudgedLine>) -> WholeLines
        requires bad { vec_len bad ≤ count }
        requires count { count ≤ len }
        ensures { result ≡ record { len = len; count = count; bad = bad.items } }
    {
        WholeLines { len, count, bad }
    }

    /// The number of bytes that the lines have.
    pub fn len(&self) -> usize
        ensures { result ≡ self.now.len }
    {
        self.len
    }

    /// The number of lines.
    pub fn count(&self) -> usize
        ensures count { result ≡ self.now.count }
        ensures len { result ≤ self.now.len }
        ensures bad { length self.now.bad ≤ result }
    {
        self.count
    }

    /// The lines that are not valid JSON, in their order.
    pub fn bad(&self) -> &[JudgedLine]
        ensures { result.now ≡ self.now.bad }
    {
        &self.bad
    }

    /// Takes in the lines after these. When out of memory nothing is taken in.
    pub(crate) fn take_in(&mut self, behind: &WholeLines) -> Result<(), AllocError>
        requires { self.old.len + behind.now.len < 2 ^ 64 }
        ensures joins { OnOk result ((limit : ℕ) (xs ys : List ℕ) (before more : List JudgedLine) → AreWhole limit xs before self.old → AreWhole limit ys more behind.now
            → AreWhole limit (xs ++ ys) (before ++ map (moved_line self.old.count self.old.len) more) self.new) }
        ensures len { OnOk result (self.new.len ≡ self.old.len + behind.now.len) }
        ensures err { OnErr result (self.new ≡ self.old) }
    {
        reader_and_grammar();
        append_behind(&mut self.bad, &behind.bad, self.count, self.len)?;
        self.len += behind.len;
        self.count += behind.count;
        Ok(())
    }
}
