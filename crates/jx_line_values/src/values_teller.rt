// A reporter on the values of lines of an input that comes slice by slice.
ghost use Rattle.std.specs.Prelude.{◌≡◌, ◌<◌, ◌+◌, ◌^◌, ◌++◌, All, Bool, List, Option, ℕ, [], IfOk, OnOk, length};
ghost use Rattle.jx_index.specs.Pointers.{IsPointer};
ghost use Rattle.jx_line_values.specs.declared.task.LineValuesTask.{LineValuesTask};
ghost use Rattle.jx_line_values.specs.LineValues.{pointers_of};
ghost use Rattle.jx_line_values.specs.inside.ValuesTeller.{Gave, HasRead, HasTold};

use crate::cutting::LineCutter;
use crate::looking::trie_of_all;
use crate::rows_part::RowsPart;
use crate::rows_rule::RowsRule;
use crate::taking_rows::take_part;
use crate::task::LineValuesTask;
use jx_drive::{Reporter, tell};
use jx_ends::{Exit, Sink};
use jx_find::PointerTrie;
use jx_lex::Span;
use jx_ndjson::whole_lines_of;
use jx_parallel::{Judged, PartReader};
use std::alloc::{AllocError, Global};
use std::marker::Model;

/// How many bytes wait at most, beside those of one read or part, before it is full.
const FULL: usize = 32 * 1024 * 1024;

/// A reporter on the values of lines: its task, the line that goes on, and the output and messages that wait.
#[derive(Drop)]
pub(crate) struct ValuesTeller<'t> {
    alloc: Global,
    task: &'t LineValuesTask,
    /// The pointers of the task.
    trie: PointerTrie<'t>,
    cutter: LineCutter,
    /// How many bytes it has taken.
    end: usize,
}

impl<'t> Model for ValuesTeller<'t> {
    ghost use Rattle.jx_find.specs.PointerTrie.{IsTrieOf};
    ghost use Rattle.jx_line_values.specs.LineValues.{pointers_of};
    ghost use Rattle.jx_line_values.specs.inside.ValuesTeller.{ValuesTellerValue};

    ghost Value = { ValuesTellerValue };

    ghost view = { λ t. record { task = t.task.now; cutter = t.cutter; end = t.end } };

    ghost invariant = { λ t. IsTrieOf (pointers_of t.task.now) t.trie };
}

impl<'t> ValuesTeller<'t> {
    /// One that has taken no byte. Fails only when out of memory.
    pub fn new(alloc: Global, task: &'t LineValuesTask) -> Result<ValuesTeller<'t>, AllocError>
        requires { All IsPointer (pointers_of task.now) }
        ensures taken { IfOk result (λ teller. (is_lost : Bool) (told : Option (List ℕ)) → HasTold task.now is_lost told told [] [] teller) }
        ensures ready { IfOk result (λ teller. teller.cutter.ready ≡ []) }
        ensures told { IfOk result (λ teller. teller.cutter.told ≡ []) }
    {
        let trie = trie_of_all(alloc, &task.pointers)?;
        let cutter = LineCutter::new(alloc);
        Ok(ValuesTeller {
            alloc,
            task,
            trie,
            cutter,
            end: 0,
        })
    }

    /// Goes on by the bytes after all that it has taken. Fails only when out of memory.
    fn go_on(&mut self, bytes: &[u8]) -> Result<(), AllocError>
        requires { self.old.end + length bytes.now < 2 ^ 64 }
        ensures { OnOk result ((task : LineValuesTask) (before : List ℕ) (gave : Gave) → HasRead task before gave self.old → HasRead task (before ++ bytes.now) gave self.new) }
    {
        self.cutter.feed(self.alloc, self.task, &self.trie, bytes)?;
        self.end += bytes.len();
        Ok(())
    }

    /// Takes a slice after all bytes that it has taken. Fails only when out of memory, or where those are too many for a number.
    pub fn take(&mut self, slice: &[u8]) -> Result<(), AllocError>
        ensures { OnOk result ((task : LineValuesTask) (is_lost : Bool) (told retold : Option (List ℕ)) (bytes given : List ℕ) → HasTold task is_lost told retold bytes given self.old
            → HasTold task is_lost told retold (bytes ++ slice.now) given self.new) }
    {
        if slice.len() >= usize::MAX - self.end {
            return Err(AllocError);
        }
        self.go_on(slice)
    }
}

impl<'t, E: Sink> Reporter<E> for ValuesTeller<'t> {
    ghost use Rattle.jx_ends.specs.declared.exit.Exit.{Exit};
    ghost use Rattle.jx_line_values.specs.Reports.{ToldBegun, ToldDue, ToldOutput};
    ghost use Rattle.jx_line_values.specs.inside.ValuesTeller.{HasEnded, HasTold, ValuesTellerValue};

    type Task = LineValuesTask;

    ghost is_due = { λ task was now. ToldDue task (E.has_failed now) (E.contents was) (E.contents now) };

    ghost is_begun = { λ task was now. ToldBegun task (E.has_failed now) (E.contents was) (E.contents now) };

    ghost is_output = { λ task was now. ToldOutput task (E.has_failed now) (E.contents was) (E.contents now) };

    ghost has_taken = { λ task was now. HasTold task (E.has_failed now) (E.contents was) (E.contents now) };

    ghost has_ended = { λ task was now. HasEnded task (E.has_failed now) (E.contents was) (E.contents now) };

    ghost ready = { λ t. t.cutter.ready };

    ghost told = { λ t. t.cutter.told };

    fn what_waits_is_due()
        ensures due { (task : LineValuesTask) (was now : E) (bytes given : List ℕ) (t : ValuesTellerValue) → HasTold task (E.has_failed now) (E.contents was) (E.contents now) bytes given t → t.cutter.told ≡ []
            → ToldDue task (E.has_failed now) (E.contents was) (E.contents now) bytes (given ++ t.cutter.ready) }
        ensures begun { (task : LineValuesTask) (was now : E) (bytes given : List ℕ) (t : ValuesTellerValue) → HasTold task (E.has_failed now) (E.contents was) (E.contents now) bytes given t
            → ToldBegun task (E.has_failed now) (E.contents was) (E.contents now) bytes (given ++ t.cutter.ready) }
        ensures ended { (task : LineValuesTask) (was now : E) (bytes given : List ℕ) (exit : Exit) (t : ValuesTellerValue) → HasEnded task (E.has_failed now) (E.contents was) (E.contents now) bytes given exit t
            → ToldBegun task (E.has_failed now) (E.contents was) (E.contents now) bytes (given ++ t.cutter.ready) }
    {}

    fn ready(&self) -> &[u8] {
        self.cutter.ready()
    }

    fn clear(&mut self, beside: &mut E) {
        tell(beside, self.cutter.told());
        self.cutter.clear();
    }

    fn finish(&mut self, _task: &LineValuesTask) -> Result<Exit, AllocError> {
        self.cutter.finish(self.alloc, self.task, &self.trie)
    }
}

impl<'t> PartReader for ValuesTeller<'t> {
    ghost use Rattle.jx_line_values.specs.inside.RowsPart.{IsRowsPart};
    ghost use Rattle.jx_line_values.specs.inside.ValuesTeller.{Gave, HasRead};

    type Rule = RowsRule<'t>;

    type Part = RowsPart;

    ghost Given = { Gave };

    ghost is_part = { λ task at bytes part. IsRowsPart task bytes part };

    ghost has_read = { HasRead };

    ghost end = { λ t. t.end };

    fn judge(
        alloc: Global,
        rule: &RowsRule<'t>,
        bytes: &[u8],
        _at: usize,
    ) -> Result<Option<Judged<RowsPart>>, AllocError> {
        let Some(Span { start, end }) = whole_lines_of(bytes) else {
            return Ok(None);
        };
        match rule.rows_of(alloc, &bytes[start..end])? {
            None => Ok(None),
            Some(part) => Ok(Some(Judged {
                part,
                from: start,
                to: end,
            })),
        }
    }

    fn end(&self) -> usize {
        self.end
    }

    fn feed(&mut self, _rule: &RowsRule<'t>, bytes: &[u8]) -> Result<(), AllocError> {
        self.go_on(bytes)
    }

    fn take(
        &mut self,
        _rule: &RowsRule<'t>,
        part: RowsPart,
        len: usize,
    ) -> Result<bool, AllocError> {
        if !self.cutter.is_between() {
            return Ok(false);
        }
        take_part(&mut self.cutter, self.alloc, self.task, &self.trie, &part)?;
        self.end += len;
        Ok(true)
    }

    fn is_full(&self) -> bool {
        self.cutter.waiting() >= FULL
    }
}
