// By what workers make rows.
ghost use Rattle.std.specs.Prelude.{◌≡◌, All, IfOk, IfSome};
ghost use Rattle.jx_index.specs.Pointers.{IsPointer};
ghost use Rattle.jx_line_values.specs.LineValues.{pointers_of};
ghost use Rattle.jx_line_values.specs.inside.RowsPart.{IsRowsPart};

use crate::looking::trie_of_all;
use crate::rows_part::{RowsPart, rows_of_part};
use crate::task::LineValuesTask;
use jx_find::PointerTrie;
use std::alloc::{AllocError, Global};
use std::marker::Model;

/// How many bytes a part has at least for each line with a message. A part that has more of these is not kept.
const BYTES_FOR_A_TURN: usize = 1024;

/// The task by which workers make rows, and its pointers made ready.
#[derive(Drop)]
pub(crate) struct RowsRule<'t> {
    task: &'t LineValuesTask,
    trie: PointerTrie<'t>,
}

impl<'t> Model for RowsRule<'t> {
    ghost use Rattle.jx_find.specs.PointerTrie.{IsTrieOf};
    ghost use Rattle.jx_line_values.specs.declared.task.LineValuesTask.{LineValuesTask};
    ghost use Rattle.jx_line_values.specs.LineValues.{pointers_of};

    ghost Value = { LineValuesTask };

    ghost view = { λ r. r.task.now };

    ghost invariant = { λ r. IsTrieOf (pointers_of r.task.now) r.trie };
}

impl<'t> RowsRule<'t> {
    /// The rule of a task. Fails only when out of memory.
    pub fn new(alloc: Global, task: &'t LineValuesTask) -> Result<RowsRule<'t>, AllocError>
        requires { All IsPointer (pointers_of task.now) }
        ensures { IfOk result (λ rule. rule ≡ task.now) }
    {
        let trie = trie_of_all(alloc, &task.pointers)?;
        Ok(RowsRule { task, trie })
    }

    /// The rows of lines that line feeds end. None where the last byte is no line feed, and where too much would be kept.
    pub fn rows_of(&self, alloc: Global, lines: &[u8]) -> Result<Option<RowsPart>, AllocError>
        ensures { IfOk result (λ part. IfSome part (IsRowsPart self.now lines.now)) }
    {
        let turns = lines.len() / BYTES_FOR_A_TURN;
        let rows = lines.len().saturating_mul(2);
        rows_of_part(alloc, self.task, &self.trie, lines, turns, rows)
    }
}
