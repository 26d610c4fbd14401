// Parts of which a worker made the rows, taken in order.
ghost use Rattle.std.specs.Prelude.{◌≡◌, ◌<◌, ◌++◌, ℕ, List, Some, OnOk, length, slice_get};
ghost use Rattle.jx_find.specs.PointerTrie.{IsTrieOf};
ghost use Rattle.jx_line_values.specs.LineValues.{pointers_of};
ghost use Rattle.jx_line_values.specs.inside.Cutting.{HasTaken};
ghost use Rattle.jx_line_values.specs.inside.RowsPart.{AreTurns, IsRowsPart, IsTurn};

use crate::cutting::LineCutter;
use crate::rows_part::{RowsPart, Turn};
use crate::task::LineValuesTask;
use jx_find::PointerTrie;
use std::alloc::{AllocError, Global};

/// The turn with this number, counted from 0.
fn turn_at(turns: &[Turn], number: usize) -> &Turn
    requires { number < length turns.now }
    ensures { slice_get turns.now number ≡ Some result.now }
{
    &turns[number]
}

/// Takes lines without a message and the bytes behind them, after all bytes that were taken.
fn take_turn(
    cutter: &mut LineCutter,
    alloc: Global,
    task: &LineValuesTask,
    trie: &PointerTrie,
    turn: &Turn,
) -> Result<(), AllocError>
    requires { IsTrieOf (pointers_of task.now) trie.now }
    ensures { OnOk result ((before mine given said : List ℕ) → IsTurn task.now mine turn.now → HasTaken task.now before given said cutter.old → HasTaken task.now (before ++ mine) given said cutter.new) }
{
    cutter.take_rows(turn.count, &turn.rows)?;
    cutter.feed(alloc, task, trie, &turn.line)
}

/// Takes the turns of a part, after all bytes that were taken.
fn take_turns(
    cutter: &mut LineCutter,
    alloc: Global,
    task: &LineValuesTask,
    trie: &PointerTrie,
    turns: &[Turn],
) -> Result<(), AllocError>
    requires { IsTrieOf (pointers_of task.now) trie.now }
    ensures { OnOk result ((bytes front given said : List ℕ) → AreTurns task.now front turns.now → HasTaken task.now bytes given said cutter.old → HasTaken task.now (bytes ++ front) given said cutter.new) }
{
    for number in 0..turns.len() {
        take_turn(cutter, alloc, task, trie, turn_at(turns, number))?;
    }
    Ok(())
}

/// Takes a part after all bytes that were taken. Fails when out of memory, and where no part can follow.
pub(crate) fn take_part(
    cutter: &mut LineCutter,
    alloc: Global,
    task: &LineValuesTask,
    trie: &PointerTrie,
    part: &RowsPart,
) -> Result<(), AllocError>
    requires { IsTrieOf (pointers_of task.now) trie.now }
    ensures { OnOk result ((bytes ys given said : List ℕ) → IsRowsPart task.now ys part.now → HasTaken task.now bytes given said cutter.old → HasTaken task.now (bytes ++ ys) given said cutter.new) }
{
    take_turns(cutter, alloc, task, trie, &part.turns)?;
    cutter.take_rows(part.count, &part.rows)
}
