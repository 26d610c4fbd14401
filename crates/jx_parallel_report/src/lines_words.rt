// The lines that report lines which are not valid JSON, and the total.
ghost use Rattle.std.specs.Prelude.{◌≡◌, ◌++◌, ◌<◌, ℕ, List, Some, IfOk, IfSome, OnOk, length, slice_get};
ghost use Rattle.jx_ndjson.specs.declared.judged_line.JudgedLine.{JudgedLine};
ghost use Rattle.jx_ndjson.specs.Reading.{listed};
ghost use Rattle.jx_ndjson.specs.Tally.{IsTallied};
ghost use Rattle.jx_words.specs.Verdicts.{shown_output};
ghost use Rattle.jx_ndjson_report.specs.Output.{LinesOutput, bad_lines, total_words};
ghost use Rattle.jx_ndjson_report.specs.inside.LineSteps.{bad_line, exit_by};
ghost use Rattle.jx_parallel_report.specs.inside.Lines.{reported};

use jx_ends::Exit;
use jx_ndjson::{JudgedLine, LineCounts, LineEnd};
use jx_ndjson_report::{BlankRule, LinesTask, add_counts, add_line, is_bad};
use std::alloc::{AllocError, Global};

/// Words, and the exit.
#[derive(Debug, Drop)]
pub(crate) struct ToldLines {
    pub words: Vec<u8>,
    pub exit: Exit,
}

/// Appends the report on a line, if it is reported and anything is to be written.
fn add_told(words: &mut Vec<u8>, task: &LinesTask, judged: JudgedLine) -> Result<(), AllocError>
    ensures { OnOk result (words.new.items ≡ words.old.items ++ bad_line task.now judged) }
{
    if !task.is_quiet && is_bad(task.blanks, judged.verdict) {
        add_line(words, task.form, &task.front, judged)?;
    }
    Ok(())
}

/// The line with this number, counted from 0.
fn line_at(judged: &[JudgedLine], number: usize) -> JudgedLine
    requires { number < length judged.now }
    ensures { slice_get judged.now number ≡ Some result }
{
    judged[number]
}

/// Appends the reports on lines.
fn add_all_told(
    words: &mut Vec<u8>,
    task: &LinesTask,
    judged: &[JudgedLine],
) -> Result<(), AllocError>
    ensures { OnOk result (words.new.items ≡ words.old.items ++ bad_lines task.now judged.now) }
{
    for number in 0..judged.len() {
        let line = line_at(judged, number);
        add_told(words, task, line)?;
    }
    Ok(())
}

/// The reports on lines.
pub(crate) fn words_of(
    alloc: Global,
    task: &LinesTask,
    judged: &[JudgedLine],
) -> Result<Vec<u8>, AllocError>
    ensures { IfOk result (λ words. words.items ≡ bad_lines task.now judged.now) }
{
    let mut words = Vec::new(alloc);
    add_all_told(&mut words, task, judged)?;
    Ok(words)
}

/// How many lines are reported among those of a tally; none if the number is too great.
fn bad_count(task: &LinesTask, counts: LineCounts) -> Option<usize>
    ensures { IfSome result (λ bad. bad ≡ reported task.now.blanks counts) }
{
    match task.blanks {
        BlankRule::Refused => counts.refused.checked_add(counts.blank),
        BlankRule::Passed => Some(counts.refused),
    }
}

/// Appends how many lines are good and how many are reported, unless nothing is to be written.
fn add_total(
    words: &mut Vec<u8>,
    task: &LinesTask,
    good: usize,
    bad: usize,
) -> Result<(), AllocError>
    ensures { OnOk result (words.new.items ≡ words.old.items ++ shown_output task.now.is_quiet (total_words task.now.form task.now.front.items good bad)) }
{
    if task.is_quiet {
        return Ok(());
    }
    add_counts(words, task.form, &task.front, good, bad)
}

/// Appends the report on the last line, if there is one.
fn add_last(
    words: &mut Vec<u8>,
    task: &LinesTask,
    last: Option<JudgedLine>,
) -> Result<(), AllocError>
    ensures { OnOk result (words.new.items ≡ words.old.items ++ bad_lines task.now (listed last)) }
{
    match last {
        None => Ok(()),
        Some(judged) => add_told(words, task, judged),
    }
}

/// Bad where lines are reported.
fn exit_by(bad: usize) -> Exit
    ensures { result ≡ exit_by bad }
{
    if bad == 0 { Exit::Good } else { Exit::Bad }
}

/// The end of the output, behind the reports on all lines that a line feed ends, and the exit.
pub(crate) fn told_at_end(
    alloc: Global,
    task: &LinesTask,
    end: &LineEnd,
) -> Result<ToldLines, AllocError>
    ensures { IfOk result (λ told. (input : List ℕ) (given : List JudgedLine) → IsTallied task.now.settings input (given ++ listed end.now.bad) end.now.counts
        → LinesOutput task.now input (bad_lines task.now given ++ told.words.items) told.exit) }
{
    let Some(bad) = bad_count(task, end.counts) else {
        return Err(AllocError);
    };
    let mut words = Vec::new(alloc);
    add_last(&mut words, task, end.bad)?;
    add_total(&mut words, task, end.counts.accepted, bad)?;
    let exit = exit_by(bad);
    Ok(ToldLines { words, exit })
}
