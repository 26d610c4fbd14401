ghost use Rattle.std.specs.Prelude.{IfOk};
ghost use Rattle.jx_task.specs.declared.task.Task.{Task};
ghost use Rattle.jx_run.specs.declared.texts.settings.FrontMark.{FrontMark};
ghost use Rattle.jx_run.specs.declared.texts.settings.NameRule.{NameRule};
ghost use Rattle.jx_ends.specs.declared.exit.Exit.{Exit};
ghost use Rattle.jx_report.specs.Output.{Output};

use crate::example_fault::ExampleFault;
use jx_crew::{OpenGate, Workers};
use jx_ends::End;
use jx_lex::Depth;
use jx_report::report;
use jx_run::{FrontMark, NameRule, Settings};
use jx_task::{Command, Task};
use std::alloc::Global;
use std::sync::Wait;
use std::thread::Threads;

/// The lines that the program writes for a text in memory, one for each value.
pub fn lines_of_values<R: Threads + Wait + Sync>(
    rt: &R,
    alloc: Global,
    text: &[u8],
    workers: Workers,
) -> Result<Vec<u8>, ExampleFault>
    ensures { IfOk result (λ lines. (exit : Exit)
        × Output Task.Index (record { depth = 512; mark = FrontMark.Refused; names = NameRule.Any }) text.now lines.items exit) }
{
    let command = Command {
        task: Task::Index,
        settings: Settings {
            depth: Depth::default(),
            mark: FrontMark::Refused,
            names: NameRule::Any,
        },
        workers,
        piece: 65536,
        quiet: false,
    };
    let mut reader = End::new(text);
    let mut writer = End::new(Vec::new(alloc));
    report(rt, alloc, &mut reader, &mut writer, &command, &OpenGate)?;
    Ok(writer.inner)
}
