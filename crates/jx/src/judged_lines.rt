// Lines, elements and texts of streams, each told while the input is read.
ghost use Rattle.std.specs.Prelude.{◌≡◌, ◌≤◌, false};

use crate::fault::Fault;
use crate::input::{Reader, fault_of_report, name_of, open, told_of};
use crate::listing::write_name;
use crate::output::{Output, Writer};
use crate::passed_lines::{end_line, pass_input};
use crate::shared_file::{report_on_lines, share};
use jx_command::{Input, Inputs, LinesOrder, LiveOrder, PassOrder, Told, input_of};
use jx_crew::{Crew, OpenGate, Workers};
use jx_ends::{End, ReportFault};
use jx_explain::object_front;
use jx_files::{FileFault, Status};
use jx_ndjson_report::{
    BlankRule, ElementsTask, LineForm, LinesTask, report_first_lines, report_lines, report_sequence,
};
use jx_texts::{TextsTask, report_texts};
use jx_words::shown_name;
use std::sync::Wait;
use std::thread::Threads;

/// The order for a report on each input.
#[derive(Drop)]
enum Asked<'a> {
    /// The lines that are not valid JSON.
    Lines(LinesOrder<'a>),
    /// The elements of a text sequence.
    Elements(LiveOrder<'a>),
    /// The texts of a stream.
    Texts(LiveOrder<'a>),
}

/// The same with what stands in front of each line that is written.
#[derive(Drop)]
enum Task<'a> {
    Lines(LinesTask),
    /// The first lines that are refused, so many at most.
    First(LinesTask, usize),
    Passed(LinesTask, PassOrder<'a>),
    Elements(ElementsTask),
    Texts(TextsTask),
}

/// The format of the report.
fn way_of(asked: &Asked<'_>) -> Told {
    match asked {
        Asked::Lines(order) => order.told,
        Asked::Elements(_) | Asked::Texts(_) => Told::Lines,
    }
}

/// The form in which a line is written.
fn form_of(told: Told) -> LineForm {
    match told {
        Told::Marks => LineForm::Mark,
        Told::Objects => LineForm::Object,
        Told::Lines | Told::Refused | Told::Explained(..) => LineForm::Plain,
    }
}

/// The text in front of each line that is written of an input, which may have its name.
fn front_of(
    rt: &HostRuntime,
    told: Told,
    input: Input<'_>,
    is_named: bool,
) -> Result<Vec<u8>, Fault> {
    let alloc = rt.alloc();
    let name = name_of(input);
    let mut front = match told {
        Told::Objects => return Ok(object_front(alloc, name.as_bytes())?),
        Told::Lines if !is_named => return Ok(Vec::new(alloc)),
        _ => shown_name(alloc, name)?,
    };
    front.extend_from_slice(match told {
        Told::Marks => b":",
        _ => b": ",
    })?;
    Ok(front)
}

fn lines_task(order: &LinesOrder<'_>, front: Vec<u8>) -> LinesTask {
    LinesTask {
        settings: order.settings,
        blanks: if order.skips_blanks {
            BlankRule::Passed
        } else {
            BlankRule::Refused
        },
        form: form_of(order.told),
        front,
        is_quiet: order.is_quiet,
    }
}

fn elements_task(order: &LiveOrder<'_>, front: Vec<u8>) -> ElementsTask {
    ElementsTask {
        settings: order.settings,
        front,
        is_quiet: order.is_quiet,
    }
}

fn texts_task(order: &LiveOrder<'_>, front: Vec<u8>) -> TextsTask {
    TextsTask {
        depth: order.settings.depth,
        front,
        is_quiet: order.is_quiet,
    }
}

fn task_of<'a>(asked: &Asked<'a>, front: Vec<u8>) -> Task<'a> {
    match asked {
        Asked::Lines(order) => match (order.pass, order.most) {
            (Some(pass), _) => Task::Passed(lines_task(order, front), pass),
            (None, Some(most)) => Task::First(lines_task(order, front), most),
            (None, None) => Task::Lines(lines_task(order, front)),
        },
        Asked::Elements(order) => Task::Elements(elements_task(order, front)),
        Asked::Texts(order) => Task::Texts(texts_task(order, front)),
    }
}

/// Reads an input from its start to its end, and reports its lines or elements.
fn tell_from<R: Threads + Wait + Sync>(
    rt: &HostRuntime,
    crew: &Crew<'_, R, OpenGate>,
    input: Input<'_>,
    reader: Reader<'_>,
    writer: &mut Writer,
    task: &Task<'_>,
    piece: usize,
) -> Result<Status, Fault>
    requires reader { reader.failed ≡ false }
    requires writer { writer.old.failed ≡ false }
    requires piece { 1 ≤ piece }
{
    let mut reader = reader;
    let told = match task {
        Task::Lines(task) => report_lines(crew, &mut reader, writer, task, piece),
        Task::First(task, most) => {
            report_first_lines(crew.alloc, &mut reader, writer, task, (*most).max(1))
        }
        Task::Passed(task, pass) => return pass_input(rt, input, &mut reader, writer, task, *pass),
        Task::Elements(task) => report_sequence(crew, &mut reader, writer, task),
        Task::Texts(task) => report_texts(crew.alloc, &mut reader, writer, task),
    };
    match told {
        Ok(exit) => Ok(Status::of_exit(exit)),
        Err(fault) => Err(fault_of_report(rt, input, &reader, writer, fault)),
    }
}

/// Reports the lines of an input: a regular file is read at offsets by the crew.
fn tell_shared<R: Threads + Wait + Sync>(
    rt: &HostRuntime,
    crew: &Crew<'_, R, OpenGate>,
    input: Input<'_>,
    reader: Reader<'_>,
    writer: &mut Writer,
    task: &Task<'_>,
    piece: usize,
) -> Result<Status, Fault>
    requires reader { reader.failed ≡ false }
    requires writer { writer.old.failed ≡ false }
    requires piece { 1 ≤ piece }
{
    let Task::Lines(lines) = task else {
        return tell_from(rt, crew, input, reader, writer, task, piece);
    };
    match share(reader) {
        Ok(file) => report_on_lines(
            rt,
            crew.rt,
            input,
            &file,
            writer,
            lines,
            crew.workers,
            piece,
        ),
        Err(reader) => tell_from(rt, crew, input, reader, writer, task, piece),
    }
}

/// Reads an input, and reports its lines or elements.
fn tell_input<R: Threads + Wait + Sync>(
    rt: &HostRuntime,
    crew: &Crew<'_, R, OpenGate>,
    input: Input<'_>,
    writer: &mut Writer,
    task: &Task<'_>,
    piece: usize,
) -> Result<Status, Fault>
    requires writer { writer.old.failed ≡ false }
    requires piece { 1 ≤ piece }
{
    let reader = open(rt, input)?;
    if crew.workers.count() > 1 {
        tell_shared(rt, crew, input, reader, writer, task, piece)
    } else {
        tell_from(rt, crew, input, reader, writer, task, piece)
    }
}

/// Writes the name of an input that is refused, where names alone are asked for.
fn list(rt: &HostRuntime, told: Told, input: Input<'_>, status: Status) -> Result<Status, Fault> {
    if matches!(told, Told::Refused) && status == Status::Bad {
        write_name(rt, input)?;
    }
    Ok(status)
}

/// Whether a fault was reported already.
fn is_told(fault: &Fault) -> bool {
    match fault {
        Fault::Told => true,
        _ => false,
    }
}

/// Whether it was out of memory.
fn is_of_memory(fault: &Fault) -> bool {
    match fault {
        Fault::Memory(_) => true,
        Fault::Report(ReportFault::Memory) => true,
        _ => false,
    }
}

/// The status of one of several inputs. Only a fault of the output keeps the others from being read.
fn status_of(
    rt: &HostRuntime,
    input: Input<'_>,
    told: Result<Status, Fault>,
    is_lost: bool,
) -> Result<Status, Fault> {
    let fault = match told {
        Ok(status) => return Ok(status),
        Err(fault) => fault,
    };
    if is_told(&fault) && !is_lost {
        return Ok(Status::Fault);
    }
    if is_of_memory(&fault) {
        told_of(rt, input, FileFault::Memory);
        return Ok(Status::Fault);
    }
    Err(fault)
}

/// Whether accepted lines pass.
fn is_passed(task: &Task<'_>) -> bool {
    matches!(task, Task::Passed(..))
}

/// Reports the lines or elements of what an argument names, each after the name as it is shown.
fn tell_word<R: Threads + Wait + Sync>(
    rt: &HostRuntime,
    crew: &Crew<'_, R, OpenGate>,
    asked: &Asked<'_>,
    word: &str,
    piece: usize,
) -> Result<Status, Fault>
    requires { 1 ≤ piece }
{
    let input = input_of(word);
    let way = way_of(asked);
    let task = task_of(asked, front_of(rt, way, input, true)?);
    let mut writer = End::new(Output::of(rt));
    let told = tell_input(rt, crew, input, &mut writer, &task, piece);
    let status = status_of(rt, input, told, writer.failed)?;
    if is_passed(&task) && !writer.failed {
        end_line(&mut writer)?;
    }
    list(rt, way, input, status)
}

/// Reports the lines or elements of the one input that is read.
fn tell_one<R: Threads + Wait + Sync>(
    rt: &HostRuntime,
    crew: &Crew<'_, R, OpenGate>,
    asked: &Asked<'_>,
    input: Input<'_>,
    piece: usize,
) -> Result<Status, Fault>
    requires { 1 ≤ piece }
{
    let way = way_of(asked);
    let task = task_of(asked, front_of(rt, way, input, false)?);
    let mut writer = End::new(Output::of(rt));
    let status = tell_input(rt, crew, input, &mut writer, &task, piece)?;
    list(rt, way, input, status)
}

/// The inputs that are read.
fn inputs_of<'o, 'a>(asked: &'o Asked<'a>) -> &'o Inputs<'a> {
    match asked {
        Asked::Lines(order) => &order.inputs,
        Asked::Elements(order) | Asked::Texts(order) => &order.inputs,
    }
}

/// Reads inputs, and reports what is asked of each while it is read.
fn tell_inputs<R: Threads + Wait + Sync>(
    rt: &HostRuntime,
    crew: &Crew<'_, R, OpenGate>,
    asked: &Asked<'_>,
    piece: usize,
) -> Result<Status, Fault>
    requires { 1 ≤ piece }
{
    let words = match inputs_of(asked) {
        Inputs::One(input) => return tell_one(rt, crew, asked, *input, piece),
        Inputs::Several(words) => words,
    };
    let mut status = Status::Good;
    for word in words {
        let next = tell_word(rt, crew, asked, *word, piece)?;
        status = status.greatest(next);
    }
    Ok(status)
}

/// Reads what an order names by its workers, and reports the lines that are not valid JSON.
pub fn tell_lines_of<R: Threads + Wait + Sync>(
    rt: &HostRuntime,
    threads: &R,
    order: LinesOrder<'_>,
) -> Result<Status, Fault>
    requires { 1 ≤ order.piece }
{
    let crew = Crew {
        rt: threads,
        alloc: rt.alloc(),
        workers: order.workers,
        gate: &OpenGate,
    };
    let piece = order.piece;
    tell_inputs(rt, &crew, &Asked::Lines(order), piece)
}

/// Reads what is asked for by one worker.
fn tell_alone<R: Threads + Wait + Sync>(
    rt: &HostRuntime,
    threads: &R,
    asked: &Asked<'_>,
) -> Result<Status, Fault> {
    let crew = Crew {
        rt: threads,
        alloc: rt.alloc(),
        workers: Workers::new(1).unwrap(),
        gate: &OpenGate,
    };
    tell_inputs(rt, &crew, asked, 1)
}

/// Reads what an order names, and reports the elements. One worker reads.
pub fn tell_elements_of<R: Threads + Wait + Sync>(
    rt: &HostRuntime,
    threads: &R,
    order: LiveOrder<'_>,
) -> Result<Status, Fault> {
    tell_alone(rt, threads, &Asked::Elements(order))
}

/// Reads what an order names, and reports the texts. One worker reads.
pub fn tell_texts_of<R: Threads + Wait + Sync>(
    rt: &HostRuntime,
    threads: &R,
    order: LiveOrder<'_>,
) -> Result<Status, Fault> {
    tell_alone(rt, threads, &Asked::Texts(order))
}
