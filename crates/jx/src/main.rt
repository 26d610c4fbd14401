// The program `jx`. It checks JSON texts, lists their values, finds or writes what pointers name, writes elements, or explains
// why a text is refused. Or it checks the elements of sequences, lines, texts one behind another, or a text that stands in several parts, or saves the index
// of a text.
#![tactic(auto)]

ghost use Rattle.std.specs.Prelude.{◌≤◌};

mod arguments;
mod elements;
mod explaining;
mod fault;
mod first_pass;
mod input;
mod judged_lines;
mod line_values;
mod lines;
mod listing;
mod look_faults;
mod messages;
mod misplaced;
mod output;
mod parts;
mod passed_lines;
mod places;
mod progress;
mod reporting;
mod saves;
mod shared_file;
mod splits;
mod text_file;
mod values;
mod values_by_index;

use arguments::{arguments, order_by};
use elements::write_elements_of;
use explaining::{explain_inputs, form_for};
use fault::Fault;
use judged_lines::{tell_elements_of, tell_lines_of, tell_texts_of};
use jx_command::{Input, Inputs, Order, Request, Told};
use jx_explain::Form;
use jx_files::Status;
use jx_task::{Command, Task};
use lines::add_lines;
use listing::list_refused;
use misplaced::refuse_misplaced_in;
use output::reason_of;
use parts::work_on_parts;
use places::write_places;
use reporting::report_on_inputs;
use saves::save_index;
use splits::write_parts;
use std::io::ErrorKind;
use std::process::ExitCode;
use std::sync::Wait;
use std::thread::{Threads, available_parallelism};
use values::write_values_of;

/// The status of a call that ends by a fault.
const FAULT: u8 = 2;

/// Answers a request for a report by the index of a text. The words have a file for it, and pointers.
fn answer_by_index(
    rt: &HostRuntime,
    index: &str,
    inputs: &Inputs<'_>,
    command: &Command,
) -> Result<Status, Fault> {
    match (inputs, &command.task) {
        (Inputs::One(Input::File(path)), Task::At(pointers)) => {
            write_places(rt, index, path, pointers)
        }
        _ => Ok(Status::Fault),
    }
}

/// Answers a request for a report.
fn answer_request<R: Threads + Wait + Sync>(
    rt: &HostRuntime,
    threads: &R,
    request: Request<'_>,
) -> Result<Status, Fault>
    requires { 1 ≤ request.command.piece }
{
    let Request {
        mut command,
        inputs,
        pointers,
        index,
        told,
        progress,
    } = request;
    refuse_misplaced_in(rt, &inputs, &command.task)?;
    add_lines(rt, &mut command, pointers)?;
    if let Some(index) = index {
        return answer_by_index(rt, index, &inputs, &command);
    }
    match told {
        Told::Lines => report_on_inputs(rt, threads, &inputs, &command, progress),
        Told::Refused => list_refused(rt, threads, &inputs, &command, progress),
        Told::Marks => explain_inputs(rt, threads, &inputs, &command, Form::Mark),
        Told::Objects => explain_inputs(rt, threads, &inputs, &command, Form::Object),
        Told::Explained(color, accepted) => {
            let form = form_for(rt, &inputs, color, accepted)?;
            explain_inputs(rt, threads, &inputs, &command, form)
        }
    }
}

/// How many processors the process may use; 0 where that is not known.
fn processors<R: Threads>(threads: &R) -> usize {
    match available_parallelism(threads) {
        Ok(count) => count.get(),
        Err(_) => 0,
    }
}

fn answer<R: Threads + Wait + Sync>(rt: &HostRuntime, threads: &R) -> Result<Status, Fault> {
    let alloc = rt.alloc();
    let owned = arguments(rt)?;
    let words: Vec<&str> = owned.iter().map(|word| word.as_str()).collect(alloc)?;
    match order_by(rt, &words, processors(threads))? {
        Order::Report(request) => answer_request(rt, threads, request),
        Order::Parts(order) => work_on_parts(rt, &order),
        Order::Values(order) => write_values_of(rt, threads, order),
        Order::Each(order) => write_elements_of(rt, threads, &order),
        Order::Lines(order) => tell_lines_of(rt, threads, order),
        Order::Live(order) => tell_elements_of(rt, threads, order),
        Order::Texts(order) => tell_texts_of(rt, threads, order),
        Order::Save(order) => save_index(rt, threads, &order),
        Order::Split(order) => write_parts(rt, &order),
    }
}

fn end_by(rt: &HostRuntime, fault: &Fault) -> ExitCode {
    let _ = rt.eprint(fault);
    ExitCode::from(FAULT)
}

fn main(rt: HostRuntime) -> ExitCode {
    match answer(&rt, &rt) {
        Ok(Status::Good) => ExitCode::SUCCESS,
        Ok(Status::Bad) => ExitCode::FAILURE,
        Ok(Status::Fault) => ExitCode::from(FAULT),
        Err(version) if version.is_version() => match rt.print(&version) {
            Ok(()) => ExitCode::SUCCESS,
            Err(error) if error.kind() == ErrorKind::BrokenPipe => ExitCode::from(FAULT),
            Err(error) => end_by(&rt, &Fault::Write(reason_of(&error))),
        },
        Err(fault) => end_by(&rt, &fault),
    }
}
