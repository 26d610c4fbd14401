// Inputs that are explained to people, or told in another form than lines of a report.
ghost use Rattle.std.specs.Prelude.{◌≤◌};

use crate::fault::Fault;
use crate::first_pass::{exit_of, is_long_file};
use crate::input::{fault_of_report, name_of, open, open_explained};
use crate::output::{Output, write_out};
use jx_command::{Color, Input, Inputs, ShowProgress, TellAccepted, input_of};
use jx_crew::{Crew, OpenGate};
use jx_ends::{End, Exit};
use jx_explain::{Explainer, Form, Marking, exit_of_input, explained, report_explained};
use jx_files::Status;
use jx_run::{NameRule, Settings, Verdict};
use jx_task::Command;
use jx_words::shown_name;
use std::alloc::AllocError;
use std::env;
use std::env::VarError;
use std::io::IsTerminal;
use std::sync::Wait;
use std::thread::Threads;

/// Whether a variable of the environment is set, and not empty (https://no-color.org).
fn is_set(rt: &HostRuntime, name: &str) -> Result<bool, AllocError> {
    match env::var(rt, name) {
        Ok(value) => Ok(!value.as_str().is_empty()),
        Err(VarError::NotUnicode) => Ok(true),
        Err(VarError::NotPresent) => Ok(false),
        Err(VarError::OutOfMemory) => Err(AllocError),
    }
}

/// Whether the terminal is one that shows no colors.
fn is_dumb(rt: &HostRuntime) -> Result<bool, AllocError> {
    match env::var(rt, "TERM") {
        Ok(value) => Ok(value.as_str() == "dumb"),
        Err(VarError::NotPresent | VarError::NotUnicode) => Ok(false),
        Err(VarError::OutOfMemory) => Err(AllocError),
    }
}

/// Whether standard output is a terminal that shows colors, and the environment does not forbid them.
fn shows_colors(rt: &HostRuntime) -> Result<bool, AllocError> {
    if !rt.stdout().is_terminal() || is_set(rt, "NO_COLOR")? {
        return Ok(false);
    }
    Ok(!is_dumb(rt)?)
}

/// Whether an accepted input is reported.
fn tells_accepted(inputs: &Inputs<'_>, accepted: TellAccepted) -> bool {
    match (accepted, inputs) {
        (TellAccepted::Always, _) => true,
        (TellAccepted::Several, Inputs::Several(_)) => true,
        _ => false,
    }
}

/// The form of reports to people.
pub fn form_for(
    rt: &HostRuntime,
    inputs: &Inputs<'_>,
    color: Color,
    accepted: TellAccepted,
) -> Result<Form, AllocError> {
    Ok(Form::People {
        marking: marking_for(rt, color)?,
        tells_accepted: tells_accepted(inputs, accepted),
    })
}

/// The highlighting of reports to people.
fn marking_for(rt: &HostRuntime, color: Color) -> Result<Marking, AllocError> {
    let is_colored = match color {
        Color::Auto => shows_colors(rt)?,
        Color::Always => true,
        Color::Never => false,
    };
    if is_colored {
        Ok(Marking::Colored)
    } else {
        Ok(Marking::Plain)
    }
}

/// The name of an input as a form has it: an object has its very bytes.
fn told_name(rt: &HostRuntime, input: Input<'_>, form: Form) -> Result<Vec<u8>, Fault> {
    let alloc = rt.alloc();
    let name = name_of(input);
    match form {
        Form::Object => Ok(Vec::from_slice(alloc, name.as_bytes())?),
        Form::People { .. } | Form::Mark => Ok(shown_name(alloc, name)?),
    }
}

/// Reports in a form that an input of this name is accepted.
fn tell_accepted(
    rt: &HostRuntime,
    name: &[u8],
    settings: &Settings,
    form: Form,
) -> Result<Status, Fault> {
    let told = explained(rt.alloc(), name, &[], Verdict::Accepted, settings, form)?;
    write_out(rt, told.as_bytes())?;
    Ok(Status::Good)
}

/// Reports the verdict on an input in a form. All of it is kept in memory.
fn explain_held<R: Threads + Wait + Sync>(
    rt: &HostRuntime,
    threads: &R,
    input: Input<'_>,
    name: &[u8],
    command: &Command,
    form: Form,
) -> Result<Status, Fault>
    requires { 1 ≤ command.now.piece }
{
    let mut reader = open(rt, input)?;
    let mut writer = End::new(Output::of(rt));
    let crew = Crew {
        rt: threads,
        alloc: rt.alloc(),
        workers: command.workers,
        gate: &OpenGate,
    };
    match report_explained(&crew, &mut reader, &mut writer, name, command, form) {
        Ok(exit) => Ok(Status::of_exit(exit)),
        Err(fault) => Err(fault_of_report(rt, input, &reader, &writer, fault)),
    }
}

/// Reports the verdict on an input in a form. No more of it is kept than the bytes around a fault, and the open containers with their
/// names.
fn explain_read<R: Threads + Wait + Sync>(
    rt: &HostRuntime,
    threads: &R,
    input: Input<'_>,
    name: &[u8],
    command: &Command,
    form: Form,
) -> Result<Status, Fault>
    requires { 1 ≤ command.now.piece }
{
    let crew = Crew {
        rt: threads,
        alloc: rt.alloc(),
        workers: command.workers,
        gate: &OpenGate,
    };
    let explainer = Explainer::new(rt.alloc(), &command.settings);
    let mut reader = open_explained(rt, input, explainer)?;
    let mut writer = End::new(Output::of(rt));
    let exit = match exit_of_input(&crew, &mut reader, &mut writer, command) {
        Ok(exit) => exit,
        Err(fault) => return Err(fault_of_report(rt, input, &reader, &writer, fault)),
    };
    if let Some(explainer) = reader.inner.explainer.take() {
        let told = explainer.explained(name, form)?;
        write_out(rt, told.as_bytes())?;
    }
    Ok(Status::of_exit(exit))
}

/// Reports the verdict on an input in a form. A long file is read before for its verdict alone, by several workers. All of a text whose
/// names have to be unique is kept: an earlier name may be anywhere.
fn explain_one<R: Threads + Wait + Sync>(
    rt: &HostRuntime,
    threads: &R,
    input: Input<'_>,
    command: &Command,
    form: Form,
) -> Result<Status, Fault>
    requires { 1 ≤ command.now.piece }
{
    let name = told_name(rt, input, form)?;
    if is_long_file(rt, input) {
        match exit_of(rt, threads, input, command, ShowProgress::Never)? {
            Exit::Good => return tell_accepted(rt, &name, &command.settings, form),
            Exit::Bad => (),
        }
    }
    match command.settings.names {
        NameRule::Any => explain_read(rt, threads, input, &name, command, form),
        NameRule::Unique => explain_held(rt, threads, input, &name, command, form),
    }
}

/// Reports the verdict on each input that arguments name, in their order. One that cannot be read is reported, and the others go on.
fn explain_words<R: Threads + Wait + Sync>(
    rt: &HostRuntime,
    threads: &R,
    words: &[&str],
    command: &Command,
    form: Form,
) -> Result<Status, Fault>
    requires { 1 ≤ command.now.piece }
{
    let mut status = Status::Good;
    for word in words {
        let next = match explain_one(rt, threads, input_of(*word), command, form) {
            Ok(next) => next,
            Err(Fault::Told) => Status::Fault,
            Err(fault) => return Err(fault),
        };
        status = status.greatest(next);
    }
    Ok(status)
}

/// Reports the verdict on each input in a form.
pub fn explain_inputs<R: Threads + Wait + Sync>(
    rt: &HostRuntime,
    threads: &R,
    inputs: &Inputs<'_>,
    command: &Command,
    form: Form,
) -> Result<Status, Fault>
    requires { 1 ≤ command.now.piece }
{
    match inputs {
        Inputs::One(input) => explain_one(rt, threads, *input, command, form),
        Inputs::Several(words) => explain_words(rt, threads, words, command, form),
    }
}
