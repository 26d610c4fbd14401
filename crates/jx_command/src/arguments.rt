// Reads the arguments.
ghost use Rattle.std.specs.Prelude.{◌≤◌, IfOk, IfSome};
ghost use Rattle.jx_command.specs.Orders.{HasPieces};

use crate::arg_fault::ArgFault;
use crate::called::Called;
use crate::command_rows::called_by;
use crate::each_arguments::{each_form_of, each_order_from, keys_form_of};
use crate::grammar::grammar;
use crate::inputs::{Input, Inputs, inputs_of, named_inputs_of, reads_standard_twice};
use crate::lines_arguments::lines_order_from;
use crate::live_arguments::{is_live, live_order_from};
use crate::options::{depth_of, progress_of};
use crate::order::{EachForm, Order};
use crate::parts_arguments::{join_order_from, part_order_from, whole_order_from};
use crate::request::{Color, Request, TellAccepted, Told};
use crate::save_arguments::save_order_from;
use crate::split_arguments::split_order_from;
use crate::values_arguments::values_order_from;
use crate::worker_count::workers_of;
use clap::ArgMatches;
use clap::error::ErrorKind;
use jx_crew::Workers;
use jx_run::{FrontMark, NameRule, Settings};
use jx_task::{Command, Task};
use std::alloc::{AllocError, Global};

/// The fault of an error of clap's: a failed allocation has its own, and any other is kept.
fn refused(error: clap::Error) -> ArgFault {
    match error.kind() {
        ErrorKind::OutOfMemory => ArgFault::Memory,
        _ => ArgFault::Clap(error),
    }
}

/// The fault of words whose first one is not a command: it names the commands that are spelled nearly so.
fn fault_of_command(alloc: Global, words: &[&str]) -> Option<clap::Error> {
    let grammar = grammar(alloc).ok()?;
    let error = grammar.try_get_matches_from(words).err()?;
    if error.kind() != ErrorKind::InvalidSubcommand {
        return None;
    }
    Some(error)
}

/// The fault of words, by clap's error. If they ask for help on a word that is not a command, it is that of this word as a command.
fn fault_of(alloc: Global, words: &[&str], error: clap::Error) -> ArgFault {
    match words {
        [program, help, topic, ..]
            if *help == "help" && error.kind() == ErrorKind::InvalidSubcommand => {
            match fault_of_command(alloc, &[*program, *topic]) {
                Some(nearer) => refused(nearer),
                None => refused(error),
            }
        }
        _ => refused(error),
    }
}

/// Whether a byte order mark is ignored or refused by the options.
pub(crate) fn mark_of(options: &ArgMatches<'_>) -> FrontMark {
    if options.get_flag("ignore-bom") {
        FrontMark::Ignored
    } else {
        FrontMark::Refused
    }
}

/// Whether names have to be unique or may be any by the options.
fn names_of(options: &ArgMatches<'_>) -> NameRule {
    if options.get_flag("unique-names") {
        NameRule::Unique
    } else {
        NameRule::Any
    }
}

/// How a text is read by the options. The grammar has a depth where the words leave it out.
pub(crate) fn settings_of(options: &ArgMatches<'_>) -> Settings {
    Settings {
        depth: depth_of(options).unwrap_or_default(),
        mark: mark_of(options),
        names: names_of(options),
    }
}

/// How many bytes a chunk has by the options, if they say and it is not 0.
pub(crate) fn piece_of(options: &ArgMatches<'_>) -> Option<usize>
    ensures { IfSome result (λ piece. 1 ≤ piece) }
{
    match options.get_one::<u32>("piece")? {
        0 => None,
        piece => Some(piece as usize),
    }
}

pub(crate) fn pointers_of(
    alloc: Global,
    options: &ArgMatches<'_>,
) -> Result<Vec<String>, AllocError> {
    let mut pointers = Vec::new(alloc);
    if let Some(words) = options.get_strs("pointer") {
        for word in words {
            pointers.push(String::from_str(alloc, word)?)?;
        }
    }
    Ok(pointers)
}

/// The command of these options. The grammar has a number for each option that the words leave out, so that what stands here
/// where there is none is never met.
fn command_from(task: Task, workers: Workers, options: &ArgMatches<'_>) -> Command
    ensures { 1 ≤ result.piece }
{
    Command {
        task,
        settings: settings_of(options),
        workers,
        piece: piece_of(options).unwrap_or(1),
        quiet: options.get_flag("quiet") || options.get_flag("list"),
    }
}

/// The words for what is read, where they may be several or none.
pub(crate) fn words_of<'a>(
    alloc: Global,
    options: &ArgMatches<'a>,
) -> Result<Vec<&'a str>, AllocError> {
    Vec::from_slice(alloc, options.get_strs("files").unwrap_or(&[]))
}

/// A word that names the file of an option, also where that would name standard input as a word.
fn word_of_file<'a>(file: &'a str) -> &'a str {
    if file == "-" { "./-" } else { file }
}

/// The inputs, each after its name: the file of an option, or the inputs that words name.
fn inputs_behind_names<'a>(
    options: &ArgMatches<'a>,
    mut words: Vec<&'a str>,
) -> Result<Inputs<'a>, AllocError> {
    if let Some(file) = options.get_str("file") {
        words.push(word_of_file(file))?;
    }
    named_inputs_of(words)
}

/// The inputs: the file of an option, or those that words name.
pub(crate) fn inputs_named<'a>(
    options: &ArgMatches<'a>,
    words: Result<Vec<&'a str>, AllocError>,
) -> Result<Inputs<'a>, ArgFault> {
    let Ok(words) = words else {
        return Err(ArgFault::Memory);
    };
    if reads_standard_twice(&words) {
        return Err(ArgFault::StandardTwice);
    }
    if options.get_flag("with-filename") {
        return inputs_behind_names(options, words).map_err(|_| ArgFault::Memory);
    }
    match options.get_str("file") {
        Some(file) => Ok(Inputs::One(Input::File(file))),
        None => Ok(inputs_of(words)),
    }
}

/// Whether messages to people have colors by the options.
fn color_of(options: &ArgMatches<'_>) -> Color {
    match options.get_str("color") {
        Some("always") => Color::Always,
        Some("never") => Color::Never,
        _ => Color::Auto,
    }
}

/// Whether an accepted text is reported by the options.
fn accepted_of(options: &ArgMatches<'_>) -> TellAccepted {
    if options.get_flag("verbose") {
        TellAccepted::Always
    } else if options.get_flag("refused") {
        TellAccepted::Never
    } else {
        TellAccepted::Several
    }
}

/// The format of the verdict of a check, or of what is wrong with lines, by the options.
pub(crate) fn format_of(options: &ArgMatches<'_>) -> Told {
    if options.get_flag("list") {
        return Told::Refused;
    }
    match options.get_str("format") {
        Some("gnu") => Told::Marks,
        Some("json") => Told::Objects,
        _ => Told::Lines,
    }
}

/// How the answer for people is reported by the options.
fn explained_by(options: &ArgMatches<'_>) -> Told {
    Told::Explained(color_of(options), accepted_of(options))
}

/// The report that a task and these options ask for.
fn report_order<'a>(
    alloc: Global,
    task: Task,
    told: Told,
    workers: Workers,
    options: &ArgMatches<'a>,
) -> Result<Order<'a>, ArgFault>
    ensures { IfOk result HasPieces }
{
    Ok(Order::Report(Request {
        command: command_from(task, workers, options),
        inputs: inputs_named(options, words_of(alloc, options))?,
        pointers: options.get_str("pointers"),
        index: options.get_str("index"),
        told,
        progress: progress_of(options),
    }))
}

/// The look-up that these options ask for.
fn look_up_order<'a>(
    alloc: Global,
    workers: Workers,
    options: &ArgMatches<'a>,
) -> Result<Order<'a>, ArgFault>
    ensures { IfOk result HasPieces }
{
    match pointers_of(alloc, options) {
        Ok(pointers) => report_order(alloc, Task::At(pointers), Told::Lines, workers, options),
        Err(_) => Err(ArgFault::Memory),
    }
}

/// The order for a sequence by these options.
fn sequence_order<'a>(
    alloc: Global,
    workers: Workers,
    options: &ArgMatches<'a>,
) -> Result<Order<'a>, ArgFault>
    ensures { IfOk result HasPieces }
{
    if is_live(options) {
        return Ok(Order::Live(live_order_from(alloc, options)?));
    }
    report_order(alloc, Task::Seq, Told::Lines, workers, options)
}

/// The values that these options ask for.
fn values_order<'a>(
    alloc: Global,
    workers: Workers,
    options: &ArgMatches<'a>,
) -> Result<Order<'a>, ArgFault>
    ensures { IfOk result HasPieces }
{
    Ok(Order::Values(values_order_from(alloc, workers, options)?))
}

/// The order of elements by these options.
fn elements_order<'a>(form: EachForm, workers: Workers, options: &ArgMatches<'a>) -> Order<'a>
    ensures { HasPieces result }
{
    Order::Each(each_order_from(form, workers, options))
}

/// The order of a command and its options.
fn order_from<'a>(
    alloc: Global,
    called: Called,
    workers: Workers,
    options: &ArgMatches<'a>,
) -> Result<Order<'a>, ArgFault>
    ensures { IfOk result HasPieces }
{
    match called {
        Called::Check => { report_order(alloc, Task::Check, format_of(options), workers, options) },
        Called::Explain => {
            report_order(alloc, Task::Check, explained_by(options), workers, options)
        },
        Called::Index => report_order(alloc, Task::Index, Told::Lines, workers, options),
        Called::At => look_up_order(alloc, workers, options),
        Called::Seq => sequence_order(alloc, workers, options),
        Called::Get => values_order(alloc, workers, options),
        Called::Each => Ok(elements_order(each_form_of(options), workers, options)),
        Called::Keys => Ok(elements_order(keys_form_of(options), workers, options)),
        Called::Count => Ok(elements_order(EachForm::Count, workers, options)),
        Called::Lines => Ok(Order::Lines(lines_order_from(alloc, workers, options)?)),
        Called::Texts => Ok(Order::Texts(live_order_from(alloc, options)?)),
        Called::Save => Ok(Order::Save(save_order_from(workers, options)?)),
        Called::Split => Ok(Order::Split(split_order_from(options))),
        Called::Part => Ok(Order::Parts(part_order_from(options))),
        Called::Join => Ok(Order::Parts(join_order_from(options))),
        Called::Whole => Ok(Order::Parts(whole_order_from(options))),
    }
}

/// The words as the grammar reads them.
fn matches_of<'a>(alloc: Global, words: &'a [&'a str]) -> Result<ArgMatches<'a>, ArgFault> {
    let grammar = match grammar(alloc) {
        Ok(grammar) => grammar,
        Err(_) => return Err(ArgFault::Memory),
    };
    match grammar.try_get_matches_from(words) {
        Ok(matches) => Ok(matches),
        Err(error) => Err(fault_of(alloc, words, error)),
    }
}

/// The order of words that are a command by the grammar. It has no arguments without a command, so that what stands here for them is
/// never met.
fn order_of<'a>(
    alloc: Global,
    matches: &ArgMatches<'a>,
    processors: usize,
) -> Result<Order<'a>, ArgFault>
    ensures { IfOk result HasPieces }
{
    let (name, options) = matches.subcommand().unwrap_or(("check", matches));
    let called = called_by(name).unwrap_or(Called::Check);
    let workers = workers_of(alloc, options, processors)?;
    order_from(alloc, called, workers, options)
}

/// The order that the words give, the first of which is the program's name. Each FILE and each POINTER are taken as they stand: they are not cut,
/// trimmed or read. Where the words are no command, or ask for help or the version, `Err` has the parts of the message.
///
/// `--workers auto` is as many workers as there are processors, at least 1 and at most 16.
pub fn command_of<'a>(
    alloc: Global,
    words: &'a [&'a str],
    processors: usize,
) -> Result<Order<'a>, ArgFault>
    ensures { IfOk result HasPieces }
{
    let matches = matches_of(alloc, words)?;
    order_of(alloc, &matches, processors)
}
