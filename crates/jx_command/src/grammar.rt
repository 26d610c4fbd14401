// The commands and options by which arguments are read, made from rows of data.
use crate::arg_row::{ArgRow, Form, Rule};
use crate::command_rows::{ALL, CommandRow, row_of};
use crate::help;
use clap::builder::ValueParser;
use clap::{Arg, ArgAction, Command};
use std::alloc::{AllocError, Global};

/// An argument of a form, behind the name of its option if it has one.
fn formed<'a>(arg: Arg<'a>, name: &'a str, form: Form) -> Arg<'a> {
    match form {
        Form::Flag => arg.long(name).action(ArgAction::SetTrue),
        Form::Option(value) => arg.long(name).value_name(value),
        Form::Word(value) => arg.value_name(value),
    }
}

fn of_words<'a>(arg: Arg<'a>) -> Arg<'a> {
    arg.num_args(1..)
}

fn parsed_by<'a>(arg: Arg<'a>, parser: ValueParser<'a>) -> Arg<'a> {
    arg.value_parser(parser).hide_possible_values(true)
}

/// An argument for which a rule holds, too.
fn ruled_by<'a>(arg: Arg<'a>, rule: Rule) -> Result<Arg<'a>, AllocError> {
    match rule {
        Rule::Short(letter) => Ok(arg.short(letter)),
        Rule::AnyWord => Ok(arg.allow_hyphen_values(true)),
        Rule::Several => Ok(of_words(arg)),
        Rule::Parsed(parser) => Ok(parsed_by(arg, parser)),
        Rule::Default(value) => Ok(arg.default_value(value)),
        Rule::Required => Ok(arg.required(true)),
        Rule::Conflicts(others) => arg.conflicts_with_all(others),
        Rule::Needs(others) => arg.requires_all(others),
        Rule::Unless(others) => arg.required_unless_present_any(others),
    }
}

fn arg_of_row<'a>(alloc: Global, row: &ArgRow) -> Result<Arg<'a>, AllocError> {
    let arg = Arg::new(alloc, row.name)
        .help(row.help)
        .long_help(row.long_help);
    let mut arg = formed(arg, row.name, row.form);
    for rule in row.rules {
        arg = ruled_by(arg, *rule)?;
    }
    Ok(arg)
}

/// The arguments of rows.
fn args_of_rows<'a>(alloc: Global, rows: &[ArgRow]) -> Result<Vec<Arg<'a>>, AllocError> {
    let mut args = Vec::new(alloc);
    for row in rows {
        args.push(arg_of_row(alloc, row)?)?;
    }
    Ok(args)
}

fn command_of_row<'a>(alloc: Global, row: &CommandRow) -> Result<Command<'a>, AllocError> {
    let args = args_of_rows(alloc, row.args)?;
    Command::new(alloc, row.name)
        .about(row.about)
        .after_long_help(row.after)
        .args(args)
}

/// The commands of the program.
fn commands<'a>(alloc: Global) -> Result<Vec<Command<'a>>, AllocError> {
    let mut commands = Vec::new(alloc);
    for called in &ALL {
        commands.push(command_of_row(alloc, &row_of(*called))?)?;
    }
    Ok(commands)
}

/// The program without its commands.
fn program<'a>(alloc: Global) -> Command<'a> {
    Command::new(alloc, "jx")
        .version(help::VERSION)
        .about(help::ABOUT)
        .long_about(help::LONG_ABOUT)
        .after_help(help::AFTER)
        .after_long_help(help::LONG_AFTER)
        .subcommand_required(true)
        // Of an option that is given twice, the last one counts.
        .args_override_self(true)
}

/// The program with its commands.
pub(crate) fn grammar<'a>(alloc: Global) -> Result<Command<'a>, AllocError> {
    let commands = commands(alloc)?;
    program(alloc).subcommands(commands)
}
