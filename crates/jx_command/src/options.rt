// Options that several subcommands take.
use crate::inputs::{Input, input_of};
use crate::request::ShowProgress;
use clap::ArgMatches;
use jx_lex::Depth;

/// The depth that the options give, if they give one.
pub(crate) fn depth_of(options: &ArgMatches<'_>) -> Option<Depth> {
    Depth::new(u32::from(options.get_one::<u16>("depth")?))
}

/// The input: the file of an option, or standard input.
pub(crate) fn input_from<'a>(options: &ArgMatches<'a>) -> Input<'a> {
    match options.get_str("file") {
        Some(file) => Input::File(file),
        None => Input::Standard,
    }
}

/// The input: the file of an option, the input that a word names, or standard input.
pub(crate) fn input_of_word<'a>(options: &ArgMatches<'a>) -> Input<'a> {
    match options.get_str("files") {
        Some(word) => input_of(word),
        None => input_from(options),
    }
}

/// Whether progress is shown by the options.
pub(crate) fn progress_of(options: &ArgMatches<'_>) -> ShowProgress {
    match options.get_str("progress") {
        Some("auto") => ShowProgress::Auto,
        Some("always") => ShowProgress::Always,
        _ => ShowProgress::Never,
    }
}
