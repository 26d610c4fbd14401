// The words of the subcommands that write or count elements.
ghost use Rattle.std.specs.Prelude.{◌≤◌};

use crate::arguments::{mark_of, piece_of};
use crate::options::{depth_of, input_of_word, progress_of};
use crate::order::{EachForm, EachOrder};
use clap::ArgMatches;
use jx_crew::Workers;
use jx_run::{NameRule, Settings};

/// The form of lines by the options of `each`.
pub(crate) fn each_form_of(options: &ArgMatches<'_>) -> EachForm {
    if options.get_flag("names") {
        EachForm::Members
    } else {
        EachForm::Values
    }
}

/// The form of lines by the options of `keys`.
pub(crate) fn keys_form_of(options: &ArgMatches<'_>) -> EachForm {
    if options.get_flag("raw") {
        EachForm::NameTexts
    } else {
        EachForm::Names
    }
}

/// The order of such a command by its options. The grammar has a number for each option that the words leave out, so that
/// what stands here where there is none is never met.
pub(crate) fn each_order_from<'a>(
    form: EachForm,
    workers: Workers,
    options: &ArgMatches<'a>,
) -> EachOrder<'a>
    ensures { 1 ≤ result.piece }
{
    EachOrder {
        pointer: options.get_str("pointer").unwrap_or(""),
        form,
        input: input_of_word(options),
        settings: Settings {
            depth: depth_of(options).unwrap_or_default(),
            mark: mark_of(options),
            names: NameRule::Any,
        },
        workers,
        piece: piece_of(options).unwrap_or(1),
        progress: progress_of(options),
    }
}
