// The words of the subcommand that judges lines.
ghost use Rattle.std.specs.Prelude.{◌≤◌, IfOk};

use crate::arg_fault::ArgFault;
use crate::arguments::{format_of, inputs_named, mark_of, piece_of, words_of};
use crate::options::depth_of;
use crate::order::{LinesOrder, PassOrder};
use clap::ArgMatches;
use jx_crew::Workers;
use jx_run::{NameRule, Settings};
use std::alloc::Global;

/// How the accepted lines pass by the options, if they do.
fn pass_from<'a>(options: &ArgMatches<'a>) -> Option<PassOrder<'a>> {
    if options.get_flag("pass") {
        Some(PassOrder {
            report: options.get_str("bad"),
        })
    } else {
        None
    }
}

/// The number of refused lines to report by the options, at most, if they say.
fn most_of(options: &ArgMatches<'_>) -> Option<usize> {
    let most: u64 = options.get_one::<u64>("max")?;
    Some(most as usize)
}

/// The order of its options. The grammar has a number for each option that the words leave out, so that what stands
/// here where there is none is never met.
pub(crate) fn lines_order_from<'a>(
    alloc: Global,
    workers: Workers,
    options: &ArgMatches<'a>,
) -> Result<LinesOrder<'a>, ArgFault>
    ensures { IfOk result (λ order. 1 ≤ order.piece) }
{
    Ok(LinesOrder {
        inputs: inputs_named(options, words_of(alloc, options))?,
        settings: Settings {
            depth: depth_of(options).unwrap_or_default(),
            mark: mark_of(options),
            names: NameRule::Any,
        },
        workers,
        piece: piece_of(options).unwrap_or(1),
        skips_blanks: options.get_flag("skip-blank"),
        is_quiet: options.get_flag("quiet") || options.get_flag("list"),
        told: format_of(options),
        pass: pass_from(options),
        most: most_of(options),
    })
}
