// The arguments of the subcommands that judge elements or texts, where they are reported as they end.
use crate::arg_fault::ArgFault;
use crate::arguments::{inputs_named, mark_of, words_of};
use crate::options::depth_of;
use crate::order::LiveOrder;
use clap::ArgMatches;
use jx_run::{NameRule, Settings};
use std::alloc::Global;

/// Whether the words ask for that.
pub(crate) fn is_live(options: &ArgMatches<'_>) -> bool {
    options.get_flag("live")
}

/// The order of its options. The grammar has a depth where the words leave it out, and takes no rule on names.
pub(crate) fn live_order_from<'a>(
    alloc: Global,
    options: &ArgMatches<'a>,
) -> Result<LiveOrder<'a>, ArgFault> {
    Ok(LiveOrder {
        inputs: inputs_named(options, words_of(alloc, options))?,
        settings: Settings {
            depth: depth_of(options).unwrap_or_default(),
            mark: mark_of(options),
            names: NameRule::Any,
        },
        is_quiet: options.get_flag("quiet"),
    })
}
