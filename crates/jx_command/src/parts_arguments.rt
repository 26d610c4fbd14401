// The words of the commands that work on the parts of a text.
use crate::options::{depth_of, input_from};
use crate::order::{PartsOrder, PartsStep};
use clap::ArgMatches;

/// The offset that an option names, if it is given.
fn offset_of(options: &ArgMatches<'_>, name: &str) -> Option<usize> {
    let offset: u64 = options.get_one::<u64>(name)?;
    Some(offset as usize)
}

/// The order for a step: the input, and how deep the whole text may be.
fn parts_order<'a>(options: &ArgMatches<'a>, step: PartsStep) -> PartsOrder<'a> {
    PartsOrder {
        input: input_from(options),
        depth: depth_of(options).unwrap_or_default(),
        step,
    }
}

/// The order of the options of `part`.
pub(crate) fn part_order_from<'a>(options: &ArgMatches<'a>) -> PartsOrder<'a> {
    let from = offset_of(options, "from");
    parts_order(options, PartsStep::Part { from })
}

/// The order of the options of `join`.
pub(crate) fn join_order_from<'a>(options: &ArgMatches<'a>) -> PartsOrder<'a> {
    parts_order(options, PartsStep::Join)
}

/// The order of the options of `whole`. The grammar has both offsets.
pub(crate) fn whole_order_from<'a>(options: &ArgMatches<'a>) -> PartsOrder<'a> {
    let step = PartsStep::Whole {
        from: offset_of(options, "from").unwrap_or(0),
        to: offset_of(options, "to").unwrap_or(0),
        quiet: options.get_flag("quiet"),
    };
    parts_order(options, step)
}
