// The arguments of the subcommand that prints the borders of parts.
ghost use Rattle.std.specs.Prelude.{◌≤◌, IfSome};

use crate::option_rows::MOST_PARTS;
use crate::order::SplitOrder;
use clap::ArgMatches;

/// How many parts the options ask for, if they say and there may be as many.
fn parts_of(options: &ArgMatches<'_>) -> Option<usize>
    ensures some { IfSome result (λ parts. 1 ≤ parts) }
    ensures within { IfSome result (λ parts. parts ≤ 65536) }
{
    let parts: u32 = options.get_one::<u32>("parts")?;
    if 1 <= parts && u64::from(parts) <= MOST_PARTS {
        Some(parts as usize)
    } else {
        None
    }
}

/// The order of its options. The grammar has each of them but the pointer, so that what stands here where there is none is
/// never met.
pub(crate) fn split_order_from<'a>(options: &ArgMatches<'a>) -> SplitOrder<'a>
    ensures some { 1 ≤ result.parts }
    ensures within { result.parts ≤ 65536 }
{
    SplitOrder {
        pointer: options.get_str("pointer").unwrap_or(""),
        index: options.get_str("index").unwrap_or(""),
        file: options.get_str("file").unwrap_or(""),
        parts: parts_of(options).unwrap_or(1),
    }
}
