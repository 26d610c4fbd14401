// How many workers the words of the command line ask for.
ghost use Rattle.std.specs.Prelude.{◌≡◌, max, min};

use crate::arg_fault::ArgFault;
use clap::ArgMatches;
use jx_crew::Workers;
use std::alloc::Global;

/// The word for as many workers as there are processors. Without the option it is read.
pub(crate) const AUTO: &str = "auto";

/// How many workers that word stands for at most.
const MOST: usize = 16;

/// As many workers as there are processors, 1 to 16.
fn workers_for(processors: usize) -> Workers
    ensures { result ≡ max 1 (min processors 16) }
{
    let count = processors.min(MOST).max(1);
    Workers::new(count as u8).unwrap()
}

/// The workers that a word stands for: 1 to 64, or `auto`.
fn workers_named(word: &str, processors: usize) -> Option<Workers> {
    if word == AUTO {
        Some(workers_for(processors))
    } else {
        Workers::new(word.parse::<u8>().ok()?)
    }
}

/// That a word stands for no workers.
fn refused(alloc: Global, word: &str) -> ArgFault {
    match String::from_str(alloc, word) {
        Ok(word) => ArgFault::Workers(word),
        Err(_) => ArgFault::Memory,
    }
}

/// How many workers the options ask for, where so many processors may be used.
pub(crate) fn workers_of(
    alloc: Global,
    options: &ArgMatches<'_>,
    processors: usize,
) -> Result<Workers, ArgFault> {
    let word = options.get_str("workers").unwrap_or(AUTO);
    match workers_named(word, processors) {
        Some(workers) => Ok(workers),
        None => Err(refused(alloc, word)),
    }
}
