// The words of the subcommand that saves an index.
use crate::arg_fault::ArgFault;
use crate::arguments::settings_of;
use crate::options::{input_of_word, progress_of};
use crate::order::SaveOrder;
use clap::ArgMatches;
use jx_crew::Workers;
use jx_file_index::ChunkSize;

/// How many bytes a chunk has by the options, if they say and it is one of its sizes.
fn chunk_of(options: &ArgMatches<'_>) -> Option<ChunkSize> {
    let bytes: u32 = options.get_one::<u32>("chunk")?;
    ChunkSize::new(bytes as usize)
}

/// The order of its options. The grammar has a number of bytes where the words leave it out.
pub(crate) fn save_order_from<'a>(
    workers: Workers,
    options: &ArgMatches<'a>,
) -> Result<SaveOrder<'a>, ArgFault> {
    let Some(chunk) = chunk_of(options) else {
        return Err(ArgFault::Chunk);
    };
    Ok(SaveOrder {
        input: input_of_word(options),
        settings: settings_of(options),
        chunk,
        has_names: options.get_flag("names"),
        workers,
        progress: progress_of(options),
    })
}
