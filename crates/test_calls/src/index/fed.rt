// The answers to pointers in a text that is fed by slices.
use crate::index::pointers::pointers_of;
use jx_find::Finder;
use jx_index::{FindFault, Found};
use jx_lex::Depth;
use jx_run::Settings;
use std::alloc::{AllocError, Global};

/// How many bytes are fed at most.
const FAR: usize = 1 << 40;

/// Up to which size slices are fed, so that a shorter text is cut everywhere.
const LONGEST: usize = 200;

/// The answers to the pointers in these words in a text that is fed by slices of so many bytes. A refused text has no answers.
fn fed(
    alloc: Global,
    text: &[u8],
    size: usize,
    words: &[String],
) -> Result<Vec<Result<Found, FindFault>>, AllocError> {
    let settings = Settings::from(Depth::default());
    let pointers = pointers_of(alloc, words)?;
    let mut finder = Finder::new(alloc, &settings, pointers)?;
    for slice in text.chunks(size.max(1)) {
        if finder.end() < FAR && slice.len() < FAR {
            finder.feed(slice)?;
        }
    }
    match finder.finish()? {
        Ok(found) => Ok(found),
        Err(_) => Ok(Vec::new(alloc)),
    }
}

/// Whether the pointers in these words lead to what is wanted in a text that is fed by slices, of whatever size.
pub(crate) fn is_fed_alike(
    alloc: Global,
    text: &[u8],
    words: &[String],
    wanted: &[Result<Found, FindFault>],
) -> Result<bool, AllocError> {
    for size in 1..LONGEST {
        let found = fed(alloc, text, size, words)?;
        if found.as_slice() != wanted {
            return Ok(false);
        }
    }
    Ok(true)
}
