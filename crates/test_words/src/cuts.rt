// Where a text is cut.
use crate::line::LineFault;
use crate::numbers::numbers_of;
use std::alloc::{AllocError, Global};

/// Each list of cuts that a word asks for, of a text of so many bytes.
pub fn cuts_of(alloc: Global, word: &str, len: usize) -> Result<Vec<Vec<usize>>, LineFault> {
    let mut all = Vec::new(alloc);
    match word {
        "each" => push_singles(&mut all, alloc, len)?,
        "pairs" => {
            push_singles(&mut all, alloc, len)?;
            push_pairs(&mut all, alloc, len)?;
        }
        _ => all.push(numbers_of(alloc, word)?)?,
    }
    Ok(all)
}

/// No cut, and each single one.
fn push_singles(all: &mut Vec<Vec<usize>>, alloc: Global, len: usize) -> Result<(), AllocError> {
    all.push(Vec::new(alloc))?;
    for cut in 1..len {
        all.push(vec![in alloc; cut]?)?;
    }
    Ok(())
}

/// Each pair of cuts.
fn push_pairs(all: &mut Vec<Vec<usize>>, alloc: Global, len: usize) -> Result<(), AllocError> {
    for second in 2..len {
        for first in 1..second {
            all.push(vec![in alloc; first, second]?)?;
        }
    }
    Ok(())
}
