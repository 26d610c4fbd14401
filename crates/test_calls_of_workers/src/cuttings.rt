// Where a text is cut, and how many workers read it.
ghost use Rattle.std.specs.Prelude.{◌≡◌, IfOk};

use jx_claim::{CutFault, Cutting};
use jx_crew::Workers;
use std::alloc::Global;
use test_words::{Line, LineFault, cuts_of};

/// How a text is read.
#[derive(Drop)]
pub struct Reading {
    /// Where the text is cut.
    pub cuts: Vec<usize>,
    pub workers: Workers,
    /// Both in words.
    pub way: String,
}

/// How a text of so many bytes is read. A word asks for lists of cuts: beyond the words that all programs know, `bytes` is a cut
/// after each byte. It is one of the lists too where there are several. If the count of workers is not told, one, two and five
/// workers read where there is one list, and else two.
pub fn readings(line: &mut Line<'_>, word: &str, len: usize, count: Option<usize>) -> Vec<Reading> {
    let readings = readings_of(line.alloc, word, len, count);
    line.read_or(readings, Vec::new(line.alloc))
}

fn readings_of(
    alloc: Global,
    word: &str,
    len: usize,
    count: Option<usize>,
) -> Result<Vec<Reading>, LineFault> {
    let lists = lists_of(alloc, word, len)?;
    let counts = match count {
        Some(count) => vec![in alloc; count]?,
        None if lists.len() == 1 => vec![in alloc; 1, 2, 5]?,
        None => vec![in alloc; 2]?,
    };
    let mut readings = Vec::new(alloc);
    for cuts in &lists {
        for count in &counts {
            readings.push(Reading {
                cuts: cuts.clone()?,
                workers: workers_of(*count)?,
                way: format!(in alloc; "cuts {cuts:?}, {count} workers")?,
            })?;
        }
    }
    Ok(readings)
}

fn lists_of(alloc: Global, word: &str, len: usize) -> Result<Vec<Vec<usize>>, LineFault> {
    let mut all = if word == "bytes" {
        Vec::new(alloc)
    } else {
        cuts_of(alloc, word, len)?
    };
    if all.len() != 1 {
        all.push((1..len).collect(alloc)?)?;
    }
    Ok(all)
}

/// A text of so many bytes, cut at these offsets.
pub fn cutting_at(alloc: Global, len: usize, cuts: &[usize]) -> Result<Cutting, LineFault>
    ensures len { IfOk result (λ cutting. cutting.len ≡ len) }
    ensures front { IfOk result (λ cutting. cutting.front ≡ 0) }
{
    match Cutting::at(alloc, len, cuts) {
        Ok(cutting) => Ok(cutting),
        Err(CutFault::Memory) => Err(LineFault::Memory),
        Err(_) => Err(LineFault::NoSuchCall),
    }
}

/// As many workers as that.
pub fn workers_of(count: usize) -> Result<Workers, LineFault> {
    let count = u8::try_from(count).ok().ok_or(LineFault::NoSuchCall)?;
    Workers::new(count).ok_or(LineFault::NoSuchCall)
}
