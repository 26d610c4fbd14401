// How a report is asked for.
use crate::reader::{Giving, giving_of};
use crate::writer::{Taking, taking_of};
use jx_lex::Depth;
use jx_run::Settings;
use std::alloc::{AllocError, Global};
use test_words::{LineFault, depth_of, number_of, settings_of};

/// The options with which a report is asked. Lists are all gone through, each number beside each of the others.
#[derive(Drop)]
pub struct Options {
    pub settings: Settings,
    pub workers: Vec<usize>,
    pub pieces: Vec<usize>,
    /// How many bytes a batch has; none where `report` itself is called.
    pub batches: Vec<usize>,
    pub quiet: bool,
    pub giving: Giving,
    pub taking: Taking,
}

impl Options {
    /// The default depth, five workers who read a byte at a time, and ends that give and take all at once.
    fn new(alloc: Global) -> Result<Options, AllocError> {
        Ok(Options {
            settings: Settings::from(Depth::default()),
            workers: vec![in alloc; 5]?,
            pieces: vec![in alloc; 1]?,
            batches: Vec::new(alloc),
            quiet: false,
            giving: Giving::whole(),
            taking: Taking::whole(),
        })
    }

    /// `NAME=VALUE`, or `quiet`.
    fn set(&mut self, alloc: Global, part: &str) -> Result<(), LineFault> {
        let (name, value) = part.split_once("=").unwrap_or((part, ""));
        match name {
            "depth" => self.settings.depth = depth_of(value)?,
            "set" => self.settings = settings_of(self.settings.depth, value)?,
            "workers" => self.workers = list_of(alloc, value)?,
            "piece" => self.pieces = list_of(alloc, value)?,
            "batch" => self.batches = list_of(alloc, value)?,
            "quiet" => self.quiet = true,
            "zeros" => self.giving.zeros = number_of(value)?,
            "reader" => self.giving = giving_of(value)?,
            "writer" => self.taking = taking_of(value)?,
            _ => return Err(LineFault::NoSuchCall),
        }
        Ok(())
    }
}

/// `N` and `N-M`, with `+` between.
fn list_of(alloc: Global, word: &str) -> Result<Vec<usize>, LineFault> {
    let mut numbers = Vec::new(alloc);
    for part in word.split('+') {
        let (first, last) = part.split_once("-").unwrap_or((part, part));
        for number in number_of(first)?..=number_of(last)? {
            numbers.push(number)?;
        }
    }
    Ok(numbers)
}

/// Options, with commas between, or `-` for none.
pub fn options_of(alloc: Global, word: &str) -> Result<Options, LineFault> {
    let mut options = Options::new(alloc)?;
    if word == "-" {
        return Ok(options);
    }
    for part in word.split(',') {
        options.set(alloc, part)?;
    }
    Ok(options)
}
