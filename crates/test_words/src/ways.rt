// Answers that are asked for in several ways.
ghost use Rattle.std.specs.Prelude.{◌≤◌};

use crate::out::Out;
use std::alloc::{AllocError, Global};
use std::fmt::Display;

/// The answers of a call that is made in several ways, and whether all ways answer the same.
#[derive(Drop)]
pub struct Ways {
    alloc: Global,
    /// The first way's answer.
    first: Option<Out>,
    /// The first other answer, after the way that gave it.
    other: Option<Out>,
    /// Whether a way was out of memory.
    is_refused: bool,
}

impl Ways {
    /// No way so far.
    pub fn new(alloc: Global) -> Ways {
        Ways {
            alloc,
            first: None,
            other: None,
            is_refused: false,
        }
    }

    /// One more way, and its answer, unless it was out of memory, which is kept.
    pub fn add_made<W: Display + Drop>(&mut self, way: W, answer: Result<Out, AllocError>) {
        match answer {
            Ok(answer) => self.add(way, answer),
            Err(_) => self.is_refused = true,
        }
    }

    /// One more way, and what it answers.
    pub fn add<W: Display + Drop>(&mut self, way: W, answer: Out) {
        match &self.first {
            None => self.first = Some(answer),
            Some(first) => {
                if self.other.is_none() && *first != answer {
                    self.other = Some(differs(self.alloc, way, &answer));
                }
            }
        }
    }

    /// The answers on a text that is fed by slices of each of these sizes.
    pub fn add_sliced<F: Fn(&[&[u8]]) -> Result<Out, AllocError>>(
        &mut self,
        text: &[u8],
        sizes: &[usize],
        answer: F,
    )
        requires { F.IsAlwaysCallable answer }
    {
        for size in sizes {
            let slices: Result<Vec<&[u8]>, AllocError> = text
                .chunks((*size).max(1))
                .collect(self.alloc);
            let answer = match slices {
                Ok(slices) => answer(&slices),
                Err(AllocError) => Err(AllocError),
            };
            self.add_made(format_args!("by slices of {size}"), answer);
        }
    }

    /// The answers on a text that is fed by two slices, which meet at each offset that is a multiple of this number.
    pub fn add_halved<F: Fn(&[&[u8]]) -> Result<Out, AllocError>>(
        &mut self,
        text: &[u8],
        apart: usize,
        answer: F,
    )
        requires callable { F.IsAlwaysCallable answer }
        requires apart { 1 ≤ apart }
    {
        for cut in 0..=text.len() {
            if cut % apart == 0 {
                let answer = answer(&[&text[..cut], &text[cut..]]);
                self.add_made(format_args!("cut at {cut}"), answer);
            }
        }
    }

    /// Writes the answer, if all ways gave the same one, and else the first other one with its way; and keeps that a way was out of
    /// memory.
    pub fn push_to(&self, out: &mut Out) {
        if self.is_refused {
            out.refuse();
        }
        match self.other.as_ref().or(self.first.as_ref()) {
            Some(told) => out.push(told),
            None => out.push_str("asked in no way"),
        }
    }
}

/// Says that a way gives another answer than the first one.
fn differs<W: Display + Drop>(alloc: Global, way: W, answer: &Out) -> Out {
    let mut told = Out::new(alloc);
    told.put(format_args!("differs: {way}: "));
    told.push(answer);
    told
}
