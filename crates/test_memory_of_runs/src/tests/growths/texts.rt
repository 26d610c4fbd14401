// The values that are made of each text that was worked out, where an allocation fails.
use crate::inputs::{TEXTS, Worked};
use crate::lines::Lines;
use crate::tests::checks::assert_right;
use crate::tests::growths::cuts::{Joined, check_cuts};
use crate::tests::growths::indexes;
use std::alloc::Global;
use std::env::Env;
use std::process::Abort;

/// The values that are made of a text.
#[derive(Clone, Copy)]
pub(crate) enum Made {
    TextRuns,
    OutcomeRuns,
    Indexes,
}

/// Checks what is made of each text.
pub(crate) fn check_texts<R: Abort + Env>(rt: &R, alloc: Global, made: Made) {
    let mut lines = Lines::of(rt);
    for worked in &TEXTS {
        check_text(rt, alloc, &mut lines, made, worked);
    }
}

fn check_text<R: Abort>(rt: &R, alloc: Global, lines: &mut Lines, made: Made, worked: &Worked) {
    match made {
        Made::TextRuns => check_cuts(rt, alloc, lines, &Joined::Texts(worked), worked.text),
        Made::OutcomeRuns => check_cuts(rt, alloc, lines, &Joined::Outcomes(worked), worked.text),
        Made::Indexes => {
            if lines.takes_next() {
                assert_right(rt, indexes::is_right(alloc, worked), worked.text, 0);
            }
        }
    }
}
