// Each call that takes memory, written so that the test passes whether or not one growth of the run is refused: a call that was
// refused is made once more, and has to answer rightly then.
use crate::tests::calls::{Asked, crew_of, is_right};
use jx_run::Settings;
use std::alloc::{AllocError, Global};
use std::process::Abort;
use std::sync::Wait;
use std::thread::Threads;

mod answers;
mod look_ups;

// The question to so many workers: the right answer, or out of memory, and then the right one where it is asked for again.
fn check<R: Abort + Threads + Wait + Sync>(
    rt: &R,
    alloc: Global,
    count: u8,
    asked: Asked<'_>,
    settings: &Settings,
) {
    let crew = crew_of(rt, alloc, count);
    let right = match is_right(&crew, asked, settings) {
        Ok(right) => right,
        Err(AllocError) => is_right(&crew, asked, settings).expect(rt, "an answer"),
    };
    assert!(rt;
        right,
        "{} on {:?} by {settings:?} and {count}",
        asked.call(),
        asked.text()
    );
}
