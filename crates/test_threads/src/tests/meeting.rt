// A gate through which two workers pass only together.
use jx_crew::{Event, Gate, Go};
use std::sync::atomic::{AtomicBool, AtomicU64, Ordering};

const NOBODY: u64 = u64::MAX;

/// How often the worker that waits looks whether it may go on.
const TURNS: u32 = 200_000_000;

/// A step that another worker has to have done before the first one goes on.
#[derive(Clone, Copy, PartialEq, Eq)]
pub enum Until {
    /// It took a chunk.
    Drew,
    /// It put a run into the accumulator or took one out.
    Moved,
}

/// Lets the first worker that takes a chunk wait, after so many chunks were taken, until another one has done its part.
#[derive(Drop)]
pub struct Meeting {
    until: Until,
    passing: u64,
    draws: AtomicU64,
    first: AtomicU64,
    other_came: AtomicBool,
    waited_in_vain: AtomicBool,
}

impl Meeting {
    /// Lets the first worker that takes a chunk wait.
    pub fn new(until: Until) -> Meeting {
        Meeting::behind(0, until)
    }

    /// Lets the first worker wait that takes a chunk after so many were taken.
    pub fn behind(passing: u64, until: Until) -> Meeting {
        Meeting {
            until,
            passing,
            draws: AtomicU64::new(0),
            first: AtomicU64::new(NOBODY),
            other_came: AtomicBool::new(false),
            waited_in_vain: AtomicBool::new(false),
        }
    }

    fn hold(&self) {
        for _ in 0..TURNS {
            if self.other_came.load(Ordering::SeqCst) {
                return;
            }
        }
        self.waited_in_vain.store(true, Ordering::SeqCst);
    }

    fn is_first(&self, worker: usize) -> bool {
        let first = self
            .first
            .compare_exchange(NOBODY, worker as u64, Ordering::SeqCst, Ordering::SeqCst);
        first.is_ok()
    }

    fn note(&self, worker: usize, did: Until) {
        let first = self.first.load(Ordering::SeqCst);
        if did == self.until && first != NOBODY && first != worker as u64 {
            self.other_came.store(true, Ordering::SeqCst);
        }
    }

    /// Whether a worker waited, and another one came in time.
    pub fn took_place(&self) -> bool {
        self.first.load(Ordering::SeqCst) != NOBODY && !self.waited_in_vain.load(Ordering::SeqCst)
    }
}

impl Gate for Meeting {
    fn pass(&self, event: Event) -> Go {
        match event {
            Event::Drew { worker, .. } => {
                let is_passed = self.draws.fetch_add(1, Ordering::SeqCst) < self.passing;
                if !is_passed && self.is_first(worker) {
                    self.hold();
                } else {
                    self.note(worker, Until::Drew);
                }
            }
            Event::Stored { worker } | Event::Took { worker } => self.note(worker, Until::Moved),
        }
        Go::On
    }
}
