//! A gate that stops workers.
use jx_crew::{Event, Gate, Go};
use std::sync::atomic::{AtomicBool, AtomicU64, Ordering};

/// More events than any of these runs has.
pub const MANY: u64 = 1000;

/// Stops at the event of this number and at all later ones. Events are counted from 0, once `begun` is true. It notes
/// whether a stopped worker went on with the chunk that it had.
#[derive(Drop)]
pub struct StopFrom<'a> {
    number: u64,
    begun: &'a AtomicBool,
    events: AtomicU64,
    has_stopped: AtomicBool,
    // A bit for each worker that the gate stopped as it last asked.
    stopped: AtomicU64,
    was_ignored: AtomicBool,
}

/// Whose step it is.
fn worker_of(event: Event) -> usize {
    match event {
        Event::Drew { worker, .. } => worker,
        Event::Stored { worker } => worker,
        Event::Took { worker } => worker,
    }
}

impl<'a> StopFrom<'a> {
    pub fn new(number: u64, begun: &'a AtomicBool) -> StopFrom<'a> {
        StopFrom {
            number,
            begun,
            events: AtomicU64::new(0),
            has_stopped: AtomicBool::new(false),
            stopped: AtomicU64::new(0),
            was_ignored: AtomicBool::new(false),
        }
    }

    /// Whether a worker was stopped.
    pub fn has_stopped(&self) -> bool {
        self.has_stopped.load(Ordering::SeqCst)
    }

    /// Whether a stopped worker read its chunk or moved a run all the same.
    pub fn was_ignored(&self) -> bool {
        self.was_ignored.load(Ordering::SeqCst)
    }

    /// Notes a step that takes no chunk where the gate had stopped its worker.
    fn note(&self, event: Event) {
        let bit = 1u64 << (worker_of(event) % 64);
        let is_stopped = self.stopped.load(Ordering::SeqCst) & bit != 0;
        if is_stopped && !matches!(event, Event::Drew { .. }) {
            self.was_ignored.store(true, Ordering::SeqCst);
        }
        self.stopped.fetch_and(!bit, Ordering::SeqCst);
    }

    /// Notes that a worker is stopped.
    fn stop(&self, event: Event) {
        let bit = 1u64 << (worker_of(event) % 64);
        self.stopped.fetch_or(bit, Ordering::SeqCst);
        self.has_stopped.store(true, Ordering::SeqCst);
    }
}

impl<'a> Gate for StopFrom<'a> {
    fn pass(&self, event: Event) -> Go {
        let is_counted = self.begun.load(Ordering::SeqCst);
        self.note(event);
        if !is_counted || self.events.fetch_add(1, Ordering::SeqCst) < self.number {
            return Go::On;
        }
        self.stop(event);
        Go::Stop
    }
}
