// Which chunk of a text is read next.
use std::sync::atomic::{AtomicU64, Ordering};

/// From this number on no chunk is taken.
const STOPPED: u64 = 1 << 62;

/// The chunks of a text from an offset on, which workers take in order. No answer depends on who takes which.
#[derive(Drop)]
pub(crate) struct Pieces {
    next: AtomicU64,
    base: usize,
    size: usize,
}

impl Pieces {
    /// Chunks of so many bytes, of which none is taken.
    pub fn new(base: usize, size: usize) -> Pieces {
        Pieces {
            next: AtomicU64::new(0),
            base,
            size,
        }
    }

    /// The number of bytes of so many chunks.
    pub fn bytes(&self, count: u64) -> usize {
        self.size.saturating_mul(count as usize)
    }

    /// Takes so many chunks in a row, and returns where they begin; none once they were stopped.
    pub fn draw(&self, count: u64) -> Option<usize> {
        let number = self.next.fetch_add(count, Ordering::SeqCst);
        if number >= STOPPED {
            return None;
        }
        Some(self.base.saturating_add(self.bytes(number)))
    }

    /// Lets no more be taken.
    pub fn stop(&self) {
        self.next.store(STOPPED, Ordering::SeqCst);
    }
}
