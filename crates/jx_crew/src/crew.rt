use crate::workers::Workers;
use std::alloc::Global;

/// Who reads: the runtime that makes threads, the memory that they take, how many workers there are, and the gate that
/// they ask.
pub struct Crew<'c, R, G> {
    pub rt: &'c R,
    pub alloc: Global,
    pub workers: Workers,
    pub gate: &'c G,
}

// A thing that is lent need not be one that may be freed.
impl<'c, R, G> Drop for Crew<'c, R, G> {
    fn drop(self) {
        let Crew {
            rt: _,
            alloc: _,
            workers: _,
            gate: _,
        } = self;
    }
}
