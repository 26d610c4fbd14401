// A join that was refused memory.
use thiserror::Error;

/// No memory could be had for a join. Both sides are handed back, equal to what came in.
#[derive(Debug, Drop, Error)]
#[error("out of memory")]
pub struct JoinFault<T> {
    pub left: T,
    pub right: T,
}
