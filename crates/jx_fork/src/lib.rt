//! Work for several threads, whose caller only waits.
#![tactic(auto)]

mod calls;

pub use calls::call_each;
