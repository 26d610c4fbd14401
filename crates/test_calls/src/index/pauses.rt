// Readings that pause.
use jx_run::Pace;

/// Pauses after each byte.
#[derive(Clone, Copy)]
pub(crate) struct EachByte;

impl Pace for EachByte {
    fn next_stop(&mut self, at: usize, _end: usize) -> usize {
        at.saturating_add(1)
    }
}
