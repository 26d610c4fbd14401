// The known stack as a sink of the tokens that a scan finds.
use crate::stack::known_stack::KnownStack;
use jx_lex::{Mark, TokenSink};
use std::alloc::AllocError;

// For the proof, the ends that it has seen begin with the depth: so a scan is known to leave the depth as it is.
impl TokenSink for KnownStack {
    ghost use Rattle.jx_reduce.specs.KnownStack.{HasSeen};

    ghost has_seen = { λ stack marks ends. HasSeen marks ends stack };

    ghost awaits = { λ _ _. Unit {0} };

    #[inline(always)]
    fn begin(&mut self, mark: Mark) -> Result<(), AllocError> {
        self.push(mark)?;
        Ok(())
    }

    #[inline(always)]
    fn end(&mut self, _at: usize) -> Result<(), AllocError> {
        Ok(())
    }

    #[inline(always)]
    fn is_done(&self) -> bool {
        self.is_done()
    }

    #[inline(always)]
    fn pass(&mut self, text: &[u8], from: usize, to: usize) -> Result<usize, AllocError> {
        Ok(self.pass(text, from, to))
    }
}
