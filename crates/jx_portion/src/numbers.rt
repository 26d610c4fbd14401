// Numbers in a run file.
ghost use Rattle.std.specs.Prelude.{◌≢◌, ◌<◌, ◌^◌, IfErr};
ghost use Rattle.jx_portion.specs.Reading.{number_at, Gives};
ghost use Rattle.jx_portion.specs.Spelling.{number};

use crate::fault::{DecodeFault, RunFault};
use crate::spelt::Spelt;
use std::alloc::AllocError;

impl Spelt for usize {
    ghost spelling = { number };

    ghost reading = { number_at };

    ghost fits = { λ n. n < 2 ^ 64 };

    #[tactic(auto, unfolding(crate::specs::Spelling::number))]
    fn put(self, out: &mut Vec<u8>) -> Result<(), AllocError> {
        out.extend_from_slice(&(self as u64).to_be_bytes())?;
        Ok(())
    }

    #[tactic(auto, unfolding(crate::specs::Reading::number_at))]
    fn read(bytes: &[u8]) -> Result<(usize, &[u8]), DecodeFault>
        ensures reads { Gives (λ x. (x.0, x.1.now)) result (number_at bytes.now) }
        ensures told { IfErr result (λ fault. fault ≢ DecodeFault.Memory) }
    {
        if bytes.len() < 8 {
            return Err(DecodeFault::Fault(RunFault::CutShort));
        }
        let (front, rest) = bytes.split_at(8);
        let number = u64::from_be_bytes([
            front[0], front[1], front[2], front[3], front[4], front[5], front[6], front[7],
        ]);
        Ok((number as usize, rest))
    }
}
