// The source of random lists of token starts.
ghost use Rattle.std.specs.Prelude.{◌<◌};

pub(crate) const BYTES: [u8; 8] = [b'[', b']', b'{', b'}', b':', b',', b's', b'n'];

/// Numbers by chance, the same ones in each run.
#[derive(Drop)]
pub(crate) struct Chance {
    pub(crate) seed: u64,
}

impl Chance {
    /// The next number by chance, below `count`.
    pub(crate) fn below(&mut self, count: usize) -> usize
        requires { 0 < count }
        ensures { result < count }
    {
        self.seed = self
            .seed
            .wrapping_mul(6364136223846793005)
            .wrapping_add(1442695040888963407);
        (self.seed >> 33) as usize % count
    }
}
