ghost use Rattle.std.specs.Prelude.{◌≡◌, ◌<◌, ◌≤◌, ◌↔◌, IsSome, IfSome};

use std::marker::Model;

/// How many workers share the chunks, 1 to 64.
#[derive(Clone, Copy, Debug, PartialEq, Eq)]
pub struct Workers {
    count: u8,
}

impl Model for Workers {
    ghost use Rattle.std.specs.Prelude.{ℕ, ◌<◌, ◌≤◌};

    ghost Value = { ℕ };

    ghost view = { λ w. w.count };

    ghost invariant = { λ w. (0 < w.count) × (w.count ≤ 64) };

    ghost inverse = { λ n. record { count = n } };
}

impl Workers {
    /// A count of 1 to 64 workers; none for any other count.
    pub fn new(count: u8) -> Option<Workers>
        ensures valid { IsSome result ↔ ((0 < count) × (count ≤ 64)) }
        ensures value { IfSome result (λ w. w ≡ count) }
    {
        if 0 < count && count <= 64 {
            Some(Workers { count })
        } else {
            None
        }
    }

    /// The number of workers.
    pub fn count(self) -> u8
        ensures value { result ≡ self }
        ensures some { 0 < result }
        ensures within { result ≤ 64 }
    {
        self.count
    }
}
