// How deep containers may nest.
ghost use Rattle.std.specs.Prelude.{◌≡◌, ◌≤◌, ◌↔◌, IsSome, IfSome};

use std::marker::Model;

/// The depth that is used where none is named.
const DEFAULT_DEPTH: u32 = 512;

/// How many containers may be open at once (RFC 8259, section 9, allows such a limit). A scalar has depth 0, a
/// container one more than its deepest child.
#[derive(Clone, Copy, Debug, PartialEq, Eq)]
pub struct Depth {
    containers: u32,
}

impl Model for Depth {
    ghost use Rattle.std.specs.Prelude.{ℕ, ◌≤◌};

    ghost Value = { ℕ };

    ghost view = { λ d. d.containers };

    ghost invariant = { λ d. d.containers ≤ 65535 };

    ghost inverse = { λ n. record { containers = n } };
}

impl Depth {
    /// A depth of 0 to 65,535 containers; none above.
    pub fn new(containers: u32) -> Option<Depth>
        ensures valid { IsSome result ↔ (containers ≤ 65535) }
        ensures value { IfSome result (λ d. d ≡ containers) }
    {
        if containers <= 65535 {
            Some(Depth { containers })
        } else {
            None
        }
    }

    /// The number of containers that may stand open at once.
    pub fn containers(self) -> u32
        ensures value { result ≡ self }
        ensures within { result ≤ 65535 }
    {
        self.containers
    }
}

impl Default for Depth {
    /// 512 containers.
    fn default() -> Depth
        ensures { result ≡ 512 }
    {
        Depth {
            containers: DEFAULT_DEPTH,
        }
    }
}
