// How many bytes a worker reads at a time.
ghost use Rattle.std.specs.Prelude.{◌≡◌, ◌≢◌, ◌≤◌};

/// The size of a chunk of a command that asks for no size of its own.
const UNASKED: usize = 64 * 1024;

/// How many bytes a worker then reads at a time. So few stay in its processor's cache, and a call of the system costs little
/// beside them.
const STEP: usize = 256 * 1024;

/// How many it reads at a time at most, whatever the command asks for.
const MOST: usize = 8 * 1024 * 1024;

/// How many bytes a worker reads at a time, by the chunk that a command asks for: 256 KiB for 64 KiB, which is the default, and
/// else as many, up to 8 MiB.
pub fn step_of(piece: usize) -> usize
    requires { 1 ≤ piece }
    ensures some { 1 ≤ result }
    ensures most { result ≤ 8388608 }
    ensures unasked { piece ≡ 65536 → result ≡ 262144 }
    ensures asked { piece ≢ 65536 → piece ≤ 8388608 → result ≡ piece }
{
    if piece == UNASKED {
        STEP
    } else {
        piece.min(MOST)
    }
}
