ghost use Rattle.std.specs.Prelude.{◌≡◌, [], false, true};
ghost use Rattle.std.specs.Io.KnownBytes.{Appends};

use jx_ends::{Sink, write_whole};

/// Writes messages, unless such a write has failed before. Where one fails, no more are written.
pub fn tell<E: Sink>(errors: &mut E, told: &[u8])
    ensures told { E.has_failed errors.new ≡ false → Appends (E.contents errors.old) (E.contents errors.new) told.now }
    ensures lost { E.has_failed errors.old ≡ true → E.has_failed errors.new ≡ true }
    ensures none { told.now ≡ [] → errors.new ≡ errors.old }
{
    if told.is_empty() {
        return;
    }
    if !errors.failed() {
        let _ = write_whole(errors, told);
    }
}
