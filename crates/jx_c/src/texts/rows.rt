// The rows of a text.
ghost use Rattle.std.specs.Prelude.{◌≡◌, ◌⊎◌, ◌<◌, ◌≤◌, ℕ, List, IfOk, IfErr};
ghost use Rattle.jx_run.specs.declared.texts.settings.Settings.{Settings};
ghost use Rattle.jx_run.specs.declared.texts.verdict.Verdict.TheVariants.{Refused};
ghost use Rattle.jx_c.specs.Rows.{AreRowsOf};
ghost use Rattle.jx_c.specs.Settings.{settings_in};
ghost use Rattle.jx_index.specs.ByNames.{IsVerdictBy};
ghost use Rattle.jx_index.specs.RowsAlone.{AreRowsBy};

use crate::shapes::buffers::fill;
use crate::shapes::places::JxRow;
use crate::shapes::settings::{JxSettings, settings_in};
use crate::shapes::status::{DEPTH_TOO_GREAT, NO_MEMORY, OK, UNKNOWN_FLAG};
use crate::shapes::verdict::{JxVerdict, shown};
use jx_index::{Row, read_rows};
use jx_run::{Refusal, Verdict};
use std::alloc::{AllocError, Global};

/// Puts in the result of reading a text: the verdict, how many rows there are, and in the buffer the rows.
fn tell(
    read: Result<Vec<Row>, Refusal>,
    rows: &mut [JxRow],
    count: &mut usize,
    verdict: &mut JxVerdict,
)
    ensures { (settings : Settings) (bytes : List ℕ) → IfOk read (λ all. AreRowsBy settings bytes all.items)
        → IfErr read (λ refusal. IsVerdictBy settings bytes (Refused refusal)) → AreRowsOf settings bytes rows.old rows.new count.new verdict.new }
{
    match read {
        Ok(made) => {
            let all = made.as_slice();
            *count = all.len();
            *verdict = shown(Verdict::Accepted);
            fill(rows, all);
        }
        Err(refusal) => {
            *count = 0;
            *verdict = shown(Verdict::Refused(refusal));
        }
    }
}

/// The rows of a JSON text (RFC 8259) by settings: all its values in the order of their starts. As many as the buffer has room
/// for are put there, and their number into `count`; where the text is refused there are none.
#[unsafe(no_mangle)]
pub extern "C" fn jx_rows_non_null(
    alloc: Global,
    text: &[u8],
    settings: &JxSettings,
    rows: &mut [JxRow],
    count: &mut usize,
    verdict: &mut JxVerdict,
) -> u32
    ensures rows { result ≡ OK → AreRowsOf (settings_in settings.now) text.now rows.old rows.new count.new verdict.new }
    ensures depth { 65535 < settings.now.depth → result ≡ DEPTH_TOO_GREAT }
    ensures flags { settings.now.depth ≤ 65535 → 3 < settings.now.flags → result ≡ UNKNOWN_FLAG }
    ensures status { settings.now.depth ≤ 65535 → settings.now.flags ≤ 3 → (result ≡ OK) ⊎ (result ≡ NO_MEMORY) }
    ensures unchanged_rows { (result ≡ OK → ⊥) → rows.new ≡ rows.old }
    ensures unchanged_count { (result ≡ OK → ⊥) → count.new ≡ count.old }
    ensures unchanged_verdict { (result ≡ OK → ⊥) → verdict.new ≡ verdict.old }
{
    let asked = match settings_in(settings) {
        Ok(asked) => asked,
        Err(status) => return status,
    };
    match read_rows(alloc, text, &asked) {
        Ok(read) => {
            tell(read, rows, count, verdict);
            OK
        }
        Err(AllocError) => NO_MEMORY,
    }
}
