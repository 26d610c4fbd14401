// Checks of whole texts.
ghost use Rattle.std.specs.Prelude.{◌≡◌, ◌⊎◌, ◌<◌, ◌≤◌, IfOk};
ghost use Rattle.jx_run.specs.Settings.{JudgedBy};
ghost use Rattle.jx_index.specs.ByNames.{IsVerdictBy};
ghost use Rattle.jx_c.specs.Settings.{settings_in};
ghost use Rattle.jx_c.specs.Verdict.{IsVerdictOn};

use crate::shapes::settings::{JxSettings, settings_in};
use crate::shapes::status::{DEPTH_TOO_GREAT, NO_MEMORY, OK, UNKNOWN_FLAG};
use crate::shapes::verdict::{JxVerdict, shown};
use crate::streams::reader::JxReader;
use jx_index::{repeated_name_by_rows, verdict_with_unique_names};
use jx_run::{NameRule, NoPause, Reader, Settings, Verdict};
use std::alloc::{AllocError, Global};

/// How many bytes a short text has at most: so many open containers take no memory in a reader of `jx_run`.
const SHORT: usize = 64;

/// The verdict on a text by settings, whatever names its objects have. A short one takes no memory, and no words for the
/// greatest depth have to be made first.
fn verdict_on_short_text(
    alloc: Global,
    text: &[u8],
    settings: &Settings,
) -> Result<Verdict, AllocError>
    ensures { IfOk result (JudgedBy settings.now 0 text.now) }
{
    let mut reader = Reader::new(alloc, settings, 0);
    reader.feed(text)?;
    Ok(reader.verdict())
}

/// The verdict on a text by settings, whatever names its objects have. It takes no memory.
fn verdict_with_any_names(
    alloc: Global,
    text: &[u8],
    settings: &Settings,
) -> Result<Verdict, AllocError>
    ensures { IfOk result (JudgedBy settings.now 0 text.now) }
{
    if text.len() <= SHORT {
        return verdict_on_short_text(alloc, text, settings);
    }
    let mut reader = JxReader::new(settings);
    reader.feed(text)?;
    Ok(reader.verdict())
}

/// The verdict on a text by settings. It takes memory only where names have to be unique.
pub fn verdict_by(alloc: Global, text: &[u8], settings: &Settings) -> Result<Verdict, AllocError>
    ensures { IfOk result (IsVerdictBy settings.now text.now) }
{
    repeated_name_by_rows();
    match settings.names {
        NameRule::Any => verdict_with_any_names(alloc, text, settings),
        NameRule::Unique => verdict_with_unique_names(alloc, text, settings, &mut NoPause),
    }
}

/// Gives the verdict on bytes by settings: whether they are a JSON text (RFC 8259), and the place of the refusal if they are
/// not one. A byte order mark may be ignored (section 8.1), and names may have to be unique (section 4). It takes memory only
/// where they have to be.
#[unsafe(no_mangle)]
pub extern "C" fn jx_check_non_null(
    alloc: Global,
    text: &[u8],
    settings: &JxSettings,
    verdict: &mut JxVerdict,
) -> u32
    ensures judged { result ≡ OK → IsVerdictOn (settings_in settings.now) text.now verdict.new }
    ensures depth { 65535 < settings.now.depth → result ≡ DEPTH_TOO_GREAT }
    ensures flags { settings.now.depth ≤ 65535 → 3 < settings.now.flags → result ≡ UNKNOWN_FLAG }
    ensures status { settings.now.depth ≤ 65535 → settings.now.flags ≤ 3 → (result ≡ OK) ⊎ (result ≡ NO_MEMORY) }
    ensures unchanged { (result ≡ OK → ⊥) → verdict.new ≡ verdict.old }
{
    let asked = match settings_in(settings) {
        Ok(asked) => asked,
        Err(status) => return status,
    };
    match verdict_by(alloc, text, &asked) {
        Ok(told) => {
            *verdict = shown(told);
            OK
        }
        Err(AllocError) => NO_MEMORY,
    }
}
