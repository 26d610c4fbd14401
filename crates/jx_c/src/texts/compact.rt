// The compact form of a text, in a buffer of the caller's.
ghost use Rattle.std.specs.Prelude.{◌≡◌, ◌⊎◌, ◌<◌, ◌≤◌, ◌++◌, drop, length};
ghost use Rattle.jx_run.specs.declared.texts.verdict.Verdict.TheVariants.{Accepted};
ghost use Rattle.jx_index.specs.ByNames.{IsVerdictBy};
ghost use Rattle.jx_compact.specs.Compact.{compact};
ghost use Rattle.jx_c.specs.Compact.{behind_mark, compact_by, IsPlaced};
ghost use Rattle.jx_c.specs.Settings.{settings_in};
ghost use Rattle.jx_c.specs.Verdict.{IsVerdictOn};

use crate::shapes::settings::{JxSettings, settings_in};
use crate::shapes::status::{DEPTH_TOO_GREAT, NO_MEMORY, NO_ROOM, OK, UNKNOWN_FLAG};
use crate::shapes::verdict::{JxVerdict, shown};
use crate::texts::check::verdict_by;
use jx_compact::{compact_into, compact_len};
use jx_run::{FrontMark, Verdict};
use std::alloc::{AllocError, Global};

/// The bytes after a byte order mark, where one is ignored.
fn behind_mark(text: &[u8], mark: FrontMark) -> &[u8]
    ensures { result.now ≡ behind_mark mark text.now }
{
    match (mark, text) {
        (FrontMark::Ignored, [0xef, 0xbb, 0xbf, rest @ ..]) => rest,
        _ => text,
    }
}

/// Puts the compact form of bytes into the buffer, if that has room for it, and its size into `size`.
fn put(bytes: &[u8], buffer: &mut [u8], size: &mut usize) -> u32
    ensures size { size.new ≡ length (compact bytes.now) }
    ensures put { result ≡ OK → IsPlaced (compact bytes.now) buffer.old buffer.new size.new }
    ensures room { result ≡ NO_ROOM → length buffer.old < size.new }
    ensures status { (result ≡ OK) ⊎ (result ≡ NO_ROOM) }
    ensures unchanged { (result ≡ OK → ⊥) → buffer.new ≡ buffer.old }
{
    let len = compact_len(bytes);
    *size = len;
    if buffer.len() < len {
        return NO_ROOM;
    }
    compact_into(bytes, buffer);
    OK
}

/// Checks whether the bytes are a JSON text (RFC 8259) by settings. Of a text the tokens are put into the buffer, one after
/// another, each with the bytes that it has, and their size into `size`. Of what is refused there are none. It takes memory only
/// where names have to be unique.
#[unsafe(no_mangle)]
pub extern "C" fn jx_compact_non_null(
    alloc: Global,
    text: &[u8],
    settings: &JxSettings,
    buffer: &mut [u8],
    size: &mut usize,
    verdict: &mut JxVerdict,
) -> u32
    ensures judged { result ≡ OK → IsVerdictOn (settings_in settings.now) text.now verdict.new }
    ensures placed { result ≡ OK → verdict.new.kind ≡ 0 → IsPlaced (compact_by (settings_in settings.now) text.now) buffer.old buffer.new size.new }
    ensures refused { result ≡ OK → (verdict.new.kind ≡ 0 → ⊥) → (size.new ≡ 0) × (buffer.new ≡ buffer.old) }
    ensures room { result ≡ NO_ROOM → (size.new ≡ length (compact_by (settings_in settings.now) text.now)) × (length buffer.old < size.new) }
    // The bytes are checked first: room is asked for a text alone.
    ensures checked { result ≡ NO_ROOM → IsVerdictBy (settings_in settings.now) text.now Accepted }
    ensures depth { 65535 < settings.now.depth → result ≡ DEPTH_TOO_GREAT }
    ensures flags { settings.now.depth ≤ 65535 → 3 < settings.now.flags → result ≡ UNKNOWN_FLAG }
    ensures status { settings.now.depth ≤ 65535 → settings.now.flags ≤ 3 → (result ≡ OK) ⊎ ((result ≡ NO_ROOM) ⊎ (result ≡ NO_MEMORY)) }
    ensures unchanged_verdict { (result ≡ OK → ⊥) → verdict.new ≡ verdict.old }
    ensures unchanged_buffer { (result ≡ OK → ⊥) → buffer.new ≡ buffer.old }
    ensures unchanged_size { (result ≡ OK → ⊥) → (result ≡ NO_ROOM → ⊥) → size.new ≡ size.old }
{
    let asked = match settings_in(settings) {
        Ok(asked) => asked,
        Err(status) => return status,
    };
    let told = match verdict_by(alloc, text, &asked) {
        Ok(told) => told,
        Err(AllocError) => return NO_MEMORY,
    };
    if told != Verdict::Accepted {
        *size = 0;
        *verdict = shown(told);
        return OK;
    }
    let status = put(behind_mark(text, asked.mark), buffer, size);
    if status == OK {
        *verdict = shown(told);
    }
    status
}
