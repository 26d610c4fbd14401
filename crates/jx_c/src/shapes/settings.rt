// Settings as C names them.
ghost use Rattle.std.specs.Prelude.{◌≡◌, ◌<◌, ◌≤◌, IfOk, IfErr};
ghost use Rattle.jx_c.specs.Settings.{mark_in, names_in, settings_in};

use crate::shapes::status::{DEPTH_TOO_GREAT, OK, UNKNOWN_FLAG};
use jx_lex::Depth;
use jx_run::{FrontMark, NameRule, Settings};

/// The sum of all flags that there are: 1 lets a byte order mark be ignored, 2 has names be unique.
const ALL_FLAGS: u32 = 3;

/// The settings of a call.
#[repr(C)]
#[derive(Clone, Copy)]
pub struct JxSettings {
    /// How many containers may stand open at once.
    pub depth: u32,
    /// The sum of the flags.
    pub flags: u32,
}

/// The rule for a byte order mark, by the sum of the flags: it is ignored where the sum is odd.
fn mark_in(flags: u32) -> FrontMark
    ensures { result ≡ mark_in flags }
{
    if flags % 2 == 1 {
        FrontMark::Ignored
    } else {
        FrontMark::Refused
    }
}

/// The rule on names, by the sum of the flags: they have to be unique where it has the flag 2.
fn names_in(flags: u32) -> NameRule
    ensures { result ≡ names_in flags }
{
    if (flags / 2) % 2 == 1 {
        NameRule::Unique
    } else {
        NameRule::Any
    }
}

/// The settings that are meant, or the status where there are none such.
pub fn settings_in(asked: &JxSettings) -> Result<Settings, u32>
    ensures settings { IfOk result (λ settings. settings ≡ settings_in asked.now) }
    ensures depth { 65535 < asked.now.depth → IfErr result (λ status. status ≡ DEPTH_TOO_GREAT) × IfOk result (λ _. ⊥) }
    ensures flags { asked.now.depth ≤ 65535 → 3 < asked.now.flags → IfErr result (λ status. status ≡ UNKNOWN_FLAG) × IfOk result (λ _. ⊥) }
    ensures given { asked.now.depth ≤ 65535 → asked.now.flags ≤ 3 → IfErr result (λ _. ⊥) }
    ensures status { IfErr result (λ status. status ≡ OK → ⊥) }
{
    let Some(depth) = Depth::new(asked.depth) else {
        return Err(DEPTH_TOO_GREAT);
    };
    if asked.flags > ALL_FLAGS {
        return Err(UNKNOWN_FLAG);
    }
    Ok(Settings {
        depth,
        mark: mark_in(asked.flags),
        names: names_in(asked.flags),
    })
}
