// The look-up of pointers by the rule on names, without an index.
ghost use Rattle.std.specs.Prelude.{◌≡◌, ◌⊎◌, IfOk, IfSome, MatchResult, None};
ghost use Rattle.jx_run.specs.declared.texts.settings.NameRule.TheVariants.{Any};
ghost use Rattle.jx_run.specs.declared.texts.verdict.Verdict.TheVariants.{Accepted, Refused};
ghost use Rattle.jx_index.specs.ByNames.{IsVerdictBy};
ghost use Rattle.jx_c.specs.LookUps.{AreFoundBy};

use jx_find::find_each_by;
use jx_index::{FindFault, Found, Pointer, verdict_with_unique_names};
use jx_run::{NameRule, NoPause, Refusal, Settings, Verdict};
use std::alloc::{AllocError, Global};

/// These settings, but objects may have any names.
fn with_any_names(settings: &Settings) -> Settings
    ensures { result ≡ record { depth = settings.now.depth; mark = settings.now.mark; names = Any } }
{
    Settings {
        depth: settings.depth,
        mark: settings.mark,
        names: NameRule::Any,
    }
}

/// The refusal of a text whose names have to be unique, if it is refused. It is asked for first, as no pass both compares
/// names and looks pointers up.
fn refused_by_names(
    alloc: Global,
    text: &[u8],
    settings: &Settings,
) -> Result<Option<Refusal>, AllocError>
    ensures refused { IfOk result (λ told. IfSome told (λ refusal. IsVerdictBy settings.now text.now (Refused refusal))) }
    ensures accepted { IfOk result (λ told. told ≡ None → (settings.now.names ≡ Any) ⊎ IsVerdictBy settings.now text.now Accepted) }
{
    if settings.names == NameRule::Any {
        return Ok(None);
    }
    match verdict_with_unique_names(alloc, text, settings, &mut NoPause)? {
        Verdict::Refused(refusal) => Ok(Some(refusal)),
        Verdict::Accepted => Ok(None),
    }
}

/// Reads a text by settings in one pass, or in two where names have to be unique, and looks pointers up in it.
pub fn find_each_by_names(
    alloc: Global,
    text: &[u8],
    settings: &Settings,
    pointers: &[Pointer],
) -> Result<Result<Vec<Result<Found, FindFault>>, Refusal>, AllocError>
    ensures { IfOk result (λ read. MatchResult read (λ found. AreFoundBy settings.now text.now pointers.now found.items) (λ refusal. IsVerdictBy settings.now text.now (Refused refusal))) }
{
    match refused_by_names(alloc, text, settings)? {
        Some(refusal) => Ok(Err(refusal)),
        None => find_each_by(alloc, text, &with_any_names(settings), pointers),
    }
}
