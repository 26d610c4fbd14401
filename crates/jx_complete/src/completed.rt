// The bytes before the fault of a text, completed.
ghost use Rattle.std.specs.Prelude.{◌≡◌, None, IfOk, IfSome};
ghost use Rattle.jx_complete.specs.Completed.{before_fault, IsCompleted, IsCutInMark};
ghost use Rattle.jx_complete.specs.inside.Ended.{IsEnded, IsEndedMark};
ghost use Rattle.jx_run.specs.ReaderInside.{IsCut, IsReadTo};
ghost use Rattle.jx_run.specs.Settings.{BeginsBy};

use crate::closing::end_text;
use jx_reduce::KnownStack;
use jx_run::{
    Progress, Refusal, Settings, Verdict, progress_at_start, read_on, reader_and_grammar,
    verdict_at,
};
use std::alloc::{AllocError, Global};

/// A text that stands in the place of bytes.
#[derive(Debug, Drop)]
pub struct Completed {
    pub text: Vec<u8>,
    /// How many bytes are before the fault: the text begins with them. All where there is no fault.
    pub kept: usize,
}

/// Where a reading of all bytes led to.
#[derive(Drop)]
struct Reached {
    progress: Progress,
    stack: KnownStack,
}

/// Reads all bytes.
fn read_all(alloc: Global, bytes: &[u8], settings: &Settings) -> Result<Reached, AllocError>
    ensures reads { IfOk result (λ r. IsReadTo settings.now 0 bytes.now r.progress r.stack) }
    ensures cut { IfOk result (λ r. IsCut r.progress) }
{
    let mut stack = KnownStack::new(alloc, settings.depth);
    let progress = progress_at_start(settings.mark);
    let progress = read_on(&mut stack, progress, bytes, 0)?;
    Ok(Reached { progress, stack })
}

/// How many bytes are before the fault of a verdict.
fn before_fault(length: usize, verdict: Verdict) -> usize
    ensures { result ≡ before_fault length verdict }
{
    match verdict {
        Verdict::Accepted => length,
        Verdict::Refused(Refusal::Truncated) => length,
        Verdict::Refused(Refusal::Stopped { at }) => at,
        Verdict::Refused(Refusal::TooDeep { at }) => at,
        Verdict::Refused(Refusal::RepeatedName { at }) => at,
    }
}

/// Ends bytes that begin a text. None where they begin a byte order mark.
fn ended(
    alloc: Global,
    mut bytes: Vec<u8>,
    settings: &Settings,
) -> Result<Option<Vec<u8>>, AllocError>
    requires { BeginsBy settings.now bytes.items }
    ensures some { IfOk result (λ text. IfSome text (λ text. IsEnded settings.now bytes.items text.items)) }
    ensures none { IfOk result (λ text. text ≡ None → IsEndedMark bytes.items) }
{
    reader_and_grammar();
    let mut reached = read_all(alloc, &bytes, settings)?;
    match reached.progress {
        Progress::Front(_) => Ok(None),
        Progress::Going(state) => {
            let (expect, holders) = reached.stack.take_standing()?;
            end_text(&mut bytes, state, expect, holders)?;
            Ok(Some(bytes))
        }
        // Bytes that begin a text have no fault.
        Progress::Stopped(_) | Progress::TooDeep(_) | Progress::Failed => unreachable!(),
    }
}

/// A text that begins with the bytes before the fault (RFC 8259): it ends the token, the value and the containers that
/// stand open there, and where there is no fault it is the bytes. What names objects have is ignored. None where the
/// bytes before the fault begin a byte order mark, and no more. `Err` when out of memory.
pub fn complete(
    alloc: Global,
    bytes: Vec<u8>,
    settings: &Settings,
) -> Result<Option<Completed>, AllocError>
    ensures some { IfOk result (λ c. IfSome c (λ c. IsCompleted settings.now bytes.items c.text.items c.kept)) }
    ensures none { IfOk result (λ c. c ≡ None → IsCutInMark settings.now bytes.items) }
{
    let reached = read_all(alloc, &bytes, settings)?;
    let verdict = verdict_at(reached.progress, reached.stack.whole());
    let kept = before_fault(bytes.len(), verdict);
    if let Verdict::Accepted = verdict {
        return Ok(Some(Completed { text: bytes, kept }));
    }
    let mut bytes = bytes;
    bytes.truncate(kept);
    match ended(alloc, bytes, settings)? {
        None => Ok(None),
        Some(text) => Ok(Some(Completed { text, kept })),
    }
}
