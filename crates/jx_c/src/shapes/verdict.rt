// Verdicts as C sees them.
ghost use Rattle.std.specs.Prelude.{◌≡◌, Some};
ghost use Rattle.jx_run.specs.declared.texts.verdict.Refusal.{Refusal};
ghost use Rattle.jx_run.specs.declared.texts.verdict.Verdict.TheVariants.{Refused};
ghost use Rattle.jx_c.specs.Verdict.{refusal_in, shown};

use jx_run::{Refusal, Verdict};

/// It is a text.
const ACCEPTED: u32 = 0;
/// With the byte at the offset the text can't go on.
const STOPPED: u32 = 1;
/// The text ends too early.
const TRUNCATED: u32 = 2;
/// Only a greater depth would let the text go on with the byte at the offset.
const TOO_DEEP: u32 = 3;
/// The name at the offset is that of an earlier member of its object, and names have to be unique. The numbers 4 and 5 are for elements.
const REPEATED_NAME: u32 = 6;

/// The verdict on a text.
#[repr(C)]
#[derive(Clone, Copy)]
pub struct JxVerdict {
    /// In bytes from the text's start; 0 where the kind has none.
    pub offset: usize,
    pub kind: u32,
}

/// The verdict as C sees it.
pub fn shown(verdict: Verdict) -> JxVerdict
    ensures { result ≡ shown verdict }
{
    match verdict {
        Verdict::Accepted => JxVerdict {
            offset: 0,
            kind: ACCEPTED,
        },
        Verdict::Refused(Refusal::Stopped { at }) => JxVerdict {
            offset: at,
            kind: STOPPED,
        },
        Verdict::Refused(Refusal::Truncated) => JxVerdict {
            offset: 0,
            kind: TRUNCATED,
        },
        Verdict::Refused(Refusal::TooDeep { at }) => JxVerdict {
            offset: at,
            kind: TOO_DEEP,
        },
        Verdict::Refused(Refusal::RepeatedName { at }) => JxVerdict {
            offset: at,
            kind: REPEATED_NAME,
        },
    }
}

/// The refusal that a verdict shows, if it is one of a text.
#[tactic(auto, using(crate::proofs::Refusals::shown_back))]
pub fn refusal_in(verdict: &JxVerdict) -> Option<Refusal>
    ensures value { result ≡ refusal_in verdict.now }
    ensures back { (refusal : Refusal) → verdict.now ≡ shown (Refused refusal) → result ≡ Some refusal }
{
    let at = verdict.offset;
    if verdict.kind == STOPPED {
        Some(Refusal::Stopped { at })
    } else if verdict.kind == TRUNCATED && at == 0 {
        Some(Refusal::Truncated)
    } else if verdict.kind == TOO_DEEP {
        Some(Refusal::TooDeep { at })
    } else if verdict.kind == REPEATED_NAME {
        Some(Refusal::RepeatedName { at })
    } else {
        None
    }
}
