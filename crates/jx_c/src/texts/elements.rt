// The elements of a JSON text sequence.
ghost use Rattle.std.specs.Prelude.{◌≡◌, ◌⊎◌, ◌<◌, ◌≤◌};
ghost use Rattle.jx_c.specs.Elements.{AreElementsOf, shown_element, shown_verdict};
ghost use Rattle.jx_c.specs.Settings.{settings_in};

use crate::shapes::buffers::{Seen, fill};
use crate::shapes::places::{JxSpan, shown_span};
use crate::shapes::settings::{JxSettings, settings_in};
use crate::shapes::status::{DEPTH_TOO_GREAT, NO_MEMORY, OK, UNKNOWN_FLAG};
use crate::shapes::verdict::{JxVerdict, shown};
use jx_index::judge_elements;
use jx_run::{ElementVerdict, JudgedElement, Verdict};
use std::alloc::{AllocError, Global};

/// It is a text that may be the beginning of a longer one.
const MAY_BE_CUT: u32 = 4;

/// It is before the first record separator.
const UNMARKED: u32 = 5;

/// An element of a sequence.
#[repr(C)]
#[derive(Clone, Copy)]
pub struct JxElement {
    /// Where it stands, without its record separator.
    pub span: JxSpan,
    /// Its verdict; offsets count from the sequence's start.
    pub verdict: JxVerdict,
}

/// The verdict on an element, as C sees it.
fn shown_verdict(verdict: ElementVerdict) -> JxVerdict
    ensures { result ≡ shown_verdict verdict }
{
    match verdict {
        ElementVerdict::Accepted => shown(Verdict::Accepted),
        ElementVerdict::Refused(refusal) => shown(Verdict::Refused(refusal)),
        ElementVerdict::MayBeCut => JxVerdict {
            offset: 0,
            kind: MAY_BE_CUT,
        },
        ElementVerdict::Unmarked => JxVerdict {
            offset: 0,
            kind: UNMARKED,
        },
    }
}

impl Seen for JudgedElement {
    type Form = JxElement;

    ghost form = { shown_element };

    fn seen(self) -> JxElement {
        JxElement {
            span: shown_span(self.span),
            verdict: shown_verdict(self.verdict),
        }
    }
}

/// The elements of a JSON text sequence (RFC 7464, section 2.1) by settings in order, each with its span and its verdict.
/// As many as the buffer has room for are put there, and their number into `count`. A byte order mark that is
/// alone before the first record separator may be ignored and is no element. Names may have to be unique (RFC 8259, section 4).
#[unsafe(no_mangle)]
pub extern "C" fn jx_elements_non_null(
    alloc: Global,
    sequence: &[u8],
    settings: &JxSettings,
    elements: &mut [JxElement],
    count: &mut usize,
) -> u32
    ensures elements { result ≡ OK → AreElementsOf (settings_in settings.now) sequence.now elements.old elements.new count.new }
    ensures depth { 65535 < settings.now.depth → result ≡ DEPTH_TOO_GREAT }
    ensures flags { settings.now.depth ≤ 65535 → 3 < settings.now.flags → result ≡ UNKNOWN_FLAG }
    ensures status { settings.now.depth ≤ 65535 → settings.now.flags ≤ 3 → (result ≡ OK) ⊎ (result ≡ NO_MEMORY) }
    ensures unchanged_elements { (result ≡ OK → ⊥) → elements.new ≡ elements.old }
    ensures unchanged_count { (result ≡ OK → ⊥) → count.new ≡ count.old }
{
    let asked = match settings_in(settings) {
        Ok(asked) => asked,
        Err(status) => return status,
    };
    match judge_elements(alloc, sequence, &asked) {
        Ok(all) => {
            *count = all.len();
            fill(elements, &all);
            OK
        }
        Err(AllocError) => NO_MEMORY,
    }
}
