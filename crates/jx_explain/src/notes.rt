// The report on a fault after its line.
use crate::hint::hint_at;
use crate::scene::Scene;
use crate::trail::{Step, pointer_along};
use jx_run::Refusal;
use jx_sentence::push_shown;
use std::alloc::{AllocError, Global};

/// How many open brackets are reported at most, of those that were opened last.
const MOST: usize = 32;

/// The bracket that opened a container.
fn bracket_of(step: Step) -> &'static str {
    match step {
        Step::Element(_) => " [",
        Step::Unnamed | Step::Naming(_) | Step::Member(_) => " {",
    }
}

/// Appends the brackets that are open, outermost first, if any are.
fn push_open(out: &mut String, steps: &[Step]) -> Result<(), AllocError> {
    if steps.is_empty() {
        return Ok(());
    }
    let first = steps.len().saturating_sub(MOST);
    out.push_str("open:")?;
    if first > 0 {
        out.push_str(" ..")?;
    }
    for step in steps.get(first..).unwrap_or(&[]) {
        out.push_str(bracket_of(*step))?;
    }
    out.push('\n')
}

/// Appends the pointer of a place, if it is not the whole text's.
fn push_pointer(alloc: Global, out: &mut String, scene: &Scene) -> Result<(), AllocError> {
    match pointer_along(alloc, &scene.trail.names, scene.to_place())? {
        Some(pointer) if !pointer.is_empty() => {
            out.push_str("pointer: ")?;
            push_shown(out, &pointer)?;
            out.push('\n')
        }
        _ => Ok(()),
    }
}

/// Appends what the fault at a place probably is, where that is known.
fn push_hint(out: &mut String, scene: &Scene) -> Result<(), AllocError> {
    let Some(hint) = hint_at(scene) else {
        return Ok(());
    };
    out.push_str("perhaps: ")?;
    out.push_str(hint)?;
    out.push('\n')
}

/// Appends the pointer of the place, which brackets are open where a text ends too early, and a guess at the fault,
/// each where there is one.
pub fn push_notes(
    alloc: Global,
    out: &mut String,
    scene: &Scene,
    refusal: Refusal,
) -> Result<(), AllocError> {
    push_pointer(alloc, out, scene)?;
    match refusal {
        Refusal::Truncated => push_open(out, &scene.trail.steps),
        Refusal::Stopped { .. } => push_hint(out, scene),
        Refusal::TooDeep { .. } | Refusal::RepeatedName { .. } => Ok(()),
    }
}
