// The sentence on a refusal.
use crate::scene::Scene;
use jx_run::{Refusal, Settings};
use jx_sentence::{
    is_in_string, push_repeated, push_sentence, push_stopped, push_string_open, push_too_deep,
    push_truncated,
};
use std::alloc::{AllocError, Global};

/// Appends the sentence for a text that ends too early.
fn push_end(out: &mut String, scene: &Scene) -> Result<(), AllocError> {
    match &scene.standing {
        Some(standing) if is_in_string(standing.state) => push_string_open(out, scene.string),
        standing => push_truncated(out, standing.as_ref()),
    }
}

/// The sentence that says what is wrong at a place. Where an earlier name is stays open.
pub fn sentence_of(
    alloc: Global,
    scene: &Scene,
    refusal: Refusal,
    settings: &Settings,
) -> Result<String, AllocError> {
    let mut out = String::new(alloc);
    match refusal {
        Refusal::Stopped { at } => {
            push_stopped(&mut out, scene.rest(), at, scene.standing.as_ref())?
        }
        Refusal::Truncated => push_end(&mut out, scene)?,
        Refusal::TooDeep { .. } => push_too_deep(&mut out, settings.depth)?,
        Refusal::RepeatedName { .. } => push_repeated(&mut out, &[], None)?,
    }
    Ok(out)
}

/// The same sentence where the text is at hand, in which an earlier name is found.
pub fn sentence_in(
    alloc: Global,
    text: &[u8],
    scene: &Scene,
    refusal: Refusal,
    settings: &Settings,
) -> Result<String, AllocError> {
    match refusal {
        Refusal::RepeatedName { .. } => {
            let mut out = String::new(alloc);
            push_sentence(alloc, &mut out, text, refusal, settings)?;
            Ok(out)
        }
        _ => sentence_of(alloc, scene, refusal, settings),
    }
}
