// The text of a line around a place, with a caret below the place.
use crate::scene::Scene;
use jx_sentence::{columns, first_columns, last_columns, push_shown};
use memchr::{memchr, memrchr};
use std::alloc::AllocError;

/// How many columns are shown on each side of a place. With dots at both ends a line has less than 80.
const SIDE: usize = 37;

/// The sign at an end of a line that is cut there.
const CUT: &str = "..";

/// The part of a line on one side of a place as it is shown, and whether the line has more there.
#[derive(Clone, Copy)]
struct Side<'a> {
    shown: &'a [u8],
    is_cut: bool,
}

/// Whether a byte goes on with a character that an earlier one began.
fn is_tail(byte: u8) -> bool {
    matches!(byte, 0x80..=0xbf)
}

/// The bytes without those that go on with a character begun before them.
fn from_character(bytes: &[u8]) -> &[u8] {
    match bytes.iter().position(|byte| !is_tail(*byte)) {
        Some(first) => bytes.get(first..).unwrap_or(&[]),
        None => bytes,
    }
}

/// The bytes of the line of a place before it, as far as it is shown.
fn before(scene: &Scene) -> Side<'_> {
    let near = scene.before();
    let (line, is_far) = match memrchr(b'\n', near) {
        Some(feed) => (near.get(feed + 1..).unwrap_or(&[]), false),
        None if scene.is_cut_before => (from_character(near), true),
        None => (near, false),
    };
    let shown = last_columns(line, SIDE);
    Side {
        shown,
        is_cut: is_far || shown.len() < line.len(),
    }
}

/// The bytes of the line of a place from it on, as far as it is shown. A carriage return before the line feed is left
/// out.
fn behind(scene: &Scene) -> Side<'_> {
    let near = scene.rest();
    let (line, is_far) = match memchr(b'\n', near) {
        Some(feed) => (near.get(..feed).unwrap_or(near), false),
        None => (near, scene.is_cut_after),
    };
    let whole = line.strip_suffix(b"\r").unwrap_or(line);
    let shown = first_columns(whole, SIDE + 1);
    Side {
        shown,
        is_cut: is_far || shown.len() < whole.len(),
    }
}

/// The sign at an end of a line.
fn dots(is_cut: bool) -> &'static str {
    if is_cut { CUT } else { "" }
}

/// Appends the text of a place's line around it, and in a line below it a caret below the place.
pub fn push_excerpt(out: &mut String, scene: &Scene, caret: &str) -> Result<(), AllocError> {
    let front = before(scene);
    let back = behind(scene);
    out.push_str(dots(front.is_cut))?;
    push_shown(out, front.shown)?;
    push_shown(out, back.shown)?;
    out.push_str(dots(back.is_cut))?;
    out.push('\n')?;
    let width = columns(front.shown).saturating_add(dots(front.is_cut).len());
    for _ in 0..width {
        out.push(' ')?;
    }
    out.push_str(caret)?;
    out.push('\n')
}
