// The classes of bytes, and single steps of the lexical states.
use crate::lex::track::Track;
use jx_lex::class_of;
use std::fmt::Debug;
use test_words::{Line, Out};

/// The only byte in the next word.
fn byte(line: &mut Line<'_>) -> u8 {
    match line.text().as_slice() {
        [byte] => *byte,
        _ => {
            line.refuse();
            0
        }
    }
}

/// `class BYTE`
pub(crate) fn class(line: &mut Line<'_>) {
    let class = class_of(byte(line));
    line.out.put(format_args!("{class:?}"));
}

/// A name and what it stands for, `-` where it is nothing.
fn push_part<T: Debug>(out: &mut Out, name: &str, part: &Option<T>) {
    match part {
        Some(part) => out.put(format_args!("{name} {part:?}")),
        None => out.put(format_args!("{name} -")),
    }
}

/// `step STATE BYTE`: where a token ends, which token start begins, and the next state.
pub(crate) fn step(line: &mut Line<'_>) {
    let state = line.state();
    let step = jx_lex::step(state, byte(line));
    push_part(&mut line.out, "end", &step.end);
    push_part(&mut line.out, "; mark", &step.begin);
    push_part(&mut line.out, "; next", &step.next);
}

/// `steps STATE TEXT`: one step after another.
pub(crate) fn steps(line: &mut Line<'_>) {
    let state = line.state();
    let text = line.text();
    let track = Track::by_steps(line.alloc, state, &text, 0);
    if let Some(track) = line.keep(track) {
        track.push_to(&mut line.out);
    }
}
