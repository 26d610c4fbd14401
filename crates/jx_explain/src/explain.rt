// The report on a text for people.
use crate::excerpt::push_excerpt;
use crate::notes::push_notes;
use crate::object::{push_accepted_object, push_front, push_place, push_words, word_of};
use crate::scene::Scene;
use crate::seen::scene_in;
use crate::sentence::sentence_in;
use crate::trail::pointer_along;
use jx_run::{Refusal, Settings, Verdict};
use jx_sentence::push_shown;
use std::alloc::{AllocError, Global};
use std::fmt::Write;

/// How the parts of the report are marked.
#[derive(Clone, Copy, Debug, PartialEq, Eq)]
pub enum Marking {
    /// By nothing.
    Plain,
    /// By the colors of a terminal (ECMA-48, section 8.3.117).
    Colored,
}

impl Marking {
    /// The bytes that begin the place.
    fn place(self) -> &'static str {
        match self {
            Marking::Plain => "",
            Marking::Colored => "\x1b[1m",
        }
    }

    /// The bytes that end it.
    fn end(self) -> &'static str {
        match self {
            Marking::Plain => "",
            Marking::Colored => "\x1b[0m",
        }
    }

    /// The caret.
    fn caret(self) -> &'static str {
        match self {
            Marking::Plain => "^",
            Marking::Colored => "\x1b[1;31m^\x1b[0m",
        }
    }
}

/// How the report on a text is written.
#[derive(Clone, Copy, Debug, PartialEq, Eq)]
pub enum Form {
    /// For people: of a text that is refused the place, a sentence, the line and a caret, and notes. Of one that is
    /// accepted that, if it is reported.
    People {
        marking: Marking,
        tells_accepted: bool,
    },
    /// As compilers report faults: of a text that is refused the place and a sentence, in one line, and of any other
    /// nothing. Columns count bytes.
    Mark,
    /// As a JSON object in one line.
    Object,
}

/// A line on a text of this name that is refused, as compilers report faults: the line and a column, what is wrong there in a
/// sentence, and the offset.
fn push_marked(
    out: &mut String,
    name: &[u8],
    scene: &Scene,
    column: usize,
    sentence: &str,
    marking: Marking,
) -> Result<(), AllocError> {
    let at = scene.at;
    let line = scene.position.place.line;
    out.push_str(marking.place())?;
    push_shown(out, name)?;
    write!(out, ":{line}:{column}:")?;
    out.push_str(marking.end())?;
    write!(out, " {sentence} (byte {at})\n")?;
    Ok(())
}

/// Appends the object of a text of this name that is refused.
fn push_object(
    alloc: Global,
    out: &mut String,
    name: &[u8],
    scene: &Scene,
    sentence: &str,
    refusal: Refusal,
) -> Result<(), AllocError> {
    let pointer = pointer_along(alloc, &scene.trail.names, scene.to_place())?;
    push_front(out, name, word_of(refusal))?;
    push_place(out, scene.at, scene.position.place)?;
    push_words(out, sentence.as_bytes(), pointer.as_deref())
}

/// The report on a text of this name that is refused. For people it has the line with the place and the sentence, and the line of the
/// place with a caret. A line that is long is cut around the place, and what is no UTF-8 or not printed is shown by its bytes. Notes
/// follow that.
pub(crate) fn refused(
    alloc: Global,
    name: &[u8],
    scene: &Scene,
    sentence: &str,
    refusal: Refusal,
    form: Form,
) -> Result<String, AllocError> {
    let mut out = String::new(alloc);
    let position = scene.position;
    match form {
        Form::People { marking, .. } => {
            let column = position.place.column;
            push_marked(&mut out, name, scene, column, sentence, marking)?;
            push_excerpt(&mut out, scene, marking.caret())?;
            push_notes(alloc, &mut out, scene, refusal)?;
        }
        Form::Mark => {
            push_marked(
                &mut out,
                name,
                scene,
                position.byte,
                sentence,
                Marking::Plain,
            )?;
        }
        Form::Object => push_object(alloc, &mut out, name, scene, sentence, refusal)?,
    }
    Ok(out)
}

/// The report on a text of this name that is accepted.
pub(crate) fn accepted(alloc: Global, name: &[u8], form: Form) -> Result<String, AllocError> {
    let mut out = String::new(alloc);
    match form {
        Form::People {
            tells_accepted: true,
            ..
        } => {
            push_shown(&mut out, name)?;
            out.push_str(": accepted\n")?;
        }
        Form::People { .. } | Form::Mark => (),
        Form::Object => push_accepted_object(&mut out, name)?,
    }
    Ok(out)
}

/// The report on a text of this name in a form, by the verdict that settings give on it: that it is accepted, or where
/// it is refused and why.
pub fn explained(
    alloc: Global,
    name: &[u8],
    text: &[u8],
    verdict: Verdict,
    settings: &Settings,
    form: Form,
) -> Result<String, AllocError> {
    match verdict {
        Verdict::Accepted => accepted(alloc, name, form),
        Verdict::Refused(refusal) => {
            let scene = scene_in(alloc, text, refusal, settings)?;
            let sentence = sentence_in(alloc, text, &scene, refusal, settings)?;
            refused(alloc, name, &scene, sentence.as_str(), refusal, form)
        }
    }
}
