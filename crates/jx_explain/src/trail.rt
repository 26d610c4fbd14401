// The way from the root of a text to the place that was read last.
use jx_lex::{MarkKind, Span};
use jx_string::{StringFault, unescaped};
use std::alloc::{AllocError, Global};

/// A container that is open, and the part of it that a reading has led to.
#[derive(Clone, Copy, Debug, PartialEq, Eq)]
pub enum Step {
    /// An array, and the number of its element, counted from 0.
    Element(usize),
    /// An object, in front of the name of a member.
    Unnamed,
    /// An object, in a name whose bytes begin there among the names.
    Naming(usize),
    /// An object, and where the name of its member is among the names, with its quotation marks.
    Member(Span),
}

/// The containers that are open, outermost first, and the names on the way, one after another. No other byte of the text is kept.
#[derive(Drop)]
pub struct Trail {
    pub steps: Vec<Step>,
    pub names: Vec<u8>,
}

impl Trail {
    /// The trail in front of a text.
    pub fn new(alloc: Global) -> Trail {
        Trail {
            steps: Vec::new(alloc),
            names: Vec::new(alloc),
        }
    }

    /// Sets the innermost step to the one that follows from it.
    fn turn(&mut self, next: Step) {
        if let Some(step) = self.steps.last_mut() {
            *step = next;
        }
    }

    /// Leaves out the name of the innermost step, if it has one.
    fn forget_name(&mut self) {
        match self.steps.last() {
            Some(Step::Naming(start)) => self.names.truncate(*start),
            Some(Step::Member(span)) => self.names.truncate(span.start),
            _ => (),
        }
    }

    /// Goes on after a comma.
    fn pass_comma(&mut self) {
        self.forget_name();
        match self.steps.last() {
            Some(Step::Element(number)) => {
                let next = number.saturating_add(1);
                self.turn(Step::Element(next));
            }
            Some(_) => self.turn(Step::Unnamed),
            None => (),
        }
    }

    /// Goes into a string, which is a name where none was read.
    fn begin_string(&mut self) {
        if let Some(Step::Unnamed) = self.steps.last() {
            let start = self.names.len();
            self.turn(Step::Naming(start));
        }
    }

    /// Goes on with a token that begins.
    pub fn begin(&mut self, kind: MarkKind) -> Result<(), AllocError> {
        match kind {
            MarkKind::OpenArray => self.steps.push(Step::Element(0))?,
            MarkKind::OpenObject => self.steps.push(Step::Unnamed)?,
            MarkKind::CloseArray | MarkKind::CloseObject => {
                self.forget_name();
                self.steps.pop();
            }
            MarkKind::Comma => self.pass_comma(),
            MarkKind::String => self.begin_string(),
            _ => (),
        }
        Ok(())
    }

    /// Goes on with bytes of a token; of a name they are kept.
    pub fn go_on(&mut self, bytes: &[u8]) -> Result<(), AllocError> {
        match self.steps.last() {
            Some(Step::Naming(_)) => self.names.extend_from_slice(bytes),
            _ => Ok(()),
        }
    }

    /// Ends a token.
    pub fn end(&mut self) {
        if let Some(Step::Naming(start)) = self.steps.last() {
            let span = Span {
                start: *start,
                end: self.names.len(),
            };
            self.turn(Step::Member(span));
        }
    }
}

/// Appends a name as a token, in which `~0` stands for `~` and `~1` for `/` (RFC 6901, section 3).
fn push_name(out: &mut Vec<u8>, name: &[u8]) -> Result<(), AllocError> {
    for byte in name {
        match byte {
            b'~' => out.extend_from_slice(b"~0")?,
            b'/' => out.extend_from_slice(b"~1")?,
            _ => out.push(*byte)?,
        }
    }
    Ok(())
}

/// Appends the token of a step. An object without a name has none.
fn push_step(
    alloc: Global,
    out: &mut Vec<u8>,
    names: &[u8],
    step: Step,
) -> Result<(), StringFault> {
    match step {
        Step::Element(number) => {
            let token = format!(in alloc; "/{number}")?;
            out.extend_from_slice(token.as_bytes())?;
        }
        Step::Member(span) => {
            let name = unescaped(alloc, names.get(span.start..span.end).unwrap_or(&[]))?;
            out.extend_from_slice(b"/")?;
            push_name(out, &name)?;
        }
        Step::Unnamed | Step::Naming(_) => (),
    }
    Ok(())
}

/// Appends the tokens of all these steps.
fn push_steps(
    alloc: Global,
    out: &mut Vec<u8>,
    names: &[u8],
    steps: &[Step],
) -> Result<(), StringFault> {
    for step in steps {
        push_step(alloc, out, names, *step)?;
    }
    Ok(())
}

/// The pointer that takes these steps by these names; none where a name among them has half of a surrogate pair without the other half.
pub fn pointer_along(
    alloc: Global,
    names: &[u8],
    steps: &[Step],
) -> Result<Option<Vec<u8>>, AllocError> {
    let mut pointer = Vec::new(alloc);
    match push_steps(alloc, &mut pointer, names, steps) {
        Ok(()) => Ok(Some(pointer)),
        Err(StringFault::NoString | StringFault::LoneSurrogate) => Ok(None),
        Err(StringFault::Memory) => Err(AllocError),
    }
}
