// Pointers looked up in a text (RFC 6901).
ghost use Rattle.std.specs.Prelude.{◌≡◌, ◌<◌, Some, length, map, slice_get, string_bytes, IfOk};
ghost use Rattle.jx_words.specs.Pointers.{exit_after};
ghost use Rattle.jx_words.specs.inside.ReadPointers.{answer_in, each_answer, AreReadPointers, IsReadPointer};
ghost use Rattle.jx_words.specs.inside.Lines.{exit_past_lines};
ghost use Rattle.jx_ends.specs.declared.exit.Exit.TheVariants.{Good};

use jx_ends::Exit;
use jx_index::{FindFault, Found, Pointer, PointerFault};
use jx_lex::{Kind, Span};
use std::alloc::{AllocError, Global};

/// The answer to a pointer in a text.
#[derive(Clone, Copy, Debug, PartialEq, Eq)]
pub enum PointerAnswer {
    /// It leads to a value of this kind, with this span.
    Found { kind: Kind, span: Span },
    /// It is no pointer.
    Unread(PointerFault),
    /// It leads nowhere.
    Lost(FindFault),
}

/// A string that is read as a pointer: the pointer, or that of the whole text and why the string is not a pointer.
#[derive(Debug, Drop)]
pub struct ReadPointer<'p> {
    pub pointer: Pointer<'p>,
    pub unread: Option<PointerFault>,
}

/// Reads a string as a pointer once.
pub fn read_pointer(spelt: &str) -> ReadPointer<'_>
    ensures { IsReadPointer spelt.now result.pointer result.unread }
{
    match Pointer::read(spelt) {
        Ok(pointer) => ReadPointer {
            pointer,
            unread: None,
        },
        Err(fault) => ReadPointer {
            pointer: Pointer::root(),
            unread: Some(fault),
        },
    }
}

/// The answer to a string in a text that was read once: why it is not a pointer, or what was found.
fn answer_in(unread: Option<PointerFault>, found: Result<Found, FindFault>) -> PointerAnswer
    ensures { result ≡ answer_in unread found }
{
    match unread {
        Some(fault) => PointerAnswer::Unread(fault),
        None => match found {
            Ok(found) => PointerAnswer::Found {
                kind: found.kind,
                span: found.span,
            },
            Err(fault) => PointerAnswer::Lost(fault),
        },
    }
}

/// Strings that are read as pointers, in their order: the pointers, with that of the whole text for each string that is not a
/// pointer, and why those are not.
#[derive(Debug, Drop)]
pub struct ReadPointers<'p> {
    pub pointers: Vec<Pointer<'p>>,
    pub unread: Vec<Option<PointerFault>>,
}

/// Reads each string as a pointer once.
pub fn read_pointers<'p>(alloc: Global, spelt: &'p [String]) -> Result<ReadPointers<'p>, AllocError>
    ensures { IfOk result (λ read. AreReadPointers (map string_bytes spelt.now) read.pointers.items read.unread.items) }
{
    let mut pointers = Vec::with_capacity(alloc, spelt.len())?;
    let mut unread = Vec::with_capacity(alloc, spelt.len())?;
    for word in spelt {
        let read = read_pointer(word.as_str());
        pointers.push(read.pointer)?;
        unread.push(read.unread)?;
    }
    Ok(ReadPointers { pointers, unread })
}

/// The answers to strings that were read as pointers, in their order, in a text that was read once.
pub fn answers_in(
    alloc: Global,
    unread: &[Option<PointerFault>],
    found: &[Result<Found, FindFault>],
) -> Result<Vec<PointerAnswer>, AllocError>
    ensures { IfOk result (λ answers. answers.items ≡ each_answer answer_in unread.now found.now) }
{
    let count = unread.len().min(found.len());
    let mut answers = Vec::with_capacity(alloc, count)?;
    for at in 0..count {
        answers.push(answer_in(unread[at], found[at]))?;
    }
    Ok(answers)
}

/// Bad where the pointer is not found, and otherwise the exit that there was before it.
fn exit_after(exit: Exit, answer: PointerAnswer) -> Exit
    ensures { result ≡ exit_after exit answer }
{
    match answer {
        PointerAnswer::Found { .. } => exit,
        PointerAnswer::Unread(_) | PointerAnswer::Lost(_) => Exit::Bad,
    }
}

/// The answer with this number, counted from 0.
pub fn answer_at(answers: &[PointerAnswer], number: usize) -> PointerAnswer
    requires { number < length answers.now }
    ensures { slice_get answers.now number ≡ Some result }
{
    answers[number]
}

/// The exit for answers: good where each of the pointers is found.
pub fn exit_of_answers(answers: &[PointerAnswer]) -> Exit
    ensures { result ≡ exit_past_lines Good answers.now }
{
    let mut exit = Exit::Good;
    for number in 0..answers.len() {
        let answer = answer_at(answers, number);
        exit = exit_after(exit, answer);
    }
    exit
}
