// The arguments of the call. One that is not UTF-8 may name a file among others: that file is reported, and the others are read.
ghost use Rattle.std.specs.Prelude.{IfOk};
ghost use Rattle.jx_command.specs.Orders.{HasPieces};

use crate::fault::Fault;
use crate::line_values::none_of;
use jx_command::{ArgFault, Order, command_of};
use jx_task::Task;
use std::alloc::AllocError;
use std::env::{Env, FillError};
use std::fmt::Write;
use std::{env, io};

/// The bytes of the longest argument that Linux passes.
const LONGEST: usize = 131_072;

/// In front of the two hexadecimal digits of a byte that is not UTF-8. No argument has one, and no file has such a name.
const NOT_TEXT: char = '\0';

/// The text of an argument, with `NOT_TEXT` and its digits in place of each byte that is not UTF-8.
fn marked(rt: &HostRuntime, bytes: &[u8]) -> Result<String, AllocError> {
    let mut text = String::new(rt.alloc());
    for chunk in bytes.utf8_chunks() {
        text.push_str(chunk.valid())?;
        for byte in chunk.invalid() {
            let byte = *byte;
            text.push(NOT_TEXT)?;
            write!(text, "{byte:02X}")?;
        }
    }
    Ok(text)
}

/// The arguments one by one, each marked where it is not UTF-8.
fn marked_arguments(rt: &HostRuntime) -> Result<Vec<String>, Fault> {
    let mut room = Vec::new(rt.alloc());
    room.resize(LONGEST, 0u8)?;
    let mut words = Vec::new(rt.alloc());
    for number in 0..usize::MAX {
        match rt.arg(number, &mut room) {
            Ok(length) => words
                .push(marked(rt, &room[..length])?)
                .map_err(|_| AllocError)?,
            Err(FillError::NotPresent) => break,
            Err(FillError::TooLong) => return Err(Fault::NotText),
        }
    }
    Ok(words)
}

/// The arguments. Those that are not UTF-8 have `NOT_TEXT` in them.
pub fn arguments(rt: &HostRuntime) -> Result<Vec<String>, Fault> {
    match env::args(rt) {
        Ok(all) => Ok(all.collect(rt.alloc())?),
        Err(error) if error.kind() == io::ErrorKind::InvalidData => marked_arguments(rt),
        Err(_) => Err(Fault::Memory(AllocError)),
    }
}

/// Whether a word has bytes that are not UTF-8.
pub fn is_marked(word: &str) -> bool {
    word.contains(NOT_TEXT)
}

/// Whether a pointer or the word for no value that the arguments have is not UTF-8.
fn has_marked_word(order: &Order<'_>) -> bool {
    match order {
        Order::Report(request) => match &request.command.task {
            Task::At(words) => words.iter().any(|word| is_marked(word.as_str())),
            _ => false,
        },
        Order::Values(values) => {
            let pointers = &values.task.pointers;
            let none = match values.by_line {
                Some(by_line) => none_of(by_line.table),
                None => "",
            };
            is_marked(none) || pointers.iter().any(|word| is_marked(word.as_str()))
        }
        Order::Each(each) => is_marked(each.pointer),
        Order::Split(split) => is_marked(split.pointer),
        Order::Parts(_) | Order::Lines(_) | Order::Live(_) | Order::Texts(_) | Order::Save(_) =>
            false,
    }
}

/// The order that the arguments give. An argument that is not UTF-8 and no FILE is refused.
pub fn order_by<'a>(
    rt: &HostRuntime,
    words: &'a [&'a str],
    processors: usize,
) -> Result<Order<'a>, Fault>
    ensures { IfOk result HasPieces }
{
    let is_text = !words.iter().any(|word| is_marked(*word));
    let order = match command_of(rt.alloc(), words, processors) {
        Err(ArgFault::Clap(_) | ArgFault::Workers(_)) if !is_text => return Err(Fault::NotText),
        found => found.map_err(Fault::of_arguments)?,
    };
    if has_marked_word(&order) {
        return Err(Fault::NotText);
    }
    Ok(order)
}
