// Known stacks over lists of token starts.
use crate::reduce::marks::marks;
use crate::reduce::outcomes::push_whole;
use jx_lex::{Depth, Mark};
use jx_reduce::KnownStack;
use std::alloc::{AllocError, Global};
use test_words::{Line, Out, Ways};

/// Where a stack is, and whether that is a fault.
fn told_by(alloc: Global, stack: &KnownStack) -> Out {
    let mut told = Out::new(alloc);
    push_whole(&mut told, stack.whole());
    if stack.is_done() {
        told.push_str(", done");
    }
    told
}

/// The outcome of a stack of its own that is given the token starts at once.
fn at_once(alloc: Global, marks: &[Mark], depth: Depth) -> Result<Out, AllocError> {
    let mut stack = KnownStack::new(alloc, depth);
    stack.extend(marks)?;
    Ok(told_by(alloc, &stack))
}

/// The outcome of the stack that is given the token starts by slices of seven.
fn by_slices(alloc: Global, stack: &mut KnownStack, marks: &[Mark]) -> Result<Out, AllocError> {
    stack.reset();
    for slice in marks.chunks(7) {
        stack.extend(slice)?;
    }
    Ok(told_by(alloc, stack))
}

/// The outcome of the stack that is given the token starts one by one.
fn one_by_one(alloc: Global, stack: &mut KnownStack, marks: &[Mark]) -> Result<Out, AllocError> {
    stack.reset();
    for mark in marks {
        stack.push(*mark)?;
    }
    Ok(told_by(alloc, stack))
}

/// Writes the outcome of the next list.
fn push_next(line: &mut Line<'_>, stack: &mut KnownStack) {
    line.out.part("; ");
    let marks = marks(line);
    let alloc = line.alloc;
    let mut ways = Ways::new(alloc);
    ways.add_made("at once", at_once(alloc, &marks, stack.depth()));
    ways.add_made("by slices", by_slices(alloc, stack, &marks));
    ways.add_made("one by one", one_by_one(alloc, stack, &marks));
    ways.push_to(&mut line.out);
}

/// `stack DEPTH MARKS..`: the outcome of each list, where one stack serves one list after another.
pub(crate) fn stack(line: &mut Line<'_>) {
    let mut stack = KnownStack::new(line.alloc, line.depth());
    for _ in 0..line.count() {
        push_next(line, &mut stack);
    }
}
