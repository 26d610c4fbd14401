// The orders that arguments give.
use jx_command::{ArgFault, Order, Request, ValuesOrder, command_of};
use jx_task::Command;
use std::alloc::{AllocError, Global};
use test_orders::{push_order, push_pointers, push_task};
use test_words::{Line, LineFault, Out, text_of};

/// The text in a word. `''` is the empty word.
fn owned_of(alloc: Global, word: &str) -> Result<String, LineFault> {
    if word == "''" {
        return Ok(String::new(alloc));
    }
    text_of(alloc, word)
}

/// The program's name, and the words of a line that are left.
fn owned(line: &mut Line<'_>) -> Vec<String> {
    let all = all_of(line);
    line.read_or(all, Vec::new(line.alloc))
}

fn all_of(line: &mut Line<'_>) -> Result<Vec<String>, LineFault> {
    let mut owned = Vec::new(line.alloc);
    owned.push(String::from_str(line.alloc, "jx")?)?;
    for _ in 0..line.count() {
        owned.push(owned_of(line.alloc, line.word())?)?;
    }
    Ok(owned)
}

/// The words as the program gets them.
fn words_of(alloc: Global, owned: &[String]) -> Result<Vec<&str>, AllocError> {
    owned.iter().map(|word| word.as_str()).collect(alloc)
}

/// How many processors may be used, unless a line says so.
const PROCESSORS: usize = 4;

/// `command WORD..`: all that the words ask for, or what is said of them in one line, and a tip after it if one is given.
pub fn command(line: &mut Line<'_>) {
    let owned = owned(line);
    let told = push_command(&mut line.out, line.alloc, &owned, PROCESSORS);
    line.settle(told);
}

/// `command_on N WORD..`: the same where N processors may be used.
pub fn command_on(line: &mut Line<'_>) {
    let processors = line.number();
    let owned = owned(line);
    let told = push_command(&mut line.out, line.alloc, &owned, processors);
    line.settle(told);
}

fn push_command(
    out: &mut Out,
    alloc: Global,
    owned: &[String],
    processors: usize,
) -> Result<(), AllocError> {
    let words = words_of(alloc, owned)?;
    match command_of(alloc, &words, processors) {
        Ok(order) => push_order(out, &order),
        Err(fault) => push_fault(out, alloc, &fault)?,
    }
    Ok(())
}

/// `lines LINES WORD..`: the task of the words' command where the lines of a file of pointers are added to it.
pub fn lines(line: &mut Line<'_>) {
    let lines = text_of(line.alloc, line.word());
    let lines = line.read_or(lines, String::new(line.alloc));
    let owned = owned(line);
    let told = push_lines(&mut line.out, line.alloc, lines.as_str(), &owned);
    line.settle(told);
}

fn push_lines(
    out: &mut Out,
    alloc: Global,
    lines: &str,
    owned: &[String],
) -> Result<(), AllocError> {
    let words = words_of(alloc, owned)?;
    match command_of(alloc, &words, PROCESSORS) {
        Ok(Order::Report(request)) => push_task(out, &command_with(alloc, request, lines)?.task),
        Ok(Order::Values(order)) => {
            let ValuesOrder { mut task, .. } = order;
            task.add_pointers(alloc, lines)?;
            push_pointers(out, "get", &task.pointers);
        }
        Ok(order) => push_order(out, &order),
        Err(fault) => push_fault(out, alloc, &fault)?,
    }
    Ok(())
}

/// The command of a request, with a pointer more for each line.
fn command_with(alloc: Global, request: Request<'_>, lines: &str) -> Result<Command, AllocError> {
    let Request { mut command, .. } = request;
    command.add_pointers(alloc, lines)?;
    Ok(command)
}

/// The first line of what is said, and its tip.
fn push_fault(out: &mut Out, alloc: Global, fault: &ArgFault) -> Result<(), AllocError> {
    let text = fault.to_string(alloc)?;
    let first = text.as_str().split('\n').next().unwrap_or("");
    out.push_str(first);
    for line in text.as_str().split('\n') {
        if let Some(tip) = line.strip_prefix("  tip: ") {
            out.push_str("; tip: ");
            out.push_str(tip);
        }
    }
    Ok(())
}
