// The answers of a program to the lines of its input.
use crate::line::Line;
use std::alloc::{AllocError, Global};
use std::io;

/// The answer to a line: one that is empty or begins with `#` is answered by itself, and each other one by what `make` does with its words.
fn answer_to<F: Fn(&mut Line<'_>)>(
    alloc: Global,
    line: &str,
    make: &F,
) -> Result<String, AllocError>
    requires { F.IsAlwaysCallable make.now }
{
    if line.is_empty() || line.starts_with('#') {
        return String::from_str(alloc, line);
    }
    let words: Vec<&str> = line.split(' ').collect(alloc)?;
    let mut line = Line::new(alloc, &words);
    make(&mut line);
    line.answer()
}

/// Prints what each line of the input is answered, on the line of the same number. `make` makes the call that a line names with the
/// words after the name, and refuses a name that no call has.
pub fn answer_lines<F: Fn(&mut Line<'_>)>(rt: &HostRuntime, make: F) -> io::Result<()>
    requires { F.IsAlwaysCallable make }
{
    for line in rt.lines(rt.alloc()) {
        let line = line?;
        let answer = answer_to(rt.alloc(), line.as_str(), &make)?;
        println!(rt; "{answer}")?;
    }
    Ok(())
}
