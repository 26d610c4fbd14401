// The answers of joins of runs that workers have.
ghost use Rattle.std.specs.Prelude.{◌≤◌, length};

use crate::copied::Copied;
use crate::runs::push_run;
use jx_book::{Held, HeldFault};
use jx_lex::Depth;
use std::alloc::{AllocError, Global};
use test_words::{Line, Meeting, Out, push_text};

/// `join TEXT DEPTH TEXT DEPTH S..C..E`: the run of the one text from S up to C, joined with that of the other from C up to E.
pub fn join(line: &mut Line<'_>) {
    let text = line.text();
    let depth = line.depth();
    let other = line.text();
    let other_depth = line.depth();
    let meeting = line.meeting(other.len());
    if meeting.cut > text.len() {
        return line.refuse();
    }
    let left = (text.as_slice(), depth);
    let right = (other.as_slice(), other_depth);
    let joined = joined(line.alloc, left, right, meeting);
    if let Some(joined) = line.keep(joined) {
        push_joined(&mut line.out, &joined);
    }
}

fn joined<'a>(
    alloc: Global,
    left: (&'a [u8], Depth),
    right: (&'a [u8], Depth),
    meeting: Meeting,
) -> Result<Result<Held<'a, Copied>, HeldFault<'a, Copied>>, AllocError>
    requires ordered { (meeting.start ≤ meeting.cut) × (meeting.cut ≤ meeting.end) }
    requires within { (meeting.cut ≤ length left.0.now) × (meeting.end ≤ length right.0.now) }
{
    let first = Held::read(alloc, left.0, meeting.start, meeting.cut, left.1)?;
    let second = Held::read(alloc, right.0, meeting.cut, meeting.end, right.1)?;
    Ok(first.join(second))
}

/// The span and the bytes of a run, and the text that it carries, or why there is none.
fn push_joined(out: &mut Out, joined: &Result<Held<'_, Copied>, HeldFault<'_, Copied>>) {
    match joined {
        Ok(run) => {
            push_run(out, run);
            out.push_str(" in ");
            push_text(out, run.text());
        }
        Err(HeldFault::Memory(left, right)) => push_both(out, "memory: ", left, right),
        Err(HeldFault::Other(left, right)) => push_both(out, "other: ", left, right),
    }
}

fn push_both(out: &mut Out, fault: &str, left: &Held<'_, Copied>, right: &Held<'_, Copied>) {
    out.push_str(fault);
    push_run(out, left);
    out.push_str(" and ");
    push_run(out, right);
}
