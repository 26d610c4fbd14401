// The bytes that are kept for values, one after another, and the answers to pointers with their spans among them.
ghost use Rattle.std.specs.Prelude.{◌≡◌, ◌++◌, ℕ, All, List, IfOk, IfSome, OnOk};
ghost use Rattle.jx_values.specs.inside.Kept.{IsKeptOf};
ghost use Rattle.jx_values.specs.inside.Moved.{AllStaySame, StaySame};

use crate::kept::Kept;
use jx_words::PointerAnswer;
use std::alloc::{AllocError, Global};
use std::mem;

/// The bytes of values, and answers whose spans are among them.
#[derive(Drop)]
pub(crate) struct Gathered {
    pub text: Vec<u8>,
    pub answers: Vec<PointerAnswer>,
}

/// Takes the bytes with a number out of those that are kept of a text, if there are some.
fn take_kept(kept: &mut Vec<Kept>, number: usize) -> Option<Kept>
    ensures taken { IfSome result (λ one. (text : List ℕ) → All (IsKeptOf text) kept.old.items → IsKeptOf text one) }
    ensures left { (text : List ℕ) → All (IsKeptOf text) kept.old.items → All (IsKeptOf text) kept.new.items }
{
    if number < kept.len() {
        let none = Kept::new(*kept.allocator());
        return Some(mem::replace(&mut kept[number], none));
    }
    None
}

/// The same answer as in a text, with its span among some bytes, to which it appends those that are kept for it. It is also
/// out of memory where these lack the span.
fn answer_among(
    bytes: &mut Vec<u8>,
    kept: Kept,
    answer: PointerAnswer,
) -> Result<PointerAnswer, AllocError>
    ensures grown { OnOk result ((more : List ℕ) × (bytes.new.items ≡ bytes.old.items ++ more)) }
    ensures same { IfOk result (λ here. (text : List ℕ) → IsKeptOf text kept → StaySame text bytes.new.items answer here) }
{
    match answer {
        PointerAnswer::Found { kind, span } => {
            let Some(span) = kept.span_among(bytes.len(), span) else {
                return Err(AllocError);
            };
            kept.append_to(bytes)?;
            Ok(PointerAnswer::Found { kind, span })
        }
        PointerAnswer::Unread(fault) => Ok(PointerAnswer::Unread(fault)),
        PointerAnswer::Lost(fault) => Ok(PointerAnswer::Lost(fault)),
    }
}

/// The answers to pointers in a text, in order, with their spans among the bytes that are kept for each.
pub(crate) fn gather(
    alloc: Global,
    answers: &[PointerAnswer],
    mut kept: Vec<Kept>,
) -> Result<Gathered, AllocError>
    ensures { IfOk result (λ gathered. (text : List ℕ) → All (IsKeptOf text) kept.items → AllStaySame text gathered.text.items answers.now gathered.answers.items) }
{
    let mut bytes = Vec::new(alloc);
    let mut moved = Vec::with_capacity(alloc, answers.len())?;
    for number in 0..answers.len() {
        let Some(one) = take_kept(&mut kept, number) else {
            return Err(AllocError);
        };
        let here = answer_among(&mut bytes, one, answers[number])?;
        moved.push(here)?;
    }
    Ok(Gathered {
        text: bytes,
        answers: moved,
    })
}
