// Whole lines that are texts, one after another.
ghost use Rattle.std.specs.Prelude.{◌≡◌, ◌<◌, ◌≤◌, List, [], IfOk, IfSome, IsTrue, length, take};
ghost use Rattle.jx_ndjson.specs.declared.judged_line.JudgedLine.{JudgedLine};
ghost use Rattle.jx_ndjson.specs.WholeLines.{AreWhole};
ghost use Rattle.jx_ndjson.specs.inside.Texts.{AreTexts, IsEnd, IsTextWithin};

use crate::line_end::line_end;
use crate::whole_lines::WholeLines;
use jx_lex::{Depth, LexExit, LexState};
use jx_reduce::{Expect, KnownStack, Whole};
use jx_run::{read_between, reader_and_grammar};
use std::alloc::{AllocError, Global};

/// Whether a text ends where a scan of it and its token starts led to.
#[inline(always)]
fn is_end(exit: Option<LexExit>, whole: Whole) -> bool
    ensures { IsTrue result → IsEnd exit whole }
{
    matches!(
        whole,
        Whole::Went {
            expect: Expect::After,
            open: 0
        }
    ) && matches!(
        exit,
        Some(LexExit::State(
            LexState::Gap | LexState::Zero | LexState::Int | LexState::Frac | LexState::Exp
        ))
    )
}

/// Whether the bytes of a slice before `to` are a text.
#[inline(always)]
fn is_text(stack: &mut KnownStack, slice: &[u8], to: usize) -> Result<bool, AllocError>
    requires { to ≤ length slice.now }
    ensures depth { IfOk result (λ is. IsTrue is → stack.new.depth ≡ stack.old.depth) }
    ensures text { IfOk result (λ is. IsTrue is → IsTextWithin stack.old.depth (take to slice.now)) }
{
    reader_and_grammar();
    stack.reset();
    let exit = read_between(stack, slice, to)?;
    Ok(is_end(exit, stack.whole()))
}

/// How many bytes the first line of a slice has with its line feed, where one ends it and it is a text.
#[inline(always)]
fn text_line(stack: &mut KnownStack, slice: &[u8]) -> Result<Option<usize>, AllocError>
    ensures depth { IfOk result (λ line. IfSome line (λ len. stack.new.depth ≡ stack.old.depth)) }
    ensures some { IfOk result (λ line. IfSome line (λ len. 0 < len)) }
    ensures within { IfOk result (λ line. IfSome line (λ len. len ≤ length slice.now)) }
    ensures text { IfOk result (λ line. IfSome line (λ len. AreTexts stack.old.depth (take len slice.now) 1)) }
{
    let end = line_end(slice);
    if end == slice.len() {
        return Ok(None);
    }
    if is_text(stack, slice, end)? {
        Ok(Some(end + 1))
    } else {
        Ok(None)
    }
}

/// The lines in front of a slice, as far as a line feed ends each of them and it is a text within the depth. From the first
/// other one on, or from an earlier one, the slice is left to a reader. More than 64 open containers take memory, which may be
/// refused.
pub fn texts_in_front(alloc: Global, slice: &[u8], depth: Depth) -> Result<WholeLines, AllocError>
    ensures whole { IfOk result (λ whole. (answers : List JudgedLine) × AreWhole depth (take whole.len slice.now) answers whole) }
    ensures texts { IfOk result (λ whole. whole.bad ≡ []) }
    ensures within { IfOk result (λ whole. whole.len ≤ length slice.now) }
{
    reader_and_grammar();
    let mut stack = KnownStack::new(alloc, depth);
    let mut len = 0;
    let mut count = 0;
    for _ in 0..slice.len() {
        let Some(line) = text_line(&mut stack, &slice[len..])? else {
            break;
        };
        len += line;
        count += 1;
    }
    Ok(WholeLines::new(len, count, Vec::new(alloc)))
}
