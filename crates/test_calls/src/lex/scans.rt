// Scans into sinks, one of which wants no more after some token starts.
ghost use Rattle.std.specs.Prelude.{◌≡◌, length, min};

use crate::lex::track::{push_exit, push_track};
use jx_lex::{LexState, Mark, TokenSink, Tokens};
use std::alloc::{AllocError, Global};
use test_words::{Line, Out};

/// Counts token starts up to a limit, and wants no more then.
#[derive(Drop)]
struct FirstMarks {
    limit: usize,
    count: usize,
}

impl TokenSink for FirstMarks {
    ghost has_seen = { λ k marks ends. k.count ≡ min k.limit (length marks) };

    ghost awaits = { λ _ _. Unit {0} };

    fn begin(&mut self, _mark: Mark) -> Result<(), AllocError> {
        if self.count < self.limit {
            self.count += 1;
        }
        Ok(())
    }

    fn end(&mut self, _at: usize) -> Result<(), AllocError> {
        Ok(())
    }

    fn is_done(&self) -> bool {
        self.count >= self.limit
    }
}

/// `scan STATE TEXT`, or `scan STATE TEXT LIMIT` into a sink that wants no more token starts than so many.
pub(crate) fn scan(line: &mut Line<'_>) {
    let state = line.state();
    let text = line.text();
    let told = if line.count() == 0 {
        push_tokens(&mut line.out, line.alloc, state, &text)
    } else {
        let limit = line.number();
        push_first(&mut line.out, state, &text, limit)
    };
    line.settle(told);
}

/// All token starts and ends, and the exit.
fn push_tokens(
    out: &mut Out,
    alloc: Global,
    state: LexState,
    text: &[u8],
) -> Result<(), AllocError> {
    let mut tokens = Tokens::new(alloc);
    match jx_lex::scan(&mut tokens, state, text, 0, text.len())? {
        Some(exit) => push_track(out, tokens.marks(), tokens.ends(), exit),
        None => out.push_str("wants no more"),
    }
    Ok(())
}

/// How many token starts were kept, and the exit, if more were wanted.
fn push_first(out: &mut Out, state: LexState, text: &[u8], limit: usize) -> Result<(), AllocError> {
    let mut first = FirstMarks { limit, count: 0 };
    let exit = jx_lex::scan(&mut first, state, text, 0, text.len())?;
    let count = first.count;
    out.put(format_args!("{count} marks; "));
    match exit {
        Some(exit) => push_exit(out, exit),
        None => out.push_str("wants no more"),
    }
    Ok(())
}
