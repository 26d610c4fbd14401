// Elements of a JSON text sequence that stand between two record separators, of which the readings are kept.
ghost use Rattle.std.specs.Prelude.{◌≤◌, ◌<◌, length, slice_range, IfOk};
ghost use Rattle.jx_run.specs.Elements.{part};
ghost use Rattle.jx_run.specs.SeqRun.{IsReading};

use crate::readers::started::Started;
use crate::runs::piece::Piece;
use crate::runs::text_run::TextRun;
use crate::sequences::separators::next_separator;
use jx_lex::Depth;
use jx_summary::Summary;
use std::alloc::{AllocError, Global};

/// The reading of a part that two separators enclose.
fn read_part(
    alloc: Global,
    text: &[u8],
    start: usize,
    end: usize,
    depth: Depth,
) -> Result<Started, AllocError>
    requires ordered { start ≤ end }
    requires within { end ≤ length text.now }
    ensures { IfOk result (IsReading depth (part start (slice_range text.now start end))) }
{
    let run = TextRun::of(alloc, text, start, end, depth)?;
    run.started()
}

impl Piece for TextRun {
    type Finished = Started;

    ghost is_finished = { IsReading };

    ghost long = { λ bytes run h. h.long };

    fn finished_with(&self, right: &Self) -> Result<Started, AllocError> {
        self.started_with(right)
    }

    fn behind(
        alloc: Global,
        text: &[u8],
        start: usize,
        end: usize,
        depth: Depth,
    ) -> Result<(Vec<Started>, Self), AllocError> {
        let mut done = Vec::new(alloc);
        let mut from = start;
        while let Some(at) = next_separator(text, from, end) {
            if from < at {
                done.push(read_part(alloc, text, from, at, depth)?)?;
            }
            from = at + 1;
        }
        let after = TextRun::of(alloc, text, from, end, depth)?;
        Ok((done, after))
    }
}
