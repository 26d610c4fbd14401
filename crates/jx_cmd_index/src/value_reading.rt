// The bytes of a value.
ghost use Rattle.std.specs.Prelude.{◌≡◌, ◌↔◌, true, false, IfErr, IfOk, IsErrOf, OnOk};
ghost use Rattle.jx_cmd_index.specs.Offsets.{HasSize};
ghost use Rattle.jx_cmd_index.specs.PlaceReports.{IsOfText};
ghost use Rattle.jx_cmd_index.specs.inside.HeldChunks.{IsHeldIn};
ghost use Rattle.jx_cmd_index.specs.inside.Texts.{AreBytesIn, IsChangeIn};

use crate::held_chunk::{HeldChunk, hold};
use crate::look_fault::LookFault;
use crate::read_at::ReadAt;
use jx_file_index::Index;
use jx_lex::Span;
use std::alloc::Global;

/// Reads the bytes of a span, as far as the text has them, chunk by chunk. Memory for all of them is taken first.
pub(crate) fn read_value<F: ReadAt>(
    alloc: Global,
    file: &mut F,
    index: &Index,
    held: &mut HeldChunk,
    span: Span,
) -> Result<Vec<u8>, LookFault>
    requires unfailed { F.has_failed file.old ≡ false }
    requires size { HasSize (F.content file.old) index.now.size }
    requires held { IsHeldIn (F.content file.old) index.now held.old }
    ensures value { IfOk result (λ value. AreBytesIn (F.content file.old) index.now span.start span.end value.items) }
    ensures held { OnOk result (IsHeldIn (F.content file.old) index.now held.new) }
    ensures changed { IfErr result (IsChangeIn (F.content file.old) index.now) }
    ensures kept { F.content file.new ≡ F.content file.old }
    ensures read { IsErrOf result LookFault.TextRead ↔ (F.has_failed file.new ≡ true) }
    ensures fault { IfErr result IsOfText }
{
    let end = span.end.min(index.size);
    let mut at = span.start;
    let mut value = Vec::with_capacity(alloc, end.saturating_sub(at))?;
    'chunks: while at < end {
        hold(file, index, held, at)?;
        let to = held.span.end.min(end);
        value.extend_from_slice(held.part(at, to))?;
        at = to;
    }
    Ok(value)
}
