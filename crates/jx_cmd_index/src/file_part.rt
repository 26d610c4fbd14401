// A part of a file.
ghost use Rattle.std.specs.Prelude.{◌≡◌, ◌≢◌, ◌+◌, ◌-◌, ◌<◌, ◌≤◌, ◌^◌, ◌↔◌, true, false, length, take, drop, vec_len, is_err, IfOk, IfErr, IsErrOf, OnOk};
ghost use Rattle.jx_cmd_index.specs.Offsets.{EndsBefore, StandThere};

use crate::look_fault::LookFault;
use crate::read_at::ReadAt;
use jx_lex::Span;
use std::alloc::AllocError;
use std::io;

/// Makes room for so many bytes, and no more.
fn make_room(buffer: &mut Vec<u8>, len: usize) -> Result<(), AllocError>
    ensures { OnOk result (vec_len buffer.new ≡ len) }
{
    buffer.clear();
    buffer.resize(len, 0)
}

/// Reads once, into the buffer from `filled` on, which has the bytes of the file from `start` on.
fn read_on<F: ReadAt>(
    file: &mut F,
    buffer: &mut [u8],
    start: usize,
    filled: usize,
) -> io::Result<usize>
    requires room { filled < length buffer.old }
    requires fits { start + length buffer.old < 2 ^ 64 }
    requires unfailed { F.has_failed file.old ≡ false }
    ensures front { take filled buffer.new ≡ take filled buffer.old }
    ensures within { IfOk result (λ count. filled + count ≤ length buffer.new) }
    ensures there { IfOk result (λ count. StandThere (F.content file.old) (start + filled) (take count (drop filled buffer.new))) }
    ensures end { IfOk result (λ count. count ≡ 0 → EndsBefore (F.content file.old) (start + filled)) }
    ensures kept { F.content file.new ≡ F.content file.old }
    ensures failed { F.has_failed file.new ≡ is_err result }
{
    file.read_at(&mut buffer[filled..], start + filled)
}

/// Reads the bytes of a part of a file, or fewer where the file ends before the part does. The buffer has them alone.
/// It grows at once, so that when out of memory nothing was read.
pub(crate) fn read_part<F: ReadAt>(
    file: &mut F,
    buffer: &mut Vec<u8>,
    span: Span,
) -> Result<(), LookFault>
    requires unfailed { F.has_failed file.old ≡ false }
    requires order { span.start ≤ span.end }
    ensures there { OnOk result (StandThere (F.content file.old) span.start buffer.new.items) }
    ensures within { OnOk result (length buffer.new.items ≤ span.end - span.start) }
    ensures all { OnOk result (length buffer.new.items < span.end - span.start → EndsBefore (F.content file.old) (span.start + length buffer.new.items)) }
    ensures kept { F.content file.new ≡ F.content file.old }
    ensures read { IsErrOf result LookFault.TextRead ↔ (F.has_failed file.new ≡ true) }
    ensures memory { IfErr result (λ fault. fault ≢ LookFault.TextRead → fault ≡ LookFault.Memory) }
{
    let len = span.end - span.start;
    make_room(buffer, len)?;
    let mut filled = 0;
    'reads: while filled < len {
        match read_on(file, buffer, span.start, filled) {
            Ok(0) => break,
            Ok(count) => filled += count,
            Err(_) => return Err(LookFault::TextRead),
        }
    }
    buffer.truncate(filled);
    Ok(())
}
