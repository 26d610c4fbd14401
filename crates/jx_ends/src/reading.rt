ghost use Rattle.std.specs.Prelude.{◌≡◌, ◌≢◌, ◌+◌, ◌<◌, ◌≤◌, ◌↔◌, false, true, length, take, drop, vec_len, is_err, OnOk, IfOk, IfErr, IsErrOf};
ghost use Rattle.std.specs.Io.KnownBytes.{Consumes, IsAtEnd};
ghost use Rattle.jx_ends.specs.Ends.{ReadsToEnd};

use crate::report_fault::ReportFault;
use crate::source::Source;
use std::alloc::{AllocError, Global};
use std::io;

/// The least room that is made for a read, in bytes. From here up to the greatest, room is made for as many bytes as there
/// are already.
const LEAST_STEP: usize = 16 * 1024;

/// The greatest room that is made for a read, in bytes.
const GREATEST_STEP: usize = 1024 * 1024;

/// Lengthens the buffer by zeros, up to the limit, unless it is longer than `filled` already.
fn make_room_within(buffer: &mut Vec<u8>, filled: usize, limit: usize) -> Result<(), AllocError>
    requires filled { filled ≤ vec_len buffer.old }
    requires within { vec_len buffer.old ≤ limit }
    requires more { filled < limit }
    ensures room { OnOk result (filled < vec_len buffer.new) }
    ensures within { OnOk result (vec_len buffer.new ≤ limit) }
    ensures front { take filled buffer.new.items ≡ take filled buffer.old.items }
{
    if filled < buffer.len() {
        return Ok(());
    }
    let step = filled.clamp(LEAST_STEP, GREATEST_STEP).min(limit - filled);
    buffer.reserve(step)?;
    buffer.resize(filled + step, 0)
}

/// Reads once, into the part of `text` from `at` on.
fn read_at<R: Source>(reader: &mut R, text: &mut [u8], at: usize) -> io::Result<usize>
    requires room { at < length text.old }
    requires unfailed { R.has_failed reader.old ≡ false }
    ensures front { take at text.new ≡ take at text.old }
    ensures fits { IfOk result (λ count. at + count ≤ length text.new) }
    ensures ok { IfOk result (λ count. Consumes (R.remaining reader.old) (R.remaining reader.new)
        (take count (drop at text.new))) }
    ensures end { IfOk result (λ count. count ≡ 0 → IsAtEnd (R.remaining reader.new)) }
    ensures failed { R.has_failed reader.new ≡ is_err result }
{
    reader.read(&mut text[at..])
}

/// Reads into the buffer until as many bytes as the limit says were read, or the end of input comes, and answers how many
/// were.
pub fn fill_buffer<S: Source>(
    reader: &mut S,
    buffer: &mut Vec<u8>,
    limit: usize,
) -> Result<usize, ReportFault>
    requires unfailed { S.has_failed reader.old ≡ false }
    requires within { vec_len buffer.old ≤ limit }
    ensures room { IfOk result (λ filled. filled ≤ vec_len buffer.new) }
    ensures within { IfOk result (λ _. vec_len buffer.new ≤ limit) }
    ensures ok { IfOk result (λ filled. Consumes (S.remaining reader.old) (S.remaining reader.new)
        (take filled buffer.new.items)) }
    ensures end { IfOk result (λ filled. filled < limit → IsAtEnd (S.remaining reader.new)) }
    ensures read { IsErrOf result ReportFault.Read ↔ (S.has_failed reader.new ≡ true) }
    ensures going { IfOk result (λ _. S.has_failed reader.new ≡ false) }
    ensures unwritten { IfErr result (λ fault. fault ≢ ReportFault.Write) }
    ensures uncut { IfErr result (λ fault. fault ≢ ReportFault.Pieces) }
{
    let mut filled = 0;
    while filled < limit {
        make_room_within(buffer, filled, limit)?;
        match read_at(reader, buffer, filled) {
            Ok(0) => return Ok(filled),
            Ok(count) => filled += count,
            Err(_) => return Err(ReportFault::Read),
        }
    }
    Ok(filled)
}

/// Reads to the end of input, and answers all bytes that it had.
pub fn read_to_end<R: Source>(alloc: Global, reader: &mut R) -> Result<Vec<u8>, ReportFault>
    requires { R.has_failed reader.old ≡ false }
    ensures ok { IfOk result (λ text. ReadsToEnd (R.remaining reader.old) (R.remaining reader.new) text.items) }
    ensures read { IsErrOf result ReportFault.Read ↔ (R.has_failed reader.new ≡ true) }
    ensures unwritten { IfErr result (λ fault. fault ≢ ReportFault.Write) }
    ensures uncut { IfErr result (λ fault. fault ≢ ReportFault.Pieces) }
{
    let mut text = Vec::new(alloc);
    let filled = fill_buffer(reader, &mut text, usize::MAX)?;
    text.truncate(filled);
    Ok(text)
}
