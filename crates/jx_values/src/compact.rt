// The compact form of values is written through the same buffer, chunk by chunk.
ghost use Rattle.std.specs.Prelude.{◌≡◌, ◌+◌, ◌≤◌, ◌++◌, false, is_err, length, vec_capacity, IfErr, IfOk, OnErr, OnOk};
ghost use Rattle.jx_compact.specs.Compact.{compact, compact_from, place_behind};
ghost use Rattle.jx_ends.specs.Ends.{AppendsBeginning};
ghost use Rattle.jx_words.specs.inside.Room.{HasRoom, IsPut};

use jx_compact::{Place, compact_onto};
use jx_ends::{ReportFault, Sink, write_whole};

/// How many bytes of a value are made compact at a time. The buffer has room for as many.
pub(crate) const CHUNK: usize = 4096;

/// Writes what waits in the buffer, unless there is room for a chunk after it.
fn make_room<W: Sink>(writer: &mut W, out: &mut Vec<u8>) -> Result<(), ReportFault>
    requires unfailed { W.has_failed writer.old ≡ false }
    requires large { CHUNK ≤ vec_capacity out.old }
    ensures ok { OnOk result (IsPut (W.contents writer.old) (W.contents writer.new) out.new.items out.old.items) }
    ensures room { OnOk result (HasRoom out.new CHUNK) }
    ensures err { OnErr result (AppendsBeginning (W.contents writer.old) (W.contents writer.new) out.old.items) }
    ensures fault { IfErr result (λ fault. fault ≡ ReportFault.Write) }
    ensures failed { W.has_failed writer.new ≡ is_err result }
{
    if out.capacity() - out.len() < CHUNK {
        write_whole(writer, out)?;
        out.clear();
    }
    Ok(())
}

/// Writes what stays of a chunk, whose first byte stands there, and answers where the byte after it stands.
fn put_chunk<W: Sink>(
    writer: &mut W,
    out: &mut Vec<u8>,
    place: Place,
    chunk: &[u8],
) -> Result<Place, ReportFault>
    requires unfailed { W.has_failed writer.old ≡ false }
    requires large { CHUNK ≤ vec_capacity out.old }
    requires short { length chunk.now ≤ CHUNK }
    ensures place { IfOk result (λ next. next ≡ place_behind place chunk.now) }
    ensures large { OnOk result (CHUNK ≤ vec_capacity out.new) }
    ensures ok { OnOk result (IsPut (W.contents writer.old) (W.contents writer.new) out.new.items (out.old.items ++ compact_from place chunk.now)) }
    ensures err { OnErr result (AppendsBeginning (W.contents writer.old) (W.contents writer.new) (out.old.items ++ compact_from place chunk.now)) }
    ensures fault { IfErr result (λ fault. fault ≡ ReportFault.Write) }
    ensures failed { W.has_failed writer.new ≡ is_err result }
{
    make_room(writer, out)?;
    Ok(compact_onto(out, place, chunk))
}

/// Writes the compact form of a value after what waits in the buffer. Its last bytes may be left there.
pub(crate) fn put_compact<W: Sink>(
    writer: &mut W,
    out: &mut Vec<u8>,
    bytes: &[u8],
) -> Result<(), ReportFault>
    requires unfailed { W.has_failed writer.old ≡ false }
    requires large { CHUNK ≤ vec_capacity out.old }
    ensures large { OnOk result (CHUNK ≤ vec_capacity out.new) }
    ensures ok { OnOk result (IsPut (W.contents writer.old) (W.contents writer.new) out.new.items (out.old.items ++ compact bytes.now)) }
    ensures err { OnErr result (AppendsBeginning (W.contents writer.old) (W.contents writer.new) (out.old.items ++ compact bytes.now)) }
    ensures fault { IfErr result (λ fault. fault ≡ ReportFault.Write) }
    ensures failed { W.has_failed writer.new ≡ is_err result }
{
    let mut place = Place::Between;
    let mut start = 0;
    while start < bytes.len() {
        let end = start + CHUNK.min(bytes.len() - start);
        place = put_chunk(writer, out, place, &bytes[start..end])?;
        start = end;
    }
    Ok(())
}
