// Bytes wait to be written in a buffer that does not grow. What it has no room for is written from where it stands.
ghost use Rattle.std.specs.Prelude.{◌≡◌, ◌+◌, ◌≤◌, ◌++◌, false, is_err, length, vec_capacity, vec_len, IfErr, OnErr, OnOk};
ghost use Rattle.jx_ends.specs.Ends.{AppendsBeginning};
ghost use Rattle.jx_words.specs.inside.Room.{IsPut};

use jx_ends::{ReportFault, Sink, write_whole};

/// Appends bytes where there is room for them.
fn add(out: &mut Vec<u8>, bytes: &[u8])
    requires { vec_len out.old + length bytes.now ≤ vec_capacity out.old }
    ensures items { out.new.items ≡ out.old.items ++ bytes.now }
    ensures room { vec_capacity out.old ≤ vec_capacity out.new }
{
    if out.extend_from_slice(bytes).is_err() {
        unreachable!();
    }
}

/// Writes bytes after what waits in the buffer. They wait there too where there is room for them.
pub(crate) fn put<W: Sink>(
    writer: &mut W,
    out: &mut Vec<u8>,
    bytes: &[u8],
) -> Result<(), ReportFault>
    requires { W.has_failed writer.old ≡ false }
    ensures room { OnOk result (vec_capacity out.old ≤ vec_capacity out.new) }
    ensures ok { OnOk result (IsPut (W.contents writer.old) (W.contents writer.new) out.new.items (out.old.items ++ bytes.now)) }
    ensures err { OnErr result (AppendsBeginning (W.contents writer.old) (W.contents writer.new) (out.old.items ++ bytes.now)) }
    ensures fault { IfErr result (λ fault. fault ≡ ReportFault.Write) }
    ensures failed { W.has_failed writer.new ≡ is_err result }
{
    if bytes.len() <= out.capacity() - out.len() {
        add(out, bytes);
        return Ok(());
    }
    write_whole(writer, out)?;
    out.clear();
    if bytes.len() <= out.capacity() {
        add(out, bytes);
        return Ok(());
    }
    write_whole(writer, bytes)
}
