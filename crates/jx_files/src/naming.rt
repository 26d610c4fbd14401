// The lines of an output after a name.
ghost use Rattle.std.specs.Prelude.{◌≡◌, ◌++◌, ◌∷◌, [], false, if◌then◌else◌, codes, is_err, IfOk, OnOk};
ghost use Rattle.std.specs.Io.KnownBytes.{Appends};
ghost use Rattle.jx_words.specs.Showing.{shown};
ghost use Rattle.jx_files.specs.Naming.{named, named_from};

use jx_ends::{ReportFault, Sink, write_whole};
use jx_words::shown_name;
use std::alloc::{AllocError, Global};

/// The lines with the name as it is shown, a colon and a space in front of each. A line ends with a line feed, and the last
/// line may do without.
pub fn named_lines(alloc: Global, name: &str, lines: &[u8]) -> Result<Vec<u8>, AllocError>
    ensures { IfOk result (λ all. all.items ≡ named (shown name.now ++ codes ": ") lines.now) }
{
    let mut front = shown_name(alloc, name)?;
    front.extend_from_slice(b": ")?;
    behind(alloc, &front, lines)
}

/// The lines with this in front of each.
fn behind(alloc: Global, front: &[u8], lines: &[u8]) -> Result<Vec<u8>, AllocError>
    ensures { IfOk result (λ all. all.items ≡ named front.now lines.now) }
{
    let mut all = Vec::new(alloc);
    let mut starts = true;
    for byte in lines {
        push_behind(&mut all, front, starts, *byte)?;
        starts = *byte == b'\n';
    }
    Ok(all)
}

/// Appends a byte, with this in front of it where it starts a line.
fn push_behind(all: &mut Vec<u8>, front: &[u8], starts: bool, byte: u8) -> Result<(), AllocError>
    ensures { OnOk result (all.new.items ≡ all.old.items ++ ((if starts then front.now else []) ++ byte ∷ [])) }
{
    if starts {
        all.extend_from_slice(front)?;
    }
    all.push(byte)?;
    Ok(())
}

/// Writes a byte, with this in front of it where it starts a line.
fn write_behind<E: Sink>(
    sink: &mut E,
    front: &[u8],
    starts: bool,
    byte: u8,
) -> Result<(), ReportFault>
    requires { E.has_failed sink.old ≡ false }
    ensures ok { OnOk result (Appends (E.contents sink.old) (E.contents sink.new) ((if starts then front.now else []) ++ byte ∷ [])) }
    ensures failed { E.has_failed sink.new ≡ is_err result }
{
    if starts {
        write_whole(sink, front)?;
    }
    write_whole(sink, &[byte])
}

/// Writes lines with this in front of each. The first byte starts a line where `starts` says so, and so does each byte after a
/// line feed.
pub fn write_named<E: Sink>(
    sink: &mut E,
    front: &[u8],
    starts: bool,
    lines: &[u8],
) -> Result<(), ReportFault>
    requires { E.has_failed sink.old ≡ false }
    ensures ok { OnOk result (Appends (E.contents sink.old) (E.contents sink.new) (named_from starts front.now lines.now)) }
    ensures failed { E.has_failed sink.new ≡ is_err result }
{
    let mut is_first = starts;
    for byte in lines {
        write_behind(sink, front, is_first, *byte)?;
        is_first = *byte == b'\n';
    }
    Ok(())
}
