// How parts are taken in turn, and the bytes between them are read.
ghost use Rattle.std.specs.Prelude.{◌≡◌, ◌<◌, Some, IfErr, IfOk, OnOk, length};
ghost use Rattle.jx_parallel.specs.Faults.{IfRead, ReadFailsBy};
ghost use Rattle.jx_parallel.specs.Offsets.{EndsBefore};
ghost use Rattle.jx_parallel.specs.Parts.{GoesOn};

use crate::check_fault::CheckFault;
use crate::part_reader::PartReader;
use crate::placed::Placed;
use crate::reading::read_some;
use crate::ruled::Ruled;
use crate::shared_at::SharedAt;
use std::alloc::AllocError;
use std::sync::Wait;

/// Lets a reader go on by what one read gives, and returns how many bytes that were; 0 at the end.
pub(crate) fn read_there<F: SharedAt, L: PartReader>(
    file: &F,
    rule: &L::Rule,
    buffer: &mut [u8],
    reader: &mut L,
) -> Result<usize, CheckFault<F::Fault>>
    ensures length { length buffer.new ≡ length buffer.old }
    ensures read { OnOk result (GoesOn (F.content file.now) (L.has_read rule.now) reader.old reader.new) }
    ensures stopped { IfErr result (IfRead (GoesOn (F.content file.now) (L.has_read rule.now) reader.old reader.new)) }
    ensures end { IfOk result (λ count. count ≡ 0 → 0 < length buffer.old → EndsBefore (F.content file.now) (L.end reader.new)) }
    ensures fault { IfErr result (ReadFailsBy (F.may_fail file.now)) }
{
    let at = reader.end();
    let count = read_some(file, buffer, at)?;
    if count == 0 {
        return Ok(0);
    }
    if count >= usize::MAX - at {
        return Err(CheckFault::Memory);
    }
    reader.feed(rule, &buffer[..count])?;
    Ok(count)
}

/// Lets a reader go on up to an offset, to the end of the text, or until it is full.
pub(crate) fn read_to<F: SharedAt, L: PartReader, R: Wait>(
    rt: &R,
    file: &F,
    rule: &L::Rule,
    buffer: &mut [u8],
    offset: usize,
    reader: &mut L,
) -> Result<(), CheckFault<F::Fault>>
    ensures length { length buffer.new ≡ length buffer.old }
    ensures read { OnOk result (GoesOn (F.content file.now) (L.has_read rule.now) reader.old reader.new) }
    ensures stopped { IfErr result (IfRead (GoesOn (F.content file.now) (L.has_read rule.now) reader.old reader.new)) }
    ensures fault { IfErr result (ReadFailsBy (F.may_fail file.now)) }
{
    for _ in rt.forever() {
        let at = reader.end();
        if at >= offset || reader.is_full() {
            return Ok(());
        }
        let room = buffer.len().min(offset - at);
        if read_there(file, rule, &mut buffer[..room], reader)? == 0 {
            return Ok(());
        }
    }
    unreachable!()
}

/// Which of the parts is the first of the text, by its number.
fn first_of<L: PartReader, K: Ruled<L::Rule>>(parts: &Vec<Placed<L, K>>) -> usize {
    let mut first = 0;
    for number in 0..parts.len() {
        if first < parts.len() && parts[number].at() < parts[first].at() {
            first = number;
        }
    }
    first
}

/// Takes the first part of the text out.
fn next_part<L: PartReader, K: Ruled<L::Rule>>(
    parts: &mut Vec<Placed<L, K>>,
) -> Option<Placed<L, K>> {
    let first = first_of(parts);
    if first < parts.len() {
        Some(parts.swap_remove(first))
    } else {
        None
    }
}

/// Lets a reader take a part, if the part begins where it has read up to.
fn take<L: PartReader, K: Ruled<L::Rule>>(
    rule: &L::Rule,
    part: Placed<L, K>,
    reader: &mut L,
) -> Result<(), AllocError>
    requires rule { K.rule ≡ Some rule.now }
    ensures { OnOk result (GoesOn K.text (L.has_read rule.now) reader.old reader.new) }
{
    let end = reader.end();
    let Placed {
        part,
        at,
        len,
        of: _,
    } = part;
    if at != end || len >= usize::MAX - end {
        return Ok(());
    }
    let _took = reader.take(rule, part, len)?;
    Ok(())
}

/// Lets a reader read up to a part, and take it.
fn take_there<F: SharedAt, L: PartReader, K: Ruled<L::Rule>, R: Wait>(
    rt: &R,
    file: &F,
    rule: &L::Rule,
    buffer: &mut [u8],
    part: Placed<L, K>,
    reader: &mut L,
) -> Result<(), CheckFault<F::Fault>>
    requires text { K.text ≡ F.content file.now }
    requires rule { K.rule ≡ Some rule.now }
    ensures length { length buffer.new ≡ length buffer.old }
    ensures read { OnOk result (GoesOn (F.content file.now) (L.has_read rule.now) reader.old reader.new) }
    ensures stopped { IfErr result (IfRead (GoesOn (F.content file.now) (L.has_read rule.now) reader.old reader.new)) }
    ensures fault { IfErr result (ReadFailsBy (F.may_fail file.now)) }
{
    read_to(rt, file, rule, buffer, part.at(), reader)?;
    take(rule, part, reader)?;
    Ok(())
}

/// Lets a reader take parts in the order of the text, and read the bytes between them, until it is full.
pub(crate) fn take_parts<F: SharedAt, L: PartReader, K: Ruled<L::Rule>, R: Wait>(
    rt: &R,
    file: &F,
    rule: &L::Rule,
    buffer: &mut [u8],
    parts: Vec<Placed<L, K>>,
    reader: &mut L,
) -> Result<(), CheckFault<F::Fault>>
    requires text { K.text ≡ F.content file.now }
    requires rule { K.rule ≡ Some rule.now }
    ensures length { length buffer.new ≡ length buffer.old }
    ensures read { OnOk result (GoesOn (F.content file.now) (L.has_read rule.now) reader.old reader.new) }
    ensures stopped { IfErr result (IfRead (GoesOn (F.content file.now) (L.has_read rule.now) reader.old reader.new)) }
    ensures fault { IfErr result (ReadFailsBy (F.may_fail file.now)) }
{
    let mut parts = parts;
    for _ in rt.forever() {
        if reader.is_full() {
            return Ok(());
        }
        let Some(part) = next_part(&mut parts) else {
            return Ok(());
        };
        take_there::<F, L, K, R>(rt, file, rule, buffer, part, reader)?;
    }
    unreachable!()
}
