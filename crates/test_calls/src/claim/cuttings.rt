// Which chunks a text is cut into, and which cuts are refused.

use jx_claim::{CutFault, Cutting};
use jx_crew::{PieceNo, Workers};
use std::alloc::Global;
use test_words::{Line, LineFault, Out, Ways, push_span};

/// At most how many chunks a line lists.
const LISTED: u32 = 100;

/// Where the chunks begin and end together, how many they are, and if they are few, all of them.
fn pieces_of(alloc: Global, cutting: &Cutting) -> Out {
    let mut told = Out::new(alloc);
    let (front, len, count) = (cutting.front(), cutting.len(), cutting.count());
    told.put(format_args!("{front}..{len} in {count}"));
    if count <= LISTED {
        for number in 0..count {
            told.push_str(" ");
            push_span(&mut told, cutting.piece(PieceNo(number)));
        }
    }
    told
}

/// The division without the first so many bytes, for each word that is left.
fn behind(line: &mut Line<'_>, cutting: Cutting) -> Cutting {
    let mut cutting = cutting;
    for _ in 0..line.count() {
        let front = line.number();
        if front < cutting.front() || front > cutting.len() {
            line.refuse();
        } else {
            cutting = cutting.without_front(front);
        }
    }
    cutting
}

/// The chunks of a division and of its copy.
fn push_pieces(line: &mut Line<'_>, cutting: &Cutting) {
    let mut ways = Ways::new(line.alloc);
    ways.add("itself", pieces_of(line.alloc, cutting));
    let copy = cutting.copy(line.alloc);
    if let Some(copy) = line.keep(copy) {
        ways.add("a copy", pieces_of(line.alloc, &copy));
    }
    ways.push_to(&mut line.out);
}

/// The chunks, or why there are none.
fn push_cutting(line: &mut Line<'_>, cutting: Result<Cutting, CutFault>) {
    match cutting {
        Ok(cutting) => {
            let cutting = behind(line, cutting);
            push_pieces(line, &cutting);
        }
        Err(CutFault::Memory) => line.note(LineFault::Memory),
        Err(fault) => line.out.put(fault),
    }
}

/// `every LEN SIZE [FRONT]..`: chunks of so many bytes, without the first so many bytes, one front after another.
pub(crate) fn every(line: &mut Line<'_>) {
    let len = line.number();
    let size = line.number();
    if size == 0 {
        return line.refuse();
    }
    push_cutting(line, Cutting::every(len, size));
}

/// `at LEN CUTS [FRONT]..`: chunks that meet at the cuts.
pub(crate) fn at(line: &mut Line<'_>) {
    let len = line.number();
    let cuts = line.numbers();
    let cutting = Cutting::at(line.alloc, len, &cuts);
    push_cutting(line, cutting);
}

/// `workers N`: so many workers, or `-`.
pub(crate) fn workers(line: &mut Line<'_>) {
    let Ok(count) = u8::try_from(line.number()) else {
        return line.refuse();
    };
    match Workers::new(count) {
        Some(workers) => line.out.put(workers.count()),
        None => line.out.push_str("-"),
    }
}
