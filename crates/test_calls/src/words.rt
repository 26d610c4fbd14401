// The words of faults.
use jx_claim::CutFault;
use jx_index::{FindFault, PointerFault};
use jx_lex::JoinFault;
use jx_maps::ChunkMap;
use std::alloc::{AllocError, Global};
use std::fmt::Display;
use test_words::{Line, Out};

const FIND_FAULTS: [FindFault; 6] = [
    FindFault::NoSuchMember { token: 0 },
    FindFault::NameRepeated { token: 1 },
    FindFault::NotAnIndex { token: 2 },
    FindFault::PastEnd { token: 3 },
    FindFault::AfterLast { token: 4 },
    FindFault::NotAContainer { token: 10 },
];

const POINTER_FAULTS: [PointerFault; 2] = [
    PointerFault::NoSlash,
    PointerFault::BadEscape { at: 12 },
];

const CUT_FAULTS: [CutFault; 4] = [
    CutFault::Outside { index: 3 },
    CutFault::NotRising { index: 7 },
    CutFault::TooManyPieces,
    CutFault::Memory,
];

/// `words`: each fault's words, one after another.
pub(crate) fn words(line: &mut Line<'_>) {
    let told = push_join_fault(&mut line.out, line.alloc);
    line.settle(told);
    push_faults(&mut line.out, &FIND_FAULTS);
    push_faults(&mut line.out, &POINTER_FAULTS);
    push_faults(&mut line.out, &CUT_FAULTS);
}

fn push_join_fault(out: &mut Out, alloc: Global) -> Result<(), AllocError> {
    let left = ChunkMap::of(alloc, b"[1]", 0, 1)?;
    let right = ChunkMap::of(alloc, b"[1]", 1, 3)?;
    out.put(JoinFault { left, right });
    Ok(())
}

fn push_faults<T: Display>(out: &mut Out, faults: &[T]) {
    for fault in faults {
        out.put(format_args!("; {fault}"));
    }
}
