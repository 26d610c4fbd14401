// The words of faults.
use crate::copied::Copied;
use jx_answer::Fault;
use jx_book::{FinishFault, Held, HeldFault};
use jx_claim::CutFault;
use jx_index::{Indexed, TextAnswer};
use jx_lex::Depth;
use jx_run::Settings;
use jx_shelf::ShelfFault;
use std::alloc::{AllocError, Global};
use test_words::{Line, Out};

/// `words FAULTS`: how the faults of divisions, answers, held runs, finished accumulators or the shelf show.
pub fn words(line: &mut Line<'_>) {
    let alloc = line.alloc;
    let told = match line.word() {
        "cuttings" => push_cut_faults(&mut line.out),
        "answers" => push_answer_faults(&mut line.out),
        "held" => push_held_faults(&mut line.out, alloc),
        "finished" => push_finish_faults(&mut line.out, alloc),
        "shelf" => push_shelf_faults(&mut line.out, alloc),
        _ => return line.refuse(),
    };
    line.settle(told);
}

fn push_cut_faults(out: &mut Out) -> Result<(), AllocError> {
    let outside = CutFault::Outside { index: 3 };
    let not_rising = CutFault::NotRising { index: 7 };
    let (many, memory) = (CutFault::TooManyPieces, CutFault::Memory);
    out.put(format_args!("{outside}; {not_rising}; {many}; {memory}"));
    Ok(())
}

fn push_answer_faults(out: &mut Out) -> Result<(), AllocError> {
    out.put(Fault::Memory);
    Ok(())
}

fn copied(alloc: Global, text: &[u8]) -> Result<Held<'_, Copied>, AllocError> {
    Held::read(alloc, text, 0, text.len(), Depth::default())
}

fn push_held_faults(out: &mut Out, alloc: Global) -> Result<(), AllocError> {
    out.put(HeldFault::Memory(copied(alloc, b"1")?, copied(alloc, b"2")?));
    out.push_str("; ");
    out.put(HeldFault::Other(copied(alloc, b"1")?, copied(alloc, b"2")?));
    Ok(())
}

fn push_finish_faults(out: &mut Out, alloc: Global) -> Result<(), AllocError> {
    out.put(FinishFault::Other(copied(alloc, b"1")?));
    Ok(())
}

/// The index of a number.
fn indexed(alloc: Global) -> Result<Indexed<'static>, AllocError> {
    let settings = Settings::from(Depth::default());
    match TextAnswer::read(alloc, b"1", &settings)? {
        TextAnswer::Accepted(index) => Ok(index),
        TextAnswer::Refused(_) => Err(AllocError),
    }
}

fn push_shelf_faults(out: &mut Out, alloc: Global) -> Result<(), AllocError> {
    out.put(ShelfFault::Taken(indexed(alloc)?));
    out.push_str("; ");
    out.put(ShelfFault::Memory(indexed(alloc)?));
    Ok(())
}
