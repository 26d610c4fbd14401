// The texts that workers read together.
ghost use Rattle.std.specs.Prelude.{◌≡◌, length, IfOk};

use crate::copied::Copied;
use crate::cuttings::{Reading, cutting_at, readings};
use crate::gates::{StopOn, next_gate};
use crate::runs::push_run;
use jx_book::read_whole;
use jx_claim::Cutting;
use jx_crew::Crew;
use jx_lex::Depth;
use jx_run::{Front, FrontMark, front};
use std::alloc::Global;
use std::sync::Wait;
use std::thread::Threads;
use test_words::{Line, LineFault, Out, Ways};

/// `read CUTS WORKERS GATE SETTINGS TEXT`: the span and the bytes of the run that workers read. A byte order mark that is ignored
/// is left out.
pub fn read<R: Threads + Wait + Sync>(line: &mut Line<'_>, rt: &R) {
    let cuts = line.word();
    let count = line.number();
    let gate = next_gate(line);
    let mark = line.settings(Depth::default()).mark;
    let text = line.text();
    let mut ways = Ways::new(line.alloc);
    for reading in &readings(line, cuts, text.len(), Some(count)) {
        let done = add_reading(&mut ways, rt, line.alloc, &text, reading, &gate, mark);
        line.settle(done);
    }
    ways.push_to(&mut line.out);
}

fn add_reading<R: Threads + Wait + Sync>(
    ways: &mut Ways,
    rt: &R,
    alloc: Global,
    text: &[u8],
    reading: &Reading,
    gate: &StopOn,
    mark: FrontMark,
) -> Result<(), LineFault> {
    let cutting = cutting_at(alloc, text.len(), &reading.cuts)?;
    let cutting = behind_front(cutting, text, mark)?;
    let crew = Crew {
        rt,
        alloc,
        workers: reading.workers,
        gate,
    };
    let run = read_whole::<Copied, R, StopOn>(&crew, text, &cutting, Depth::default())?;
    let mut told = Out::new(alloc);
    push_run(&mut told, &run);
    ways.add(reading.way.as_str(), told);
    Ok(())
}

/// The division without an ignored byte order mark.
fn behind_front(cutting: Cutting, text: &[u8], mark: FrontMark) -> Result<Cutting, LineFault>
    requires len { cutting.len ≡ length text.now }
    requires front { cutting.front ≡ 0 }
    ensures { IfOk result (λ behind. behind.len ≡ length text.now) }
{
    match front(text, mark) {
        Front::Skip(count) => Ok(cutting.without_front(count)),
        Front::Refused(_) => Err(LineFault::NoSuchCall),
    }
}
