// The words of faults.
use jx_answer::Fault;
use jx_claim::CutFault;
use jx_command::ArgFault;
use jx_ends::ReportFault;
use std::alloc::AllocError;
use test_examples::ExampleFault;
use test_words::{Line, Out};

/// `words FAULTS`: the messages of faults of reports, of arguments or of the examples.
pub fn words(line: &mut Line<'_>) {
    match line.word() {
        "reports" => push_report_faults(&mut line.out),
        "commands" => line.out.put(ArgFault::Memory),
        "examples" => push_example_faults(&mut line.out),
        _ => line.refuse(),
    }
}

fn push_report_faults(out: &mut Out) {
    let (read, write) = (ReportFault::Read, ReportFault::Write);
    let (memory, pieces) = (ReportFault::Memory, ReportFault::Pieces);
    out.put(format_args!("{read}; {write}; {memory}; {pieces}"));
}

fn push_example_faults(out: &mut Out) {
    let cut = ExampleFault::Cut(CutFault::TooManyPieces);
    let answer = ExampleFault::Answer(Fault::Memory);
    let report = ExampleFault::Report(ReportFault::Read);
    let (stopped, memory) = (ExampleFault::Stopped, ExampleFault::Memory(AllocError));
    out.put(format_args!("{cut}; {answer}; {report}; {stopped}; {memory}"));
}
