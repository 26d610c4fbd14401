// Reports that arguments ask for.
use crate::inputs::Inputs;
use jx_task::Command;

/// A report that arguments ask for.
#[derive(Drop)]
pub struct Request<'a> {
    pub command: Command,
    /// The inputs that are read.
    pub inputs: Inputs<'a>,
    /// FILE whose lines are looked up after the pointers among the words.
    pub pointers: Option<&'a str>,
    /// FILE with the index by which pointers are looked up.
    pub index: Option<&'a str>,
    /// The format of the answer.
    pub told: Told,
    /// Whether progress is shown.
    pub progress: ShowProgress,
}

/// The format of the answer.
#[derive(Clone, Copy)]
pub enum Told {
    /// By the lines of a report.
    Lines,
    /// By the names of the inputs that are refused.
    Refused,
    /// By a line for each input that is refused, as compilers report faults: the place and a sentence.
    Marks,
    /// By a JSON object for each input.
    Objects,
    /// To people: where a fault stands, what it is, and what could stand there instead.
    Explained(Color, TellAccepted),
}

/// Whether an accepted text is reported.
#[derive(Clone, Copy)]
pub enum TellAccepted {
    /// Where there are several inputs.
    Several,
    Always,
    Never,
}

/// Whether messages to people have colors.
#[derive(Clone, Copy, Debug)]
pub enum Color {
    /// Where the output is a terminal.
    Auto,
    Always,
    Never,
}

/// Whether progress is shown on standard error.
#[derive(Clone, Copy)]
pub enum ShowProgress {
    /// Where standard error is a terminal.
    Auto,
    Always,
    Never,
}
