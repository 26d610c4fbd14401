// Orders that arguments give: a report, work on the parts of a text, values, elements, lines, a sequence as it
// comes, an index that is saved, or the borders of a container's parts.
use crate::inputs::{Input, Inputs};
use crate::request::{Request, ShowProgress, Told};
use jx_crew::Workers;
use jx_file_index::ChunkSize;
use jx_lex::Depth;
use jx_run::Settings;
use jx_task::ValuesTask;

/// An order that arguments give.
#[derive(Drop)]
pub enum Order<'a> {
    /// A report on what is read.
    Report(Request<'a>),
    /// Work on one text that stands in several inputs.
    Parts(PartsOrder<'a>),
    /// Values of what is read.
    Values(ValuesOrder<'a>),
    /// The elements of what is read.
    Each(EachOrder<'a>),
    /// The lines of what is read.
    Lines(LinesOrder<'a>),
    /// The elements of sequences, each told as it ends.
    Live(LiveOrder<'a>),
    /// The texts of streams, each told as it ends.
    Texts(LiveOrder<'a>),
    /// The index of a text, which is written.
    Save(SaveOrder<'a>),
    /// The borders of the parts of a container.
    Split(SplitOrder<'a>),
}

/// Work on the parts of a text.
#[derive(Clone, Copy)]
pub struct PartsOrder<'a> {
    /// The input that is read.
    pub input: Input<'a>,
    /// How deep the whole text may be.
    pub depth: Depth,
    /// The step that is done with it.
    pub step: PartsStep,
}

/// A step from the parts of a text to its verdict.
#[derive(Clone, Copy)]
pub enum PartsStep {
    /// A part is read, and its run is written. Where there is a `from`, the part begins at this offset of the text.
    Part { from: Option<usize> },
    /// Runs of neighbors are read in order, and their joined run is written.
    Join,
    /// Runs are read in order, and the verdict on the text from the one offset to the other is written, unless it is quiet.
    Whole { from: usize, to: usize, quiet: bool },
}

/// Values whose bytes are written.
#[derive(Drop)]
pub struct ValuesOrder<'a> {
    pub task: ValuesTask,
    /// The input that is read.
    pub input: Input<'a>,
    /// FILE whose lines are looked up after the pointers among the words.
    pub pointers: Option<&'a str>,
    /// FILE with the index by which they are looked up. Then the input is a file, and it is read as the index says.
    pub index: Option<&'a str>,
    /// Whether white space between tokens is left out.
    pub is_compact: bool,
    /// Whether a string is written as the text that it stands for.
    pub is_raw: bool,
    /// How the lines of the input are answered one by one. None where the input is one text.
    pub by_line: Option<ByLine<'a>>,
}

/// How the lines of an input are answered one by one.
#[derive(Clone, Copy)]
pub struct ByLine<'a> {
    /// Whether empty lines are skipped in silence.
    pub skips_blanks: bool,
    /// The table whose rows are written. None where values stay JSON.
    pub table: Option<TableOrder<'a>>,
}

/// A table with a row for each line, and a cell for each pointer.
#[derive(Clone, Copy)]
pub struct TableOrder<'a> {
    pub form: TableForm,
    /// The text that is written where there is no value, or `null`.
    pub none: &'a str,
    /// Whether the first line is of pointers.
    pub has_header: bool,
}

/// How the texts of a row are separated and escaped.
#[derive(Clone, Copy)]
pub enum TableForm {
    /// By tabs.
    Tsv,
    /// By commas (RFC 4180).
    Csv,
}

/// The form of the lines of a container's elements.
#[derive(Clone, Copy, PartialEq, Eq)]
pub enum EachForm {
    /// The value of each element or member.
    Values,
    /// The name and the value of each member.
    Members,
    /// The name of each member, as it is written.
    Names,
    /// The text that the name of each member stands for.
    NameTexts,
    /// How many elements or members there are.
    Count,
}

/// The elements of a container in a text, which are written or counted while it is read.
#[derive(Clone, Copy)]
pub struct EachOrder<'a> {
    /// The pointer that leads to the container, as the words have it.
    pub pointer: &'a str,
    /// The form of the lines of its elements.
    pub form: EachForm,
    /// The input that is read.
    pub input: Input<'a>,
    /// How it is read.
    pub settings: Settings,
    /// How many workers share what is read at a time.
    pub workers: Workers,
    /// How many bytes a worker takes at a time.
    pub piece: usize,
    /// Whether progress is shown.
    pub progress: ShowProgress,
}

/// Lines, each of which is to be a text.
#[derive(Drop)]
pub struct LinesOrder<'a> {
    /// The inputs that are read.
    pub inputs: Inputs<'a>,
    /// How each line is read.
    pub settings: Settings,
    /// How many workers share the lines that are read at a time.
    pub workers: Workers,
    /// How many bytes a worker takes at a time, and what is left of a line then.
    pub piece: usize,
    /// Whether empty lines are skipped.
    pub skips_blanks: bool,
    /// Whether nothing is written of a line.
    pub is_quiet: bool,
    /// The format of a report on a line, or on an input that has refused ones.
    pub told: Told,
    /// How the accepted lines pass through. None where the report alone is written.
    pub pass: Option<PassOrder<'a>>,
    /// How many refused lines are reported of an input, at most. None where all are.
    pub most: Option<usize>,
}

/// Lines that pass through, beside the report on the others.
#[derive(Clone, Copy)]
pub struct PassOrder<'a> {
    /// FILE to which the report is appended. None where it goes to standard error.
    pub report: Option<&'a str>,
}

/// Elements of text sequences, or texts of streams, which are reported while they are read.
#[derive(Drop)]
pub struct LiveOrder<'a> {
    /// The inputs that are read.
    pub inputs: Inputs<'a>,
    /// How each element or text is read.
    pub settings: Settings,
    /// Whether nothing is written.
    pub is_quiet: bool,
}

/// The index of a text, whose bytes are written.
#[derive(Clone, Copy)]
pub struct SaveOrder<'a> {
    /// The input that is read.
    pub input: Input<'a>,
    /// How it is read.
    pub settings: Settings,
    /// How many bytes of the text each entry of the index is about.
    pub chunk: ChunkSize,
    /// Whether tables of its names follow the index.
    pub has_names: bool,
    /// How many workers read a file.
    pub workers: Workers,
    /// Whether progress is shown.
    pub progress: ShowProgress,
}

/// The borders of the parts of a container, by the index of its text.
#[derive(Clone, Copy)]
pub struct SplitOrder<'a> {
    /// The pointer that leads to the container, as the words have it.
    pub pointer: &'a str,
    /// FILE with the index.
    pub index: &'a str,
    /// FILE with the text.
    pub file: &'a str,
    /// How many parts there are, also those that are empty: 1 to 65,536.
    pub parts: usize,
}
