// Tasks of a report on lines or elements.
use jx_run::Settings;

/// The rule for a line that has no byte, or white space alone.
#[derive(Clone, Copy, Debug, PartialEq, Eq)]
pub enum BlankRule {
    /// It is reported as not valid JSON.
    Refused,
    /// It is passed, and not counted.
    Passed,
}

/// The form of the report on a line.
#[derive(Clone, Copy, Debug, PartialEq, Eq)]
pub enum LineForm {
    /// Its number, its span and its verdict. The counts of all follow the last one.
    Plain,
    /// As compilers report faults: its number, the column of the place and its verdict. No counts follow.
    Mark,
    /// The rest of a JSON object whose beginning stands in front. An object with the counts follows the last one.
    Object,
}

/// The task of a report on lines.
#[derive(Debug, Drop)]
pub struct LinesTask {
    /// How each line is read. The names are ignored: objects may repeat them.
    pub settings: Settings,
    /// The rule for empty lines.
    pub blanks: BlankRule,
    /// The form of the report on a line.
    pub form: LineForm,
    /// The prefix of each line that is written.
    pub front: Vec<u8>,
    /// Whether nothing is written.
    pub is_quiet: bool,
}

/// The task of a report on the elements of a text sequence.
#[derive(Debug, Drop)]
pub struct ElementsTask {
    /// How each element is read. The names are ignored: objects may repeat them.
    pub settings: Settings,
    /// The prefix of each line that is written.
    pub front: Vec<u8>,
    /// Whether nothing is written.
    pub is_quiet: bool,
}
