// The question that is asked of the lines of an input.
use crate::row_form::RowForm;
use jx_run::Settings;

/// The question that is asked of each line of an input.
#[derive(Debug, Drop)]
pub struct LineValuesTask {
    /// The pointers to the values of a line (RFC 6901, section 3), as they were given.
    pub pointers: Vec<String>,
    /// How each line is read. A byte order mark may stand in front of the first line alone. The names are ignored:
    /// objects may repeat them.
    pub settings: Settings,
    /// Whether empty lines are skipped in silence.
    pub skips_blank: bool,
    /// How the values of a line stand in a row.
    pub form: RowForm,
    /// The text that is written where there is no value. In a row of texts also where `null` is one.
    pub none: String,
}
