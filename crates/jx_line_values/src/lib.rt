//! Values of each line of JSON Lines, written while the lines are read: line i of the output answers line i of the input.
#![tactic(auto)]

mod adding;
mod answering;
mod cells;
mod cutting;
mod header;
mod laws;
mod looking;
mod pointers;
mod reporting;
mod reporting_at;
mod row_form;
mod rows_part;
mod rows_rule;
mod taking_rows;
mod task;
mod telling;
mod texts;
mod values_teller;

pub use header::write_header;
pub use laws::{cells_between_commas, cells_between_tabs};
pub use pointers::{Misspelt, first_misspelt};
pub use reporting::report_line_values;
pub use reporting_at::report_line_values_at;
pub use row_form::RowForm;
pub use task::LineValuesTask;
