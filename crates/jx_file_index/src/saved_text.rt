// The saved parts of a text.
use crate::index::Index;
use crate::name_tables::NameTables;

/// The saved parts of a text: its index, and the tables of its names, if these are saved too.
#[derive(Debug, Drop)]
pub struct SavedText {
    pub index: Index,
    pub names: Option<NameTables>,
}
