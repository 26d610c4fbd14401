/// How the values of a line stand in a row.
#[derive(Clone, Copy, Debug, PartialEq, Eq)]
pub enum RowForm {
    /// Compact JSON, a tab between.
    Json,
    /// Texts, a tab between: text/tab-separated-values, with the escapes of PostgreSQL's text format.
    Tsv,
    /// Texts, a comma between (RFC 4180). A line feed ends a row.
    Csv,
}
