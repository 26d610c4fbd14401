use jx_lex::Depth;

/// The task of a report on the texts of a stream.
#[derive(Debug, Drop)]
pub struct TextsTask {
    /// How many containers may be open at once.
    pub depth: Depth,
    /// The prefix of each line that is written.
    pub front: Vec<u8>,
    /// Whether nothing is written.
    pub is_quiet: bool,
}
