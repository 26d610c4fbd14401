// The commands, by which rows of data and orders name them.

#[derive(Clone, Copy)]
pub(crate) enum Called {
    Check,
    Explain,
    Index,
    At,
    Get,
    Each,
    Keys,
    Count,
    Seq,
    Lines,
    Texts,
    Save,
    Split,
    Part,
    Join,
    Whole,
}
