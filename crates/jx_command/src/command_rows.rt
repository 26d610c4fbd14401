// The commands, each with what it takes in the order of its help.
use crate::arg_row::ArgRow;
use crate::called::Called;
use crate::{help, option_rows as option};

/// A command.
#[derive(Clone, Copy)]
pub(crate) struct CommandRow {
    /// The word that calls it.
    pub(crate) name: &'static str,
    /// The line of help that says what it does.
    pub(crate) about: &'static str,
    /// The text after its options in the long help.
    pub(crate) after: &'static str,
    pub(crate) args: &'static [ArgRow],
}

const CHECK: CommandRow = CommandRow {
    name: "check",
    about: help::CHECK,
    after: help::AFTER_CHECK,
    args: &[
        option::FILE,
        option::DEPTH,
        ArgRow {
            long_help: help::CHECK_WORKERS,
            ..option::WORKERS
        },
        ArgRow {
            long_help: help::CHECK_PIECE,
            ..option::PIECE
        },
        option::IGNORE_BOM,
        option::UNIQUE_NAMES,
        option::WITH_FILENAME,
        option::QUIET,
        option::LIST,
        option::FORMAT,
        option::PROGRESS,
        option::FILES,
    ],
};

const EXPLAIN: CommandRow = CommandRow {
    name: "explain",
    about: help::EXPLAIN,
    after: help::AFTER_EXPLAIN,
    args: &[
        option::FILE,
        option::DEPTH,
        ArgRow {
            long_help: help::EXPLAIN_WORKERS,
            ..option::WORKERS
        },
        ArgRow {
            long_help: help::EXPLAIN_PIECE,
            ..option::PIECE
        },
        option::IGNORE_BOM,
        option::UNIQUE_NAMES,
        option::COLOR,
        option::VERBOSE,
        option::REFUSED,
        option::FILES,
    ],
};

const INDEX: CommandRow = CommandRow {
    name: "index",
    about: help::INDEX,
    after: help::AFTER_INDEX,
    args: &[
        option::FILE,
        option::DEPTH,
        ArgRow {
            long_help: help::INDEX_WORKERS,
            ..option::WORKERS
        },
        option::BOUNDING_PIECE,
        option::IGNORE_BOM,
        option::UNIQUE_NAMES,
        option::ONE_FILE,
    ],
};

const AT: CommandRow = CommandRow {
    name: "at",
    about: help::AT,
    after: help::AFTER_AT,
    args: &[
        option::FILE,
        option::DEPTH,
        ArgRow {
            long_help: help::AT_WORKERS,
            ..option::WORKERS
        },
        option::BOUNDING_PIECE,
        option::IGNORE_BOM,
        option::UNIQUE_NAMES,
        option::POINTERS,
        option::POINTERS_FILE,
        option::AT_INDEX,
    ],
};

const GET: CommandRow = CommandRow {
    name: "get",
    about: help::GET,
    after: help::AFTER_GET,
    args: &[
        option::FILE,
        option::DEPTH,
        ArgRow {
            long_help: help::GET_WORKERS,
            ..option::WORKERS
        },
        option::BOUNDING_PIECE,
        option::IGNORE_BOM,
        option::UNIQUE_NAMES,
        option::POINTERS,
        option::POINTERS_FILE,
        option::COMPACT,
        option::RAW,
        option::BY_LINE,
        option::SKIP_BLANK_BY_LINE,
        option::TABLE,
        option::HEADER,
        option::NULL,
        option::GET_INDEX,
    ],
};

const EACH: CommandRow = CommandRow {
    name: "each",
    about: help::EACH,
    after: help::AFTER_EACH,
    args: &[
        option::CONTAINER,
        option::ONE_FILE,
        option::NAMES,
        option::FILE,
        option::DEPTH,
        option::EACH_WORKERS,
        ArgRow {
            long_help: help::EACH_PIECE,
            ..option::PIECE
        },
        option::IGNORE_BOM,
        option::PROGRESS,
    ],
};

const KEYS: CommandRow = CommandRow {
    name: "keys",
    about: help::KEYS,
    after: help::AFTER_KEYS,
    args: &[
        option::CONTAINER,
        option::ONE_FILE,
        ArgRow {
            help: help::RAW_NAMES,
            long_help: help::LONG_RAW_NAMES,
            ..option::RAW
        },
        option::FILE,
        option::DEPTH,
        option::EACH_WORKERS,
        ArgRow {
            long_help: help::EACH_PIECE,
            ..option::PIECE
        },
        option::IGNORE_BOM,
    ],
};

const COUNT: CommandRow = CommandRow {
    name: "count",
    about: help::COUNT,
    after: help::AFTER_COUNT,
    args: &[
        option::CONTAINER,
        option::ONE_FILE,
        option::FILE,
        option::DEPTH,
        option::EACH_WORKERS,
        ArgRow {
            long_help: help::EACH_PIECE,
            ..option::PIECE
        },
        option::IGNORE_BOM,
    ],
};

const SEQ: CommandRow = CommandRow {
    name: "seq",
    about: help::SEQ,
    after: help::AFTER_SEQ,
    args: &[
        option::FILE,
        option::DEPTH,
        ArgRow {
            long_help: help::SEQ_WORKERS,
            ..option::WORKERS
        },
        ArgRow {
            long_help: help::SEQ_PIECE,
            ..option::PIECE
        },
        option::IGNORE_BOM,
        option::UNIQUE_NAMES,
        option::LIVE,
        option::WITH_FILENAME,
        option::QUIET,
        option::FILES,
    ],
};

const LINES: CommandRow = CommandRow {
    name: "lines",
    about: help::LINES,
    after: help::AFTER_LINES,
    args: &[
        option::FILE,
        option::DEPTH,
        ArgRow {
            long_help: help::LINES_WORKERS,
            ..option::WORKERS
        },
        ArgRow {
            long_help: help::LINES_PIECE,
            ..option::PIECE
        },
        option::IGNORE_BOM,
        option::SKIP_BLANK,
        option::WITH_FILENAME,
        option::QUIET,
        option::PASS,
        option::BAD,
        option::MAX,
        ArgRow {
            long_help: help::LONG_LIST_OF_LINES,
            ..option::LIST
        },
        ArgRow {
            long_help: help::LONG_FORMAT_OF_LINES,
            ..option::FORMAT
        },
        option::FILES,
    ],
};

const TEXTS: CommandRow = CommandRow {
    name: "texts",
    about: help::TEXTS,
    after: help::AFTER_TEXTS,
    args: &[
        option::FILE,
        option::DEPTH,
        option::WITH_FILENAME,
        option::QUIET,
        option::FILES,
    ],
};

const SAVE: CommandRow = CommandRow {
    name: "save",
    about: help::SAVE,
    after: help::AFTER_SAVE,
    args: &[
        option::FILE,
        option::DEPTH,
        option::SAVE_WORKERS,
        option::CHUNK,
        option::TABLES,
        option::IGNORE_BOM,
        option::UNIQUE_NAMES,
        option::PROGRESS,
        option::ONE_FILE,
    ],
};

const SPLIT: CommandRow = CommandRow {
    name: "split",
    about: help::SPLIT,
    after: help::AFTER_SPLIT,
    args: &[
        option::SPLIT_INDEX,
        option::TEXT_FILE,
        option::PARTS,
        option::SPLIT_CONTAINER,
    ],
};

const PART: CommandRow = CommandRow {
    name: "part",
    about: help::PART,
    after: help::AFTER_PART,
    args: &[option::FILE, option::PART_FROM, option::DEPTH],
};

const JOIN: CommandRow = CommandRow {
    name: "join",
    about: help::JOIN,
    after: help::AFTER_JOIN,
    args: &[option::FILE, option::DEPTH_OF_RUNS],
};

const WHOLE: CommandRow = CommandRow {
    name: "whole",
    about: help::WHOLE,
    after: help::AFTER_WHOLE,
    args: &[
        option::FILE,
        option::WHOLE_TO,
        option::WHOLE_FROM,
        option::DEPTH_OF_RUNS,
        option::QUIET,
    ],
};

fn check_row() -> CommandRow {
    CHECK
}

fn explain_row() -> CommandRow {
    EXPLAIN
}

fn index_row() -> CommandRow {
    INDEX
}

fn at_row() -> CommandRow {
    AT
}

fn get_row() -> CommandRow {
    GET
}

fn each_row() -> CommandRow {
    EACH
}

fn keys_row() -> CommandRow {
    KEYS
}

fn count_row() -> CommandRow {
    COUNT
}

fn seq_row() -> CommandRow {
    SEQ
}

fn lines_row() -> CommandRow {
    LINES
}

fn texts_row() -> CommandRow {
    TEXTS
}

fn save_row() -> CommandRow {
    SAVE
}

fn split_row() -> CommandRow {
    SPLIT
}

fn part_row() -> CommandRow {
    PART
}

fn join_row() -> CommandRow {
    JOIN
}

fn whole_row() -> CommandRow {
    WHOLE
}

/// The row of a command. Each row is named in a function of its own, which a proof reads without the others.
pub(crate) fn row_of(called: Called) -> CommandRow {
    match called {
        Called::Check => check_row(),
        Called::Explain => explain_row(),
        Called::Index => index_row(),
        Called::At => at_row(),
        Called::Get => get_row(),
        Called::Each => each_row(),
        Called::Keys => keys_row(),
        Called::Count => count_row(),
        Called::Seq => seq_row(),
        Called::Lines => lines_row(),
        Called::Texts => texts_row(),
        Called::Save => save_row(),
        Called::Split => split_row(),
        Called::Part => part_row(),
        Called::Join => join_row(),
        Called::Whole => whole_row(),
    }
}

/// All commands, in the order of the help.
pub(crate) const ALL: [Called; 16] = [
    Called::Check,
    Called::Explain,
    Called::Index,
    Called::At,
    Called::Get,
    Called::Each,
    Called::Keys,
    Called::Count,
    Called::Seq,
    Called::Lines,
    Called::Texts,
    Called::Save,
    Called::Split,
    Called::Part,
    Called::Join,
    Called::Whole,
];

/// The command that a word calls, if it calls one.
pub(crate) fn called_by(word: &str) -> Option<Called> {
    ALL.iter()
        .find(|called| row_of(**called).name == word)
        .copied()
}
