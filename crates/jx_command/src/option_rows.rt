// The options and words of the commands.
use crate::arg_row::{ArgRow, Form, Rule};
use crate::help;
use crate::worker_count::AUTO;
use clap::builder::ValueParser;

/// When output for people has colors, and when progress is shown.
const WHEN: &[&str] = &["auto", "always", "never"];

/// How a check answers.
const FORMATS: &[&str] = &["plain", "gnu", "json"];

/// How the texts of a row are separated and escaped.
const TABLE_FORMS: &[&str] = &["tsv", "csv"];

/// Where a part begins at most, which is the greatest offset of a file. So bytes of a part have offsets below 2^64.
const GREATEST_FROM: u64 = 9_223_372_036_854_775_807;

/// How many parts there may be.
pub(crate) const MOST_PARTS: u64 = 65_536;

pub(crate) const FILE: ArgRow = ArgRow {
    name: "file",
    form: Form::Option("FILE"),
    help: help::FILE,
    long_help: help::LONG_FILE,
    rules: &[Rule::Short('f'), Rule::AnyWord],
};

/// The file of a text whose index is given.
pub(crate) const TEXT_FILE: ArgRow = ArgRow {
    help: help::TEXT_FILE,
    long_help: help::LONG_TEXT_FILE,
    rules: &[Rule::Short('f'), Rule::AnyWord, Rule::Required],
    ..FILE
};

/// The inputs that are read, as words.
pub(crate) const FILES: ArgRow = ArgRow {
    name: "files",
    form: Form::Word("FILE"),
    help: help::FILES,
    long_help: help::LONG_FILES,
    rules: &[Rule::Several, Rule::Conflicts(&["file"])],
};

/// The input that is read, as one word.
pub(crate) const ONE_FILE: ArgRow = ArgRow {
    form: Form::Word("FILE"),
    help: help::ONE_FILE,
    long_help: help::LONG_ONE_FILE,
    rules: &[Rule::Conflicts(&["file"])],
    ..FILES
};

pub(crate) const WITH_FILENAME: ArgRow = ArgRow {
    name: "with-filename",
    form: Form::Flag,
    help: help::WITH_FILENAME,
    long_help: help::LONG_WITH_FILENAME,
    rules: &[Rule::Short('H')],
};

pub(crate) const COLOR: ArgRow = ArgRow {
    name: "color",
    form: Form::Option("WHEN"),
    help: help::COLOR,
    long_help: help::LONG_COLOR,
    rules: &[
        Rule::Parsed(ValueParser::Names(WHEN)),
        Rule::Default("auto"),
    ],
};

/// Whether accepted texts are reported too.
pub(crate) const VERBOSE: ArgRow = ArgRow {
    name: "verbose",
    form: Form::Flag,
    help: help::VERBOSE,
    long_help: help::LONG_VERBOSE,
    rules: &[Rule::Short('v')],
};

/// Whether refused texts alone are reported.
pub(crate) const REFUSED: ArgRow = ArgRow {
    name: "refused",
    form: Form::Flag,
    help: help::REFUSED,
    long_help: help::LONG_REFUSED,
    rules: &[Rule::Conflicts(&["verbose"])],
};

pub(crate) const DEPTH: ArgRow = ArgRow {
    name: "depth",
    form: Form::Option("N"),
    help: help::DEPTH,
    long_help: help::LONG_DEPTH,
    rules: &[
        Rule::Parsed(ValueParser::Signed(0, 65_535)),
        Rule::Default("512"),
    ],
};

pub(crate) const DEPTH_OF_RUNS: ArgRow = ArgRow {
    long_help: help::LONG_DEPTH_OF_RUNS,
    ..DEPTH
};

/// Among how many workers. Each command says what they share.
pub(crate) const WORKERS: ArgRow = ArgRow {
    name: "workers",
    form: Form::Option("N"),
    help: help::WORKERS,
    long_help: "",
    rules: &[Rule::Default(AUTO)],
};

/// One worker makes the lines of elements in less processor time, and mostly in less time.
pub(crate) const EACH_WORKERS: ArgRow = ArgRow {
    long_help: help::READ_WORKERS,
    rules: &[Rule::Default("1")],
    ..WORKERS
};

/// One worker saves an index in less processor time, and mostly in less time.
pub(crate) const SAVE_WORKERS: ArgRow = ArgRow {
    long_help: help::SAVE_WORKERS,
    rules: &[Rule::Default("1")],
    ..WORKERS
};

/// The size of a chunk. Each command says what chunks are.
pub(crate) const PIECE: ArgRow = ArgRow {
    name: "piece",
    form: Form::Option("N"),
    help: help::PIECE,
    long_help: "",
    rules: &[
        Rule::Parsed(ValueParser::Unsigned(1, 1_073_741_824)),
        Rule::Default("65536"),
    ],
};

/// The same where one worker reads.
pub(crate) const BOUNDING_PIECE: ArgRow = ArgRow {
    long_help: help::BOUNDING_PIECE,
    ..PIECE
};

pub(crate) const IGNORE_BOM: ArgRow = ArgRow {
    name: "ignore-bom",
    form: Form::Flag,
    help: help::IGNORE_BOM,
    long_help: help::LONG_IGNORE_BOM,
    rules: &[],
};

pub(crate) const UNIQUE_NAMES: ArgRow = ArgRow {
    name: "unique-names",
    form: Form::Flag,
    help: help::UNIQUE_NAMES,
    long_help: help::LONG_UNIQUE_NAMES,
    rules: &[],
};

pub(crate) const QUIET: ArgRow = ArgRow {
    name: "quiet",
    form: Form::Flag,
    help: help::QUIET,
    long_help: help::LONG_QUIET,
    rules: &[Rule::Short('q')],
};

pub(crate) const LIST: ArgRow = ArgRow {
    name: "list",
    form: Form::Flag,
    help: help::LIST,
    long_help: help::LONG_LIST,
    rules: &[Rule::Short('l'), Rule::Conflicts(&["quiet"])],
};

pub(crate) const FORMAT: ArgRow = ArgRow {
    name: "format",
    form: Form::Option("FORMAT"),
    help: help::FORMAT,
    long_help: help::LONG_FORMAT,
    rules: &[
        Rule::Parsed(ValueParser::Names(FORMATS)),
        Rule::Default("plain"),
        Rule::Conflicts(&["list", "quiet"]),
    ],
};

pub(crate) const PROGRESS: ArgRow = ArgRow {
    name: "progress",
    form: Form::Option("WHEN"),
    help: help::PROGRESS,
    long_help: help::LONG_PROGRESS,
    rules: &[
        Rule::Parsed(ValueParser::Names(WHEN)),
        Rule::Default("never"),
    ],
};

pub(crate) const COMPACT: ArgRow = ArgRow {
    name: "compact",
    form: Form::Flag,
    help: help::COMPACT,
    long_help: help::LONG_COMPACT,
    rules: &[Rule::Short('c')],
};

pub(crate) const RAW: ArgRow = ArgRow {
    name: "raw",
    form: Form::Flag,
    help: help::RAW,
    long_help: help::LONG_RAW,
    rules: &[Rule::Short('r')],
};

/// Whether each line of what is read is a text of its own.
pub(crate) const BY_LINE: ArgRow = ArgRow {
    name: "lines",
    form: Form::Flag,
    help: help::BY_LINE,
    long_help: help::LONG_BY_LINE,
    rules: &[Rule::Conflicts(&["raw", "unique-names"])],
};

pub(crate) const SKIP_BLANK: ArgRow = ArgRow {
    name: "skip-blank",
    form: Form::Flag,
    help: help::SKIP_BLANK,
    long_help: help::LONG_SKIP_BLANK,
    rules: &[],
};

pub(crate) const PASS: ArgRow = ArgRow {
    name: "pass",
    form: Form::Flag,
    help: help::PASS,
    long_help: help::LONG_PASS,
    rules: &[Rule::Conflicts(&["quiet", "list"])],
};

pub(crate) const BAD: ArgRow = ArgRow {
    name: "bad",
    form: Form::Option("FILE"),
    help: help::BAD,
    long_help: help::LONG_BAD,
    rules: &[Rule::Needs(&["pass"])],
};

/// How many refused lines are reported of an input, at most.
pub(crate) const MAX: ArgRow = ArgRow {
    name: "max",
    form: Form::Option("N"),
    help: help::MAX,
    long_help: help::LONG_MAX,
    rules: &[
        Rule::Parsed(ValueParser::Unsigned(1, u64::MAX)),
        Rule::Conflicts(&["quiet", "list", "pass"]),
    ],
};

/// The same where lines are answered beside whole texts.
pub(crate) const SKIP_BLANK_BY_LINE: ArgRow = ArgRow {
    rules: &[Rule::Needs(&["lines"])],
    ..SKIP_BLANK
};

/// Whether the values of a line are texts in the cells of a row.
pub(crate) const TABLE: ArgRow = ArgRow {
    name: "format",
    form: Form::Option("FORMAT"),
    help: help::TABLE,
    long_help: help::LONG_TABLE,
    rules: &[
        Rule::Parsed(ValueParser::Names(TABLE_FORMS)),
        Rule::Needs(&["lines"]),
    ],
};

pub(crate) const HEADER: ArgRow = ArgRow {
    name: "header",
    form: Form::Flag,
    help: help::HEADER,
    long_help: help::LONG_HEADER,
    rules: &[Rule::Needs(&["format"])],
};

pub(crate) const NULL: ArgRow = ArgRow {
    name: "null",
    form: Form::Option("WORD"),
    help: help::NULL,
    long_help: help::LONG_NULL,
    rules: &[Rule::AnyWord, Rule::Needs(&["format"])],
};

pub(crate) const POINTERS: ArgRow = ArgRow {
    name: "pointer",
    form: Form::Word("POINTER"),
    help: help::POINTER,
    long_help: help::LONG_POINTER,
    rules: &[Rule::Several, Rule::Unless(&["pointers"])],
};

pub(crate) const POINTERS_FILE: ArgRow = ArgRow {
    name: "pointers",
    form: Form::Option("FILE"),
    help: help::POINTERS,
    long_help: help::LONG_POINTERS,
    rules: &[Rule::AnyWord],
};

/// The pointer to the container whose elements are written.
pub(crate) const CONTAINER: ArgRow = ArgRow {
    name: "pointer",
    form: Form::Word("POINTER"),
    help: help::CONTAINER,
    long_help: help::LONG_CONTAINER,
    rules: &[],
};

/// The pointer to the container that is split.
pub(crate) const SPLIT_CONTAINER: ArgRow = ArgRow {
    help: help::SPLIT_CONTAINER,
    long_help: help::LONG_SPLIT_CONTAINER,
    ..CONTAINER
};

/// Whether members are written with their names.
pub(crate) const NAMES: ArgRow = ArgRow {
    name: "names",
    form: Form::Flag,
    help: help::NAMES,
    long_help: help::LONG_NAMES,
    rules: &[],
};

/// Whether tables of names follow an index.
pub(crate) const TABLES: ArgRow = ArgRow {
    help: help::TABLES,
    long_help: help::LONG_TABLES,
    ..NAMES
};

/// The index of the text that is read, which says how it is read.
pub(crate) const INDEX: ArgRow = ArgRow {
    name: "index",
    form: Form::Option("FILE"),
    help: help::INDEX_FILE,
    long_help: help::LONG_INDEX_FILE,
    rules: &[Rule::AnyWord],
};

/// The index without which nothing is split.
pub(crate) const SPLIT_INDEX: ArgRow = ArgRow {
    rules: &[Rule::AnyWord, Rule::Required],
    ..INDEX
};

/// The index where options say how a text without one is read.
pub(crate) const AT_INDEX: ArgRow = ArgRow {
    rules: &[
        Rule::AnyWord,
        Rule::Conflicts(&["depth", "ignore-bom", "unique-names"]),
        Rule::Needs(&["file"]),
    ],
    ..INDEX
};

/// The same where lines may be answered.
pub(crate) const GET_INDEX: ArgRow = ArgRow {
    rules: &[
        Rule::AnyWord,
        Rule::Conflicts(&["depth", "ignore-bom", "unique-names", "lines"]),
        Rule::Needs(&["file"]),
    ],
    ..AT_INDEX
};

pub(crate) const LIVE: ArgRow = ArgRow {
    name: "live",
    form: Form::Flag,
    help: help::LIVE,
    long_help: help::LONG_LIVE,
    rules: &[Rule::Conflicts(&["unique-names"])],
};

pub(crate) const CHUNK: ArgRow = ArgRow {
    name: "chunk",
    form: Form::Option("N"),
    help: help::CHUNK,
    long_help: help::LONG_CHUNK,
    rules: &[
        Rule::Parsed(ValueParser::Unsigned(64, 1_048_576)),
        Rule::Default("32768"),
    ],
};

/// How many parts a container is split into.
pub(crate) const PARTS: ArgRow = ArgRow {
    name: "parts",
    form: Form::Option("N"),
    help: help::PARTS,
    long_help: help::LONG_PARTS,
    rules: &[
        Rule::Parsed(ValueParser::Unsigned(1, MOST_PARTS)),
        Rule::Required,
    ],
};

/// Where a part begins.
pub(crate) const PART_FROM: ArgRow = ArgRow {
    name: "from",
    form: Form::Option("N"),
    help: help::PART_FROM,
    long_help: help::LONG_PART_FROM,
    rules: &[Rule::Parsed(ValueParser::Unsigned(0, GREATEST_FROM))],
};

/// Where a text in parts begins.
pub(crate) const WHOLE_FROM: ArgRow = ArgRow {
    name: "from",
    form: Form::Option("N"),
    help: help::WHOLE_FROM,
    long_help: help::LONG_WHOLE_FROM,
    rules: &[
        Rule::Parsed(ValueParser::Unsigned(0, u64::MAX)),
        Rule::Default("0"),
    ],
};

/// Where a text in parts ends.
pub(crate) const WHOLE_TO: ArgRow = ArgRow {
    name: "to",
    form: Form::Option("N"),
    help: help::WHOLE_TO,
    long_help: help::LONG_WHOLE_TO,
    rules: &[
        Rule::Parsed(ValueParser::Unsigned(0, u64::MAX)),
        Rule::Required,
    ],
};
