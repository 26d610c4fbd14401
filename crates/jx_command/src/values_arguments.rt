// The words of the subcommand that writes values.
ghost use Rattle.std.specs.Prelude.{◌≤◌, IfOk};

use crate::arg_fault::ArgFault;
use crate::arguments::{piece_of, pointers_of, settings_of};
use crate::options::input_from;
use crate::order::{ByLine, TableForm, TableOrder, ValuesOrder};
use clap::ArgMatches;
use jx_crew::Workers;
use jx_task::ValuesTask;
use std::alloc::Global;

/// The form of rows by the options, if they are of texts.
fn table_form_of(options: &ArgMatches<'_>) -> Option<TableForm> {
    match options.get_str("format") {
        Some("tsv") => Some(TableForm::Tsv),
        Some("csv") => Some(TableForm::Csv),
        _ => None,
    }
}

/// The text that a reader of the form takes for no value where nothing else is said: PostgreSQL's `COPY` does so.
fn none_of(form: TableForm) -> &'static str {
    match form {
        TableForm::Tsv => "\\N",
        TableForm::Csv => "",
    }
}

/// Whether a byte would end a cell or its row, or begin a cell between quotation marks.
fn is_of_rows(byte: u8) -> bool {
    match byte {
        b'\t' | b'\n' | b'\r' | b',' | b'"' => true,
        _ => false,
    }
}

/// Whether a word has such a byte.
fn breaks_rows(word: &str) -> bool {
    for byte in word.as_bytes() {
        if is_of_rows(*byte) {
            return true;
        }
    }
    false
}

/// The table whose rows are written by the options, if there is one.
fn table_from<'a>(options: &ArgMatches<'a>) -> Result<Option<TableOrder<'a>>, ArgFault> {
    let Some(form) = table_form_of(options) else {
        return Ok(None);
    };
    let none = options.get_str("null").unwrap_or(none_of(form));
    if breaks_rows(none) {
        return Err(ArgFault::Null);
    }
    Ok(Some(TableOrder {
        form,
        none,
        has_header: options.get_flag("header"),
    }))
}

/// How the lines of what is read are answered by the options, if they are to be.
fn by_line_from<'a>(options: &ArgMatches<'a>) -> Result<Option<ByLine<'a>>, ArgFault> {
    if !options.get_flag("lines") {
        return Ok(None);
    }
    Ok(Some(ByLine {
        skips_blanks: options.get_flag("skip-blank"),
        table: table_from(options)?,
    }))
}

/// The pointers among the words.
fn words_from(alloc: Global, options: &ArgMatches<'_>) -> Result<Vec<String>, ArgFault> {
    match pointers_of(alloc, options) {
        Ok(pointers) => Ok(pointers),
        Err(_) => Err(ArgFault::Memory),
    }
}

/// The order of its options. The grammar has a number for each option that the words leave out, so that what stands
/// here where there is none is never met.
pub(crate) fn values_order_from<'a>(
    alloc: Global,
    workers: Workers,
    options: &ArgMatches<'a>,
) -> Result<ValuesOrder<'a>, ArgFault>
    ensures { IfOk result (λ order. 1 ≤ order.task.piece) }
{
    Ok(ValuesOrder {
        task: ValuesTask {
            pointers: words_from(alloc, options)?,
            settings: settings_of(options),
            workers,
            piece: piece_of(options).unwrap_or(1),
        },
        input: input_from(options),
        pointers: options.get_str("pointers"),
        index: options.get_str("index"),
        is_compact: options.get_flag("compact"),
        is_raw: options.get_flag("raw"),
        by_line: by_line_from(options)?,
    })
}
