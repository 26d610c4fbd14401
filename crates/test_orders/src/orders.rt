// All that an order asks for, in one line.
use jx_command::{
    ByLine, EachForm, EachOrder, Input, Inputs, LinesOrder, LiveOrder, Order, PartsOrder,
    PartsStep, PassOrder, Request, SaveOrder, ShowProgress, SplitOrder, TableForm, TableOrder,
    TellAccepted, Told, ValuesOrder,
};
use jx_crew::Workers;
use jx_run::Settings;
use jx_task::{Command, Task};
use test_words::{Out, push_text};

/// All that an order asks for.
pub fn push_order(out: &mut Out, order: &Order<'_>) {
    match order {
        Order::Report(request) => push_request(out, request),
        Order::Parts(order) => push_parts(out, order),
        Order::Values(order) => push_values(out, order),
        Order::Each(order) => push_each(out, order),
        Order::Lines(order) => push_lines(out, order),
        Order::Live(order) => push_live(out, "seq, live", order),
        Order::Texts(order) => push_live(out, "texts", order),
        Order::Save(order) => push_save(out, order),
        Order::Split(order) => push_split(out, order),
    }
}

/// A task's word, and its pointers.
pub fn push_task(out: &mut Out, task: &Task) {
    match task {
        Task::Check => out.push_str("check"),
        Task::Index => out.push_str("index"),
        Task::Seq => out.push_str("seq"),
        Task::At(pointers) => push_pointers(out, "at", pointers),
    }
}

/// A name, and pointers after it.
pub fn push_pointers(out: &mut Out, name: &str, pointers: &[String]) {
    out.push_str(name);
    for pointer in pointers {
        push_file(out, " ", pointer.as_str());
    }
}

fn push_settings(out: &mut Out, settings: &Settings) {
    let (depth, mark, names) = (settings.depth.containers(), settings.mark, settings.names);
    out.put(format_args!("; depth {depth}, mark {mark:?}, names {names:?}"));
}

fn push_file(out: &mut Out, name: &str, file: &str) {
    out.push_str(name);
    push_text(out, file.as_bytes());
}

fn push_request(out: &mut Out, request: &Request) {
    let command: &Command = &request.command;
    push_task(out, &command.task);
    push_settings(out, &command.settings);
    push_workers(out, command.workers, command.piece);
    if command.quiet {
        out.push_str(", quiet");
    }
    push_inputs(out, &request.inputs);
    push_told(out, request.told);
    push_progress(out, request.progress);
    push_files_of(out, request.pointers, request.index);
}

/// The files of pointers and of an index, if they are given.
fn push_files_of(out: &mut Out, pointers: Option<&str>, index: Option<&str>) {
    if let Some(file) = pointers {
        push_file(out, "; pointers ", file);
    }
    if let Some(file) = index {
        push_file(out, "; index ", file);
    }
}

fn push_workers(out: &mut Out, workers: Workers, piece: usize) {
    let count = workers.count();
    out.put(format_args!(", workers {count}, piece {piece}"));
}

/// The table whose rows are written, if there is one.
fn push_table(out: &mut Out, table: Option<TableOrder>) {
    let Some(table) = table else {
        return;
    };
    match table.form {
        TableForm::Tsv => push_file(out, ", tsv, null ", table.none),
        TableForm::Csv => push_file(out, ", csv, null ", table.none),
    }
    if table.has_header {
        out.push_str(", header");
    }
}

/// How lines are answered, if they are.
fn push_by_line(out: &mut Out, by_line: Option<ByLine>) {
    let Some(by_line) = by_line else {
        return;
    };
    out.push_str(", by line");
    if by_line.skips_blanks {
        out.push_str(", skip blank");
    }
    push_table(out, by_line.table);
}

fn push_values(out: &mut Out, order: &ValuesOrder) {
    push_pointers(out, "get", &order.task.pointers);
    push_settings(out, &order.task.settings);
    push_workers(out, order.task.workers, order.task.piece);
    if order.is_compact {
        out.push_str(", compact");
    }
    if order.is_raw {
        out.push_str(", raw");
    }
    push_by_line(out, order.by_line);
    push_inputs(out, &Inputs::One(order.input));
    push_files_of(out, order.pointers, order.index);
}

fn push_each(out: &mut Out, order: &EachOrder) {
    let command = match order.form {
        EachForm::Values | EachForm::Members => "each ",
        EachForm::Names | EachForm::NameTexts => "keys ",
        EachForm::Count => "count ",
    };
    push_file(out, command, order.pointer);
    push_settings(out, &order.settings);
    push_workers(out, order.workers, order.piece);
    if order.form == EachForm::Members {
        out.push_str(", names");
    }
    if order.form == EachForm::NameTexts {
        out.push_str(", raw");
    }
    push_inputs(out, &Inputs::One(order.input));
    push_progress(out, order.progress);
}

/// Writes whether progress is shown, and nothing where it is not.
fn push_progress(out: &mut Out, progress: ShowProgress) {
    match progress {
        ShowProgress::Auto => out.push_str("; progress auto"),
        ShowProgress::Always => out.push_str("; progress always"),
        ShowProgress::Never => (),
    }
}

fn push_lines(out: &mut Out, order: &LinesOrder) {
    out.push_str("lines");
    push_settings(out, &order.settings);
    if order.skips_blanks {
        out.push_str(", skip blank");
    }
    if order.is_quiet {
        out.push_str(", quiet");
    }
    push_inputs(out, &order.inputs);
    push_told(out, order.told);
    push_pass(out, order.pass);
}

/// Writes where the report goes while lines pass, and nothing where none pass.
fn push_pass(out: &mut Out, pass: Option<PassOrder>) {
    let Some(pass) = pass else {
        return;
    };
    out.push_str("; pass");
    if let Some(report) = pass.report {
        push_file(out, ", report to ", report);
    }
}

fn push_live(out: &mut Out, name: &str, order: &LiveOrder) {
    out.push_str(name);
    push_settings(out, &order.settings);
    if order.is_quiet {
        out.push_str(", quiet");
    }
    push_inputs(out, &order.inputs);
}

fn push_save(out: &mut Out, order: &SaveOrder) {
    out.push_str("save");
    push_settings(out, &order.settings);
    out.put(format_args!(", chunk {}", order.chunk.bytes()));
    if order.has_names {
        out.push_str(", with names");
    }
    push_inputs(out, &Inputs::One(order.input));
    push_progress(out, order.progress);
}

fn push_split(out: &mut Out, order: &SplitOrder) {
    push_file(out, "split ", order.pointer);
    out.put(format_args!(", parts {}", order.parts));
    push_file(out, "; file ", order.file);
    push_file(out, "; index ", order.index);
}

fn push_parts(out: &mut Out, order: &PartsOrder) {
    match order.step {
        PartsStep::Part { from: None } => out.push_str("part"),
        PartsStep::Part { from: Some(from) } => out.put(format_args!("part from {from}")),
        PartsStep::Join => out.push_str("join"),
        PartsStep::Whole { from, to, quiet } => {
            out.put(format_args!("whole {from}..{to}"));
            if quiet {
                out.push_str(", quiet");
            }
        }
    }
    out.put(format_args!("; depth {}", order.depth.containers()));
    push_inputs(out, &Inputs::One(order.input));
}

/// The files that are read, and nothing for standard input alone.
fn push_inputs(out: &mut Out, inputs: &Inputs) {
    match inputs {
        Inputs::One(Input::Standard) => (),
        Inputs::One(Input::File(file)) => push_file(out, "; file ", *file),
        Inputs::Several(words) => {
            out.push_str("; files");
            for word in words {
                push_file(out, " ", *word);
            }
        }
    }
}

fn push_told(out: &mut Out, told: Told) {
    match told {
        Told::Lines => (),
        Told::Refused => out.push_str("; refused ones"),
        Told::Marks => out.push_str("; marks"),
        Told::Objects => out.push_str("; objects"),
        Told::Explained(color, accepted) => {
            out.put(format_args!("; explained, color {color:?}"));
            out.push_str(match accepted {
                TellAccepted::Several => "",
                TellAccepted::Always => ", accepted ones",
                TellAccepted::Never => ", refused ones",
            });
        }
    }
}
