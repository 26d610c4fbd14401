// The index of a text, which is saved.
ghost use Rattle.std.specs.Prelude.{◌≡◌, false};

use crate::fault::Fault;
use crate::input::{Reader, fault_of_report, open_watched};
use crate::messages::messages_on;
use crate::output::Output;
use crate::shared_file::{save_of_file, share};
use jx_cmd_index::report_index;
use jx_command::SaveOrder;
use jx_ends::End;
use jx_files::Status;
use jx_run::NameRule;
use std::io::IsTerminal;
use std::sync::Wait;
use std::thread::Threads;

/// How many bytes a chunk has at least that a worker reads alone: the states before and after it cost more than a shorter one.
const LEAST_CHUNK: usize = 16 * 1024;

/// Whether several workers of the order may gain: they read chunks without the bytes before them, and know no names.
fn is_shared(order: &SaveOrder<'_>) -> bool {
    order.workers.count() > 1
        && order.chunk.bytes() >= LEAST_CHUNK
        && !order.has_names
        && order.settings.names == NameRule::Any
}

/// Writes the index of an input, as it is read from its start to its end.
fn save_from(rt: &HostRuntime, order: &SaveOrder<'_>, reader: Reader<'_>) -> Result<Status, Fault>
    requires { reader.failed ≡ false }
{
    let mut reader = reader;
    let mut writer = End::new(Output::of(rt));
    let mut errors = messages_on(rt, order.input)?;
    match report_index(
        rt.alloc(),
        &mut reader,
        &mut writer,
        &mut errors,
        &order.settings,
        order.chunk,
        order.has_names,
    ) {
        Ok(exit) => Ok(Status::of_exit(exit)),
        Err(fault) => Err(fault_of_report(rt, order.input, &reader, &writer, fault)),
    }
}

/// Reads what an order names, and writes its index, which is not written to a terminal. A regular file is read at offsets where
/// several workers gain.
pub fn save_index<R: Threads + Wait + Sync>(
    rt: &HostRuntime,
    threads: &R,
    order: &SaveOrder<'_>,
) -> Result<Status, Fault> {
    if rt.stdout().is_terminal() {
        return Err(Fault::TerminalForIndex);
    }
    let reader = open_watched(rt, order.input, order.progress)?;
    if !is_shared(order) {
        return save_from(rt, order, reader);
    }
    match share(reader) {
        Ok(file) => save_of_file(rt, threads, order, &file),
        Err(reader) => save_from(rt, order, reader),
    }
}
