// The parts of a container, by the index of its text.
use crate::fault::Fault;
use crate::input::open;
use crate::look_faults::fault_of_look;
use crate::messages::messages_on;
use crate::output::Output;
use crate::text_file::TextFile;
use jx_cmd_index::report_parts;
use jx_command::{Input, SplitOrder};
use jx_ends::End;
use jx_files::Status;

/// Writes the parts of the container that a pointer leads to in the text of a file, by the index in another one.
pub fn write_parts(rt: &HostRuntime, order: &SplitOrder<'_>) -> Result<Status, Fault> {
    let SplitOrder { index, file, .. } = *order;
    let mut saved = open(rt, Input::File(index))?;
    let mut text = TextFile::open(rt, file)?;
    let mut writer = End::new(Output::of(rt));
    let mut errors = messages_on(rt, Input::File(file))?;
    match report_parts(
        rt.alloc(),
        &mut saved,
        &mut text,
        &mut writer,
        &mut errors,
        order.pointer,
        order.parts,
    ) {
        Ok(exit) => Ok(Status::of_exit(exit)),
        Err(fault) => Err(fault_of_look(rt, index, file, &saved, &text, &writer, &fault)?),
    }
}
