// Values that are looked up in a text by its index.
use crate::fault::Fault;
use crate::input::open;
use crate::look_faults::fault_of_look;
use crate::messages::messages_on;
use crate::output::Output;
use crate::text_file::TextFile;
use jx_cmd_index::report_values_by_index;
use jx_command::Input;
use jx_ends::End;
use jx_files::Status;
use jx_values::Form;

/// Writes the values that pointers lead to in the text of a file, by the index in another one.
pub fn write_values_by_index(
    rt: &HostRuntime,
    index: &str,
    path: &str,
    pointers: &[String],
    form: Form,
) -> Result<Status, Fault> {
    let mut saved = open(rt, Input::File(index))?;
    let mut text = TextFile::open(rt, path)?;
    let mut writer = End::new(Output::of(rt));
    let mut errors = messages_on(rt, Input::File(path))?;
    match report_values_by_index(
        rt.alloc(),
        &mut saved,
        &mut text,
        &mut writer,
        &mut errors,
        pointers,
        form,
    ) {
        Ok(exit) => Ok(Status::of_exit(exit)),
        Err(fault) => Err(fault_of_look(rt, index, path, &saved, &text, &writer, &fault)?),
    }
}
