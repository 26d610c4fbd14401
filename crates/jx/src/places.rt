// Pointers that are looked up in a text by its index.
use crate::fault::Fault;
use crate::input::open;
use crate::look_faults::fault_of_look;
use crate::output::Output;
use crate::text_file::TextFile;
use jx_cmd_index::report_places;
use jx_command::Input;
use jx_ends::End;
use jx_files::Status;

/// Writes where pointers lead in the text of a file, by the index in another one.
pub fn write_places(
    rt: &HostRuntime,
    index: &str,
    path: &str,
    pointers: &[String],
) -> Result<Status, Fault> {
    let mut saved = open(rt, Input::File(index))?;
    let mut text = TextFile::open(rt, path)?;
    let mut writer = End::new(Output::of(rt));
    match report_places(rt.alloc(), &mut saved, &mut text, &mut writer, pointers) {
        Ok(exit) => Ok(Status::of_exit(exit)),
        Err(fault) => Err(fault_of_look(rt, index, path, &saved, &text, &writer, &fault)?),
    }
}
