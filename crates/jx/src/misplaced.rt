// Arguments in the place of a pointer that are not one, or may be a file.
use crate::fault::Fault;
use crate::input::told_of;
use crate::messages::shown_word;
use jx_command::{Input, Inputs};
use jx_files::FileFault;
use jx_index::{Pointer, PointerFault};
use jx_task::Task;
use std::fs;

/// Refuses arguments for pointers one of which is not a pointer, before anything is read. Mostly it is the name of a file.
pub fn refuse_misplaced(rt: &HostRuntime, words: &[String]) -> Result<(), Fault> {
    for word in words {
        match Pointer::read(word.as_str()) {
            Ok(_) => (),
            Err(PointerFault::NoSlash) => {
                let file = Input::File(word.as_str());
                return Err(told_of(rt, file, FileFault::NoPointer));
            }
            Err(fault) => {
                return Err(Fault::Misspelt(shown_word(rt, word.as_str())?, fault));
            }
        }
    }
    Ok(())
}

/// Refuses the same, where the task is to look pointers up.
pub fn refuse_misplaced_in(
    rt: &HostRuntime,
    inputs: &Inputs<'_>,
    task: &Task,
) -> Result<(), Fault> {
    match (inputs, task) {
        (Inputs::One(_), Task::At(words)) => refuse_misplaced(rt, words),
        _ => Ok(()),
    }
}

/// Refuses a word that is a pointer and names a file, where standard input would be read: the file may be meant.
pub fn refuse_path(rt: &HostRuntime, input: Input<'_>, pointer: &str) -> Result<(), Fault> {
    if !matches!(input, Input::Standard) || !pointer.starts_with('/') {
        return Ok(());
    }
    match fs::metadata(rt, pointer) {
        Ok(found) if found.is_file() => Err(told_of(
            rt,
            Input::File(pointer),
            FileFault::PointerOrFile,
        )),
        _ => Ok(()),
    }
}
