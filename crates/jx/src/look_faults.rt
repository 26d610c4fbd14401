// The report where a look-up by an index has no answer.
use crate::fault::Fault;
use crate::input::{Reader, told_of};
use crate::messages::tell_words;
use crate::output::{Writer, fault_of_write};
use crate::text_file::TextFile;
use jx_cmd_index::LookFault;
use jx_command::Input;
use jx_files::FileFault;
use std::alloc::AllocError;

/// Reports what is wrong with a file.
fn told_of_file(rt: &HostRuntime, path: &str, fault: &LookFault) -> Result<Fault, Fault> {
    let alloc = rt.alloc();
    let words = format!(in alloc; "{fault}\n")?;
    tell_words(rt, Input::File(path), words.as_str())
}

/// The fault of a look-up. That of a file is reported.
pub fn fault_of_look(
    rt: &HostRuntime,
    index: &str,
    path: &str,
    saved: &Reader<'_>,
    text: &TextFile,
    writer: &Writer,
    fault: &LookFault,
) -> Result<Fault, Fault> {
    match fault {
        LookFault::SavedRead => {
            let why = FileFault::Read(saved.inner.why);
            Ok(told_of(rt, Input::File(index), why))
        }
        LookFault::TextRead => Ok(told_of(rt, Input::File(path), FileFault::Read(text.why))),
        LookFault::Write => Ok(fault_of_write(writer)),
        LookFault::Memory => Err(Fault::Memory(AllocError)),
        LookFault::Saved(_) | LookFault::NoText => told_of_file(rt, index, fault),
        LookFault::OtherSize { .. } | LookFault::Changed(_) => told_of_file(rt, path, fault),
    }
}
