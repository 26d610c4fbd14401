// The file whose lines are arguments.
ghost use Rattle.std.specs.Prelude.{◌≡◌};

use crate::fault::Fault;
use crate::input::{open, told_of};
use jx_command::Input;
use jx_files::{FileFault, Reason};
use jx_task::Command;
use std::alloc::{AllocError, Global};
use std::io::{ErrorKind, Read};

/// Adds the lines of FILE to the pointers that a command asks for, where one is named.
pub fn add_lines(rt: &HostRuntime, command: &mut Command, file: Option<&str>) -> Result<(), Fault>
    ensures piece { command.new.piece ≡ command.old.piece }
{
    match file {
        None => Ok(()),
        Some(path) => {
            let lines = text_of(rt, path)?;
            command.add_pointers(rt.alloc(), lines.as_str())?;
            Ok(())
        }
    }
}

/// The bytes, where each line that ends with a carriage return and a line feed ends with the line feed alone.
fn with_line_feeds(alloc: Global, bytes: &[u8]) -> Result<Vec<u8>, AllocError> {
    let mut all = Vec::new(alloc);
    for byte in bytes {
        if *byte == b'\n' && all.last() == Some(&b'\r') {
            all.pop();
        }
        all.push(*byte)?;
    }
    Ok(all)
}

/// All bytes of FILE. The faults are those of the input's FILE.
fn bytes_of(rt: &HostRuntime, path: &str) -> Result<Vec<u8>, Fault> {
    let file = Input::File(path);
    let mut bytes = Vec::new(rt.alloc());
    let mut reader = open(rt, file)?;
    match reader.inner.read_to_end(&mut bytes) {
        Ok(_) => Ok(bytes),
        Err(error) if error.kind() == ErrorKind::OutOfMemory => Err(Fault::Memory(AllocError)),
        Err(error) => Err(told_of(rt, file, FileFault::Read(Reason::of(&error)))),
    }
}

/// The text of FILE, whose lines end with line feeds. The faults are those of the input's FILE, and that of a word that is no
/// text.
pub fn text_of(rt: &HostRuntime, path: &str) -> Result<String, Fault> {
    let bytes = bytes_of(rt, path)?;
    let lines = with_line_feeds(rt.alloc(), &bytes)?;
    String::from_utf8(lines).map_err(|_| Fault::NotText)
}
