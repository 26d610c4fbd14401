// A text that is read at offsets.
ghost use Rattle.std.specs.Prelude.{◌≡◌, false, IfOk};

use crate::fault::Fault;
use crate::input::{file_of, told_of};
use jx_cmd_index::ReadAt;
use jx_command::Input;
use jx_files::{FileFault, Reason};
use std::alloc::AllocError;
use std::fs::File;
use std::io;
use std::os::unix::fs::FileExt;

/// A file that is open, its size, and why the last read of it failed, if it failed.
#[derive(Drop)]
pub struct TextFile {
    file: File,
    size: usize,
    pub why: Reason,
    failed: bool,
}

impl TextFile {
    /// Opens a file, or reports why it does not open. What is no regular file has no byte.
    pub fn open(rt: &HostRuntime, path: &str) -> Result<TextFile, Fault>
        ensures { IfOk result (λ file. file.failed ≡ false) }
    {
        match file_of(rt, path) {
            Ok(file) => {
                let size = match file.metadata() {
                    Ok(found) if found.is_file() => found.len() as usize,
                    _ => 0,
                };
                Ok(TextFile {
                    file,
                    size,
                    why: Reason::Other,
                    failed: false,
                })
            }
            Err(FileFault::Memory) => Err(Fault::Memory(AllocError)),
            Err(fault) => Err(told_of(rt, Input::File(path), fault)),
        }
    }
}

impl ReadAt for TextFile {
    ghost use Rattle.std.specs.Prelude.{None};

    // Nothing is known of the bytes of a file.
    ghost content = { λ _. None };

    ghost has_failed = { λ file. file.failed };

    fn size(&self) -> usize {
        self.size
    }

    fn read_at(&mut self, buf: &mut [u8], offset: usize) -> io::Result<usize> {
        let result = self.file.read_at(buf, offset as u64);
        if let Err(error) = &result {
            self.failed = true;
            self.why = Reason::of(error);
        }
        result
    }

    fn failed(&self) -> bool {
        self.failed
    }
}
