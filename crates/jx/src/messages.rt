// Messages on an input: each is a line of standard error that names it.
ghost use Rattle.std.specs.Prelude.{◌≡◌, false, IfOk};

use crate::fault::Fault;
use crate::input::name_of;
use jx_command::Input;
use jx_ends::{End, write_whole};
use jx_files::write_named;
use jx_words::shown_name;
use std::alloc::AllocError;
use std::io;
use std::io::{BufWriter, ErrorKind, Stderr, Write};

/// Standard error, where each line begins with `jx: `, the name of an input as it is shown, a colon and a space.
#[derive(Drop)]
pub struct Messages {
    errors: End<BufWriter<Stderr>>,
    front: Vec<u8>,
    /// Whether the next byte begins a line.
    starts: bool,
}

/// The writer of messages on an input. A message takes no memory.
pub fn messages_on(rt: &HostRuntime, input: Input<'_>) -> Result<End<Messages>, Fault>
    ensures { IfOk result (λ messages. messages.failed ≡ false) }
{
    let alloc = rt.alloc();
    let mut front = Vec::from_slice(alloc, b"jx: ")?;
    front.extend_from_slice(&shown_name(alloc, name_of(input))?)?;
    front.extend_from_slice(b": ")?;
    let Ok(errors) = BufWriter::new(alloc, rt.stderr()) else {
        return Err(Fault::Memory(AllocError));
    };
    Ok(End::new(Messages {
        errors: End::new(errors),
        front,
        starts: true,
    }))
}

impl Write for Messages {
    fn write(&mut self, buf: &[u8]) -> io::Result<usize> {
        if self.errors.failed {
            return Err(io::Error::from(ErrorKind::Other));
        }
        if write_named(&mut self.errors, &self.front, self.starts, buf).is_err() {
            return Err(io::Error::from(ErrorKind::Other));
        }
        if let Some(last) = buf.last() {
            self.starts = *last == b'\n';
        }
        self.errors.inner.flush()?;
        Ok(buf.len())
    }

    fn flush(&mut self) -> io::Result<()> {
        self.errors.inner.flush()
    }
}

/// An argument as names are shown, so that a message with it is one line.
pub fn shown_word(rt: &HostRuntime, word: &str) -> Result<String, Fault> {
    String::from_utf8(shown_name(rt.alloc(), word)?).map_err(|_| Fault::NotText)
}

/// Reports words on an input, which end their line. The fault says that it was reported.
pub fn tell_words(rt: &HostRuntime, input: Input<'_>, words: &str) -> Result<Fault, Fault> {
    let mut messages = messages_on(rt, input)?;
    let _ = write_whole(&mut messages, words.as_bytes());
    Ok(Fault::Told)
}
