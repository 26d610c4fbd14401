// Line feeds are counted, and none is kept.
ghost use Rattle.std.specs.Prelude.{◌≡◌, ◌++◌, IfSome};
ghost use Rattle.jx_values.specs.inside.Tally.{all_line_feeds, line_feeds};

use std::io;
use std::io::Write;

/// A writer that takes line feeds alone, and counts them.
#[derive(Debug, Drop)]
pub(crate) struct Tally {
    pub count: usize,
}

/// Whether each byte is a line feed.
fn all_line_feeds(bytes: &[u8]) -> bool
    ensures { result ≡ all_line_feeds bytes.now }
{
    for byte in bytes {
        if *byte != b'\n' {
            return false;
        }
    }
    true
}

/// How many line feeds there are with these bytes, where each of them is one and a number can say so.
fn count_with(count: usize, bytes: &[u8]) -> Option<usize>
    ensures { IfSome result (λ more. line_feeds more ≡ line_feeds count ++ bytes.now) }
{
    if all_line_feeds(bytes) {
        count.checked_add(bytes.len())
    } else {
        None
    }
}

impl Write for Tally {
    ghost use Rattle.std.specs.Prelude.{Some};
    ghost use Rattle.jx_values.specs.inside.Tally.{line_feeds};

    ghost contents = { λ tally. Some (line_feeds tally.count) };

    fn write(&mut self, buf: &[u8]) -> io::Result<usize> {
        match count_with(self.count, buf) {
            Some(count) => {
                self.count = count;
                Ok(buf.len())
            }
            None => Err(io::Error::from(io::ErrorKind::InvalidData)),
        }
    }

    fn flush(&mut self) -> io::Result<()> {
        Ok(())
    }
}
