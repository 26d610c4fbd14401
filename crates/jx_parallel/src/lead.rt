// The reader that follows the text from its start.
ghost use Rattle.std.specs.Prelude.{◌≡◌, ◌<◌, ◌+◌, ◌^◌, ◌↔◌, IfOk, IfSome, IsTrue, length};
ghost use Rattle.jx_run.specs.Reader.{IsInFront};
ghost use Rattle.jx_parallel.specs.Verdict.{IsVerdictOn};
ghost use Rattle.jx_parallel.specs.inside.Lead.{FollowsLead, IsLead, IsVerdictOnFirst};
ghost use Rattle.jx_parallel.specs.Offsets.{StandThere};

use crate::kept::Kept;
use crate::known::Known;
use jx_run::{Reader, Settings, Verdict, reader_and_grammar, unique_verdict_by_settings};
use std::alloc::{AllocError, Global};
use std::marker::{Model, PhantomData};

/// The reader that has read the text that the type names, from its start.
#[derive(Drop)]
pub(crate) struct Lead<K: Known> {
    reader: Reader,
    of: PhantomData<K>,
}

impl<K: Known> Model for Lead<K> {
    ghost use Rattle.jx_run.specs.Reader.{ReaderValue};
    ghost use Rattle.jx_parallel.specs.inside.Lead.{IsLead};

    ghost Value = { ReaderValue };

    ghost view = { λ l. l.reader };

    ghost invariant = { λ l. IsLead K.text K.settings l.reader };
}

impl<K: Known> Lead<K> {
    /// A lead that has read nothing yet.
    pub fn new(alloc: Global, settings: &Settings) -> Lead<K>
        requires { settings.now ≡ K.settings }
        ensures { result.count ≡ 0 }
    {
        Lead {
            reader: Reader::new(alloc, settings, 0),
            of: PhantomData,
        }
    }

    /// The number of bytes that it has read.
    pub fn end(&self) -> usize
        ensures { result ≡ self.now.count }
    {
        self.reader.end()
    }

    /// Whether a byte order mark may begin or go on with the next byte.
    pub fn is_in_front(&self) -> bool
        ensures { IsTrue result ↔ IsInFront self.now }
    {
        self.reader.is_in_front()
    }

    /// The verdict on the whole text, where a fault was met: no byte after it changes that.
    pub fn decided(&self) -> Option<Verdict>
        ensures { IfSome result (IsVerdictOn K.text K.settings) }
    {
        reader_and_grammar();
        unique_verdict_by_settings();
        if !self.reader.is_done() {
            return None;
        }
        Some(self.reader.verdict())
    }

    /// Reads the bytes after all that it has read. It is also out of memory where the last of them has no offset.
    pub fn feed(self, bytes: &[u8]) -> Result<Lead<K>, AllocError>
        requires { StandThere K.text self.count bytes.now }
    {
        let Lead { mut reader, of: _ } = self;
        if bytes.len() >= usize::MAX - reader.end() {
            return Err(AllocError);
        }
        reader.feed(bytes)?;
        Ok(Lead {
            reader,
            of: PhantomData,
        })
    }

    /// Follows the run of the bytes that stand there.
    pub fn follow(self, kept: &Kept<K>) -> Result<Lead<K>, AllocError>
        requires { FollowsLead self kept.now }
    {
        let Lead { mut reader, of: _ } = self;
        reader.follow(kept.run())?;
        Ok(Lead {
            reader,
            of: PhantomData,
        })
    }

    /// The verdict on all that it has read.
    pub fn verdict(&self) -> Verdict
        ensures { IsVerdictOnFirst K.text K.settings self.now.count result }
    {
        self.reader.verdict()
    }
}
