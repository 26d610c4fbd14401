// A text that C feeds, and the bytes of its index.
ghost use Rattle.std.specs.Prelude.{◌≡◌, ◌⊎◌, ◌++◌, ℕ, Bool, List, Vec, length, IfErr, IfOk, MatchOption, true, false};
ghost use Rattle.std.specs.declared.alloc.Global.{Global};
ghost use Rattle.jx_run.specs.declared.texts.settings.Settings.{Settings};
ghost use Rattle.jx_run.specs.declared.texts.verdict.Verdict.TheVariants.{Accepted, Refused};
ghost use Rattle.jx_run.specs.Settings.{JudgedBy};
ghost use Rattle.jx_file_build.specs.Indexer.{HasFed};
ghost use Rattle.jx_c.specs.Saves.{AreBytesOf, HasEnded, HasRead, IsEndedBy};
ghost use Rattle.jx_c.specs.declared.saving.saver.Saver.TheVariants.{Saved};

use crate::shapes::status::{NO_MEMORY, NOT_BEGUN, OK};
use jx_file_build::Indexer;
use jx_run::{Refusal, Verdict};
use std::alloc::{AllocError, Global};
use std::mem::replace;

/// A text whose index is made.
#[derive(Drop)]
pub enum Saver {
    /// It has not ended.
    Reading(Indexer),
    /// It has, and these are the bytes of its index.
    Saved(Vec<u8>),
}

/// The bytes of the index of all that was fed, and of the tables, or the refusal.
fn bytes_of(alloc: Global, fed: Indexer) -> Result<Result<Vec<u8>, Refusal>, AllocError>
    ensures bytes { IfOk result (λ read. IfOk read (λ bytes. (has_names : Bool) (settings : Settings) (chunk : ℕ) (text : List ℕ) → HasFed has_names settings chunk text fed
        → AreBytesOf has_names settings chunk text bytes.items × JudgedBy settings 0 text Accepted)) }
    ensures refused { IfOk result (λ read. IfErr read (λ refusal. (has_names : Bool) (settings : Settings) (chunk : ℕ) (text : List ℕ) → HasFed has_names settings chunk text fed
        → JudgedBy settings 0 text (Refused refusal))) }
{
    match fed.finish()? {
        Ok(saved) => {
            let bytes = saved.encode(alloc)?;
            Ok(Ok(bytes))
        }
        Err(refusal) => Ok(Err(refusal)),
    }
}

impl Saver {
    /// Whether the text has ended.
    fn has_ended(&self) -> bool
        ensures yes { result ≡ true → HasEnded self.now }
        ensures no { result ≡ false → HasEnded self.now → ⊥ }
    {
        matches!(self, Saver::Saved(_))
    }

    /// The bytes of the index, if the text has ended.
    pub fn index(&self) -> Option<&[u8]>
        ensures { MatchOption result (HasEnded self.now → ⊥) (λ bytes. (index : Vec ℕ Global) × (self.now ≡ Saved index) × (bytes.now ≡ index.items)) }
    {
        match self {
            Saver::Reading(_) => None,
            Saver::Saved(index) => Some(index.as_slice()),
        }
    }

    /// The number of bytes that the index has; none where the text has not ended.
    pub fn size(&self) -> usize
        ensures { (index : Vec ℕ Global) → self.now ≡ Saved index → result ≡ length index.items }
    {
        match self {
            Saver::Reading(_) => 0,
            Saver::Saved(index) => index.len(),
        }
    }

    /// Reads the bytes after all that it was fed.
    pub fn feed(&mut self, bytes: &[u8]) -> u32
        ensures read { result ≡ OK → (has_names : Bool) (settings : Settings) (chunk : ℕ) (text : List ℕ) → HasRead has_names settings chunk text self.old
            → HasRead has_names settings chunk (text ++ bytes.now) self.new }
        ensures status { (HasEnded self.old → result ≡ NOT_BEGUN) × ((HasEnded self.old → ⊥) → (result ≡ OK) ⊎ (result ≡ NO_MEMORY)) }
        ensures same { result ≡ NOT_BEGUN → self.new ≡ self.old }
    {
        match self {
            Saver::Reading(fed) => match fed.feed(bytes) {
                Ok(()) => OK,
                Err(AllocError) => NO_MEMORY,
            },
            Saver::Saved(_) => NOT_BEGUN,
        }
    }

    /// Ends the text. Where it is accepted, the bytes of its index are there.
    pub fn end(&mut self, alloc: Global) -> Result<Verdict, u32>
        ensures ended { IfOk result (λ verdict. IsEndedBy self.old self.new verdict) }
        ensures status { IfErr result (λ status. (HasEnded self.old → status ≡ NOT_BEGUN) × ((HasEnded self.old → ⊥) → status ≡ NO_MEMORY)) }
        ensures not { HasEnded self.old → IfOk result (λ _. ⊥) }
        ensures same { IfErr result (λ status. status ≡ NOT_BEGUN → self.new ≡ self.old) }
    {
        if self.has_ended() {
            return Err(NOT_BEGUN);
        }
        let Saver::Reading(fed) = replace(self, Saver::Saved(Vec::new(alloc))) else {
            unreachable!();
        };
        match bytes_of(alloc, fed) {
            Ok(Ok(bytes)) => {
                *self = Saver::Saved(bytes);
                Ok(Verdict::Accepted)
            }
            Ok(Err(refusal)) => Ok(Verdict::Refused(refusal)),
            Err(AllocError) => Err(NO_MEMORY),
        }
    }
}
