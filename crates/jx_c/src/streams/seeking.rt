// Pointers that are looked up in a text which C feeds.
ghost use Rattle.std.specs.Prelude.{◌≡◌, ◌+◌, ◌<◌, ◌^◌, ◌++◌, [], ℕ, List, IfErr, IfOk, OnOk, length};
ghost use Rattle.jx_run.specs.declared.texts.settings.NameRule.TheVariants.{Any};
ghost use Rattle.jx_run.specs.declared.texts.settings.Settings.{Settings};
ghost use Rattle.jx_c.specs.Indexes.{AreAnswersOf};
ghost use Rattle.jx_c.specs.Seeks.{HasSought, end_of};
ghost use Rattle.jx_c.specs.declared.texts.all.JxPointer.{JxPointer};

use crate::texts::all::{JxPointer, answer_all, pointers_of};
use crate::texts::look_up::JxAnswer;
use jx_find::Finder;
use jx_run::Settings;
use std::alloc::{AllocError, Global};
use std::marker::Model;

/// The pointers, and what they were met at in the bytes so far. C leaves the pointers as they are until the look-up ends: to the
/// library, for ever.
#[derive(Drop)]
pub struct Seeking {
    pointers: &'static [JxPointer<'static>],
    finder: Finder<'static>,
}

impl Model for Seeking {
    ghost use Rattle.std.specs.Coded.{codes};
    ghost use denote.Signature.{static_lft};
    ghost use Rattle.jx_find.specs.contracts.finder.Finder.{the_row};
    ghost use Rattle.jx_c.specs.Seeks.{SeekingValue};

    ghost Value = { SeekingValue };

    ghost coded = { Prim.hlevel (codes, (the_row static_lft).coded) };

    ghost view = { λ s. record { pointers = s.pointers.now; finder = s.finder } };
}

impl Seeking {
    /// A look-up of these pointers that was fed no byte.
    pub fn new(
        alloc: Global,
        settings: &Settings,
        pointers: &'static [JxPointer<'static>],
    ) -> Result<Seeking, AllocError>
        requires any { settings.now.names ≡ Any }
        ensures sought { IfOk result (HasSought settings.now pointers.now []) }
    {
        let spelt = pointers_of(alloc, pointers)?;
        let finder = Finder::new(alloc, settings, spelt)?;
        Ok(Seeking { pointers, finder })
    }

    /// The number of bytes that it was fed.
    pub fn end(&self) -> usize
        ensures { result ≡ end_of self.now }
    {
        self.finder.end()
    }

    /// Reads the bytes after all that it was fed.
    pub fn feed(&mut self, bytes: &[u8]) -> Result<(), AllocError>
        requires fits { end_of self.old + length bytes.now < 2 ^ 64 }
        ensures sought { OnOk result ((settings : Settings) (pointers : List JxPointer) (text : List ℕ) → HasSought settings pointers text self.old
            → HasSought settings pointers (text ++ bytes.now) self.new) }
    {
        self.finder.feed(bytes)
    }

    /// Puts the answers on all bytes that it was fed into the buffer, as many as that has room for.
    pub fn answer(self, answers: &mut [JxAnswer]) -> Result<(), AllocError>
        ensures answers { IfOk result (λ _. (settings : Settings) (pointers : List JxPointer) (text : List ℕ) → HasSought settings pointers text self
            → AreAnswersOf settings text pointers answers.old answers.new) }
        ensures unchanged { IfErr result (λ _. answers.new ≡ answers.old) }
    {
        let Seeking { pointers, finder } = self;
        let read = finder.finish()?;
        answer_all(&read, pointers, answers);
        Ok(())
    }
}
