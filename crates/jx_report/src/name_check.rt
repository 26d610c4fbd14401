// The names of a text that is read batch by batch.
ghost use Rattle.std.specs.Prelude.{◌++◌, ℕ, List, [], OnOk, IfOk};
ghost use Rattle.jx_run.specs.declared.texts.settings.Settings.{Settings};
ghost use Rattle.jx_report.specs.inside.PointerReads.{AreCompared, IsRefusalByNames};

use jx_names::NamesReader;
use jx_run::{NameRule, Refusal, Settings, Verdict};
use std::alloc::{AllocError, Global};

/// The check of a text's names by the rule on them, as the text is read from its start: nothing, or names are compared.
#[derive(Drop)]
pub(crate) enum NameCheck {
    Any,
    Unique(NamesReader),
}

impl NameCheck {
    /// The check before the first byte.
    pub fn new(alloc: Global, settings: &Settings) -> NameCheck
        ensures { AreCompared settings.now [] result }
    {
        match settings.names {
            NameRule::Any => NameCheck::Any,
            NameRule::Unique => NameCheck::Unique(NamesReader::new(alloc, settings)),
        }
    }

    /// Reads a batch after what was read. It is also out of memory where the last byte has no offset.
    pub fn read(&mut self, batch: &[u8]) -> Result<(), AllocError>
        ensures reads { OnOk result ((settings : Settings) (text : List ℕ) → AreCompared settings text self.old → AreCompared settings (text ++ batch.now) self.new) }
    {
        match self {
            NameCheck::Any => Ok(()),
            NameCheck::Unique(reader) => {
                if batch.len() > usize::MAX - reader.end() {
                    return Err(AllocError);
                }
                reader.feed(batch)
            }
        }
    }

    /// The refusal of the bytes that were read, where names have to be unique and the bytes are refused.
    pub fn into_refusal(self) -> Result<Option<Refusal>, AllocError>
        ensures { IfOk result (λ refusal. (settings : Settings) (text : List ℕ) → AreCompared settings text self → IsRefusalByNames settings text refusal) }
    {
        match self {
            NameCheck::Any => Ok(None),
            NameCheck::Unique(reader) => match reader.verdict()? {
                Verdict::Accepted => Ok(None),
                Verdict::Refused(refusal) => Ok(Some(refusal)),
            },
        }
    }
}
