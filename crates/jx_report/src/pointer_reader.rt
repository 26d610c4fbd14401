// Pointers that are looked up in a text while it is read batch by batch.
ghost use Rattle.std.specs.Prelude.{◌≡◌, ◌+◌, ◌<◌, ◌^◌, ◌++◌, ℕ, List, [], length, OnOk, IfOk, IfSome};
ghost use Rattle.jx_run.specs.declared.texts.settings.Settings.{Settings};
ghost use Rattle.jx_find.specs.Finder as fed;
ghost use Rattle.jx_words.specs.Answers.{AreAnswersBy};
ghost use Rattle.jx_report.specs.Output.{AnswersPointers, TextOutput};
ghost use Rattle.jx_report.specs.inside.PointerReads.{AreLookedUp, AreSought};
ghost use Rattle.jx_words.specs.inside.ReadPointers.{AreReadPointers};
ghost use Rattle.jx_report.specs.inside.Replies.{reply_exit, reply_output};

use crate::name_check::NameCheck;
use crate::pointer_answers::{MANY, with_any_names};
use crate::pointer_reply::reply_of_answers;
use crate::reply::Reply;
use jx_answer::unique_verdicts_by_settings;
use jx_find::Finder;
use jx_index::{PointerFault, rows_of_look_ups};
use jx_run::{Refusal, Settings, Verdict};
use jx_task::{Command, Task};
use jx_words::{PointerAnswer, ReadPointers, answers_in, read_pointers};
use std::alloc::{AllocError, Global};

/// The pointers of a command, where they are looked up while the input is read: they are few.
pub(crate) fn few_pointers(
    alloc: Global,
    command: &Command,
) -> Result<Option<ReadPointers<'_>>, AllocError>
    ensures { IfOk result (λ few. IfSome few (λ read. AreSought command.now.task read.pointers.items read.unread.items)) }
{
    match &command.task {
        Task::At(pointers) if pointers.len() < MANY => {
            let read = read_pointers(alloc, pointers)?;
            Ok(Some(read))
        }
        _ => Ok(None),
    }
}

/// The answers of a finder that was fed a text, or why that is refused.
fn answers_of(
    alloc: Global,
    finder: Finder,
    unread: &[Option<PointerFault>],
) -> Result<Result<Vec<PointerAnswer>, Refusal>, AllocError>
    ensures { IfOk result (λ answers. (settings : Settings) (spelt pointers : List (List ℕ)) (text : List ℕ) → AreReadPointers spelt pointers unread.now
        → fed.HasFed settings pointers text finder.entry → AreAnswersBy settings text spelt answers) }
{
    rows_of_look_ups();
    match finder.finish()? {
        Err(refusal) => Ok(Err(refusal)),
        Ok(found) => {
            let answers = answers_in(alloc, unread, &found)?;
            Ok(Ok(answers))
        }
    }
}

/// A look-up of pointers in a text that is read from its start. It keeps of the text a name that has begun and not ended, and
/// where names have to be unique those of open objects.
#[derive(Drop)]
pub(crate) struct PointerReader<'p> {
    alloc: Global,
    finder: Finder<'p>,
    names: NameCheck,
    /// Why some of the strings are no pointers.
    unread: Vec<Option<PointerFault>>,
}

impl<'p> PointerReader<'p> {
    /// A reader before the first byte.
    pub fn new(
        alloc: Global,
        settings: &Settings,
        read: ReadPointers<'p>,
    ) -> Result<PointerReader<'p>, AllocError>
        ensures { IfOk result (λ reader. (spelt : List (List ℕ)) → AreReadPointers spelt read.entry.pointers.items read.entry.unread.items → AreLookedUp settings.now spelt [] reader) }
    {
        let ReadPointers { pointers, unread } = read;
        let finder = Finder::new(alloc, &with_any_names(settings), pointers)?;
        Ok(PointerReader {
            alloc,
            finder,
            names: NameCheck::new(alloc, settings),
            unread,
        })
    }

    /// The number of bytes that were read.
    pub fn end(&self) -> usize
        ensures end { result ≡ fed.end_of self.now.finder }
        ensures length { (settings : Settings) (spelt : List (List ℕ)) (text : List ℕ) → AreLookedUp settings spelt text self.now → result ≡ length text }
    {
        self.finder.end()
    }

    /// Reads a batch after what was read.
    pub fn read(&mut self, batch: &[u8]) -> Result<(), AllocError>
        requires { fed.end_of self.old.finder + length batch.now < 2 ^ 64 }
        ensures reads { OnOk result ((settings : Settings) (spelt : List (List ℕ)) (text : List ℕ) → AreLookedUp settings spelt text self.old
            → AreLookedUp settings spelt (text ++ batch.now) self.new) }
    {
        self.names.read(batch)?;
        self.finder.feed(batch)
    }

    /// The reply to all bytes that were read.
    pub fn into_reply(self) -> Result<Reply, AllocError>
        ensures { IfOk result (λ reply. (settings : Settings) (spelt : List (List ℕ)) (text : List ℕ) → AreLookedUp settings spelt text self.entry
            → TextOutput (AnswersPointers spelt settings text) settings text (reply_output reply) (reply_exit reply)) }
    {
        unique_verdicts_by_settings();
        let PointerReader {
            alloc,
            finder,
            names,
            unread,
        } = self;
        if let Some(refusal) = names.into_refusal()? {
            return Ok(Reply::Verdict(Verdict::Refused(refusal)));
        }
        let answers = answers_of(alloc, finder, &unread)?;
        Ok(reply_of_answers(answers))
    }
}
