// Pointers that are looked up in a text while it is read batch by batch, and the bytes that their values may have.
ghost use Rattle.std.specs.Prelude.{◌≡◌, ◌+◌, ◌<◌, ◌^◌, ◌++◌, [], ℕ, All, List, length, map, string_bytes, IfOk, OnOk};
ghost use Rattle.jx_run.specs.declared.texts.settings.NameRule.TheVariants.{Any};
ghost use Rattle.jx_run.specs.declared.texts.settings.Settings.{Settings};
ghost use Rattle.jx_run.specs.declared.texts.verdict.Verdict.TheVariants.{Accepted};
ghost use Rattle.jx_find.specs.Finder.{HasFed};
ghost use Rattle.jx_index.specs.ByNames.{IsVerdictBy};
ghost use Rattle.jx_words.specs.Answers.{AreAnswersBy, AreAnswersIn};
ghost use Rattle.jx_words.specs.Words.{line, refusal_words};
ghost use Rattle.jx_words.specs.inside.ReadPointers.{AreReadPointers};
ghost use Rattle.jx_values.specs.inside.Kept.{AreValuesRead, IsHeldFor, IsKeptOf};

use crate::form::Form;
use crate::gathered::gather;
use crate::hints::{Spot, spots_of, wanted_at};
use crate::kept::Kept;
use crate::reply::{Held, Reply};
use crate::telling::{told_of_answers, told_of_refusal};
use jx_find::{Finder, Sought};
use jx_index::{PointerFault, rows_of_look_ups};
use jx_run::{Refusal, Settings};
use jx_task::ValuesTask;
use jx_words::{PointerAnswer, ReadPointers, answers_in, read_pointers};
use std::alloc::{AllocError, Global};

/// A look-up of pointers in a text that is read from its start. It keeps the bytes of the values that the pointers lead to,
/// for each by itself, and those of a token that has begun and may be one.
#[derive(Drop)]
pub struct ValuesReader<'p> {
    alloc: Global,
    finder: Finder<'p>,
    /// Why some of the strings are no pointers.
    unread: Vec<Option<PointerFault>>,
    spots: Vec<Option<Spot>>,
    kept: Vec<Kept>,
}

/// So many times no bytes, of any text.
fn none_kept(alloc: Global, count: usize) -> Result<Vec<Kept>, AllocError>
    ensures { IfOk result (λ kept. All (IsKeptOf []) kept.items) }
{
    let mut kept = Vec::with_capacity(alloc, count)?;
    for _ in 0..count {
        kept.push(Kept::new(alloc))?;
    }
    Ok(kept)
}

/// Takes in for each spot what is wanted of a batch after so many bytes.
fn keep_each(
    kept: &mut Vec<Kept>,
    spots: &[Option<Spot>],
    sought: Option<&Sought>,
    batch: &[u8],
    base: usize,
) -> Result<(), AllocError>
    requires { base + length batch.now < 2 ^ 64 }
    ensures { OnOk result ((text : List ℕ) → length text ≡ base → All (IsKeptOf text) kept.old.items → All (IsKeptOf (text ++ batch.now)) kept.new.items) }
{
    for number in 0..kept.len() {
        let wanted = wanted_at(sought, spots, number, base + batch.len());
        let one = &mut kept[number];
        one.keep(batch, base, wanted)?;
    }
    Ok(())
}

/// The state kept of a text that is refused.
fn held_of_refusal(alloc: Global, refusal: Refusal) -> Result<Held, AllocError>
    ensures { IfOk result (λ held. (held.reply.answers.items ≡ []) × (held.reply.told.items ≡ line (refusal_words refusal))) }
{
    let told = told_of_refusal(alloc, refusal)?;
    let answers = Vec::new(alloc);
    Ok(Held {
        text: Vec::new(alloc),
        reply: Reply { answers, told },
    })
}

/// The state kept of a text with these answers, for each of which some bytes are kept.
fn held_of_answers(
    alloc: Global,
    form: Form,
    task: &ValuesTask,
    answers: &[PointerAnswer],
    kept: Vec<Kept>,
) -> Result<Held, AllocError>
    ensures { IfOk result (λ held. (text : List ℕ) → IsVerdictBy task.now.settings text Accepted → AreAnswersIn task.now.settings text (map string_bytes task.now.pointers.items) answers.now
        → All (IsKeptOf text) kept.items → IsHeldFor form task.now text held) }
{
    let gathered = gather(alloc, answers, kept)?;
    if gathered.answers.len() != task.pointers.len() {
        return Err(AllocError);
    }
    let told = told_of_answers(
        alloc,
        form,
        &gathered.text,
        &task.pointers,
        &gathered.answers,
    )?;
    Ok(Held {
        text: gathered.text,
        reply: Reply {
            answers: gathered.answers,
            told,
        },
    })
}

/// The answers of a finder that was fed a text, or why that is refused.
fn answers_of(
    alloc: Global,
    finder: Finder<'_>,
    unread: &[Option<PointerFault>],
) -> Result<Result<Vec<PointerAnswer>, Refusal>, AllocError>
    ensures { IfOk result (λ answers. (settings : Settings) (spelt pointers : List (List ℕ)) (text : List ℕ) → AreReadPointers spelt pointers unread.now
        → HasFed settings pointers text finder.entry → AreAnswersBy settings text spelt answers) }
{
    rows_of_look_ups();
    match finder.finish()? {
        Err(refusal) => Ok(Err(refusal)),
        Ok(found) => {
            let answers = answers_in(alloc, unread, &found)?;
            Ok(Ok(answers))
        }
    }
}

impl<'p> ValuesReader<'p> {
    /// Before the first byte.
    pub(crate) fn new(
        alloc: Global,
        settings: &Settings,
        spelt: &'p [String],
    ) -> Result<ValuesReader<'p>, AllocError>
        requires { settings.now.names ≡ Any }
        ensures { IfOk result (AreValuesRead settings.now (map string_bytes spelt.now) []) }
    {
        let read = read_pointers(alloc, spelt)?;
        let ReadPointers { pointers, unread } = read;
        let spots = spots_of(alloc, &pointers, &unread)?;
        let finder = Finder::new(alloc, settings, pointers)?;
        let kept = none_kept(alloc, spelt.len())?;
        Ok(ValuesReader {
            alloc,
            finder,
            unread,
            spots,
            kept,
        })
    }

    /// How many bytes were read.
    pub(crate) fn end(&self) -> usize
        ensures { (settings : Settings) (spelt : List (List ℕ)) (text : List ℕ) → AreValuesRead settings spelt text self.now → result ≡ length text }
    {
        self.finder.end()
    }

    /// Reads a batch after what was read. It is also out of memory where the last byte has no offset.
    pub(crate) fn read(&mut self, batch: &[u8]) -> Result<(), AllocError>
        ensures { OnOk result ((settings : Settings) (spelt : List (List ℕ)) (text : List ℕ) → AreValuesRead settings spelt text self.old
            → AreValuesRead settings spelt (text ++ batch.now) self.new) }
    {
        let base = self.finder.end();
        if batch.len() > usize::MAX - base {
            return Err(AllocError);
        }
        self.finder.feed(batch)?;
        keep_each(
            &mut self.kept,
            &self.spots,
            self.finder.sought(),
            batch,
            base,
        )
    }

    /// The state kept of the text that was read, for the pointers of a task.
    pub(crate) fn into_held(self, form: Form, task: &ValuesTask) -> Result<Held, AllocError>
        ensures { IfOk result (λ held. (text : List ℕ) → AreValuesRead task.now.settings (map string_bytes task.now.pointers.items) text self.entry
            → IsHeldFor form task.now text held) }
    {
        let ValuesReader {
            alloc,
            finder,
            unread,
            spots: _,
            kept,
        } = self;
        match answers_of(alloc, finder, &unread)? {
            Err(refusal) => held_of_refusal(alloc, refusal),
            Ok(answers) => held_of_answers(alloc, form, task, &answers, kept),
        }
    }
}
