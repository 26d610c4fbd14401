// Lines of values that are made of a text which C feeds, and the look-up beside it.
ghost use Rattle.std.specs.Prelude.{◌≡◌, ◌+◌, ◌<◌, ◌^◌, ◌++◌, ◌∷◌, [], ℕ, List, IfOk, OnOk, length, slice_get};
ghost use Rattle.jx_run.specs.declared.texts.settings.NameRule.TheVariants.{Any};
ghost use Rattle.jx_run.specs.declared.texts.settings.Settings.{Settings};
ghost use Rattle.jx_run.specs.Settings.{JudgedBy};
ghost use Rattle.jx_index.specs.Pointers.{IsPointer};
ghost use Rattle.jx_find.specs.Finder.{HasFed};
ghost use Rattle.jx_each.specs.Each.{HasTaken};
ghost use Rattle.jx_c.specs.Values.{HasSought, HasStreamed, IsOutcomeBy, IsOutcomeOf, LeadsTo, end_of, outcome_of, outcome_of_fault, outcome_of_found, outcome_of_kind, outcome_of_refusal, outcome_of_root};

use crate::texts::look_up::{FOUND, JxAnswer, LookUp, shown_look_up};
use jx_each::Each;
use jx_find::Finder;
use jx_index::{FindFault, Found, Pointer};
use jx_lex::Kind;
use jx_run::{Refusal, Settings, Verdict};
use std::alloc::{AllocError, Global};
use std::marker::Model;

/// Where the pointer to a container leads.
#[repr(C)]
#[derive(Clone, Copy)]
pub struct JxOutcome {
    /// The token that leads nowhere, or the offset of the text's fault; 0 where the kind has none.
    pub at: usize,
    pub kind: u32,
}

/// The outcome of an answer, without the value.
fn outcome_of(answer: JxAnswer) -> JxOutcome
    ensures { result ≡ outcome_of answer }
{
    JxOutcome {
        at: answer.at,
        kind: answer.outcome,
    }
}

/// Of a pointer that leads to no container.
fn outcome_of_fault(fault: FindFault) -> JxOutcome
    ensures { result ≡ outcome_of_fault fault }
{
    outcome_of(shown_look_up(LookUp::Lost(fault)))
}

/// The outcome of bytes that are not valid JSON.
fn outcome_of_refusal(refusal: Refusal) -> JxOutcome
    ensures { result ≡ outcome_of_refusal refusal }
{
    outcome_of(shown_look_up(LookUp::NoText(refusal)))
}

/// Of a value of this kind, to which so many tokens lead.
fn outcome_of_kind(kind: Kind, tokens: usize) -> JxOutcome
    ensures { result ≡ outcome_of_kind kind tokens }
{
    match kind {
        Kind::Object | Kind::Array => JxOutcome { at: 0, kind: FOUND },
        Kind::String | Kind::Number | Kind::True | Kind::False | Kind::Null => {
            outcome_of_fault(FindFault::NotAContainer { token: tokens })
        }
    }
}

/// Of what so many tokens lead to.
fn outcome_of_found(found: Result<Found, FindFault>, tokens: usize) -> JxOutcome
    ensures { result ≡ outcome_of_found found tokens }
{
    match found {
        Ok(found) => outcome_of_kind(found.kind, tokens),
        Err(fault) => outcome_of_fault(fault),
    }
}

/// Of a text that is a container, or none.
fn outcome_of_root(is_container: bool) -> JxOutcome
    ensures { result ≡ outcome_of_root is_container }
{
    if is_container {
        JxOutcome { at: 0, kind: FOUND }
    } else {
        outcome_of_fault(FindFault::NotAContainer { token: 0 })
    }
}

/// The first answer, if there is one.
fn first_of(found: &[Result<Found, FindFault>]) -> Option<Result<Found, FindFault>>
    ensures { result ≡ slice_get found.now 0 }
{
    match found.get(0) {
        Some(found) => Some(*found),
        None => None,
    }
}

/// Of a text in which one pointer of so many tokens was looked up.
fn outcome_of_sought(finder: Finder<'static>, tokens: usize) -> Result<JxOutcome, AllocError>
    ensures { IfOk result (λ outcome. (settings : Settings) (pointer bytes : List ℕ) → HasFed settings (pointer ∷ []) bytes finder.entry → LeadsTo settings pointer bytes tokens outcome) }
{
    let Ok(found) = finder.finish()? else {
        return Err(AllocError);
    };
    match first_of(&found) {
        Some(found) => Ok(outcome_of_found(found, tokens)),
        None => Err(AllocError),
    }
}

/// Of an input with this verdict, where what a maker of lines took of it is a text.
fn outcome_by(
    each: &Each,
    verdict: Verdict,
    sought: Option<Finder<'static>>,
) -> Result<JxOutcome, AllocError>
    ensures { IfOk result (λ outcome. (pointer text given : List ℕ) → HasTaken pointer text given each.now → HasSought each.now.reader.settings pointer text sought.entry
        → JudgedBy each.now.reader.settings 0 text verdict → IsOutcomeBy each.now.reader.settings pointer text verdict outcome) }
{
    match verdict {
        Verdict::Refused(refusal) => Ok(outcome_of_refusal(refusal)),
        Verdict::Accepted => match sought {
            Some(finder) => outcome_of_sought(finder, each.token_count()),
            None => Ok(outcome_of_root(each.is_container())),
        },
    }
}

/// A list of the one pointer.
fn list_of(alloc: Global, pointer: &'static str) -> Result<Vec<Pointer<'static>>, AllocError>
    requires { IsPointer pointer.now }
    ensures { IfOk result (λ all. all.items ≡ pointer.now ∷ []) }
{
    let Ok(read) = Pointer::read(pointer) else {
        unreachable!();
    };
    let mut all = Vec::new(alloc);
    all.push(read)?;
    Ok(all)
}

/// A look-up of the pointer that was fed no byte; none for the pointer to the root, which needs no look-up.
fn sought_at_start(
    alloc: Global,
    settings: &Settings,
    pointer: &'static str,
) -> Result<Option<Finder<'static>>, AllocError>
    requires any { settings.now.names ≡ Any }
    requires pointer { IsPointer pointer.now }
    ensures { IfOk result (HasSought settings.now pointer.now []) }
{
    if pointer.is_empty() {
        return Ok(None);
    }
    let pointers = list_of(alloc, pointer)?;
    let finder = Finder::new(alloc, settings, pointers)?;
    Ok(Some(finder))
}

/// Looks up in the bytes after all that were fed. It is also out of memory where the last byte has no offset.
fn seek(sought: &mut Option<Finder<'static>>, bytes: &[u8]) -> Result<(), AllocError>
    ensures { OnOk result ((settings : Settings) (pointer input : List ℕ) → HasSought settings pointer input sought.old → HasSought settings pointer (input ++ bytes.now) sought.new) }
{
    match sought {
        None => Ok(()),
        Some(finder) => {
            if bytes.len() > usize::MAX - finder.end() {
                return Err(AllocError);
            }
            finder.feed(bytes)
        }
    }
}

/// A text that is fed, the lines of the values that are due of it, and where the pointer leads. C leaves the pointer as it is
/// until the stream ends: to the library, for ever.
#[derive(Drop)]
pub struct ValueStream {
    each: Each,
    sought: Option<Finder<'static>>,
}

impl Model for ValueStream {
    ghost use Rattle.std.specs.Coded.{codes};
    ghost use denote.Signature.{static_lft};
    ghost use Rattle.jx_find.specs.contracts.finder.Finder.{the_row};
    ghost use Rattle.jx_c.specs.Values.{StreamValue};

    ghost Value = { StreamValue };

    ghost coded = { Prim.hlevel (codes, (the_row static_lft).coded) };

    ghost view = { λ s. record { each = s.each; sought = s.sought } };
}

impl ValueStream {
    /// A stream that was fed no byte, for a pointer.
    pub fn new(
        alloc: Global,
        settings: &Settings,
        pointer: &'static str,
    ) -> Result<ValueStream, AllocError>
        requires any { settings.now.names ≡ Any }
        requires pointer { IsPointer pointer.now }
        ensures streamed { IfOk result (HasStreamed settings.now pointer.now [] []) }
    {
        let each = Each::new(alloc, settings, pointer)?;
        let sought = sought_at_start(alloc, settings, pointer)?;
        Ok(ValueStream { each, sought })
    }

    /// The number of bytes that it was fed.
    pub fn end(&self) -> usize
        ensures { result ≡ end_of self.now }
    {
        self.each.end()
    }

    /// Reads the bytes after all that it was fed.
    pub fn feed(&mut self, bytes: &[u8]) -> Result<(), AllocError>
        requires fits { end_of self.old + length bytes.now < 2 ^ 64 }
        ensures streamed { OnOk result ((settings : Settings) (pointer input given : List ℕ) → HasStreamed settings pointer input given self.old
            → HasStreamed settings pointer (input ++ bytes.now) given self.new) }
    {
        seek(&mut self.sought, bytes)?;
        self.each.feed(bytes)
    }

    /// The lines that wait, each one whole.
    pub fn ready(&self) -> &[u8]
        ensures { result.now ≡ self.now.each.ready }
    {
        self.each.ready()
    }

    /// Lets the lines that wait go.
    pub fn clear_ready(&mut self)
        ensures ready { self.new.each.ready ≡ [] }
        ensures streamed { (settings : Settings) (pointer input given : List ℕ) → HasStreamed settings pointer input given self.old
            → HasStreamed settings pointer input (given ++ self.old.each.ready) self.new }
    {
        self.each.clear_ready();
    }

    /// The answer to the pointer in all bytes that it was fed.
    pub fn outcome(self) -> Result<JxOutcome, AllocError>
        ensures { IfOk result (λ outcome. (settings : Settings) (pointer input given : List ℕ) → HasStreamed settings pointer input given self → IsOutcomeOf settings pointer input outcome) }
    {
        let ValueStream { each, sought } = self;
        let verdict = each.verdict();
        outcome_by(&each, verdict, sought)
    }
}
