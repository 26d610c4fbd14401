// The answer to the pointer to a container, looked up while elements are written, and the report on it.
ghost use Rattle.std.specs.Prelude.{◌≡◌, ◌++◌, ◌∷◌, [], ℕ, List, IfOk, OnOk, codes, decimal, slice_get};
ghost use Rattle.jx_run.specs.declared.texts.settings.Settings.{Settings};
ghost use Rattle.jx_run.specs.Settings.{JudgedBy};
ghost use Rattle.jx_index.specs.Pointers.{IsPointer};
ghost use Rattle.jx_find.specs.Finder.{HasFed};
ghost use Rattle.jx_words.specs.Words.{line};
ghost use Rattle.jx_each.specs.declared.content.LineContent.{LineContent};
ghost use Rattle.jx_each.specs.declared.content.LineContent.TheVariants.{Alone};
ghost use Rattle.jx_each.specs.Each.{HasTakenBy};
ghost use Rattle.jx_values.specs.Elements.{TellsByVerdict, told_of_fault, told_of_found, told_of_kind, told_of_named, told_of_no_object, told_of_value};
ghost use Rattle.jx_values.specs.inside.Sought.{HasSought, TellsFound, any_names, sought_of, told_of_root};

use crate::telling::{add_front, told_of_refusal};
use jx_each::{Each, LineContent};
use jx_find::Finder;
use jx_index::{FindFault, Found, Pointer};
use jx_lex::Kind;
use jx_run::{NameRule, Settings, Verdict};
use jx_words::{PointerAnswer, add_answer, add_number};
use std::alloc::{AllocError, Global};

/// The look-up of a pointer in the bytes that are read, where it has tokens: what its root leads to is reported without
/// one.
pub(crate) type Sought<'p> = Option<Finder<'p>>;

/// The report on a text in which a pointer of so many tokens leads to a value of this kind.
fn told_of_kind(
    alloc: Global,
    pointer: &str,
    kind: Kind,
    tokens: usize,
) -> Result<Vec<u8>, AllocError>
    ensures { IfOk result (λ told. told.items ≡ told_of_kind pointer.now kind tokens) }
{
    match kind {
        Kind::Object | Kind::Array => Ok(Vec::new(alloc)),
        Kind::String | Kind::Number | Kind::True | Kind::False | Kind::Null => {
            told_of_fault(alloc, pointer, FindFault::NotAContainer { token: tokens })
        }
    }
}

/// The report on such a text where names are written: an object has some, and no other value.
fn told_of_named(
    alloc: Global,
    pointer: &str,
    kind: Kind,
    tokens: usize,
) -> Result<Vec<u8>, AllocError>
    ensures { IfOk result (λ told. told.items ≡ told_of_named pointer.now kind tokens) }
{
    match kind {
        Kind::Object => Ok(Vec::new(alloc)),
        Kind::Array | Kind::String | Kind::Number | Kind::True | Kind::False | Kind::Null => {
            told_of_no_object(alloc, pointer, tokens)
        }
    }
}

/// Appends that a pointer of so many tokens leads to no object.
fn add_no_object(told: &mut Vec<u8>, tokens: usize) -> Result<(), AllocError>
    ensures { OnOk result (told.new.items ≡ told.old.items ++ (codes "not an object at token " ++ decimal tokens)) }
{
    told.extend_from_slice(b"not an object at token ")?;
    add_number(told, tokens)?;
    Ok(())
}

/// Appends this as a line.
fn add_no_object_line(told: &mut Vec<u8>, tokens: usize) -> Result<(), AllocError>
    ensures { OnOk result (told.new.items ≡ told.old.items ++ line (codes "not an object at token " ++ decimal tokens)) }
{
    add_no_object(told, tokens)?;
    told.push(b'\n')?;
    Ok(())
}

/// The report on a pointer of so many tokens that leads to no object.
fn told_of_no_object(alloc: Global, pointer: &str, tokens: usize) -> Result<Vec<u8>, AllocError>
    ensures { IfOk result (λ told. told.items ≡ told_of_no_object pointer.now tokens) }
{
    let mut told = Vec::new(alloc);
    add_front(&mut told, pointer)?;
    add_no_object_line(&mut told, tokens)?;
    Ok(told)
}

/// The report on a value of this kind by what a line has, where so many tokens lead to it.
fn told_of_value(
    alloc: Global,
    content: LineContent,
    pointer: &str,
    kind: Kind,
    tokens: usize,
) -> Result<Vec<u8>, AllocError>
    ensures { IfOk result (λ told. told.items ≡ told_of_value content pointer.now kind tokens) }
{
    match content {
        LineContent::Alone => told_of_kind(alloc, pointer, kind, tokens),
        LineContent::Named => told_of_named(alloc, pointer, kind, tokens),
        LineContent::NameAlone => told_of_named(alloc, pointer, kind, tokens),
        LineContent::Empty => told_of_kind(alloc, pointer, kind, tokens),
    }
}

/// The report on a pointer that leads to no container.
fn told_of_fault(alloc: Global, pointer: &str, fault: FindFault) -> Result<Vec<u8>, AllocError>
    ensures { IfOk result (λ told. told.items ≡ told_of_fault pointer.now fault) }
{
    let mut told = Vec::new(alloc);
    add_front(&mut told, pointer)?;
    add_answer(&mut told, PointerAnswer::Lost(fault))?;
    Ok(told)
}

/// The report on a text in which a pointer of so many tokens has this answer.
fn told_of_found(
    alloc: Global,
    content: LineContent,
    pointer: &str,
    found: Result<Found, FindFault>,
    tokens: usize,
) -> Result<Vec<u8>, AllocError>
    ensures { IfOk result (λ told. told.items ≡ told_of_found content pointer.now found tokens) }
{
    match found {
        Ok(found) => told_of_value(alloc, content, pointer, found.kind, tokens),
        Err(fault) => told_of_fault(alloc, pointer, fault),
    }
}

/// The report on a text that is a container, or none.
fn told_of_root(alloc: Global, is_container: bool) -> Result<Vec<u8>, AllocError>
    ensures { IfOk result (λ told. told.items ≡ told_of_root is_container) }
{
    if is_container {
        Ok(Vec::new(alloc))
    } else {
        told_of_fault(alloc, "", FindFault::NotAContainer { token: 0 })
    }
}

/// The first answer, if there is one.
pub(crate) fn first_of(found: &[Result<Found, FindFault>]) -> Option<Result<Found, FindFault>>
    ensures { result ≡ slice_get found.now 0 }
{
    match found.get(0) {
        Some(found) => Some(*found),
        None => None,
    }
}

/// The report on a text in which one pointer of so many tokens was looked up.
fn told_of_sought(
    alloc: Global,
    content: LineContent,
    pointer: &str,
    finder: Finder<'_>,
    tokens: usize,
) -> Result<Vec<u8>, AllocError>
    ensures { IfOk result (λ told. (settings : Settings) (bytes : List ℕ) → HasFed settings (pointer.now ∷ []) bytes finder.entry → TellsFound content settings pointer.now bytes tokens told.items) }
{
    let Ok(found) = finder.finish()? else {
        return Err(AllocError);
    };
    match first_of(&found) {
        Some(found) => told_of_found(alloc, content, pointer, found, tokens),
        None => Err(AllocError),
    }
}

/// The verdict on what a maker of lines took, whatever names its objects have.
pub(crate) fn verdict_of(each: &Each) -> Verdict
    ensures { (content : LineContent) (pointer text given : List ℕ) → HasTakenBy content pointer text given each.now → JudgedBy each.now.reader.settings 0 text result }
{
    each.reader().verdict()
}

/// The report on an input with this verdict, where what a maker of lines took of it is a text.
pub(crate) fn told_of_elements(
    alloc: Global,
    content: LineContent,
    pointer: &str,
    each: &Each,
    verdict: Verdict,
    sought: Sought<'_>,
) -> Result<Vec<u8>, AllocError>
    ensures { IfOk result (λ told. (text given : List ℕ) → HasTakenBy content pointer.now text given each.now → HasSought content (any_names each.now.reader.settings) pointer.now text sought.entry
        → JudgedBy each.now.reader.settings 0 text verdict → TellsByVerdict content each.now.reader.settings pointer.now text verdict told.items) }
{
    match verdict {
        Verdict::Refused(refusal) => told_of_refusal(alloc, refusal),
        Verdict::Accepted => match sought {
            Some(finder) => told_of_sought(alloc, content, pointer, finder, each.token_count()),
            None => told_of_root(alloc, each.is_container()),
        },
    }
}

/// A pointer.
pub(crate) fn one_pointer<'p>(
    alloc: Global,
    pointer: &'p str,
) -> Result<Vec<Pointer<'p>>, AllocError>
    requires { IsPointer pointer.now }
    ensures { IfOk result (λ pointers. pointers.items ≡ pointer.now ∷ []) }
{
    let mut pointers = Vec::new(alloc);
    if let Ok(pointer) = Pointer::read(pointer) {
        pointers.push(pointer)?;
    }
    Ok(pointers)
}

/// A pointer, if it does not lead to the root.
fn pointer_to_part<'p>(alloc: Global, pointer: &'p str) -> Result<Vec<Pointer<'p>>, AllocError>
    requires { IsPointer pointer.now }
    ensures { IfOk result (λ pointers. pointers.items ≡ sought_of Alone pointer.now) }
{
    if pointer.is_empty() {
        return Ok(Vec::new(alloc));
    }
    one_pointer(alloc, pointer)
}

/// The pointer that is looked up: none where it leads to the root, and values alone are written.
pub(crate) fn pointers_of<'p>(
    alloc: Global,
    content: LineContent,
    pointer: &'p str,
) -> Result<Vec<Pointer<'p>>, AllocError>
    requires { IsPointer pointer.now }
    ensures { IfOk result (λ pointers. pointers.items ≡ sought_of content pointer.now) }
{
    match content {
        LineContent::Alone => pointer_to_part(alloc, pointer),
        LineContent::Named => one_pointer(alloc, pointer),
        LineContent::NameAlone => one_pointer(alloc, pointer),
        LineContent::Empty => one_pointer(alloc, pointer),
    }
}

/// A look-up of pointers that was fed no byte, where there are some.
pub(crate) fn sought_at_start<'p>(
    alloc: Global,
    settings: &Settings,
    pointers: Vec<Pointer<'p>>,
) -> Result<Sought<'p>, AllocError>
    ensures { IfOk result (λ sought. (content : LineContent) (pointer : List ℕ) → pointers.entry.items ≡ sought_of content pointer → HasSought content (any_names settings.now) pointer [] sought) }
{
    if pointers.is_empty() {
        return Ok(None);
    }
    let any = Settings {
        depth: settings.depth,
        mark: settings.mark,
        names: NameRule::Any,
    };
    let finder = Finder::new(alloc, &any, pointers)?;
    Ok(Some(finder))
}

/// Looks up in a batch after what was read. It is also out of memory where the last byte has no offset.
pub(crate) fn seek(sought: &mut Sought<'_>, batch: &[u8]) -> Result<(), AllocError>
    ensures { OnOk result ((content : LineContent) (settings : Settings) (pointer bytes : List ℕ) → HasSought content settings pointer bytes sought.old → HasSought content settings pointer (bytes ++ batch.now) sought.new) }
{
    match sought {
        None => Ok(()),
        Some(finder) => {
            if batch.len() > usize::MAX - finder.end() {
                return Err(AllocError);
            }
            finder.feed(batch)
        }
    }
}
