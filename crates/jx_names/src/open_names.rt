// The names of the members of open objects, while a text is read.
ghost use Rattle.std.specs.List.{All};
ghost use Rattle.std.specs.Prelude.{◌≡◌, ◌≤◌, ℕ, List, None, Some, drop, false, length, reverse, slice_range, true, IfOk, IsTrue};
ghost use Rattle.jx_lex.specs.declared.alphabet.mark.MarkKind.{MarkKind};
ghost use Rattle.jx_index.specs.Repeats.{IsLeast};
ghost use Rattle.jx_index.specs.inside.Building.{Building, is_token, nothing_built, on_mark};
ghost use Rattle.jx_string.specs.Texts.{string_units};
ghost use Rattle.jx_names.specs.inside.InArrays.{AreArraysBehind, IsInArrays, array_behind, resized};
ghost use Rattle.jx_names.specs.inside.KeptNames.{cut_back, end_from, kept, is_child_next, is_name_next, names_next, with_container, with_name, with_value, Ends, IsRepeatedKept, Stands};

use crate::name_bytes::{Name, add_name};
use crate::name_lists::{earlier, first_repeated};
use jx_index::has_end;
use jx_lex::MarkKind;
use std::alloc::{AllocError, Global};

/// An open container: whether it is an object, and how many of the names that are kept belong to containers around it.
#[derive(Clone, Copy, Debug)]
pub struct Container {
    pub is_object: bool,
    pub before: usize,
}

/// The names of the members of open objects, those of the outermost first, and the first name that an ended object repeats.
#[derive(Drop)]
pub struct OpenNames {
    opened: Vec<Container>,
    names: Vec<Name>,
    /// The bytes of the names, and after them those of a name whose value is still to come.
    bytes: Vec<u8>,
    /// A name whose value is still to come.
    name: Option<Name>,
    /// The keys of the names of one object, while it ends.
    table: Vec<u64>,
    /// These names by their keys.
    sorted: Vec<Name>,
    first: Option<usize>,
}

/// The names after so many.
#[inline(always)]
fn names_behind(names: &[Name], count: usize) -> &[Name]
    ensures { result.now ≡ drop count names.now }
{
    if count < names.len() {
        &names[count..]
    } else {
        &[]
    }
}

/// Whether the container is an array that begins after so many names.
#[inline(always)]
fn is_array_behind(container: &Container, names: usize) -> bool
    ensures { IsTrue result → container.now ≡ array_behind names }
{
    !container.is_object && container.before == names
}

/// Whether each container is an array that begins after so many names.
#[inline(always)]
fn are_all_behind(opened: &[Container], names: usize) -> bool
    ensures { IsTrue result → All (λ container. container ≡ array_behind names) opened.now }
{
    opened
        .iter()
        .all(|container| is_array_behind(container, names))
}

/// Whether the last containers, so many, are arrays that begin after so many names.
#[inline(always)]
fn are_arrays_behind(opened: &[Container], count: usize, names: usize) -> bool
    ensures { IsTrue result → AreArraysBehind opened.now count names }
{
    if count > opened.len() {
        return false;
    }
    are_all_behind(&opened[opened.len() - count..], names)
}

impl OpenNames {
    /// No container is open yet, and no name kept.
    pub(crate) fn new(alloc: Global) -> OpenNames
        ensures { (text : List ℕ) → Stands text nothing_built (kept result) }
    {
        OpenNames {
            opened: Vec::new(alloc),
            names: Vec::new(alloc),
            bytes: Vec::new(alloc),
            name: None,
            table: Vec::new(alloc),
            sorted: Vec::new(alloc),
            first: None,
        }
    }

    /// The start of the first name, so far, that an object which has ended repeats.
    pub(crate) fn first(&self) -> Option<usize>
        ensures { result ≡ (kept self.now).first }
    {
        self.first
    }

    /// A value begins: the name that waits belongs to it.
    #[inline(always)]
    fn begin_value(&mut self) -> Result<(), AllocError>
        ensures { IfOk result (λ _. kept self.new ≡ with_value (kept self.old)) }
    {
        if let Some(name) = self.name {
            self.names.push(name)?;
            self.name = None;
        }
        Ok(())
    }

    /// A container begins, and is the innermost open one.
    #[inline(always)]
    fn begin(&mut self, is_object: bool) -> Result<(), AllocError>
        ensures { IfOk result (λ _. kept self.new ≡ with_container is_object (kept self.old)) }
    {
        self.begin_value()?;
        let before = self.names.len();
        self.opened.push(Container { is_object, before })?;
        Ok(())
    }

    /// The first name that the innermost open container repeats, where its names are those after so many.
    #[inline(always)]
    fn repeated_behind(&mut self, before: usize) -> Result<Option<usize>, AllocError>
        ensures name { IfOk result (IsLeast (IsRepeatedKept self.old.bytes.items (drop before self.old.names.items))) }
        ensures same { IfOk result (λ _. kept self.new ≡ kept self.old) }
    {
        first_repeated(
            &self.bytes,
            names_behind(&self.names, before),
            &mut self.table,
            &mut self.sorted,
        )
    }

    /// Where the bytes of the last name end.
    #[inline(always)]
    fn bytes_end(&self) -> usize
        ensures { result ≡ end_from 0 self.now.names.items }
    {
        match self.names.last() {
            Some(name) => name.to,
            None => 0,
        }
    }

    /// Frees the bytes that belong to no name.
    #[inline(always)]
    fn cut_bytes(&mut self)
        ensures { kept self.new ≡ record (kept self.old) { bytes = cut_back self.old.bytes.items self.old.names.items self.old.name } }
    {
        if self.name.is_none() {
            let end = self.bytes_end();
            self.bytes.truncate(end);
        }
    }

    /// The innermost open container ends, if there is one, and its names are let go.
    #[inline(always)]
    fn end(&mut self) -> Result<(), AllocError>
        ensures { IfOk result (λ _. Ends (reverse self.old.opened.items) (kept self.old) (kept self.new)) }
    {
        if let Some(top) = self.opened.pop() {
            if top.is_object {
                let repeated = self.repeated_behind(top.before)?;
                self.first = earlier(self.first, repeated);
            }
            self.names.truncate(top.before);
            self.cut_bytes();
        }
        Ok(())
    }

    /// Whether a string that comes next is a name: the innermost open container is an object, and no name waits.
    #[inline(always)]
    fn names_next(&self) -> bool
        ensures { result ≡ names_next (reverse self.now.opened.items) self.now.name }
    {
        match (self.opened.last(), self.name) {
            (Some(top), None) => top.is_object,
            _ => false,
        }
    }

    /// Whether a token start of this kind, if it comes next, begins a name.
    #[inline(always)]
    pub(crate) fn is_name_next(&self, kind: MarkKind) -> bool
        ensures { result ≡ is_name_next kind (kept self.now) }
    {
        match kind {
            MarkKind::String => self.names_next(),
            _ => false,
        }
    }

    /// Whether a string that comes next is a child of an array: the innermost open container is one, and no name waits.
    #[inline(always)]
    pub(crate) fn is_child_next(&self) -> bool
        ensures { result ≡ is_child_next (reverse self.now.opened.items) self.now.name }
    {
        match (self.opened.last(), self.name) {
            (Some(top), None) => !top.is_object,
            _ => false,
        }
    }

    /// How many containers are open.
    #[inline(always)]
    pub(crate) fn depth(&self) -> usize
        ensures { result ≡ length self.now.opened.items }
    {
        self.opened.len()
    }

    /// Whether no name waits, and no bytes are kept but those of names.
    #[inline(always)]
    fn is_settled(&self) -> bool
        ensures name { IsTrue result → self.now.name ≡ None }
        ensures bytes { IsTrue result → end_from 0 self.now.names.items ≡ length self.now.bytes.items }
    {
        if self.name.is_some() {
            return false;
        }
        self.bytes_end() == self.bytes.len()
    }

    /// Whether the innermost open containers, so many, are arrays in one another, and what is kept stays as it is while they end.
    #[inline(always)]
    pub(crate) fn is_in_arrays(&self, count: usize) -> bool
        ensures { IsTrue result → IsInArrays self.now count }
    {
        if !self.is_settled() {
            return false;
        }
        are_arrays_behind(&self.opened, count, self.names.len())
    }

    /// Sets how many containers are open: inner ones end, and new ones are arrays.
    #[inline(always)]
    pub(crate) fn set_depth(&mut self, depth: usize) -> Result<(), AllocError>
        ensures { IfOk result (λ _. kept self.new ≡ record (kept self.old) { opened = reverse (resized depth (array_behind (length self.old.names.items)) self.old.opened.items) }) }
    {
        let array = Container {
            is_object: false,
            before: self.names.len(),
        };
        self.opened.resize(depth, array)?;
        Ok(())
    }

    /// A value of one token, which is no name. Fails only when out of memory.
    #[inline(always)]
    pub(crate) fn scalar(&mut self) -> Result<(), AllocError>
        ensures { IfOk result (λ _. (text : List ℕ) (b : Building) (kind : MarkKind) (at end : ℕ) → is_token kind ≡ true → is_name_next kind (kept self.old) ≡ false
            → Stands text b (kept self.old) → Stands text (on_mark kind at end b) (kept self.new)) }
    {
        let Some(_) = self.name else {
            return Ok(());
        };
        self.begin_value()?;
        Ok(())
    }

    /// A name that begins at an offset, by where it stands in a list of bytes with its quotation marks.
    #[inline(always)]
    fn begin_name(
        &mut self,
        at: usize,
        text: &[u8],
        from: usize,
        to: usize,
    ) -> Result<(), AllocError>
        requires { (from ≤ to) × (to ≤ length text.now) }
        ensures { IfOk result (λ _. kept self.new ≡ with_name at (string_units (slice_range text.now from to)) (kept self.old)) }
    {
        let start = self.bytes.len();
        let key = add_name(&mut self.bytes, text, from, to)?;
        let end = self.bytes.len();
        self.name = Some(Name {
            at,
            from: start,
            to: end,
            key,
        });
        Ok(())
    }

    /// A whole name, which the part of a slice from one offset to another is.
    #[inline(always)]
    pub(crate) fn name(
        &mut self,
        at: usize,
        slice: &[u8],
        from: usize,
        to: usize,
    ) -> Result<(), AllocError>
        ensures within { IfOk result (λ _. (from ≤ to) × (to ≤ length slice.now)) }
        ensures stands { IfOk result (λ _. (text : List ℕ) (b : Building) (kind : MarkKind) (end : ℕ) → is_name_next kind (kept self.old) ≡ true → slice_range text at end ≡ slice_range slice.now from to
            → Stands text b (kept self.old) → Stands text (on_mark kind at end b) (kept self.new)) }
    {
        if from > to || to > slice.len() {
            return Err(AllocError);
        }
        self.begin_name(at, slice, from, to)
    }

    /// Takes one more structural byte. Fails only when out of memory.
    #[inline(always)]
    pub(crate) fn structural(&mut self, kind: MarkKind) -> Result<(), AllocError>
        requires { is_token kind ≡ false }
        ensures { IfOk result (λ _. (text : List ℕ) (b : Building) (at end : ℕ) → Stands text b (kept self.old) → Stands text (on_mark kind at end b) (kept self.new)) }
    {
        match kind {
            MarkKind::OpenArray => self.begin(false),
            MarkKind::OpenObject => self.begin(true),
            MarkKind::CloseArray | MarkKind::CloseObject => self.end(),
            // Neither changes which names there are.
            MarkKind::Colon | MarkKind::Comma => Ok(()),
            _ => unreachable!(),
        }
    }

    /// Takes one more token start, and of a name its bytes, with the quotation marks. Fails only when out of memory.
    pub(crate) fn tell(&mut self, kind: MarkKind, at: usize, name: &[u8]) -> Result<(), AllocError>
        ensures { IfOk result (λ _. (text : List ℕ) (b : Building) (end : ℕ) → (is_name_next kind (kept self.old) ≡ true → slice_range text at end ≡ name.now)
            → Stands text b (kept self.old) → Stands text (on_mark kind at end b) (kept self.new)) }
    {
        if !has_end(kind) {
            return self.structural(kind);
        }
        if self.is_name_next(kind) {
            return self.begin_name(at, name, 0, name.len());
        }
        self.begin_value()
    }
}
