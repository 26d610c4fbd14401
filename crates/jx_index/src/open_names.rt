// The names of the members of open objects, while a text is read.
ghost use Rattle.std.specs.Prelude.{◌≡◌, ℕ, List, drop, reverse, IfOk};
ghost use Rattle.jx_index.specs.Repeats.{IsLeast};
ghost use Rattle.jx_index.specs.inside.Building.{Building, nothing_built, on_mark};
ghost use Rattle.jx_index.specs.inside.NameLists.{IsRepeatedName};
ghost use Rattle.jx_index.specs.inside.OpenNames.{held, is_name_next, with_container, with_value, Ends, IsHeldOf};

use crate::name_lists::{first_repeated, names_behind};
use crate::repeats::earlier;
use jx_lex::{MarkKind, Span};
use std::alloc::{AllocError, Global};

/// An open container: whether it is an object, and how many of the kept names belong to containers around it.
#[derive(Clone, Copy, Debug)]
pub struct Holder {
    pub is_object: bool,
    pub before: usize,
}

/// The names of the members of open objects, those of the outermost first, and the first name that an ended object repeats.
#[derive(Drop)]
pub struct OpenNames<'a> {
    text: &'a [u8],
    opened: Vec<Holder>,
    names: Vec<Span>,
    /// A name whose value is still to come.
    name: Option<Span>,
    /// The keys of the names of one object, and its names by their units, while it ends.
    keys: Vec<u64>,
    sorted: Vec<Span>,
    first: Option<usize>,
}

impl<'a> OpenNames<'a> {
    /// No container is open yet, and no name held.
    pub(crate) fn new(alloc: Global, text: &'a [u8]) -> OpenNames<'a>
        ensures { IsHeldOf text.now nothing_built (held result) }
    {
        OpenNames {
            text,
            opened: Vec::new(alloc),
            names: Vec::new(alloc),
            name: None,
            keys: Vec::new(alloc),
            sorted: Vec::new(alloc),
            first: None,
        }
    }

    /// The start of the first name, so far, that an object which has ended repeats.
    pub(crate) fn first(&self) -> Option<usize>
        ensures { result ≡ (held self.now).first }
    {
        self.first
    }

    /// A value begins: the name that waits belongs to it.
    fn begin_value(&mut self) -> Result<(), AllocError>
        ensures { IfOk result (λ _. held self.new ≡ with_value (held self.old)) }
    {
        if let Some(name) = self.name {
            self.names.push(name)?;
            self.name = None;
        }
        Ok(())
    }

    /// A container begins, and is the innermost open one.
    fn begin(&mut self, is_object: bool) -> Result<(), AllocError>
        ensures { IfOk result (λ _. held self.new ≡ with_container is_object (held self.old)) }
    {
        self.begin_value()?;
        let before = self.names.len();
        self.opened.push(Holder { is_object, before })?;
        Ok(())
    }

    /// The first name that the innermost open container repeats, where its names are those after so many.
    fn repeated_behind(&mut self, before: usize) -> Result<Option<usize>, AllocError>
        ensures name { IfOk result (IsLeast (IsRepeatedName self.old.text.now (drop before self.old.names.items))) }
        ensures same { IfOk result (λ _. held self.new ≡ held self.old) }
    {
        first_repeated(
            self.text,
            names_behind(&self.names, before),
            &mut self.keys,
            &mut self.sorted,
        )
    }

    /// The innermost open container ends, if there is one, and its names are freed.
    fn end(&mut self) -> Result<(), AllocError>
        ensures { IfOk result (λ _. Ends (reverse self.old.opened.items) (held self.old) (held self.new)) }
    {
        if let Some(top) = self.opened.pop() {
            if top.is_object {
                let repeated = self.repeated_behind(top.before)?;
                self.first = earlier(self.first, repeated);
            }
            self.names.truncate(top.before);
        }
        Ok(())
    }

    /// Whether a string that comes next is a name: the innermost open container is an object, and no name waits.
    fn is_name_next(&self) -> bool
        ensures { result ≡ is_name_next (reverse self.now.opened.items) self.now.name }
    {
        match (self.opened.last(), self.name) {
            (Some(top), None) => top.is_object,
            _ => false,
        }
    }

    /// Takes one more token start, and its end where it has one. Fails only when out of memory.
    pub(crate) fn mark(&mut self, kind: MarkKind, at: usize, end: usize) -> Result<(), AllocError>
        ensures { IfOk result (λ _. (text : List ℕ) (b : Building) → IsHeldOf text b (held self.old) → IsHeldOf text (on_mark kind at end b) (held self.new)) }
    {
        match kind {
            MarkKind::OpenArray => self.begin(false),
            MarkKind::OpenObject => self.begin(true),
            MarkKind::CloseArray | MarkKind::CloseObject => self.end(),
            MarkKind::Colon | MarkKind::Comma => Ok(()),
            MarkKind::String => {
                if self.is_name_next() {
                    self.name = Some(Span { start: at, end });
                    return Ok(());
                }
                self.begin_value()
            }
            MarkKind::Number | MarkKind::True | MarkKind::False | MarkKind::Null => {
                self.begin_value()
            }
        }
    }
}
