// Where a name stands among the tokens of a text, where none is a fault.
ghost use Rattle.std.specs.List.{All};
ghost use Rattle.std.specs.Prelude.{◌≡◌, ◌+◌, ◌∷◌, [], false, length, reverse, IfOk, IfSome, IsTrue};
ghost use Rattle.jx_file_build.specs.inside.OpenKinds.{AreArrays, IsInArrays, after, behind_comma, behind_string, is_last, kinds, resized, without_first};

use jx_lex::{MarkKind, TokenCounts};
use std::alloc::{AllocError, Global};

/// Where a name stands.
#[derive(Clone, Copy, Debug, PartialEq, Eq)]
pub enum NamePlace {
    /// It comes next, if a string does.
    Next,
    /// It is the last token.
    Last,
    /// Neither.
    Elsewhere,
}

/// Which open containers are objects, and where a name stands in the innermost one.
#[derive(Drop)]
pub struct OpenKinds {
    /// Those of the outermost first.
    pub are_objects: Vec<bool>,
    pub name: NamePlace,
}

/// Where a name stands after a string.
#[inline(always)]
fn behind_string(name: NamePlace) -> NamePlace
    ensures { result ≡ behind_string name }
{
    match name {
        NamePlace::Next => NamePlace::Last,
        NamePlace::Last => NamePlace::Elsewhere,
        NamePlace::Elsewhere => NamePlace::Elsewhere,
    }
}

/// Whether the container is an array.
#[inline(always)]
fn is_array(is_object: bool) -> bool
    ensures { IsTrue result → is_object ≡ false }
{
    !is_object
}

/// Whether each of these containers is an array.
#[inline(always)]
fn are_all_arrays(are_objects: &[bool]) -> bool
    ensures { IsTrue result → All (λ is_object. is_object ≡ false) are_objects.now }
{
    are_objects.iter().all(|is_object| is_array(*is_object))
}

/// Whether the last of these containers, so many, are arrays.
#[inline(always)]
fn are_arrays(are_objects: &[bool], count: usize) -> bool
    ensures { IsTrue result → AreArrays are_objects.now count }
{
    if count > are_objects.len() {
        return false;
    }
    are_all_arrays(&are_objects[are_objects.len() - count..])
}

impl OpenKinds {
    /// No container is open.
    pub(crate) fn new(alloc: Global) -> OpenKinds
        ensures { kinds result ≡ record { opened = []; name = NamePlace.Elsewhere } }
    {
        OpenKinds {
            are_objects: Vec::new(alloc),
            name: NamePlace::Elsewhere,
        }
    }

    /// Whether the last token is a name.
    #[inline(always)]
    pub(crate) fn is_behind_name(&self) -> bool
        ensures { result ≡ is_last self.now.name }
    {
        match self.name {
            NamePlace::Last => true,
            NamePlace::Next => false,
            NamePlace::Elsewhere => false,
        }
    }

    /// A container begins, with a name next or not.
    #[inline(always)]
    fn begin(&mut self, is_object: bool, name: NamePlace) -> Result<(), AllocError>
        ensures { IfOk result (λ _. kinds self.new ≡ record { opened = is_object ∷ (kinds self.old).opened; name = name }) }
    {
        self.are_objects.push(is_object)?;
        self.name = name;
        Ok(())
    }

    /// The innermost container ends, if there is one.
    #[inline(always)]
    fn end(&mut self)
        ensures { kinds self.new ≡ record { opened = without_first (kinds self.old).opened; name = NamePlace.Elsewhere } }
    {
        self.name = NamePlace::Elsewhere;
        let count = self.are_objects.len();
        self.are_objects.truncate(count.saturating_sub(1));
    }

    /// Where a name stands after a comma.
    #[inline(always)]
    fn behind_comma(&self) -> NamePlace
        ensures { result ≡ behind_comma (kinds self.now).opened }
    {
        match self.are_objects.last() {
            Some(is_object) => {
                if *is_object {
                    NamePlace::Next
                } else {
                    NamePlace::Elsewhere
                }
            }
            None => NamePlace::Elsewhere,
        }
    }

    /// Takes one more token start. Fails only when out of memory.
    #[inline(always)]
    pub(crate) fn push(&mut self, kind: MarkKind) -> Result<(), AllocError>
        ensures { IfOk result (λ _. kinds self.new ≡ after kind (kinds self.old)) }
    {
        match kind {
            MarkKind::OpenArray => self.begin(false, NamePlace::Elsewhere)?,
            MarkKind::OpenObject => self.begin(true, NamePlace::Next)?,
            MarkKind::CloseArray | MarkKind::CloseObject => self.end(),
            MarkKind::Comma => self.name = self.behind_comma(),
            MarkKind::String => self.name = behind_string(self.name),
            MarkKind::Colon
            | MarkKind::Number
            | MarkKind::True
            | MarkKind::False
            | MarkKind::Null => self.name = NamePlace::Elsewhere,
        }
        Ok(())
    }

    /// Whether no name comes next, and none is the last token.
    #[inline(always)]
    fn is_elsewhere(&self) -> bool
        ensures { IsTrue result → self.now.name ≡ NamePlace.Elsewhere }
    {
        match self.name {
            NamePlace::Elsewhere => true,
            NamePlace::Next => false,
            NamePlace::Last => false,
        }
    }

    /// Whether the innermost open containers, so many, are arrays, in which no name stands.
    #[inline(always)]
    fn is_in_arrays(&self, count: usize) -> bool
        ensures { IsTrue result → IsInArrays self.now count }
    {
        if !self.is_elsewhere() {
            return false;
        }
        are_arrays(&self.are_objects, count)
    }

    /// Whether the innermost open container is an array, so that tokens which follow may be counted.
    #[inline(always)]
    pub(crate) fn may_count(&self) -> bool {
        self.is_in_arrays(1)
    }

    /// How many containers are open after tokens that have these counts, where they open and close arrays alone, and stand in
    /// arrays: no name is among them.
    #[inline(always)]
    pub(crate) fn depth_behind(&self, counts: &TokenCounts) -> Option<usize>
        ensures arrays { IfSome result (λ depth. IsInArrays self.now (counts.now.lowest + 1)) }
        ensures braces { IfSome result (λ depth. counts.now.braces ≡ 0) }
        ensures depth { IfSome result (λ depth. depth + counts.now.closing ≡ length self.now.are_objects.items + counts.now.opening) }
    {
        if counts.braces != 0 {
            return None;
        }
        if !self.is_in_arrays(counts.lowest as usize + 1) {
            return None;
        }
        let opened = self.are_objects.len().checked_add(counts.opening as usize)?;
        let depth = opened.checked_sub(counts.closing as usize)?;
        Some(depth)
    }

    /// Sets how many containers are open: inner ones end, and new ones are arrays.
    #[inline(always)]
    pub(crate) fn set_depth(&mut self, depth: usize) -> Result<(), AllocError>
        ensures { IfOk result (λ _. kinds self.new ≡ record (kinds self.old) { opened = reverse (resized depth self.old.are_objects.items) }) }
    {
        self.are_objects.resize(depth, false)?;
        Ok(())
    }
}
