// The values met at the nodes of a trie, and the open containers, as the token starts of a text come.
ghost use Rattle.std.specs.Prelude.{◌≡◌, ◌+◌, ◌-◌, ◌<◌, reverse, IfOk, OnOk};
ghost use Rattle.jx_index.specs.inside.Finding.{met_more, met_ended, meet, shut, counted, leaf_at, begin_at, end_in, naming, nothing_met, skip_over};
ghost use Rattle.jx_index.specs.inside.Found.{finding, HasRoom};

use jx_lex::{Kind, MarkKind, Span};
use std::alloc::{AllocError, Global};

/// A value of a text.
#[derive(Clone, Copy, Debug, PartialEq, Eq)]
pub struct Found {
    pub kind: Kind,
    /// Where it stands, in bytes of the whole input: a string with its quotation marks, a container with its brackets.
    pub span: Span,
}

/// The values met where some tokens lead.
#[derive(Clone, Copy, Debug)]
pub enum Met {
    Never,
    Once(Found),
    Again,
}

/// An open container to which some tokens lead: the number of its node, what it is and how many children it has so far.
#[derive(Clone, Copy, Debug)]
pub struct Cursor {
    pub level: usize,
    pub is_object: bool,
    pub count: usize,
}

/// The state of a look-up: what was met at each node; the open containers to which tokens lead, outermost first; how
/// many are open below them to which none leads; and of a name whose value is still to come, to which node it leads.
#[derive(Debug, Drop)]
pub struct State {
    pub met: Vec<Met>,
    pub opened: Vec<Cursor>,
    pub skipped: usize,
    pub name: Option<Option<usize>>,
}

/// One more than a number. A text in memory has never so many bytes that this overflows.
pub(crate) fn one_more(number: usize) -> Result<usize, AllocError>
    ensures { IfOk result (λ more. more ≡ number + 1) }
{
    number.checked_add(1).ok_or(AllocError)
}

/// The values met before, and a value more.
#[inline(always)]
fn met_more(met: Met, found: Found) -> Met
    ensures { result ≡ met_more found met }
{
    match met {
        Met::Never => Met::Once(found),
        Met::Once(_) | Met::Again => Met::Again,
    }
}

/// The values met, where the value that was met last ends.
fn met_ended(met: Met, end: usize) -> Met
    ensures { result ≡ met_ended end met }
{
    match met {
        Met::Once(found) => Met::Once(Found {
            kind: found.kind,
            span: Span {
                start: found.span.start,
                end,
            },
        }),
        Met::Never => Met::Never,
        Met::Again => Met::Again,
    }
}

/// A value is met where some tokens lead.
#[inline(always)]
fn meet(met: &mut Vec<Met>, level: usize, kind: Kind, span: Span)
    ensures { met.new.items ≡ meet kind span level met.old.items }
{
    if level < met.len() {
        let more = met_more(met[level], Found { kind, span });
        met[level] = more;
    }
}

/// The container that was met last where some tokens lead ends there.
fn shut(met: &mut Vec<Met>, level: usize, end: usize)
    ensures { met.new.items ≡ shut end level met.old.items }
{
    if level < met.len() {
        let more = met_ended(met[level], end);
        met[level] = more;
    }
}

/// Counts one child more in the innermost open container, if there is one.
#[inline(always)]
fn count_child(opened: &mut Vec<Cursor>) -> Result<(), AllocError>
    ensures room { IfOk result (λ _. HasRoom (reverse opened.old.items)) }
    ensures counted { IfOk result (λ _. reverse opened.new.items ≡ counted (reverse opened.old.items)) }
{
    let depth = opened.len();
    if depth > 0 {
        let top = &mut opened[depth - 1];
        let count = one_more(top.count)?;
        top.count = count;
    }
    Ok(())
}

impl State {
    /// Nothing was met yet of so many tokens.
    pub(crate) fn new(alloc: Global, tokens: usize) -> Result<State, AllocError>
        ensures { IfOk result (λ state. finding state ≡ nothing_met tokens) }
    {
        let levels = one_more(tokens)?;
        Ok(State {
            met: vec![in alloc; Met::Never; levels]?,
            opened: Vec::new(alloc),
            skipped: 0,
            name: None,
        })
    }

    /// Begins another look-up in the memory of this one: nothing was met yet of so many tokens. Only want of memory is refused.
    #[inline(always)]
    pub fn again(&mut self, tokens: usize) -> Result<(), AllocError>
        ensures { OnOk result (finding self.new ≡ nothing_met tokens) }
    {
        let levels = one_more(tokens)?;
        self.met.clear();
        self.met.resize(levels, Met::Never)?;
        self.opened.clear();
        self.skipped = 0;
        self.name = None;
        Ok(())
    }

    /// A value of one token, to which so many tokens lead, where they do.
    #[inline(always)]
    pub(crate) fn leaf(
        &mut self,
        target: Option<usize>,
        kind: Kind,
        span: Span,
    ) -> Result<(), AllocError>
        ensures room { IfOk result (λ _. HasRoom (reverse self.old.opened.items)) }
        ensures noted { IfOk result (λ _. finding self.new ≡ leaf_at target kind span (finding self.old)) }
    {
        count_child(&mut self.opened)?;
        self.name = None;
        if let Some(level) = target {
            meet(&mut self.met, level, kind, span);
        }
        Ok(())
    }

    /// A container begins, to which so many tokens lead. What stands in it is skipped where none do.
    pub(crate) fn begin(
        &mut self,
        target: Option<usize>,
        kind: Kind,
        is_object: bool,
        at: usize,
    ) -> Result<(), AllocError>
        ensures room { IfOk result (λ _. HasRoom (reverse self.old.opened.items)) }
        ensures noted { IfOk result (λ _. finding self.new ≡ begin_at target kind is_object at (finding self.old)) }
    {
        count_child(&mut self.opened)?;
        self.name = None;
        let Some(level) = target else {
            self.skipped = 1;
            return Ok(());
        };
        let end = one_more(at)?;
        meet(&mut self.met, level, kind, Span { start: at, end });
        self.opened.push(Cursor {
            level,
            is_object,
            count: 0,
        })?;
        Ok(())
    }

    /// The innermost open container ends, if there is one.
    pub(crate) fn end(&mut self, end: usize)
        ensures { finding self.new ≡ end_in end (reverse self.old.opened.items) (finding self.old) }
    {
        if let Some(top) = self.opened.pop() {
            shut(&mut self.met, top.level, end);
            self.name = None;
        }
    }

    /// How many tokens lead to the object whose member's name comes next, if one does.
    #[inline(always)]
    pub(crate) fn naming(&self) -> Option<usize>
        ensures { result ≡ naming (reverse self.now.opened.items) self.now.name }
    {
        match (self.opened.last(), self.name) {
            (Some(top), None) if top.is_object => Some(top.level),
            _ => None,
        }
    }

    /// A token start where something is skipped.
    #[inline(always)]
    pub(crate) fn pass(&mut self, kind: MarkKind) -> Result<(), AllocError>
        requires { 0 < self.old.skipped }
        ensures { IfOk result (λ _. finding self.new ≡ record (finding self.old) { skipped = skip_over kind (self.old.skipped - 1) }) }
    {
        match kind {
            MarkKind::OpenArray | MarkKind::OpenObject => self.skipped = one_more(self.skipped)?,
            MarkKind::CloseArray | MarkKind::CloseObject => self.skipped -= 1,
            _ => {}
        }
        Ok(())
    }
}
