// Look-ups of the pointers of a trie, noted as the token starts of a text come.
ghost use Rattle.std.specs.Prelude.{◌≡◌, ◌<◌, ◌-◌, ◌^◌, List, reverse, IfOk};
ghost use Rattle.jx_index.specs.declared.trie.Edge.{Edge};
ghost use Rattle.jx_index.specs.inside.Finding.{begin_at, end_in, leaf_at, naming, nothing_met};
ghost use Rattle.jx_index.specs.inside.Seeking.{IsReady};
ghost use Rattle.jx_index.specs.inside.Found.{finding, HasRoom};
ghost use Rattle.jx_index.specs.inside.Trie.{among, element_at, first_open, place_from, sought, string_among, target_node, IsNextFrom, IsTrie};

use crate::finder::{Cursor, State, one_more};
use crate::trie::Edge;
use crate::trie_nodes::{first_of_place, member};
use jx_lex::{Kind, MarkKind, Span};
use std::alloc::{AllocError, Global};

/// The values met at each node of a trie, and the open containers at its nodes: the levels are numbers of nodes.
#[derive(Drop)]
pub struct Seeker<'s> {
    pub state: State,
    /// No edge from the node of the innermost open array names a place from its count on and below this.
    pub next: usize,
    /// Where the edges of each node begin.
    pub starts: &'s [usize],
}

/// The place that an edge names, where it is one from this node, or the greatest `usize`.
fn place_from(edges: &[Edge], at: usize, node: usize) -> usize
    ensures { result ≡ place_from edges.now at node }
{
    match edges.get(at) {
        Some(edge) if edge.parent == node => edge.place,
        _ => usize::MAX,
    }
}

/// The innermost open container.
#[inline(always)]
fn innermost(opened: &[Cursor]) -> Option<Cursor>
    ensures { result ≡ first_open (reverse opened.now) }
{
    match opened.last() {
        Some(top) => Some(*top),
        None => None,
    }
}

impl<'s> Seeker<'s> {
    /// A seeker that has met nothing yet at the nodes after so many edges.
    pub fn new(alloc: Global, edges: usize, starts: &'s [usize]) -> Result<Seeker<'s>, AllocError>
        ensures state { IfOk result (λ seeker. finding seeker.state ≡ nothing_met edges) }
        ensures next { IfOk result (λ seeker. seeker.next ≡ 0) }
    {
        Ok(Seeker {
            state: State::new(alloc, edges)?,
            next: 0,
            starts,
        })
    }

    /// The node of the element at a place, which is the next one of the innermost open array.
    #[inline(always)]
    fn element(&mut self, edges: &[Edge], node: usize, place: usize) -> Option<usize>
        ensures state { self.new.state ≡ self.old.state }
        ensures found { IsTrie edges.now → IsNextFrom edges.now node place self.old.next → place < 2 ^ 64 - 1 → result ≡ element_at edges.now node place }
        ensures next { IsTrie edges.now → IsNextFrom edges.now node place self.old.next → IsNextFrom edges.now node place self.new.next }
    {
        if place < self.next {
            return None;
        }
        let at = first_of_place(edges, self.starts, node, place);
        self.next = place_from(edges, at, node);
        if self.next == place {
            Some(at + 1)
        } else {
            None
        }
    }

    /// The node that the next value meets, where it does.
    #[inline(always)]
    fn target(&mut self, edges: &[Edge]) -> Option<usize>
        ensures state { self.new.state ≡ self.old.state }
        ensures found { IsTrie edges.now → IsReady edges.now self.old → HasRoom (reverse self.old.state.opened.items) → result ≡ target_node edges.now (finding self.old.state) }
        ensures next { IsTrie edges.now → IsReady edges.now self.old → IsReady edges.now self.new }
    {
        let Some(top) = innermost(&self.state.opened) else {
            return Some(0);
        };
        if top.is_object {
            self.state.name.unwrap_or(None)
        } else {
            self.element(edges, top.level, top.count)
        }
    }

    /// A value of one token.
    #[inline(always)]
    fn leaf(&mut self, edges: &[Edge], kind: Kind, span: Span) -> Result<(), AllocError>
        ensures noted { IfOk result (λ _. IsTrie edges.now → IsReady edges.now self.old → finding self.new.state ≡ leaf_at (target_node edges.now (finding self.old.state)) kind span (finding self.old.state)) }
        ensures next { IfOk result (λ _. IsTrie edges.now → IsReady edges.now self.old → IsReady edges.now self.new) }
    {
        let target = self.target(edges);
        self.state.leaf(target, kind, span)?;
        Ok(())
    }

    /// A container begins. What stands in it is skipped where it meets no node.
    fn begin(
        &mut self,
        edges: &[Edge],
        kind: Kind,
        is_object: bool,
        at: usize,
    ) -> Result<(), AllocError>
        ensures noted { IfOk result (λ _. IsTrie edges.now → IsReady edges.now self.old → finding self.new.state ≡ begin_at (target_node edges.now (finding self.old.state)) kind is_object at (finding self.old.state)) }
        ensures next { IfOk result (λ _. IsTrie edges.now → IsReady edges.now self.old → IsReady edges.now self.new) }
    {
        match self.target(edges) {
            // The innermost open container stays the same, so its next place does too.
            None => self.state.begin(None, kind, is_object, at),
            target => {
                self.next = 0;
                self.state.begin(target, kind, is_object, at)
            }
        }
    }

    /// A string: a name, or a value.
    #[inline(always)]
    fn string(&mut self, text: &[u8], edges: &[Edge], span: Span) -> Result<(), AllocError>
        ensures noted { IfOk result (λ _. IsTrie edges.now → IsReady edges.now self.old → finding self.new.state ≡ string_among (naming (reverse self.old.state.opened.items) self.old.state.name) text.now edges.now span (finding self.old.state)) }
        ensures next { IfOk result (λ _. IsTrie edges.now → IsReady edges.now self.old → IsReady edges.now self.new) }
    {
        match self.state.naming() {
            None => self.leaf(edges, Kind::String, span),
            Some(node) => {
                self.state.name = Some(member(text, edges, self.starts, node, span));
                Ok(())
            }
        }
    }

    /// The innermost open container ends, if there is one.
    fn end(&mut self, end: usize)
        ensures noted { finding self.new.state ≡ end_in end (reverse self.old.state.opened.items) (finding self.old.state) }
        ensures next { (edges : List Edge) → IsReady edges self.new }
    {
        self.state.end(end);
        self.next = 0;
    }

    /// A token start where nothing is skipped, and its end where it has one.
    #[inline(always)]
    fn among(
        &mut self,
        text: &[u8],
        edges: &[Edge],
        kind: MarkKind,
        at: usize,
        end: usize,
    ) -> Result<(), AllocError>
        ensures noted { IfOk result (λ _. IsTrie edges.now → IsReady edges.now self.old → finding self.new.state ≡ among text.now edges.now kind at end (finding self.old.state)) }
        ensures next { IfOk result (λ _. IsTrie edges.now → IsReady edges.now self.old → IsReady edges.now self.new) }
    {
        let span = Span { start: at, end };
        match kind {
            MarkKind::OpenArray => self.begin(edges, Kind::Array, false, at),
            MarkKind::OpenObject => self.begin(edges, Kind::Object, true, at),
            MarkKind::CloseArray | MarkKind::CloseObject => {
                self.end(one_more(at)?);
                Ok(())
            }
            MarkKind::Colon | MarkKind::Comma => Ok(()),
            MarkKind::String => self.string(text, edges, span),
            MarkKind::Number => self.leaf(edges, Kind::Number, span),
            MarkKind::True => self.leaf(edges, Kind::True, span),
            MarkKind::False => self.leaf(edges, Kind::False, span),
            MarkKind::Null => self.leaf(edges, Kind::Null, span),
        }
    }

    /// Takes one more token start, and its end where it has one. Fails only when out of memory.
    #[inline(always)]
    pub(crate) fn mark(
        &mut self,
        text: &[u8],
        edges: &[Edge],
        kind: MarkKind,
        at: usize,
        end: usize,
    ) -> Result<(), AllocError>
        ensures noted { IfOk result (λ _. IsTrie edges.now → IsReady edges.now self.old → finding self.new.state ≡ sought text.now edges.now kind at end (finding self.old.state)) }
        ensures next { IfOk result (λ _. IsTrie edges.now → IsReady edges.now self.old → IsReady edges.now self.new) }
    {
        if self.state.skipped == 0 {
            return self.among(text, edges, kind, at, end);
        }
        self.state.pass(kind)
    }
}
