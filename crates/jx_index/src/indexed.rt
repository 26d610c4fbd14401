ghost use Rattle.std.specs.Prelude.{◌≡◌, ◌<◌, ◌≤◌, ℕ, length, map, slice_get, slice_range, Some, IfOk, IfErr, IfSome};
ghost use Rattle.std.specs.List.Sorted.{IsPermutation, IsSortedBy, IsStableBy};
ghost use Rattle.jx_run.specs.declared.texts.verdict.Verdict.TheVariants.{Accepted, Refused};
ghost use Rattle.jx_run.specs.Started.{IsStarted};
ghost use Rattle.jx_run.specs.Text.{IsText};
ghost use Rattle.jx_run.specs.TextRun.{IsTextRun, text_span};
ghost use Rattle.jx_run.specs.Tree.{Tree};
ghost use Rattle.jx_run.specs.Verdict.{Judged};
ghost use Rattle.jx_index.specs.Indexed.{HasNodes, HasTree};
ghost use Rattle.jx_index.specs.Names.{is_below, IsInNameOrder};
ghost use Rattle.jx_index.specs.Nodes.{IsArrayAt, IsObjectAt, child_numbers};
ghost use Rattle.jx_index.specs.Rows.{rows as rows_of};
ghost use Rattle.jx_index.specs.inside.NameFronts.{front_at};

use crate::builder::{Nodes, nodes_from_marks, nodes_of_track};
use crate::child_lists::{ChildLists, child_list, fronts_of};
use crate::children::{Children, children_in};
use crate::row::{NodeId, Row};
use crate::rows_alone::read_nodes;
use jx_lex::{Depth, Span, grammar_of_tokens};
use jx_run::{Pace, Refusal, Started, Summary, TextRun, unique_tree};
use std::alloc::{AllocError, Global};
use std::marker::Model;

/// The members of an object by rising names, and the fronts of their names where these are kept.
#[derive(Clone, Copy, Debug)]
pub struct NameOrder<'i> {
    pub names: &'i [NodeId],
    pub fronts: Option<&'i [u64]>,
}

/// A JSON text with its rows: all its values in the order of their starts, so that each is before its children.
#[derive(Debug, Drop)]
pub struct Indexed<'a> {
    text: &'a [u8],
    span: Span,
    nodes: Nodes,
    lists: ChildLists,
}

impl<'a> Model for Indexed<'a> {
    ghost use Rattle.std.specs.Prelude.{All, length};
    ghost use Rattle.jx_index.specs.Indexed.{IndexedValue, IsIndexed};
    ghost use Rattle.jx_index.specs.inside.WideObjects.{IsWide};

    ghost Value = { IndexedValue };

    ghost view = { λ i. record { text = i.text.now; span = i.span; rows = i.nodes.rows.items } };

    ghost invariant = { λ i. IsIndexed i.text.now i.span i.nodes.rows.items i.nodes.after.items i.lists.starts.items i.lists.children.items
        × All (IsWide i.text.now i.nodes.rows.items i.lists.starts.items i.lists.children.items (length i.nodes.rows.items)) i.lists.wide.items };
}

impl<'a> Indexed<'a> {
    /// The index of a text by its reading: one pass through the token starts and ends, with a stack of the depth.
    /// `Err` when out of memory.
    pub fn build(
        alloc: Global,
        text: &'a [u8],
        started: &Started,
    ) -> Result<Indexed<'a>, AllocError>
        requires ordered { started.now.span.start ≤ started.now.span.end }
        requires within { started.now.span.end ≤ length text.now }
        requires reading { IsStarted (slice_range text.now started.now.span.start started.now.span.end) started.now }
        requires accepted { started.now.verdict ≡ Accepted }
        ensures text { IfOk result (λ index. index.text ≡ text.now) }
        ensures span { IfOk result (λ index. index.span ≡ started.now.span) }
        ensures rows { IfOk result (λ index. (limit : ℕ) (tree : Tree)
            → IsText text.now started.now.span.start started.now.span.end limit tree → index.rows ≡ rows_of tree) }
    {
        grammar_of_tokens();
        let span = started.span();
        let nodes = nodes_from_marks(alloc, started.marks(), started.ends(), span.end)?;
        let index = Indexed::of_nodes(alloc, text, span, nodes)?;
        Ok(index)
    }

    /// Reads the bytes of a span as a whole text (RFC 8259, section 2) in one pass that keeps nothing but the rows.
    /// Returns the index where the text is accepted, else the refusal. It pauses where the pace says, which changes
    /// nothing of that. `Err` when out of memory.
    pub fn read<P: Pace>(
        alloc: Global,
        text: &'a [u8],
        span: Span,
        depth: Depth,
        pace: &mut P,
    ) -> Result<Result<Indexed<'a>, Refusal>, AllocError>
        requires ordered { span.start ≤ span.end }
        requires within { span.end ≤ length text.now }
        ensures accepted { IfOk result (λ read. IfOk read (λ _. Judged span.start (slice_range text.now span.start span.end) depth Accepted)) }
        ensures refused { IfOk result (λ read. IfErr read (λ refusal. Judged span.start (slice_range text.now span.start span.end) depth (Refused refusal))) }
        ensures text { IfOk result (λ read. IfOk read (λ index. index.text ≡ text.now)) }
        ensures span { IfOk result (λ read. IfOk read (λ index. index.span ≡ span)) }
        ensures rows { IfOk result (λ read. IfOk read (λ index. (limit : ℕ) (tree : Tree)
            → IsText text.now span.start span.end limit tree → index.rows ≡ rows_of tree)) }
    {
        let read = read_nodes(alloc, text, span, depth, pace)?;
        match read {
            Err(refusal) => Ok(Err(refusal)),
            Ok(nodes) => {
                let index = Indexed::of_nodes(alloc, text, span, nodes)?;
                Ok(Ok(index))
            }
        }
    }

    /// The index of an accepted text by a run over it, whose token starts and ends are read where they lie. `Err` when
    /// out of memory.
    pub fn of_run(alloc: Global, text: &'a [u8], run: &TextRun) -> Result<Indexed<'a>, AllocError>
        requires ordered { run.now.map.start ≤ run.now.map.end }
        requires within { run.now.map.end ≤ length text.now }
        requires of { IsTextRun (slice_range text.now run.now.map.start run.now.map.end) run.now }
        requires accepted { Judged run.now.map.start (slice_range text.now run.now.map.start run.now.map.end) run.now.depth Accepted }
        ensures text { IfOk result (λ index. index.text ≡ text.now) }
        ensures span { IfOk result (λ index. index.span ≡ text_span run.now) }
        ensures rows { IfOk result (λ index. (limit : ℕ) (tree : Tree)
            → IsText text.now run.now.map.start run.now.map.end limit tree → index.rows ≡ rows_of tree) }
    {
        grammar_of_tokens();
        let span = run.span();
        let nodes = nodes_of_track(alloc, run.marks(), run.ends(), span.end)?;
        let index = Indexed::of_nodes(alloc, text, span, nodes)?;
        Ok(index)
    }

    /// The index of a text by its nodes.
    fn of_nodes(
        alloc: Global,
        text: &'a [u8],
        span: Span,
        nodes: Nodes,
    ) -> Result<Indexed<'a>, AllocError>
        requires { HasNodes text.now span nodes.rows.items nodes.after.items }
        ensures text { IfOk result (λ index. index.text ≡ text.now) }
        ensures span { IfOk result (λ index. index.span ≡ span) }
        ensures rows { IfOk result (λ index. index.rows ≡ nodes.rows.items) }
    {
        unique_tree();
        let lists = ChildLists::of(alloc, text, &nodes.rows, &nodes.after)?;
        Ok(Indexed {
            text,
            span,
            nodes,
            lists,
        })
    }

    /// The whole input, in which the text stands.
    pub fn text(&self) -> &'a [u8]
        ensures { result.now ≡ self.now.text }
    {
        self.text
    }

    /// The span of the text in the whole input, with the white space before and after its value.
    pub fn span(&self) -> Span
        ensures { result ≡ self.now.span }
    {
        self.span
    }

    /// The rows, all of them, in rising order of their starts.
    pub fn rows(&self) -> &[Row]
        ensures same { result.now ≡ self.now.rows }
        ensures has_tree { HasTree self.now }
        ensures tree { (limit : ℕ) (tree : Tree)
            → IsText self.now.text self.now.span.start self.now.span.end limit tree → result.now ≡ rows_of tree }
    {
        self.nodes.rows.as_slice()
    }

    /// The rows, all of them, in rising order of their starts. What else the index holds is freed.
    pub fn into_rows(self) -> Vec<Row>
        ensures { result.items ≡ self.entry.rows }
    {
        let Indexed { nodes, .. } = self;
        nodes.rows
    }

    /// The row of a node.
    pub fn row(&self, node: NodeId) -> &Row
        requires { node < length self.now.rows }
        ensures same { slice_get self.now.rows node ≡ Some result.now }
        ensures tree { (limit : ℕ) (tree : Tree)
            → IsText self.now.text self.now.span.start self.now.span.end limit tree → slice_get (rows_of tree) node ≡ Some result.now }
    {
        &self.nodes.rows[node.number()]
    }

    /// The value of the text itself, whose row is the first.
    pub fn root(&self) -> NodeId
        ensures first { result ≡ 0 }
        ensures is_row { 0 < length self.now.rows }
    {
        let _ = &self.nodes;
        NodeId::new(0)
    }

    /// The children of a node in order: all rows whose parent it is. Each step takes the same time, whatever stands in
    /// the child; a scalar, or a number that no row has, has none.
    pub fn children<'i>(&'i self, node: NodeId) -> Children<'i>
        ensures { result ≡ child_numbers self.now.rows node }
    {
        children_in(&self.nodes.after, node)
    }

    /// The members of an object by rising values of their names, as lists of UTF-16 code units: the first different unit
    /// decides, and a beginning comes before what it begins. Equal names stand by place.
    pub fn names(&self, object: NodeId) -> &[NodeId]
        requires { IsObjectAt self.now.rows object }
        ensures each_once { IsPermutation (child_numbers self.now.rows object) result.now }
        ensures rising { IsSortedBy (is_below self.now.text self.now.rows) result.now }
        ensures equal_by_place { IsStableBy (is_below self.now.text self.now.rows) (child_numbers self.now.rows object) result.now }
    {
        child_list(&self.lists.starts, &self.lists.children, object.number())
    }

    /// The members of an object by rising names, with the fronts of their names where these are kept.
    pub(crate) fn name_order(&self, object: NodeId) -> NameOrder<'_>
        requires { IsObjectAt self.now.rows object }
        ensures order { IsInNameOrder self.now.text self.now.rows (child_numbers self.now.rows object) result.names.now }
        ensures fronts { IfSome result.fronts (λ fronts. fronts.now ≡ map (front_at self.now.text self.now.rows) result.names.now) }
    {
        let number = object.number();
        NameOrder {
            names: child_list(&self.lists.starts, &self.lists.children, number),
            fronts: fronts_of(&self.lists.wide, number),
        }
    }

    /// The elements of an array by place.
    pub(crate) fn elements(&self, array: NodeId) -> &[NodeId]
        requires { IsArrayAt self.now.rows array }
        ensures { result.now ≡ child_numbers self.now.rows array }
    {
        child_list(&self.lists.starts, &self.lists.children, array.number())
    }
}
