// Look-ups of the pointers of a trie in a text that is fed: names are given by their bytes, and the text itself is not
// at hand.
ghost use Rattle.std.specs.Prelude.{◌≡◌, ℕ, All, List, length, map, slice_range, true, IfOk, OnOk};
ghost use Rattle.std.specs.List.{AllZip};
ghost use Rattle.jx_lex.specs.declared.alphabet.mark.MarkKind.TheVariants.{String};
ghost use Rattle.jx_run.specs.declared.texts.settings.Settings.{Settings};
ghost use Rattle.jx_run.specs.declared.texts.verdict.Verdict.TheVariants.{Accepted};
ghost use Rattle.jx_run.specs.Settings.{JudgedBy};
ghost use Rattle.jx_run.specs.Telling.{tokens_by};
ghost use Rattle.jx_index.specs.declared.trie.Edge.{Edge};
ghost use Rattle.jx_index.specs.Found.{AreFoundIn};
ghost use Rattle.jx_index.specs.inside.Finding.{nothing_met};
ghost use Rattle.jx_index.specs.inside.Found.{finding};
ghost use Rattle.jx_index.specs.inside.PointerWays.{IsWayOf, nodes_of};
ghost use Rattle.jx_index.specs.inside.Seeking.{IsReady};
ghost use Rattle.jx_index.specs.inside.Trie.{HasWay, IsTrie, is_name_next, seek_all, sought};

use crate::find_fault::FindFault;
use crate::finder::{Found, Met};
use crate::laws::index_behind_a_front;
use crate::pointer::Pointer;
use crate::pointer_ways::Way;
use crate::read_met::{read_each, read_ways};
use crate::seeker::Seeker;
use crate::trie::Edge;
use crate::trie_nodes::member;
use jx_lex::{MarkKind, Span, grammar_of_tokens};
use jx_run::accepted_texts_stand_behind_fronts;
use std::alloc::{AllocError, Global};

impl<'s> Seeker<'s> {
    /// Whether a token start of this kind, if it comes next, begins the name of a member of an object to which tokens
    /// lead.
    #[inline(always)]
    pub fn is_name_next(&self, kind: MarkKind) -> bool
        ensures { result ≡ is_name_next kind (finding self.now.state) }
    {
        match kind {
            MarkKind::String => self.state.skipped == 0 && self.state.naming().is_some(),
            _ => false,
        }
    }

    /// Takes a name where one comes next, by its bytes, with the quotation marks.
    #[inline(always)]
    pub fn name(&mut self, edges: &[Edge], name: &[u8])
        requires { is_name_next String (finding self.old.state) ≡ true }
        ensures noted { IsTrie edges.now → (text : List ℕ) (at end : ℕ) → slice_range text at end ≡ name.now
            → finding self.new.state ≡ sought text edges.now String at end (finding self.old.state) }
        ensures next { IsReady edges.now self.old → IsReady edges.now self.new }
    {
        if let Some(node) = self.state.naming() {
            let span = Span {
                start: 0,
                end: name.len(),
            };
            self.state.name = Some(member(name, edges, self.starts, node, span));
        }
    }

    /// Takes one more token start of a text, its end where it has one, and of a name its bytes,
    /// with the quotation marks. Fails only when out of memory.
    #[inline(always)]
    pub fn tell(
        &mut self,
        edges: &[Edge],
        kind: MarkKind,
        at: usize,
        end: usize,
        name: &[u8],
    ) -> Result<(), AllocError>
        ensures noted { IfOk result (λ _. IsTrie edges.now → IsReady edges.now self.old → (text : List ℕ) → (is_name_next kind (finding self.old.state) ≡ true → slice_range text at end ≡ name.now)
            → finding self.new.state ≡ sought text edges.now kind at end (finding self.old.state)) }
        ensures next { IfOk result (λ _. IsTrie edges.now → IsReady edges.now self.old → IsReady edges.now self.new) }
    {
        if self.is_name_next(kind) {
            self.name(edges, name);
            return Ok(());
        }
        self.mark(&[], edges, kind, at, end)
    }
}

/// The answer to each pointer in an accepted text, in order, by what was met at the nodes of the trie of all of them
/// when the sink had seen the tokens of the text.
pub fn answers_of(
    alloc: Global,
    edges: &[Edge],
    starts: &[usize],
    met: &[Met],
    pointers: &[Pointer],
) -> Result<Vec<Result<Found, FindFault>>, AllocError>
    ensures { IfOk result (λ found. (settings : Settings) (bytes : List ℕ) → IsTrie edges.now → All (λ (pointer : List ℕ). HasWay edges.now pointer) pointers.now
        → JudgedBy settings 0 bytes Accepted
        → met.now ≡ (seek_all bytes edges.now (length bytes) (tokens_by settings.mark bytes).marks (tokens_by settings.mark bytes).ends (nothing_met (length edges.now))).met
        → AreFoundIn settings bytes pointers.now found.items) }
{
    grammar_of_tokens();
    accepted_texts_stand_behind_fronts();
    index_behind_a_front();
    let found = read_each(alloc, edges, starts, met, pointers)?;
    Ok(found)
}

/// The same, by the ways of the pointers, and in place of what was found before. So it takes no memory for a pointer that
/// leads to a value.
pub fn answers_along(
    alloc: Global,
    met: &[Met],
    ways: &[Way],
    pointers: &[Pointer],
    found: &mut Vec<Result<Found, FindFault>>,
) -> Result<(), AllocError>
    requires { length pointers.now ≡ length ways.now }
    ensures { OnOk result ((settings : Settings) (bytes : List ℕ) (edges : List Edge) → IsTrie edges → All (λ (pointer : List ℕ). HasWay edges pointer) pointers.now → AllZip (IsWayOf edges) pointers.now (map nodes_of ways.now)
        → JudgedBy settings 0 bytes Accepted
        → met.now ≡ (seek_all bytes edges (length bytes) (tokens_by settings.mark bytes).marks (tokens_by settings.mark bytes).ends (nothing_met (length edges))).met
        → AreFoundIn settings bytes pointers.now found.new.items) }
{
    grammar_of_tokens();
    accepted_texts_stand_behind_fronts();
    index_behind_a_front();
    read_ways(alloc, met, ways, pointers, found)
}
