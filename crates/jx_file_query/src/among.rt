// Chunks of an object on the way, one after another, that have no member that is wanted.
ghost use Rattle.std.specs.Prelude.{◌≢◌, ◌+◌, Some, IfSome};
ghost use Rattle.jx_file_query.specs.inside.Members.{IsHeldAmong, IsPast, LeadsOn, LeadsTo, TellsAt};

use crate::chunks::{chunk_at, kept_of};
use crate::laws::skipped_parts;
use crate::members::{
    Among, TextNames, cuts_name, may_start, over_chunk, unwanted_name, wants_some,
};
use crate::walk_passing::{Over, innermost, is_in_token, waiting};
use jx_file_index::{Entry, Index};
use jx_find::Sought;
use jx_index::{Cursor, Edge};
use jx_lex::lex_of_two_parts;

/// The entry of the chunk at a place, where the text has one.
fn told_at(index: &Index, at: usize) -> Option<Entry>
    ensures { IfSome result (TellsAt index.now at) }
{
    let span = chunk_at(index, at)?;
    kept_of(index, at, span)
}

/// The innermost object, where what is kept stands in it before a chunk and no wanted value waits.
fn begin(
    index: &Index,
    names: &TextNames,
    edges: &[Edge],
    held: &Sought,
    at: usize,
) -> Option<Cursor>
    requires other { at ≢ 0 }
    ensures { IfSome result (λ c. LeadsTo index.now names.now edges.now held.now at c at (record { count = c.count; skipped = held.now.state.skipped })) }
{
    skipped_parts();
    lex_of_two_parts();
    let top = innermost(&held.state.opened)?;
    let here = told_at(index, at)?;
    if !top.is_object {
        return None;
    }
    if !may_start(held, &here) {
        return None;
    }
    Some(top)
}

/// The state after a chunk, and the entry of the one after it.
#[derive(Clone, Copy)]
struct Further {
    among: Among,
    entry: Entry,
}

/// The state after the chunk at a place, which is neither the first nor the last, if it has no member that is wanted.
fn go_further(
    index: &Index,
    names: &TextNames,
    edges: &[Edge],
    held: &Sought,
    top: Cursor,
    at: usize,
    among: Among,
) -> Option<Further>
    requires other { at ≢ 0 }
    ensures entry { IfSome result (λ next. TellsAt index.now (at + 1) next.entry) }
    ensures leads { IfSome result (λ next. LeadsOn index.now names.now edges.now held.now top at among next.among) }
{
    skipped_parts();
    lex_of_two_parts();
    let here = told_at(index, at)?;
    let later = at.checked_add(1)?;
    let entry = told_at(index, later)?;
    let wants = wants_some(names, edges, top.level, at, &here, among.skipped);
    let next = over_chunk(among, &here, &entry, wants)?;
    Some(Further { among: next, entry })
}

/// Chunks that were skipped: what is kept after them, and the entry of the one that stands there.
#[derive(Clone, Copy)]
pub(crate) struct Past {
    pub among: Among,
    pub entry: Entry,
    pub end: usize,
}

/// Skips chunks of the innermost object from a place on that have no member that is wanted, as few as end between
/// names.
pub(crate) fn pass_members(
    index: &Index,
    names: &TextNames,
    edges: &[Edge],
    held: &Sought,
    at: usize,
) -> Option<Past>
    ensures { IfSome result (λ past. IsPast index.now names.now edges.now held.now at past.among past.entry past.end) }
{
    lex_of_two_parts();
    if at == 0 {
        return None;
    }
    let top = begin(index, names, edges, held, at)?;
    let last = index.entries.len();
    let mut among = Among {
        count: top.count,
        skipped: held.state.skipped,
    };
    let mut end = at;
    'chunks: while end < last {
        let Some(next) = go_further(index, names, edges, held, top, end, among) else {
            return None;
        };
        among = next.among;
        end += 1;
        if !cuts_name(among.skipped, &next.entry) {
            return Some(Past {
                among,
                entry: next.entry,
                end,
            });
        }
    }
    None
}

impl Past {
    /// The state after the chunks.
    pub(crate) fn of(self, held: Sought) -> Sought
        ensures { IsHeldAmong held self.among self.entry result }
    {
        let begun = is_in_token(self.entry.state);
        let over = Over {
            count: Some(self.among.count),
            next: held.next,
            skipped: self.among.skipped,
            begun: waiting(begun),
        };
        let name = unwanted_name(self.among.skipped, begun, self.entry.expect);
        let mut next = over.of(held);
        next.state.name = name;
        next
    }
}
