// A text that is read slice by slice, its state between two slices, and the answers after the last one.
ghost use Rattle.std.specs.Prelude.{◌≡◌, ◌+◌, ◌<◌, ◌^◌, ◌++◌, All, ℕ, List, Some, false, length, IfOk, IfErr, OnOk};
ghost use Rattle.jx_lex.specs.declared.alphabet.mark.Mark.{Mark};
ghost use Rattle.jx_run.specs.declared.texts.settings.Settings.{Settings};
ghost use Rattle.jx_run.specs.declared.texts.verdict.Verdict.TheVariants.{Accepted, Refused};
ghost use Rattle.jx_run.specs.Reader.{HasRead, Outcome, is_fault};
ghost use Rattle.jx_run.specs.Telling.{moved_ends, moved_marks, track_of};
ghost use Rattle.jx_index.specs.ByNames.{IsVerdictBy};
ghost use Rattle.jx_index.specs.Found.{AreFoundIn};
ghost use Rattle.jx_index.specs.inside.InTurn.{IsInTurn};
ghost use Rattle.jx_index.specs.inside.Trie.{HasWay, IsTrie};
ghost use Rattle.jx_find.specs.Finder.{HasHeld};
ghost use Rattle.jx_find.specs.Held.{IsHeld};

use crate::held::Sought;
use crate::on_slice::{Before, OnSlice};
use jx_index::{Edge, FindFault, Found, Pointer, answers_of, repeated_name_by_rows};
use jx_run::{
    Reader, Refusal, Verdict, reader_and_grammar, slices_are_told_in_turn,
    unique_verdict_by_settings,
};
use std::alloc::{AllocError, Global};
use std::marker::Brand;

/// Reads a slice after all bytes that were read, and seeks by its tokens. The call picks the state.
fn seek<B: Before>(
    reader: &mut Reader,
    edges: &[Edge],
    starts: &[usize],
    held: Sought,
    slice: &[u8],
) -> Result<Sought, AllocError>
    requires fits { reader.old.start + reader.old.count + length slice.now < 2 ^ 64 }
    requires slice { slice.now ≡ B.slice }
    requires edges { edges.now ≡ B.edges }
    requires base { (bytes : List ℕ) (marks : List Mark) (ends : List ℕ) → B.held bytes marks ends → reader.old.start + reader.old.count ≡ length bytes }
    requires held { (bytes : List ℕ) (marks : List Mark) (ends : List ℕ) → B.held bytes marks ends
        → IsHeld bytes B.edges marks ends held.state held.next held.begun held.name.items }
    requires turn { IsInTurn reader.old.outcome held.begun }
    ensures settings { reader.new.settings ≡ reader.old.settings }
    ensures start { reader.new.start ≡ reader.old.start }
    ensures reads { OnOk result ((bytes : List ℕ) → HasRead bytes reader.old → HasRead (bytes ++ slice.now) reader.new) }
    ensures held { IfOk result (λ next. is_fault reader.new.outcome ≡ false → (before : Outcome) → reader.old.outcome ≡ Some before
        → (bytes : List ℕ) (marks : List Mark) (ends : List ℕ) → B.held bytes marks ends
        → IsHeld (bytes ++ B.slice) B.edges (marks ++ moved_marks (length bytes) (track_of before slice.now).marks) (ends ++ moved_ends (length bytes) (track_of before slice.now).ends)
        next.state next.next next.begun next.name.items) }
    ensures turn { IfOk result (λ next. IsInTurn reader.new.outcome next.begun) }
{
    let base = reader.end();
    let sink: OnSlice<'_, '_, B> = OnSlice::new(slice, base, edges, starts, held);
    let told = reader.feed_into(sink, slice)?;
    told.into_held()
}

/// Reads a slice after all bytes that were read. Returns the state after it. Fails only when out of memory.
pub(crate) fn read_slice(
    reader: &mut Reader,
    edges: &[Edge],
    starts: &[usize],
    held: Sought,
    slice: &[u8],
) -> Result<Sought, AllocError>
    requires fits { reader.old.start + reader.old.count + length slice.now < 2 ^ 64 }
    requires turn { IsInTurn reader.old.outcome held.begun }
    ensures held { IfOk result (λ next. (settings : Settings) (bytes : List ℕ) → HasHeld settings bytes edges.now reader.old held → HasHeld settings (bytes ++ slice.now) edges.now reader.new next) }
    ensures turn { IfOk result (λ next. IsInTurn reader.new.outcome next.begun) }
{
    slices_are_told_in_turn();
    let next = seek::<Brand>(reader, edges, starts, held, slice)?;
    Ok(next)
}

/// The answers once all bytes were read. Returns the refusal where they are not valid JSON; else for each pointer, in order, the
/// value, or the first token that leads nowhere. Fails only when out of memory.
pub(crate) fn answers_behind(
    alloc: Global,
    reader: &Reader,
    edges: &[Edge],
    starts: &[usize],
    held: Sought,
    pointers: &[Pointer],
) -> Result<Result<Vec<Result<Found, FindFault>>, Refusal>, AllocError>
    ensures accepted { IfOk result (λ read. IfOk read (λ _. (settings : Settings) (bytes : List ℕ) → HasHeld settings bytes edges.now reader.now held → IsVerdictBy settings bytes Accepted)) }
    ensures refused { IfOk result (λ read. IfErr read (λ refusal. (settings : Settings) (bytes : List ℕ) → HasHeld settings bytes edges.now reader.now held → IsVerdictBy settings bytes (Refused refusal))) }
    ensures found { IfOk result (λ read. IfOk read (λ found. (settings : Settings) (bytes : List ℕ) → HasHeld settings bytes edges.now reader.now held
        → IsTrie edges.now → All (λ (pointer : List ℕ). HasWay edges.now pointer) pointers.now → AreFoundIn settings bytes pointers.now found.items)) }
{
    repeated_name_by_rows();
    reader_and_grammar();
    unique_verdict_by_settings();
    match reader.verdict() {
        Verdict::Refused(refusal) => Ok(Err(refusal)),
        Verdict::Accepted => {
            let last = reader.end();
            let met = held.into_met(edges, starts, last)?;
            let found = answers_of(alloc, edges, starts, &met, pointers)?;
            Ok(Ok(found))
        }
    }
}
