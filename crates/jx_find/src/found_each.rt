// The look-up of several pointers (RFC 6901, section 4) in a whole text.
ghost use Rattle.std.specs.Prelude.{◌≡◌, All, ℕ, List, IfOk, IfErr};
ghost use Rattle.jx_run.specs.declared.texts.settings.NameRule.TheVariants.{Any};
ghost use Rattle.jx_run.specs.declared.texts.verdict.Verdict.TheVariants.{Accepted, Refused};
ghost use Rattle.jx_index.specs.ByNames.{IsVerdictBy};
ghost use Rattle.jx_index.specs.Found.{AreFoundIn};
ghost use Rattle.jx_index.specs.inside.Trie.{HasWay, IsTrie};

use crate::held::Sought;
use crate::reading::{answers_behind, read_slice};
use jx_index::{Edge, FindFault, Found, Pointer, starts_of, trie_of};
use jx_run::{Reader, Refusal, Settings, slices_are_told_in_turn};
use std::alloc::{AllocError, Global};

/// Finds as `find_each_by` does, through a trie of the pointers that `trie_of` made, and their starts by `starts_of`. So many
/// texts are read through one trie.
pub fn find_each_through(
    alloc: Global,
    text: &[u8],
    settings: &Settings,
    edges: &[Edge],
    starts: &[usize],
    pointers: &[Pointer],
) -> Result<Result<Vec<Result<Found, FindFault>>, Refusal>, AllocError>
    requires any { settings.now.names ≡ Any }
    requires trie { IsTrie edges.now }
    requires ways { All (λ (pointer : List ℕ). HasWay edges.now pointer) pointers.now }
    ensures accepted { IfOk result (λ read. IfOk read (λ _. IsVerdictBy settings.now text.now Accepted)) }
    ensures refused { IfOk result (λ read. IfErr read (λ refusal. IsVerdictBy settings.now text.now (Refused refusal))) }
    ensures found { IfOk result (λ read. IfOk read (λ found. AreFoundIn settings.now text.now pointers.now found.items)) }
{
    slices_are_told_in_turn();
    let mut reader = Reader::new(alloc, settings, 0);
    let none = Sought::new(alloc, edges)?;
    let held = read_slice(&mut reader, edges, starts, none, text)?;
    answers_behind(alloc, &reader, edges, starts, held, pointers)
}

/// Reads a JSON text (RFC 8259) by settings on the calling thread in one pass, and looks pointers up in it (RFC 6901,
/// section 4), without an index. A byte order mark in front may be ignored (section 8.1). Returns the refusal where the text
/// is refused; else for each pointer, in order, the value, or the first token that leads nowhere. `Err` where memory is
/// refused.
pub fn find_each_by(
    alloc: Global,
    text: &[u8],
    settings: &Settings,
    pointers: &[Pointer],
) -> Result<Result<Vec<Result<Found, FindFault>>, Refusal>, AllocError>
    requires any { settings.now.names ≡ Any }
    ensures accepted { IfOk result (λ read. IfOk read (λ _. IsVerdictBy settings.now text.now Accepted)) }
    ensures refused { IfOk result (λ read. IfErr read (λ refusal. IsVerdictBy settings.now text.now (Refused refusal))) }
    ensures found { IfOk result (λ read. IfOk read (λ found. AreFoundIn settings.now text.now pointers.now found.items)) }
{
    let edges = trie_of(alloc, pointers)?;
    let starts = starts_of(alloc, &edges)?;
    find_each_through(alloc, text, settings, &edges, &starts, pointers)
}
