// Laws of the structures of tokens, each on a function that does nothing.
ghost use Rattle.std.specs.Prelude.{◌≤◌, ℕ};
ghost use Rattle.jx_reduce.specs.Reductions.{Forms, IsBefore, SpansIn};
ghost use Rattle.jx_reduce.specs.Structure as structure;

/// A span in which the offsets of a structure lie may be widened, and the structures of neighbouring spans may be joined.
pub fn spans_of_offsets()
    ensures wider { (low high less more : ℕ) (forms : Forms) → less ≤ low → high ≤ more → SpansIn low high forms → SpansIn less more forms }
    ensures before { (low between high : ℕ) (left right : Forms) → SpansIn low between left → SpansIn between high right → IsBefore left right }
{}

/// So it is with the structures that keep the first tokens and one form.
pub fn spans_of_structures()
    ensures wider { (low high less more : ℕ) (f : structure.StructureValue) → less ≤ low → high ≤ more → structure.SpansIn low high f → structure.SpansIn less more f }
    ensures before { (low between high : ℕ) (left right : structure.StructureValue) → structure.SpansIn low between left → structure.SpansIn between high right → structure.IsBefore left right }
{}
