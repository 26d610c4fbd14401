ghost use Rattle.std.specs.Prelude.{ℕ, List};
ghost use Rattle.jx_run.specs.Text.{IsDocument};
ghost use Rattle.jx_run.specs.Tree.{Tree};
ghost use Rattle.jx_compact.specs.Compact.{compact};
ghost use Rattle.jx_values.specs.Alike.{AreAlike};

/// The compact form of a text is a text within the same depth. Its tree has the same kinds in the same order, and byte for byte the
/// same scalars and names.
pub fn compact_tree()
    ensures { (bytes : List ℕ) (limit : ℕ) (tree : Tree) → IsDocument 0 bytes limit tree → (other : Tree) × IsDocument 0 (compact bytes) limit other × AreAlike bytes (compact bytes) tree other }
{}
