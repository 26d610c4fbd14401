// Laws of sums and of indexes, each on a function that does nothing.
ghost use Rattle.std.specs.Prelude.{◌≡◌, ◌++◌, ℕ, List};
ghost use Rattle.jx_lex.specs.declared.alphabet.mark.Mark.{Mark};
ghost use Rattle.jx_run.specs.declared.texts.settings.Settings.{Settings};
ghost use Rattle.jx_file_index.specs.declared.index.Index.{Index};
ghost use Rattle.jx_file_index.specs.Index.{IsIndexOf};
ghost use Rattle.jx_file_index.specs.Saved.{HasItsLevels};
ghost use Rattle.jx_file_index.specs.Sums.{joined, sum_of};

/// The sum of token starts that stand one after another is joined of the sums of both lists.
pub fn sum_of_joined_starts()
    ensures joined { (xs ys : List Mark) → sum_of (xs ++ ys) ≡ joined (sum_of xs) (sum_of ys) }
{}

/// The index of a text has the levels that its head asks for.
pub fn levels_of_an_index()
    ensures has { (settings : Settings) (chunk : ℕ) (text : List ℕ) (index : Index) → IsIndexOf settings chunk text index → HasItsLevels index }
{}
