// Laws of the lines that are due, each on a function that does nothing: for every list of bytes and all settings, where
// values alone are written, and by what a line has.
ghost use Rattle.std.specs.Prelude.{◌≡◌, ◌++◌, [], ℕ, List};
ghost use Rattle.jx_run.specs.declared.texts.settings.Settings.{Settings};
ghost use Rattle.jx_run.specs.Settings.{IsDocumentBy};
ghost use Rattle.jx_run.specs.Tree.{Tree};
ghost use Rattle.jx_each.specs.declared.content.LineContent.{LineContent};
ghost use Rattle.jx_each.specs.Due.{IsDue, IsDueBy, all_lines, all_lines_by};
ghost use Rattle.jx_each.specs.Each.{EachValue, HasTaken, HasTakenBy};

use jx_run::reader_and_grammar;

/// The lines that were given away and those that wait are the lines that are due of the bytes that were taken.
pub fn lines_taken_and_waiting()
    ensures due { (pointer bytes given : List ℕ) (each : EachValue) → HasTaken pointer bytes given each → IsDue each.reader.settings pointer bytes (given ++ each.ready) }
    ensures due_by { (content : LineContent) (pointer bytes given : List ℕ) (each : EachValue) → HasTakenBy content pointer bytes given each → IsDueBy content each.reader.settings pointer bytes (given ++ each.ready) }
{}

/// Whichever text the bytes before the first fault begin, the same is due.
pub fn unique_lines_due()
    ensures one { (settings : Settings) (pointer input x y : List ℕ) → IsDue settings pointer input x → IsDue settings pointer input y → x ≡ y }
    ensures one_by { (content : LineContent) (settings : Settings) (pointer input x y : List ℕ) → IsDueBy content settings pointer input x → IsDueBy content settings pointer input y → x ≡ y }
{}

/// The lines that are due of an input begin those that are due of every longer one. So they may be written before more
/// is read.
pub fn lines_due_of_a_prefix()
    ensures grows { (settings : Settings) (pointer input more x y : List ℕ) → IsDue settings pointer input x → IsDue settings pointer (input ++ more) y → (rest : List ℕ) × (y ≡ x ++ rest) }
    ensures grows_by { (content : LineContent) (settings : Settings) (pointer input more x y : List ℕ) → IsDueBy content settings pointer input x → IsDueBy content settings pointer (input ++ more) y → (rest : List ℕ) × (y ≡ x ++ rest) }
{}

/// Of a text all elements are due of the container that the pointer leads to.
pub fn lines_due_of_a_text()
    ensures all { (settings : Settings) (pointer text output : List ℕ) (tree : Tree) → IsDocumentBy settings 0 text tree → IsDue settings pointer text output → output ≡ all_lines text pointer tree }
    ensures all_by { (content : LineContent) (settings : Settings) (pointer text output : List ℕ) (tree : Tree) → IsDocumentBy settings 0 text tree → IsDueBy content settings pointer text output → output ≡ all_lines_by content text pointer tree }
{}

/// Of no byte nothing is due.
pub fn lines_due_of_no_byte()
    ensures none { (settings : Settings) (pointer : List ℕ) → IsDue settings pointer [] [] }
    ensures none_by { (content : LineContent) (settings : Settings) (pointer : List ℕ) → IsDueBy content settings pointer [] [] }
{
    reader_and_grammar();
}
