ghost use Rattle.std.specs.Prelude.{◌≡◌, ◌<◌, ◌↔◌, ℕ, suc, List, None, Option, Ok, Err, length, map};
ghost use Rattle.std.specs.List.Sorted.{IsStrictlyIncreasing};
ghost use Rattle.std.specs.Str.{IsUtf8};
ghost use Rattle.jx_lex.specs.Token.{IsString};
ghost use Rattle.jx_run.specs.declared.texts.settings.Front.TheVariants.{Skip};
ghost use Rattle.jx_run.specs.declared.texts.settings.NameRule.TheVariants.{Any};
ghost use Rattle.jx_run.specs.declared.texts.settings.Settings.{Settings};
ghost use Rattle.jx_run.specs.declared.texts.verdict.Verdict.{Verdict};
ghost use Rattle.jx_run.specs.declared.texts.verdict.Verdict.TheVariants.{Accepted};
ghost use Rattle.jx_run.specs.Front.{front_of};
ghost use Rattle.jx_run.specs.Settings.{JudgedBy};
ghost use Rattle.jx_run.specs.Text.{IsDocument, IsText};
ghost use Rattle.jx_run.specs.Tree.{Tree, span};
ghost use Rattle.jx_run.specs.Verdict.{Judged};
ghost use Rattle.jx_index.specs.declared.find_fault.FindFault.TheVariants.{NameRepeated};
ghost use Rattle.jx_index.specs.declared.units.Spelling.TheVariants.{InText};
ghost use Rattle.jx_index.specs.declared.row.Row.{Row};
ghost use Rattle.jx_index.specs.ByNames.{IsVerdictBy, RefusesName};
ghost use Rattle.jx_index.specs.Indexed.{IndexedValue};
ghost use Rattle.jx_index.specs.Leads.{HasRow, Numbered, children_of, leads, led, numbered};
ghost use Rattle.jx_index.specs.Nodes.{child_numbers};
ghost use Rattle.jx_index.specs.PointerForm.{IsPointerOf};
ghost use Rattle.jx_index.specs.Pointers.{IsPointer, tokens};
ghost use Rattle.jx_index.specs.Repeats.{IsLeast, IsRepeat};
ghost use Rattle.jx_index.specs.Rows.{rows};
ghost use Rattle.jx_index.specs.Settled.{IsIndexBy, IsIndexFrom, rest_from};
ghost use Rattle.jx_index.specs.Standing.{HasNode, Standing, Stands, root_standing};
ghost use Rattle.jx_index.specs.Units.{chars_units, between_marks};

use jx_lex::grammar_of_tokens;
use jx_run::beginning_of_a_text_by_its_front;

/// The value read off a string is its value. The texts that are read as pointers are exactly those of a pointer's form,
/// and their tokens are that form's. The rows of a text are in rising order of their starts. Those whose parent is a
/// node are its children, in order.
pub fn strings_pointers_and_rows()
    ensures strings { (w us : List ℕ) → IsString w us → chars_units InText 0 (between_marks w) ≡ us }
    ensures pointers { (p : List ℕ) (ts : List (List ℕ)) → IsPointerOf p ts → tokens p ≡ ts }
    ensures spelt { (p : List ℕ) (ts : List (List ℕ)) → IsPointerOf p ts → IsUtf8 p × IsPointer p }
    ensures forms { (p : List ℕ) → IsUtf8 p → IsPointer p → (ts : List (List ℕ)) × IsPointerOf p ts }
    ensures starts { (start limit : ℕ) (bytes : List ℕ) (tree : Tree) → IsDocument start bytes limit tree
        → IsStrictlyIncreasing (map (λ (row : Row). row.span.start) (rows tree)) }
    ensures children { (tree inner : Tree) (t : Standing) → Stands tree root_standing inner t
        → child_numbers (rows tree) t.number ≡ map (λ (c : Numbered). c.number) (numbered (children_of inner) (suc t.number)) }
{
    grammar_of_tokens();
}

/// The row of the node to which tokens lead has that node's kind, span and name. Each row of a text is the row of a
/// node of its tree.
pub fn rows_of_look_ups()
    ensures led { (text : List ℕ) (tree : Tree) (tokens : List (List ℕ)) (node : Numbered) → led text tree tokens ≡ Ok node → HasRow (rows tree) node }
    ensures nodes { (tree : Tree) (number : ℕ) → number < length (rows tree) → HasNode tree number }
{}

/// Where no object of a text repeats a name, as `Indexed::repeated` decides, no look-up answers that a name is
/// repeated.
pub fn look_ups_with_unique_names()
    ensures { (text : List ℕ) (start end limit : ℕ) (tree : Tree) → IsText text start end limit tree → IsLeast (IsRepeat text (rows tree)) None
        → (tokens : List (List ℕ)) (token : ℕ) → leads text tree tokens ≡ Err (NameRepeated token) → ⊥ }
{}

/// An index over an accepted text from an offset on has the rows of its tree. Where that offset is just after the front
/// of the bytes, the same holds by settings of all bytes.
pub fn index_behind_a_front()
    ensures over { (text : List ℕ) (start limit : ℕ) (index : IndexedValue) → Judged start (rest_from start text) limit Accepted → index.text ≡ text
        → index.span ≡ span start (length text) → ((d : ℕ) (tree : Tree) → IsText text start (length text) d tree → index.rows ≡ rows tree)
        → IsIndexFrom start text limit index }
    ensures index { (settings : Settings) (text : List ℕ) (count : ℕ) (index : IndexedValue) → front_of settings.mark text ≡ Skip count
        → IsIndexFrom count text settings.depth index → IsIndexBy settings text index }
    ensures verdict { (settings : Settings) (text : List ℕ) (count : ℕ) (verdict : Verdict) → front_of settings.mark text ≡ Skip count
        → Judged count (rest_from count text) settings.depth verdict → JudgedBy settings 0 text verdict }
    ensures text { (settings : Settings) (text : List ℕ) (index : IndexedValue) (x : IsIndexBy settings text index)
        → IsText index.text index.span.start index.span.end settings.depth x.tree }
{
    beginning_of_a_text_by_its_front();
}

/// A rule on names refuses a text for the name for which it refuses the text's rows. Where objects may have any names, the
/// verdict is that of the grammar and the byte order mark alone.
pub fn repeated_name_by_rows()
    ensures name { (settings : Settings) (text : List ℕ) (index : IndexedValue) (name : Option ℕ) (x : IsIndexBy settings text index)
        → RefusesName settings.names index.text index.rows name → RefusesName settings.names text (rows x.tree) name }
    ensures any { (settings : Settings) (bytes : List ℕ) (verdict : Verdict) → settings.names ≡ Any → IsVerdictBy settings bytes verdict ↔ JudgedBy settings 0 bytes verdict }
{}
