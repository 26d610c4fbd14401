ghost use Rattle.std.specs.Prelude.{◌≡◌, ◌↔◌, ℕ, List, map};
ghost use Rattle.std.specs.List.{AllZip};
ghost use Rattle.jx_run.specs.declared.sequences.element_verdict.JudgedElement.{JudgedElement};
ghost use Rattle.jx_run.specs.declared.texts.settings.FrontMark.TheVariants.{Refused};
ghost use Rattle.jx_run.specs.declared.texts.settings.NameRule.TheVariants.{Any};
ghost use Rattle.jx_run.specs.declared.texts.settings.Settings.{Settings};
ghost use Rattle.jx_run.specs.declared.texts.verdict.Verdict.{Verdict};
ghost use Rattle.jx_run.specs.Elements.{Part, elements as elements_of};
ghost use Rattle.jx_run.specs.ElementVerdict.{IsJudgedElement};
ghost use Rattle.jx_run.specs.Settings.{JudgedBy};
ghost use Rattle.jx_answer.specs.Answers.{IsAnswer};
ghost use Rattle.jx_answer.specs.Sequence.{AreElements, IsElement, judged};
ghost use Rattle.jx_answer.specs.Settled.{AreElementsBy, IsElementBy};
ghost use Rattle.jx_answer.specs.declared.element.Element.{Element};
ghost use Rattle.jx_index.specs.declared.text_answer.TextAnswer.{TextAnswer};
ghost use Rattle.jx_index.specs.ByNames.{IsVerdictBy, AreJudgedBy};
ghost use Rattle.jx_index.specs.Settled.{IsAnswerBy};

use jx_index::repeated_name_by_rows;
use jx_run::{
    unique_tree, unique_tree_by_settings, unique_verdict, unique_verdict_by_settings,
    verdicts_with_a_refused_mark,
};

/// A text has one answer within a depth, and an input one list of elements. Two divisions, two numbers of workers or
/// two gates never give two, neither in the verdict nor in a row.
pub fn unique_answer()
    ensures text { (text : List ℕ) (depth : ℕ) (x y : TextAnswer) → IsAnswer text depth x → IsAnswer text depth y → x ≡ y }
    ensures elements { (input : List ℕ) (depth : ℕ) (xs ys : List Element) → AreElements input depth xs → AreElements input depth ys → xs ≡ ys }
{
    unique_tree();
    unique_verdict();
}

/// A text has one answer by settings, in the verdict and in each row.
pub fn unique_answer_by_settings()
    ensures text { (settings : Settings) (bytes : List ℕ) (x y : TextAnswer) → IsAnswerBy settings bytes x → IsAnswerBy settings bytes y → x ≡ y }
{
    unique_tree_by_settings();
    unique_verdict_by_settings();
}

/// An input has one list of elements by settings.
pub fn unique_elements_by_settings()
    ensures elements { (settings : Settings) (input : List ℕ) (xs ys : List Element) → AreElementsBy settings input xs → AreElementsBy settings input ys → xs ≡ ys }
{
    unique_tree();
    unique_verdict();
}

/// An input has one list of verdicts on its elements, within a depth as by settings.
pub fn unique_element_verdicts()
    ensures within_a_depth { (input : List ℕ) (depth : ℕ) (xs ys : List JudgedElement) → AllZip (IsJudgedElement depth) (elements_of 0 input) xs
        → AllZip (IsJudgedElement depth) (elements_of 0 input) ys → xs ≡ ys }
    ensures by_settings { (settings : Settings) (input : List ℕ) (xs ys : List JudgedElement) → AreJudgedBy settings input xs → AreJudgedBy settings input ys → xs ≡ ys }
{
    unique_tree();
    unique_verdict();
}

/// The verdicts on the elements of an input are the answers on them less their indexes, within a depth as by settings.
pub fn verdict_without_index()
    ensures within_a_depth { (input : List ℕ) (depth : ℕ) (verdicts : List JudgedElement) → AllZip (IsJudgedElement depth) (elements_of 0 input) verdicts
        → (answers : List Element) × AreElements input depth answers × (map judged answers ≡ verdicts) }
    ensures by_settings { (settings : Settings) (input : List ℕ) (verdicts : List JudgedElement) → AreJudgedBy settings input verdicts
        → (answers : List Element) × AreElementsBy settings input answers × (map judged answers ≡ verdicts) }
{}

/// An input has one verdict by settings.
pub fn unique_verdicts_by_settings()
    ensures verdict { (settings : Settings) (bytes : List ℕ) (x y : Verdict) → IsVerdictBy settings bytes x → IsVerdictBy settings bytes y → x ≡ y }
{
    unique_tree_by_settings();
    unique_verdict_by_settings();
}

/// Where objects may have any names, verdicts and elements are those of the grammar and the byte order mark alone.
pub fn verdict_without_a_rule_on_names()
    ensures verdict { (settings : Settings) (bytes : List ℕ) (verdict : Verdict) → settings.names ≡ Any → IsVerdictBy settings bytes verdict ↔ JudgedBy settings 0 bytes verdict }
    ensures element { (settings : Settings) (input : List ℕ) (p : Part) (element : Element) → settings.names ≡ Any → IsElementBy settings input p element ↔ IsElement input settings.depth p element }
{
    repeated_name_by_rows();
}

/// Where a byte order mark is refused and objects may have any names, the answers by settings are those within the depth.
pub fn answer_with_settings_off()
    ensures text { (settings : Settings) (text : List ℕ) (answer : TextAnswer) → settings.mark ≡ Refused → settings.names ≡ Any → IsAnswerBy settings text answer ↔ IsAnswer text settings.depth answer }
    ensures elements { (settings : Settings) (input : List ℕ) (elements : List Element) → settings.mark ≡ Refused → settings.names ≡ Any → AreElementsBy settings input elements ↔ AreElements input settings.depth elements }
{
    verdicts_with_a_refused_mark();
    verdict_without_a_rule_on_names();
}
