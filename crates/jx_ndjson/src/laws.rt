// Laws of lines and of elements, each on a function that does nothing: for every list of bytes and all settings.
ghost use Rattle.std.specs.Prelude.{◌≡◌, ◌++◌, suc, ℕ, List, Some, filter, length, slice_get};
ghost use Rattle.std.specs.List.{AllZip};
ghost use Rattle.jx_run.specs.declared.texts.settings.FrontMark.{FrontMark};
ghost use Rattle.jx_run.specs.declared.texts.settings.Settings.{Settings};
ghost use Rattle.jx_run.specs.declared.sequences.element_verdict.JudgedElement.{JudgedElement};
ghost use Rattle.jx_run.specs.Elements.{Part, is_separator, parts};
ghost use Rattle.jx_run.specs.ElementVerdict.{IsJudgedElement};
ghost use Rattle.jx_run.specs.MarkAlone.{elements_by};
ghost use Rattle.jx_ndjson.specs.declared.judged_line.JudgedLine.{JudgedLine};
ghost use Rattle.jx_ndjson.specs.Answers.{AreAnswers, IsAnswer};
ghost use Rattle.jx_ndjson.specs.ElementReading.{ElementReaderValue, HasToldElements};
ghost use Rattle.jx_ndjson.specs.Elements.{ended_elements};
ghost use Rattle.jx_ndjson.specs.Lines.{Line, ended_lines, is_line_feed, lines};
ghost use Rattle.jx_ndjson.specs.Parts.{parts_by};
ghost use Rattle.jx_ndjson.specs.Reading.{HasTold, LineReaderValue};

use jx_run::unique_verdict_by_settings;

/// The answers are a function of the settings and the input. So they are the same wherever it is cut into slices.
pub fn unique_answer()
    ensures one { (settings : Settings) (input : List ℕ) (x y : List JudgedLine) → AreAnswers settings input x → AreAnswers settings input y → x ≡ y }
{
    unique_verdict_by_settings();
}

/// The answers of a reader are those on the lines that a line feed ends, of the bytes that it has read.
pub fn ended_lines_of_a_reader()
    ensures told { (settings : Settings) (input : List ℕ) (told : List JudgedLine) (r : LineReaderValue) → HasTold settings input told r
        → AllZip (IsAnswer settings) (ended_lines settings.mark input) told }
{}

/// Lines that a line feed ends stay the same, whatever follows. So they may be answered before more is read.
pub fn ended_lines_of_a_prefix()
    ensures stay { (mark : FrontMark) (input more : List ℕ) → (rest : List Line) × (ended_lines mark (input ++ more) ≡ ended_lines mark input ++ rest) }
{}

/// As many lines are ended as there are line feeds, and the lines are numbered from 1 in their order.
pub fn line_numbers()
    ensures count { (mark : FrontMark) (input : List ℕ) → length (ended_lines mark input) ≡ length (filter is_line_feed input) }
    ensures numbers { (mark : FrontMark) (input : List ℕ) (i : ℕ) (l : Line) → slice_get (lines mark input) i ≡ Some l → l.number ≡ suc i }
{}

/// The elements of a text sequence are cut as lines are, by another byte (RFC 7464, section 2.1).
pub fn elements_as_lines()
    ensures alike { (at : ℕ) (bytes : List ℕ) → parts_by is_separator at bytes ≡ parts at bytes }
{}

/// The answers of a reader of elements are the verdicts on the elements that a record separator ends, of the bytes that
/// it has read.
pub fn ended_elements_of_a_reader()
    ensures told { (settings : Settings) (input : List ℕ) (told : List JudgedElement) (r : ElementReaderValue) → HasToldElements settings input told r
        → AllZip (IsJudgedElement settings.depth) (ended_elements settings.mark input) told }
{}

/// Elements that a record separator ends stay the same, whatever follows. So they may be answered before more is read.
pub fn ended_elements_of_a_prefix()
    ensures stay { (mark : FrontMark) (input more : List ℕ) → (rest : List Part) × (ended_elements mark (input ++ more) ≡ ended_elements mark input ++ rest) }
    ensures all { (mark : FrontMark) (input : List ℕ) → (rest : List Part) × (elements_by mark input ≡ ended_elements mark input ++ rest) }
{}
