// The theorems on which verdicts rest, each on a function that does nothing: for every list of bytes, wherever in an
// input it stands, and for every depth.

ghost use Rattle.std.specs.Prelude.{◌≡◌, ◌≤◌, ◌<◌, ◌+◌, ◌++◌, ◌↔◌, ℕ, suc, Bool, List, [], All, drop, false, length, take};
ghost use Rattle.std.specs.List.{AllZip};
ghost use Rattle.jx_lex.specs.Seen.{WantsNoMore};
ghost use Rattle.jx_reduce.specs.KnownStack.{IsFault, Known};
ghost use Rattle.jx_run.specs.Tree.{Tree, span};
ghost use Rattle.jx_run.specs.Grammar.{Value};
ghost use Rattle.jx_run.specs.Text.{Begins, IsDocument, Reads};
ghost use Rattle.jx_run.specs.Reading.{read_text};
ghost use Rattle.jx_reduce.specs.KnownStack.{HasSeen};
ghost use Rattle.jx_run.specs.Reader.{HasRead as HasReadText, ReaderValue, read_by};
ghost use Rattle.jx_run.specs.Elements.{elements};
ghost use Rattle.jx_run.specs.ElementVerdict.{IsJudgedElement};
ghost use Rattle.jx_run.specs.SequenceRead.{AreRead, EndsWithSeparator, HasNoSeparator, StartsWithSeparator, ended_there, listed};
ghost use Rattle.jx_run.specs.Unclosed.{last_open};
ghost use Rattle.jx_run.specs.declared.sequences.element_verdict.JudgedElement.{JudgedElement};
ghost use Rattle.jx_run.specs.Laws.{Accepts, BeginsAtSomeDepth, FaultsAt, FaultsTooDeep, MeetsNoFault, span_of, verdict_of, verdict_on};
ghost use Rattle.jx_run.specs.Verdict.{IsLongestBeginning, Judged};
ghost use Rattle.jx_run.specs.Front.{front_of, IsTold};
ghost use Rattle.jx_run.specs.Settings.{BeginsBy, IsDocumentBy, JudgedBy};
ghost use Rattle.jx_run.specs.declared.texts.settings.FrontMark.{FrontMark};
ghost use Rattle.jx_run.specs.declared.texts.settings.FrontMark.TheVariants.{Refused};
ghost use Rattle.jx_run.specs.declared.texts.settings.Settings.{Settings};
ghost use Rattle.jx_run.specs.declared.texts.verdict.Verdict.{Verdict};

use jx_lex::grammar_of_tokens;

/// The plain reading is the grammar (RFC 8259, section 2). It meets no fault exactly on beginnings of texts and accepts
/// exactly the texts. Its first fault lies just past the longest beginning of a text.
///
/// The fault is one of depth exactly where the bytes up to and with it begin a deeper text. So what the reading leads
/// to is the verdict that the grammar gives, also where a byte order mark in front of the text is ignored.
pub fn reader_and_grammar()
    ensures begins { (limit at : ℕ) (bytes : List ℕ) → MeetsNoFault limit at bytes ↔ Begins bytes limit }
    ensures sound { (limit at : ℕ) (bytes : List ℕ) → Accepts limit at bytes → (tree : Tree) × IsDocument at bytes limit tree }
    ensures complete { (limit at : ℕ) (bytes : List ℕ) (tree : Tree) → IsDocument at bytes limit tree → Accepts limit at bytes }
    ensures first_fault { (limit at i : ℕ) (bytes : List ℕ) → FaultsAt limit at bytes i → (k : ℕ) × (i ≡ at + k) × IsLongestBeginning bytes limit k }
    ensures too_deep { (limit at k : ℕ) (bytes : List ℕ) → FaultsAt limit at bytes (at + k) → FaultsTooDeep limit at bytes ↔ BeginsAtSomeDepth (take (suc k) bytes) }
    ensures verdict { (limit at : ℕ) (bytes : List ℕ) → Judged at bytes limit (verdict_of (read_text limit at bytes)) }
    ensures by_settings { (settings : Settings) (at : ℕ) (bytes : List ℕ) → JudgedBy settings at bytes (verdict_on (read_by settings.mark settings.depth at bytes)) }
{
    grammar_of_tokens();
}

/// A text has one tree, so that its values, their spans and their names are those of the text.
pub fn unique_tree()
    ensures one_tree { (at limit : ℕ) (bytes : List ℕ) (x y : Tree) → IsDocument at bytes limit x → IsDocument at bytes limit y → x ≡ y }
{
    grammar_of_tokens();
}

/// The verdict is a function of the bytes, of where they stand and of the depth.
pub fn unique_verdict()
    ensures one_verdict { (at limit : ℕ) (bytes : List ℕ) (x y : Verdict) → Judged at bytes limit x → Judged at bytes limit y → x ≡ y }
{}

/// The beginning of a text can be completed to a text by bytes, wherever it is.
pub fn completion_of_a_beginning()
    ensures completed { (at limit : ℕ) (bytes : List ℕ) → Begins bytes limit → (more : List ℕ) × (tree : Tree) × All (λ b. b < 256) more × IsDocument at (bytes ++ more) limit tree }
{
    grammar_of_tokens();
}

/// A value that stands in a text from `i` up to `j` has the span `i..j`. What is left after it is what stands in the
/// text from `j` on.
pub fn spans_of_values()
    ensures span { (text : List ℕ) (i j : ℕ) (rest : List ℕ) (tree : Tree) → Value i (drop i text) j rest tree → span_of tree ≡ span i j }
    ensures reads { (text : List ℕ) (i j : ℕ) (rest : List ℕ) (tree : Tree) → Value i (drop i text) j rest tree → Reads text i j tree }
{}

/// The verdict by settings is a function of the settings, the bytes and where they stand.
pub fn unique_verdict_by_settings()
    ensures one_verdict { (settings : Settings) (at : ℕ) (bytes : List ℕ) (x y : Verdict) → JudgedBy settings at bytes x → JudgedBy settings at bytes y → x ≡ y }
{}

/// A text by settings has one tree.
pub fn unique_tree_by_settings()
    ensures one_tree { (settings : Settings) (at : ℕ) (bytes : List ℕ) (x y : Tree) → IsDocumentBy settings at bytes x → IsDocumentBy settings at bytes y → x ≡ y }
{
    grammar_of_tokens();
}

/// Where a byte order mark is refused, texts, beginnings and verdicts are those of the grammar alone.
pub fn verdicts_with_a_refused_mark()
    ensures texts { (settings : Settings) (at : ℕ) (bytes : List ℕ) (tree : Tree) → settings.mark ≡ Refused → IsDocumentBy settings at bytes tree ↔ IsDocument at bytes settings.depth tree }
    ensures begins { (settings : Settings) (bytes : List ℕ) → settings.mark ≡ Refused → BeginsBy settings bytes ↔ Begins bytes settings.depth }
    ensures verdict { (settings : Settings) (at : ℕ) (bytes : List ℕ) (verdict : Verdict) → settings.mark ≡ Refused → JudgedBy settings at bytes verdict ↔ Judged at bytes settings.depth verdict }
{
    grammar_of_tokens();
}

/// The bytes in front of a text decide where the verdict by settings begins, or refuse the text. The first three bytes
/// decide which.
pub fn beginning_of_a_text_by_its_front()
    ensures told { (mark : FrontMark) (text : List ℕ) → IsTold mark text (front_of mark text) }
    ensures stays { (mark : FrontMark) (text more : List ℕ) → 3 ≤ length text → front_of mark (text ++ more) ≡ front_of mark text }
{
    grammar_of_tokens();
}

/// A stack that met a fault wants no more: no byte after it changes what the tokens have led to.
pub fn readings_after_a_fault()
    ensures done { (stack : Known) → IsFault stack.reading → WantsNoMore (λ marks ends. HasSeen marks ends stack) }
{}

/// How a text sequence is read part by part, cut at some of its record separators (RFC 7464, section 2).
///
/// Bytes without a separator go on with the open element. Where it ends, it comes after those that ended. Bytes that
/// begin and end with a separator bring their own elements, and a new one that has no byte yet.
pub fn elements_of_two_parts()
    ensures begun { (limit : ℕ) (reader : ReaderValue) → reader.settings.depth ≡ limit → reader.settings.mark ≡ Refused → reader.start ≡ 0 → HasReadText [] reader
        → AreRead limit [] [] reader false }
    ensures gone_on { (limit : ℕ) (bytes more : List ℕ) (done : List JudgedElement) (old new : ReaderValue) (open_ended next : Bool) → AreRead limit bytes done old open_ended
        → HasNoSeparator more → new.settings ≡ old.settings → new.start ≡ old.start → ((xs : List ℕ) → HasReadText xs old → HasReadText (xs ++ more) new)
        → next ≡ last_open open_ended more → AreRead limit (bytes ++ more) done new next }
    ensures reached { (limit : ℕ) (bytes : List ℕ) (done : List JudgedElement) (reader : ReaderValue) (open_ended : Bool) → AreRead limit bytes done reader open_ended
        → reader.start + reader.count ≡ length bytes }
    ensures ended { (limit : ℕ) (bytes : List ℕ) (done : List JudgedElement) (reader : ReaderValue) (open_ended : Bool) (verdict : Verdict) → AreRead limit bytes done reader open_ended
        → ((xs : List ℕ) → HasReadText xs reader → JudgedBy reader.settings reader.start xs verdict)
        → AllZip (IsJudgedElement limit) (elements 0 bytes) (done ++ listed (ended_there (span reader.start (reader.start + reader.count)) verdict open_ended)) }
    ensures marked { (limit : ℕ) (bytes more : List ℕ) (done behind : List JudgedElement) (reader : ReaderValue) → AllZip (IsJudgedElement limit) (elements 0 bytes) done
        → StartsWithSeparator more → EndsWithSeparator more → AllZip (IsJudgedElement limit) (elements (length bytes) more) behind
        → reader.settings.depth ≡ limit → reader.settings.mark ≡ Refused → reader.start ≡ length bytes + length more → HasReadText [] reader
        → AreRead limit (bytes ++ more) (done ++ behind) reader false }
{
    grammar_of_tokens();
}
