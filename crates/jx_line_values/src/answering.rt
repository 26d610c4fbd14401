// The values of one line that is kept in memory.
ghost use Rattle.std.specs.Prelude.{◌≡◌, ◌≤◌, ◌++◌, ◌&&◌, false, length, not, slice_range, IfNone, IfSome, OnOk};
ghost use Rattle.jx_run.specs.declared.texts.settings.FrontMark.{FrontMark};
ghost use Rattle.jx_run.specs.Elements.{part};
ghost use Rattle.jx_run.specs.declared.texts.verdict.Verdict.{Verdict};
ghost use Rattle.jx_run.specs.Settings.{JudgedBy};
ghost use Rattle.jx_run.specs.Unclosed.{ends_open};
ghost use Rattle.jx_run.specs.Verdict.{Judged};
ghost use Rattle.jx_lex.specs.Uneventful.{is_blank};
ghost use Rattle.jx_index.specs.Found.{AreFoundIn};
ghost use Rattle.jx_find.specs.PointerTrie.{IsTrieOf, alone};
ghost use Rattle.jx_ndjson.specs.Answers.{are_blanks};
ghost use Rattle.jx_ndjson.specs.Lines.{line, mark_length};
ghost use Rattle.jx_line_values.specs.declared.task.LineValuesTask.{LineValuesTask};
ghost use Rattle.jx_line_values.specs.LineValues.{none_given, pointers_of, told_of_verdict};
ghost use Rattle.jx_line_values.specs.inside.Adding.{IsAdded, settings_with, told_of_all, written_of};

use crate::adding::{add_no_values, add_values};
use crate::task::LineValuesTask;
use crate::telling::{add_all_found, add_verdict};
use jx_find::{Findings, PointerTrie};
use jx_index::{FindFault, Found};
use jx_ndjson::LineVerdict;
use jx_run::{
    Front, FrontMark, Refusal, Verdict, ends_open_behind, front, reader_and_grammar,
    verdicts_with_a_refused_mark,
};
use std::alloc::{AllocError, Global};

/// A space, a tab, a line feed or a carriage return (RFC 8259, section 2).
fn is_blank(byte: u8) -> bool
    ensures { result ≡ is_blank byte }
{
    byte == b' ' || byte == b'\t' || byte == b'\n' || byte == b'\r'
}

/// Whether there is no byte but white space.
fn are_blanks(bytes: &[u8]) -> bool
    ensures { result ≡ are_blanks bytes.now }
{
    for byte in bytes {
        if !is_blank(*byte) {
            return false;
        }
    }
    true
}

/// Adds a line without a value for any pointer, which has this verdict.
fn add_none(
    ready: &mut Vec<u8>,
    told: &mut Vec<u8>,
    task: &LineValuesTask,
    number: usize,
    verdict: LineVerdict,
) -> Result<(), AllocError>
    ensures ready { OnOk result (ready.new.items ≡ ready.old.items ++ (none_given task.now (told_of_verdict task.now.skips_blank number verdict)).written) }
    ensures told { OnOk result (told.new.items ≡ told.old.items ++ told_of_verdict task.now.skips_blank number verdict) }
{
    add_no_values(ready, task)?;
    add_verdict(told, task.skips_blank, number, verdict)
}

/// Adds the values of a line in which this was found for the pointers.
fn add_found_values(
    ready: &mut Vec<u8>,
    told: &mut Vec<u8>,
    text: &mut Vec<u8>,
    task: &LineValuesTask,
    number: usize,
    bytes: &[u8],
    found: &[Result<Found, FindFault>],
) -> Result<(), AllocError>
    requires { length task.now.pointers.items ≡ length found.now }
    ensures ready { OnOk result (ready.new.items ≡ ready.old.items ++ written_of task.now bytes.now found.now) }
    ensures told { OnOk result (told.new.items ≡ told.old.items ++ told_of_all task.now.form number bytes.now (pointers_of task.now) found.now) }
{
    add_values(ready, text, task, bytes, found)?;
    add_all_found(told, task.form, number, bytes, &task.pointers, found)
}

/// Whether more of a line's value may follow its last byte, where a line feed ends the line or none does.
fn may_go_on(bytes: &[u8], is_ended: bool) -> bool
    ensures { result ≡ (ends_open bytes.now && not is_ended) }
{
    !is_ended && ends_open_behind(false, bytes)
}

/// Adds the values of an accepted line, or none where it may have been cut.
fn add_accepted(
    ready: &mut Vec<u8>,
    told: &mut Vec<u8>,
    text: &mut Vec<u8>,
    task: &LineValuesTask,
    number: usize,
    bytes: &[u8],
    is_ended: bool,
    found: &[Result<Found, FindFault>],
) -> Result<(), AllocError>
    requires filled { are_blanks bytes.now ≡ false }
    requires found { AreFoundIn (alone task.now.settings.depth) bytes.now (pointers_of task.now) found.now }
    ensures { OnOk result ((mark : FrontMark) → IsAdded task.now mark (line number (part 0 bytes.now) is_ended) ready.old.items ready.new.items told.old.items told.new.items) }
{
    reader_and_grammar();
    verdicts_with_a_refused_mark();
    if may_go_on(bytes, is_ended) {
        return add_none(ready, told, task, number, LineVerdict::MayBeCut);
    }
    add_found_values(ready, told, text, task, number, bytes, found)
}

/// Why a line is refused that begins with a part of a byte order mark, where one is ignored. No whole one stands in front.
fn refused_front(bytes: &[u8], mark: FrontMark) -> Option<Refusal>
    requires { mark_length mark bytes.now ≡ 0 }
    ensures some { IfSome result (λ refusal. (task : LineValuesTask) → JudgedBy (settings_with task mark) 0 bytes.now (Verdict.Refused refusal)) }
    ensures none { IfNone result ((task : LineValuesTask) (verdict : Verdict) → Judged 0 bytes.now task.settings.depth verdict → JudgedBy (settings_with task mark) 0 bytes.now verdict) }
{
    match front(bytes, mark) {
        Front::Skip(_) => None,
        Front::Refused(refusal) => Some(refusal),
    }
}

/// A line in front of a slice. The bytes after it are only room for a reader that looks at many bytes at a time.
#[derive(Clone, Copy)]
pub(crate) struct LineInFront<'a> {
    pub number: usize,
    pub slice: &'a [u8],
    /// How many bytes it has.
    pub len: usize,
    /// Whether a line feed ends it.
    pub is_ended: bool,
    /// The rule on a byte order mark that it begins with.
    pub mark: FrontMark,
}

/// Adds the output for a line and the messages on it. The pointers that are looked up are those of the task. The text of a value
/// is made in `text`.
pub(crate) fn add_line(
    alloc: Global,
    ready: &mut Vec<u8>,
    told: &mut Vec<u8>,
    text: &mut Vec<u8>,
    findings: &mut Findings,
    task: &LineValuesTask,
    trie: &PointerTrie,
    at: LineInFront,
) -> Result<(), AllocError>
    requires trie { IsTrieOf (pointers_of task.now) trie.now }
    requires within { at.len ≤ length at.slice.now }
    requires bare { mark_length at.mark (slice_range at.slice.now 0 at.len) ≡ 0 }
    ensures { OnOk result (IsAdded task.now at.entry.mark (line at.entry.number (part 0 (slice_range at.entry.slice.now 0 at.entry.len)) at.entry.is_ended) ready.old.items ready.new.items told.old.items told.new.items) }
{
    let LineInFront {
        number,
        slice,
        len,
        is_ended,
        mark,
    } = at;
    let bytes = &slice[0..len];
    if are_blanks(bytes) {
        return add_none(ready, told, task, number, LineVerdict::Blank);
    }
    match refused_front(bytes, mark) {
        Some(refusal) => add_none(ready, told, task, number, LineVerdict::Refused(refusal)),
        None => match findings.read(alloc, slice, len, task.settings.depth, trie)? {
            Verdict::Refused(refusal) => {
                add_none(ready, told, task, number, LineVerdict::Refused(refusal))
            }
            Verdict::Accepted => add_accepted(
                ready,
                told,
                text,
                task,
                number,
                bytes,
                is_ended,
                findings.found(),
            ),
        },
    }
}
