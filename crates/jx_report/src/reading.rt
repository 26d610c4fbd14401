// The state of an input that is read batch by batch.
ghost use Rattle.std.specs.Prelude.{◌≡◌, ◌≢◌, ◌<◌, ◌≤◌, ℕ, List, [], length, OnOk, IfOk, IfErr, IfSome, IsErrOf};
ghost use Rattle.jx_run.specs.declared.texts.settings.NameRule.TheVariants.{Any};
ghost use Rattle.jx_run.specs.declared.texts.settings.Settings.{Settings};
ghost use Rattle.jx_task.specs.declared.task.Task.{Task};
ghost use Rattle.jx_report.specs.Output.{Output};
ghost use Rattle.jx_report.specs.Reports.{greatest_length};
ghost use Rattle.jx_report.specs.inside.Batches.{end_of, IsReadingOf, ReadsOn};
ghost use Rattle.jx_report.specs.inside.PointerReads.{AreSought};
ghost use Rattle.jx_report.specs.inside.Replies.{reply_exit, reply_output};

use crate::pointer_reader::PointerReader;
use crate::reply::Reply;
use crate::sequence_reader::SequenceReader;
use jx_answer::{Balance, read_batch, read_pieces, verdict_without_a_rule_on_names};
use jx_claim::Cutting;
use jx_crew::{Crew, Gate};
use jx_ends::ReportFault;
use jx_names::NamesReader;
use jx_run::{NameRule, Reader};
use jx_task::{Command, Task};
use jx_words::ReadPointers;
use std::alloc::{AllocError, Global};
use std::sync::Wait;
use std::thread::Threads;

/// The state of an input that is read batch by batch. Of its bytes it keeps three at most; of a text that pointers are
/// looked up in also a name that has begun, of one whose names have to be unique those of open objects, and of such a
/// sequence the last element.
#[derive(Drop)]
pub(crate) enum Reading<'p> {
    /// The verdict on a text.
    Text { reader: Reader, balance: Balance },
    /// The verdict on a text whose names have to be unique.
    Names(NamesReader),
    /// The look-up of pointers in a text.
    Pointers(PointerReader<'p>),
    /// The verdicts on the elements of a text sequence.
    Elements(SequenceReader),
}

impl<'p> Reading<'p> {
    /// The reading before the first byte, where the task needs no byte once it was read. The pointers are those of the task, where they are looked up
    /// in what is read.
    pub fn of(
        alloc: Global,
        command: &Command,
        few: Option<ReadPointers<'p>>,
    ) -> Result<Option<Reading<'p>>, AllocError>
        requires few { IfSome few (λ read. AreSought command.now.task read.pointers.items read.unread.items) }
        ensures begins { IfOk result (λ reading. IfSome reading (IsReadingOf command.now.task command.now.settings [])) }
    {
        if let Some(read) = few {
            let reader = PointerReader::new(alloc, &command.settings, read)?;
            return Ok(Some(Reading::Pointers(reader)));
        }
        match (&command.task, command.settings.names) {
            (Task::Check, NameRule::Any) => Ok(Some(Reading::Text {
                reader: Reader::new(alloc, &command.settings, 0),
                balance: Balance::new(command.workers),
            })),
            (Task::Check, NameRule::Unique) => Ok(Some(Reading::Names(NamesReader::new(
                alloc,
                &command.settings,
            )))),
            (Task::Seq, _) => Ok(Some(Reading::Elements(SequenceReader::new(alloc, command)))),
            _ => Ok(None),
        }
    }

    /// The number of bytes that were read.
    pub fn end(&self) -> usize
        ensures end { result ≡ end_of self.now }
        ensures length { (task : Task) (settings : Settings) (text : List ℕ) → IsReadingOf task settings text self.now → result ≡ length text }
    {
        match self {
            Reading::Text { reader, .. } => reader.end(),
            Reading::Names(reader) => reader.end(),
            Reading::Pointers(reader) => reader.end(),
            Reading::Elements(sequence) => sequence.end(),
        }
    }

    /// Reads a batch after what was read. It is also out of memory where the last byte has no offset.
    pub fn read<R: Threads + Wait + Sync, G: Gate + Sync>(
        &mut self,
        crew: &Crew<'_, R, G>,
        batch: &[u8],
        piece: usize,
    ) -> Result<(), AllocError>
        requires piece { 1 ≤ piece }
        ensures reads { OnOk result (ReadsOn batch.now self.old self.new) }
    {
        if batch.len() > usize::MAX - self.end() {
            return Err(AllocError);
        }
        match self {
            Reading::Text { reader, .. } if crew.workers.count() == 1 => {
                let Ok(cutting) = Cutting::every(batch.len(), piece) else {
                    return reader.feed(batch);
                };
                read_pieces(reader, batch, &cutting, crew.gate)
            }
            Reading::Text { reader, balance } => read_batch(crew, reader, balance, batch, piece),
            Reading::Names(reader) => reader.feed(batch),
            Reading::Pointers(reader) => reader.read(batch),
            Reading::Elements(sequence) => sequence.read(crew, batch, piece),
        }
    }

    /// The reply to all bytes that were read, unless they make too many chunks.
    pub fn into_reply(self, command: &Command) -> Result<Reply, ReportFault>
        requires piece { 1 ≤ command.now.piece }
        ensures ok { IfOk result (λ reply. (text : List ℕ) → IsReadingOf command.now.task command.now.settings text self.entry
            → (length text ≤ greatest_length command.now.piece) × Output command.now.task command.now.settings text (reply_output reply) (reply_exit reply)) }
        ensures pieces { IsErrOf result ReportFault.Pieces → (text : List ℕ) → IsReadingOf command.now.task command.now.settings text self.entry
            → greatest_length command.now.piece < length text }
        ensures unread { IfErr result (λ fault. fault ≢ ReportFault.Read) }
        ensures unwritten { IfErr result (λ fault. fault ≢ ReportFault.Write) }
    {
        verdict_without_a_rule_on_names();
        if Cutting::every(self.end(), command.piece).is_err() {
            return Err(ReportFault::Pieces);
        }
        match self {
            Reading::Text { reader, .. } => Ok(Reply::Verdict(reader.verdict())),
            Reading::Names(reader) => {
                let verdict = reader.verdict()?;
                Ok(Reply::Verdict(verdict))
            }
            Reading::Pointers(reader) => {
                let reply = reader.into_reply()?;
                Ok(reply)
            }
            Reading::Elements(sequence) => {
                let elements = sequence.into_elements()?;
                Ok(Reply::Elements(elements))
            }
        }
    }
}
