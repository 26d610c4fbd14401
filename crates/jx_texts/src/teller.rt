// Texts that are reported while the input comes slice by slice.
ghost use Rattle.std.specs.Prelude.{◌≡◌, ◌++◌, ◌∷◌, [], OnOk};
ghost use Rattle.jx_words.specs.Words.{line};
ghost use Rattle.jx_texts.specs.Output.{exit_past, exit_past_verdict, lines_of, text_line, verdict_words};
ghost use Rattle.jx_texts.specs.Reading.{listed};
ghost use Rattle.jx_texts.specs.inside.TextTeller.{HasTaken};

use crate::judged_text::JudgedText;
use crate::laws::settled_texts_of_a_reader;
use crate::task::TextsTask;
use crate::text_reader::TextReader;
use jx_drive::{Reporter, StepTaker};
use jx_ends::Exit;
use jx_run::Verdict;
use jx_words::{add_refusal, add_span};
use std::alloc::{AllocError, Global};
use std::marker::Model;

/// Appends the words for the verdict on a text, and a line feed.
fn add_verdict(out: &mut Vec<u8>, verdict: Verdict) -> Result<(), AllocError>
    ensures { OnOk result (out.new.items ≡ out.old.items ++ line (verdict_words verdict)) }
{
    match verdict {
        Verdict::Accepted => out.extend_from_slice(b"accepted\n"),
        Verdict::Refused(refusal) => add_refusal(out, refusal),
    }
}

/// Appends the report on a text.
fn add_text(out: &mut Vec<u8>, front: &[u8], text: JudgedText) -> Result<(), AllocError>
    ensures { OnOk result (out.new.items ≡ out.old.items ++ text_line front.now text) }
{
    out.extend_from_slice(front)?;
    add_span(out, text.span)?;
    out.extend_from_slice(b" ")?;
    add_verdict(out, text.verdict)
}

/// Appends the report on a text, if anything is to be written.
fn add_told(ready: &mut Vec<u8>, task: &TextsTask, text: JudgedText) -> Result<(), AllocError>
    ensures { OnOk result (ready.new.items ≡ ready.old.items ++ lines_of task.now (text ∷ [])) }
{
    if task.is_quiet {
        return Ok(());
    }
    add_text(ready, &task.front, text)
}

/// The exit after a text: bad where it is not accepted, and otherwise the exit that there was before it.
fn exit_past(exit: Exit, verdict: Verdict) -> Exit
    ensures { result ≡ exit_past_verdict exit verdict }
{
    match verdict {
        Verdict::Accepted => exit,
        Verdict::Refused(_) => Exit::Bad,
    }
}

/// A reader of texts, and the report on those that it has told. The report waits here to be written.
#[derive(Drop)]
pub(crate) struct TextTeller {
    texts: TextReader,
    exit: Exit,
    ready: Vec<u8>,
}

impl Model for TextTeller {
    ghost use Rattle.jx_texts.specs.inside.TextTeller.{TextTellerValue};

    ghost Value = { TextTellerValue };

    ghost view = { λ t. record { texts = t.texts; exit = t.exit; ready = t.ready.items } };
}

impl TextTeller {
    /// A teller that has taken no byte. Nothing is allocated.
    pub fn new(alloc: Global, task: &TextsTask) -> TextTeller
        ensures taken { HasTaken task.now [] [] result }
        ensures ready { result.ready ≡ [] }
    {
        TextTeller {
            texts: TextReader::new(alloc, task.depth, 0),
            exit: Exit::Good,
            ready: Vec::new(alloc),
        }
    }

    /// Reports a text, if there is one.
    fn tell(&mut self, task: &TextsTask, told: Option<JudgedText>) -> Result<(), AllocError>
        ensures texts { self.new.texts ≡ self.old.texts }
        ensures ready { OnOk result (self.new.ready ≡ self.old.ready ++ lines_of task.now (listed told)) }
        ensures exit { OnOk result (self.new.exit ≡ exit_past self.old.exit (listed told)) }
    {
        if let Some(text) = told {
            add_told(&mut self.ready, task, text)?;
            self.exit = exit_past(self.exit, text.verdict);
        }
        Ok(())
    }
}

impl StepTaker for TextTeller {
    ghost use Rattle.std.specs.Prelude.{◌+◌};
    ghost use Rattle.jx_texts.specs.inside.TextTeller.{HasTaken};

    type Task = TextsTask;

    ghost has_taken = { HasTaken };

    ghost end = { λ t. t.texts.reader.start + t.texts.reader.count };

    fn end(&self) -> usize {
        self.texts.end()
    }

    fn take_step(&mut self, task: &TextsTask, slice: &[u8]) -> Result<usize, AllocError> {
        let step = self.texts.feed(slice)?;
        self.tell(task, step.ended)?;
        self.tell(task, step.refused)?;
        Ok(step.taken)
    }
}

impl Reporter<()> for TextTeller {
    ghost use Rattle.std.specs.Prelude.{[], ◌++◌};
    ghost use Rattle.jx_drive.specs.Reports.{DueOrWhole};
    ghost use Rattle.jx_texts.specs.Output.{IsDue, TextsOutput};
    ghost use Rattle.jx_texts.specs.inside.TextTeller.{HasTaken};

    type Task = TextsTask;

    ghost is_due = { λ task _ _. IsDue task };

    ghost is_begun = { λ task _ _. DueOrWhole (IsDue task) (TextsOutput task) };

    ghost is_output = { λ task _ _. TextsOutput task };

    ghost has_taken = { λ task _ _. HasTaken task };

    ghost has_ended = { λ task _ _ bytes given exit t. TextsOutput task bytes (given ++ t.ready) exit };

    ghost ready = { λ t. t.ready };

    ghost told = { λ _. [] };

    fn what_waits_is_due() {
        settled_texts_of_a_reader();
    }

    fn ready(&self) -> &[u8] {
        &self.ready
    }

    fn clear(&mut self, _beside: &mut ()) {
        self.ready.clear();
    }

    fn finish(&mut self, task: &TextsTask) -> Result<Exit, AllocError> {
        let last = self.texts.last_text();
        self.tell(task, last)?;
        Ok(self.exit)
    }
}
