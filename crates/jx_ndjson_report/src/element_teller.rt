// Elements of a text sequence that are reported while the input comes slice by slice.
ghost use Rattle.std.specs.Prelude.{◌≡◌, ◌++◌, [], OnOk};
ghost use Rattle.jx_report.specs.Elements.{exit_past_verdict};
ghost use Rattle.jx_ndjson_report.specs.inside.ElementTeller.{HasTaken, one_line};

use crate::task::ElementsTask;
use crate::words::add_element;
use jx_drive::{Reporter, StepTaker};
use jx_ends::Exit;
use jx_ndjson::{ElementReader, ended_elements_of_a_reader};
use jx_run::{ElementVerdict, JudgedElement};
use std::alloc::{AllocError, Global};
use std::marker::Model;

/// Appends the report on an element, if anything is to be written.
fn add_told(
    ready: &mut Vec<u8>,
    task: &ElementsTask,
    element: JudgedElement,
) -> Result<(), AllocError>
    ensures { OnOk result (ready.new.items ≡ ready.old.items ++ one_line task.now element) }
{
    if task.is_quiet {
        return Ok(());
    }
    add_element(ready, &task.front, element)
}

/// The exit after an element: bad where it is not accepted, and otherwise the exit that there was before it.
pub fn exit_past(exit: Exit, verdict: ElementVerdict) -> Exit
    ensures { result ≡ exit_past_verdict exit verdict }
{
    match verdict {
        ElementVerdict::Accepted => exit,
        ElementVerdict::Refused(_) => Exit::Bad,
        ElementVerdict::MayBeCut => Exit::Bad,
        ElementVerdict::Unmarked => Exit::Bad,
    }
}

/// A reader of elements, and the report on those that a record separator has ended. The report waits here to be
/// written.
#[derive(Drop)]
pub(crate) struct ElementTeller {
    elements: ElementReader,
    exit: Exit,
    ready: Vec<u8>,
}

impl Model for ElementTeller {
    ghost use Rattle.jx_ndjson_report.specs.inside.ElementTeller.{ElementTellerValue};

    ghost Value = { ElementTellerValue };

    ghost view = { λ t. record { elements = t.elements; exit = t.exit; ready = t.ready.items } };
}

impl ElementTeller {
    /// A teller that has taken no byte. Nothing is allocated.
    pub fn new(alloc: Global, task: &ElementsTask) -> ElementTeller
        ensures taken { HasTaken task.now [] [] result }
        ensures ready { result.ready ≡ [] }
    {
        ElementTeller {
            elements: ElementReader::new(alloc, &task.settings),
            exit: Exit::Good,
            ready: Vec::new(alloc),
        }
    }

    /// Reports an element that has ended.
    fn tell(&mut self, task: &ElementsTask, element: JudgedElement) -> Result<(), AllocError>
        ensures elements { self.new.elements ≡ self.old.elements }
        ensures ready { OnOk result (self.new.ready ≡ self.old.ready ++ one_line task.now element) }
        ensures exit { OnOk result (self.new.exit ≡ exit_past_verdict self.old.exit element.verdict) }
    {
        add_told(&mut self.ready, task, element)?;
        self.exit = exit_past(self.exit, element.verdict);
        Ok(())
    }
}

impl StepTaker for ElementTeller {
    ghost use Rattle.std.specs.Prelude.{◌+◌};
    ghost use Rattle.jx_ndjson_report.specs.inside.ElementTeller.{HasTaken};

    type Task = ElementsTask;

    ghost has_taken = { HasTaken };

    ghost end = { λ t. t.elements.reader.start + t.elements.reader.count };

    fn end(&self) -> usize {
        self.elements.end()
    }

    /// Takes a slice up to and with its first record separator, or less.
    fn take_step(&mut self, task: &ElementsTask, slice: &[u8]) -> Result<usize, AllocError> {
        let step = self.elements.feed(slice)?;
        match step.element {
            None => Ok(step.taken),
            Some(element) => {
                self.tell(task, element)?;
                Ok(step.taken)
            }
        }
    }
}

impl Reporter<()> for ElementTeller {
    ghost use Rattle.std.specs.Prelude.{[], ◌++◌};
    ghost use Rattle.jx_drive.specs.Reports.{DueOrWhole};
    ghost use Rattle.jx_ndjson_report.specs.Elements.{ElementsOutput, IsDue};
    ghost use Rattle.jx_ndjson_report.specs.inside.ElementTeller.{HasTaken};

    type Task = ElementsTask;

    ghost is_due = { λ task _ _. IsDue task };

    ghost is_begun = { λ task _ _. DueOrWhole (IsDue task) (ElementsOutput task) };

    ghost is_output = { λ task _ _. ElementsOutput task };

    ghost has_taken = { λ task _ _. HasTaken task };

    ghost has_ended = { λ task _ _ bytes given exit t. ElementsOutput task bytes (given ++ t.ready) exit };

    ghost ready = { λ t. t.ready };

    ghost told = { λ _. [] };

    fn what_waits_is_due() {
        ended_elements_of_a_reader();
    }

    fn ready(&self) -> &[u8] {
        &self.ready
    }

    fn clear(&mut self, _beside: &mut ()) {
        self.ready.clear();
    }

    fn finish(&mut self, task: &ElementsTask) -> Result<Exit, AllocError> {
        match self.elements.last_element() {
            None => Ok(self.exit),
            Some(element) => {
                add_told(&mut self.ready, task, element)?;
                Ok(exit_past(self.exit, element.verdict))
            }
        }
    }
}
