// A reporter on the elements of a container of a text that comes slice by slice.
ghost use Rattle.std.specs.Prelude.{◌≡◌, ◌++◌, [], ℕ, Bool, List, IfOk, OnOk};
ghost use Rattle.jx_run.specs.declared.texts.settings.Settings.{Settings};
ghost use Rattle.jx_index.specs.Pointers.{IsPointer};
ghost use Rattle.jx_each.specs.declared.content.LineContent.{LineContent};
ghost use Rattle.jx_values.specs.declared.elements_teller.ElementsTask.{ElementsTask};
ghost use Rattle.jx_values.specs.declared.elements_teller.ElementsTeller.{ElementsTeller};
ghost use Rattle.jx_values.specs.inside.ElementsTeller.{HasMade, HasTaken, waiting};

use crate::showing::{Showing, told_with_lone};
use crate::sought::{Sought, pointers_of, seek, sought_at_start, told_of_elements, verdict_of};
use crate::telling::exit_by;
use jx_crew::{Crew, Gate};
use jx_drive::{Reporter, tell};
use jx_each::{Each, LineContent, lines_taken_and_waiting};
use jx_each_batch::feed_shared;
use jx_ends::{Exit, Sink};
use jx_run::Settings;
use std::alloc::{AllocError, Global};
use std::sync::Wait;
use std::thread::Threads;

/// Which lines are asked for: those of the container that a pointer leads to, as they are made or each as the text of the
/// string that it is.
#[derive(Clone, Copy)]
pub(crate) struct ElementsTask<'p> {
    pub settings: Settings,
    pub content: LineContent,
    pub by_texts: bool,
    pub pointer: &'p str,
}

/// A maker of lines and a look-up of the pointer, how the lines are written, and the report that waits.
#[derive(Drop)]
pub(crate) struct ElementsTeller<'p> {
    alloc: Global,
    each: Each,
    sought: Sought<'p>,
    showing: Showing,
    told: Vec<u8>,
}

impl<'p> ElementsTeller<'p> {
    /// One that has taken no byte. Fails only when out of memory.
    pub fn new(alloc: Global, task: &ElementsTask<'p>) -> Result<ElementsTeller<'p>, AllocError>
        requires { IsPointer task.now.pointer.now }
        ensures taken { IfOk result (HasTaken task.now.by_texts task.now.content task.now.settings task.now.pointer.now [] []) }
        ensures ready { IfOk result (λ teller. waiting teller ≡ []) }
        ensures told { IfOk result (λ teller. teller.told.items ≡ []) }
    {
        let each = Each::with_content(alloc, &task.settings, task.pointer, task.content)?;
        let pointers = pointers_of(alloc, task.content, task.pointer)?;
        let sought = sought_at_start(alloc, &task.settings, pointers)?;
        Ok(ElementsTeller {
            alloc,
            each,
            sought,
            showing: Showing::new(alloc, task.by_texts),
            told: Vec::new(alloc),
        })
    }

    /// Has the texts of the lines wait in their place, where texts are asked for.
    fn show(&mut self) -> Result<(), AllocError>
        ensures { OnOk result ((by_texts : Bool) (content : LineContent) (settings : Settings) (pointer bytes given : List ℕ) → HasMade by_texts content settings pointer bytes given self.old
            → HasTaken by_texts content settings pointer bytes given self.new) }
    {
        if !self.showing.by_texts {
            return Ok(());
        }
        self.showing.take_lines(self.each.ready())?;
        self.each.clear_ready();
        Ok(())
    }

    /// Takes a slice after all bytes that it has taken, by the crew. Fails only when out of memory, also where the last byte
    /// has no offset.
    pub fn take<R: Threads + Wait + Sync, G: Gate + Sync>(
        &mut self,
        crew: &Crew<'_, R, G>,
        slice: &[u8],
        piece: usize,
    ) -> Result<(), AllocError>
        ensures taken { OnOk result ((by_texts : Bool) (content : LineContent) (settings : Settings) (pointer bytes given : List ℕ) → HasTaken by_texts content settings pointer bytes given self.old
            → HasTaken by_texts content settings pointer (bytes ++ slice.now) given self.new) }
    {
        if slice.len() > usize::MAX - self.each.end() {
            return Err(AllocError);
        }
        seek(&mut self.sought, slice)?;
        feed_shared(crew, &mut self.each, slice, piece.max(1))?;
        self.show()
    }
}

impl<'p, E: Sink> Reporter<E> for ElementsTeller<'p> {
    ghost use Rattle.jx_ends.specs.declared.exit.Exit.{Exit};
    ghost use Rattle.jx_values.specs.Elements.{ToldOutput};
    ghost use Rattle.jx_values.specs.inside.ElementsTeller.{HasEndedUntold, HasTakenUntold, IsDueUntold, waiting};

    type Task = ElementsTask<'p>;

    // Nothing is reported before the end.
    ghost is_due = { IsDueUntold };

    ghost is_begun = { IsDueUntold };

    ghost is_output = { λ task was now. ToldOutput task.by_texts task.content task.settings task.pointer.now (E.has_failed now) (E.contents was) (E.contents now) };

    ghost has_taken = { HasTakenUntold };

    ghost has_ended = { HasEndedUntold };

    ghost ready = { waiting };

    ghost told = { λ t. t.told.items };

    fn what_waits_is_due()
        ensures due { (task : ElementsTask) (was now : E) (bytes given : List ℕ) (t : ElementsTeller) → HasTakenUntold task was now bytes given t → t.told.items ≡ [] → IsDueUntold task was now bytes (given ++ waiting t) }
        ensures begun { (task : ElementsTask) (was now : E) (bytes given : List ℕ) (t : ElementsTeller) → HasTakenUntold task was now bytes given t → IsDueUntold task was now bytes (given ++ waiting t) }
        ensures ended { (task : ElementsTask) (was now : E) (bytes given : List ℕ) (exit : Exit) (t : ElementsTeller) → HasEndedUntold task was now bytes given exit t → IsDueUntold task was now bytes (given ++ waiting t) }
    {
        lines_taken_and_waiting();
    }

    fn ready(&self) -> &[u8] {
        if self.showing.by_texts {
            &self.showing.ready
        } else {
            self.each.ready()
        }
    }

    fn clear(&mut self, beside: &mut E) {
        tell(beside, &self.told);
        self.told.clear();
        self.each.clear_ready();
        self.showing.ready.clear();
    }

    fn finish(&mut self, task: &ElementsTask<'p>) -> Result<Exit, AllocError> {
        lines_taken_and_waiting();
        let sought = self.sought.take();
        let verdict = verdict_of(&self.each);
        let said = told_of_elements(
            self.alloc,
            task.content,
            task.pointer,
            &self.each,
            verdict,
            sought,
        )?;
        self.told = told_with_lone(self.alloc, task.pointer, self.showing.has_lone, said)?;
        Ok(exit_by(&self.told))
    }
}
