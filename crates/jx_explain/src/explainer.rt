// A text that is read slice by slice, so that its refusal can be explained without the text.
use crate::explain::{Form, accepted, refused};
use crate::seen::{Seen, place_in};
use crate::sentence::sentence_of;
use jx_run::{NameRule, Reader, Refusal, Settings, Verdict};
use std::alloc::{AllocError, Global};
use std::mem;

/// How many bytes decide where a text begins.
const FRONT: usize = 3;

/// A text that is fed slice by slice and may be explained then, whatever names its objects have. It keeps some bytes around the place
/// that it is refused at, and of those before it the open containers and their names.
#[derive(Drop)]
pub struct Explainer {
    alloc: Global,
    settings: Settings,
    judge: Reader,
    seen: Seen,
    /// The first bytes, until they show where the text begins.
    waiting: Vec<u8>,
    has_begun: bool,
    /// Whether an allocation failed.
    has_failed: bool,
}

impl Explainer {
    /// The explainer before the first byte. The names of the settings are ignored.
    pub fn new(alloc: Global, settings: &Settings) -> Explainer {
        Explainer {
            alloc,
            settings: Settings {
                depth: settings.depth,
                mark: settings.mark,
                names: NameRule::Any,
            },
            judge: Reader::new(alloc, settings, 0),
            seen: Seen::new(alloc),
            waiting: Vec::new(alloc),
            has_begun: false,
            has_failed: false,
        }
    }

    /// How many of the bytes that the judge was fed last are before a fault.
    fn count_before_fault(&self, base: usize, count: usize) -> usize {
        match self.judge.verdict() {
            Verdict::Refused(Refusal::Stopped { at } | Refusal::TooDeep { at }) => {
                at.saturating_sub(base).min(count)
            }
            _ => count,
        }
    }

    /// Reads bytes after those that were read, before a fault.
    fn read(&mut self, bytes: &[u8]) -> Result<(), AllocError> {
        let base = self.judge.end();
        if bytes.len() > usize::MAX - base {
            return Err(AllocError);
        }
        self.judge.feed(bytes)?;
        let mark = if self.has_begun {
            0
        } else {
            self.has_begun = true;
            self.seen.begin(bytes, &self.settings)
        };
        let place = self.count_before_fault(base, bytes.len());
        self.seen.read_around(bytes, mark, place)
    }

    /// Reads a slice, unless there are too few bytes to know where the text begins.
    fn take(&mut self, slice: &[u8]) -> Result<(), AllocError> {
        if self.judge.is_done() {
            return self.seen.go_past(slice);
        }
        if self.has_begun {
            return self.read(slice);
        }
        self.waiting.extend_from_slice(slice)?;
        if self.waiting.len() < FRONT {
            return Ok(());
        }
        self.read_waiting()
    }

    /// Reads the bytes that wait.
    fn read_waiting(&mut self) -> Result<(), AllocError> {
        let none = Vec::new(self.alloc);
        let first = mem::replace(&mut self.waiting, none);
        self.read(&first)
    }

    /// Reads a slice after all that it was fed. Where an allocation fails, `explained` reports that.
    pub fn feed(&mut self, slice: &[u8]) {
        if !self.has_failed && self.take(slice).is_err() {
            self.has_failed = true;
        }
    }

    /// The report on all that it was fed in a form, as `explained` has it, with this name.
    pub fn explained(mut self, name: &[u8], form: Form) -> Result<String, AllocError> {
        if self.has_failed {
            return Err(AllocError);
        }
        if !self.has_begun {
            self.read_waiting()?;
        }
        let Explainer {
            alloc,
            settings,
            judge,
            seen,
            ..
        } = self;
        match judge.verdict() {
            Verdict::Accepted => accepted(alloc, name, form),
            Verdict::Refused(refusal) => {
                let scene = seen.into_scene(place_in(refusal, judge.end()))?;
                let sentence = sentence_of(alloc, &scene, refusal, &settings)?;
                refused(alloc, name, &scene, sentence.as_str(), refusal, form)
            }
        }
    }
}
