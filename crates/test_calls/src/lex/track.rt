// The result of reading from one state: token starts, ends and an exit.
use jx_lex::{LexExit, LexState, Mark, TokenEnd, step};
use jx_maps::TrackView;
use std::alloc::{AllocError, Global};
use test_words::{Out, push_numbers};

/// The token starts of a track, its ends and its exit.
#[derive(Drop, PartialEq)]
pub(crate) struct Track {
    pub(crate) marks: Vec<Mark>,
    pub(crate) ends: Vec<usize>,
    pub(crate) exit: LexExit,
}

impl Track {
    /// The track that a view shows.
    pub(crate) fn of_view(alloc: Global, view: &TrackView<'_>) -> Result<Track, AllocError> {
        let mut marks = Vec::new(alloc);
        for mark in view.marks() {
            marks.push(mark)?;
        }
        Ok(Track {
            marks,
            ends: ends_of(alloc, view)?,
            exit: view.exit(),
        })
    }

    /// The track of reading bytes from a state, by one step after another; the first byte has this offset.
    pub(crate) fn by_steps(
        alloc: Global,
        state: LexState,
        bytes: &[u8],
        start: usize,
    ) -> Result<Track, AllocError> {
        let mut track = Track {
            marks: Vec::new(alloc),
            ends: Vec::new(alloc),
            exit: LexExit::State(state),
        };
        for (place, byte) in bytes.iter().enumerate() {
            let LexExit::State(now) = track.exit else {
                break;
            };
            track.read(now, start.wrapping_add(place), *byte)?;
        }
        Ok(track)
    }

    /// Reads the byte at this offset from this state.
    fn read(&mut self, now: LexState, at: usize, byte: u8) -> Result<(), AllocError> {
        let step = step(now, byte);
        match step.end {
            Some(TokenEnd::Before) => self.ends.push(at)?,
            Some(TokenEnd::After) => self.ends.push(at.wrapping_add(1))?,
            None => {}
        }
        if let Some(kind) = step.begin {
            self.marks.push(Mark { kind, at })?;
        }
        self.exit = match step.next {
            Some(next) => LexExit::State(next),
            None => LexExit::Fault(at),
        };
        Ok(())
    }

    /// `Number@7 CloseArray@8; ends 8; exit Gap`.
    pub(crate) fn push_to(&self, out: &mut Out) {
        push_track(out, &self.marks, &self.ends, self.exit);
    }
}

/// The same of token starts, ends and an exit.
pub(crate) fn push_track(out: &mut Out, marks: &[Mark], ends: &[usize], exit: LexExit) {
    push_marks(out, marks);
    out.push_str("; ends ");
    push_numbers(out, ends);
    out.push_str("; ");
    push_exit(out, exit);
}

fn ends_of(alloc: Global, view: &TrackView<'_>) -> Result<Vec<usize>, AllocError> {
    let mut ends = Vec::new(alloc);
    for end in view.ends() {
        ends.push(end)?;
    }
    Ok(ends)
}

/// `Number@7 CloseArray@8`, or `-` for no token starts.
fn push_marks(out: &mut Out, marks: &[Mark]) {
    out.list(" ", marks, |out, mark| {
        let (kind, at) = (mark.kind, mark.at);
        out.put(format_args!("{kind:?}@{at}"));
    });
}

/// `exit Gap` or `fault at 7`.
pub(crate) fn push_exit(out: &mut Out, exit: LexExit) {
    match exit {
        LexExit::State(state) => out.put(format_args!("exit {state:?}")),
        LexExit::Fault(at) => out.put(format_args!("fault at {at}")),
    }
}
