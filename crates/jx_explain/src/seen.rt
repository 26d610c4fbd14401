// The part of a text that was read up to a place, and the bytes around it.
use crate::position::Position;
use crate::reached::Reached;
use crate::scene::Scene;
use crate::trail::Trail;
use jx_run::{Front, Refusal, Settings, front};
use std::alloc::{AllocError, Global};

/// How many bytes are kept on each side of a place: a column that is shown takes at most four.
const NEAR: usize = 152;

/// The part of a text that was read up to a place.
#[derive(Drop)]
pub struct Seen {
    alloc: Global,
    /// None before the first byte, and where a byte order mark is begun and not ended.
    reached: Option<Reached>,
    /// The last bytes before the place, and the first ones from it on.
    tail: Vec<u8>,
    rest: Vec<u8>,
    /// Whether more bytes follow these.
    has_more: bool,
}

/// Keeps the last bytes of those that are kept and these.
fn keep_last(alloc: Global, tail: &mut Vec<u8>, bytes: &[u8]) -> Result<(), AllocError> {
    if bytes.len() >= NEAR {
        tail.clear();
        return tail.extend_from_slice(bytes.get(bytes.len() - NEAR..).unwrap_or(&[]));
    }
    tail.extend_from_slice(bytes)?;
    let extra = tail.len().saturating_sub(NEAR);
    if extra > 0 {
        *tail = Vec::from_slice(alloc, tail.get(extra..).unwrap_or(&[]))?;
    }
    Ok(())
}

impl Seen {
    /// The reading before the first byte.
    pub fn new(alloc: Global) -> Seen {
        Seen {
            alloc,
            reached: None,
            tail: Vec::new(alloc),
            rest: Vec::new(alloc),
            has_more: false,
        }
    }

    /// Begins with the first bytes of a text, which show what stands in front of it. Returns how many do.
    pub fn begin(&mut self, first: &[u8], settings: &Settings) -> usize {
        match front(first, settings.mark) {
            Front::Skip(from) => {
                let mark = first.get(..from).unwrap_or(&[]);
                let position = Position::first().behind_some(mark);
                let reached = Reached::new(self.alloc, settings.depth, from, position);
                self.reached = Some(reached);
                from
            }
            Front::Refused(_) => 0,
        }
    }

    /// Reads bytes before the place.
    fn read(&mut self, bytes: &[u8]) -> Result<(), AllocError> {
        if let Some(reached) = &mut self.reached {
            reached.read(bytes)?;
        }
        Ok(())
    }

    /// Keeps bytes from the place on, as many as are shown.
    pub fn go_past(&mut self, bytes: &[u8]) -> Result<(), AllocError> {
        let room = NEAR.saturating_sub(self.rest.len());
        if bytes.len() > room {
            self.has_more = true;
        }
        self.rest
            .extend_from_slice(bytes.get(..room).unwrap_or(bytes))
    }

    /// Reads the first bytes of a text up to a place, and those from the place on. A byte order mark in front of them has so many bytes.
    pub fn read_around(
        &mut self,
        bytes: &[u8],
        mark: usize,
        place: usize,
    ) -> Result<(), AllocError> {
        let before = bytes.get(..place).unwrap_or(bytes);
        self.read(before.get(mark..).unwrap_or(&[]))?;
        keep_last(self.alloc, &mut self.tail, before)?;
        self.go_past(bytes.get(place..).unwrap_or(&[]))
    }

    /// The scene of the place, which has this offset.
    pub fn into_scene(self, at: usize) -> Result<Scene, AllocError> {
        let Seen {
            alloc,
            reached,
            tail,
            rest,
            has_more,
        } = self;
        let split = tail.len();
        let mut near = tail;
        near.extend_from_slice(&rest)?;
        let mut scene = Scene {
            at,
            position: Position::first(),
            near,
            split,
            is_cut_before: at > split,
            is_cut_after: has_more,
            standing: None,
            token_byte: None,
            string: None,
            trail: Trail::new(alloc),
        };
        match reached {
            Some(reached) => {
                let mut reached = reached;
                scene.standing = reached.take_standing()?;
                scene.position = reached.position;
                scene.token_byte = reached.token_byte;
                scene.string = reached.string;
                scene.trail = reached.trail;
            }
            None => {
                let position = scene.position.behind_some(scene.before());
                scene.position = position;
            }
        }
        Ok(scene)
    }
}

/// The offset of the place that a refusal is about, in a text of so many bytes.
pub fn place_in(refusal: Refusal, end: usize) -> usize {
    match refusal {
        Refusal::Stopped { at } => at,
        Refusal::TooDeep { at } => at,
        Refusal::RepeatedName { at } => at,
        Refusal::Truncated => end,
    }
}

/// The scene of the place that a refusal of a text is about.
pub fn scene_in(
    alloc: Global,
    text: &[u8],
    refusal: Refusal,
    settings: &Settings,
) -> Result<Scene, AllocError> {
    let at = place_in(refusal, text.len()).min(text.len());
    let mut seen = Seen::new(alloc);
    let mark = seen.begin(text, settings);
    seen.read_around(text, mark, at)?;
    seen.into_scene(at)
}
