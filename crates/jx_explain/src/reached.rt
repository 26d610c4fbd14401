// How far a text was read: where the reading stands, and which containers are open there.
ghost use Rattle.std.specs.Prelude.{◌≡◌, ◌+◌, ◌<◌, ◌^◌, ◌++◌, ℕ, List, [], false, length, IfOk, IfSome, OnOk};
ghost use Rattle.jx_sentence.specs.Places.{place_behind};
ghost use Rattle.jx_sentence.specs.Standing.{StandsBehind};
ghost use Rattle.jx_explain.specs.Columns.{column_behind};
ghost use Rattle.jx_explain.specs.inside.Reached.{HasReached};

use crate::position::Position;
use crate::trail::Trail;
use jx_lex::{Depth, LexExit, LexState, Mark, TokenSink, scan};
use jx_reduce::KnownStack;
use jx_sentence::{Place, Standing, innermost, is_in_string};
use std::alloc::{AllocError, Global};
use std::mem;

/// The tokens of one slice.
#[derive(Drop)]
struct Watching<'t> {
    stack: KnownStack,
    trail: Trail,
    slice: &'t [u8],
    /// Where the bytes of the last token begin that the trail has not.
    from: usize,
    /// Where the last token begins, if one does in the slice.
    token: Option<usize>,
}

impl<'t> TokenSink for Watching<'t> {
    ghost use Rattle.jx_reduce.specs.KnownStack.{HasSeen};

    ghost has_seen = { λ watching marks ends. HasSeen marks ends watching.stack };

    ghost awaits = { λ _ _. Unit {0} };

    #[inline(always)]
    fn begin(&mut self, mark: Mark) -> Result<(), AllocError> {
        self.from = mark.at;
        self.token = Some(mark.at);
        self.trail.begin(mark.kind)?;
        self.stack.push(mark)?;
        Ok(())
    }

    #[inline(always)]
    fn end(&mut self, at: usize) -> Result<(), AllocError> {
        self.trail
            .go_on(self.slice.get(self.from..at).unwrap_or(&[]))?;
        self.trail.end();
        Ok(())
    }

    #[inline(always)]
    fn is_done(&self) -> bool {
        self.stack.is_done()
    }
}

/// The place to which a slice has led, and the token that began last in it, if one did.
#[derive(Drop)]
struct Led {
    stack: KnownStack,
    trail: Trail,
    state: LexState,
    token: Option<usize>,
}

/// Reads a slice; none where a fault is met in it.
fn read_slice(
    stack: KnownStack,
    trail: Trail,
    state: LexState,
    slice: &[u8],
) -> Result<Option<Led>, AllocError>
    ensures { IfOk result (λ led. IfSome led (λ l. (limit from : ℕ) (bytes : List ℕ) → HasReached limit from bytes stack state
        → HasReached limit from (bytes ++ slice.now) l.stack l.state)) }
{
    let mut watching = Watching {
        stack,
        trail,
        slice,
        from: 0,
        token: None,
    };
    let Some(exit) = scan(&mut watching, state, slice, 0, slice.len())? else {
        return Ok(None);
    };
    let LexExit::State(state) = exit else {
        return Ok(None);
    };
    if watching.stack.is_done() {
        return Ok(None);
    }
    let rest = slice.get(watching.from..).unwrap_or(&[]);
    watching.trail.go_on(rest)?;
    Ok(Some(Led {
        stack: watching.stack,
        trail: watching.trail,
        state,
        token: watching.token,
    }))
}

/// How far a text was read. Of its bytes it keeps the names on the way to where it stands.
#[derive(Drop)]
pub struct Reached {
    alloc: Global,
    depth: Depth,
    stack: KnownStack,
    state: LexState,
    pub trail: Trail,
    pub position: Position,
    /// The offset of the next byte.
    pub end: usize,
    /// Where the last token begins, and its first byte, if there is one.
    token: usize,
    pub token_byte: Option<u8>,
    /// Where the string begins that it stands in, if it stands in one.
    pub string: Option<Place>,
    /// Whether a fault was met.
    is_lost: bool,
}

impl Reached {
    /// The reading before the text, which begins at this offset and this position.
    pub fn new(alloc: Global, depth: Depth, from: usize, position: Position) -> Reached
        ensures reads { HasReached depth from [] result.stack result.state }
        ensures kept { result.is_lost ≡ false }
    {
        Reached {
            alloc,
            depth,
            stack: KnownStack::new(alloc, depth),
            state: LexState::Gap,
            trail: Trail::new(alloc),
            position,
            end: from,
            token: from,
            token_byte: None,
            string: None,
            is_lost: false,
        }
    }

    /// Where the string of a token begins that began last in a slice, or before it; none where the reading stands in no string.
    fn string_in(&self, state: LexState, slice: &[u8], token: Option<usize>) -> Option<Place> {
        if !is_in_string(state) {
            return None;
        }
        let Some(at) = token else {
            return self.string;
        };
        let before = slice.get(..at).unwrap_or(&[]);
        Some(self.position.behind_some(before).place)
    }

    /// Stands where a slice has led to.
    fn stand(&mut self, slice: &[u8], led: Led)
        requires line { self.old.position.place.line + length slice.now < 2 ^ 64 }
        requires column { self.old.position.place.column + length slice.now < 2 ^ 64 }
        requires byte { self.old.position.byte + length slice.now < 2 ^ 64 }
        requires end { self.old.end + length slice.now < 2 ^ 64 }
        ensures stack { self.new.stack ≡ led.stack }
        ensures state { self.new.state ≡ led.state }
        ensures position { self.new.position.place ≡ place_behind self.old.position.place slice.now }
        ensures byte { self.new.position.byte ≡ column_behind self.old.position.byte slice.now }
    {
        self.string = self.string_in(led.state, slice, led.token);
        if let Some(at) = led.token {
            self.token = self.end.saturating_add(at);
            self.token_byte = slice.get(at).copied();
        }
        self.stack = led.stack;
        self.trail = led.trail;
        self.state = led.state;
        self.position = self.position.behind(slice);
        self.end += slice.len();
        self.is_lost = false;
    }

    /// Reads a slice that goes on with a text. It is also out of memory where the last byte has no offset.
    pub fn read(&mut self, slice: &[u8]) -> Result<(), AllocError>
        ensures reads { OnOk result (self.new.is_lost ≡ false → (limit from : ℕ) (bytes : List ℕ) → HasReached limit from bytes self.old.stack self.old.state
            → HasReached limit from (bytes ++ slice.now) self.new.stack self.new.state) }
        ensures place { OnOk result (self.new.is_lost ≡ false → self.new.position.place ≡ place_behind self.old.position.place slice.now) }
        ensures byte { OnOk result (self.new.is_lost ≡ false → self.new.position.byte ≡ column_behind self.old.position.byte slice.now) }
    {
        if self.is_lost {
            return Ok(());
        }
        if !self.position.has_room(slice.len()) || slice.len() > usize::MAX - self.end {
            return Err(AllocError);
        }
        self.is_lost = true;
        let none = KnownStack::new(self.alloc, self.depth);
        let nowhere = Trail::new(self.alloc);
        let stack = mem::replace(&mut self.stack, none);
        let trail = mem::replace(&mut self.trail, nowhere);
        match read_slice(stack, trail, self.state, slice)? {
            Some(led) => {
                self.stand(slice, led);
                Ok(())
            }
            None => Ok(()),
        }
    }

    /// Takes the standing of the reading; none where a fault was met. After that it reads no more.
    pub fn take_standing(&mut self) -> Result<Option<Standing>, AllocError>
        ensures { IfOk result (λ found. IfSome found (λ s. (limit from : ℕ) (bytes : List ℕ) → HasReached limit from bytes self.old.stack self.old.state
            → StandsBehind limit from bytes s)) }
    {
        if self.is_lost || self.stack.is_done() {
            return Ok(None);
        }
        self.is_lost = true;
        let (expect, holders) = self.stack.take_standing()?;
        Ok(Some(Standing {
            state: self.state,
            expect,
            top: innermost(holders),
            token: self.token,
        }))
    }
}
