// The facts that are known of the place where a text is refused.
use crate::position::Position;
use crate::trail::{Step, Trail};
use jx_lex::LexState;
use jx_reduce::Expect;
use jx_sentence::{Place, Standing};

/// The place where a text is refused, what was read before it, and the bytes around it.
#[derive(Drop)]
pub struct Scene {
    /// Its offset.
    pub at: usize,
    pub position: Position,
    /// The bytes around it, of which so many are before it.
    pub near: Vec<u8>,
    pub split: usize,
    /// Whether the text has bytes before and after these.
    pub is_cut_before: bool,
    pub is_cut_after: bool,
    /// Where the reading stands; none in a byte order mark.
    pub standing: Option<Standing>,
    /// The first byte of the last token.
    pub token_byte: Option<u8>,
    /// Where the string begins that the place is in.
    pub string: Option<Place>,
    /// The way to the place.
    pub trail: Trail,
}

/// Whether a value is begun or may begin where a reading stands.
fn is_at_value(standing: &Standing) -> bool {
    match standing.expect {
        Expect::Value | Expect::ArrayFirst => true,
        Expect::After => standing.state != LexState::Gap,
        _ => false,
    }
}

impl Scene {
    /// The bytes before the place.
    pub fn before(&self) -> &[u8] {
        self.near.get(..self.split).unwrap_or(&self.near)
    }

    /// The bytes from the place on.
    pub fn rest(&self) -> &[u8] {
        self.near.get(self.split..).unwrap_or(&[])
    }

    /// The bytes from the last token on; none where they begin further away.
    pub fn from_token(&self, standing: &Standing) -> &[u8] {
        let back = self.at.saturating_sub(standing.token);
        match self.split.checked_sub(back) {
            Some(start) => self.near.get(start..).unwrap_or(&[]),
            None => &[],
        }
    }

    /// The steps to the value that is begun or may begin at the place, or where there is none, to the innermost open container.
    pub fn to_place(&self) -> &[Step] {
        let steps = &self.trail.steps;
        if let Some(standing) = &self.standing {
            if is_at_value(standing) {
                return steps;
            }
        }
        let around = steps.len().saturating_sub(1);
        steps.get(..around).unwrap_or(&[])
    }
}
