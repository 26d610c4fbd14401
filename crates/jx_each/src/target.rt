// The container that is looked for in a text, and what is written of it.
use crate::content::LineContent;
use crate::token::Token;

/// The tokens that lead to a container, and what the lines of its elements have.
#[derive(Drop)]
pub struct Target {
    pub path: Vec<Token>,
    pub content: LineContent,
}
