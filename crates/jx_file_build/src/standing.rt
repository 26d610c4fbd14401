// The containers and the name of a text that are open between two chunks.
use crate::open_kinds::OpenKinds;
use jx_lex::Mark;

/// The open containers. Also a token that has begun, and of a name the bytes so far.
#[derive(Drop)]
pub struct Standing {
    pub kinds: OpenKinds,
    pub begun: Option<Mark>,
    pub name: Vec<u8>,
}

/// The standing after a chunk, and the hashes of its names.
#[derive(Drop)]
pub struct ToldChunk {
    pub standing: Standing,
    pub hashes: Vec<u32>,
}
