// The tokens of a pointer (RFC 6901, section 3).
ghost use Rattle.std.specs.Prelude.{◌≡◌, ◌≤◌, IfOk, drop, length, take};
ghost use Rattle.jx_index.specs.Pointers.{HasNoSlash, HasSlash, tokens};
ghost use Rattle.jx_each.specs.inside.Paths.{path_of};

use jx_string::token_units;
use std::alloc::{AllocError, Global};

/// A token, by its UTF-16 code units.
#[derive(Drop)]
pub struct Token {
    pub units: Vec<u32>,
}

/// The bytes after the first `count`.
fn behind(bytes: &[u8], count: usize) -> &[u8]
    ensures { result.now ≡ drop count bytes.now }
{
    if count < bytes.len() {
        &bytes[count..]
    } else {
        &[]
    }
}

/// How many bytes are before the next slash, or before the end.
fn token_len(bytes: &[u8]) -> usize
    ensures within { result ≤ length bytes.now }
    ensures slashless { HasNoSlash (take result bytes.now) }
    ensures next { HasSlash (drop result bytes.now) }
{
    for at in 0..bytes.len() {
        if bytes[at] == b'/' {
            return at;
        }
    }
    bytes.len()
}

/// The tokens of a pointer, in order.
pub(crate) fn tokens_of(alloc: Global, pointer: &[u8]) -> Result<Vec<Token>, AllocError>
    requires { HasSlash pointer.now }
    ensures { IfOk result (λ path. path_of path.items ≡ tokens pointer.now) }
{
    let mut path = Vec::new(alloc);
    let mut rest = pointer;
    while !rest.is_empty() {
        let bytes = behind(rest, 1);
        let len = token_len(bytes);
        let units = token_units(alloc, &bytes[..len])?;
        path.push(Token { units })?;
        rest = behind(bytes, len);
    }
    Ok(path)
}
