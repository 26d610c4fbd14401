ghost use Rattle.std.specs.Prelude.{◌≡◌, IfOk};
ghost use Rattle.jx_wire.specs.Frames.{frame};

use itoa::Buffer;
use std::alloc::{AllocError, Global};

/// The frame of a body.
pub fn framed(alloc: Global, body: &[u8]) -> Result<Vec<u8>, AllocError>
    ensures { IfOk result (λ bytes. bytes.items ≡ frame body.now) }
{
    let mut buffer = Buffer::new();
    let mut bytes = Vec::from_slice(alloc, b"Content-Length: ")?;
    bytes.extend_from_slice(buffer.format(body.len()).as_bytes())?;
    bytes.extend_from_slice(b"\r\n\r\n")?;
    bytes.extend_from_slice(body)?;
    Ok(bytes)
}
