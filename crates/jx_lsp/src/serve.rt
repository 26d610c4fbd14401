// The loop over the messages of a client.
ghost use Rattle.std.specs.Prelude.{◌≡◌, ◌∷◌, [], false, IfOk, OnOk};
ghost use Rattle.jx_wire.specs.Frames.{ended_in};
ghost use Rattle.jx_lsp.specs.Session.{has_left, IsServed, Serves, Writes};
ghost use Rattle.jx_lsp.specs.inside.Parts.{end_of, Ends, IsGoing};

use jx_serve::{Phase, Reply, Server, answer_to, broken_stream, message_of};
use jx_wire::{Fed, FrameReader, framed};
use std::alloc::Global;
use std::io;
use std::io::{Read, Write};

/// How many bytes are read at once.
const BATCH: usize = 65536;

/// How a client ended.
#[derive(Clone, Copy, Debug, PartialEq, Eq)]
pub enum Ended {
    /// By `exit` after `shutdown`.
    Clean,
    Early,
}

/// Writes the message for a reply.
fn tell<W: Write>(alloc: Global, writer: &mut W, reply: &Reply) -> io::Result<()>
    ensures { OnOk result (Writes (reply.now ∷ []) (W.contents writer.old) (W.contents writer.new)) }
{
    if matches!(reply, Reply::Nothing) {
        return Ok(());
    }
    let Some(message) = message_of(alloc, reply)? else {
        return Err(io::Error::from(io::ErrorKind::InvalidData));
    };
    let frame = framed(alloc, &message)?;
    writer.write_all(&frame)?;
    writer.flush()
}

/// How the client ended, if it did.
fn end_of(server: &Server) -> Option<Ended>
    ensures { result ≡ end_of server.now.phase }
{
    match server.phase() {
        Phase::Ended { clean: true } => Some(Ended::Clean),
        Phase::Ended { clean: false } => Some(Ended::Early),
        Phase::New | Phase::Ready | Phase::Down => None,
    }
}

/// Answers a message, if there is one.
fn answer<W: Write>(
    alloc: Global,
    server: &mut Server,
    body: Option<Vec<u8>>,
    writer: &mut W,
) -> io::Result<()>
    requires { has_left server.old.phase ≡ false }
    ensures { OnOk result (Serves server.old (ended_in body) server.new (W.contents writer.old) (W.contents writer.new)) }
{
    match body {
        None => Ok(()),
        Some(body) => {
            let reply = answer_to(alloc, server, body);
            tell(alloc, writer, &reply)
        }
    }
}

/// Answers the messages that end in some bytes, up to `exit` or to a fault of the stream.
fn answer_all<W: Write>(
    alloc: Global,
    frames: &mut FrameReader,
    server: &mut Server,
    bytes: &[u8],
    writer: &mut W,
) -> io::Result<Option<Ended>>
    requires { IsGoing frames.old server.old }
    ensures { IfOk result (Ends frames.old server.old (W.contents writer.old) bytes.now frames.new server.new (W.contents writer.new)) }
{
    let mut rest = bytes;
    while !rest.is_empty() {
        let Fed { taken, body } = frames.feed(rest)?;
        answer(alloc, server, body, writer)?;
        let end = end_of(server);
        if end.is_some() {
            return Ok(end);
        }
        if frames.fault().is_some() {
            tell(alloc, writer, &broken_stream())?;
            return Ok(Some(Ended::Early));
        }
        rest = &rest[taken..];
    }
    Ok(None)
}

/// Serves a client up to the end of its messages: each body that ends in what is read is followed, in order, and each reply is
/// written as a frame. After a fault of the stream one reply more is written.
pub fn serve<R: Read, W: Write>(alloc: Global, reader: &mut R, writer: &mut W) -> io::Result<Ended>
    ensures { IfOk result (IsServed (R.remaining reader.old) (R.remaining reader.new) (W.contents writer.old) (W.contents writer.new)) }
{
    let mut frames = FrameReader::new(alloc);
    let mut server = Server::new(alloc);
    let mut batch = Vec::new(alloc);
    batch.resize(BATCH, 0)?;
    for _ in 0..u64::MAX {
        let count = reader.read(&mut batch)?;
        if count == 0 {
            return Ok(Ended::Early);
        }
        let bytes = &batch[..count];
        let end = answer_all(alloc, &mut frames, &mut server, bytes, writer)?;
        if let Some(end) = end {
            return Ok(end);
        }
    }
    // There are more batches than a word counts.
    Err(io::Error::from(io::ErrorKind::OutOfMemory))
}
