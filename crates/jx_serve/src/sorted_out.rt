// Messages that are no requests, and streams that are no frames.
ghost use Rattle.std.specs.Prelude.{◌≡◌, None};
ghost use Rattle.jx_serve.specs.Served.{IsQuiet, TellsVerdict};
ghost use Rattle.jx_serve.specs.Steps.{behind_fault, may_be_a_change, reply_to, Turns};

use crate::reply::{Code, Reply, Trouble};
use crate::server::Server;
use jx_wire::{RequestFault, request_of};
use std::alloc::Global;

/// Follows the body of a frame, and returns what to answer. A message that cannot be read may have been a change: all documents are
/// lost until their whole texts come.
pub fn answer_to(alloc: Global, server: &mut Server, body: Vec<u8>) -> Reply
    ensures tells { TellsVerdict server.new result }
    ensures turns { Turns body.items server.old server.new result }
{
    let read = request_of(alloc, &body);
    // A request has its own bytes: those of the message are given back before a document takes memory.
    drop(body);
    match read {
        Ok(request) => server.step(request),
        Err(fault) => {
            lose_by(server, &fault);
            answer_to_fault(fault)
        }
    }
}

/// Forgets the bytes of all documents where what cannot be read may have been a change.
fn lose_by(server: &mut Server, fault: &RequestFault)
    ensures { server.new ≡ behind_fault fault.now server.old }
{
    if may_be_a_change(fault) {
        server.lose();
    }
}

/// Whether what cannot be read may have been a change: it is no request that has an id.
fn may_be_a_change(fault: &RequestFault) -> bool
    ensures { result ≡ may_be_a_change fault.now }
{
    match fault {
        RequestFault::NoText(_) | RequestFault::Memory => true,
        RequestFault::NoRequest { id } | RequestFault::WrongParameters { id } => id.is_none(),
    }
}

/// The reply to a message that is no request.
fn answer_to_fault(fault: RequestFault) -> Reply
    ensures quiet { IsQuiet result }
    ensures reply { result ≡ reply_to fault }
{
    match fault {
        RequestFault::NoText(refusal) => Reply::Refused {
            id: None,
            code: Code::ParseError,
            refusal: Some(refusal),
        },
        RequestFault::NoRequest { id } => Reply::Refused {
            id,
            code: Code::InvalidRequest,
            refusal: None,
        },
        RequestFault::WrongParameters { id: Some(id) } => Reply::Refused {
            id: Some(id),
            code: Code::InvalidParams,
            refusal: None,
        },
        RequestFault::WrongParameters { id: None } => Reply::Logged {
            trouble: Trouble::WrongParameters,
        },
        RequestFault::Memory => Reply::Logged {
            trouble: Trouble::Memory,
        },
    }
}

/// The reply to a client whose stream of frames cannot be read on.
pub fn broken_stream() -> Reply
    ensures { result ≡ Reply.Refused None Code.ParseError None }
{
    Reply::Refused {
        id: None,
        code: Code::ParseError,
        refusal: None,
    }
}
