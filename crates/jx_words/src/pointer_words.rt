// The words for the answers to pointers.
ghost use Rattle.std.specs.Prelude.{◌≡◌, ◌++◌};
ghost use Rattle.jx_words.specs.Pointers.{answer_words};
ghost use Rattle.jx_words.specs.inside.Room.{HasRoom, TakesRoom};
ghost use Rattle.jx_words.specs.Words.{line};

use crate::pointer_answer::PointerAnswer;
use crate::words::{push_bytes, push_kind, push_numbered, push_span};
use jx_index::{FindFault, PointerFault};
use jx_lex::{Kind, Span};

/// Appends why a string is no pointer.
fn push_unread(out: &mut Vec<u8>, fault: PointerFault)
    requires { HasRoom out.old 45 }
    ensures words { out.new.items ≡ out.old.items ++ answer_words (PointerAnswer.Unread fault) }
    ensures room { TakesRoom out.old out.new 45 }
{
    match fault {
        PointerFault::NoSlash => push_bytes(out, b"no slash"),
        PointerFault::BadEscape { at } => push_numbered(out, b"bad escape at ", at),
    }
}

/// Appends why a pointer leads nowhere, and at which of its tokens.
fn push_lost(out: &mut Vec<u8>, fault: FindFault)
    requires { HasRoom out.old 45 }
    ensures words { out.new.items ≡ out.old.items ++ answer_words (PointerAnswer.Lost fault) }
    ensures room { TakesRoom out.old out.new 45 }
{
    match fault {
        FindFault::NoSuchMember { token } => push_numbered(out, b"no such member at token ", token),
        FindFault::NameRepeated { token } => push_numbered(out, b"name repeated at token ", token),
        FindFault::NotAnIndex { token } => push_numbered(out, b"not an index at token ", token),
        FindFault::PastEnd { token } => push_numbered(out, b"past end at token ", token),
        FindFault::AfterLast { token } => push_numbered(out, b"after last at token ", token),
        FindFault::NotAContainer { token } => {
            push_numbered(out, b"not a container at token ", token)
        }
    }
}

/// Appends the kind of the value that is found and where it stands.
fn push_found(out: &mut Vec<u8>, kind: Kind, span: Span)
    requires { HasRoom out.old 55 }
    ensures words { out.new.items ≡ out.old.items ++ answer_words (PointerAnswer.Found kind span) }
    ensures room { TakesRoom out.old out.new 55 }
{
    push_bytes(out, b"found ");
    push_kind(out, kind);
    push_bytes(out, b" ");
    push_span(out, span);
}

/// Appends the line of a pointer.
pub fn push_pointer(out: &mut Vec<u8>, answer: PointerAnswer)
    requires { HasRoom out.old 56 }
    ensures words { out.new.items ≡ out.old.items ++ line (answer_words answer) }
    ensures room { TakesRoom out.old out.new 56 }
{
    match answer {
        PointerAnswer::Found { kind, span } => push_found(out, kind, span),
        PointerAnswer::Unread(fault) => push_unread(out, fault),
        PointerAnswer::Lost(fault) => push_lost(out, fault),
    }
    push_bytes(out, b"\n");
}
