// The methods of messages.
ghost use Rattle.std.specs.Prelude.{◌≡◌};
ghost use Rattle.jx_wire.specs.Requests.{method_of};

/// A method that the server knows, or another one.
#[derive(Clone, Copy, Debug, PartialEq, Eq)]
pub(crate) enum Method {
    Initialize,
    Shutdown,
    Exit,
    Open,
    Change,
    Close,
    Hover,
    Symbols,
    Folds,
    Selection,
    Other,
}

/// The method of a name.
pub(crate) fn method_of(name: &[u8]) -> Method
    ensures { result ≡ method_of name.now }
{
    if name == b"initialize".as_slice() {
        Method::Initialize
    } else if name == b"shutdown".as_slice() {
        Method::Shutdown
    } else if name == b"exit".as_slice() {
        Method::Exit
    } else if name == b"textDocument/didOpen".as_slice() {
        Method::Open
    } else if name == b"textDocument/didChange".as_slice() {
        Method::Change
    } else if name == b"textDocument/didClose".as_slice() {
        Method::Close
    } else if name == b"textDocument/hover".as_slice() {
        Method::Hover
    } else if name == b"textDocument/documentSymbol".as_slice() {
        Method::Symbols
    } else if name == b"textDocument/foldingRange".as_slice() {
        Method::Folds
    } else if name == b"textDocument/selectionRange".as_slice() {
        Method::Selection
    } else {
        Method::Other
    }
}
