// A part of a container.
use jx_lex::Span;

/// Whole children of an array or an object, one after another, and what stands between them. With brackets around it,
/// it is a JSON text.
#[derive(Clone, Copy, Debug, PartialEq, Eq)]
pub struct ContainerPart {
    /// Which part of the container's bytes it is, counted from 0.
    pub number: usize,
    /// From after the comma or the bracket before its first child, up to the one after its last.
    pub span: Span,
    /// Its first child, counted from 0 in the container.
    pub first: usize,
    /// The child after its last one.
    pub end: usize,
}
