/// The innermost open container.
#[derive(Clone, Copy, Debug, PartialEq, Eq)]
pub enum Holder {
    Array,
    Object,
    /// No container is open.
    Bottom,
}
