/// How the characters of a line are counted (Language Server Protocol 3.17, "PositionEncodingKind").
#[derive(Clone, Copy, Debug, PartialEq, Eq)]
pub enum Encoding {
    /// `utf-8`: each byte is a unit.
    Utf8,
    /// `utf-16`: a character has two units from U+10000 on, and else one.
    Utf16,
}
