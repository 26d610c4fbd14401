use crate::texts::verdict::Refusal;
use jx_lex::Depth;

/// Whether a byte order mark, the bytes EF BB BF, may stand in front of a text. It has no place in the grammar; a parser may
/// ignore one (RFC 8259, section 8.1).
#[derive(Clone, Copy, Debug, PartialEq, Eq)]
pub enum FrontMark {
    /// It is no part of a text, so a text that begins with one is refused.
    Refused,
    /// One may stand in front of a text, before all white space. Offsets count its bytes.
    Ignored,
}

/// Whether an object may have several members of one name (RFC 8259, section 4).
#[derive(Clone, Copy, Debug, PartialEq, Eq)]
pub enum NameRule {
    /// It may.
    Any,
    /// It may not: a text that repeats a name is refused. Names are equal where their values are, as lists of UTF-16 code
    /// units.
    Unique,
}

/// The settings of a reader: a depth, and what it makes of a byte order mark and of repeated names.
#[derive(Clone, Copy, Debug, PartialEq, Eq)]
pub struct Settings {
    /// How many containers may stand open at once.
    pub depth: Depth,
    /// Whether a byte order mark in front of a text is ignored or refused.
    pub mark: FrontMark,
    /// Whether a name that an object repeats is refused.
    pub names: NameRule,
}

impl From<Depth> for Settings {
    ghost use Rattle.std.specs.Prelude.{◌≡◌};
    ghost use Rattle.jx_run.specs.declared.texts.settings.FrontMark.TheVariants.{Refused};
    ghost use Rattle.jx_run.specs.declared.texts.settings.NameRule.TheVariants.{Any};

    ghost from_gives = { λ depth settings. settings ≡ record { depth = depth; mark = Refused; names = Any } };

    /// This depth, a byte order mark refused, and any names.
    fn from(depth: Depth) -> Settings {
        Settings {
            depth,
            mark: FrontMark::Refused,
            names: NameRule::Any,
        }
    }
}

/// Where a text begins after what stands in front of it, or why there is none whatever follows.
#[derive(Clone, Copy, Debug, PartialEq, Eq)]
pub enum Front {
    /// The text begins after so many bytes.
    Skip(usize),
    /// The bytes in front are no byte order mark, and do not begin a text.
    Refused(Refusal),
}
