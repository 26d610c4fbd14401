use jx_lex::{Kind, Span};
use std::marker::Model;

/// A value around an offset: what the text's row of it has.
#[derive(Clone, Copy, Debug)]
pub struct Around {
    pub kind: Kind,
    /// Where it stands, in bytes of the whole input: a string with its quotation marks, a container with its brackets.
    pub span: Span,
    /// The number of the row of the array or object that it stands in; none for the root.
    pub parent: Option<usize>,
    /// How many values are before it in its parent; 0 for the root.
    pub place: usize,
    /// Where its name stands, with the quotation marks, if its parent is an object.
    pub name: Option<Span>,
}

impl Model for Around {
    ghost use Rattle.jx_index.specs.declared.row.Row.{Row};

    ghost Value = { Row };

    ghost view = { λ r. record { kind = r.kind; span = r.span; parent = r.parent; place = r.place; name = r.name } };

    ghost inverse = { λ r. record { kind = r.kind; span = r.span; parent = r.parent; place = r.place; name = r.name } };
}
