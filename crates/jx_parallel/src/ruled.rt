use std::marker::Brand;

/// Which text parts are of, and by which rule they are judged. A call picks it, so that values of one type are of one text.
pub(crate) trait Ruled<Q> {
    ghost use Rattle.std.specs.Prelude.{ℕ, List, Option};

    /// The bytes of the text, where they are known.
    ghost text: { Option (List ℕ) };

    /// The rule by which its parts are judged; none judges none.
    ghost rule: { Option Q };
}

impl<Q> Ruled<Q> for Brand {
    ghost use Rattle.std.specs.Prelude.{None};

    ghost text = { None };

    ghost rule = { None };
}
