ghost use Rattle.std.specs.Prelude.{◌≡◌};
ghost use Rattle.jx_reduce.specs.Table.{next_of, where_value};

use crate::table::expect::Expect;
use crate::table::holder::Holder;
use jx_lex::MarkKind;

/// Where a value may stand, the expectation that its first token leads to.
fn where_value(expect: Expect, then: Expect) -> Option<Expect>
    ensures { result ≡ where_value then expect }
{
    match expect {
        Expect::Value | Expect::ArrayFirst => Some(then),
        _ => None,
    }
}

/// The expectation after a token, by the expectation before it and the innermost open container; none where the token
/// is a fault (RFC 8259, sections 2 to 5).
pub fn next(kind: MarkKind, expect: Expect, top: Holder) -> Option<Expect>
    ensures { result ≡ next_of kind expect top }
{
    match kind {
        MarkKind::Number | MarkKind::True | MarkKind::False | MarkKind::Null => {
            where_value(expect, Expect::After)
        }
        MarkKind::String => match expect {
            Expect::Value | Expect::ArrayFirst => Some(Expect::After),
            Expect::ObjectFirst | Expect::Name => Some(Expect::Colon),
            _ => None,
        },
        MarkKind::OpenArray => where_value(expect, Expect::ArrayFirst),
        MarkKind::OpenObject => where_value(expect, Expect::ObjectFirst),
        MarkKind::CloseArray => match (expect, top) {
            (Expect::ArrayFirst | Expect::After, Holder::Array) => Some(Expect::After),
            _ => None,
        },
        MarkKind::CloseObject => match (expect, top) {
            (Expect::ObjectFirst | Expect::After, Holder::Object) => Some(Expect::After),
            _ => None,
        },
        MarkKind::Colon => match expect {
            Expect::Colon => Some(Expect::Value),
            _ => None,
        },
        MarkKind::Comma => match (expect, top) {
            (Expect::After, Holder::Array) => Some(Expect::Value),
            (Expect::After, Holder::Object) => Some(Expect::Name),
            _ => None,
        },
    }
}
