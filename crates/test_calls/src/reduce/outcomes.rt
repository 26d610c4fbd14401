// The outcomes of token starts, in words.
use jx_reduce::{Expect, Holder, Outcome, Whole};
use test_words::Out;

/// Letters of open containers, the outermost first, or `-`.
pub(crate) fn push_holders(out: &mut Out, holders: &[Holder]) {
    if holders.is_empty() {
        out.push_str("-");
    }
    for holder in holders {
        out.push_str(match holder {
            Holder::Array => "A",
            Holder::Object => "O",
            Holder::Bottom => "-",
        });
    }
}

/// `After, open AO`, `stopped at K` or `too deep at K`.
pub(crate) fn push_outcome(out: &mut Out, outcome: &Outcome) {
    match outcome {
        Outcome::Went { expect, holders } => {
            out.put(format_args!("{expect:?}, open "));
            push_holders(out, holders);
        }
        Outcome::Stopped(at) => out.put(format_args!("stopped at {at}")),
        Outcome::TooDeep(at) => out.put(format_args!("too deep at {at}")),
    }
}

/// `After, 1 open`, `stopped at K` or `too deep at K`.
pub(crate) fn push_whole(out: &mut Out, whole: Whole) {
    match whole {
        Whole::Went { expect, open } => out.put(format_args!("{expect:?}, {open} open")),
        Whole::Stopped(at) => out.put(format_args!("stopped at {at}")),
        Whole::TooDeep(at) => out.put(format_args!("too deep at {at}")),
    }
}

/// The expectation, or `-`.
pub(crate) fn push_expect(out: &mut Out, expect: Option<Expect>) {
    match expect {
        Some(expect) => out.put(format_args!("{expect:?}")),
        None => out.push_str("-"),
    }
}

/// The offset, or `-`.
pub(crate) fn push_offset(out: &mut Out, at: Option<usize>) {
    match at {
        Some(at) => out.put(at),
        None => out.push_str("-"),
    }
}
