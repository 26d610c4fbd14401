// Tokens that change neither levels nor heights: at most the open containers and what may stand next.

ghost use Rattle.std.specs.Prelude.{◌≡◌, ◌≤◌, ◌<◌, ◌++◌, ℕ, [], ◌∷◌, length, reverse, take, true, false, vec_capacity};
ghost use Rattle.jx_reduce.specs.Entries.{leads_to};
ghost use Rattle.jx_reduce.specs.Form.{Form};
ghost use Rattle.jx_reduce.specs.Levels.{with_opens};
ghost use Rattle.jx_reduce.specs.Marks.{of_marks};
ghost use Rattle.jx_reduce.specs.inside.Quiet.{fault_bits, bit_of, standing, IsAt};

use crate::forms::entry::Entry;
use crate::table::holder::Holder;
use jx_lex::{Mark, MarkKind};

// A set of holders is a sum of these.
pub(crate) const ARRAY: u8 = 1;

pub(crate) const OBJECT: u8 = 2;

pub(crate) const BOTTOM: u8 = 4;

const ALL: u8 = ARRAY + OBJECT + BOTTOM;

// Where a value may begin.
const VALUE: [u8; 8] = [0, 0, ALL, ALL, ALL, ALL, OBJECT, ALL];

// The holders that a token is a fault of: a row for each kind of token, with a set for each entry.
static FAULTS: [[u8; 8]; 11] = [
    // OpenArray
    VALUE,
    // CloseArray
    [
        ALL,
        OBJECT + BOTTOM,
        ALL,
        ALL,
        ALL,
        OBJECT + BOTTOM,
        ALL,
        OBJECT + BOTTOM,
    ],
    // OpenObject
    VALUE,
    // CloseObject
    [ALL, ALL, ARRAY + BOTTOM, ALL, ALL, ARRAY + BOTTOM, ALL, ALL],
    // Colon
    [ALL, ALL, ALL, ALL, 0, ALL, ALL, ARRAY + BOTTOM],
    // Comma
    [ALL, ALL, ALL, ALL, ALL, BOTTOM, ALL, OBJECT + BOTTOM],
    // String
    [0, 0, 0, 0, ALL, ALL, 0, ALL],
    // Number
    VALUE,
    // True
    VALUE,
    // False
    VALUE,
    // Null
    VALUE,
];

// After every token but a string, the entry before it does not matter.
const TO_ARRAY_FIRST: [Entry; 8] = [Entry::ArrayFirst; 8];

const TO_OBJECT_FIRST: [Entry; 8] = [Entry::ObjectFirst; 8];

const TO_VALUE: [Entry; 8] = [Entry::Value; 8];

const TO_VALUE_OR_NAME: [Entry; 8] = [Entry::ValueOrName; 8];

const TO_AFTER: [Entry; 8] = [Entry::After; 8];

// The entry after a token: a row for each kind of token, with the next entry for each entry.
static LEADS: [[Entry; 8]; 11] = [
    // OpenArray
    TO_ARRAY_FIRST,
    // CloseArray
    TO_AFTER,
    // OpenObject
    TO_OBJECT_FIRST,
    // CloseObject
    TO_AFTER,
    // Colon
    TO_VALUE,
    // Comma
    TO_VALUE_OR_NAME,
    // String
    [
        Entry::After,
        Entry::After,
        Entry::Colon,
        Entry::Colon,
        Entry::After,
        Entry::After,
        Entry::AfterOrColon,
        Entry::After,
    ],
    // Number
    TO_AFTER,
    // True
    TO_AFTER,
    // False
    TO_AFTER,
    // Null
    TO_AFTER,
];

/// The limits that decide whether a token is quiet: how many containers may be open after it, and the holders that a
/// fault may concern, here and where nothing is open.
#[derive(Clone, Copy)]
pub(crate) struct Limits {
    pub most: usize,
    pub base: u8,
    pub standing: u8,
}

impl Limits {
    /// Those of no tokens.
    pub const NONE: Limits = Limits {
        most: 0,
        base: ALL,
        standing: ALL,
    };
}

/// The holders that a token of this kind is a fault of.
#[inline(always)]
pub(crate) fn faults(kind: MarkKind, entry: Entry) -> u8
    ensures { result ≡ fault_bits kind entry }
{
    FAULTS[kind as usize][entry as usize]
}

/// The entry after a token of this kind.
#[inline(always)]
pub(crate) fn lead(kind: MarkKind, entry: Entry) -> Entry
    ensures { result ≡ leads_to kind entry }
{
    LEADS[kind as usize][entry as usize]
}

/// The bit of this holder in a set of holders.
#[inline(always)]
fn bit(holder: Holder) -> u8
    ensures { result ≡ bit_of holder }
{
    match holder {
        Holder::Array => ARRAY,
        Holder::Object => OBJECT,
        Holder::Bottom => BOTTOM,
    }
}

/// The holders that a fault may concern: the innermost of the open containers, and where there are none those of the base.
#[inline(always)]
pub(crate) fn standing_in(opens: &[Holder], base: u8) -> u8
    ensures { result ≡ standing base (reverse opens.now) }
{
    match opens.last() {
        Some(holder) => bit(*holder),
        None => base,
    }
}

/// Opens one more container, where fewer than `most` are open, so that no memory is needed. Answers whether it did.
#[inline(always)]
pub(crate) fn enter(opens: &mut Vec<Holder>, most: usize, holder: Holder) -> bool
    requires { most ≤ vec_capacity opens.old }
    ensures capacity { most ≤ vec_capacity opens.new }
    ensures entered { result ≡ true → (opens.new.items ≡ opens.old.items ++ holder ∷ []) × (length opens.old.items < most) }
    ensures same { result ≡ false → opens.new.items ≡ opens.old.items }
{
    if opens.len() >= most {
        return false;
    }
    // Nothing grows here, so no call for memory stands in the loop.
    opens.push_reserved(holder);
    true
}

/// Passes the tokens that are no fault of any holder left, end no level and reach no new height. It stops before the
/// first other token, and where one container more would need memory. It answers how many tokens it took, and the entry
/// after them.
#[inline(never)]
pub(crate) fn pass(
    opens: &mut Vec<Holder>,
    limit: usize,
    base: u8,
    entry: Entry,
    marks: &[Mark],
) -> (usize, Entry)
    ensures within { result.0 ≤ length marks.now }
    ensures same { (d : ℕ) (r : Form) → IsAt d r (reverse opens.old.items) limit base entry → of_marks d r (take result.0 marks.now) ≡ with_opens r (reverse opens.new.items) result.1 }
{
    let most = limit.min(opens.capacity());
    let mut entry = entry;
    let mut standing: u8 = standing_in(opens, base);
    for (taken, mark) in marks.iter().enumerate() {
        if faults(mark.kind, entry) & standing != 0 {
            return (taken, entry);
        }
        match mark.kind {
            MarkKind::OpenArray => {
                if !enter(opens, most, Holder::Array) {
                    return (taken, entry);
                }
                standing = ARRAY;
            }
            MarkKind::OpenObject => {
                if !enter(opens, most, Holder::Object) {
                    return (taken, entry);
                }
                standing = OBJECT;
            }
            MarkKind::CloseArray | MarkKind::CloseObject => {
                if opens.pop().is_none() {
                    return (taken, entry);
                }
                standing = standing_in(opens, base);
            }
            _ => {}
        }
        entry = lead(mark.kind, entry);
    }
    (marks.len(), entry)
}
