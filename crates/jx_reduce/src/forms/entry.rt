ghost use Rattle.std.specs.Prelude.{◌≡◌, ◌<◌};
ghost use Rattle.jx_reduce.specs.Entries.{expect_at, leads_to, place};
ghost use Rattle.jx_reduce.specs.Marks.{fault_at, faults_at, end_at};
ghost use Rattle.jx_reduce.specs.Reductions.{entry_of};

use crate::forms::ended_level::EndedLevel;
use crate::forms::level::Level;
use crate::table::expect::Expect;
use crate::table::holder::Holder;
use crate::table::moves::next;
use jx_lex::{Mark, MarkKind};

/// An expectation that may depend on the innermost container. What follows a comma depends on it, and so does what
/// follows a string after that comma.
#[derive(Clone, Copy, Debug, PartialEq, Eq)]
pub enum Entry {
    Value,
    ArrayFirst,
    ObjectFirst,
    Name,
    Colon,
    After,
    /// A name in an object, and else a value.
    ValueOrName,
    /// A colon in an object, and else what may follow a value.
    AfterOrColon,
}

impl Entry {
    /// All entries in order.
    pub const ALL: [Entry; 8] = [
        Entry::Value,
        Entry::ArrayFirst,
        Entry::ObjectFirst,
        Entry::Name,
        Entry::Colon,
        Entry::After,
        Entry::ValueOrName,
        Entry::AfterOrColon,
    ];

    /// The place of the entry among all of them, counted from 0.
    pub fn index(self) -> usize
        ensures place { result ≡ place self }
        ensures low { result < 8 }
    {
        self as usize
    }

    /// The entry that is this expectation in every container.
    pub(crate) fn of(expect: Expect) -> Entry
        ensures { result ≡ entry_of expect }
    {
        match expect {
            Expect::Value => Entry::Value,
            Expect::ArrayFirst => Entry::ArrayFirst,
            Expect::ObjectFirst => Entry::ObjectFirst,
            Expect::Name => Entry::Name,
            Expect::Colon => Entry::Colon,
            Expect::After => Entry::After,
        }
    }

    /// The expectation that this is in the innermost container `top`.
    pub(crate) fn at(self, top: Holder) -> Expect
        ensures { result ≡ expect_at self top }
    {
        match self {
            Entry::Value => Expect::Value,
            Entry::ArrayFirst => Expect::ArrayFirst,
            Entry::ObjectFirst => Expect::ObjectFirst,
            Entry::Name => Expect::Name,
            Entry::Colon => Expect::Colon,
            Entry::After => Expect::After,
            Entry::ValueOrName => match top {
                Holder::Object => Expect::Name,
                _ => Expect::Value,
            },
            Entry::AfterOrColon => match top {
                Holder::Object => Expect::Colon,
                _ => Expect::After,
            },
        }
    }

    /// The entry after a token, for each holder that the token is no fault of.
    pub(crate) fn leads_to(self, kind: MarkKind) -> Entry
        ensures { result ≡ leads_to kind self }
    {
        match kind {
            MarkKind::OpenArray => Entry::ArrayFirst,
            MarkKind::OpenObject => Entry::ObjectFirst,
            MarkKind::Colon => Entry::Value,
            MarkKind::Comma => Entry::ValueOrName,
            MarkKind::String => match self {
                Entry::ObjectFirst | Entry::Name => Entry::Colon,
                Entry::ValueOrName => Entry::AfterOrColon,
                _ => Entry::After,
            },
            _ => Entry::After,
        }
    }

    /// The offset of the token where it is a fault of this holder, or none.
    fn fault_at(self, mark: Mark, holder: Holder) -> Option<usize>
        ensures { result ≡ fault_at self mark holder }
    {
        match next(mark.kind, self.at(holder), holder) {
            Some(_) => None,
            None => Some(mark.at),
        }
    }

    /// The holders that a token is a fault of.
    pub(crate) fn faults_at(self, mark: Mark) -> Level
        ensures { result ≡ faults_at self mark }
    {
        Level {
            array: self.fault_at(mark, Holder::Array),
            object: self.fault_at(mark, Holder::Object),
            bottom: self.fault_at(mark, Holder::Bottom),
        }
    }

    /// The level that a closing token ends.
    pub(crate) fn end_at(self, mark: Mark) -> EndedLevel
        ensures { result ≡ end_at self mark }
    {
        EndedLevel {
            array: self.fault_at(mark, Holder::Array),
            object: self.fault_at(mark, Holder::Object),
            bottom: mark.at,
        }
    }
}
