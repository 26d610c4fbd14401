// Names that an object repeats.
ghost use Rattle.std.specs.Prelude.{◌≡◌, ◌<◌, length};
ghost use Rattle.std.specs.List.Sorted.{IsSortedBy};
ghost use Rattle.jx_index.specs.ByNames.{RefusesName};
ghost use Rattle.jx_index.specs.Names.{is_below};
ghost use Rattle.jx_index.specs.Nodes.{name_at};
ghost use Rattle.jx_index.specs.Repeats.{start_in, IsLeast, IsRepeat, IsRepeatIn};
ghost use Rattle.jx_index.specs.inside.Ties.{earlier_of, row_tie, IsRepeatOf, IsRowTie};

use crate::indexed::Indexed;
use crate::names::{compare_members, is_object};
use crate::row::{NodeId, Row};
use jx_run::NameRule;
use std::cmp::Ordering;

/// The lesser of two offsets, where there are any.
pub(crate) fn earlier(one: Option<usize>, other: Option<usize>) -> Option<usize>
    ensures { result ≡ earlier_of one other }
{
    match one {
        None => other,
        Some(first) => match other {
            None => Some(first),
            Some(second) => Some(first.min(second)),
        },
    }
}

/// Where the name of a node begins, if the node has a row and the row a name.
fn start_of_name(rows: &[Row], node: NodeId) -> Option<usize>
    ensures { result ≡ start_in (name_at rows.now node) }
{
    let Some(row) = rows.get(node.number()) else {
        return None;
    };
    match row.name {
        Some(name) => Some(name.start),
        None => None,
    }
}

/// Where the second name begins, if it has the units of the first.
fn start_of_tie(text: &[u8], rows: &[Row], first: NodeId, second: NodeId) -> Option<usize>
    ensures { result ≡ row_tie text.now rows.now first second }
{
    match compare_members(text, rows, first, second) {
        Ordering::Equal => start_of_name(rows, second),
        Ordering::Less | Ordering::Greater => None,
    }
}

/// The least start of a name that has the units of the one before it.
fn first_tie(text: &[u8], rows: &[Row], names: &[NodeId]) -> Option<usize>
    ensures { IsLeast (IsRowTie text.now rows.now names.now) result }
{
    let mut first = None;
    for at in 0..names.len().saturating_sub(1) {
        let tie = start_of_tie(text, rows, names[at], names[at + 1]);
        first = earlier(first, tie);
    }
    first
}

/// The first name that is not the first of its units, where the names rise.
fn first_repeat(text: &[u8], rows: &[Row], names: &[NodeId]) -> Option<usize>
    requires { IsSortedBy (is_below text.now rows.now) names.now }
    ensures { IsLeast (IsRepeatIn text.now rows.now names.now) result }
{
    first_tie(text, rows, names)
}

impl<'a> Indexed<'a> {
    /// The first name that an object repeats; none where the node is no object.
    fn repeated_in(&self, node: usize) -> Option<usize>
        requires { node < length self.now.rows }
        ensures { IsLeast (IsRepeatOf self.now.text self.now.rows node) result }
    {
        if !is_object(self.rows(), node) {
            return None;
        }
        let names = self.names(NodeId::new(node));
        first_repeat(self.text(), self.rows(), names)
    }

    /// The start of the first name whose value, as a list of UTF-16 code units, is that of an earlier name of the same
    /// object. There is none where no object repeats a name. It takes no memory, and compares each name with one other.
    pub fn repeated(&self) -> Option<usize>
        ensures { IsLeast (IsRepeat self.now.text self.now.rows) result }
    {
        let mut first = None;
        for node in 0..self.rows().len() {
            first = earlier(first, self.repeated_in(node));
        }
        first
    }

    /// The start of the name for which a rule on names refuses the text; none where it refuses none. It takes no memory.
    pub fn refused_name(&self, rule: NameRule) -> Option<usize>
        ensures name { RefusesName rule self.now.text self.now.rows result }
    {
        match rule {
            NameRule::Any => None,
            NameRule::Unique => self.repeated(),
        }
    }
}
