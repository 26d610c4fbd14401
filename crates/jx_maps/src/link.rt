// Where a track goes on.
ghost use Rattle.std.specs.Prelude.{◌≡◌, ◌<◌, ◌+◌, ◌^◌, map};
ghost use Rattle.jx_maps.specs.Follow.{IsIn, shifted, head, linked};
ghost use Rattle.jx_maps.specs.inside.Step.{link_at, link_of};
ghost use Rattle.jx_lex.specs.Exit.{exit_of};
ghost use Rattle.jx_lex.specs.Ordinal.{all_states};
ghost use Rattle.jx_maps.specs.declared.link.Link.TheVariants.{State};
ghost use Rattle.jx_lex.specs.declared.alphabet.state.LexState.{LexState};

use jx_lex::{LexExit, LexState};

/// The successor of a segment: another segment, named by how many are between the two, or an exit.
#[derive(Clone, Copy, Debug, PartialEq, Eq)]
pub enum Link {
    Ahead(usize),
    State(LexState),
    Fault(usize),
}

impl Link {
    /// The exit of a track after the byte at this offset, which led to this state, or to none.
    pub(crate) fn after(next: Option<LexState>, at: usize) -> Link
        ensures { result ≡ link_of at next }
    {
        match next {
            Some(state) => Link::State(state),
            None => Link::Fault(at),
        }
    }

    /// Where a reading ends.
    pub(crate) fn of(exit: LexExit) -> Link
        ensures { result ≡ link_at (exit_of exit) }
    {
        match exit {
            LexExit::State(state) => Link::State(state),
            LexExit::Fault(at) => Link::Fault(at),
        }
    }

    /// The link with so many more segments between.
    pub(crate) fn shifted(self, by: usize, count: usize) -> Link
        requires is_in { IsIn count self }
        requires fits { by + count < 2 ^ 64 }
        ensures { result ≡ shifted by self }
    {
        match self {
            Link::Ahead(skip) => Link::Ahead(by + skip),
            other => other,
        }
    }

    /// An exit in a state becomes the right map's head for that state, so many segments further on. Any other link stays as
    /// it is.
    pub(crate) fn linked(self, heads: &[Link; 32], by: usize, count: usize) -> Link
        requires all { (s : LexState) → IsIn count (head heads.now s) }
        requires fits { by + count < 2 ^ 64 }
        ensures { result ≡ linked heads.now by self }
    {
        match self {
            Link::State(state) => heads[state.number()].shifted(by, count),
            other => other,
        }
    }
}

/// Links each head that is an exit in a state to the right map's head for that state, so many segments further on.
pub(crate) fn link_heads(heads: &mut [Link; 32], right: &[Link; 32], by: usize, count: usize)
    requires all { (s : LexState) → IsIn count (head right.now s) }
    requires fits { by + count < 2 ^ 64 }
    ensures { heads.new ≡ map (linked right.now by) heads.old }
{
    for i in 0..32 {
        heads[i] = heads[i].linked(right, by, count);
    }
}

/// The heads of a map of no bytes: from each state, the exit in that state.
pub(crate) fn same_heads() -> [Link; 32]
    ensures { result ≡ map State all_states }
{
    let mut heads = [Link::Fault(0); 32];
    for state in LexState::all() {
        heads[state.number()] = Link::State(state);
    }
    heads
}
