// Maps of neighbours, joined.
ghost use Rattle.std.specs.Prelude.{◌≤◌, length};

use jx_maps::ChunkMap;
use std::alloc::{AllocError, Global};
use test_words::{Line, Out};

/// The map of both sides of a cut, and how many token starts the left one and the right one held.
#[derive(Drop)]
pub(crate) struct Joined {
    pub(crate) map: ChunkMap,
    pub(crate) left: u128,
    pub(crate) right: u128,
}

/// The maps of both sides of a cut, joined.
pub(crate) fn joined_at(
    alloc: Global,
    text: &[u8],
    start: usize,
    cut: usize,
    end: usize,
) -> Result<Joined, AllocError>
    requires left { start ≤ cut }
    requires right { cut ≤ end }
    requires within { end ≤ length text.now }
{
    let left = ChunkMap::of(alloc, text, start, cut)?;
    let right = ChunkMap::of(alloc, text, cut, end)?;
    let (on_left, on_right) = (left.stored(), right.stored());
    Ok(Joined {
        map: left.join(right).ok().ok_or(AllocError)?,
        left: on_left,
        right: on_right,
    })
}

/// `kept TEXT S..C..E LEAST`: how many token starts the join keeps of the right, which has to hold at least so many.
pub(crate) fn kept(line: &mut Line<'_>) {
    let text = line.text();
    let meeting = line.meeting(text.len());
    let least = line.number();
    let joined = joined_at(line.alloc, &text, meeting.start, meeting.cut, meeting.end);
    if let Some(joined) = line.keep(joined) {
        push_kept(&mut line.out, &joined, least as u128);
    }
}

fn push_kept(out: &mut Out, joined: &Joined, least: u128) {
    out.push_str("keeps ");
    out.put(joined.map.stored().saturating_sub(joined.left));
    out.push_str(" of ");
    if joined.right >= least {
        out.push_str("at least ");
    }
    out.put(joined.right.min(least));
}
