// Threads of the caller's own that take chunks.
ghost use Rattle.std.specs.Prelude.{◌≡◌, false};

use jx_claim::{ClaimSeat, Claims};
use jx_crew::{PieceNo, Workers};
use std::alloc::{AllocError, Global};
use std::process::Abort;
use std::thread;
use std::thread::Threads;

#[test]
fn four_threads_draw_each_piece_once(rt: HostRuntime) {
    let ends = drawn_by_four_threads(&rt, rt.alloc());
    let all = sorted(rt.alloc(), &ends).expect(&rt, "the pieces of all");
    assert!(rt; are_first(&all, 1000), "{all:?}");
}

/// Takes chunks until there is none, at most 2,000 times.
fn drain(alloc: Global, claims: &Claims, seat: ClaimSeat) -> Result<Vec<u32>, AllocError>
    requires { (seat.id ≡ claims.now.id) × (seat.spent ≡ false) }
{
    let mut seat = seat;
    let mut got = Vec::new(alloc);
    for _ in 0..2000 {
        if seat.spent() {
            break;
        }
        if let Some(PieceNo(number)) = claims.draw(&mut seat) {
            got.push(number)?;
        }
    }
    Ok(got)
}

// The chunks that each of four threads gets of 1,000. Besides leave to fail its one bound is `Threads`: taking a chunk does not wait.
fn drawn_by_four_threads<R: Abort + Threads + Sync>(
    rt: &R,
    alloc: Global,
) -> Vec<Result<Vec<u32>, AllocError>> {
    let workers = Workers::new(4).expect(rt, "four workers");
    let (claims, seats) = Claims::open(alloc, 1000, workers).expect(rt, "claims");
    let shared = &claims;
    thread::map_vec(rt, seats, &|seat| drain(alloc, shared, seat)).expect(rt, "threads")
}

// The chunks of all threads, in rising order.
fn sorted(alloc: Global, ends: &[Result<Vec<u32>, AllocError>]) -> Result<Vec<u32>, AllocError> {
    let mut all = Vec::new(alloc);
    for end in ends {
        match end {
            Ok(got) => all.extend_from_slice(got)?,
            Err(_) => return Err(AllocError),
        }
    }
    all.sort()?;
    Ok(all)
}

// Whether these are the numbers from 0 on, so many.
fn are_first(numbers: &[u32], count: usize) -> bool {
    for (place, number) in numbers.iter().enumerate() {
        if *number as usize != place {
            return false;
        }
    }
    numbers.len() == count
}
