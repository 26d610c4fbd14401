// Claims and divisions where an allocation fails.
use crate::lines::Lines;
use crate::tests::checks::assert_right;
use jx_claim::{ClaimSeat, Claims, CutFault, Cutting};
use jx_crew::{PieceNo, Workers};
use std::alloc::{AllocError, Global};

#[test]
fn claims_under_a_refused_growth(rt: HostRuntime) {
    let mut lines = Lines::of(&rt);
    for count in &[1, 3, 64] {
        if lines.takes_next() {
            let right = has_seats(rt.alloc(), *count);
            assert_right(&rt, Ok(right), &[], usize::from(*count));
        }
    }
}

#[test]
fn cuttings_under_a_refused_growth(rt: HostRuntime) {
    let mut lines = Lines::of(&rt);
    for (cuts, places) in &CUTS {
        if lines.takes_next() {
            assert_right(
                &rt,
                Ok(has_places(rt.alloc(), cuts, places)),
                &[],
                places.len(),
            );
        }
    }
}

// Whether claims on five chunks have a worker handle for each of so many workers.
fn has_seats(alloc: Global, count: u8) -> bool {
    let Some(workers) = Workers::new(count) else {
        return false;
    };
    match claims_on_five(alloc, workers) {
        Ok((_claims, seats)) => are_unspent(&seats, usize::from(count)),
        Err(AllocError) => false,
    }
}

// Whether these are so many worker handles, in order, of which none is spent.
fn are_unspent(seats: &[ClaimSeat], count: usize) -> bool {
    for (place, seat) in seats.iter().enumerate() {
        if seat.number() != place || seat.spent() {
            return false;
        }
    }
    seats.len() == count
}

// Offsets at which 17 bytes are cut, and the chunks.
const CUTS: [(&[usize], &[(usize, usize)]); 2] = [
    (&[1, 5, 16], &[(0, 1), (1, 5), (5, 16), (16, 17)]),
    (&[6, 12], &[(0, 6), (6, 12), (12, 17)]),
];

// Whether 17 bytes, cut at these offsets, have these chunks.
fn has_places(alloc: Global, cuts: &[usize], places: &[(usize, usize)]) -> bool {
    match cutting_at(alloc, 17, cuts) {
        Ok(cutting) => are_places(&cutting, places),
        Err(_) => false,
    }
}

fn are_places(cutting: &Cutting, places: &[(usize, usize)]) -> bool {
    for number in 0..cutting.count() {
        let place = cutting.piece(PieceNo(number));
        if places.get(number as usize) != Some(&(place.start, place.end)) {
            return false;
        }
    }
    cutting.count() as usize == places.len()
}

// Claims on five chunks, asked for twice where they are refused.
fn claims_on_five(alloc: Global, workers: Workers) -> Result<(Claims, Vec<ClaimSeat>), AllocError> {
    match Claims::open(alloc, 5, workers) {
        Ok(opened) => Ok(opened),
        Err(_) => Claims::open(alloc, 5, workers),
    }
}

// A division at these offsets, asked for twice where it is refused.
fn cutting_at(alloc: Global, len: usize, cuts: &[usize]) -> Result<Cutting, CutFault> {
    match Cutting::at(alloc, len, cuts) {
        Err(CutFault::Memory) => Cutting::at(alloc, len, cuts),
        answer => answer,
    }
}
