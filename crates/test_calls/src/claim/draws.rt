// The order in which chunks are taken, and what closing returns.
ghost use Rattle.jx_claim.specs.Claimed.{AllSeats};

use jx_claim::{ClaimSeat, Claims};
use jx_crew::Workers;
use std::alloc::{AllocError, Global};
use test_words::{Line, Out};

/// How many chunks there are, and how many workers.
fn terms(line: &mut Line<'_>) -> Option<(u32, Workers)> {
    let pieces = u32::try_from(line.number()).ok()?;
    let workers = u8::try_from(line.number()).ok()?;
    Some((pieces, Workers::new(workers)?))
}

/// Appends the chunks that the worker handles of these letters get, one after another; one that got nothing, or does not exist, is left out.
fn push_draws(out: &mut Out, claims: &Claims, seats: &mut Vec<ClaimSeat>, letters: &[u8])
    requires { AllSeats claims.now seats.old.items }
    ensures { AllSeats claims.now seats.new.items }
{
    for letter in letters {
        let place = usize::from(letter.saturating_sub(b'A'));
        if place < seats.len() && !seats[place].spent() {
            match claims.draw(&mut seats[place]) {
                Some(piece) => out.put(format_args!("{} ", piece.0)),
                None => out.push_str("- "),
            }
        }
    }
}

fn push_drawn(
    out: &mut Out,
    alloc: Global,
    pieces: u32,
    workers: Workers,
    letters: &[u8],
) -> Result<(), AllocError> {
    let (claims, mut seats) = Claims::open(alloc, pieces, workers)?;
    push_draws(out, &claims, &mut seats, letters);
    let drawn = claims.close(seats).pieces;
    out.put(format_args!("of {drawn}"));
    Ok(())
}

/// `draws PIECES WORKERS SEATS`: what worker handles get, by their letters `A`, `B` and so on, and how many chunks closing returns.
pub(crate) fn draws(line: &mut Line<'_>) {
    let Some((pieces, workers)) = terms(line) else {
        return line.refuse();
    };
    let letters = line.word().as_bytes();
    let told = push_drawn(&mut line.out, line.alloc, pieces, workers, letters);
    line.settle(told);
}

/// `seats PIECES WORKERS`: the numbers of fresh worker handles.
pub(crate) fn seats(line: &mut Line<'_>) {
    let Some((pieces, workers)) = terms(line) else {
        return line.refuse();
    };
    let opened = Claims::open(line.alloc, pieces, workers);
    if let Some((_claims, seats)) = line.keep(opened) {
        push_seats(&mut line.out, &seats);
    }
}

fn push_seats(out: &mut Out, seats: &[ClaimSeat]) {
    for seat in seats {
        out.part(" ");
        out.put(seat.number());
        if seat.spent() {
            out.push_str(" spent");
        }
    }
}
