// Pointers that several workers answer together.
ghost use Rattle.std.specs.Prelude.{◌≡◌, ◌+◌, ◌<◌, ◌≤◌, All, length, None, IfOk, OnOk, vec_len, false};
ghost use Rattle.std.specs.List.{AllZip};
ghost use Rattle.jx_answer.specs.Found.{AreAnswered, ArePlaced, IsAnswerTo, IsAnswerAt};

use crate::fault::Fault;
use crate::find_answer::Answer;
use jx_claim::{ClaimSeat, Claims, Cutting};
use jx_crew::{Crew, Event, Gate, Go, Workers};
use jx_fork::call_each;
use jx_index::{Indexed, Pointer};
use jx_lex::Span;
use std::alloc::{AllocError, Global};
use std::thread::Threads;

/// How many chunks a list of pointers is cut into at the most.
const MOST_PIECES: usize = 65536;

/// The answer to the pointer at a place in the list of all pointers.
#[derive(Clone, Copy, Debug)]
struct Answered {
    at: usize,
    answer: Answer,
}

/// Pointers that are to be looked up in an index.
#[derive(Clone, Copy, Debug)]
struct Lookups<'i> {
    index: &'i Indexed<'i>,
    pointers: &'i [Pointer<'i>],
}

/// Answers pointers in their order, as `Indexed::find` does, by that many workers, who take chunks of the list. It
/// waits for the workers. The gate is asked after each step and may stop the worker; the calling thread answers what is
/// left. One worker takes as each of several does. A list of at most one pointer starts no worker and asks no gate: the
/// calling thread answers. The only fault is out of memory.
pub fn find_all<'i, R: Threads + Sync, G: Gate + Sync>(
    rt: &R,
    alloc: Global,
    index: &'i Indexed<'i>,
    pointers: &'i [Pointer<'i>],
    workers: Workers,
    gate: &G,
) -> Result<Vec<Answer>, Fault>
    ensures answers { IfOk result (λ answers. AllZip (IsAnswerTo index.now) pointers.now answers.items) }
{
    let crew = Crew {
        rt,
        alloc,
        workers,
        gate,
    };
    let lookups = Lookups { index, pointers };
    let answers = lookups.answers(&crew)?;
    Ok(answers)
}

impl<'i> Lookups<'i> {
    /// The answers in the order of the pointers; what the workers left is answered here.
    fn answers<R: Threads + Sync, G: Gate + Sync>(
        &self,
        crew: &Crew<'_, R, G>,
    ) -> Result<Vec<Answer>, AllocError>
        ensures answers { IfOk result (λ answers. AllZip (IsAnswerTo self.now.index.now) self.now.pointers.now answers.items) }
    {
        let mut places = nothing(crew.alloc, self.pointers.len())?;
        if self.pointers.len() > 1 {
            let found = self.found(crew)?;
            self.place_all(&mut places, &found);
        }
        self.in_order(crew.alloc, &places)
    }

    /// The answers that each worker found.
    fn found<R: Threads + Sync, G: Gate + Sync>(
        &self,
        crew: &Crew<'_, R, G>,
    ) -> Result<Vec<Vec<Answered>>, AllocError>
        ensures found { IfOk result (λ v. All (λ f. AreAnswered self.now.index.now self.now.pointers.now f.items) v.items) }
    {
        let len = self.pointers.len();
        let Ok(cutting) = Cutting::every(len, len.div_ceil(MOST_PIECES).max(1)) else {
            unreachable!()
        };
        let (claims, seats) = Claims::open(crew.alloc, cutting.count(), crew.workers)?;
        self.by_seats(crew, &cutting, &claims, seats)
    }

    /// Lets each worker take chunks, in a thread of its own where one can be made.
    fn by_seats<R: Threads + Sync, G: Gate + Sync>(
        &self,
        crew: &Crew<'_, R, G>,
        cutting: &Cutting,
        claims: &Claims,
        seats: Vec<ClaimSeat>,
    ) -> Result<Vec<Vec<Answered>>, AllocError>
        requires cutting { cutting.now.len ≡ length self.now.pointers.now }
        requires claims { claims.now.pieces ≡ length cutting.now.pieces }
        requires seats { All (λ s. (s.id ≡ claims.now.id) × (s.spent ≡ false)) seats.items }
        ensures found { IfOk result (λ v. All (λ f. AreAnswered self.now.index.now self.now.pointers.now f.items) v.items) }
    {
        let lookups = self;
        call_each(
            crew.rt,
            crew.alloc,
            seats,
            &|seat: ClaimSeat| -> Vec<Answered>
                requires { (cutting.now.len ≡ length lookups.now.pointers.now) × (claims.now.pieces ≡ length cutting.now.pieces) × ((seat.id ≡ claims.now.id) × (seat.spent ≡ false)) }
                ensures { AreAnswered lookups.entry.now.index.now lookups.entry.now.pointers.now result.items }
            { lookups.by_seat(crew, cutting, claims, seat) },
        )
    }

    /// Takes chunks until none is left, the gate says stop or it is out of memory, and answers the pointers in each.
    fn by_seat<R, G: Gate>(
        &self,
        crew: &Crew<'_, R, G>,
        cutting: &Cutting,
        claims: &Claims,
        seat: ClaimSeat,
    ) -> Vec<Answered>
        requires cutting { cutting.now.len ≡ length self.now.pointers.now }
        requires claims { claims.now.pieces ≡ length cutting.now.pieces }
        requires seat { seat.id ≡ claims.now.id }
        requires unspent { seat.spent ≡ false }
        ensures found { AreAnswered self.now.index.now self.now.pointers.now result.items }
    {
        let mut seat = seat;
        let mut found = Vec::new(crew.alloc);
        let worker = seat.number();
        for _ in 0..cutting.count() {
            let Some(piece) = claims.draw(&mut seat) else {
                return found;
            };
            if crew.gate.pass(Event::Drew { worker, piece }) == Go::Stop {
                return found;
            }
            if self.answer_piece(cutting.piece(piece), &mut found).is_err() {
                return found;
            }
        }
        found
    }

    /// Answers each of the pointers of one chunk.
    fn answer_piece(&self, piece: Span, found: &mut Vec<Answered>) -> Result<(), AllocError>
        requires ordered { piece.start ≤ piece.end }
        requires within { piece.end ≤ length self.now.pointers.now }
        requires found { AreAnswered self.now.index.now self.now.pointers.now found.old.items }
        ensures each { OnOk result (vec_len found.new + piece.start ≡ vec_len found.old + piece.end) }
        ensures found { AreAnswered self.now.index.now self.now.pointers.now found.new.items }
    {
        for at in piece.start..piece.end {
            let answer = self.answer(at);
            found.push(Answered { at, answer })?;
        }
        Ok(())
    }

    /// The answer of `find` to the pointer at a place, with the row of its node.
    fn answer(&self, at: usize) -> Answer
        requires { at < length self.now.pointers.now }
        ensures { IsAnswerAt self.now.index.now self.now.pointers.now at result }
    {
        answer_to(self.index, &self.pointers[at])
    }

    /// Puts what the workers found at the pointers' places.
    fn place_all(&self, places: &mut [Option<Answer>], found: &[Vec<Answered>])
        requires found { All (λ f. AreAnswered self.now.index.now self.now.pointers.now f.items) found.now }
        requires placed { ArePlaced self.now.index.now self.now.pointers.now places.old }
        ensures placed { ArePlaced self.now.index.now self.now.pointers.now places.new }
    {
        for part in found {
            self.place(places, part);
        }
    }

    /// Puts what one worker found at the pointers' places.
    fn place(&self, places: &mut [Option<Answer>], found: &[Answered])
        requires found { AreAnswered self.now.index.now self.now.pointers.now found.now }
        requires placed { ArePlaced self.now.index.now self.now.pointers.now places.old }
        ensures placed { ArePlaced self.now.index.now self.now.pointers.now places.new }
    {
        for one in found {
            if one.at < places.len() {
                places[one.at] = Some(one.answer);
            }
        }
    }

    /// The answers in the order of the pointers; a place without one is answered on this thread.
    fn in_order(&self, alloc: Global, places: &[Option<Answer>]) -> Result<Vec<Answer>, AllocError>
        requires len { length places.now ≡ length self.now.pointers.now }
        requires placed { ArePlaced self.now.index.now self.now.pointers.now places.now }
        ensures answers { IfOk result (λ answers. AllZip (IsAnswerTo self.now.index.now) self.now.pointers.now answers.items) }
    {
        let mut answers = Vec::with_capacity(alloc, places.len())?;
        for at in 0..places.len() {
            answers.push(self.answer_of(places, at))?;
        }
        Ok(answers)
    }

    /// The answer that stands at a place, or that of this thread.
    fn answer_of(&self, places: &[Option<Answer>], at: usize) -> Answer
        requires at { at < length places.now }
        requires len { length places.now ≡ length self.now.pointers.now }
        requires placed { ArePlaced self.now.index.now self.now.pointers.now places.now }
        ensures { IsAnswerAt self.now.index.now self.now.pointers.now at result }
    {
        match places[at] {
            Some(answer) => answer,
            None => self.answer(at),
        }
    }
}

/// The answer of `find` to a pointer, with the row of its node.
fn answer_to(index: &Indexed<'_>, pointer: &Pointer<'_>) -> Answer
    ensures { IsAnswerTo index.now pointer.now result }
{
    match index.find(pointer) {
        Ok(node) => {
            let row = index.row(node);
            Answer::Found {
                node,
                kind: row.kind,
                span: row.span,
            }
        }
        Err(fault) => Answer::Fault(fault),
    }
}

/// A list of so many places with no answer.
fn nothing(alloc: Global, len: usize) -> Result<Vec<Option<Answer>>, AllocError>
    ensures len { IfOk result (λ v. vec_len v ≡ len) }
    ensures nothing { IfOk result (λ v. All (λ place. place ≡ None) v.items) }
{
    Vec::from_elem(alloc, None, len)
}
