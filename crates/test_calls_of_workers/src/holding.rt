// The things that a stopped worker has, in words.
use jx_book::{Cause, Hand, WorkerStop};
use jx_lex::Span;
use jx_run::Summary;
use std::sync::ledger::Ledger;
use test_words::{Out, push_span};

/// A hand, without the runs themselves.
#[derive(Clone, Copy)]
pub enum Holding {
    Nothing,
    Piece(u32),
    One(Span),
    Two(Span, Span),
}

/// How a worker ended.
#[derive(Clone, Copy)]
pub enum Ended {
    /// No chunk was left.
    Whole,
    Stopped(Cause, Holding),
}

fn holding_of<S: Summary>(hand: &Hand<'_, S>) -> Holding {
    match hand {
        Hand::Nothing => Holding::Nothing,
        Hand::Piece(piece) => Holding::Piece(piece.0),
        Hand::One(run) => Holding::One(run.span()),
        Hand::Two(left, right) => Holding::Two(left.span(), right.span()),
    }
}

/// Why a worker stopped, and what it held.
pub fn stop_of<S: Summary, P: Ledger, T: Ledger>(stop: &WorkerStop<'_, S, P, T>) -> Ended {
    Ended::Stopped(stop.cause, holding_of(&stop.hand))
}

fn push_holding(out: &mut Out, holding: Holding) {
    match holding {
        Holding::Nothing => out.push_str("nothing"),
        Holding::Piece(number) => out.put(format_args!("piece {number}")),
        Holding::One(span) => push_span(out, span),
        Holding::Two(left, right) => {
            push_span(out, left);
            out.push_str(" and ");
            push_span(out, right);
        }
    }
}

/// Writes `ended`, or the cause and what the worker had.
pub fn push_ended(out: &mut Out, ended: Ended) {
    match ended {
        Ended::Whole => out.push_str("ended"),
        Ended::Stopped(cause, holding) => {
            out.put(format_args!("{cause:?}, "));
            push_holding(out, holding);
        }
    }
}
