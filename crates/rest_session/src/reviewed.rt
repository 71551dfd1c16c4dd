// One request where those that start something are reviewed first.
ghost use Rattle.std.specs.Prelude.{◌≡◌, IfOk, IsSome};
ghost use Rattle.mover_rounds.specs.Made.{Copies, copier_of};
ghost use Rattle.rest_session.specs.Answered.{IsBlamed, fault_told};
ghost use Rattle.rest_session.specs.Reviewed.{HasAskedBoard, HasCalled, HasStarted, given_request, starts};

use crate::answer::{ask_once, do_asked};
use crate::calls::{Asked, asked_by, plainly_asked};
use cluster_gate::Copier;
use core_terms::StepFault;
use mover_rounds::Asker;
use rest_parse::{Call, HttpFault, ReviewCall, Routes};
use rest_replies::Told;
use rest_stream::{Bytes, RawRequest};
use review_board::{BoardEvent, BoardReply, NoteFault, Reviewer};
use std::alloc::{AllocError, Global};
use std::thread::Threads;

// A target that was given out, as a request.
fn given_request(alloc: Global, target: review_board::Bytes) -> Result<RawRequest, AllocError>
    ensures { IfOk result (λ raw. raw ≡ given_request target) }
{
    Ok(RawRequest {
        method: Bytes::of(alloc, b"POST")?,
        target: Bytes::new(target.into_vec()),
        key: None,
        closes: false,
        body: Bytes::new(Vec::new(alloc)),
    })
}

// Whether a call starts something.
fn starts(call: &Call) -> bool
    ensures { result ≡ starts call.now }
{
    matches!(call, Call::Submit(..) | Call::Stop(_) | Call::Caps(..))
}

// Does what a target that was given out asks, if that starts something.
fn told_given<X: Asker>(
    alloc: Global,
    asker: &mut X,
    routes: &Routes,
    target: review_board::Bytes,
) -> Told
    ensures since { X.since asker.old asker.new }
    ensures given { (k : Copies) → HasStarted (X.known asker.old) (X.known asker.new) k k target
        result }
    ensures blamed { IsBlamed (fault_told result) (X.known asker.old).blamed
        (X.known asker.new).blamed }
{
    let Ok(raw) = given_request(alloc, target) else {
        return Told::Http(HttpFault::Memory);
    };
    match routes.request_of(alloc, &raw) {
        Ok(call) if starts(&call) => match asked_by(call) {
            Asked::Once(event) => ask_once(asker, event),
            _ => unreachable!(),
        },
        Ok(_) => Told::Http(HttpFault::NotFound),
        Err(fault) => Told::Http(fault),
    }
}

// Asks an event of the board, and does what a target asks that it gives out.
fn told_on_board<X: Asker, V: Reviewer>(
    alloc: Global,
    asker: &mut X,
    reviewer: &mut V,
    routes: &Routes,
    event: BoardEvent,
) -> Told
    requires { IsSome (V.board reviewer.old) }
    ensures since { X.since asker.old asker.new }
    ensures since_board { V.since reviewer.old reviewer.new }
    ensures asked { (k : Copies) → HasAskedBoard (X.known asker.old) (X.known asker.new)
        (V.board reviewer.old) (V.board reviewer.new) k k event result }
    ensures blamed { IsBlamed (fault_told result) (X.known asker.old).blamed
        (X.known asker.new).blamed }
{
    let reply = match reviewer.note(event) {
        Ok(reply) => reply,
        Err(NoteFault::Memory) => return Told::Step(StepFault::Memory),
        Err(NoteFault::NoBoard) => unreachable!(),
    };
    match reply {
        BoardReply::Given(target) => told_given(alloc, asker, routes, target),
        reply => Told::Board(reply),
    }
}

/// Does what a request means where there is a board, and says what it is told.
pub fn told_reviewed<X: Asker, V: Reviewer, K: Copier, R: Threads + Sync>(
    rt: &R,
    alloc: Global,
    asker: &mut X,
    reviewer: &mut V,
    copier: &mut K,
    routes: &Routes,
    raw: &RawRequest,
) -> Told
    requires { IsSome (V.board reviewer.old) }
    ensures since { X.since asker.old asker.new }
    ensures since_board { V.since reviewer.old reviewer.new }
    ensures called { HasCalled (X.known asker.old) (X.known asker.new) (V.board reviewer.old)
        (V.board reviewer.new) (copier_of K.copies K.faults copier.old)
        (copier_of K.copies K.faults copier.new) raw.now result }
    ensures blamed { IsBlamed (fault_told result) (X.known asker.old).blamed
        (X.known asker.new).blamed }
{
    match routes.reviewed_of(alloc, raw) {
        Ok(ReviewCall::Plain(call)) => do_asked(rt, alloc, asker, copier, plainly_asked(call)),
        Ok(ReviewCall::File { path, target }) => {
            told_on_board(
                alloc,
                asker,
                reviewer,
                routes,
                BoardEvent::File(path, target),
            )
        }
        Ok(ReviewCall::Take { id, path }) => {
            told_on_board(alloc, asker, reviewer, routes, BoardEvent::Take(id, path))
        }
        Ok(ReviewCall::Review { approve, discard }) => {
            told_on_board(
                alloc,
                asker,
                reviewer,
                routes,
                BoardEvent::Review(approve, discard),
            )
        }
        Ok(ReviewCall::List) => told_on_board(alloc, asker, reviewer, routes, BoardEvent::List),
        Err(fault) => Told::Http(fault),
    }
}
