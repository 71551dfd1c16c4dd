// Any number of links, so many at once, until a client asks the service to shut down.
ghost use Rattle.std.specs.Prelude.{◌≡◌, ◌||◌, is_err, option_map};
ghost use Rattle.live_service.specs.Asked.{HasSpace, asked_of, offering};
ghost use Rattle.live_service.specs.Boards.{IsBoardCallerSince};
ghost use Rattle.live_service.specs.Lanes.{HasRunLanes, HasServedAt, HasServedLane, lane_state};
ghost use Rattle.live_service.specs.Links.{out_of_memory};
ghost use Rattle.live_service.specs.Views.{lane_of, net_of};
ghost use Rattle.mover_rounds.specs.Made.{copier_of};
ghost use Rattle.mover_workers.specs.Callers.{IsSince};

use crate::boards::{BoardCaller, Callers};
use crate::front::FrontEnd;
use crate::links::{Serving, serve_one};
use crate::service::{Lane, Service, accept_from};
use cc_base::Failed;
use cluster_gate::{Admin, Copier};
use mover_workers::Caller;
use net_links::Listener;
use rest_parse::SiteCall;
use rest_session::{LinkEnd, Site};
use std::alloc::Global;
use std::sync::Wait;
use std::thread::{Threads, join};

// A handle of the listener, which the links that it accepted may ask to shut down, and whether they
// may ask the page.
#[derive(Drop)]
struct Handle<'a, N> {
    listener: &'a N,
    page: bool,
}

impl<'a, N: Listener> Site for Handle<'a, N> {
    ghost use Rattle.live_service.specs.Asked.{offering};

    ghost offers = { λ h. offering h.page };

    fn offers(&self, call: SiteCall) -> bool {
        match call {
            SiteCall::Page => self.page,
            SiteCall::Close => true,
        }
    }

    fn shut_down(&self) {
        self.listener.shut_down();
    }

    fn is_shut(&self) -> bool {
        self.listener.is_shut()
    }
}

/// Whether out of memory ended a link.
pub fn out_of_memory(end: LinkEnd) -> bool
    ensures { result ≡ out_of_memory end }
{
    matches!(end, LinkEnd::Memory)
}

// Whether out of memory ended this link, or one before it.
fn wants_after(end: LinkEnd, before: bool) -> bool
    ensures { result ≡ (out_of_memory end || before) }
{
    out_of_memory(end) || before
}

// Serves one link after another, until a client asks the service to shut down.
fn serve_lane<'a, A: Admin, K: Copier, N: Listener + Drop, R: Threads + Wait + Sync>(
    rt: &R,
    alloc: Global,
    caller: &mut Caller<'a, R, A>,
    board: &mut BoardCaller<'a, R>,
    copier: &mut K,
    mut listener: N,
    page: bool,
) -> Lane<N>
where
    N::Conn: Drop,
    ensures since { IsSince caller.old caller.new }
    ensures board_since { IsBoardCallerSince board.old board.new }
    ensures served { HasServedLane caller.old.turn.start.file
        (offering page) board.old.reviews
        (lane_state caller.old.pass board.old.pass (copier_of K.copies K.faults copier.old))
        (lane_state caller.new.pass board.new.pass (copier_of K.copies K.faults copier.new))
        (net_of N.faults N.accepted N.heard listener)
        (lane_of (net_of N.faults N.accepted N.heard) result.listener result.failed result.wants) }
{
    let mut wants = false;
    for _ in rt.forever() {
        if listener.is_shut() {
            // This wakes the next thread that waits for a link.
            listener.shut_down();
            return Lane {
                listener,
                failed: false,
                wants,
            };
        }
        let Ok(mut link) = accept_from(&mut listener) else {
            return Lane {
                listener,
                failed: true,
                wants,
            };
        };
        let handle = Handle {
            listener: &listener,
            page,
        };
        let end = serve_one(rt, alloc, caller, board, copier, &handle, &mut link);
        wants = wants_after(end, wants);
    }
    unreachable!()
}

// How threads ended, with one more that gave up or did not.
fn fails_too(end: Result<(), Failed>, failed: bool) -> Result<(), Failed>
    ensures { is_err result ≡ (failed || is_err end) }
{
    if failed {
        return Err(Failed);
    }
    end
}

// As many threads serve links, each over a handle of the listener. Where none can be started, its
// links come after those of the others. Fails where there was no further handle, or a thread gave up;
// the others serve all the same.
fn serve_lanes<
    'a,
    A: Admin + Send,
    K: Copier + Send + Drop,
    N: Listener + Send + Drop,
    R: Threads + Wait + Sync,
>(
    rt: &R,
    alloc: Global,
    mut callers: Callers<'a, R, A>,
    mut service: Service<K, N>,
    page: bool,
    lanes: u32,
) -> (Callers<'a, R, A>, Service<K, N>, Result<(), Failed>)
where
    N::Conn: Send + Drop,
    requires space { HasSpace service callers.book.pass.parts callers.board.pass.parts 0 lanes }
    ensures ran { HasRunLanes (offering page)
        callers.entry.book result.0.book callers.entry.board result.0.board service result.1 lanes
        result.2 }
{
    if lanes == 0 {
        return (callers, service, Ok(()));
    }
    let Ok(listener) = service.split() else {
        return (callers, service, Err(Failed));
    };
    let fewer = lanes - 1;
    let mut copier = service.take_copier();
    let mut caller = callers.book.split();
    let mut board = callers.board.split();
    let ((mut callers, mut service, end), (caller, board, copier, lane)) = join(
        rt,
        move || -> (Callers<R, A>, Service<K, N>, Result<(), Failed>)
            requires { HasSpace service callers.book.pass.parts callers.board.pass.parts 0 fewer }
            ensures { HasRunLanes (offering page)
                callers.entry.book result.0.book callers.entry.board result.0.board service
                result.1 fewer result.2 }
        { serve_lanes(rt, alloc, callers, service, page, fewer) },
        move || {
            let lane = serve_lane(
                rt,
                alloc,
                &mut caller,
                &mut board,
                &mut copier,
                listener,
                page,
            );
            (caller, board, copier, lane)
        },
    );
    callers.book.join(caller);
    callers.board.join(board);
    service.give_copier(copier);
    let end = fails_too(end, lane.failed);
    service.note_lane(lane);
    (callers, service, end)
}

/// Listens, and then serves any number of links, so many at once, until a client asks the service to
/// shut down.
pub fn serve_on<
    'a,
    A: Admin + Send,
    K: Copier + Send + Drop,
    N: Listener + Send + Drop,
    R: Threads + Wait + Sync,
>(
    rt: &R,
    alloc: Global,
    callers: Callers<'a, R, A>,
    mut service: Service<K, N>,
    serving: &Serving,
) -> (Callers<'a, R, A>, Service<K, N>, FrontEnd)
where
    N::Conn: Send + Drop,
    requires space { HasSpace service callers.book.pass.parts callers.board.pass.parts 0
        serving.now.links }
    ensures served { HasServedAt callers.entry.book result.0.book callers.entry.board
        result.0.board service result.1 (asked_of serving.now) result.2 }
{
    let Ok(()) = service.listen(&serving.address) else {
        return (callers, service, FrontEnd::ListenerFault);
    };
    let (callers, service, end) = serve_lanes(
        rt,
        alloc,
        callers,
        service,
        serving.page,
        serving.links,
    );
    match end {
        Ok(()) => (callers, service, FrontEnd::ShutDown),
        Err(Failed) => (callers, service, FrontEnd::ListenerFault),
    }
}
