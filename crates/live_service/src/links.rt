// The links of a listener.
ghost use Rattle.std.specs.Prelude.{◌≡◌, OnErr, OnOk, string_bytes};
ghost use Rattle.cc_base.specs.Outside.{with_name};
ghost use Rattle.live_service.specs.Asked.{HasSpace};
ghost use Rattle.rest_session.specs.Heard.{paged};
ghost use Rattle.mover_rounds.specs.Made.{copier_of};
ghost use Rattle.mover_workers.specs.Callers.{IsSince, known_by_caller};
ghost use Rattle.live_service.specs.Boards.{IsBoardCallerSince, board_seen};
ghost use Rattle.live_service.specs.Fronts.{HasAccepted, HasTried, IsUnheard};
ghost use Rattle.live_service.specs.Links.{HasServedLink};
ghost use Rattle.live_service.specs.Views.{link_of};

use crate::boards::{BoardCaller, Callers};
use crate::service::{Served, Service};
use cc_base::Failed;
use cluster_gate::{Admin, Copier};
use mover_workers::Caller;
use net_links::{Connection, Listener};
use rest_session::{LinkEnd, PageAlone, Site, serve};
use std::alloc::Global;
use std::sync::Wait;
use std::thread::{Threads, join};

/// Which links are accepted, at an address.
#[derive(Drop)]
pub struct Serving {
    /// `HOST:PORT`, as the listener reads it.
    pub address: String,
    /// How many.
    pub links: u32,
    /// Any number, and so many at once, until a client asks the service to shut down.
    pub forever: bool,
    /// Whether there is a page, at `/`.
    pub page: bool,
}

/// Answers the requests of a link until it ends, and closes it.
pub fn serve_one<'a, A: Admin, K: Copier, D: Site, C: Connection, R: Threads + Wait + Sync>(
    rt: &R,
    alloc: Global,
    caller: &mut Caller<'a, R, A>,
    board: &mut BoardCaller<'a, R>,
    copier: &mut K,
    site: &D,
    link: &mut C,
) -> LinkEnd
    ensures since { IsSince caller.old caller.new }
    ensures board_since { IsBoardCallerSince board.old board.new }
    ensures served { HasServedLink (D.offers site.now)
        (known_by_caller caller.old) (known_by_caller caller.new)
        (board_seen board.old.reviews board.old.pass) (board_seen board.new.reviews board.new.pass)
        (copier_of K.copies K.faults copier.old) (copier_of K.copies K.faults copier.new)
        (link_of C.left C.written C.Source.faults C.Sink.faults link.old)
        (link_of C.left C.written C.Source.faults C.Sink.faults link.new) result }
{
    let end = serve(rt, alloc, caller, board, copier, site, link);
    link.close();
    end
}

// Accepts so many links, and answers the requests of each while it waits for the next: a thread
// accepts those that follow. Where none can be started, a link is served to its end before the next
// is accepted.
fn accept_links<
    'a,
    A: Admin + Send,
    K: Copier + Send + Drop,
    N: Listener + Send + Drop,
    R: Threads + Wait + Sync,
>(
    rt: &R,
    alloc: Global,
    mut callers: Callers<'a, R, A>,
    mut service: Service<K, N>,
    page: bool,
    links: u32,
) -> (Callers<'a, R, A>, Service<K, N>, Result<(), Failed>)
where
    N::Conn: Send + Drop,
    requires space { HasSpace service callers.book.pass.parts callers.board.pass.parts 0 links }
    ensures accepted { HasAccepted (paged page) callers.entry.book result.0.book
        callers.entry.board result.0.board service result.1 links result.2 }
    ensures tried { HasTried service result.1 result.2 }
{
    if links == 0 {
        return (callers, service, Ok(()));
    }
    let Ok(mut link) = service.accept() else {
        return (callers, service, Err(Failed));
    };
    let fewer = links - 1;
    let mut copier = service.take_copier();
    let mut caller = callers.book.split();
    let mut board = callers.board.split();
    let ((mut callers, mut service, end), (caller, board, copier, served)) = join(
        rt,
        move || -> (Callers<R, A>, Service<K, N>, Result<(), Failed>)
            requires { HasSpace service callers.book.pass.parts callers.board.pass.parts 0 fewer }
            ensures { HasAccepted (paged page) callers.entry.book result.0.book
                callers.entry.board result.0.board service result.1 fewer result.2
                × HasTried service result.1 result.2 }
        { accept_links(rt, alloc, callers, service, page, fewer) },
        move || {
            let end = serve_one(
                rt,
                alloc,
                &mut caller,
                &mut board,
                &mut copier,
                &PageAlone(page),
                &mut link,
            );
            (caller, board, copier, Served { link, end })
        },
    );
    callers.book.join(caller);
    callers.board.join(board);
    service.give_copier(copier);
    service.note(served);
    (callers, service, end)
}

/// Listens, and then accepts the links one after another. The requests of each are answered while
/// the next is awaited, unless no thread can be started.
///
/// # Errors
///
/// `Failed` where the listener couldn't listen, or where each of 16 calls in a row that accept
/// failed. The links that were accepted before are served all the same.
pub fn serve_links<
    'a,
    A: Admin + Send,
    K: Copier + Send + Drop,
    N: Listener + Send + Drop,
    R: Threads + Wait + Sync,
>(
    rt: &R,
    alloc: Global,
    callers: Callers<'a, R, A>,
    mut service: Service<K, N>,
    serving: &Serving,
) -> (Callers<'a, R, A>, Service<K, N>, Result<(), Failed>)
where
    N::Conn: Send + Drop,
    requires space { HasSpace service callers.book.pass.parts callers.board.pass.parts 0
        serving.now.links }
    ensures accepted { HasAccepted (paged serving.now.page) callers.entry.book
        result.0.book callers.entry.board result.0.board service result.1 serving.now.links
        result.2 }
    ensures heard { OnOk result.2 (result.1.net.heard
        ≡ with_name service.net.heard (string_bytes serving.now.address)) }
    ensures unheard { OnErr result.2 (IsUnheard (string_bytes serving.now.address) service.net
        result.1.net result.1.served) }
{
    match service.listen(&serving.address) {
        Ok(()) => accept_links(rt, alloc, callers, service, serving.page, serving.links),
        Err(failed) => (callers, service, Err(failed)),
    }
}
