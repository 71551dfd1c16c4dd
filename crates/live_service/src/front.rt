// What answers requests while the workers run.
ghost use Rattle.std.specs.Prelude.{◌≡◌, true, Some};
ghost use Rattle.live_service.specs.Asked.{HasSpace, asked_of, links_of, serving_view};
ghost use Rattle.live_service.specs.Runs.{HasServed};

use crate::boards::Callers;
use crate::lanes::serve_on;
use crate::links::{Serving, serve_links};
use crate::parties::{Front, Parties};
use cc_base::Failed;
use rest_session::{LinkEnd, PageAlone, serve};
use std::alloc::Global;
use std::sync::Wait;
use std::thread::Threads;

/// How a front ended.
#[derive(Clone, Copy, Debug, PartialEq, Eq)]
pub enum FrontEnd {
    /// The requests of the console ended so.
    Console(LinkEnd),
    /// As many links as asked were accepted, and have ended.
    Accepted,
    /// A client asked the service to shut down, and all links have ended.
    ShutDown,
    /// The listener couldn't listen, or failed to accept 16 times in a row, or gave no further
    /// handle. The links that were accepted before have ended.
    ListenerFault,
}

// Answers the requests of any number of links, and then asks Close.
fn serve_forever<'a, P: Parties, R: Threads + Wait + Sync>(
    rt: &R,
    alloc: Global,
    callers: Callers<'a, R, P::Gate>,
    front: Front<P>,
    serving: &Serving,
) -> (Callers<'a, R, P::Gate>, Front<P>, FrontEnd)
    requires space { HasSpace front.service callers.book.pass.parts callers.board.pass.parts 0
        serving.now.links }
    requires forever { serving.now.forever ≡ true }
    ensures served { HasServed (Some (asked_of serving.now)) callers.entry.book result.0.book
        callers.entry.board result.0.board front result.1 result.2 }
{
    let Front {
        copier,
        console,
        service,
    } = front;
    let (mut callers, service, end) = serve_on(rt, alloc, callers, service, serving);
    callers.book.close();
    let front = Front {
        copier,
        console,
        service,
    };
    (callers, front, end)
}

/// Answers the requests of the console, or those of the links that are asked for, and then asks
/// Close.
pub fn serve_front<'a, P: Parties, R: Threads + Wait + Sync>(
    rt: &R,
    alloc: Global,
    callers: Callers<'a, R, P::Gate>,
    mut front: Front<P>,
    serving: Option<Serving>,
) -> (Callers<'a, R, P::Gate>, Front<P>, FrontEnd)
    requires space { HasSpace front.service callers.book.pass.parts callers.board.pass.parts 0
        (links_of serving) }
    ensures served { HasServed (serving_view serving) callers.entry.book result.0.book
        callers.entry.board result.0.board front result.1 result.2 }
{
    let Some(serving) = serving else {
        let (mut book, mut board) = callers.into_parts();
        let end = serve(
            rt,
            alloc,
            &mut book,
            &mut board,
            &mut front.copier,
            &PageAlone(false),
            &mut front.console,
        );
        book.close();
        return (Callers { book, board }, front, FrontEnd::Console(end));
    };
    if serving.forever {
        return serve_forever(rt, alloc, callers, front, &serving);
    }
    let Front {
        copier,
        console,
        service,
    } = front;
    let (mut callers, service, end) = serve_links(rt, alloc, callers, service, &serving);
    callers.book.close();
    let front = Front {
        copier,
        console,
        service,
    };
    match end {
        Ok(()) => (callers, front, FrontEnd::Accepted),
        Err(Failed) => (callers, front, FrontEnd::ListenerFault),
    }
}
