// The loop of a session.
ghost use Rattle.std.specs.Prelude.{◌≡◌, ◌≤◌, [], None};
ghost use Rattle.cc_base.specs.Outside.{HasRisen};
ghost use Rattle.mover_rounds.specs.Made.{copier_of};
ghost use Rattle.rest_session.specs.Answered.{HasServed, IsRefused, end_of};

use crate::answer::{answer, write_reply};
use crate::site::Site;
use cc_base::Link;
use cluster_gate::Copier;
use mover_rounds::Asker;
use rest_parse::Routes;
use rest_replies::Told;
use rest_stream::{Reader, Stop};
use review_board::Reviewer;
use std::alloc::Global;
use std::thread::Threads;

/// How a link ended.
#[derive(Clone, Copy, Debug, PartialEq, Eq)]
pub enum LinkEnd {
    /// The input ended between requests.
    Ended,
    /// A request closed the link.
    Closed,
    /// The service was asked to shut down, by this link or another.
    ShutDown,
    /// The input ended inside a request.
    Cut,
    /// A request couldn't be framed, and was told why.
    Unframed,
    /// A read failed.
    ReadFault,
    /// A write failed.
    WriteFault,
    /// Out of memory, before a further request was read.
    Memory,
}

// How a link ends for a reason that has no reply, or whose reply is out.
fn end_of(why: Stop) -> LinkEnd
    ensures { result ≡ end_of why }
{
    match why {
        Stop::End => LinkEnd::Ended,
        Stop::Truncated => LinkEnd::Cut,
        Stop::ReadFault => LinkEnd::ReadFault,
        Stop::Memory => LinkEnd::Memory,
        Stop::BadHead | Stop::BadLength | Stop::HeadTooLong | Stop::BodyTooLong | Stop::NoChunked =>
            LinkEnd::Unframed,
    }
}

// Tells the reason why there is no further request, if it has a reply.
fn refuse<L: Link>(alloc: Global, link: &mut L, why: Stop) -> LinkEnd
    ensures refused { IsRefused (L.written link.old) (L.written link.new) why result }
    ensures later { L.Sink.faults link.old ≤ L.Sink.faults link.new }
    ensures cause { result ≡ LinkEnd.WriteFault
        → HasRisen (L.Sink.faults link.old) (L.Sink.faults link.new) }
    ensures left { L.left link.new ≡ L.left link.old }
    ensures faults { L.Source.faults link.new ≡ L.Source.faults link.old }
{
    match why {
        Stop::End | Stop::Truncated | Stop::ReadFault | Stop::Memory => end_of(why),
        _ => match write_reply(alloc, link, &Told::Stopped(why), false) {
            Ok(()) => end_of(why),
            Err(_) => LinkEnd::WriteFault,
        },
    }
}

// Answers requests until the link ends.
fn serve_with<X: Asker, V: Reviewer, K: Copier, D: Site, L: Link, R: Threads + Sync>(
    rt: &R,
    alloc: Global,
    asker: &mut X,
    reviewer: &mut V,
    copier: &mut K,
    site: &D,
    routes: &Routes,
    mut reader: Reader,
    link: &mut L,
) -> LinkEnd
    // Nothing was read before.
    requires { reader ≡ record { held = []; given = 0; ended = None } }
    // What was asked, and what the link was answered.
    ensures since { X.since asker.old asker.new }
    ensures since_board { V.since reviewer.old reviewer.new }
    ensures served { HasServed (D.offers site.now) (X.known asker.old) (X.known asker.new)
        (V.board reviewer.old) (V.board reviewer.new)
        (copier_of K.copies K.faults copier.old) (copier_of K.copies K.faults copier.new)
        (L.left link.old) (L.written link.old) (L.written link.new) result }
    // Faults are counted, and an end for a fault has one.
    ensures source { L.Source.faults link.old ≤ L.Source.faults link.new }
    ensures sink { L.Sink.faults link.old ≤ L.Sink.faults link.new }
    ensures read_fault { result ≡ LinkEnd.ReadFault
        → HasRisen (L.Source.faults link.old) (L.Source.faults link.new) }
    ensures write_fault { result ≡ LinkEnd.WriteFault
        → HasRisen (L.Sink.faults link.old) (L.Sink.faults link.new) }
{
    loop {
        match reader.next(alloc, link).into_result() {
            Ok(raw) => {
                if answer(rt, alloc, asker, reviewer, copier, site, routes, &raw, link).is_err() {
                    return LinkEnd::WriteFault;
                }
                if raw.closes {
                    return LinkEnd::Closed;
                }
                if site.is_shut() {
                    return LinkEnd::ShutDown;
                }
            }
            Err(why) => return refuse(alloc, link, why),
        }
    }
}

/// Answers the requests of a link in their order, each by the reply to its own entries, until the
/// link ends, or the service was asked to shut down.
pub fn serve<X: Asker, V: Reviewer, K: Copier, D: Site, L: Link, R: Threads + Sync>(
    rt: &R,
    alloc: Global,
    asker: &mut X,
    reviewer: &mut V,
    copier: &mut K,
    site: &D,
    link: &mut L,
) -> LinkEnd
    ensures since { X.since asker.old asker.new }
    ensures since_board { V.since reviewer.old reviewer.new }
    ensures served { HasServed (D.offers site.now) (X.known asker.old) (X.known asker.new)
        (V.board reviewer.old) (V.board reviewer.new)
        (copier_of K.copies K.faults copier.old) (copier_of K.copies K.faults copier.new)
        (L.left link.old) (L.written link.old) (L.written link.new) result }
    ensures source { L.Source.faults link.old ≤ L.Source.faults link.new }
    ensures sink { L.Sink.faults link.old ≤ L.Sink.faults link.new }
    ensures read_fault { result ≡ LinkEnd.ReadFault
        → HasRisen (L.Source.faults link.old) (L.Source.faults link.new) }
    ensures write_fault { result ≡ LinkEnd.WriteFault
        → HasRisen (L.Sink.faults link.old) (L.Sink.faults link.new) }
{
    let Ok(routes) = Routes::new(alloc) else {
        return LinkEnd::Memory;
    };
    let Ok(reader) = Reader::new(alloc) else {
        return LinkEnd::Memory;
    };
    serve_with(
        rt, alloc, asker, reviewer, copier, site, &routes, reader, link,
    )
}
