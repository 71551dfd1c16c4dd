// A session over a book of its own.
ghost use Rattle.std.specs.Prelude.{◌≡◌, ◌≤◌, ◌++◌, ◌∷◌, [], false, ℕ};
ghost use Rattle.std.specs.List.{list_any};
ghost use Rattle.cc_base.specs.Outside.{HasRisen};
ghost use Rattle.control_core.specs.Books.{state_of};
ghost use Rattle.core_laws.specs.Alone.{IsDone};
ghost use Rattle.core_laws.specs.Events.{is_close};
ghost use Rattle.mover_rounds.specs.Drained.{IsDrainCause};
ghost use Rattle.mover_rounds.specs.Exact.{HasDrainedAlone};
ghost use Rattle.mover_rounds.specs.Made.{copier_of};
ghost use Rattle.control_core.specs.Books.{IsSince};
ghost use Rattle.mover_rounds.specs.Owned.{known_by_owner};
ghost use Rattle.rest_session.specs.Sessions.{IsSession};

use crate::session::{LinkEnd, serve};
use crate::site::PageAlone;
use cc_base::Link;
use cluster_gate::{Admin, Copier};
use control_core::Book;
use core_laws::every_history;
use core_terms::Event;
use mover_rounds::{DrainEnd, drain};
use review_board::Reviewer;
use std::alloc::Global;
use std::thread::Threads;

/// How a session ended.
#[derive(Clone, Copy, Debug, PartialEq, Eq)]
pub struct SessionEnd {
    /// How its link ended.
    pub link: LinkEnd,
    /// How the drain behind it ended.
    pub drain: DrainEnd,
}

// Asks the first Close, for which there is always memory.
fn close<A: Admin>(book: &mut Book<A>)
    requires { list_any is_close book.old.journal ≡ false }
    ensures since { IsSince A.faults book.old book.new }
    ensures journal { book.new.journal ≡ book.old.journal ++ Event.Close ∷ [] }
    ensures blameless { book.new.failures ≡ book.old.failures }
{
    every_history();
    match book.step(Event::Close) {
        Ok(_) => {}
        Err(_) => unreachable!(),
    }
}

/// Makes rounds until no task and no job is unfinished. A book with a lease or a ticket out is left
/// as it is, as one without memory.
pub fn finish<A: Admin, K: Copier, R: Threads + Sync>(
    rt: &R,
    alloc: Global,
    book: &mut Book<A>,
    copier: &mut K,
) -> DrainEnd
    ensures since { IsSince A.faults book.old book.new }
    ensures rounds { HasDrainedAlone (known_by_owner book.old) (known_by_owner book.new)
        (copier_of K.copies K.faults copier.old) (copier_of K.copies K.faults copier.new) result }
    ensures drained { result ≡ DrainEnd.Drained → IsDone (state_of book.new).desk }
    ensures cause { IsDrainCause (known_by_owner book.old) (known_by_owner book.new) result }
{
    if book.is_quiet() {
        drain(rt, alloc, book, copier)
    } else {
        DrainEnd::Memory
    }
}

/// Answers the requests of a link over a book that was just opened, then asks Close, then makes
/// rounds until no task and no job is unfinished.
pub fn run_session<A: Admin, V: Reviewer, K: Copier, L: Link, R: Threads + Sync>(
    rt: &R,
    alloc: Global,
    book: &mut Book<A>,
    reviewer: &mut V,
    copier: &mut K,
    link: &mut L,
) -> SessionEnd
    // Nothing was done before.
    requires { book.old.journal ≡ [] }
    // What was done: a session, a Close, a drain.
    ensures since { IsSince A.faults book.old book.new }
    ensures since_board { V.since reviewer.old reviewer.new }
    ensures session { IsSession book.old book.new (V.board reviewer.old) (V.board reviewer.new)
        (copier_of K.copies K.faults copier.old)
        (copier_of K.copies K.faults copier.new) (L.left link.old) (L.written link.old)
        (L.written link.new) result }
    // How the drain ended.
    ensures drained { result.drain ≡ DrainEnd.Drained → IsDone (state_of book.new).desk }
    ensures fault { (number : ℕ) → result.drain ≡ DrainEnd.AdminFault number
        → 1 ≤ book.new.failures }
    // Counts never fall, and a fault of the link comes from one that rose.
    ensures source { L.Source.faults link.old ≤ L.Source.faults link.new }
    ensures sink { L.Sink.faults link.old ≤ L.Sink.faults link.new }
    ensures read_fault { result.link ≡ LinkEnd.ReadFault
        → HasRisen (L.Source.faults link.old) (L.Source.faults link.new) }
    ensures write_fault { result.link ≡ LinkEnd.WriteFault
        → HasRisen (L.Sink.faults link.old) (L.Sink.faults link.new) }
{
    let ended = serve(rt, alloc, book, reviewer, copier, &PageAlone(false), link);
    close(book);
    let drain = finish(rt, alloc, book, copier);
    SessionEnd { link: ended, drain }
}
