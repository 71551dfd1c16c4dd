// What `session` does.
ghost use Rattle.std.specs.Prelude.{◌≡◌, ◌≢◌, ◌≤◌, ◌⊎◌, Bool, List, []};
ghost use Rattle.cluster_json.specs.Ranges.{IsFile};
ghost use Rattle.cluster_json.specs.Views.{file_seen};
ghost use Rattle.control_core.specs.Books.{opened};
ghost use Rattle.quiet_commands.specs.Edges.{IsSilent, io_view};
ghost use Rattle.quiet_commands.specs.Sessions.{DidSession, board_kept, drained_end, ended_by};
ghost use Rattle.review_board.specs.declared.events.BoardEvent.{BoardEvent};
ghost use Rattle.quiet_commands.specs.declared.ends.End.{End};

use crate::ends::End;
use cc_base::Link;
use cluster_gate::{MemoryCluster, MemoryCopier};
use cluster_json::ClusterFile;
use control_core::Book;
use core_laws::every_history;
use mover_rounds::DrainEnd;
use rest_session::{LinkEnd, SessionEnd, run_session};
use review_board::{Board, NoBoard, Reviewer};
use std::alloc::Global;
use std::thread::Threads;

/// How a run ends whose link ended well.
pub fn drained_end(drain: DrainEnd) -> End
    ensures { result ≡ drained_end drain }
{
    match drain {
        DrainEnd::Drained => End::Done,
        DrainEnd::AdminFault(_) => End::NotDrained,
        DrainEnd::Memory => End::Memory,
    }
}

/// How a run ends whose session ended so.
pub fn ended_by(ended: SessionEnd) -> End
    ensures { result ≡ ended_by ended.link ended.drain }
{
    match ended.link {
        LinkEnd::Ended | LinkEnd::Closed | LinkEnd::ShutDown => drained_end(ended.drain),
        LinkEnd::Cut | LinkEnd::Unframed => End::InputCut,
        LinkEnd::ReadFault => End::ReadFault,
        LinkEnd::WriteFault => End::WriteFault,
        LinkEnd::Memory => End::Memory,
    }
}

// Serves a book that was just opened.
fn serve<V: Reviewer, L: Link, R: Threads + Sync>(
    rt: &R,
    alloc: Global,
    book: &mut Book<MemoryCluster>,
    reviewer: &mut V,
    console: &mut L,
) -> End
    requires { book.old ≡ opened book.old.file book.old.admin }
    ensures did { (reviews : Bool) (journal : List BoardEvent)
        → V.board reviewer.old ≡ board_kept reviews []
        → V.board reviewer.new ≡ board_kept reviews journal
        → DidSession book.old.file reviews
        (io_view L.Source L.Sink console.old console.new) result }
    ensures drained { result ≢ End.NotDrained }
    ensures source { L.Source.faults console.old ≤ L.Source.faults console.new }
    ensures sink { L.Sink.faults console.old ≤ L.Sink.faults console.new }
{
    let mut copier = MemoryCopier::new(alloc);
    let ended = run_session(rt, alloc, book, reviewer, &mut copier, console);
    every_history();
    let _legal = book.entries();
    let _few = book.failures();
    ended_by(ended)
}

/// Answers the requests of the input over a book of the file's cluster in memory, asks Close, and
/// makes rounds until nothing is unfinished. The replies go to the output one after another. What
/// starts something is reviewed first, if that is asked, on a board of the session's own.
pub fn session<L: Link, R: Threads + Sync>(
    rt: &R,
    alloc: Global,
    file: ClusterFile,
    review: bool,
    console: &mut L,
) -> End
    requires { IsFile file }
    ensures did { ((result ≡ End.Memory)
        × IsSilent (io_view L.Source L.Sink console.old console.new))
        ⊎ DidSession (file_seen file) review (io_view L.Source L.Sink console.old console.new)
        result }
    ensures drained { result ≢ End.NotDrained }
    ensures source { L.Source.faults console.old ≤ L.Source.faults console.new }
    ensures sink { L.Sink.faults console.old ≤ L.Sink.faults console.new }
{
    match Book::begin(alloc, file, MemoryCluster::new(alloc)) {
        Ok(mut book) => {
            if review {
                serve(rt, alloc, &mut book, &mut Board::new(alloc), console)
            } else {
                serve(rt, alloc, &mut book, &mut NoBoard, console)
            }
        }
        Err(_) => End::Memory,
    }
}
