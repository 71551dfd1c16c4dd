// The requests of a link over a shared book.
ghost use Rattle.std.specs.Prelude.{◌≡◌, ◌≤◌, true, false, None};
ghost use Rattle.cc_base.specs.Outside.{HasRisen};
ghost use Rattle.mover_rounds.specs.Made.{copier_of};
ghost use Rattle.mover_workers.specs.Callers.{Belongs, HasGrown, known_by_pass};
ghost use Rattle.rest_session.specs.Answered.{HasServed};
ghost use Rattle.rest_session.specs.Heard.{paged};
ghost use Rattle.live_service.specs.Boards.{BelongsToBoard, board_seen};

use crate::boards::BoardCaller;
use cc_base::Link;
use cluster_gate::{Admin, Copier};
use control_core::Book;
use mover_workers::Caller;
use rest_session::{LinkEnd, PageAlone, serve};
use review_board::{Board, NoBoard};
use std::alloc::Global;
use std::sync::Wait;
use std::thread::Threads;
use turn_book::{Pass, Turn};

/// Answers the requests of a link in their order, each by the reply to its own entries, until the
/// link ends. The pass comes back with these entries.
pub fn serve_link<A: Admin, K: Copier, L: Link, R: Threads + Wait + Sync>(
    rt: &R,
    alloc: Global,
    turn: &Turn<Book<A>>,
    pass: Pass<Book<A>>,
    copier: &mut K,
    link: &mut L,
) -> (Pass<Book<A>>, LinkEnd)
    // The pass is one of the turn.
    requires own { Belongs turn.now pass }
    // The pass is one of the turn, and has grown.
    ensures own { Belongs turn.now result.0 }
    ensures grown { HasGrown pass result.0 }
    // The requests were answered, each by the reply to its own entries.
    ensures served { HasServed (paged false) (known_by_pass turn.now.start.file pass)
        (known_by_pass turn.now.start.file result.0) None None
        (copier_of K.copies K.faults copier.old) (copier_of K.copies K.faults copier.new)
        (L.left link.old) (L.written link.old) (L.written link.new) result.1 }
    // Counts never fall, and a fault of the link comes from one that rose.
    ensures source { L.Source.faults link.old ≤ L.Source.faults link.new }
    ensures sink { L.Sink.faults link.old ≤ L.Sink.faults link.new }
    ensures read_fault { result.1 ≡ LinkEnd.ReadFault
        → HasRisen (L.Source.faults link.old) (L.Source.faults link.new) }
    ensures write_fault { result.1 ≡ LinkEnd.WriteFault
        → HasRisen (L.Sink.faults link.old) (L.Sink.faults link.new) }
{
    let mut caller = Caller::new(rt, turn, pass);
    let end = serve(
        rt,
        alloc,
        &mut caller,
        &mut NoBoard,
        copier,
        &PageAlone(false),
        link,
    );
    (caller.into_pass(), end)
}

/// The same, where what starts something is reviewed first. Both passes come back with the entries
/// of the requests.
pub fn serve_reviewed<A: Admin, K: Copier, L: Link, R: Threads + Wait + Sync>(
    rt: &R,
    alloc: Global,
    turn: &Turn<Book<A>>,
    pass: Pass<Book<A>>,
    board: &Turn<Board>,
    board_pass: Pass<Board>,
    copier: &mut K,
    link: &mut L,
) -> (Pass<Book<A>>, Pass<Board>, LinkEnd)
    // The passes are those of the turns.
    requires own { Belongs turn.now pass }
    requires board_own { BelongsToBoard board.now board_pass }
    // They are still, and have grown.
    ensures own { Belongs turn.now result.0 }
    ensures grown { HasGrown pass result.0 }
    ensures board_own { BelongsToBoard board.now result.1 }
    ensures board_grown { HasGrown board_pass result.1 }
    // The requests were answered, each by the reply to its own entries in the book and on the board.
    ensures served { HasServed (paged false) (known_by_pass turn.now.start.file pass)
        (known_by_pass turn.now.start.file result.0) (board_seen true board_pass)
        (board_seen true result.1) (copier_of K.copies K.faults copier.old)
        (copier_of K.copies K.faults copier.new) (L.left link.old) (L.written link.old)
        (L.written link.new) result.2 }
    // Counts never fall, and a fault of the link comes from one that rose.
    ensures source { L.Source.faults link.old ≤ L.Source.faults link.new }
    ensures sink { L.Sink.faults link.old ≤ L.Sink.faults link.new }
    ensures read_fault { result.2 ≡ LinkEnd.ReadFault
        → HasRisen (L.Source.faults link.old) (L.Source.faults link.new) }
    ensures write_fault { result.2 ≡ LinkEnd.WriteFault
        → HasRisen (L.Sink.faults link.old) (L.Sink.faults link.new) }
{
    let mut caller = Caller::new(rt, turn, pass);
    let mut board = BoardCaller::new(rt, board, board_pass, true);
    let end = serve(
        rt,
        alloc,
        &mut caller,
        &mut board,
        copier,
        &PageAlone(false),
        link,
    );
    (caller.into_pass(), board.into_pass(), end)
}
