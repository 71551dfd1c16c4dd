// A live service, whole.
ghost use Rattle.std.specs.Prelude.{◌≡◌, ◌≤◌, ◌⊎◌, ℕ, [], IfOk, IfErr, IfSome};
ghost use Rattle.control_core.specs.Books.{state_of};
ghost use Rattle.core_laws.specs.Alone.{IsDone};
ghost use Rattle.core_laws.specs.Events.{AreListsShown};
ghost use Rattle.core_terms.specs.History.{AreLegal};
ghost use Rattle.core_terms.specs.Sound.{IsSound};
ghost use Rattle.exec_terms.specs.Machine.{lists_now};
ghost use Rattle.live_service.specs.Asked.{IsReady, IsWhole, crew_view, links_of};
ghost use Rattle.live_service.specs.Live.{IsLive};
ghost use Rattle.live_service.specs.Shared.{WasShared};

use crate::boards::{BoardCaller, Callers};
use crate::crew::with_workers;
use crate::front::FrontEnd;
use crate::links::Serving;
use crate::parties::{Front, Parties, Team};
use control_core::Book;
use core_laws::every_history;
use mover_rounds::DrainEnd;
use mover_workers::Caller;
use rest_session::finish;
use review_board::Board;
use std::alloc::Global;
use std::sync::Wait;
use std::thread::Threads;
use turn_book::Turn;

/// What comes back where there was no memory to share the book.
#[derive(Drop)]
pub struct Unshared<P: Parties> {
    pub book: Book<P::Gate>,
    pub team: Team<P>,
}

/// Who works over a book: so many movers and planners, and the links that are served. Without links
/// the requests are those of the console.
#[derive(Drop)]
pub struct Crew {
    pub movers: u32,
    pub planners: u32,
    pub serving: Option<Serving>,
    /// What starts something is reviewed first.
    pub reviews: bool,
}

// What comes of a book that was shared.
#[derive(Drop)]
struct Shared<P: Parties> {
    book: Book<P::Gate>,
    board: Board,
    team: Team<P>,
    end: FrontEnd,
}

// Shares a book that was just opened, and an empty board, between a front, movers and planners.
fn share<P: Parties, R: Threads + Wait + Sync>(
    rt: &R,
    alloc: Global,
    book: Book<P::Gate>,
    team: Team<P>,
    crew: Crew,
) -> Result<Shared<P>, Unshared<P>>
    // Nothing was done before, and there is a copier, a part and a place for each.
    requires opened { book.journal ≡ [] }
    requires ready { IsReady team 1048576 1048576 crew.movers crew.planners
        (links_of crew.serving) }
    // What was done, and the copiers come back.
    ensures shared { IfOk result (λ r. WasShared P.Gate.faults (crew_view crew) r.board book r.book
        team r.team r.end) }
    ensures back { IfOk result (λ r. IsWhole team.front.service r.team.front.service) }
    // Out of memory, all is handed back.
    ensures handed_back { IfErr result (λ e. (e.book ≡ book) × (e.team ≡ team)) }
{
    let Ok((board_turn, board_pass)) = Turn::new(alloc, Board::new(alloc)) else {
        return Err(Unshared { book, team });
    };
    match Turn::new(alloc, book) {
        Ok((turn, pass)) => {
            let callers = Callers {
                book: Caller::new(rt, &turn, pass),
                board: BoardCaller::new(rt, &board_turn, board_pass, crew.reviews),
            };
            let (callers, team, end) = with_workers(
                rt,
                alloc,
                callers,
                team,
                crew.movers,
                crew.planners,
                crew.serving,
            );
            let (caller, board) = callers.into_parts();
            let pass = caller.into_pass();
            let board_pass = board.into_pass();
            Ok(Shared {
                book: turn.close(pass),
                board: board_turn.close(board_pass),
                team,
                end,
            })
        }
        Err((_, book)) => {
            drop(board_turn.close(board_pass));
            Err(Unshared { book, team })
        }
    }
}

/// A live service that is over.
#[derive(Drop)]
pub struct Live<P: Parties> {
    pub book: Book<P::Gate>,
    /// The board on which requests were reviewed.
    pub board: Board,
    /// The front, and how movers and planners ended.
    pub team: Team<P>,
    /// How the front ended.
    pub end: FrontEnd,
    /// How the drain behind it ended.
    pub drain: DrainEnd,
}

/// Answers the requests of the console, or those of the links that are asked for, over a book that
/// was just opened, while movers and planners run beside them; where they are reviewed, over an
/// empty board too. The movers have the first of the
/// copiers and the links the next, and all come back in their order; the console has its own, which
/// the drain has too. Then asks Close, waits for the workers to end, settles the book, and makes
/// rounds until no task and no job is unfinished.
///
/// # Errors
///
/// Out of memory before anything was done. All comes back as it was.
pub fn run_live_service<P: Parties, R: Threads + Wait + Sync>(
    rt: &R,
    alloc: Global,
    book: Book<P::Gate>,
    team: Team<P>,
    crew: Crew,
) -> Result<Live<P>, Unshared<P>>
    // Nothing was done before, and there is a copier, a part and a place for each.
    requires opened { book.journal ≡ [] }
    requires ready { IsReady team 1048576 1048576 crew.movers crew.planners
        (links_of crew.serving) }
    // What was done, by whom, and with which copies and replies.
    ensures live { IfOk result (λ r. IsLive P.Gate.faults (crew_view crew) r.board book r.book
        team r.team r.end r.drain) }
    // The journal is a legal history of the book's file, whose lists the admin has.
    ensures file { IfOk result (λ r. r.book.file ≡ book.file) }
    ensures legal { IfOk result (λ r. AreLegal r.book.journal) }
    ensures lists { IfOk result (λ r. IfSome (P.Gate.told r.book.admin)
        (λ lists. lists ≡ lists_now (state_of r.book).desk.exec)) }
    // So its state is sound, and each list is the old one, the new one or, in flight, both.
    ensures sound { IfOk result (λ r. IsSound r.book.file (state_of r.book).desk) }
    ensures shown { IfOk result (λ r. AreListsShown (state_of r.book).desk.exec) }
    // How it ended.
    ensures drained { IfOk result
        (λ r. r.drain ≡ DrainEnd.Drained → IsDone (state_of r.book).desk) }
    ensures late { IfOk result
        (λ r. (number : ℕ) → r.drain ≡ DrainEnd.AdminFault number
        → (1 ≤ r.book.late) ⊎ (18446744073709551615 ≤ r.book.failures)) }
    // Copiers come back; and without memory to share the book, all as it was.
    ensures back { IfOk result (λ r. IsWhole team.front.service r.team.front.service) }
    ensures handed_back { IfErr result (λ e. (e.book ≡ book) × (e.team ≡ team)) }
{
    every_history();
    let Shared {
        mut book,
        board,
        team,
        end,
    } = share(rt, alloc, book, team, crew)?;
    book.settle();
    let Team {
        front,
        movers,
        planners,
    } = team;
    let Front {
        mut copier,
        console,
        service,
    } = front;
    let drain = finish(rt, alloc, &mut book, &mut copier);
    let _legal = book.entries();
    let _few = book.failures();
    let front = Front {
        copier,
        console,
        service,
    };
    Ok(Live {
        book,
        board,
        team: Team {
            front,
            movers,
            planners,
        },
        end,
        drain,
    })
}
