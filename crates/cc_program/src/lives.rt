// Runs with threads: a session beside movers and planners, and the service of links.
ghost use Rattle.std.specs.Prelude.{◌≡◌, ◌≤◌, ◌<◌, ◌+◌, ◌||◌, ◌⊎◌, ℕ, List, [], length, map, Some, None, string_bytes, IfOk, IfErr, IfSome, IsSome};
ghost use Rattle.std.specs.List.{insert, list_any};
ghost use Rattle.cluster_json.specs.Ranges.{IsFile};
ghost use Rattle.cluster_json.specs.Views.{file_seen};
ghost use Rattle.control_core.specs.Books.{opened};
ghost use Rattle.quiet_commands.specs.Ends.{IsTold, lines_of, status_of};
ghost use Rattle.command_words.specs.Meaning.{workers_view};
ghost use Rattle.cc_program.specs.Lives.{IsLeft, IsOver, IsTeamOf, IsUnasked, Leaves, board_left, copiers_before, crew_with, ended_live, gate, is_loop_want, live_command, live_view, or_want, shelf};
ghost use Rattle.live_service.specs.Links.{out_of_memory};
ghost use Rattle.cc_program.specs.Outside.{OutsideView};
ghost use Rattle.quiet_commands.specs.declared.ends.End.{End};
ghost use Rattle.live_service.specs.Asked.{IsReady, crew_view, links_of, serving_view};

use crate::outside::{Ended, Left, Outside};
use cc_base::{Files, Link, Sink};
use cluster_gate::{Admin, Copier, InstallFault};
use cluster_json::ClusterFile;
use command_words::{Command, WordsFault, Workers, read_words};
use control_core::Book;
use live_service::{
    Crew, Front, FrontEnd, Lane, Live, Of, Served, Service, Serving, Team, Unshared, out_of_memory,
    run_live_service,
};
use mover_rounds::DrainEnd;
use mover_workers::LoopEnd;
use net_links::Listener;
use quiet_commands::{End, LoadFault, conclude, drained_end, ended_by, load_file};
use rest_session::SessionEnd;
use review_board::Board;
use std::alloc::Global;
use std::sync::Wait;
use std::thread::Threads;

/// A run over the cluster of a file.
#[derive(Drop)]
pub struct LiveRequest {
    pub file: String,
    pub crew: Crew,
}

// These movers and planners, and these links.
fn crew_of(workers: Workers, serving: Option<Serving>, reviews: bool) -> Crew
    ensures { crew_view result ≡ crew_with (workers_view workers) (serving_view serving) reviews }
{
    Crew {
        movers: workers.movers,
        planners: workers.planners,
        serving,
        reviews,
    }
}

// What the words ask of a run with threads.
fn read_live(alloc: Global, words: &[String]) -> Result<LiveRequest, WordsFault>
    ensures ok { IfOk result (λ r. live_command (map string_bytes words.now) ≡ Some (live_view r)) }
    ensures usage { IfErr result (λ e. e ≡ WordsFault.Usage
        → live_command (map string_bytes words.now) ≡ None) }
{
    match read_words(alloc, words)? {
        Command::Session {
            file,
            workers,
            review,
        } => Ok(LiveRequest {
            file,
            crew: crew_of(workers, None, review),
        }),
        Command::Serve {
            file,
            workers,
            listen,
            links,
            review,
            forever,
            page,
        } => {
            let serving = Serving {
                address: listen,
                links,
                forever,
                page,
            };
            Ok(LiveRequest {
                file,
                crew: crew_of(workers, Some(serving), review),
            })
        }
        _ => Err(WordsFault::Usage),
    }
}

// How many links are asked for.
fn links_in(serving: &Option<Serving>) -> u32
    ensures { result ≡ links_of serving.now }
{
    match serving {
        Some(serving) => serving.links,
        None => 0,
    }
}

// How many copiers stand before that of the console.
fn copiers_before(crew: &Crew) -> usize
    requires { crew.now.movers + links_of crew.now.serving < 1048576 }
    ensures { result ≡ crew.now.movers + links_of crew.now.serving }
{
    (crew.movers + links_in(&crew.serving)) as usize
}

// The same, where there are copiers enough beside that of the console.
fn asked_live(alloc: Global, words: &[String], copiers: usize) -> Result<LiveRequest, WordsFault>
    ensures ok { IfOk result (λ r. (live_command (map string_bytes words.now) ≡ Some (live_view r))
        × (copiers_before (crew_view r.crew) < copiers)) }
    ensures usage { IfErr result (λ e. e ≡ WordsFault.Usage
        → IsUnasked (map string_bytes words.now) copiers) }
{
    let request = read_live(alloc, words)?;
    if copiers <= copiers_before(&request.crew) {
        return Err(WordsFault::Usage);
    }
    Ok(request)
}

// Whether there was no memory to go on with a loop.
fn is_loop_want(end: LoopEnd) -> bool
    ensures { result ≡ is_loop_want end }
{
    matches!(end, LoopEnd::Memory)
}

// Whether there was none for one of these links.
fn any_link_want<C>(links: &[Served<C>]) -> bool
    ensures { result ≡ list_any (λ served. out_of_memory served.end) links.now }
{
    links.iter().any(|served| out_of_memory(served.end))
}

// Nor for a link of one of these threads.
fn any_lane_want<N>(lanes: &[Lane<N>]) -> bool
    ensures { result ≡ list_any (λ lane. lane.wants) lanes.now }
{
    lanes.iter().any(|lane| lane.wants)
}

// Nor for one of these loops.
fn any_loop_want(loops: &[LoopEnd]) -> bool
    ensures { result ≡ list_any is_loop_want loops.now }
{
    loops.iter().any(|end| is_loop_want(*end))
}

// Whether there was none for one of all these.
fn any_want<C, N>(
    links: &[Served<C>],
    lanes: &[Lane<N>],
    movers: &[LoopEnd],
    planners: &[LoopEnd],
) -> bool
    ensures { result
        ≡ ((list_any (λ served. out_of_memory served.end) links.now
        || list_any (λ lane. lane.wants) lanes.now)
        || (list_any is_loop_want movers.now || list_any is_loop_want planners.now)) }
{
    (any_link_want(links) || any_lane_want(lanes))
        || (any_loop_want(movers) || any_loop_want(planners))
}

// How the drain ended, unless there was no memory before.
fn or_want(want: bool, drain: DrainEnd) -> DrainEnd
    ensures { result ≡ or_want want drain }
{
    if want { DrainEnd::Memory } else { drain }
}

// How a run ends whose front and drain ended so, where there was memory to go on with each link and
// loop, or wasn't.
fn ended_live(front: FrontEnd, want: bool, drain: DrainEnd) -> End
    ensures { result ≡ ended_live front want drain }
{
    let drain = or_want(want, drain);
    match front {
        FrontEnd::Console(link) => ended_by(SessionEnd { link, drain }),
        FrontEnd::Accepted | FrontEnd::ShutDown => drained_end(drain),
        FrontEnd::ListenerFault => End::ListenerFault,
    }
}

// The outside as a team. The copier behind those of the movers and of the links is that of the
// console. Out of memory for what the team brings back, the outside comes back.
fn team_of<A: Admin + Send, K: Copier + Send + Drop, L: Link + Drop, N: Listener + Send + Drop>(
    alloc: Global,
    outside: Outside<K, L, N>,
    crew: &Crew,
) -> Result<Team<Of<A, K, L, N>>, Outside<K, L, N>>
where
    N::Conn: Send + Drop,
    requires enough { copiers_before (crew_view crew.now) < length outside.copiers }
    requires few { crew.now.planners + copiers_before (crew_view crew.now) < 1048576 }
    ensures team { IfOk result (IsTeamOf (crew_view crew.now) outside) }
    ensures ready { IfOk result
        (λ t. IsReady t 1048576 1048576 crew.now.movers crew.now.planners
        (links_of crew.now.serving)) }
    ensures room { IfOk result
        (λ t. length t.front.service.copiers < t.front.service.room) }
    ensures handed_back { IfErr result (λ o. o ≡ outside) }
{
    let Ok(served) = Vec::with_capacity(alloc, links_in(&crew.serving) as usize) else {
        return Err(outside);
    };
    let Ok(lanes) = Vec::with_capacity(alloc, links_in(&crew.serving) as usize) else {
        return Err(outside);
    };
    let Ok(movers) = Vec::with_capacity(alloc, crew.movers as usize) else {
        return Err(outside);
    };
    let Ok(planners) = Vec::with_capacity(alloc, crew.planners as usize) else {
        return Err(outside);
    };
    let Outside {
        mut copiers,
        console,
        listener,
    } = outside;
    let copier = copiers.remove(copiers_before(crew));
    let service = Service {
        listener,
        copiers,
        served,
        lanes,
    };
    Ok(Team {
        front: Front {
            copier,
            console,
            service,
        },
        movers,
        planners,
    })
}

// What a team brought back. The copier of the console goes back to its place.
fn left_of<A: Admin + Send, K: Copier + Send + Drop, L: Link + Drop, N: Listener + Send + Drop>(
    at: usize,
    book: Option<Book<A>>,
    admin: Option<A>,
    board: Option<Board>,
    drain: Option<DrainEnd>,
    team: Team<Of<A, K, L, N>>,
) -> Left<A, K, L, N>
where
    N::Conn: Send + Drop,
    requires at { at ≤ length team.front.service.copiers }
    requires room { length team.front.service.copiers < team.front.service.room }
    ensures { result
        ≡ record {
          book = book;
          admin = admin;
          board = board;
          drain = drain;
          outside = record {
            copiers = insert team.front.service.copiers at team.front.copier;
            console = team.front.console;
            net = team.front.service.net;
          };
          links = team.front.service.served;
          lanes = team.front.service.lanes;
          movers = team.movers;
          planners = team.planners;
        } }
{
    let Team {
        front,
        movers,
        planners,
    } = team;
    let Front {
        copier,
        console,
        service,
    } = front;
    let Service {
        listener,
        mut copiers,
        served,
        lanes,
    } = service;
    let Ok(()) = copiers.insert(at, copier) else {
        unreachable!()
    };
    Left {
        book,
        admin,
        board,
        drain,
        outside: Outside {
            copiers,
            console,
            listener,
        },
        links: served,
        lanes,
        movers,
        planners,
    }
}

// The board, where requests were reviewed.
fn board_left(reviews: bool, board: Board) -> Option<Board>
    ensures { result ≡ board_left reviews board }
{
    if reviews { Some(board) } else { None }
}

// Runs a service over a book that was just begun.
fn live<
    A: Admin + Send,
    K: Copier + Send + Drop,
    L: Link + Drop,
    N: Listener + Send + Drop,
    R: Threads + Wait + Sync,
>(
    rt: &R,
    alloc: Global,
    book: Book<A>,
    team: Team<Of<A, K, L, N>>,
    crew: Crew,
) -> (End, Left<A, K, L, N>)
where
    N::Conn: Send + Drop,
    // The book is as it was opened.
    requires opened { book ≡ opened book.file book.admin }
    // A copier and a part for each mover, planner and link, and room for what they bring back.
    requires ready { IsReady team 1048576 1048576 crew.movers crew.planners
        (links_of crew.serving) }
    requires room { length team.front.service.copiers < team.front.service.room }
    // The book comes back, behind what the session did.
    ensures begun { IsSome result.1.book }
    ensures over { (outside : OutsideView) → IsTeamOf (crew_view crew) outside team
        → IfSome result.1.book
        (λ c. IsOver (gate A.faults A.told) (A.faults book.admin) book.file (crew_view crew)
        outside result.1 c result.0) }
{
    let at = copiers_before(&crew);
    let reviews = crew.reviews;
    let _lists = book.entries();
    match run_live_service(rt, alloc, book, team, crew) {
        Ok(live) => {
            let Live {
                book,
                board,
                team,
                end,
                drain,
            } = live;
            let board = board_left(reviews, board);
            let left = left_of(at, Some(book), None, board, Some(drain), team);
            let want = any_want(&left.links, &left.lanes, &left.movers, &left.planners);
            (ended_live(end, want, drain), left)
        }
        Err(Unshared { book, team }) => {
            let left = left_of(at, Some(book), None, None, None, team);
            (End::Memory, left)
        }
    }
}

// Begins a book of a file that was loaded, and runs a service over it. Room for what comes back is
// taken first.
fn begin<
    A: Admin + Send,
    K: Copier + Send + Drop,
    L: Link + Drop,
    N: Listener + Send + Drop,
    R: Threads + Wait + Sync,
>(
    rt: &R,
    alloc: Global,
    file: ClusterFile,
    admin: A,
    outside: Outside<K, L, N>,
    crew: Crew,
) -> (End, Left<A, K, L, N>)
where
    N::Conn: Send + Drop,
    requires file { IsFile file }
    requires enough { copiers_before (crew_view crew) < length outside.copiers }
    requires few { crew.planners + copiers_before (crew_view crew) < 1048576 }
    ensures left { IsLeft (gate A.faults A.told) (file_seen file) (crew_view crew) outside admin
        result.1 result.0 }
{
    let team = match team_of(alloc, outside, &crew) {
        Ok(team) => team,
        Err(outside) => return (End::Memory, Left::idle(alloc, Some(admin), outside)),
    };
    match Book::begin(alloc, file, admin) {
        Ok(book) => live(rt, alloc, book, team, crew),
        Err((InstallFault::Failed, admin)) => {
            let left = left_of(copiers_before(&crew), None, Some(admin), None, None, team);
            (End::NotDrained, left)
        }
        Err((InstallFault::Memory, admin)) => {
            let left = left_of(copiers_before(&crew), None, Some(admin), None, None, team);
            (End::Memory, left)
        }
    }
}

// Runs the words, where the files and the copiers suffice.
fn run<
    F: Files,
    A: Admin + Send,
    K: Copier + Send + Drop,
    L: Link + Drop,
    N: Listener + Send + Drop,
    R: Threads + Wait + Sync,
>(
    rt: &R,
    alloc: Global,
    words: &[String],
    files: &mut F,
    admin: A,
    outside: Outside<K, L, N>,
) -> (End, Left<A, K, L, N>)
where
    N::Conn: Send + Drop,
    ensures files { F.faults files.old ≤ F.faults files.new }
    ensures leaves { Leaves (gate A.faults A.told) (map string_bytes words.now)
        (shelf F.contents F.faults F.log files.old files.new)
        outside admin result.1 result.0 }
{
    let LiveRequest { file, crew } = match asked_live(alloc, words, outside.count()) {
        Ok(request) => request,
        Err(WordsFault::Usage) => return (End::Usage, Left::idle(alloc, Some(admin), outside)),
        Err(WordsFault::Memory) => return (End::Memory, Left::idle(alloc, Some(admin), outside)),
    };
    match load_file(alloc, files, &file) {
        Ok(file) => begin(rt, alloc, file, admin, outside, crew),
        Err(LoadFault::Refused(line)) => (
            End::Refused(line),
            Left::idle(alloc, Some(admin), outside),
        ),
        Err(LoadFault::Failed) => (End::FileFault, Left::idle(alloc, Some(admin), outside)),
        Err(LoadFault::Memory) => (End::Memory, Left::idle(alloc, Some(admin), outside)),
    }
}

/// Runs `session` beside movers and planners, or `serve`, over a book that requests, movers and
/// planners share, and answers with its status: 0 where it is done, 2 for words that are no such
/// command or ask for more movers and links than there are copiers beside that of the console, 3
/// for a file that is refused, 5 for a fault of the files, 6 and 7 for a fault of the input and of
/// the output, 8 where the admin's fault left work unfinished, 9 out of memory, 10 for an input
/// that ended inside a request or couldn't be framed, and 12 for a fault of the listener. `serve`
/// neither reads nor writes the console, and a link that ends by a fault changes no status. One
/// line on any end but 0 goes to `err`, and `not drained` behind it where that is another one and
/// the drain failed. What each status comes of is in [`every_live_run`](crate::every_live_run).
pub fn run_live<
    F: Files,
    O: Sink,
    A: Admin + Send,
    K: Copier + Send + Drop,
    L: Link + Drop,
    N: Listener + Send + Drop,
    R: Threads + Wait + Sync,
>(
    rt: &R,
    alloc: Global,
    words: &[String],
    files: &mut F,
    err: &mut O,
    admin: A,
    outside: Outside<K, L, N>,
) -> Ended<A, K, L, N>
where
    N::Conn: Send + Drop,
    // How it ended, with what stands behind that end, and its line on the error stream, with one
    // more where the drain failed and it doesn't say so; or a prefix of that where the stream fails.
    ensures ended { (end : End) × (result.status ≡ status_of end)
        × Leaves (gate A.faults A.told) (map string_bytes words.now)
        (shelf F.contents F.faults F.log files.old files.new)
        outside admin result.left end
        × IsTold (lines_of result.left.drain end) (O.written err.old) (O.written err.new)
        (O.faults err.old) (O.faults err.new) }
    ensures files_later { F.faults files.old ≤ F.faults files.new }
    ensures err_later { O.faults err.old ≤ O.faults err.new }
{
    let (end, left) = run(rt, alloc, words, files, admin, outside);
    Ended {
        status: conclude(err, &end, left.drain),
        left,
    }
}
