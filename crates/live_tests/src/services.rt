// Whole services, each over a book of its own.
ghost use Rattle.std.specs.Prelude.{◌≡◌, ◌≤◌, ◌<◌, ◌+◌, option_map, vec_len};
ghost use Rattle.live_service.specs.Asked.{IsReady, links_of};

use crate::books::{TestBook, TestCluster, book_of, let_go, lists_of};
use crate::links::{TestCopier, TestLink, TestListener};
use cc_base::Link;
use cluster_gate::Copier;
use live_service::{
    Crew, Front, FrontEnd, Live, Of, Parties, Service, Serving, Team, run_live_service,
};
use mover_rounds::DrainEnd;
use mover_workers::LoopEnd;
use net_links::Listener;
use std::alloc::Global;
use std::process::Abort;
use std::sync::Wait;
use std::thread::Threads;

// A test has so many movers, planners and links at most.
const MOST: u32 = 9;

/// A cluster file, the calls of the cluster that fail, and who works over it: so many movers and
/// planners, and so many links in place of the console.
#[derive(Clone, Copy)]
pub struct Setting {
    pub text: &'static str,
    pub failing: &'static [u64],
    pub movers: u32,
    pub planners: u32,
    pub links: Option<u32>,
}

/// What a service works with outside its book: the copiers of movers and of links, and that of the
/// console and of the drain.
#[derive(Drop)]
pub struct Outside<K, L, N> {
    pub copiers: Vec<K>,
    pub copier: K,
    pub console: L,
    pub listener: N,
}

/// What a book leaves at its end.
#[derive(Drop)]
pub struct BookEnd {
    /// The lists of its cluster.
    pub lists: Vec<Vec<u32>>,
    /// How many events it took.
    pub entries: u64,
}

/// What came of a service.
#[derive(Drop)]
pub struct Over<P: Parties> {
    pub front: Front<P>,
    pub movers: Vec<LoopEnd>,
    pub planners: Vec<LoopEnd>,
    pub end: FrontEnd,
    pub drain: DrainEnd,
    pub book: BookEnd,
}

/// What came of one whose cluster, copiers, links and listener fail as told.
pub type TestOver = Over<Of<TestCluster, TestCopier, TestLink, TestListener>>;

// So many links at any address, if links are asked for.
fn serving_of<R: Abort>(rt: &R, alloc: Global, links: Option<u32>) -> Option<Serving>
    ensures { option_map (λ s. s.links) result ≡ links }
{
    match links {
        Some(links) => {
            let address = String::from_str(alloc, "127.0.0.1:0").expect(rt, "memory");
            Some(Serving {
                address,
                links,
                forever: false,
                page: false,
            })
        }
        None => None,
    }
}

fn links_in(serving: &Option<Serving>) -> u32
    ensures { result ≡ links_of serving.now }
{
    match serving {
        Some(serving) => serving.links,
        None => 0,
    }
}

// The outside as a team, with room for what so many movers, planners and links bring back.
fn team_of<K: Copier + Send + Drop, L: Link + Drop, N: Listener + Send + Drop, R: Abort>(
    rt: &R,
    alloc: Global,
    outside: Outside<K, L, N>,
    movers: u32,
    planners: u32,
    links: u32,
) -> Team<Of<TestCluster, K, L, N>>
where
    N::Conn: Send + Drop,
    requires copiers { movers + links ≤ vec_len outside.copiers }
    requires few { planners + (movers + links) < 1048576 }
    ensures ready { IsReady result 1048576 1048576 movers planners links }
{
    let Outside {
        copiers,
        copier,
        console,
        listener,
    } = outside;
    let served = Vec::with_capacity(alloc, links as usize).expect(rt, "memory");
    let lanes = Vec::with_capacity(alloc, links as usize).expect(rt, "memory");
    let front = Front {
        copier,
        console,
        service: Service {
            listener,
            copiers,
            served,
            lanes,
        },
    };
    Team {
        front,
        movers: Vec::with_capacity(alloc, movers as usize).expect(rt, "memory"),
        planners: Vec::with_capacity(alloc, planners as usize).expect(rt, "memory"),
    }
}

/// Runs a service to its end.
pub fn run<
    K: Copier + Send + Drop,
    L: Link + Drop,
    N: Listener + Send + Drop,
    R: Threads + Wait + Abort + Sync,
>(
    rt: &R,
    alloc: Global,
    setting: Setting,
    outside: Outside<K, L, N>,
) -> Over<Of<TestCluster, K, L, N>>
where
    N::Conn: Send + Drop,
{
    let Setting {
        text,
        failing,
        movers,
        planners,
        links,
    } = setting;
    let serving = serving_of(rt, alloc, links);
    let links = links_in(&serving);
    assert!(rt; movers <= MOST && planners <= MOST && links <= MOST);
    assert!(rt; (movers + links) as usize <= outside.copiers.len());
    let team = team_of(rt, alloc, outside, movers, planners, links);
    let book = book_of(rt, alloc, text, failing);
    let crew = Crew {
        movers,
        planners,
        serving,
        reviews: false,
    };
    match run_live_service(rt, alloc, book, team, crew) {
        Ok(live) => ended(rt, alloc, live),
        Err(_) => panic!(rt; "no turn"),
    }
}

// What a book leaves at its end, which is let go.
fn end_of<R: Abort>(rt: &R, alloc: Global, book: TestBook) -> BookEnd {
    let lists = lists_of(rt, alloc, &book);
    let entries = book.entries();
    let_go(book);
    BookEnd { lists, entries }
}

// What came of a service that is over.
fn ended<P: Parties<Gate = TestCluster>, R: Abort>(
    rt: &R,
    alloc: Global,
    live: Live<P>,
) -> Over<P> {
    let Live {
        book,
        team,
        end,
        drain,
        ..
    } = live;
    let Team {
        front,
        movers,
        planners,
    } = team;
    Over {
        front,
        movers,
        planners,
        end,
        drain,
        book: end_of(rt, alloc, book),
    }
}
