// What a run works with outside its book, and what it leaves.
ghost use Rattle.std.specs.Prelude.{◌≡◌, length};
ghost use Rattle.cc_program.specs.Outside.{idle};

use cc_base::Link;
use cluster_gate::{Admin, Copier};
use control_core::Book;
use live_service::{Lane, Served};
use mover_rounds::DrainEnd;
use mover_workers::LoopEnd;
use net_links::Listener;
use review_board::Board;
use std::alloc::Global;
use std::marker::Model;

/// What a run works with outside its book: copiers, a console, and a listener.
#[derive(Drop)]
pub struct Outside<K: Copier, L: Link, N: Listener> {
    /// Those of the movers, then those of the links, and then that of the console and of the drain.
    pub copiers: Vec<K>,
    pub console: L,
    pub listener: N,
}

impl<K: Copier, L: Link, N: Listener> Model for Outside<K, L, N> {
    ghost use Rattle.std.specs.Prelude.{map};
    ghost use Rattle.cc_program.specs.Outside.{OutsideView};
    ghost use Rattle.live_service.specs.Views.{link_of, net_of};
    ghost use Rattle.mover_rounds.specs.Made.{copier_of};

    ghost Value = { OutsideView };

    ghost view = { λ o. record {
      copiers = map (copier_of K.copies K.faults) o.copiers.items;
      console = link_of L.left L.written L.Source.faults L.Sink.faults o.console;
      net = net_of N.faults N.accepted N.heard o.listener;
    } };
}

impl<K: Copier, L: Link, N: Listener> Outside<K, L, N> {
    /// How many copiers there are.
    pub fn count(&self) -> usize
        ensures { result ≡ length self.now.copiers }
    {
        self.copiers.len()
    }
}

/// What a run leaves. Without threads there are no book, no admin, no board and no copiers, and
/// nobody worked.
#[derive(Drop)]
pub struct Left<A: Admin, K: Copier, L: Link, N: Listener>
where
    N::Conn: Drop,
{
    /// None where none was begun.
    pub book: Option<Book<A>>,
    /// The admin, where no book was begun.
    pub admin: Option<A>,
    /// The board on which requests were reviewed, where they were.
    pub board: Option<Board>,
    /// How the drain ended, where there was one.
    pub drain: Option<DrainEnd>,
    pub outside: Outside<K, L, N>,
    /// The links that were accepted, in their order, where so many were asked for.
    pub links: Vec<Served<N::Conn>>,
    /// The threads that served any number of links.
    pub lanes: Vec<Lane<N>>,
    /// How the loops of movers ended, in the order of their copiers.
    pub movers: Vec<LoopEnd>,
    /// How those of planners ended.
    pub planners: Vec<LoopEnd>,
}

impl<A: Admin, K: Copier, L: Link, N: Listener> Model for Left<A, K, L, N>
where
    N::Conn: Drop,
{
    ghost use Rattle.std.specs.Prelude.{map};
    ghost use Rattle.cc_program.specs.Outside.{LeftView};
    ghost use Rattle.live_service.specs.Views.{lane_of, link_of, net_of};

    ghost Value = { LeftView A };

    ghost view = { λ l. record {
      book = l.book;
      admin = l.admin;
      board = l.board;
      drain = l.drain;
      outside = l.outside;
      links = map (λ c. record {
        link = link_of N.Conn.left N.Conn.written N.Conn.Source.faults N.Conn.Sink.faults c.link;
        end = c.end;
      }) l.links.items;
      lanes = map (λ x. lane_of (net_of N.faults N.accepted N.heard) x.listener x.failed x.wants)
          l.lanes.items;
      movers = l.movers.items;
      planners = l.planners.items;
    } };
}

impl<A: Admin, K: Copier, L: Link, N: Listener> Left<A, K, L, N>
where
    N::Conn: Drop,
{
    /// Where no book was begun: what was lent, with the admin where there is one.
    pub(crate) fn idle(
        alloc: Global,
        admin: Option<A>,
        outside: Outside<K, L, N>,
    ) -> Left<A, K, L, N>
        ensures { result ≡ idle admin outside }
    {
        Left {
            book: None,
            admin,
            board: None,
            drain: None,
            outside,
            links: Vec::new(alloc),
            lanes: Vec::new(alloc),
            movers: Vec::new(alloc),
            planners: Vec::new(alloc),
        }
    }
}

/// How a run ended: with this status.
#[derive(Drop)]
pub struct Ended<A: Admin, K: Copier, L: Link, N: Listener>
where
    N::Conn: Drop,
{
    pub status: u8,
    pub left: Left<A, K, L, N>,
}
