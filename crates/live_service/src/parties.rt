// Who takes part in a live service.
ghost use Rattle.std.specs.Prelude.{◌≡◌, ◌∷◌, ◌<◌, ◌≤◌, length};
ghost use Rattle.mover_rounds.specs.Made.{copier_of};

use crate::service::Service;
use cc_base::Link;
use cluster_gate::{Admin, Copier};
use mover_workers::LoopEnd;
use net_links::{Connection, Listener};
use std::marker::{Model, PhantomData};

/// The types of those who take part: one name for the bounds of all.
pub trait Parties {
    /// The admin of the book.
    type Gate: Admin + Send;
    /// A mover's copier, a link's, and that of the console.
    type Worker: Copier + Send + Drop;

    type Console: Link + Drop;
    /// What the listener accepts.
    type Conn: Connection + Send + Drop;

    type Net: Listener<Conn = Self::Conn> + Send + Drop;
}

/// The parties of these types. No value of it is made.
pub struct Of<A, K, L, N> {
    of: PhantomData<(A, K, L, N)>,
}

impl<A: Admin + Send, K: Copier + Send + Drop, L: Link + Drop, N: Listener + Send + Drop> Parties
    for Of<A, K, L, N>
where
    N::Conn: Send + Drop,
{
    type Gate = A;

    type Worker = K;

    type Console = L;

    type Conn = N::Conn;

    type Net = N;
}

/// A console with its copier, which the drain has too, and the service of a listener. One of both
/// answers requests.
#[derive(Drop)]
pub struct Front<P: Parties> {
    pub copier: P::Worker,
    pub console: P::Console,
    pub service: Service<P::Worker, P::Net>,
}

impl<P: Parties> Model for Front<P> {
    ghost use Rattle.mover_rounds.specs.Made.{copier_of};
    ghost use Rattle.live_service.specs.Views.{FrontView, link_of};

    ghost Value = { FrontView };

    ghost view = { λ f. record {
      copier = copier_of P.Worker.copies P.Worker.faults f.copier;
      console = link_of P.Console.left P.Console.written P.Console.Source.faults
          P.Console.Sink.faults f.console;
      service = f.service;
    } };
}

/// A front, and how the loops of the movers and planners beside it ended, in their order.
#[derive(Drop)]
pub struct Team<P: Parties> {
    pub front: Front<P>,
    pub movers: Vec<LoopEnd>,
    pub planners: Vec<LoopEnd>,
}

impl<P: Parties> Model for Team<P> {
    ghost use Rattle.std.specs.Prelude.{vec_capacity};
    ghost use Rattle.live_service.specs.Views.{TeamView};

    ghost Value = { TeamView };

    ghost view = { λ t. record {
      front = t.front;
      movers = t.movers.items;
      mover_room = vec_capacity t.movers;
      planners = t.planners.items;
      planner_room = vec_capacity t.planners;
    } };
}

impl<P: Parties> Team<P> {
    /// Takes the first copier away.
    pub fn take_copier(&mut self) -> P::Worker
        requires some { 0 < length self.old.front.service.copiers }
        ensures taken { self.old.front.service.copiers
            ≡ copier_of P.Worker.copies P.Worker.faults result ∷ self.new.front.service.copiers }
        ensures rest { self.new
            ≡ record self.old {
              front = record self.old.front {
                service = record self.old.front.service {
                  copiers = self.new.front.service.copiers;
                };
              };
            } }
    {
        self.front.service.take_copier()
    }

    /// Takes back a mover's copier, before the others, and notes how its loop ended.
    pub fn note_mover(&mut self, copier: P::Worker, end: LoopEnd)
        requires room { length self.old.front.service.copiers < self.old.front.service.room }
        requires ends { length self.old.movers < self.old.mover_room }
        ensures noted { self.new
            ≡ record self.old {
              front = record self.old.front {
                service = record self.old.front.service {
                  copiers = copier_of P.Worker.copies P.Worker.faults copier
                      ∷ self.old.front.service.copiers;
                  room = self.new.front.service.room;
                };
              };
              movers = end ∷ self.old.movers;
              mover_room = self.new.mover_room;
            } }
        ensures room { self.old.front.service.room ≤ self.new.front.service.room }
        ensures ends { self.old.mover_room ≤ self.new.mover_room }
    {
        self.front.service.give_copier(copier);
        let Ok(()) = self.movers.insert(0, end) else {
            unreachable!()
        };
    }

    /// Notes how a planner's loop ended, before the others.
    pub fn note_planner(&mut self, end: LoopEnd)
        requires ends { length self.old.planners < self.old.planner_room }
        ensures noted { self.new
            ≡ record self.old {
              planners = end ∷ self.old.planners;
              planner_room = self.new.planner_room;
            } }
        ensures ends { self.old.planner_room ≤ self.new.planner_room }
    {
        let Ok(()) = self.planners.insert(0, end) else {
            unreachable!()
        };
    }
}
