// The service of a listener.
ghost use Rattle.std.specs.Prelude.{◌≡◌, ◌∷◌, ◌<◌, ◌≤◌, IfOk, OnErr, OnOk, length};
ghost use Rattle.cc_base.specs.Outside.{HasCause, with_name};
ghost use Rattle.mover_rounds.specs.Made.{HasRisenBy, copier_of};
ghost use Rattle.live_service.specs.Links.{tries};
ghost use Rattle.live_service.specs.Views.{lane_of, link_of, net_of};
ghost use Rattle.net_links.specs.Links.{IsFresh, IsUnused, with_link};

use cc_base::Failed;
use cluster_gate::Copier;
use net_links::Listener;
use rest_session::LinkEnd;
use std::marker::Model;

// So many calls that accept may fail one after another.
const TRIES: u32 = 16;

/// A link that was served.
#[derive(Drop)]
pub struct Served<C> {
    pub link: C,
    pub end: LinkEnd,
}

/// A thread that served links, one after another.
#[derive(Drop)]
pub struct Lane<N> {
    /// Its handle of the listener.
    pub listener: N,
    /// Each of 16 calls in a row that accept failed.
    pub failed: bool,
    /// Out of memory ended one of its links.
    pub wants: bool,
}

/// A listener with the copiers of its links, one each, or one for each thread that serves links; the
/// links that were served, in the order in which they were accepted; and those threads.
#[derive(Drop)]
pub struct Service<K: Copier, N: Listener>
where
    N::Conn: Drop,
{
    pub listener: N,
    pub copiers: Vec<K>,
    pub served: Vec<Served<N::Conn>>,
    pub lanes: Vec<Lane<N>>,
}

/// The next link of a listener, which is asked for it up to 16 times.
///
/// # Errors
///
/// `Failed` where each of the calls failed. No link is accepted then.
pub fn accept_from<N: Listener>(listener: &mut N) -> Result<N::Conn, Failed>
    ensures later { N.faults listener.old ≤ N.faults listener.new }
    ensures given_up { OnErr result
        (HasRisenBy tries (N.faults listener.old) (N.faults listener.new)) }
    ensures heard { N.heard listener.new ≡ N.heard listener.old }
    ensures accepted { IfOk result
        (λ link. N.accepted listener.new
        ≡ with_link (N.accepted listener.old)
        (record {
          source_faults = N.Conn.Source.faults link;
          sink_faults = N.Conn.Sink.faults link;
          left = N.Conn.left link;
        })) }
    ensures fresh { IfOk result (λ link. IsFresh (N.Conn.written link)) }
    ensures failed { OnErr result (N.accepted listener.new ≡ N.accepted listener.old) }
{
    let mut tried = 0;
    while tried < TRIES {
        if let Ok(link) = listener.accept() {
            return Ok(link);
        }
        tried += 1;
    }
    Err(Failed)
}

impl<K: Copier, N: Listener> Model for Service<K, N>
where
    N::Conn: Drop,
{
    ghost use Rattle.std.specs.Prelude.{map, vec_capacity};
    ghost use Rattle.mover_rounds.specs.Made.{copier_of};
    ghost use Rattle.live_service.specs.Views.{ServiceView, lane_of, link_of, net_of};

    ghost Value = { ServiceView };

    ghost view = { λ s. record {
      net = net_of N.faults N.accepted N.heard s.listener;
      copiers = map (copier_of K.copies K.faults) s.copiers.items;
      served = map (λ c. record {
        link = link_of N.Conn.left N.Conn.written N.Conn.Source.faults N.Conn.Sink.faults c.link;
        end = c.end;
      }) s.served.items;
      lanes = map (λ l. lane_of (net_of N.faults N.accepted N.heard) l.listener l.failed l.wants)
          s.lanes.items;
      room = vec_capacity s.copiers;
      places = vec_capacity s.served;
      lane_room = vec_capacity s.lanes;
    } };
}

impl<K: Copier + Drop, N: Listener + Drop> Service<K, N>
where
    N::Conn: Drop,
{
    /// Listens at an address, `HOST:PORT`.
    ///
    /// # Errors
    ///
    /// `Failed` where the call fails.
    pub fn listen(&mut self, address: &str) -> Result<(), Failed>
        ensures cause { HasCause self.old.net.faults self.new.net.faults result }
        ensures heard { OnOk result
            (self.new.net.heard ≡ with_name self.old.net.heard address.now) }
        ensures unheard { OnErr result (self.new.net.heard ≡ self.old.net.heard) }
        ensures accepted { self.new.net.accepted ≡ self.old.net.accepted }
        ensures rest { self.new ≡ record self.old { net = self.new.net } }
    {
        self.listener.listen(address)
    }

    /// The next link. Nothing was written to it yet. A call of the listener that fails is made
    /// again, up to 16 times in all.
    ///
    /// # Errors
    ///
    /// `Failed` where each of the calls failed. No link is accepted then.
    pub fn accept(&mut self) -> Result<N::Conn, Failed>
        ensures later { self.old.net.faults ≤ self.new.net.faults }
        ensures given_up { OnErr result
            (HasRisenBy tries self.old.net.faults self.new.net.faults) }
        ensures heard { self.new.net.heard ≡ self.old.net.heard }
        ensures accepted { IfOk result
            (λ link. self.new.net.accepted
            ≡ with_link self.old.net.accepted
            (record {
              source_faults = N.Conn.Source.faults link;
              sink_faults = N.Conn.Sink.faults link;
              left = N.Conn.left link;
            })) }
        ensures fresh { IfOk result (λ link. IsFresh (N.Conn.written link)) }
        ensures failed { OnErr result (self.new.net.accepted ≡ self.old.net.accepted) }
        ensures rest { self.new ≡ record self.old { net = self.new.net } }
    {
        accept_from(&mut self.listener)
    }

    /// A handle of the listener for a thread of its own.
    ///
    /// # Errors
    ///
    /// `Failed` where the call fails.
    pub fn split(&mut self) -> Result<N, Failed>
        ensures cause { HasCause self.old.net.faults self.new.net.faults result }
        ensures heard { self.new.net.heard ≡ self.old.net.heard }
        ensures accepted { self.new.net.accepted ≡ self.old.net.accepted }
        ensures unused { IfOk result (λ l. IsUnused (N.faults l) (N.accepted l)) }
        ensures rest { self.new ≡ record self.old { net = self.new.net } }
    {
        self.listener.split()
    }

    /// Takes the first copier away.
    pub fn take_copier(&mut self) -> K
        requires some { 0 < length self.old.copiers }
        ensures taken { self.old.copiers
            ≡ copier_of K.copies K.faults result ∷ self.new.copiers }
        ensures rest { self.new ≡ record self.old { copiers = self.new.copiers } }
    {
        self.copiers.remove(0)
    }

    /// Puts a copier before the others.
    pub fn give_copier(&mut self, copier: K)
        requires room { length self.old.copiers < self.old.room }
        ensures given { self.new
            ≡ record self.old {
              copiers = copier_of K.copies K.faults copier ∷ self.old.copiers;
              room = self.new.room;
            } }
        ensures room { self.old.room ≤ self.new.room }
    {
        let Ok(()) = self.copiers.insert(0, copier) else {
            unreachable!()
        };
    }

    /// Puts a link that was served before the others.
    pub fn note(&mut self, served: Served<N::Conn>)
        requires places { length self.old.served < self.old.places }
        ensures noted { self.new
            ≡ record self.old {
              served = record {
                link = link_of N.Conn.left N.Conn.written N.Conn.Source.faults N.Conn.Sink.faults
                    served.link;
                end = served.end;
              } ∷ self.old.served;
              places = self.new.places;
            } }
        ensures places { self.old.places ≤ self.new.places }
    {
        let Ok(()) = self.served.insert(0, served) else {
            unreachable!()
        };
    }

    /// Puts a thread that served links before the others.
    pub fn note_lane(&mut self, lane: Lane<N>)
        requires room { length self.old.lanes < self.old.lane_room }
        ensures noted { self.new
            ≡ record self.old {
              lanes = lane_of (net_of N.faults N.accepted N.heard) lane.listener lane.failed
                  lane.wants ∷ self.old.lanes;
              lane_room = self.new.lane_room;
            } }
        ensures room { self.old.lane_room ≤ self.new.lane_room }
    {
        let Ok(()) = self.lanes.insert(0, lane) else {
            unreachable!()
        };
    }
}
