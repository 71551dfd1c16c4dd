// The trait of what accepts links.
ghost use Rattle.std.specs.Prelude.{◌≡◌, ℕ, List, Option, IfOk, OnErr, OnOk};
ghost use Rattle.cc_base.specs.Outside.{HasCause, with_name};
ghost use Rattle.net_links.specs.Links.{AcceptedLink, IsFresh, IsUnused, with_link};

use crate::connection::Connection;
use cc_base::Failed;

/// What listens at an address, and accepts the links that come there.
pub trait Listener {
    /// The links that it accepts.
    type Conn: Connection;

    /// How many calls have failed.
    ghost faults: { Self → ℕ };

    /// The links that were accepted, in order, where they are told.
    ghost accepted: { Self → Option (List AcceptedLink) };

    /// The addresses that it listened at, in order, where they are told.
    ghost heard: { Self → Option (List (List ℕ)) };

    /// Listens at an address, `HOST:PORT`. The port 0 stands for one that the system chooses.
    ///
    /// # Errors
    ///
    /// `Failed` where the call fails.
    fn listen(&mut self, address: &str) -> Result<(), Failed>
        ensures cause { HasCause (faults self.old) (faults self.new) result }
        ensures heard { OnOk result (heard self.new ≡ with_name (heard self.old) address.now) }
        ensures unheard { OnErr result (heard self.new ≡ heard self.old) }
        ensures accepted { accepted self.new ≡ accepted self.old };

    /// The next link. Nothing was written to it yet.
    ///
    /// # Errors
    ///
    /// `Failed` where the call fails. No link is accepted then.
    fn accept(&mut self) -> Result<Self::Conn, Failed>
        ensures cause { HasCause (faults self.old) (faults self.new) result }
        ensures heard { heard self.new ≡ heard self.old }
        ensures accepted { IfOk result
            (λ link. accepted self.new
            ≡ with_link (accepted self.old)
            (record {
              source_faults = Self.Conn.Source.faults link;
              sink_faults = Self.Conn.Sink.faults link;
              left = Self.Conn.left link;
            })) }
        ensures fresh { IfOk result (λ link. IsFresh (Self.Conn.written link)) }
        ensures failed { OnErr result (accepted self.new ≡ accepted self.old) };

    /// Another handle of what listens, for a thread of its own. It has accepted nothing yet, and
    /// none of its calls has failed.
    ///
    /// # Errors
    ///
    /// `Failed` where the call fails.
    fn split(&mut self) -> Result<Self, Failed>
    where
        Self: Sized,
        ensures cause { HasCause (faults self.old) (faults self.new) result }
        ensures heard { heard self.new ≡ heard self.old }
        ensures accepted { accepted self.new ≡ accepted self.old }
        ensures unused { IfOk result (λ l. IsUnused (faults l) (accepted l)) };

    /// Asks that the service of what listens shut down. Then [`is_shut`](Self::is_shut) says so at
    /// each handle, a call of [`accept`](Self::accept) that waits goes on, and a link waits for no
    /// further bytes.
    fn shut_down(&self);

    /// Whether that was asked, or nothing more can come.
    fn is_shut(&self) -> bool;
}
