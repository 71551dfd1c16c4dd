// Room in the journal.
ghost use Rattle.std.specs.Prelude.{◌≡◌, ◌+◌, ◌≤◌, ◌^◌};
ghost use Rattle.std.specs.List.{list_any};
ghost use Rattle.exec_terms.specs.Words.{holds, holds_for};
ghost use Rattle.core_terms.specs.History.{is_sure, kept_for};
ghost use Rattle.core_terms.specs.Plans.{has_ticket};
ghost use Rattle.core_terms.specs.Sound.{AreTickets};

use crate::desk::Desk;
use crate::movers::is_receipt_of;
use core_terms::Event;
use exec_terms::{LeaseFault, WorkKind};
use executor_core::Exec;

// Whether a task holds the lease for a kind of work.
#[tactic(auto, using(crate::proofs::Held::held_stale, crate::proofs::Held::held_ok, crate::proofs::Held::held_asked))]
fn is_held_for(exec: &Exec, lease: u64, kind: WorkKind) -> bool
    ensures { result ≡ list_any (holds_for lease kind) exec.now.tasks }
{
    match exec.test_lease(lease, kind) {
        Ok(_) | Err(LeaseFault::AbortAsked) => true,
        Err(LeaseFault::Stale(_)) => false,
    }
}

// Whether a task holds the lease.
#[tactic(auto, using(crate::proofs::Held::held_there))]
fn is_held(exec: &Exec, lease: u64) -> bool
    ensures { result ≡ list_any (holds lease) exec.now.tasks }
{
    exec.held(lease).is_some()
}

impl Desk {
    // Whether some job has the ticket.
    #[tactic(auto, using(crate::proofs::Held::ticket_there))]
    fn is_ticket_out(&self, ticket: u64) -> bool
        requires { AreTickets self.now }
        ensures { result ≡ list_any (has_ticket ticket) self.now.jobs }
    {
        self.holder_of(ticket).is_some()
    }

    /// No fewer entries than those for which the journal keeps room: one for each task, one for
    /// each job, and one for Close.
    #[tactic(auto, using(crate::proofs::Kept::kept_few))]
    pub fn most_kept(&self) -> usize
        ensures most { kept_for self.now ≤ result }
        ensures few { result ≤ 2 ^ 63 + 2 ^ 33 }
    {
        let _few = self.tasks.tasks();
        self.exec.tasks() as usize + self.jobs.len() + 1
    }

    /// Whether an event ends a lease or a ticket which is out, or is the first Close.
    pub fn is_sure(&self, event: &Event) -> bool
        requires { AreTickets self.now }
        ensures { result ≡ is_sure self.now event.now }
    {
        match event {
            Event::PlanBack(ticket) => self.is_ticket_out(*ticket),
            Event::Copied(receipt) => is_receipt_of(receipt, self.exec.held(receipt.lease())),
            Event::CopyFailed(lease) => is_held_for(&self.exec, *lease, WorkKind::Copy),
            Event::Commit(lease) => is_held_for(&self.exec, *lease, WorkKind::Commit),
            Event::Cancel(lease) => is_held_for(&self.exec, *lease, WorkKind::Cancel),
            Event::GiveBack(lease) => is_held(&self.exec, *lease),
            Event::Close => !self.closing,
            _ => false,
        }
    }
}
