// The place of one task in the queue.
ghost use Rattle.std.specs.Prelude.{◌≡◌, false};
ghost use Rattle.task_planner.specs.Groups.{key_of};
ghost use Rattle.task_planner.specs.Queue.{moves, fits_slot};

use crate::group::Key;
use cap_ledger::Counts;
use exec_terms::differs;
use plan_terms::{Caps, Replicas};

// A task's lists, and whether it waits.
#[derive(Drop)]
pub struct Slot {
    pub before: Replicas,
    pub after: Replicas,
    pub waits: bool,
}

impl Slot {
    // The key of its group.
    pub fn key(&self) -> Key
        ensures { result ≡ key_of self.now }
    {
        Key::between(self.before.as_slice(), self.after.as_slice())
    }

    // Whether it waits and moves replicas.
    pub fn moves(&self) -> bool
        ensures { result ≡ moves self.now }
    {
        self.waits && differs(self.before.as_slice(), self.after.as_slice())
    }

    // Whether it waits and fits, given whether a task may change a leader alone.
    pub fn fits(&self, caps: &Caps, counts: &Counts, may_lead: bool) -> bool
        ensures { result ≡ fits_slot caps.now counts.now may_lead self.now }
    {
        let before = self.before.as_slice();
        let after = self.after.as_slice();
        self.waits && counts.fits(caps, before, after) && (may_lead || differs(before, after))
    }

    // It waits no longer.
    pub fn end(&mut self)
        ensures { self.new ≡ record self.old { waits = false } }
    {
        self.waits = false;
    }
}
