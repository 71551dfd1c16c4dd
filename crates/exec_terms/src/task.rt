// One movement of an execution.
ghost use Rattle.std.specs.Prelude.{◌≡◌, ◌+◌, ◌^◌, ◌<◌, ◌≤◌, length};
ghost use Rattle.exec_terms.specs.Words.{adds, removes, is_replica_task, is_free, holds, holds_for, needs, copies, copies_left, next_step};
ghost use Rattle.exec_terms.specs.Machine.{with_lease};
ghost use Rattle.exec_terms.specs.Leases.{released, one_copied, one_failed, committed, cancelled};
ghost use Rattle.exec_terms.specs.Stops.{stopped_by, killed_by};

use crate::lists::{added_count, differs, step_of};
use crate::{Lease, Phase, Work, WorkKind};
use plan_terms::{Replicas, has, leads};

/// A partition whose replica list is being changed.
#[derive(Drop)]
pub struct Task {
    /// The partition's place in the cluster file, from 0.
    pub part: u32,
    pub before: Replicas,
    pub after: Replicas,
    /// The work of copying one replica.
    pub chunks: u32,
    pub phase: Phase,
    /// How many copies are done.
    pub done: u32,
    /// How many copies have failed.
    pub faults: u32,
    /// Whether it is to end as dead: a broker that it needs has died, or copies failed too often.
    pub doomed: bool,
    pub lease: Option<Lease>,
}

impl Task {
    /// Whether the new list adds the broker.
    pub fn adds(&self, broker: u32) -> bool
        ensures { result ≡ adds self.now broker }
    {
        has(self.after.as_slice(), broker) && !has(self.before.as_slice(), broker)
    }

    /// Whether the new list leaves the broker out.
    pub fn removes(&self, broker: u32) -> bool
        ensures { result ≡ removes self.now broker }
    {
        has(self.before.as_slice(), broker) && !has(self.after.as_slice(), broker)
    }

    /// Whether the two lists differ as sets, and not by their order alone.
    pub fn is_replica_task(&self) -> bool
        ensures { result ≡ is_replica_task self.now }
    {
        differs(self.before.as_slice(), self.after.as_slice())
    }

    /// Whether no lease of the task is out.
    pub fn is_free(&self) -> bool
        ensures { result ≡ is_free self.now.lease }
    {
        self.lease.is_none()
    }

    /// Whether the task holds the lease of this number.
    pub fn holds(&self, number: u64) -> bool
        ensures { result ≡ holds number self.now }
    {
        match self.lease {
            None => false,
            Some(lease) => lease.number == number,
        }
    }

    /// Whether the task holds the lease of this number, for this kind of work.
    pub fn holds_for(&self, number: u64, kind: WorkKind) -> bool
        ensures { result ≡ holds_for number kind self.now }
    {
        match self.lease {
            None => false,
            Some(lease) => lease.number == number && lease.work.is_for(kind),
        }
    }

    /// Gives the task a lease, and begins it where it was pending.
    pub fn lend(&mut self, number: u64, work: Work)
        ensures { self.new ≡ with_lease number work self.old }
    {
        if self.phase.is_pending() {
            self.phase = Phase::InProgress;
        }
        self.lease = Some(Lease { number, work });
    }

    /// Ends the task's lease.
    pub fn release(&mut self)
        ensures { self.new ≡ released self.old }
    {
        self.lease = None;
    }

    /// A copy was made.
    pub fn finish_copy(&mut self)
        requires { self.old.done + 1 < 2 ^ 32 }
        ensures { self.new ≡ one_copied self.old }
    {
        self.done += 1;
        self.lease = None;
    }

    /// Counts a copy that failed; the third one dooms the task.
    pub fn fail_copy(&mut self)
        requires { self.old.faults + 1 < 2 ^ 32 }
        ensures { self.new ≡ one_failed self.old }
    {
        self.faults += 1;
        self.lease = None;
        if self.faults >= 3 {
            self.phase = Phase::Aborting;
            self.doomed = true;
        }
    }

    /// The new list is the list.
    pub fn commit(&mut self)
        ensures { self.new ≡ committed self.old }
    {
        self.phase = Phase::Completed;
        self.lease = None;
    }

    /// The old list is the list again.
    pub fn cancel(&mut self)
        ensures { self.new ≡ cancelled self.old }
    {
        self.phase = if self.doomed {
            Phase::Dead
        } else {
            Phase::Aborted
        };
        self.lease = None;
    }

    /// The execution is stopped: a task that waits is aborted, and with force one in progress is
    /// aborting.
    pub fn stop(&mut self, force: bool)
        ensures { self.new ≡ stopped_by force self.old }
    {
        self.phase = match self.phase {
            Phase::Pending => Phase::Aborted,
            Phase::InProgress if force => Phase::Aborting,
            phase => phase,
        };
    }

    /// Whether the death of the broker keeps the task from its new list.
    pub fn needs(&self, broker: u32) -> bool
        ensures { result ≡ needs self.now broker }
    {
        self.adds(broker) || (!self.is_replica_task() && leads(self.after.as_slice(), broker))
    }

    /// The broker has died.
    pub fn kill(&mut self, broker: u32)
        ensures { self.new ≡ killed_by broker self.old }
    {
        if self.needs(broker) {
            self.doomed = self.doomed || self.phase.in_flight();
            self.phase = match self.phase {
                Phase::Pending => Phase::Dead,
                Phase::InProgress => Phase::Aborting,
                phase => phase,
            };
        }
    }

    /// How many copies are left.
    #[tactic(auto, unfolding(crate::specs::Words::copies_left, crate::specs::Words::copies))]
    pub fn copies_left(&self) -> u32
        requires few { length self.now.after ≤ 8 }
        requires chunks { self.now.chunks ≤ 1000 }
        requires done { self.now.done ≤ length (copies self.now) }
        ensures { result ≡ copies_left self.now }
    {
        added_count(self.before.as_slice(), self.after.as_slice()) * self.chunks - self.done
    }

    /// The next copy, or the commit where none is left.
    #[tactic(auto, unfolding(crate::specs::Words::next_step, crate::specs::Words::copies))]
    pub fn next_step(&self) -> Work
        ensures { result ≡ next_step self.now }
    {
        step_of(
            self.before.as_slice(),
            self.after.as_slice(),
            self.chunks,
            self.done,
        )
    }
}
