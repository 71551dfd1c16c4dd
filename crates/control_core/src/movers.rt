// The work of the movers.
ghost use Rattle.std.specs.Prelude.{◌≡◌, ◌<◌, ◌^◌};
ghost use Rattle.core_terms.specs.Works.{reason_of, reply_take, taken_by, lease_told, is_copy, is_receipt_of, reply_copied, copied, reply_copy_failed, copy_failed, reply_commit, committed_by, reply_cancel, cancelled_by, reply_give_back, given_back};

use crate::desk::Desk;
use crate::places::any_planning;
use cluster_gate::Receipt;
use core_terms::{Reason, Reply};
use exec_terms::{Given, Idle, LeaseFault, Work};

// The fault of a lease.
fn lease_told(fault: LeaseFault) -> Reply
    ensures { result ≡ lease_told fault }
{
    match fault {
        LeaseFault::Stale(last) => Reply::Stale(last),
        LeaseFault::AbortAsked => Reply::AbortAsked,
    }
}

// Whether the work is this copy.
fn is_copy(work: Work, to: u32, chunk: u32) -> bool
    ensures { result ≡ is_copy work to chunk }
{
    match work {
        Work::Copy { to: b, chunk: n } => b == to && n == chunk,
        Work::Commit | Work::Cancel => false,
    }
}

// Whether the receipt is of this work.
pub(crate) fn is_receipt_of(receipt: &Receipt, held: Option<Given>) -> bool
    ensures { result ≡ is_receipt_of receipt.now held }
{
    match held {
        None => false,
        Some(given) => {
            given.part == receipt.part() && is_copy(given.work, receipt.to(), receipt.chunk())
        }
    }
}

// Why there is no work.
fn reason_of(planning: bool, why: Idle) -> Reason
    ensures { result ≡ reason_of planning why }
{
    match why {
        Idle::CapsFull => Reason::CapsFull,
        Idle::AllLeased => Reason::AllLeased,
        Idle::NoExecution if planning => Reason::Planning,
        Idle::NoExecution => Reason::NoExecution,
    }
}

impl Desk {
    /// A mover takes work.
    pub fn take(&mut self) -> Reply
        requires { self.old.exec.leases < 2 ^ 63 }
        ensures state { self.new ≡ taken_by self.old }
        ensures reply { result ≡ reply_take self.old }
    {
        let planning = any_planning(self.tasks.tasks(), &self.open_tasks);
        let closing = self.closing;
        let was_executing = self.exec.is_executing();
        let outcome = self.exec.take();
        self.move_on(was_executing);
        match outcome {
            Ok(given) => Reply::Work(given),
            Err(why) => Reply::Idle(reason_of(planning, why), closing),
        }
    }

    /// A copy was made.
    pub fn copied(&mut self, receipt: &Receipt) -> Reply
        ensures state { self.new ≡ copied self.old receipt.now }
        ensures reply { result ≡ reply_copied self.old receipt.now }
    {
        let lease = receipt.lease();
        if !is_receipt_of(receipt, self.exec.held(lease)) {
            return Reply::Stale(self.exec.leases());
        }
        let was_executing = self.exec.is_executing();
        let outcome = self.exec.copied(lease);
        self.move_on(was_executing);
        match outcome {
            Ok(left) => Reply::Left(left.0),
            Err(fault) => lease_told(fault),
        }
    }

    /// A copy failed.
    pub fn copy_failed(&mut self, lease: u64) -> Reply
        ensures state { self.new ≡ copy_failed self.old lease }
        ensures reply { result ≡ reply_copy_failed self.old lease }
    {
        let was_executing = self.exec.is_executing();
        let outcome = self.exec.copy_failed(lease);
        self.move_on(was_executing);
        match outcome {
            Ok(faults) => Reply::Faults(faults.0),
            Err(fault) => lease_told(fault),
        }
    }

    /// The new list is the list.
    pub fn commit(&mut self, lease: u64) -> Reply
        ensures state { self.new ≡ committed_by self.old lease }
        ensures reply { result ≡ reply_commit self.old lease }
    {
        let was_executing = self.exec.is_executing();
        let outcome = self.exec.commit(lease);
        self.move_on(was_executing);
        match outcome {
            Ok(()) => Reply::Committed,
            Err(fault) => lease_told(fault),
        }
    }

    /// The old list is the list again.
    pub fn cancel(&mut self, lease: u64) -> Reply
        ensures state { self.new ≡ cancelled_by self.old lease }
        ensures reply { result ≡ reply_cancel self.old lease }
    {
        let was_executing = self.exec.is_executing();
        let outcome = self.exec.cancel(lease);
        self.move_on(was_executing);
        match outcome {
            Ok(phase) => Reply::Cancelled(phase),
            Err(fault) => lease_told(fault),
        }
    }

    /// A lease is given back.
    pub fn give_back(&mut self, lease: u64) -> Reply
        ensures state { self.new ≡ given_back self.old lease }
        ensures reply { result ≡ reply_give_back self.old lease }
    {
        let was_executing = self.exec.is_executing();
        let outcome = self.exec.give_back(lease);
        self.move_on(was_executing);
        match outcome {
            Ok(()) => Reply::Given,
            Err(fault) => lease_told(fault),
        }
    }
}
