// The calls of the admin that go with events.
ghost use Rattle.std.specs.Prelude.{◌≡◌, ◌≤◌, ◌<◌, ◌^◌, true, OnOk, OnErr, length};
ghost use Rattle.cc_base.specs.Outside.{HasRisen};
ghost use Rattle.exec_terms.specs.Leases.{test_lease};
ghost use Rattle.exec_terms.specs.Machine.{any_unfinished, next_work};
ghost use Rattle.core_terms.specs.History.{is_outward};
ghost use Rattle.core_terms.specs.Writes.{begun, calls_after, told_after, with_begun, with_written, written};
ghost use Rattle.control_core.specs.LastWork.{last_call, last_list};

use cc_base::Failed;
use cluster_gate::Admin;
use core_terms::Event;
use exec_terms::WorkKind;
use executor_core::Exec;

// A task that is to begin has both its lists.
fn begin<A: Admin>(admin: &mut A, exec: &Exec) -> Result<(), Failed>
    // The admin has the partitions of the executor.
    requires few { exec.now.leases < 2 ^ 63 }
    requires installed { A.parts admin.old ≡ length exec.now.base }
    // What the admin was told.
    ensures told { OnOk result
        (A.told admin.new ≡ begun exec.now (A.told admin.old) (next_work exec.now)) }
    ensures called { OnOk result
        (A.calls admin.new ≡ with_begun exec.now (A.calls admin.old) (next_work exec.now)) }
    ensures failed { OnErr result
        ((A.told admin.new ≡ A.told admin.old) × (A.calls admin.new ≡ A.calls admin.old)) }
    ensures parts { A.parts admin.new ≡ A.parts admin.old }
    // A failure is a fault of the admin, and comes only while a task is unfinished.
    ensures later { A.faults admin.old ≤ A.faults admin.new }
    ensures counted { OnOk result (A.faults admin.new ≡ A.faults admin.old) }
    ensures cause { OnErr result (HasRisen (A.faults admin.old) (A.faults admin.new)) }
    ensures busy { OnErr result (any_unfinished exec.now.tasks ≡ true) }
{
    exec.state_is_valid();
    let Ok(given) = exec.next_work() else {
        return Ok(());
    };
    if !given.starts {
        return Ok(());
    }
    admin.begin(given.part, exec.union(given.task))
}

// The last work on the task of a lease: a commit writes its new list, and a cancel its old one.
fn finish<A: Admin>(admin: &mut A, exec: &Exec, lease: u64, kind: WorkKind) -> Result<(), Failed>
    // The admin has the partitions of the executor.
    requires installed { A.parts admin.old ≡ length exec.now.base }
    // What the admin was told.
    ensures told { OnOk result
        (A.told admin.new
        ≡ written (last_list kind) exec.now (A.told admin.old) (test_lease exec.now lease kind)) }
    ensures called { OnOk result
        (A.calls admin.new
        ≡ with_written (last_call kind) (last_list kind) exec.now (A.calls admin.old)
        (test_lease exec.now lease kind)) }
    ensures failed { OnErr result
        ((A.told admin.new ≡ A.told admin.old) × (A.calls admin.new ≡ A.calls admin.old)) }
    ensures parts { A.parts admin.new ≡ A.parts admin.old }
    // A failure is a fault of the admin, and comes only while a task is unfinished.
    ensures later { A.faults admin.old ≤ A.faults admin.new }
    ensures counted { OnOk result (A.faults admin.new ≡ A.faults admin.old) }
    ensures cause { OnErr result (HasRisen (A.faults admin.old) (A.faults admin.new)) }
    ensures busy { OnErr result (any_unfinished exec.now.tasks ≡ true) }
{
    exec.state_is_valid();
    let Ok(task) = exec.test_lease(lease, kind) else {
        return Ok(());
    };
    let proposal = exec.proposal(task);
    match kind {
        WorkKind::Cancel => admin.cancel(proposal.part, proposal.before.as_slice()),
        _ => admin.commit(proposal.part, proposal.after.as_slice()),
    }
}

/// Makes the call of the admin that goes with an event. A failed call changes no list.
pub fn write<A: Admin>(admin: &mut A, exec: &Exec, event: &Event) -> Result<(), Failed>
    // Few leases were given, and the admin has the executor's partitions.
    requires few { exec.now.leases < 2 ^ 63 }
    requires installed { A.parts admin.old ≡ length exec.now.base }
    // The list that the event writes is told, with the call, or none is.
    ensures told { OnOk result (A.told admin.new
        ≡ told_after exec.now event.now (A.told admin.old)) }
    ensures called { OnOk result (A.calls admin.new
        ≡ calls_after exec.now event.now (A.calls admin.old)) }
    ensures failed { OnErr result
        ((A.told admin.new ≡ A.told admin.old) × (A.calls admin.new ≡ A.calls admin.old)) }
    ensures parts { A.parts admin.new ≡ A.parts admin.old }
    // It fails where a call did alone, and only for an event that writes, while a task is
    // unfinished.
    ensures later { A.faults admin.old ≤ A.faults admin.new }
    ensures counted { OnOk result (A.faults admin.new ≡ A.faults admin.old) }
    ensures cause { OnErr result (HasRisen (A.faults admin.old) (A.faults admin.new)) }
    ensures busy { OnErr result (any_unfinished exec.now.tasks ≡ true) }
    ensures outward { OnErr result (is_outward event.now ≡ true) }
{
    match event {
        Event::Take => begin(admin, exec),
        Event::Commit(lease) => finish(admin, exec, *lease, WorkKind::Commit),
        Event::Cancel(lease) => finish(admin, exec, *lease, WorkKind::Cancel),
        _ => Ok(()),
    }
}
