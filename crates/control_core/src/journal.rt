// What goes with an entry of the journal: room for it, the call of the admin, and what it is.
ghost use Rattle.std.specs.Prelude.{◌≡◌, ◌+◌, ◌<◌, ◌≤◌, ◌^◌, true, IsOk, OnErr, OnOk, length, if◌then◌else◌};
ghost use Rattle.cc_base.specs.Outside.{HasRisen};
ghost use Rattle.core_terms.specs.History.{IsLegal, is_outward, is_sure, kept_for};
ghost use Rattle.core_terms.specs.Sound.{AreTickets};
ghost use Rattle.core_terms.specs.Writes.{calls_after, told_after};
ghost use Rattle.exec_terms.specs.Machine.{any_unfinished};

use crate::machine::Machine;
use crate::writes::write;
use cc_base::Failed;
use cluster_gate::Admin;
use core_terms::Event;
use plan_terms::Memory;
use turn_book::Journal;

/// An event is legal by what its parts keep.
pub fn is_legal(event: &Event)
    ensures { IsLegal event.now }
{
    match event {
        Event::Planned(_, plan) => {
            let _plan = plan.case();
        }
        Event::Refused(_, failure) => {
            let _failure = failure.case();
        }
        Event::Sample(_, _, _, measured) => {
            let _loads = measured.loads();
        }
        Event::Caps(asked) => {
            let _caps = asked.broker();
        }
        _ => {}
    }
}

impl Machine {
    /// Makes room in the journal for the entry of an event and, where it is not sure, for one that
    /// it may call for.
    pub fn make_room(&self, journal: &mut Journal<Event>, event: &Event) -> Result<(), Memory>
        requires tickets { AreTickets self.now.desk }
        requires room { length journal.old.events + kept_for self.now.desk ≤ journal.old.room }
        ensures events { journal.new.events ≡ journal.old.events }
        ensures room { OnOk result
            (length journal.old.events +
            (if is_sure self.now.desk event.now then kept_for self.now.desk else kept_for
            self.now.desk + 2) ≤ journal.new.room) }
        ensures kept { length journal.old.events + kept_for self.now.desk ≤ journal.new.room }
        ensures sure { is_sure self.now.desk event.now ≡ true → IsOk result }
    {
        if self.desk.is_sure(event) {
            return Ok(());
        }
        journal.reserve(self.desk.most_kept() + 2)?;
        Ok(())
    }

    /// Makes the call of the admin that goes with an event. A failed call changes no list.
    pub fn write<A: Admin>(&self, admin: &mut A, event: &Event) -> Result<(), Failed>
        // Few leases were given, and the admin has the executor's partitions.
        requires few { self.now.desk.exec.leases < 2 ^ 63 }
        requires installed { A.parts admin.old ≡ length self.now.desk.exec.base }
        // The list that the event writes is told, with the call, or none is.
        ensures told { OnOk result
            (A.told admin.new ≡ told_after self.now.desk.exec event.now (A.told admin.old)) }
        ensures called { OnOk result
            (A.calls admin.new ≡ calls_after self.now.desk.exec event.now (A.calls admin.old)) }
        ensures failed { OnErr result
            ((A.told admin.new ≡ A.told admin.old) × (A.calls admin.new ≡ A.calls admin.old)) }
        ensures parts { A.parts admin.new ≡ A.parts admin.old }
        // It fails where a call did alone, and only for an event that writes, while a task is
        // unfinished.
        ensures later { A.faults admin.old ≤ A.faults admin.new }
        ensures counted { OnOk result (A.faults admin.new ≡ A.faults admin.old) }
        ensures cause { OnErr result (HasRisen (A.faults admin.old) (A.faults admin.new)) }
        ensures busy { OnErr result (any_unfinished self.now.desk.exec.tasks ≡ true) }
        ensures outward { OnErr result (is_outward event.now ≡ true) }
    {
        write(admin, &self.desk.exec, event)
    }
}
