// The queue of tasks.
ghost use Rattle.std.specs.Prelude.{◌≡◌, ◌<◌, ◌≤◌, ◌^◌, ℕ, true, IsTrue, None, IfOk, IfSome, OnOk, length, map, slice_set, if◌then◌else◌};
ghost use Rattle.std.specs.List.{All, count_by, list_any};
ghost use Rattle.plan_terms.specs.Belongs.{distinct};
ghost use Rattle.task_planner.specs.Groups.{AreGroupsTo, Files, IsFiled, IsGroup, group_at};
ghost use Rattle.task_planner.specs.Queue.{slot_at, ended, waiting, may_lead, moves, fits_slot, first_fitting, AreListsOf};

use crate::group::{Group, Key};
use crate::slot::Slot;
use cap_ledger::Counts;
use plan_terms::{Caps, Memory, Proposal};
use std::alloc::Global;
use std::marker::Model;

/// The tasks of an execution, and which of them wait. A task's number is its place.
///
/// The tasks that move replicas are in groups by the first broker that they remove, or where they
/// remove none by the first that they add; those that change a leader alone are one group. Each
/// group is in order of the tasks.
#[derive(Drop)]
pub struct TaskQueue {
    slots: Vec<Slot>,
    groups: Vec<Group>,
    // How many tasks that move replicas wait.
    movers: usize,
    // How many tasks wait.
    waiting: usize,
}

impl Model for TaskQueue {
    ghost use Rattle.std.specs.Prelude.{List};
    ghost use Rattle.task_planner.specs.Groups.{AreQueued};
    ghost use Rattle.task_planner.specs.declared.slot.Slot.{Slot};

    ghost Value = { List Slot };

    ghost view = { λ q. q.slots.items };

    ghost invariant = { λ q. AreQueued q.slots.items q.groups.items q.movers q.waiting };
}

impl TaskQueue {
    /// A task that waits for each proposal. The proposals are of lists of distinct members, all
    /// among the brokers.
    pub fn new(alloc: Global, _brokers: &[u32], proposals: &[Proposal]) -> Result<TaskQueue, Memory>
        requires few { length proposals.now < 2 ^ 32 }
        requires brokers { IsTrue (distinct _brokers.now) }
        requires lists { All (AreListsOf _brokers.now) proposals.now }
        ensures { IfOk result (λ queue. queue ≡ map waiting proposals.now) }
    {
        let slots = waiting_slots(alloc, proposals)?;
        let groups = groups_of(alloc, slots.as_slice())?;
        let movers = count_moves(slots.as_slice());
        let waiting = count_waiting(slots.as_slice());
        Ok(TaskQueue {
            slots,
            groups,
            movers,
            waiting,
        })
    }

    /// Whether a task waits.
    pub fn any_waits(&self) -> bool
        ensures { result ≡ list_any (λ s. s.waits) self.now }
    {
        self.waiting > 0
    }

    /// The first task that waits and fits. One that changes a leader alone fits only where no task
    /// that moves replicas is in flight or waits.
    pub fn first_fitting(&self, caps: &Caps, counts: &Counts) -> Option<u32>
        ensures { result ≡ first_fitting caps.now counts.now self.now }
    {
        let slots = self.slots.as_slice();
        let may_lead = self.may_lead(counts);
        let best = first_of(slots, self.groups.as_slice(), caps, counts, may_lead);
        if best < slots.len() {
            Some(best as u32)
        } else {
            None
        }
    }

    // Whether a task may change a leader alone.
    fn may_lead(&self, counts: &Counts) -> bool
        ensures { result ≡ may_lead counts.now self.now }
    {
        let in_flight = counts.replica_tasks();
        let waiting = self.movers;
        in_flight == 0 && waiting == 0
    }

    /// The task waits no longer.
    pub fn remove(&mut self, task: u32)
        requires known { task < length self.old }
        requires waits { IsTrue (slot_at self.old task).waits }
        ensures { self.new ≡ slice_set self.old task (ended (slot_at self.old task)) }
    {
        let slot = &mut self.slots[task as usize];
        let key = slot.key();
        self.movers -= one_if(slot.moves());
        self.waiting -= 1;
        slot.end();
        if let Some(place) = place_of(self.groups.as_slice(), key) {
            self.groups[place].advance(self.slots.as_slice());
        }
    }
}

// The least task that fits, or the number of tasks where none does. A group for which the caps
// leave no room is passed over, and one whose head comes after the best task so far is not entered.
fn first_of(slots: &[Slot], groups: &[Group], caps: &Caps, counts: &Counts, may_lead: bool) -> usize
    requires each { (g : ℕ) → IsGroup slots.now (group_at groups.now g) }
    ensures within { result ≤ length slots.now }
    ensures fits { result < length slots.now
        → fits_slot caps.now counts.now may_lead (slot_at slots.now result) ≡ true }
    ensures least { (i : ℕ) → IsFiled groups.now i
        → fits_slot caps.now counts.now may_lead (slot_at slots.now i) ≡ true → result ≤ i }
{
    let mut best = slots.len();
    for group in groups {
        if group.key().is_open(caps, counts, may_lead) {
            best = group.first_fitting(slots, caps, counts, may_lead, best);
        }
    }
    best
}

// 1 or 0.
fn one_if(yes: bool) -> usize
    ensures { result ≡ (if yes then 1 else 0) }
{
    usize::from(yes)
}

// How many tasks that move replicas wait.
fn count_moves(slots: &[Slot]) -> usize
    ensures { result ≡ count_by moves slots.now }
{
    slots.iter().filter(|s| s.moves()).count()
}

// How many tasks wait.
fn count_waiting(slots: &[Slot]) -> usize
    ensures { result ≡ count_by (λ s. s.waits) slots.now }
{
    slots.iter().filter(|s| s.waits).count()
}

// The place of the group with this key.
fn place_of(groups: &[Group], key: Key) -> Option<usize>
    ensures known { IfSome result (λ g. g < length groups.now) }
    ensures key { IfSome result (λ g. (group_at groups.now g).key ≡ key) }
    ensures none { result ≡ None → (g : ℕ) → g < length groups.now
        → (group_at groups.now g).key ≡ key → ⊥ }
{
    for (place, group) in groups.iter().enumerate() {
        if group.key() == key {
            return Some(place);
        }
    }
    None
}

// Puts a task at the end of the group with its key.
fn file(alloc: Global, groups: &mut Vec<Group>, key: Key, task: u32) -> Result<(), Memory>
    ensures { OnOk result (Files key task groups.old.items groups.new.items) }
{
    match place_of(groups.as_slice(), key) {
        Some(place) => groups[place].push(task)?,
        None => {
            let mut group = Group::new(alloc, key);
            group.push(task)?;
            groups.push(group)?;
        }
    }
    Ok(())
}

// The groups of the tasks.
fn groups_of(alloc: Global, slots: &[Slot]) -> Result<Vec<Group>, Memory>
    requires { length slots.now < 2 ^ 32 }
    ensures { IfOk result (λ groups. AreGroupsTo slots.now (length slots.now) groups.items) }
{
    let mut groups = Vec::new(alloc);
    for (task, slot) in slots.iter().enumerate() {
        file(alloc, &mut groups, slot.key(), task as u32)?;
    }
    Ok(groups)
}

// The place of a proposal's task.
fn waiting_slot(alloc: Global, proposal: &Proposal) -> Result<Slot, Memory>
    ensures { IfOk result (λ slot. slot ≡ waiting proposal.now) }
{
    Ok(Slot {
        before: proposal.before.copy(alloc)?,
        after: proposal.after.copy(alloc)?,
        waits: true,
    })
}

// The places of the proposals' tasks.
fn waiting_slots(alloc: Global, proposals: &[Proposal]) -> Result<Vec<Slot>, Memory>
    ensures { IfOk result (λ slots. slots.items ≡ map waiting proposals.now) }
{
    let mut slots = Vec::new(alloc);
    for proposal in proposals {
        slots.push(waiting_slot(alloc, proposal)?)?;
    }
    Ok(slots)
}
