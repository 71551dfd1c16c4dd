// A group of tasks in the queue.
ghost use Rattle.std.specs.Prelude.{◌≡◌, ◌≤◌, ◌<◌, ◌++◌, ◌∷◌, [], ◌↔◌, ℕ, true, false, IsTrue, OnOk, OnErr, length, get_or, not, find};
ghost use Rattle.plan_terms.specs.Cluster.{has};
ghost use Rattle.task_planner.specs.Groups.{first_without, key_between, is_open, AreRising, IsGroup, IsListed};
ghost use Rattle.task_planner.specs.Queue.{slot_at, fits_slot};

use crate::slot::Slot;
use cap_ledger::Counts;
use plan_terms::{Caps, Memory, has};
use std::alloc::Global;
use std::marker::Model;

/// What the tasks of a group have in common.
#[derive(Clone, Copy, PartialEq, Eq)]
pub enum Key {
    /// The first broker that they remove.
    Removes(u32),
    /// The first broker that they add, where they remove none.
    Adds(u32),
    /// They change a leader alone.
    Leads,
}

impl Key {
    /// The key of the tasks from the one list to the other.
    pub fn between(before: &[u32], after: &[u32]) -> Key
        ensures { result ≡ key_between before.now after.now }
    {
        match first_without(after, before) {
            Some(broker) => Key::Removes(broker),
            None => match first_without(before, after) {
                Some(broker) => Key::Adds(broker),
                None => Key::Leads,
            },
        }
    }

    /// Whether the caps may leave room for a task with this key, given whether a task may change a
    /// leader alone.
    pub fn is_open(self, caps: &Caps, counts: &Counts, may_lead: bool) -> bool
        ensures { result ≡ is_open caps.now counts.now may_lead self }
    {
        match self {
            Key::Removes(broker) => {
                counts.removing(broker) < caps.broker && counts.replica_tasks() < caps.cluster
            }
            Key::Adds(broker) => {
                counts.adding(broker) < caps.broker && counts.replica_tasks() < caps.cluster
            }
            Key::Leads => may_lead && counts.leader_tasks() < caps.leader,
        }
    }
}

// The first member of the list that the other lacks.
fn first_without(other: &[u32], list: &[u32]) -> Option<u32>
    ensures { result ≡ first_without other.now list.now }
{
    list.iter().copied().find(|b| !has(other, *b))
}

/// Tasks with one key, by their numbers, in order.
#[derive(Drop)]
pub struct Group {
    key: Key,
    tasks: Vec<u32>,
    // The place of the first that may wait still.
    head: usize,
}

impl Model for Group {
    ghost use Rattle.task_planner.specs.Groups.{Filing};

    ghost Value = { Filing };

    ghost view = { λ g. record { key = g.key; tasks = g.tasks.items; head = g.head } };
}

impl Group {
    /// A group of no task.
    pub fn new(alloc: Global, key: Key) -> Group
        ensures { result ≡ record { key = key; tasks = []; head = 0 } }
    {
        Group {
            key,
            tasks: Vec::new(alloc),
            head: 0,
        }
    }

    /// What the tasks have in common.
    pub fn key(&self) -> Key
        ensures { result ≡ self.now.key }
    {
        self.key
    }

    /// Adds a task.
    pub fn push(&mut self, task: u32) -> Result<(), Memory>
        ensures { OnOk result (self.new ≡ record self.old { tasks = self.old.tasks ++ task ∷ [] }) }
    {
        self.tasks.push(task)?;
        Ok(())
    }

    /// The first task that waits and fits, if it comes before the best one that is known, else that
    /// one.
    pub fn first_fitting(
        &self,
        slots: &[Slot],
        caps: &Caps,
        counts: &Counts,
        may_lead: bool,
        best: usize,
    ) -> usize
        requires group { IsGroup slots.now self.now }
        requires best { best ≤ length slots.now }
        ensures within { result ≤ best }
        ensures fits { result < best
            → fits_slot caps.now counts.now may_lead (slot_at slots.now result) ≡ true }
        ensures least { (i : ℕ) → IsListed self.now i
            → fits_slot caps.now counts.now may_lead (slot_at slots.now i) ≡ true → result ≤ i }
    {
        for place in self.head..self.tasks.len() {
            let task = self.tasks[place] as usize;
            if task >= best {
                return best;
            }
            if slots[task].fits(caps, counts, may_lead) {
                return task;
            }
        }
        best
    }

    /// Passes over the first tasks that wait no longer.
    pub fn advance(&mut self, slots: &[Slot])
        requires { IsGroup slots.now self.old }
        ensures key { self.new.key ≡ self.old.key }
        ensures tasks { self.new.tasks ≡ self.old.tasks }
        ensures kept { (i : ℕ) → (slot_at slots.now i).waits ≡ true → IsListed self.old i
            → IsListed self.new i }
    {
        while self.head < self.tasks.len() && !slots[self.tasks[self.head] as usize].waits {
            self.head += 1;
        }
    }
}
