// The index of the tasks of an execution.
ghost use Rattle.std.specs.Prelude.{◌≡◌, ◌<◌, ◌^◌, ℕ, IfOk, Option, Some, length, map};
ghost use Rattle.std.specs.List.{position};
ghost use Rattle.task_index.specs.Index.{Marks, marks_of, no_marks, marked_at, wants_cancel, may_go_on, number_of, number_in};
ghost use Rattle.task_index.specs.Leases.{is_number, IsNext};

use crate::flags::FlagTree;
use crate::leases::LeaseTable;
use exec_terms::{Lease, Task};
use plan_terms::Memory;
use std::alloc::Global;
use std::marker::Model;

/// Finds the first task that wants its cancel, the first that may go on, and the one that has a
/// lease. Only `new` takes memory.
#[derive(Drop)]
pub struct TaskIndex {
    to_cancel: FlagTree,
    to_go_on: FlagTree,
    leases: LeaseTable,
}

impl Model for TaskIndex {
    ghost use Rattle.task_index.specs.Index.{Marks, AreBeside};

    ghost Value = { Marks };

    ghost view = { λ x. record {
      to_cancel = x.to_cancel;
      to_go_on = x.to_go_on;
      leases = x.leases;
    } };

    ghost invariant = { λ x. AreBeside x.to_cancel x.to_go_on x.leases };
}

impl TaskIndex {
    /// An index of so many tasks, none of which wants its cancel, may go on, or has a lease.
    pub fn new(alloc: Global, tasks: usize) -> Result<TaskIndex, Memory>
        requires { tasks < 2 ^ 32 }
        ensures { IfOk result (λ x. x ≡ no_marks tasks) }
    {
        Ok(TaskIndex {
            to_cancel: FlagTree::new(alloc, tasks)?,
            to_go_on: FlagTree::new(alloc, tasks)?,
            leases: LeaseTable::new(alloc, tasks)?,
        })
    }

    /// The place of the first task that is aborting and of which no lease is out.
    pub fn first_to_cancel(&self) -> Option<usize>
        ensures { result ≡ position (λ up. up) self.now.to_cancel }
    {
        self.to_cancel.first()
    }

    /// The place of the first task that is in progress and of which no lease is out.
    pub fn first_to_go_on(&self) -> Option<usize>
        ensures { result ≡ position (λ up. up) self.now.to_go_on }
    {
        self.to_go_on.first()
    }

    /// The place of the task that has the lease.
    pub fn holder(&self, number: u64) -> Option<usize>
        ensures { result ≡ position (is_number number) self.now.leases }
    {
        self.leases.holder(number)
    }

    /// Takes note of what the task at a place is now. A lease that it has got has a number above
    /// all that are out.
    pub fn note(&mut self, place: usize, task: &Task)
        requires known { place < length self.old.leases }
        requires next { (n : ℕ) → number_in task.now ≡ Some n → IsNext self.old.leases place n }
        ensures { self.new ≡ marked_at self.old place task.now }
    {
        self.to_cancel.put(place, wants_cancel(task));
        self.to_go_on.put(place, may_go_on(task));
        self.leases.put(place, number_of(task.lease));
    }

    /// Takes note of what all tasks are now, where none has got a lease or lost one.
    pub fn note_all(&mut self, tasks: &[Task])
        requires { self.old.leases ≡ map number_in tasks.now }
        ensures { self.new ≡ marks_of tasks.now }
    {
        for (place, task) in tasks.iter().enumerate() {
            self.to_cancel.put(place, wants_cancel(task));
            self.to_go_on.put(place, may_go_on(task));
        }
    }
}

// Whether the task is aborting and no lease of it is out.
fn wants_cancel(task: &Task) -> bool
    ensures { result ≡ wants_cancel task.now }
{
    task.phase.is_aborting() && task.is_free()
}

// Whether the task is in progress and no lease of it is out.
fn may_go_on(task: &Task) -> bool
    ensures { result ≡ may_go_on task.now }
{
    task.phase.is_in_progress() && task.is_free()
}

// The number of the lease.
fn number_of(lease: Option<Lease>) -> Option<u64>
    ensures { result ≡ number_of lease }
{
    lease.map(|lease| lease.number)
}
