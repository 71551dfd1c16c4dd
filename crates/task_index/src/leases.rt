// The leases that are out.
ghost use Rattle.std.specs.Prelude.{◌≡◌, ◌<◌, ◌≤◌, ◌^◌, ℕ, IfOk, IfSome, Option, Some, None, length, get_or, slice_set, replicate};
ghost use Rattle.std.specs.List.{position};
ghost use Rattle.task_index.specs.Leases.{is_number, lease_at, IsNext};

use plan_terms::Memory;
use std::alloc::Global;
use std::marker::Model;

/// The number of each task's lease, where it has one. Numbers are given in rising order. The task
/// that has a lease is found by bisection of the leases that are out; the end of one moves those
/// with higher numbers down. Only `new` takes memory.
#[derive(Drop)]
pub struct LeaseTable {
    // by task
    leases: Vec<Option<u64>>,
    // the numbers of the leases that are out, which rise
    numbers: Vec<u64>,
    // beside each number, the task that has the lease
    holders: Vec<u32>,
}

impl Model for LeaseTable {
    ghost use Rattle.std.specs.Prelude.{List, Option, ℕ, vec_capacity};
    ghost use Rattle.task_index.specs.Leases.{AreFiled};

    ghost Value = { List (Option ℕ) };

    ghost view = { λ t. t.leases.items };

    ghost invariant = { λ t. AreFiled t.leases.items t.numbers.items t.holders.items
        (vec_capacity t.numbers) (vec_capacity t.holders) };
}

impl LeaseTable {
    /// So many tasks, none with a lease.
    pub fn new(alloc: Global, tasks: usize) -> Result<LeaseTable, Memory>
        requires { tasks < 2 ^ 32 }
        ensures { IfOk result (λ t. t ≡ replicate tasks None) }
    {
        Ok(LeaseTable {
            leases: vec![in alloc; None; tasks]?,
            numbers: Vec::with_capacity(alloc, tasks)?,
            holders: Vec::with_capacity(alloc, tasks)?,
        })
    }

    /// The task that has the lease.
    pub fn holder(&self, number: u64) -> Option<usize>
        ensures { result ≡ position (is_number number) self.now }
    {
        let place = place_of(self.numbers.as_slice(), number)?;
        Some(self.holders[place] as usize)
    }

    /// The task has this lease, or none.
    pub fn put(&mut self, task: usize, lease: Option<u64>)
        requires known { task < length self.old }
        requires next { (n : ℕ) → lease ≡ Some n → IsNext self.old task n }
        ensures { self.new ≡ slice_set self.old task lease }
    {
        match lease {
            None => self.release(task),
            Some(number) => self.lend(task, number),
        }
    }

    // The task has this lease.
    fn lend(&mut self, task: usize, number: u64)
        requires known { task < length self.old }
        requires next { IsNext self.old task number }
        ensures { self.new ≡ slice_set self.old task (Some number) }
    {
        if self.leases[task] != Some(number) {
            self.release(task);
            self.append(task, number);
        }
    }

    // The task, which has no lease, gets one whose number is above all that are out.
    fn append(&mut self, task: usize, number: u64)
        requires known { task < length self.old }
        requires free { lease_at self.old task ≡ None }
        requires above { (j m : ℕ) → lease_at self.old j ≡ Some m → m < number }
        ensures { self.new ≡ slice_set self.old task (Some number) }
    {
        self.leases[task] = Some(number);
        self.numbers.push_reserved(number);
        self.holders.push_reserved(task as u32);
    }

    // The task has no lease.
    fn release(&mut self, task: usize)
        requires known { task < length self.old }
        ensures { self.new ≡ slice_set self.old task None }
    {
        if let Some(number) = self.leases[task] {
            self.leases[task] = None;
            if let Some(place) = place_of(self.numbers.as_slice(), number) {
                self.numbers.remove(place);
                self.holders.remove(place);
            }
        }
    }
}

// The place of the number.
fn place_of(numbers: &[u64], number: u64) -> Option<usize>
    requires { (a b : ℕ) → a < b → b < length numbers.now
        → get_or numbers.now a 0 < get_or numbers.now b 0 }
    ensures known { IfSome result (λ a. a < length numbers.now) }
    ensures number { IfSome result (λ a. get_or numbers.now a 0 ≡ number) }
    ensures none { result ≡ None → (a : ℕ) → a < length numbers.now
        → get_or numbers.now a 0 ≡ number → ⊥ }
{
    match numbers.binary_search(&number) {
        Ok(place) => Some(place),
        Err(_) => None,
    }
}
