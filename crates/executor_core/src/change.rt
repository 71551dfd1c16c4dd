// The tasks of a launch, what is kept beside them, and what an event does to all of them.
ghost use Rattle.std.specs.Prelude.{◌≡◌, ◌<◌, ◌≤◌, ◌^◌, true, if◌then◌else◌, length, map, slice_set, IfOk, get_or};
ghost use Rattle.exec_terms.specs.Words.{union_of};
ghost use Rattle.exec_terms.specs.Machine.{task_of};
ghost use Rattle.exec_terms.specs.Stops.{stopped_by, killed_by, marked};
ghost use Rattle.exec_terms.specs.Runs.{hosts_of};
ghost use Rattle.task_planner.specs.Queue.{slot_at, ended};
ghost use Rattle.executor_core.specs.Kept.{slot_of};

use crate::scan::waits_for;
use exec_terms::{Host, Phase, Task, union};
use plan_terms::{Memory, Proposal, Replicas, has};
use std::alloc::Global;
use task_planner::TaskQueue;

/// The same lists.
pub fn copies(alloc: Global, lists: &[Replicas]) -> Result<Vec<Replicas>, Memory>
    ensures { IfOk result (λ v. v.items ≡ lists.now) }
{
    let mut copies = Vec::new(alloc);
    for list in lists {
        copies.push(list.copy(alloc)?)?;
    }
    Ok(copies)
}

// A task that waits.
fn new_task(alloc: Global, chunks: &[u32], proposal: &Proposal) -> Result<Task, Memory>
    ensures { IfOk result (λ t. t ≡ task_of chunks.now proposal.now) }
{
    Ok(Task {
        part: proposal.part,
        before: proposal.before.copy(alloc)?,
        after: proposal.after.copy(alloc)?,
        chunks: chunks_of(chunks, proposal.part),
        phase: Phase::Pending,
        done: 0,
        faults: 0,
        doomed: false,
        lease: None,
    })
}

// The copies that a replica of the partition takes.
fn chunks_of(chunks: &[u32], part: u32) -> u32
    ensures { result ≡ get_or chunks.now part 0 }
{
    match chunks.get(part as usize) {
        None => 0,
        Some(count) => *count,
    }
}

/// A task that waits for each proposal.
pub fn new_tasks(alloc: Global, chunks: &[u32], proposals: &[Proposal]) -> Result<Vec<Task>, Memory>
    ensures { IfOk result (λ tasks. tasks.items ≡ map (task_of chunks.now) proposals.now) }
{
    let mut tasks = Vec::new(alloc);
    for proposal in proposals {
        tasks.push(new_task(alloc, chunks, proposal)?)?;
    }
    Ok(tasks)
}

/// The list that each task's partition has while it is moved.
pub fn unions_of(alloc: Global, tasks: &[Task]) -> Result<Vec<Replicas>, Memory>
    ensures { IfOk result (λ unions. unions.items ≡ map union_of tasks.now) }
{
    let mut unions = Vec::new(alloc);
    for task in tasks {
        let list = union(alloc, task.before.as_slice(), task.after.as_slice())?;
        unions.push(list)?;
    }
    Ok(unions)
}

/// The same proposals.
pub fn proposal_copies(alloc: Global, proposals: &[Proposal]) -> Result<Vec<Proposal>, Memory>
    ensures { IfOk result (λ v. v.items ≡ proposals.now) }
{
    let mut copies = Vec::new(alloc);
    for proposal in proposals {
        copies.push(proposal.copy(alloc)?)?;
    }
    Ok(copies)
}

/// The brokers, each with whether it is among the dead ones.
pub fn hosts(alloc: Global, brokers: &[u32], dead: &[u32]) -> Result<Vec<Host>, Memory>
    ensures { IfOk result (λ hosts. hosts.items ≡ hosts_of brokers.now dead.now) }
{
    let mut hosts = Vec::new(alloc);
    for broker in brokers {
        hosts.push(Host {
            id: *broker,
            dead: has(dead, *broker),
        })?;
    }
    Ok(hosts)
}

/// Every task is stopped.
pub fn stop_all(tasks: &mut Vec<Task>, force: bool)
    ensures { tasks.new.items ≡ map (stopped_by force) tasks.old.items }
{
    for task in tasks.iter_mut() {
        task.stop(force);
    }
}

/// Every task learns of the broker's death.
pub fn kill_all(tasks: &mut Vec<Task>, broker: u32)
    ensures { tasks.new.items ≡ map (killed_by broker) tasks.old.items }
{
    for task in tasks.iter_mut() {
        task.kill(broker);
    }
}

/// The broker is dead.
pub fn mark_all(hosts: &mut Vec<Host>, broker: u32)
    ensures { hosts.new.items ≡ map (marked broker) hosts.old.items }
{
    for host in hosts.iter_mut() {
        host.mark(broker);
    }
}

// The task waits no longer, where it ends.
fn drop_if(queue: &mut TaskQueue, task: usize, ends: bool)
    requires small { task < 2 ^ 32 }
    requires known { task < length queue.old }
    requires waits { ends ≡ true → (slot_at queue.old task).waits ≡ true }
    ensures { queue.new
        ≡ (if ends then slice_set queue.old task (ended (slot_at queue.old task)) else queue.old) }
{
    if ends {
        queue.remove(task as u32);
    }
}

/// No task waits any longer.
pub fn drop_waiting(queue: &mut TaskQueue, tasks: &[Task])
    requires few { length tasks.now ≤ 10000 }
    requires queue { queue.old ≡ map slot_of tasks.now }
    ensures { queue.new ≡ map (λ t. ended (slot_of t)) tasks.now }
{
    for (i, task) in tasks.iter().enumerate() {
        drop_if(queue, i, task.phase.is_pending());
    }
}

/// The tasks that need the broker wait no longer.
pub fn drop_doomed(queue: &mut TaskQueue, tasks: &[Task], broker: u32)
    requires few { length tasks.now ≤ 10000 }
    requires queue { queue.old ≡ map slot_of tasks.now }
    ensures { queue.new ≡ map (λ t. slot_of (killed_by broker t)) tasks.now }
{
    for (i, task) in tasks.iter().enumerate() {
        drop_if(queue, i, waits_for(task, broker));
    }
}
