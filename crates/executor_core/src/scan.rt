// What the executor reads off the plain lists of its tasks and brokers, from the front.
ghost use Rattle.std.specs.Prelude.{◌≡◌, ◌<◌, ◌≤◌, ◌&&◌, ◌==◌, ℕ, None, IfOk, get_or, length, vec_len};
ghost use Rattle.std.specs.List.{All, list_any, count_by, position};
ghost use Rattle.exec_terms.specs.Words.{is_pending, is_in_progress, is_unfinished, is_on, is_replica_task, needs};
ghost use Rattle.exec_terms.specs.Stops.{is_host, has_died};

use exec_terms::{Host, Task};
use plan_terms::Memory;
use std::alloc::Global;

/// The first task that has not ended.
pub fn first_unfinished(tasks: &[Task]) -> Option<usize>
    ensures { result ≡ position (λ t. is_unfinished t.phase) tasks.now }
{
    tasks.iter().position(|t| t.phase.is_unfinished())
}

/// How many tasks wait.
pub fn count_pending(tasks: &[Task]) -> usize
    ensures { result ≡ count_by (λ t. is_pending t.phase) tasks.now }
{
    tasks.iter().filter(|t| t.phase.is_pending()).count()
}

/// How many tasks are in progress.
pub fn count_in_progress(tasks: &[Task]) -> usize
    ensures { result ≡ count_by (λ t. is_in_progress t.phase) tasks.now }
{
    tasks.iter().filter(|t| t.phase.is_in_progress()).count()
}

/// How many tasks that wait need the broker.
pub fn count_waiting_for(tasks: &[Task], broker: u32) -> usize
    ensures { result ≡ count_by (λ t. needs t broker && is_pending t.phase) tasks.now }
{
    tasks.iter().filter(|t| waits_for(t, broker)).count()
}

/// Whether the task waits and needs the broker.
pub fn waits_for(task: &Task, broker: u32) -> bool
    ensures { result ≡ (needs task.now broker && is_pending task.now.phase) }
{
    task.needs(broker) && task.phase.is_pending()
}

/// How many tasks in progress need the broker.
pub fn count_going_to(tasks: &[Task], broker: u32) -> usize
    ensures { result ≡ count_by (λ t. needs t broker && is_in_progress t.phase) tasks.now }
{
    tasks
        .iter()
        .filter(|t| t.needs(broker) && t.phase.is_in_progress())
        .count()
}

/// Whether the broker is known.
pub fn is_host(hosts: &[Host], broker: u32) -> bool
    ensures { result ≡ is_host hosts.now broker }
{
    hosts.iter().any(|h| h.id == broker)
}

/// Whether the broker is dead already.
pub fn has_died(hosts: &[Host], broker: u32) -> bool
    ensures { result ≡ has_died hosts.now broker }
{
    hosts.iter().any(|h| h.id == broker && h.dead)
}

/// Whether a task that moves replicas has not ended.
pub fn any_moving(tasks: &[Task]) -> bool
    ensures { result ≡ list_any (λ t. is_unfinished t.phase && is_replica_task t) tasks.now }
{
    tasks
        .iter()
        .any(|t| t.phase.is_unfinished() && t.is_replica_task())
}

/// The place of the task of each partition, found in one pass over the tasks.
pub fn places_by_part(
    alloc: Global,
    tasks: &[Task],
    parts: usize,
) -> Result<Vec<Option<u32>>, Memory>
    requires few { length tasks.now ≤ 10000 }
    requires known { All (λ t. t.part < parts) tasks.now }
    ensures long { IfOk result (λ places. vec_len places ≡ parts) }
    ensures each { IfOk result
        (λ places. (p : ℕ) → p < parts
        → get_or places.items p None ≡ position (is_on p) tasks.now) }
{
    let mut places = vec![in alloc; None; parts]?;
    for (place, task) in tasks.iter().enumerate() {
        let part = task.part as usize;
        if places[part].is_none() {
            places[part] = Some(place as u32);
        }
    }
    Ok(places)
}

/// The task of the partition.
pub fn first_on(tasks: &[Task], part: usize) -> Option<usize>
    ensures { result ≡ position (is_on part) tasks.now }
{
    tasks.iter().position(|t| t.part as usize == part)
}
