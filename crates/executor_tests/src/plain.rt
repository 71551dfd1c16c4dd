// What the executor answers, by scans of its tasks from the front.
ghost use Rattle.std.specs.Prelude.{◌<◌, IfSome, length};

use exec_terms::{Given, Idle, LeaseFault, Task, Work, WorkKind};
use executor_core::Exec;
use plan_terms::Caps;
use std::alloc::Global;
use std::process::Abort;

// The tasks, in their order.
fn tasks_of<'a>(rt: &impl Abort, alloc: Global, exec: &'a Exec) -> Vec<&'a Task> {
    let mut tasks = Vec::new(alloc);
    for number in 0..exec.tasks() {
        tasks.push(exec.task(number)).expect(rt, "memory");
    }
    tasks
}

fn number(rt: &impl Abort, place: usize) -> u32 {
    u32::try_from(place).expect(rt, "too many tasks")
}

/// What `next_work` answers.
pub fn next_work(rt: &impl Abort, alloc: Global, exec: &Exec) -> Result<Given, Idle> {
    let tasks = tasks_of(rt, alloc, exec);
    let (place, starts) = match first_begun(&tasks) {
        Some(place) => (place, false),
        None => match first_to_start(&tasks, &exec.caps()) {
            Some(place) => (place, true),
            None => return Err(idle(&tasks)),
        },
    };
    let task = tasks[place];
    let is_cancelled = task.phase.is_aborting();
    Ok(Given {
        lease: exec.leases().saturating_add(1),
        task: number(rt, place),
        part: task.part,
        work: if is_cancelled {
            Work::Cancel
        } else {
            task.next_step()
        },
        starts,
    })
}

/// What `test_lease` answers.
pub fn test_lease(
    rt: &impl Abort,
    alloc: Global,
    exec: &Exec,
    lease: u64,
    kind: WorkKind,
) -> Result<u32, LeaseFault> {
    let tasks = tasks_of(rt, alloc, exec);
    match tasks.iter().position(|t| t.holds_for(lease, kind)) {
        None => Err(LeaseFault::Stale(exec.leases())),
        Some(place) if tasks[place].phase.is_aborting() && !kind.is_cancel() => {
            Err(LeaseFault::AbortAsked)
        }
        Some(place) => Ok(number(rt, place)),
    }
}

/// What `held` answers.
pub fn held(rt: &impl Abort, alloc: Global, exec: &Exec, lease: u64) -> Option<Given> {
    let tasks = tasks_of(rt, alloc, exec);
    let place = tasks.iter().position(|t| t.holds(lease))?;
    let lent = tasks[place].lease?;
    Some(Given {
        lease: lent.number,
        task: number(rt, place),
        part: tasks[place].part,
        work: lent.work,
        starts: false,
    })
}

// The first task that wants its cancel, or else the first that may go on.
fn first_begun(tasks: &[&Task]) -> Option<usize>
    ensures { IfSome result (λ place. place < length tasks.now) }
{
    let cancel = tasks
        .iter()
        .position(|t| t.phase.is_aborting() && t.is_free());
    match cancel {
        Some(place) => Some(place),
        None => tasks
            .iter()
            .position(|t| t.phase.is_in_progress() && t.is_free()),
    }
}

// The first task that waits and for which there is room.
fn first_to_start(tasks: &[&Task], caps: &Caps) -> Option<usize>
    ensures { IfSome result (λ place. place < length tasks.now) }
{
    for (place, task) in tasks.iter().enumerate() {
        if task.phase.is_pending() && has_room(tasks, caps, task) {
            return Some(place);
        }
    }
    None
}

// Whether the caps leave room for the task.
fn has_room(tasks: &[&Task], caps: &Caps, task: &Task) -> bool {
    if task.is_replica_task() {
        movers(tasks) < caps.cluster as usize
            && may_gain(tasks, caps, task)
            && may_lose(tasks, caps, task)
    } else {
        leaders(tasks) < caps.leader as usize && !any_moving(tasks)
    }
}

// How many tasks in flight move replicas.
fn movers(tasks: &[&Task]) -> usize {
    tasks
        .iter()
        .filter(|t| t.phase.in_flight() && t.is_replica_task())
        .count()
}

// Whether a task that moves replicas hasn't ended.
fn any_moving(tasks: &[&Task]) -> bool {
    tasks
        .iter()
        .any(|t| t.phase.is_unfinished() && t.is_replica_task())
}

// How many tasks in flight change a leader alone.
fn leaders(tasks: &[&Task]) -> usize {
    tasks
        .iter()
        .filter(|t| t.phase.in_flight() && !t.is_replica_task())
        .count()
}

// Whether fewer tasks in flight than the cap add each broker that the task adds.
fn may_gain(tasks: &[&Task], caps: &Caps, task: &Task) -> bool {
    for broker in task.after.as_slice() {
        if task.adds(*broker) && adding(tasks, *broker) >= caps.broker as usize {
            return false;
        }
    }
    true
}

// Whether fewer tasks in flight than the cap remove each broker that the task removes.
fn may_lose(tasks: &[&Task], caps: &Caps, task: &Task) -> bool {
    for broker in task.before.as_slice() {
        if task.removes(*broker) && removing(tasks, *broker) >= caps.broker as usize {
            return false;
        }
    }
    true
}

// How many tasks in flight add the broker.
fn adding(tasks: &[&Task], broker: u32) -> usize {
    tasks
        .iter()
        .filter(|t| t.phase.in_flight() && t.adds(broker))
        .count()
}

// How many tasks in flight remove the broker.
fn removing(tasks: &[&Task], broker: u32) -> usize {
    tasks
        .iter()
        .filter(|t| t.phase.in_flight() && t.removes(broker))
        .count()
}

// Whether a task waits.
fn any_pending(tasks: &[&Task]) -> bool {
    tasks.iter().any(|t| t.phase.is_pending())
}

// Whether a task has not ended.
fn any_unfinished(tasks: &[&Task]) -> bool {
    tasks.iter().any(|t| t.phase.is_unfinished())
}

// Why there is no work.
fn idle(tasks: &[&Task]) -> Idle {
    if any_pending(tasks) {
        Idle::CapsFull
    } else if any_unfinished(tasks) {
        Idle::AllLeased
    } else {
        Idle::NoExecution
    }
}
