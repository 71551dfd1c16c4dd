// What is shown of the state.
ghost use Rattle.std.specs.Prelude.{◌≡◌, ◌<◌, ◌^◌, IfOk, IfSome, length};
ghost use Rattle.std.specs.List.{position};
ghost use Rattle.plan_terms.specs.Change.{added};
ghost use Rattle.exec_terms.specs.Machine.{lists_now};
ghost use Rattle.exec_terms.specs.Words.{is_on};
ghost use Rattle.core_terms.specs.Shows.{adding_by, executor_state, load_shown, lost_ids, part_shown, parts_shown, removing_by, state_shown, task_shown, tasks_shown};

use crate::carried::Carried;
use crate::file::OpenFile;
use core_terms::{BrokerShown, ExecutorState, PartShown, Shown, StateShown, TaskShown};
use executor_core::Exec;
use load_model::Case;
use plan_terms::{ListOf, Memory, Part, Replicas, has};
use std::alloc::Global;
use user_tasks::{UserTask, task_id};

// What the executor does.
fn executor_state(exec: &Exec) -> ExecutorState
    ensures { result ≡ executor_state exec.now }
{
    if !exec.is_executing() {
        ExecutorState::NoTask
    } else if exec.stopped() {
        ExecutorState::Stopping
    } else if exec.is_moving_replicas() {
        ExecutorState::MovingReplicas
    } else {
        ExecutorState::MovingLeaders
    }
}

/// The tasks by phase, what the executor does, and how many partitions have loads.
pub fn state_shown(file: &OpenFile, exec: &Exec, valid: u32) -> StateShown
    ensures { result ≡ state_shown file.now valid exec.now }
{
    StateShown {
        counts: exec.phase_counts(),
        state: executor_state(exec),
        valid,
        all: file.case().parts().len() as u32,
    }
}

/// What each broker of the present cluster carries on the present lists. Each list is looked at
/// once.
pub fn load_shown(alloc: Global, case: &Case, exec: &Exec) -> Result<ListOf<BrokerShown>, Memory>
    requires { length exec.now.base ≡ length case.now.parts }
    ensures { IfOk result (λ l. l ≡ load_shown case.now (lists_now exec.now)) }
{
    let places = exec.task_places(alloc)?;
    let mut carried = Carried::new(alloc, case)?;
    let end = case.parts().len();
    for part in 0..end {
        carried.add_list(case, part, exec.list_by(part, places[part]));
    }
    Ok(ListOf::new(carried.into_rows()))
}

// The ids of the lost brokers.
fn lost_ids(alloc: Global, case: &Case) -> Result<ListOf<u32>, Memory>
    ensures { IfOk result (λ l. l ≡ lost_ids case.now) }
{
    let mut ids = Vec::new(alloc);
    for broker in case.brokers() {
        if broker.state.is_dead() {
            ids.push(broker.id)?;
        }
    }
    Ok(ListOf::new(ids))
}

// The members of the new list that the old one lacks.
fn added(alloc: Global, before: &[u32], after: &[u32]) -> Result<Replicas, Memory>
    ensures { IfOk result (λ r. r ≡ added before.now after.now) }
{
    let ids = after
        .iter()
        .copied()
        .filter(|b| !has(before, *b))
        .collect(alloc)?;
    Ok(Replicas::new(ids))
}

// What is added to the list of a partition just now, and what is removed, given the place of its
// task.
fn moving(alloc: Global, exec: &Exec, task: Option<u32>) -> Result<(Replicas, Replicas), Memory>
    requires { IfSome task (λ i. i < length exec.now.tasks) }
    ensures adding { IfOk result (λ r. r.0 ≡ adding_by exec.now task) }
    ensures removing { IfOk result (λ r. r.1 ≡ removing_by exec.now task) }
{
    let none = Replicas::new(Vec::new(alloc));
    let Some(place) = task else {
        return Ok((Replicas::new(Vec::new(alloc)), none));
    };
    let task = exec.task(place);
    if !task.phase.in_flight() {
        return Ok((Replicas::new(Vec::new(alloc)), none));
    }
    let before = task.before.as_slice();
    let after = task.after.as_slice();
    Ok((added(alloc, before, after)?, added(alloc, after, before)?))
}

// A partition with its list, given the place of its task, where it has one.
fn part_shown(
    alloc: Global,
    exec: &Exec,
    place: usize,
    task: Option<u32>,
    part: &Part,
) -> Result<PartShown, Memory>
    requires place { place < length exec.now.base }
    requires task { task ≡ position (is_on place) exec.now.tasks }
    ensures { IfOk result (λ s. s ≡ part_shown exec.now (place, part.now)) }
{
    let (adding, removing) = moving(alloc, exec, task)?;
    Ok(PartShown {
        topic: part.topic.copy(alloc)?,
        number: part.number,
        replicas: Replicas::of(alloc, exec.list_by(place, task))?,
        adding,
        removing,
    })
}

// The partitions with their lists. The task of each is found in one pass over the tasks.
fn parts_shown(alloc: Global, parts: &[Part], exec: &Exec) -> Result<ListOf<PartShown>, Memory>
    requires { length exec.now.base ≡ length parts.now }
    ensures { IfOk result (λ l. l ≡ parts_shown parts.now exec.now) }
{
    let places = exec.task_places(alloc)?;
    let mut shown = Vec::new(alloc);
    for (place, part) in parts.iter().enumerate() {
        shown.push(part_shown(alloc, exec, place, places[place], part)?)?;
    }
    Ok(ListOf::new(shown))
}

/// The lost brokers of the present cluster, and the file's partitions with their lists.
pub fn cluster_shown(
    alloc: Global,
    file: &OpenFile,
    case: &Case,
    exec: &Exec,
) -> Result<Shown, Memory>
    requires { length exec.now.base ≡ length file.now.cluster.parts }
    ensures { IfOk result
        (λ s. s
        ≡ Shown.ClusterState (lost_ids case.now) (parts_shown file.now.cluster.parts exec.now)) }
{
    let lost = lost_ids(alloc, case)?;
    let parts = parts_shown(alloc, file.case().parts(), exec)?;
    Ok(Shown::ClusterState(lost, parts))
}

// The user task at a place.
fn task_shown(place: usize, task: &UserTask) -> TaskShown
    requires { place < 2 ^ 63 }
    ensures { result ≡ task_shown (place, task.now) }
{
    TaskShown {
        id: task_id(place as u64 + 1),
        op: task.ask.op,
        status: task.status,
    }
}

/// The user tasks.
pub fn tasks_shown(alloc: Global, tasks: &[UserTask]) -> Result<ListOf<TaskShown>, Memory>
    ensures { IfOk result (λ l. l ≡ tasks_shown tasks.now) }
{
    let mut shown = Vec::new(alloc);
    for (place, task) in tasks.iter().enumerate() {
        shown.push(task_shown(place, task))?;
    }
    Ok(ListOf::new(shown))
}
