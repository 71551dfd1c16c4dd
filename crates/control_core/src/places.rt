// The places of user tasks and jobs, the first first. What only open user tasks can be is looked
// for among those alone.
ghost use Rattle.std.specs.Prelude.{◌≡◌, ◌<◌, IfSome, find, is_none, length, true};
ghost use Rattle.std.specs.List.{position, list_any, zip};
ghost use Rattle.user_tasks.specs.Tasks.{is_open};
ghost use Rattle.core_terms.specs.State.{job_at};
ghost use Rattle.core_terms.specs.Jobs.{is_active, is_in_execution, plans_execution, user_task_at};
ghost use Rattle.core_terms.specs.Plans.{has_ticket, waits};
ghost use Rattle.control_core.specs.Desks.{open_places};

use core_cases::is_dry;
use core_terms::Job;
use user_tasks::{Status, UserTask};

// Whether the plan of the user task at a place is carried out.
fn is_in_execution_at(tasks: &[UserTask], place: usize) -> bool
    ensures { result ≡ is_in_execution (user_task_at tasks.now place).status }
{
    match tasks.get(place) {
        Some(task) => matches!(task.status, Status::InExecution),
        None => false,
    }
}

// Whether the user task at a place waits for its plan.
fn is_active_at(tasks: &[UserTask], place: usize) -> bool
    ensures { result ≡ is_active (user_task_at tasks.now place).status }
{
    match tasks.get(place) {
        Some(task) => matches!(task.status, Status::Active),
        None => false,
    }
}

// Whether that plan is being made, to be carried out.
fn plans_execution_at(tasks: &[UserTask], place: usize) -> bool
    ensures { result ≡ plans_execution (user_task_at tasks.now place) }
{
    match tasks.get(place) {
        Some(task) => matches!(task.status, Status::Active) && !is_dry(&task.ask),
        None => false,
    }
}

// Whether no planner has the job at a place.
fn is_free_at(jobs: &[Job], place: usize) -> bool
    ensures { result ≡ is_none (job_at jobs.now place).ticket }
{
    match jobs.get(place) {
        Some(job) => job.ticket.is_none(),
        None => true,
    }
}

// Whether the job at a place is active and no planner has it.
fn waits_at(tasks: &[UserTask], jobs: &[Job], place: usize) -> bool
    ensures { result ≡ waits (user_task_at tasks.now place, job_at jobs.now place) }
{
    is_active_at(tasks, place) && is_free_at(jobs, place)
}

// The first of these places whose user task's plan is carried out.
fn executing_among(tasks: &[UserTask], places: &[usize]) -> Option<usize>
    ensures { result ≡ find (λ i. is_in_execution (user_task_at tasks.now i).status) places.now }
{
    places
        .iter()
        .copied()
        .find(|place| is_in_execution_at(tasks, *place))
}

// The first of these places whose user task's plan is being made, to be carried out.
fn planning_among(tasks: &[UserTask], places: &[usize]) -> Option<usize>
    ensures { result ≡ find (λ i. plans_execution (user_task_at tasks.now i)) places.now }
{
    places
        .iter()
        .copied()
        .find(|place| plans_execution_at(tasks, *place))
}

// The first of these places whose job waits.
fn waiting_among(tasks: &[UserTask], jobs: &[Job], places: &[usize]) -> Option<usize>
    ensures { result ≡ find (λ i. waits (user_task_at tasks.now i, job_at jobs.now i)) places.now }
{
    places
        .iter()
        .copied()
        .find(|place| waits_at(tasks, jobs, *place))
}

/// The first user task whose plan is carried out.
pub fn first_in_execution(tasks: &[UserTask], open_tasks: &[usize]) -> Option<usize>
    requires { open_tasks.now ≡ open_places tasks.now }
    ensures place { result ≡ position (λ t. is_in_execution t.status) tasks.now }
    ensures within { IfSome result
        (λ i. (i < length tasks.now) × (is_open (user_task_at tasks.now i).status ≡ true)) }
{
    executing_among(tasks, open_tasks)
}

/// The first one whose plan is being made, to be carried out.
pub fn first_planning(tasks: &[UserTask], open_tasks: &[usize]) -> Option<usize>
    requires { open_tasks.now ≡ open_places tasks.now }
    ensures { result ≡ position plans_execution tasks.now }
{
    planning_among(tasks, open_tasks)
}

/// Whether there is one.
#[tactic(auto, using(crate::proofs::Open::planning_any))]
pub fn any_planning(tasks: &[UserTask], open_tasks: &[usize]) -> bool
    requires { open_tasks.now ≡ open_places tasks.now }
    ensures { result ≡ list_any plans_execution tasks.now }
{
    first_planning(tasks, open_tasks).is_some()
}

/// The first job that waits for a planner.
pub fn first_waiting(tasks: &[UserTask], jobs: &[Job], open_tasks: &[usize]) -> Option<usize>
    requires places { open_tasks.now ≡ open_places tasks.now }
    requires one_each { length jobs.now ≡ length tasks.now }
    ensures place { result ≡ position waits (zip tasks.now jobs.now) }
    ensures within { IfSome result (λ i. (i < length tasks.now) × (i < length jobs.now)) }
{
    waiting_among(tasks, jobs, open_tasks)
}

// Whether a planner has the job under this ticket.
fn has_ticket(job: &Job, ticket: u64) -> bool
    ensures { result ≡ has_ticket ticket job.now }
{
    match job.ticket {
        None => false,
        Some(number) => number == ticket,
    }
}

// Whether a planner has the job at a place under it.
fn has_ticket_at(jobs: &[Job], place: usize, ticket: u64) -> bool
    ensures { result ≡ has_ticket ticket (job_at jobs.now place) }
{
    match jobs.get(place) {
        Some(job) => has_ticket(job, ticket),
        None => false,
    }
}

/// The first of these places whose job a planner has under this ticket.
pub fn holder_among(jobs: &[Job], places: &[usize], ticket: u64) -> Option<usize>
    ensures { result ≡ find (λ i. has_ticket ticket (job_at jobs.now i)) places.now }
{
    places
        .iter()
        .copied()
        .find(|place| has_ticket_at(jobs, *place, ticket))
}
