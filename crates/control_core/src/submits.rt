// Requests for plans.
ghost use Rattle.std.specs.Prelude.{◌≡◌, ◌++◌, ◌∷◌, ◌+◌, ◌<◌, ◌^◌, [], None, IfOk, IfSome, OnOk, OnErr, length, map, vec_capacity};
ghost use Rattle.std.specs.List.{All};
ghost use Rattle.user_tasks.specs.Tasks.{open_count};
ghost use Rattle.core_terms.specs.Asked.{goals_of};
ghost use Rattle.core_terms.specs.Jobs.{admitted, executing, id_at};
ghost use Rattle.core_terms.specs.Same.{same_ask};
ghost use Rattle.core_terms.specs.Submits.{ended, first_executing, found_at, named, open_refusal, outcome_of, place_of};

use crate::desk::Desk;
use crate::places::{first_in_execution, first_planning};
use core_cases::is_dry;
use core_terms::{Job, Named, Outcome, Reply};
use goal_set::GoalList;
use plan_terms::{ListOf, Memory, Part, Proposal};
use std::alloc::Global;
use user_tasks::{Ask, Status, UserTask, ids_are_distinct, number_of, task_id};
use uuid::Uuid;

// A proposal by the name of its partition.
fn named(alloc: Global, parts: &[Part], proposal: &Proposal) -> Result<Named, Memory>
    requires { proposal.now.part < length parts.now }
    ensures { IfOk result (λ n. n ≡ named parts.now proposal.now) }
{
    let part = &parts[proposal.part as usize];
    Ok(Named {
        topic: part.topic.copy(alloc)?,
        number: part.number,
        before: proposal.before.copy(alloc)?,
        after: proposal.after.copy(alloc)?,
    })
}

/// Proposals by the names of their partitions.
pub fn all_named(
    alloc: Global,
    parts: &[Part],
    proposals: &[Proposal],
) -> Result<ListOf<Named>, Memory>
    requires { All (λ p. p.part < length parts.now) proposals.now }
    ensures { IfOk result (λ l. l ≡ map (named parts.now) proposals.now) }
{
    let mut all = Vec::new(alloc);
    for proposal in proposals {
        all.push(named(alloc, parts, proposal)?)?;
    }
    Ok(ListOf::new(all))
}

// What came of a job that ended with an error.
fn ended(alloc: Global, parts: &[Part], job: &Job) -> Result<Outcome, Memory>
    requires { All (λ p. p.part < length parts.now) job.now.proposals }
    ensures { IfOk result (λ o. o ≡ ended parts.now job.now job.now.broken) }
{
    match job.broken {
        Some(broken) => Ok(Outcome::Failed(broken.goal, broken.left)),
        None => Ok(Outcome::Ended {
            aborted: job.aborted,
            dead: job.dead,
            proposals: all_named(alloc, parts, job.proposals.as_slice())?,
        }),
    }
}

// What came of a user task.
fn outcome_of(alloc: Global, parts: &[Part], status: Status, job: &Job) -> Result<Outcome, Memory>
    requires { All (λ p. p.part < length parts.now) job.now.proposals }
    ensures { IfOk result (λ o. o ≡ outcome_of parts.now status job.now) }
{
    match status {
        Status::Active | Status::InExecution => Ok(Outcome::Open),
        Status::Completed => {
            let proposals = all_named(alloc, parts, job.proposals.as_slice())?;
            Ok(Outcome::Done(proposals))
        }
        Status::CompletedWithError => ended(alloc, parts, job),
    }
}

// The place of the user task of an id, read from the id itself.
fn place_of(tasks: &[UserTask], id: Uuid) -> Option<usize>
    requires { length tasks.now < 2 ^ 63 }
    ensures place { result ≡ place_of id tasks.now }
    ensures within { IfSome result (λ i. i < length tasks.now) }
{
    ids_are_distinct();
    let number = number_of(id)?;
    let all = tasks.len() as u64;
    if number == 0 || number > all {
        return None;
    }
    Some(number as usize - 1)
}

// Whether two requests ask the same.
fn same_ask(one: &Ask, other: &Ask) -> bool
    ensures { result ≡ same_ask one.now other.now }
{
    one.is_same(other)
}

// A job that waits for a planner.
fn new_job(alloc: Global, goals: GoalList) -> Job
    ensures { result
        ≡ record {
          goals = goals;
          ticket = None;
          proposals = [];
          broken = None;
          aborted = 0;
          dead = 0;
        } }
{
    Job {
        goals,
        ticket: None,
        proposals: ListOf::new(Vec::new(alloc)),
        broken: None,
        aborted: 0,
        dead: 0,
    }
}

// Adds a job for which there is room.
fn add_job(jobs: &mut Vec<Job>, job: Job)
    requires { length jobs.old.items < vec_capacity jobs.old }
    ensures { jobs.new.items ≡ jobs.old.items ++ job ∷ [] }
{
    let _ = jobs.push(job);
}

// Adds a place for which there is room.
fn add_place(places: &mut Vec<usize>, place: usize)
    requires { length places.old.items < vec_capacity places.old }
    ensures { places.new.items ≡ places.old.items ++ place ∷ [] }
{
    let _ = places.push(place);
}

impl Desk {
    /// The user task of an id, if it was asked the same.
    pub fn find(&self, alloc: Global, parts: &[Part], id: Uuid, ask: &Ask) -> Result<Reply, Memory>
        requires { All (λ j. All (λ p. p.part < length parts.now) j.proposals) self.now.jobs }
        ensures { IfOk result
            (λ r. r ≡ found_at parts.now self.now id ask.now (place_of id self.now.tasks)) }
    {
        let tasks = self.tasks.tasks();
        match place_of(tasks, id) {
            None => Ok(Reply::NoSuchTask(id)),
            Some(place) => {
                let task = &tasks[place];
                if !same_ask(&task.ask, ask) {
                    return Ok(Reply::OtherRequest(id));
                }
                let outcome = outcome_of(alloc, parts, task.status, &self.jobs[place])?;
                Ok(Reply::Task(id, task.status, outcome))
            }
        }
    }

    // The user task whose execution is unfinished; where no task is, the one whose plan is made to
    // be carried out.
    fn executing(&self) -> Option<usize>
        ensures { result ≡ executing self.now }
    {
        let tasks = self.tasks.tasks();
        if self.exec.is_executing() {
            first_in_execution(tasks, &self.open_tasks)
        } else {
            first_planning(tasks, &self.open_tasks)
        }
    }

    // The user task that stands in the way of a request.
    fn first_executing(&self, ask: &Ask) -> Option<usize>
        ensures { result ≡ first_executing self.now ask.now }
    {
        if is_dry(ask) { None } else { self.executing() }
    }

    // How many user tasks are open.
    #[tactic(auto, using(crate::proofs::Open::open_counted))]
    fn open_count(&self) -> usize
        ensures { result ≡ open_count self.now.tasks }
    {
        self.open_tasks.len()
    }

    /// Why a request can't be one more user task: one stands in its way, or as many are open as
    /// there may be.
    pub fn open_refusal(&self, ask: &Ask) -> Option<Reply>
        ensures refusal { result ≡ open_refusal self.now ask.now }
        ensures few { result ≡ None → open_count self.now.tasks < 16 }
    {
        let _few = self.tasks.tasks();
        if let Some(place) = self.first_executing(ask) {
            return Some(Reply::Executing(task_id(place as u64 + 1)));
        }
        if self.open_count() >= 16 {
            return Some(Reply::TooManyActive);
        }
        None
    }

    /// Makes the request a user task, and answers its id.
    pub fn admit(&mut self, alloc: Global, ask: &Ask, goals: GoalList) -> Result<Uuid, Memory>
        requires goals { goals ≡ goals_of ask.now }
        requires few { open_count self.old.tasks < 16 }
        ensures state { OnOk result (self.new ≡ admitted self.old ask.now) }
        ensures id { IfOk result (λ id. id ≡ id_at (length self.old.tasks)) }
        ensures err { OnErr result (self.new ≡ self.old) }
    {
        let ask = ask.copy(alloc)?;
        self.jobs.reserve(1)?;
        self.open_tasks.reserve(1)?;
        let place = self.tasks.tasks().len();
        match self.tasks.admit(ask) {
            Ok(id) => {
                add_job(&mut self.jobs, new_job(alloc, goals));
                add_place(&mut self.open_tasks, place);
                Ok(id)
            }
            Err(_) => Err(Memory),
        }
    }
}
