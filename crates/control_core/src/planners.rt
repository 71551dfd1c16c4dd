// Jobs and their tickets.
ghost use Rattle.std.specs.Prelude.{◌≡◌, ◌+◌, ◌<◌, ◌^◌, Some, true, IfOk, IfSome, OnOk, OnErr, length};
ghost use Rattle.plan_terms.specs.Belongs.{Belongs};
ghost use Rattle.exec_terms.specs.Settled.{settled_lists};
ghost use Rattle.core_terms.specs.Jobs.{is_done_at_once, user_task_at, with_plan, MayLaunch};
ghost use Rattle.core_terms.specs.Sound.{AreTickets};
ghost use Rattle.user_tasks.specs.Tasks.{is_open};
ghost use Rattle.user_tasks.specs.declared.table.UserTask.{UserTask};
ghost use Rattle.core_terms.specs.Plans.{first_waiting, goal_failed, holder_of, is_failure_for, is_plan_for, planned_back, problem_at, reply_plan_back, ticketed, unticketed, with_failure};

use crate::desk::Desk;
use crate::places::{first_waiting, holder_among};
use core_cases::{case_of, failure_is_for, is_dry, plan_is_for};
use core_terms::{Broken, Problem, Reply};
use goal_set::{Failure, Plan};
use load_model::{Assign, Case};
use plan_terms::{ListOf, Memory, Proposal};
use std::alloc::Global;
use user_tasks::{Ask, Status};

/// Whether the plan of a request is done as it stands, where it makes these changes.
pub fn is_done_at_once(ask: &Ask, changes: &[Proposal]) -> bool
    ensures { (t : UserTask) → t.ask ≡ ask.now → result ≡ is_done_at_once t changes.now }
{
    match changes {
        [] => true,
        [_, ..] => is_dry(ask),
    }
}

// The goal that a failure is of, and how far it stays broken.
fn broken_of(failure: &Failure) -> Broken
    ensures { result ≡ record { goal = goal_failed failure.now; left = failure.now.left } }
{
    Broken {
        goal: failure.goal(),
        left: failure.measure(),
    }
}

impl Desk {
    /// The place of the first job that waits for a planner.
    pub fn first_waiting(&self) -> Option<usize>
        ensures place { result ≡ first_waiting self.now }
        ensures within { IfSome result (λ i. i < length self.now.jobs) }
    {
        first_waiting(self.tasks.tasks(), &self.jobs, &self.open_tasks)
    }

    /// The place of the job of a ticket, whose user task is open.
    pub fn holder_of(&self, ticket: u64) -> Option<usize>
        requires { AreTickets self.now }
        ensures place { result ≡ holder_of ticket self.now.jobs }
        ensures within { IfSome result (λ i. i < length self.now.jobs) }
    {
        holder_among(&self.jobs, &self.open_tasks, ticket)
    }

    /// The settled lists, which belong to this case.
    pub fn settled(&self, alloc: Global, case: &Case) -> Result<Assign, Memory>
        requires { Belongs case.now (settled_lists self.now.exec) }
        ensures { IfOk result (λ l. l ≡ settled_lists self.now.exec) }
    {
        let _few = case.parts();
        Ok(Assign::of(self.exec.settled_lists(alloc)?))
    }

    /// What a planner is given for the job at a place, in the present cluster.
    #[tactic(auto, unfolding(core_terms::specs::Plans::problem_at))]
    pub fn problem(&self, alloc: Global, present: Case, place: usize) -> Result<Problem, Memory>
        requires place { place < length self.now.jobs }
        requires belongs { Belongs (problem_at present self.now place).case
            (problem_at present self.now place).start }
        ensures { IfOk result (λ p. p ≡ problem_at present self.now place) }
    {
        let case = case_of(alloc, &self.tasks.tasks()[place].ask, present)?;
        let start = self.settled(alloc, &case)?;
        let goals = self.jobs[place].goals.copy(alloc)?;
        Ok(Problem::new(case, start, goals))
    }

    /// Gives the job at a place to a planner, under the next ticket.
    pub fn give_ticket(&mut self, place: usize) -> u64
        requires few { self.old.tickets < 2 ^ 63 }
        requires place { place < length self.old.jobs }
        ensures state { self.new ≡ ticketed self.old (Some place) }
        ensures ticket { result ≡ self.old.tickets + 1 }
    {
        self.tickets += 1;
        self.jobs[place].ticket = Some(self.tickets);
        self.tickets
    }

    /// The ticket of the job at a place ends.
    pub fn end_ticket(&mut self, place: usize)
        requires { place < length self.old.jobs }
        ensures { self.new ≡ unticketed self.old place }
    {
        self.jobs[place].ticket = None;
    }

    /// A ticket is given back.
    pub fn plan_back(&mut self, ticket: u64) -> Reply
        requires { AreTickets self.old }
        ensures state { self.new ≡ planned_back self.old (holder_of ticket self.old.jobs) }
        ensures reply { result ≡ reply_plan_back self.old (holder_of ticket self.old.jobs) }
    {
        match self.holder_of(ticket) {
            None => Reply::StaleJob(self.tickets),
            Some(place) => {
                self.end_ticket(place);
                Reply::Given
            }
        }
    }

    /// Whether a plan is for what a planner would be given for the job at a place now.
    #[tactic(auto, unfolding(core_terms::specs::Plans::problem_at))]
    pub fn is_plan_for(
        &self,
        alloc: Global,
        present: Case,
        place: usize,
        plan: &Plan,
    ) -> Result<bool, Memory>
        requires { place < length self.now.jobs }
        ensures { IfOk result (λ b. b ≡ is_plan_for present self.now place plan.now) }
    {
        let case = case_of(alloc, &self.tasks.tasks()[place].ask, present)?;
        let start = self.exec.settled_lists(alloc)?;
        Ok(plan_is_for(plan, &case, &start, &self.jobs[place].goals))
    }

    /// Whether a failure is of that.
    #[tactic(auto, unfolding(core_terms::specs::Plans::problem_at))]
    pub fn is_failure_for(
        &self,
        alloc: Global,
        present: Case,
        place: usize,
        failure: &Failure,
    ) -> Result<bool, Memory>
        requires { place < length self.now.jobs }
        ensures { IfOk result (λ b. b ≡ is_failure_for present self.now place failure.now) }
    {
        let case = case_of(alloc, &self.tasks.tasks()[place].ask, present)?;
        let start = self.exec.settled_lists(alloc)?;
        Ok(failure_is_for(failure, &case, &start, &self.jobs[place].goals))
    }

    /// The goal of the failure fails the job at a place.
    pub fn take_failure(&mut self, place: usize, failure: &Failure)
        requires place { place < length self.old.jobs }
        requires is_open { is_open (user_task_at self.old.tasks place).status ≡ true }
        ensures { self.new ≡ with_failure self.old place failure.now }
    {
        let broken = broken_of(failure);
        let job = &mut self.jobs[place];
        job.ticket = None;
        job.broken = Some(broken);
        self.set_status(place, Status::CompletedWithError);
    }

    /// The plan of the job at a place makes these changes: they are launched, where there are any
    /// and it is no dry run.
    pub fn take_plan(
        &mut self,
        alloc: Global,
        place: usize,
        changes: Vec<Proposal>,
    ) -> Result<(), Memory>
        requires place { place < length self.old.jobs }
        requires is_open { is_open (user_task_at self.old.tasks place).status ≡ true }
        requires may { MayLaunch self.old place changes.items }
        ensures state { OnOk result (self.new ≡ with_plan self.old place changes.items) }
        ensures err { OnErr result (self.new ≡ self.old) }
    {
        let done = is_done_at_once(&self.tasks.tasks()[place].ask, &changes);
        if !done && self.exec.launch(alloc, &changes).is_err() {
            return Err(Memory);
        }
        let job = &mut self.jobs[place];
        job.ticket = None;
        job.proposals = ListOf::new(changes);
        let status = if done {
            Status::Completed
        } else {
            Status::InExecution
        };
        self.set_status(place, status);
        Ok(())
    }
}
