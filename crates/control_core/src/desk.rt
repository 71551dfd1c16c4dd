// All of the core's state but the samples.
ghost use Rattle.std.specs.Prelude.{◌≡◌, ◌↔◌, ◌<◌, IsTrue, is_some, ◌&&◌, ◌==◌, [], false, true, length, not, slice_set, if◌then◌else◌};
ghost use Rattle.std.specs.List.{count_by, filter, list_all, position};
ghost use Rattle.exec_terms.specs.Words.{is_completed};
ghost use Rattle.exec_terms.specs.Machine.{any_unfinished};
ghost use Rattle.core_terms.specs.Jobs.{is_in_execution, user_task_at, with_status};
ghost use Rattle.user_tasks.specs.Tasks.{is_open};
ghost use Rattle.core_terms.specs.Works.{closed, execution_ended};
ghost use Rattle.core_laws.specs.Alone.{IsQuiet};

use crate::places::first_in_execution;
use core_terms::{Job, Reply};
use executor_core::Exec;
use std::alloc::Global;
use std::marker::Model;
use user_tasks::{Status, TaskTable};

/// The executor, the user tasks, the job of each, how many tickets were given, and whether Close
/// was asked.
#[derive(Drop)]
pub struct Desk {
    pub(crate) exec: Exec,
    pub(crate) tasks: TaskTable,
    pub(crate) jobs: Vec<Job>,
    // the places of the user tasks that are open, so that none of the others is looked at
    pub(crate) open_tasks: Vec<usize>,
    pub(crate) tickets: u64,
    pub(crate) closing: bool,
}

impl Model for Desk {
    ghost use Rattle.core_terms.specs.State as state;
    ghost use Rattle.control_core.specs.Desks.{IsDesk};

    ghost Value = { state.Desk };

    ghost view = { λ d. record {
      exec = d.exec;
      tasks = d.tasks;
      jobs = d.jobs.items;
      tickets = d.tickets;
      closing = d.closing;
    } };

    ghost invariant = { λ d. IsDesk d.tasks d.jobs.items d.open_tasks.items };
}

// Sets how far the user task at a place is.
fn set_at(tasks: &mut TaskTable, place: usize, status: Status)
    requires { place < length tasks.old }
    ensures { tasks.new
        ≡ slice_set tasks.old place (record (user_task_at tasks.old place) { status = status }) }
{
    let _few = tasks.tasks();
    tasks.set(place as u64 + 1, status);
}

// Leaves one place out.
fn leave_out(places: &mut Vec<usize>, place: usize)
    ensures { places.new.items ≡ filter (λ i. not (i == place)) places.old.items }
{
    places.retain(|i| *i != place);
}

// How many tickets are out.
fn tickets_out(jobs: &[Job]) -> usize
    ensures { result ≡ count_by (λ j. is_some j.ticket) jobs.now }
{
    jobs.iter().filter(|job| job.ticket.is_some()).count()
}

impl Desk {
    /// Whether no lease and no ticket is out.
    pub fn is_quiet(&self) -> bool
        ensures { IsTrue result ↔ IsQuiet self.now }
    {
        self.exec.leases_out() == 0 && tickets_out(self.jobs.as_slice()) == 0
    }

    /// The desk of an executor, without user tasks.
    pub fn new(alloc: Global, exec: Exec) -> Desk
        ensures { result
            ≡ record { exec = exec; tasks = []; jobs = []; tickets = 0; closing = false } }
    {
        Desk {
            exec,
            tasks: TaskTable::new(alloc),
            jobs: Vec::new(alloc),
            open_tasks: Vec::new(alloc),
            tickets: 0,
            closing: false,
        }
    }

    // Sets how far the user task at a place is, which is open.
    pub(crate) fn set_status(&mut self, place: usize, status: Status)
        requires place { place < length self.old.tasks }
        requires is_open { is_open (user_task_at self.old.tasks place).status ≡ true }
        ensures { self.new ≡ with_status self.old place status }
    {
        set_at(&mut self.tasks, place, status);
        if !status.is_open() {
            leave_out(&mut self.open_tasks, place);
        }
    }

    // Whether each task of the execution is completed.
    #[tactic(auto, using(crate::proofs::Counted::all_counted))]
    fn all_completed(&self) -> bool
        ensures { result ≡ list_all (λ t. is_completed t.phase) self.now.exec.tasks }
    {
        self.exec.phase_counts().completed == self.exec.tasks()
    }

    // The user task at a place ends with its execution.
    fn end_execution(&mut self, place: usize)
        requires place { place < length self.old.tasks }
        requires is_open { is_open (user_task_at self.old.tasks place).status ≡ true }
        ensures { self.new ≡ execution_ended self.old (Some place) }
    {
        if self.all_completed() {
            self.set_status(place, Status::Completed);
        } else {
            let counts = self.exec.phase_counts();
            let job = &mut self.jobs[place];
            job.aborted = counts.aborted;
            job.dead = counts.dead;
            self.set_status(place, Status::CompletedWithError);
        }
    }

    // After the executor has moved on: where its last unfinished task has ended, so has the user
    // task in execution.
    pub(crate) fn move_on(&mut self, was_executing: bool)
        ensures { self.new ≡ (if was_executing && not (any_unfinished self.old.exec.tasks)
            then execution_ended self.old (position (λ t. is_in_execution t.status) self.old.tasks)
            else self.old) }
    {
        if !was_executing || self.exec.is_executing() {
            return;
        }
        match first_in_execution(self.tasks.tasks(), &self.open_tasks) {
            None => {}
            Some(place) => self.end_execution(place),
        }
    }

    /// No more requests are taken.
    pub fn close(&mut self) -> Reply
        ensures state { self.new ≡ closed self.old }
        ensures reply { result ≡ Reply.Closed }
    {
        self.closing = true;
        Reply::Closed
    }
}
