// The core without its journal and its admin.
ghost use Rattle.std.specs.Prelude.{◌≡◌, ◌≤◌, List, [], IfOk, OnOk, OnErr, length};
ghost use Rattle.metric_windows.specs.StandsFor.{StandsFor};
ghost use Rattle.plan_terms.specs.declared.settings.Sample.{Sample};
ghost use Rattle.cluster_json.specs.Ranges.{IsFile};
ghost use Rattle.cluster_json.specs.Views.{file_seen};
ghost use Rattle.plan_terms.specs.Belongs.{Belongs};
ghost use Rattle.exec_terms.specs.Settled.{settled_lists};
ghost use Rattle.core_terms.specs.Input.{IsInput, accepted};
ghost use Rattle.core_terms.specs.State.{moment_of, opening_desk, present};
ghost use Rattle.core_terms.specs.Submits.{after_submit, lacks_windows, or_accepted, refusal_of, reply_submit, unless_refused};
ghost use Rattle.core_terms.specs.Plans.{first_waiting, holder_of, planned, refused, reply_planned, reply_refused, reply_take_job, ticketed};
ghost use Rattle.control_core.specs.Machines.{AreWindows, IsReady, core_of};

use crate::desk::Desk;
use cluster_json::ClusterFile;
use core_cases::{
    OpenFile, changes_factor, first_unknown, goals_of, present, valid_parts, windows_of,
};
use core_laws::{every_book, every_event, every_history};
use core_terms::Reply;
use executor_core::opened;
use goal_set::{Failure, GoalFault, Plan};
use load_model::Case;
use metric_windows::Windows;
use plan_terms::Memory;
use proposal_set::proposals;
use std::alloc::Global;
use user_tasks::Ask;
use uuid::Uuid;

/// The file, the windows of the samples, the brokers that were found lost, each with the moment of
/// that, and all else of the state.
#[derive(Drop)]
pub struct Machine {
    pub(crate) file: OpenFile,
    pub(crate) windows: Windows,
    pub(crate) since: Vec<(u32, u64)>,
    pub(crate) desk: Desk,
}

// Whether so many partitions with loads are too few.
fn lacks_windows(file: &OpenFile, valid: u32) -> bool
    requires { valid ≤ 10000 }
    ensures { result ≡ lacks_windows file.now valid }
{
    let ratio = file.ratio();
    let all = file.case().parts().len() as u64;
    u64::from(valid) * u64::from(ratio.den()) < u64::from(ratio.num()) * all
}

impl Machine {
    /// The machine of a cluster file when it is opened.
    #[tactic(auto, unfolding(core_terms::specs::State::opening_desk))]
    pub fn open(alloc: Global, file: ClusterFile) -> Result<Machine, Memory>
        requires { IsFile file }
        ensures file { IfOk result (λ m. m.file ≡ file_seen file) }
        ensures input { IfOk result (λ m. IsInput m.file) }
        ensures desk { IfOk result (λ m. m.desk ≡ opening_desk m.file) }
        ensures since { IfOk result (λ m. m.since.items ≡ []) }
        ensures windows { IfOk result AreWindows }
        ensures stands { IfOk result
            (λ m. StandsFor m.windows (accepted m.file.rules m.file.samples)) }
    {
        let file = OpenFile::new(alloc, file)?;
        let windows = windows_of(alloc, &file)?;
        let exec = opened(alloc, file.case(), file.caps(), file.lists())?;
        let desk = Desk::new(alloc, exec);
        Ok(Machine {
            file,
            windows,
            since: Vec::new(alloc),
            desk,
        })
    }

    /// The present cluster.
    pub fn present(&self, alloc: Global) -> Result<Case, Memory>
        requires { IsReady self.now }
        ensures value { (samples : List Sample) → StandsFor self.now.windows samples
            → IfOk result (λ c. c ≡ present self.now.file self.now.desk.exec.hosts samples) }
        ensures one_each { IfOk result (λ c. length c.parts ≡ length self.now.file.cluster.parts) }
        ensures belongs { IfOk result (λ c. Belongs c (settled_lists self.now.desk.exec)) }
    {
        every_history();
        present(alloc, &self.file, &self.windows, &self.desk.exec)
    }

    // A request for a plan that is a new user task, or is refused.
    #[tactic(auto, unfolding(core_terms::specs::Submits::refusal_of))]
    fn submit_new(&mut self, alloc: Global, ask: &Ask) -> Result<Reply, Memory>
        requires { AreWindows self.old }
        ensures reply { IfOk result
            (λ r. (samples : List Sample) → StandsFor self.old.windows samples
            → r
            ≡ or_accepted self.old.desk
            (refusal_of self.old.file
            (moment_of self.old.file (core_of self.old samples)) self.old.desk
            ask.now)) }
        ensures desk { OnOk result
            ((samples : List Sample) → StandsFor self.old.windows samples
            → self.new.desk
            ≡ unless_refused self.old.desk ask.now
            (refusal_of self.old.file
            (moment_of self.old.file (core_of self.old samples)) self.old.desk
            ask.now)) }
        ensures windows { self.new.windows ≡ self.old.windows }
        ensures since { self.new.since ≡ self.old.since }
        ensures file { self.new.file ≡ self.old.file }
        ensures err { OnErr result (self.new ≡ self.old) }
    {
        if self.desk.closing {
            return Ok(Reply::Closing);
        }
        if let Some(broker) = first_unknown(&self.file, ask.brokers.as_slice()) {
            return Ok(Reply::NoSuchBroker(broker));
        }
        let goals = match goals_of(alloc, ask) {
            Ok(goals) => goals,
            Err(GoalFault::Memory) => return Err(Memory),
            Err(fault) => return Ok(Reply::BadGoals(fault)),
        };
        if let Some(refusal) = self.desk.open_refusal(ask) {
            return Ok(refusal);
        }
        let valid = valid_parts(&self.file, &self.windows);
        if lacks_windows(&self.file, valid) {
            return Ok(Reply::NotEnoughWindows(valid, self.file.case().parts().len() as u32));
        }
        let id = self.desk.admit(alloc, ask, goals)?;
        Ok(Reply::Accepted(id))
    }

    /// A request for a plan, perhaps with the id of an earlier one.
    pub fn submit(&mut self, alloc: Global, ask: &Ask, key: Option<Uuid>) -> Result<Reply, Memory>
        requires { IsReady self.old }
        ensures reply { IfOk result
            (λ r. (samples : List Sample) → StandsFor self.old.windows samples
            → r
            ≡ reply_submit self.old.file
            (moment_of self.old.file (core_of self.old samples)) self.old.desk ask.now
            key) }
        ensures desk { OnOk result
            ((samples : List Sample) → StandsFor self.old.windows samples
            → self.new.desk
            ≡ after_submit self.old.file
            (moment_of self.old.file (core_of self.old samples)) self.old.desk ask.now
            key) }
        ensures windows { self.new.windows ≡ self.old.windows }
        ensures since { self.new.since ≡ self.old.since }
        ensures file { self.new.file ≡ self.old.file }
        ensures err { OnErr result (self.new ≡ self.old) }
    {
        match key {
            Some(id) => self.desk.find(alloc, self.file.case().parts(), id, ask),
            None if changes_factor(ask) => self.change(alloc, ask),
            None => self.submit_new(alloc, ask),
        }
    }

    /// A planner takes the first job that waits.
    pub fn plan_take(&mut self, alloc: Global) -> Result<Reply, Memory>
        requires { IsReady self.old }
        ensures reply { IfOk result
            (λ r. (samples : List Sample) → StandsFor self.old.windows samples
            → r
            ≡ reply_take_job (moment_of self.old.file (core_of self.old samples))
            self.old.desk (first_waiting self.old.desk)) }
        ensures desk { OnOk result
            (self.new.desk ≡ ticketed self.old.desk (first_waiting self.old.desk)) }
        ensures windows { self.new.windows ≡ self.old.windows }
        ensures since { self.new.since ≡ self.old.since }
        ensures file { self.new.file ≡ self.old.file }
        ensures err { OnErr result (self.new ≡ self.old) }
    {
        every_book();
        match self.desk.first_waiting() {
            None => Ok(Reply::NoJob(self.desk.closing)),
            Some(place) => {
                let case = self.present(alloc)?;
                let problem = self.desk.problem(alloc, case, place)?;
                let ticket = self.desk.give_ticket(place);
                Ok(Reply::Job(ticket, problem))
            }
        }
    }

    /// A plan is brought for the job of a ticket.
    pub fn planned(&mut self, alloc: Global, ticket: u64, plan: &Plan) -> Result<Reply, Memory>
        requires { IsReady self.old }
        ensures reply { IfOk result
            (λ r. (samples : List Sample) → StandsFor self.old.windows samples
            → r
            ≡ reply_planned (moment_of self.old.file (core_of self.old samples))
            self.old.desk plan.now (holder_of ticket self.old.desk.jobs)) }
        ensures desk { OnOk result
            ((samples : List Sample) → StandsFor self.old.windows samples
            → self.new.desk
            ≡ planned (moment_of self.old.file (core_of self.old samples)) self.old.desk
            plan.now (holder_of ticket self.old.desk.jobs)) }
        ensures windows { self.new.windows ≡ self.old.windows }
        ensures since { self.new.since ≡ self.old.since }
        ensures file { self.new.file ≡ self.old.file }
        ensures err { OnErr result (self.new ≡ self.old) }
    {
        every_event();
        match self.desk.holder_of(ticket) {
            None => Ok(Reply::StaleJob(self.desk.tickets)),
            Some(place) => {
                let case = self.present(alloc)?;
                if self.desk.is_plan_for(alloc, case, place, plan)? {
                    let changes = proposals(alloc, plan.start(), plan.end())?;
                    self.desk.take_plan(alloc, place, changes)?;
                    Ok(Reply::PlanDone)
                } else {
                    self.desk.end_ticket(place);
                    Ok(Reply::SentBack)
                }
            }
        }
    }

    /// A failure is brought for the job of a ticket.
    pub fn refused(
        &mut self,
        alloc: Global,
        ticket: u64,
        failure: &Failure,
    ) -> Result<Reply, Memory>
        requires { IsReady self.old }
        ensures reply { IfOk result
            (λ r. (samples : List Sample) → StandsFor self.old.windows samples
            → r
            ≡ reply_refused (moment_of self.old.file (core_of self.old samples))
            self.old.desk failure.now (holder_of ticket self.old.desk.jobs)) }
        ensures desk { OnOk result
            ((samples : List Sample) → StandsFor self.old.windows samples
            → self.new.desk
            ≡ refused (moment_of self.old.file (core_of self.old samples)) self.old.desk
            failure.now (holder_of ticket self.old.desk.jobs)) }
        ensures windows { self.new.windows ≡ self.old.windows }
        ensures since { self.new.since ≡ self.old.since }
        ensures file { self.new.file ≡ self.old.file }
        ensures err { OnErr result (self.new ≡ self.old) }
    {
        match self.desk.holder_of(ticket) {
            None => Ok(Reply::StaleJob(self.desk.tickets)),
            Some(place) => {
                let case = self.present(alloc)?;
                if self.desk.is_failure_for(alloc, case, place, failure)? {
                    self.desk.take_failure(place, failure);
                    Ok(Reply::PlanFailed)
                } else {
                    self.desk.end_ticket(place);
                    Ok(Reply::SentBack)
                }
            }
        }
    }
}
