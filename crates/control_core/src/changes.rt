// Changes of the replication factor.
ghost use Rattle.std.specs.Prelude.{◌≡◌, ◌≢◌, ◌<◌, true, List, Some, None, IfOk, IfErr, OnOk, OnErr, length};
ghost use Rattle.std.specs.List.{All};
ghost use Rattle.plan_terms.specs.Belongs.{Belongs};
ghost use Rattle.plan_terms.specs.Change.{proposals};
ghost use Rattle.factor_change.specs.Refused.{refusal};
ghost use Rattle.factor_change.specs.Resized.{resized};
ghost use Rattle.metric_windows.specs.StandsFor.{StandsFor};
ghost use Rattle.plan_terms.specs.declared.settings.Sample.{Sample};
ghost use Rattle.user_tasks.specs.Asks.{AskView, changes_factor};
ghost use Rattle.user_tasks.specs.Tasks.{open_count};
ghost use Rattle.user_tasks.specs.declared.table.UserTask.{UserTask};
ghost use Rattle.core_terms.specs.Jobs.{MayLaunch, admitted, id_at, status_at_once};
ghost use Rattle.core_terms.specs.State.{Desk, moment_of};
ghost use Rattle.core_terms.specs.Submits.{after_new, changed_by, outcome_of, reply_new, told_at};
ghost use Rattle.core_terms.specs.declared.jobs.Job.{Job};
ghost use Rattle.control_core.specs.Refusals.{told_of};
ghost use Rattle.control_core.specs.Machines.{IsReady, core_of};

use crate::desk::Desk;
use crate::machine::Machine;
use crate::planners::is_done_at_once;
use crate::submits::all_named;
use core_laws::every_event;
use core_terms::{Outcome, Reply};
use factor_change::{ResizeFault, resized};
use goal_set::GoalList;
use load_model::{Assign, Case};
use plan_terms::{Memory, Part, Proposal};
use proposal_set::proposals;
use std::alloc::Global;
use user_tasks::{Ask, Status};

// How far a request with these changes is at once, and what came of it.
fn begun(
    alloc: Global,
    parts: &[Part],
    ask: &Ask,
    changes: &[Proposal],
) -> Result<(Status, Outcome), Memory>
    requires { All (λ p. p.part < length parts.now) changes.now }
    ensures status { (t : UserTask) → t.ask ≡ ask.now
        → IfOk result (λ r. r.0 ≡ status_at_once t changes.now) }
    ensures outcome { IfOk result
        (λ r. (j : Job) → j.proposals ≡ changes.now → r.1 ≡ outcome_of parts.now r.0 j) }
{
    if is_done_at_once(ask, changes) {
        let proposals = all_named(alloc, parts, changes)?;
        Ok((Status::Completed, Outcome::Done(proposals)))
    } else {
        Ok((Status::InExecution, Outcome::Open))
    }
}

impl Desk {
    // Takes back the user task that was admitted last.
    fn withdraw(&mut self)
        requires { (d : Desk) × (ask : AskView) × (self.old ≡ admitted d ask) }
        ensures { (d : Desk) → (ask : AskView) → self.old ≡ admitted d ask → self.new ≡ d }
    {
        self.tasks.withdraw();
        let _ = self.jobs.pop();
        let _ = self.open_tasks.pop();
    }

    /// Makes a request for another replication factor a user task, whose plan has these changes.
    pub fn change(
        &mut self,
        alloc: Global,
        parts: &[Part],
        ask: &Ask,
        changes: Vec<Proposal>,
    ) -> Result<Reply, Memory>
        requires asks { changes_factor ask.now ≡ true }
        requires few { open_count self.old.tasks < 16 }
        requires parts { All (λ p. p.part < length parts.now) changes.items }
        requires may { MayLaunch (admitted self.old ask.now) (length self.old.tasks) changes.items }
        ensures state { OnOk result (self.new ≡ changed_by self.old ask.now changes.items) }
        ensures reply { IfOk result
            (λ r. r
            ≡ told_at parts.now (changed_by self.old ask.now changes.items)
            (id_at (length self.old.tasks)) (length self.old.tasks)) }
        ensures err { OnErr result (self.new ≡ self.old) }
    {
        let goals = GoalList::demoting(alloc)?;
        let (status, outcome) = begun(alloc, parts, ask, &changes)?;
        let place = self.tasks.tasks().len();
        let id = self.admit(alloc, ask, goals)?;
        if self.take_plan(alloc, place, changes).is_err() {
            self.withdraw();
            return Err(Memory);
        }
        Ok(Reply::Task(id, status, outcome))
    }
}

// Why topics can't be changed so, unless memory ran out.
fn refused(fault: ResizeFault) -> Result<Reply, Memory>
    ensures { IfOk result (λ r. told_of fault ≡ Some r) }
{
    match fault {
        ResizeFault::NoSuchTopic(topic) => Ok(Reply::NoSuchTopic(topic)),
        ResizeFault::TooFewBrokers(reach) => Ok(Reply::TooFewBrokers(reach)),
        ResizeFault::Memory => Err(Memory),
    }
}

// What changes by a request for another replication factor.
fn changes_of(
    alloc: Global,
    case: &Case,
    start: &Assign,
    ask: &Ask,
) -> Result<Vec<Proposal>, ResizeFault>
    requires belongs { Belongs case.now start.now }
    requires asks { changes_factor ask.now ≡ true }
    ensures changes { IfOk result
        (λ v. v.items
        ≡ proposals start.now (resized case.now ask.now.topics ask.now.factor start.now)) }
    ensures within { IfOk result (λ v. All (λ p. p.part < length start.now) v.items) }
    ensures faultless { OnOk result
        (refusal case.now ask.now.topics ask.now.factor start.now ≡ None) }
    ensures fault { IfErr result
        (λ e. e ≢ ResizeFault.Memory
        → refusal case.now ask.now.topics ask.now.factor start.now ≡ Some e) }
{
    let end = resized(alloc, case, start, ask.topics.as_slice(), ask.factor)?;
    Ok(proposals(alloc, start, &end)?)
}

impl Machine {
    /// A request for another replication factor, which is refused, or is a user task whose changes
    /// are launched.
    #[tactic(auto, unfolding(core_terms::specs::Submits::change_refusal))]
    pub fn change(&mut self, alloc: Global, ask: &Ask) -> Result<Reply, Memory>
        requires ready { IsReady self.old }
        requires asks { changes_factor ask.now ≡ true }
        ensures reply { IfOk result
            (λ r. (samples : List Sample) → StandsFor self.old.windows samples
            → r
            ≡ reply_new self.old.file (moment_of self.old.file (core_of self.old samples))
            self.old.desk ask.now true) }
        ensures desk { OnOk result
            ((samples : List Sample) → StandsFor self.old.windows samples
            → self.new.desk
            ≡ after_new self.old.file (moment_of self.old.file (core_of self.old samples))
            self.old.desk ask.now true) }
        ensures windows { self.new.windows ≡ self.old.windows }
        ensures since { self.new.since ≡ self.old.since }
        ensures file { self.new.file ≡ self.old.file }
        ensures err { OnErr result (self.new ≡ self.old) }
    {
        every_event();
        if self.desk.closing {
            return Ok(Reply::Closing);
        }
        if let Some(refusal) = self.desk.open_refusal(ask) {
            return Ok(refusal);
        }
        let case = self.present(alloc)?;
        let start = self.desk.settled(alloc, &case)?;
        match changes_of(alloc, &case, &start, ask) {
            Ok(changes) => {
                let parts = self.file.case().parts();
                self.desk.change(alloc, parts, ask, changes)
            }
            Err(fault) => refused(fault),
        }
    }
}
