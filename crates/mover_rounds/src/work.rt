// The work of a mover, and the job of a planner, each with what ends it.
ghost use Rattle.std.specs.Prelude.{◌≡◌, IfErr, OnOk};
ghost use Rattle.mover_rounds.specs.Made.{HasEnded, HasWorked, IsCause, copier_of, standing_of};

use crate::asker::Asker;
use crate::ends::{end_with, give_back};
use crate::takes::ToPlan;
use cluster_gate::{Copier, CopyFault, copy_chunk};
use core_terms::{Event, Reply, StepFault};
use exec_terms::{Given, Work};
use goal_optimizer::{PlanFault, optimise};
use std::alloc::Global;
use std::thread::Threads;

/// Copies a chunk under a lease. The copier's failure, and nothing else, is told as CopyFailed.
pub fn copy_work<X: Asker, K: Copier>(
    asker: &mut X,
    copier: &mut K,
    given: Given,
    to: u32,
    chunk: u32,
) -> Result<(), StepFault>
    requires { given.work ≡ Work.Copy to chunk }
    ensures since { X.since asker.old asker.new }
    ensures worked { HasWorked (X.known asker.old) (X.known asker.new) (Reply.Work given)
        (copier_of K.copies K.faults copier.old) (copier_of K.copies K.faults copier.new)
        (standing_of result) }
    ensures cause { IfErr result (IsCause (X.known asker.old) (X.known asker.new)) }
    ensures kept { OnOk result ((X.known asker.new).blamed ≡ (X.known asker.old).blamed) }
{
    let back = Event::GiveBack(given.lease);
    match copy_chunk(copier, given.lease, given.part, to, chunk) {
        Ok(receipt) => end_with(asker, Event::Copied(receipt), back),
        Err(CopyFault::Failed) => end_with(asker, Event::CopyFailed(given.lease), back),
        Err(CopyFault::Memory) => {
            give_back(asker, back);
            Err(StepFault::Memory)
        }
    }
}

/// Does the work of a lease.
pub fn do_work<X: Asker, K: Copier>(
    asker: &mut X,
    copier: &mut K,
    given: Given,
) -> Result<(), StepFault>
    ensures since { X.since asker.old asker.new }
    ensures worked { HasWorked (X.known asker.old) (X.known asker.new) (Reply.Work given)
        (copier_of K.copies K.faults copier.old) (copier_of K.copies K.faults copier.new)
        (standing_of result) }
    ensures cause { IfErr result (IsCause (X.known asker.old) (X.known asker.new)) }
    ensures kept { OnOk result ((X.known asker.new).blamed ≡ (X.known asker.old).blamed) }
{
    let back = Event::GiveBack(given.lease);
    match given.work {
        Work::Copy { to, chunk } => copy_work(asker, copier, given, to, chunk),
        Work::Commit => end_with(asker, Event::Commit(given.lease), back),
        Work::Cancel => end_with(asker, Event::Cancel(given.lease), back),
    }
}

/// Plans the job of a ticket.
pub fn do_job<X: Asker, R: Threads + Sync>(
    rt: &R,
    alloc: Global,
    asker: &mut X,
    job: &ToPlan,
) -> Result<(), StepFault>
    ensures since { X.since asker.old asker.new }
    ensures ended { HasEnded (X.known asker.old) (X.known asker.new)
        (Reply.Job job.now.ticket job.now.problem) (standing_of result) }
    ensures cause { IfErr result (IsCause (X.known asker.old) (X.known asker.new)) }
    ensures kept { OnOk result ((X.known asker.new).blamed ≡ (X.known asker.old).blamed) }
{
    let back = Event::PlanBack(job.ticket);
    let problem = &job.problem;
    match optimise(rt, alloc, problem.case(), problem.start(), problem.goals()) {
        Ok(plan) => end_with(asker, Event::Planned(job.ticket, plan), back),
        Err(PlanFault::Goal(failure)) => {
            end_with(asker, Event::Refused(job.ticket, failure), back)
        }
        Err(PlanFault::Memory) => {
            give_back(asker, back);
            Err(StepFault::Memory)
        }
    }
}
