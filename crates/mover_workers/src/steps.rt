// What a planner and a mover do at a time.
ghost use Rattle.std.specs.Prelude.{◌≡◌, Bool, IfErr, OnOk};
ghost use Rattle.mover_rounds.specs.Made.{Copies, IsCause, copier_of};
ghost use Rattle.mover_workers.specs.Steps.{HasBehind, HasMoveStep, HasPlanStep, look_of};

use cluster_gate::Copier;
use core_terms::{Reason, StepFault};
use mover_rounds::{Asker, NoWork, ask_job, ask_work, do_job, do_work};
use std::alloc::Global;
use std::thread::Threads;

/// What came of a step.
#[derive(Clone, Copy, Debug, PartialEq, Eq)]
pub enum Step {
    /// A job was planned, or work was done.
    Done,
    /// There was nothing to do.
    Idle,
    /// There was nothing to do, and there will be nothing.
    Closed,
}

// Whether a planner that found no job goes on.
fn look(closing: bool) -> Step
    ensures { result ≡ look_of closing }
{
    if closing { Step::Closed } else { Step::Idle }
}

/// A planner's step: a job, where there is one.
pub(crate) fn plan_step<X: Asker, R: Threads + Sync>(
    rt: &R,
    alloc: Global,
    asker: &mut X,
) -> Result<Step, StepFault>
    ensures since { X.since asker.old asker.new }
    ensures made { (k : Copies) → HasPlanStep (X.known asker.old) (X.known asker.new) k result }
    ensures cause { IfErr result (IsCause (X.known asker.old) (X.known asker.new)) }
    ensures kept { OnOk result ((X.known asker.new).blamed ≡ (X.known asker.old).blamed) }
{
    match ask_job(asker)? {
        Ok(job) => {
            do_job(rt, alloc, asker, &job)?;
            Ok(Step::Done)
        }
        Err(closing) => Ok(look(closing)),
    }
}

// A planner's step of a mover, whose loop it doesn't end.
fn plan_meanwhile<X: Asker, R: Threads + Sync>(
    rt: &R,
    alloc: Global,
    asker: &mut X,
) -> Result<Step, StepFault>
    ensures since { X.since asker.old asker.new }
    ensures made { (k : Copies) (closing : Bool)
        → HasBehind (X.known asker.old) (X.known asker.new) k Reason.Planning closing result }
    ensures cause { IfErr result (IsCause (X.known asker.old) (X.known asker.new)) }
    ensures kept { OnOk result ((X.known asker.new).blamed ≡ (X.known asker.old).blamed) }
{
    match plan_step(rt, alloc, asker)? {
        Step::Done => Ok(Step::Done),
        Step::Idle | Step::Closed => Ok(Step::Idle),
    }
}

// What a mover does where there is no work.
fn idle_step<X: Asker, R: Threads + Sync>(
    rt: &R,
    alloc: Global,
    asker: &mut X,
    none: NoWork,
) -> Result<Step, StepFault>
    ensures since { X.since asker.old asker.new }
    ensures made { (k : Copies)
        → HasBehind (X.known asker.old) (X.known asker.new) k none.why none.closing result }
    ensures cause { IfErr result (IsCause (X.known asker.old) (X.known asker.new)) }
    ensures kept { OnOk result ((X.known asker.new).blamed ≡ (X.known asker.old).blamed) }
{
    match none.why {
        Reason::Planning => plan_meanwhile(rt, alloc, asker),
        Reason::NoExecution => Ok(look(none.closing)),
        Reason::CapsFull => Ok(Step::Idle),
        Reason::AllLeased => Ok(Step::Idle),
    }
}

/// A mover's step: work, where there is some. While a plan is being made, a planner's step.
pub(crate) fn move_step<X: Asker, K: Copier, R: Threads + Sync>(
    rt: &R,
    alloc: Global,
    asker: &mut X,
    copier: &mut K,
) -> Result<Step, StepFault>
    ensures since { X.since asker.old asker.new }
    ensures made { HasMoveStep (X.known asker.old) (X.known asker.new)
        (copier_of K.copies K.faults copier.old) (copier_of K.copies K.faults copier.new) result }
    ensures cause { IfErr result (IsCause (X.known asker.old) (X.known asker.new)) }
    ensures kept { OnOk result ((X.known asker.new).blamed ≡ (X.known asker.old).blamed) }
{
    match ask_work(asker)? {
        Ok(given) => {
            do_work(asker, copier, given)?;
            Ok(Step::Done)
        }
        Err(none) => idle_step(rt, alloc, asker, none),
    }
}
