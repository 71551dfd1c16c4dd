// The loops of a planner and of a mover, over an actor that may wait.
ghost use Rattle.mover_rounds.specs.Made.{copier_of};
ghost use Rattle.mover_workers.specs.Loops.{CallsNoAdmin, HasMoved, HasPlanned, IsLoopCause};

use crate::rests::Rests;
use crate::steps::{Step, move_step, plan_step};
use cluster_gate::Copier;
use core_terms::StepFault;
use std::alloc::Global;
use std::sync::Wait;
use std::thread::Threads;

/// How a loop of a planner or of a mover ended.
#[derive(Clone, Copy, Debug, PartialEq, Eq)]
pub enum LoopEnd {
    /// Close was asked, and there is nothing more to do.
    Closed,
    /// A call of the admin failed. The number, at least 1, is that of its failed calls so far.
    AdminFault(u64),
    /// Out of memory.
    Memory,
}

/// Plans jobs, and rests where there is none, until Close was asked.
pub fn make_plans<X: Rests, R: Threads + Wait + Sync>(
    rt: &R,
    alloc: Global,
    asker: &mut X,
) -> LoopEnd
    ensures since { X.since asker.old asker.new }
    ensures planned { HasPlanned (X.known asker.old) (X.known asker.new) result }
    ensures no_admin { CallsNoAdmin result }
{
    for _ in rt.forever() {
        match plan_step(rt, alloc, asker) {
            Ok(Step::Done) => {}
            Ok(Step::Idle) => asker.rest(),
            Ok(Step::Closed) => return LoopEnd::Closed,
            // A planner's events call no admin.
            Err(_) => return LoopEnd::Memory,
        }
    }
    unreachable!()
}

/// Takes and does work. Where a plan is being made it plans, and else rests where there is none,
/// until Close was asked and nothing is executed.
pub fn make_moves<X: Rests, K: Copier, R: Threads + Wait + Sync>(
    rt: &R,
    alloc: Global,
    asker: &mut X,
    copier: &mut K,
) -> LoopEnd
    ensures since { X.since asker.old asker.new }
    ensures moved { HasMoved (X.known asker.old) (X.known asker.new)
        (copier_of K.copies K.faults copier.old) (copier_of K.copies K.faults copier.new) result }
    ensures cause { IsLoopCause (X.known asker.old) (X.known asker.new) result }
{
    for _ in rt.forever() {
        match move_step(rt, alloc, asker, copier) {
            Ok(Step::Done) => {}
            Ok(Step::Idle) => asker.rest(),
            Ok(Step::Closed) => return LoopEnd::Closed,
            Err(StepFault::AdminFault(number)) => return LoopEnd::AdminFault(number),
            Err(StepFault::Memory) => return LoopEnd::Memory,
        }
    }
    unreachable!()
}
