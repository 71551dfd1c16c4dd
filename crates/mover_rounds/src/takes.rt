// What a planner and a mover ask first.
ghost use Rattle.std.specs.Prelude.{IfOk, IfErr, Ok, Err};
ghost use Rattle.mover_rounds.specs.Asked.{HasAsked, IsUnasked};

use crate::asker::Asker;
use core_terms::{Event, Problem, Reason, Reply, StepFault};
use exec_terms::Given;

/// A job to plan, and its ticket.
#[derive(Drop)]
pub struct ToPlan {
    pub ticket: u64,
    pub problem: Problem,
}

/// Why there is no work, and whether Close was asked before.
#[derive(Clone, Copy, Debug)]
pub struct NoWork {
    pub why: Reason,
    pub closing: bool,
}

/// Asks for a job. Without one, whether Close was asked before.
pub fn ask_job<X: Asker>(asker: &mut X) -> Result<Result<ToPlan, bool>, StepFault>
    ensures since { X.since asker.old asker.new }
    ensures job { IfOk result
        (λ r. IfOk r
        (λ j. HasAsked (X.known asker.old) (X.known asker.new) Event.PlanTake
        (Reply.Job j.ticket j.problem))) }
    ensures no_job { IfOk result
        (λ r. IfErr r
        (λ closing. HasAsked (X.known asker.old) (X.known asker.new) Event.PlanTake
        (Reply.NoJob closing))) }
    ensures unasked { IfErr result
        (IsUnasked (X.known asker.old) (X.known asker.new) Event.PlanTake) }
{
    match asker.ask(Event::PlanTake) {
        Ok(Reply::Job(ticket, problem)) => Ok(Ok(ToPlan { ticket, problem })),
        Ok(Reply::NoJob(closing)) => Ok(Err(closing)),
        Ok(_) => unreachable!(),
        Err((fault, _)) => Err(fault),
    }
}

/// Asks for work. Without it, why there is none.
pub fn ask_work<X: Asker>(asker: &mut X) -> Result<Result<Given, NoWork>, StepFault>
    ensures since { X.since asker.old asker.new }
    ensures work { IfOk result
        (λ r. IfOk r
        (λ given. HasAsked (X.known asker.old) (X.known asker.new) Event.Take (Reply.Work given))) }
    ensures no_work { IfOk result
        (λ r. IfErr r
        (λ none. HasAsked (X.known asker.old) (X.known asker.new) Event.Take
        (Reply.Idle none.why none.closing))) }
    ensures unasked { IfErr result (IsUnasked (X.known asker.old) (X.known asker.new) Event.Take) }
{
    match asker.ask(Event::Take) {
        Ok(Reply::Work(given)) => Ok(Ok(given)),
        Ok(Reply::Idle(why, closing)) => Ok(Err(NoWork { why, closing })),
        Ok(_) => unreachable!(),
        Err((fault, _)) => Err(fault),
    }
}
