// One round.
ghost use Rattle.std.specs.Prelude.{◌≡◌, IfErr, OnOk};
ghost use Rattle.mover_rounds.specs.Made.{HasTaken, HasRound, IsCause, copier_of};

use crate::asker::Asker;
use crate::takes::{ask_job, ask_work};
use crate::work::{do_job, do_work};
use cluster_gate::Copier;
use core_terms::{Reason, StepFault};
use std::alloc::Global;
use std::thread::Threads;

/// What a round found.
#[derive(Clone, Copy, Debug, PartialEq, Eq)]
pub enum Found {
    /// A job, which was planned.
    Planned,
    /// Work, which was done.
    Worked,
    /// Neither. Why there was no work, and whether Close was asked before.
    Idle(Reason, bool),
}

/// A round of a mover: work, where there is some.
pub fn take_work<X: Asker, K: Copier>(asker: &mut X, copier: &mut K) -> Result<Found, StepFault>
    ensures since { X.since asker.old asker.new }
    ensures round { HasTaken (X.known asker.old) (X.known asker.new)
        (copier_of K.copies K.faults copier.old) (copier_of K.copies K.faults copier.new) result }
    ensures cause { IfErr result (IsCause (X.known asker.old) (X.known asker.new)) }
    ensures kept { OnOk result ((X.known asker.new).blamed ≡ (X.known asker.old).blamed) }
{
    match ask_work(asker)? {
        Ok(given) => {
            do_work(asker, copier, given)?;
            Ok(Found::Worked)
        }
        Err(none) => Ok(Found::Idle(none.why, none.closing)),
    }
}

/// A round: a job, or where there is none work.
pub fn one_round<X: Asker, K: Copier, R: Threads + Sync>(
    rt: &R,
    alloc: Global,
    asker: &mut X,
    copier: &mut K,
) -> Result<Found, StepFault>
    ensures since { X.since asker.old asker.new }
    ensures round { HasRound (X.known asker.old) (X.known asker.new)
        (copier_of K.copies K.faults copier.old) (copier_of K.copies K.faults copier.new) result }
    ensures cause { IfErr result (IsCause (X.known asker.old) (X.known asker.new)) }
    ensures kept { OnOk result ((X.known asker.new).blamed ≡ (X.known asker.old).blamed) }
{
    match ask_job(asker)? {
        Ok(job) => {
            do_job(rt, alloc, asker, &job)?;
            Ok(Found::Planned)
        }
        Err(_) => take_work(asker, copier),
    }
}
