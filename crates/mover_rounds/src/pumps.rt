// Rounds, one after another.
ghost use Rattle.mover_rounds.specs.Exact.{HasPumpedAlone};
ghost use Rattle.mover_rounds.specs.Made.{HasPumped, IsPumpCause, copier_of};
ghost use Rattle.control_core.specs.Books.{IsSince};
ghost use Rattle.mover_rounds.specs.Owned.{known_by_owner};

use crate::asker::Asker;
use crate::round::{Found, one_round};
use cluster_gate::{Admin, Copier};
use control_core::Book;
use core_laws::{every_history, every_round};
use core_terms::{PumpEnd, StepFault};
use std::alloc::Global;
use std::thread::Threads;

/// Makes rounds, until so many were done or one finds neither a job nor work, which isn't counted.
pub fn pump<X: Asker, K: Copier, R: Threads + Sync>(
    rt: &R,
    alloc: Global,
    asker: &mut X,
    copier: &mut K,
    steps: u32,
) -> PumpEnd
    ensures since { X.since asker.old asker.new }
    ensures pumped { HasPumped (X.known asker.old) (X.known asker.new)
        (copier_of K.copies K.faults copier.old) (copier_of K.copies K.faults copier.new) steps
        result }
    ensures cause { IsPumpCause (X.known asker.old) (X.known asker.new) result }
{
    let mut done = 0;
    while done < steps {
        match one_round(rt, alloc, asker, copier) {
            Ok(Found::Planned) => done += 1,
            Ok(Found::Worked) => done += 1,
            Ok(Found::Idle(_, _)) => return PumpEnd::Done { done, idle: true },
            Err(StepFault::AdminFault(number)) => return PumpEnd::AdminFault(number),
            Err(StepFault::Memory) => return PumpEnd::Memory,
        }
    }
    PumpEnd::Done { done, idle: false }
}

/// The same for the owner of a book. The copies that it makes are just those that its entries name.
pub fn pump_book<A: Admin, K: Copier, R: Threads + Sync>(
    rt: &R,
    alloc: Global,
    book: &mut Book<A>,
    copier: &mut K,
    steps: u32,
) -> PumpEnd
    ensures since { IsSince A.faults book.old book.new }
    ensures pumped { HasPumpedAlone (known_by_owner book.old) (known_by_owner book.new)
        (copier_of K.copies K.faults copier.old) (copier_of K.copies K.faults copier.new) steps
        result }
    ensures cause { IsPumpCause (known_by_owner book.old) (known_by_owner book.new) result }
{
    every_history();
    every_round();
    let _input = book.entries();
    let end = pump(rt, alloc, book, copier, steps);
    let _legal = book.entries();
    end
}
