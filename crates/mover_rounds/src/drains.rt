// Rounds until nothing is left.
ghost use Rattle.std.specs.Prelude.{◌≡◌, IfOk, IfErr, OnOk};
ghost use Rattle.control_core.specs.Books.{state_of};
ghost use Rattle.core_laws.specs.Alone.{IsDone, IsQuiet};
ghost use Rattle.mover_rounds.specs.Drained.{HasDrained, HasFound, IsDrainCause, IsFoundBy};
ghost use Rattle.mover_rounds.specs.Exact.{HasDrainedAlone};
ghost use Rattle.mover_rounds.specs.Made.{IsCause, copier_of};
ghost use Rattle.control_core.specs.Books.{IsSince};
ghost use Rattle.mover_rounds.specs.Owned.{known_by_owner};

use crate::round::{Found, one_round};
use cluster_gate::{Admin, Copier};
use control_core::Book;
use core_laws::{every_event, every_history, every_round};
use core_terms::StepFault;
use std::alloc::Global;
use std::thread::Threads;

/// How a drain ended.
#[derive(Clone, Copy, Debug, PartialEq, Eq)]
pub enum DrainEnd {
    /// No task and no job is unfinished.
    Drained,
    /// A call of the admin failed. The number, at least 1, is that of its failed calls so far.
    AdminFault(u64),
    /// Out of memory.
    Memory,
}

// Makes rounds of work, until one finds a job, which is planned then, or neither.
fn work<A: Admin, K: Copier, R: Threads + Sync>(
    rt: &R,
    alloc: Global,
    book: &mut Book<A>,
    copier: &mut K,
) -> Result<Found, StepFault>
    requires { IsQuiet (state_of book.old).desk }
    ensures since { IsSince A.faults book.old book.new }
    ensures found { HasFound (known_by_owner book.old) (known_by_owner book.new)
        (copier_of K.copies K.faults copier.old) (copier_of K.copies K.faults copier.new) result }
    ensures by { IfOk result (IsFoundBy (state_of book.old).desk (state_of book.new).desk) }
    ensures cause { IfErr result (IsCause (known_by_owner book.old) (known_by_owner book.new)) }
    ensures kept { OnOk result (book.new.failures ≡ book.old.failures) }
{
    every_history();
    every_event();
    every_round();
    loop {
        let _input = book.entries();
        let found = one_round(rt, alloc, book, copier)?;
        match found {
            Found::Worked => {}
            Found::Planned | Found::Idle(..) => return Ok(found),
        }
    }
}

// Makes rounds until no task and no job is unfinished, or one ends in an error.
fn rounds<A: Admin, K: Copier, R: Threads + Sync>(
    rt: &R,
    alloc: Global,
    book: &mut Book<A>,
    copier: &mut K,
) -> DrainEnd
    requires { IsQuiet (state_of book.old).desk }
    ensures since { IsSince A.faults book.old book.new }
    ensures rounds { HasDrained (known_by_owner book.old) (known_by_owner book.new)
        (copier_of K.copies K.faults copier.old) (copier_of K.copies K.faults copier.new) result }
    ensures drained { result ≡ DrainEnd.Drained → IsDone (state_of book.new).desk }
    ensures cause { IsDrainCause (known_by_owner book.old) (known_by_owner book.new) result }
{
    loop {
        match work(rt, alloc, book, copier) {
            Ok(Found::Planned) => {}
            Ok(Found::Worked) => {}
            Ok(Found::Idle(_, _)) => return DrainEnd::Drained,
            Err(StepFault::AdminFault(number)) => return DrainEnd::AdminFault(number),
            Err(StepFault::Memory) => return DrainEnd::Memory,
        }
    }
}

/// Makes rounds until no task and no job is unfinished. It ends, since each round leaves less to
/// do. The copies that it makes are just those that its entries name.
pub fn drain<A: Admin, K: Copier, R: Threads + Sync>(
    rt: &R,
    alloc: Global,
    book: &mut Book<A>,
    copier: &mut K,
) -> DrainEnd
    requires { IsQuiet (state_of book.old).desk }
    ensures since { IsSince A.faults book.old book.new }
    ensures rounds { HasDrainedAlone (known_by_owner book.old) (known_by_owner book.new)
        (copier_of K.copies K.faults copier.old) (copier_of K.copies K.faults copier.new) result }
    ensures drained { result ≡ DrainEnd.Drained → IsDone (state_of book.new).desk }
    ensures cause { IsDrainCause (known_by_owner book.old) (known_by_owner book.new) result }
{
    every_history();
    every_round();
    let _input = book.entries();
    let end = rounds(rt, alloc, book, copier);
    let _legal = book.entries();
    end
}
