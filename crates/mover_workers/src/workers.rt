// Pumps, movers and planners over a turn of a shared book, each with a pass of its own.
ghost use Rattle.std.specs.Prelude.{◌≡◌, true};
ghost use Rattle.std.specs.List.{list_any};
ghost use Rattle.core_laws.specs.Events.{is_close};
ghost use Rattle.mover_rounds.specs.Made.{HasPumped, IsPumpCause, copier_of};
ghost use Rattle.mover_workers.specs.Callers.{Belongs, HasGrown, known_by_pass};
ghost use Rattle.mover_workers.specs.Loops.{CallsNoAdmin, HasMoved, HasPlanned, IsLoopCause};

use crate::caller::Caller;
use crate::loops::{LoopEnd, make_moves, make_plans};
use cluster_gate::{Admin, Copier};
use control_core::Book;
use core_laws::every_history;
use core_terms::PumpEnd;
use std::alloc::Global;
use std::sync::Wait;
use std::thread::Threads;
use turn_book::{Pass, Turn};

/// Makes rounds, until so many were done or one finds neither a job nor work, which isn't counted.
/// The pass comes back with their entries.
pub fn pump<A: Admin, K: Copier, R: Threads + Wait + Sync>(
    rt: &R,
    alloc: Global,
    turn: &Turn<Book<A>>,
    pass: Pass<Book<A>>,
    copier: &mut K,
    steps: u32,
) -> (Pass<Book<A>>, PumpEnd)
    requires own { Belongs turn.now pass }
    ensures own { Belongs turn.now result.0 }
    ensures grown { HasGrown pass result.0 }
    ensures pumped { HasPumped (known_by_pass turn.now.start.file pass)
        (known_by_pass turn.now.start.file result.0) (copier_of K.copies K.faults copier.old)
        (copier_of K.copies K.faults copier.new) steps result.1 }
    ensures cause { IsPumpCause (known_by_pass turn.now.start.file pass)
        (known_by_pass turn.now.start.file result.0) result.1 }
{
    let mut caller = Caller::new(rt, turn, pass);
    let end = mover_rounds::pump(rt, alloc, &mut caller, copier, steps);
    (caller.into_pass(), end)
}

/// Plans jobs, and rests where there is none, until Close was asked. The pass comes back with its
/// entries.
pub fn planner_loop<A: Admin, R: Threads + Wait + Sync>(
    rt: &R,
    alloc: Global,
    turn: &Turn<Book<A>>,
    pass: Pass<Book<A>>,
) -> (Pass<Book<A>>, LoopEnd)
    requires own { Belongs turn.now pass }
    ensures own { Belongs turn.now result.0 }
    ensures grown { HasGrown pass result.0 }
    ensures planned { HasPlanned (known_by_pass turn.now.start.file pass)
        (known_by_pass turn.now.start.file result.0) result.1 }
    ensures no_admin { CallsNoAdmin result.1 }
    ensures closed { result.1 ≡ LoopEnd.Closed → list_any is_close result.0.seen ≡ true }
{
    every_history();
    let mut caller = Caller::new(rt, turn, pass);
    let end = make_plans(rt, alloc, &mut caller);
    (caller.into_pass(), end)
}

/// Takes and does work. While a plan is being made it plans, and else rests where there is no work,
/// until Close was asked and nothing is executed. The pass comes back with its entries.
pub fn mover_loop<A: Admin, K: Copier, R: Threads + Wait + Sync>(
    rt: &R,
    alloc: Global,
    turn: &Turn<Book<A>>,
    pass: Pass<Book<A>>,
    copier: &mut K,
) -> (Pass<Book<A>>, LoopEnd)
    requires own { Belongs turn.now pass }
    ensures own { Belongs turn.now result.0 }
    ensures grown { HasGrown pass result.0 }
    ensures moved { HasMoved (known_by_pass turn.now.start.file pass)
        (known_by_pass turn.now.start.file result.0) (copier_of K.copies K.faults copier.old)
        (copier_of K.copies K.faults copier.new) result.1 }
    ensures cause { IsLoopCause (known_by_pass turn.now.start.file pass)
        (known_by_pass turn.now.start.file result.0) result.1 }
    ensures closed { result.1 ≡ LoopEnd.Closed → list_any is_close result.0.seen ≡ true }
{
    every_history();
    let mut caller = Caller::new(rt, turn, pass);
    let end = make_moves(rt, alloc, &mut caller, copier);
    (caller.into_pass(), end)
}
