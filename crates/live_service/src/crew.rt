// The workers that run beside a front.
ghost use Rattle.live_service.specs.Asked.{IsReady, links_of, serving_view};
ghost use Rattle.live_service.specs.Runs.{HasRunMovers, HasRunWorkers};
ghost use Rattle.mover_workers.specs.Callers.{IsSince, known_by_caller};
ghost use Rattle.mover_workers.specs.Loops.{CallsNoAdmin, HasPlanned};

use crate::boards::Callers;
use crate::front::{FrontEnd, serve_front};
use crate::links::Serving;
use crate::parties::{Parties, Team};
use mover_workers::{Caller, LoopEnd, make_moves, make_plans};
use std::alloc::Global;
use std::sync::Wait;
use std::thread::{Threads, join};

// A front alone.
fn without_workers<'a, P: Parties, R: Threads + Wait + Sync>(
    rt: &R,
    alloc: Global,
    callers: Callers<'a, R, P::Gate>,
    team: Team<P>,
    serving: Option<Serving>,
) -> (Callers<'a, R, P::Gate>, Team<P>, FrontEnd)
    requires ready { IsReady team callers.book.pass.parts callers.board.pass.parts 0 0
        (links_of serving) }
    ensures run { HasRunMovers (serving_view serving) callers.entry.book result.0.book
        callers.entry.board result.0.board team result.1 result.2 0 }
{
    let Team {
        front,
        movers,
        planners,
    } = team;
    let (callers, front, end) = serve_front(rt, alloc, callers, front, serving);
    let team = Team {
        front,
        movers,
        planners,
    };
    (callers, team, end)
}

// As many movers, each in a thread of its own with the next of the copiers, and a front in this
// one. Where no thread can be started, its work comes last.
fn with_movers<'a, P: Parties, R: Threads + Wait + Sync>(
    rt: &R,
    alloc: Global,
    mut callers: Callers<'a, R, P::Gate>,
    mut team: Team<P>,
    movers: u32,
    serving: Option<Serving>,
) -> (Callers<'a, R, P::Gate>, Team<P>, FrontEnd)
    requires ready { IsReady team callers.book.pass.parts callers.board.pass.parts movers 0
        (links_of serving) }
    ensures run { HasRunMovers (serving_view serving) callers.entry.book result.0.book
        callers.entry.board result.0.board team result.1 result.2 movers }
{
    if movers == 0 {
        return without_workers(rt, alloc, callers, team, serving);
    }
    let fewer = movers - 1;
    let mut copier = team.take_copier();
    let mut own = callers.book.split();
    let ((back, copier, ended), (mut callers, mut team, end)) = join(
        rt,
        move || {
            let end = make_moves(rt, alloc, &mut own, &mut copier);
            (own, copier, end)
        },
        move || -> (Callers<R, P::Gate>, Team<P>, FrontEnd)
            requires { IsReady team callers.book.pass.parts callers.board.pass.parts fewer 0
                (links_of serving) }
            ensures { HasRunMovers (serving_view serving) callers.entry.book result.0.book
                callers.entry.board result.0.board team result.1 result.2 fewer }
        { with_movers(rt, alloc, callers, team, fewer, serving) },
    );
    callers.book.join(back);
    team.note_mover(copier, ended);
    (callers, team, end)
}

/// As many planners and movers, each in a thread of its own, and a front in this one. The movers
/// have the first of the copiers, and all copiers come back in their order. Where no thread can be
/// started, its work comes last.
pub fn with_workers<'a, P: Parties, R: Threads + Wait + Sync>(
    rt: &R,
    alloc: Global,
    mut callers: Callers<'a, R, P::Gate>,
    team: Team<P>,
    movers: u32,
    planners: u32,
    serving: Option<Serving>,
) -> (Callers<'a, R, P::Gate>, Team<P>, FrontEnd)
    requires ready { IsReady team callers.book.pass.parts callers.board.pass.parts movers planners
        (links_of serving) }
    ensures run { HasRunWorkers (serving_view serving) callers.entry.book result.0.book
        callers.entry.board result.0.board team result.1 result.2 movers planners }
{
    if planners == 0 {
        return with_movers(rt, alloc, callers, team, movers, serving);
    }
    let fewer = planners - 1;
    let mut own = callers.book.split();
    let ((back, ended), (mut callers, mut team, end)) = join(
        rt,
        move || -> (Caller<R, P::Gate>, LoopEnd)
            ensures { IsSince own.entry result.0
                × HasPlanned (known_by_caller own.entry) (known_by_caller result.0) result.1
                × CallsNoAdmin result.1 }
        {
            let end = make_plans(rt, alloc, &mut own);
            (own, end)
        },
        move || -> (Callers<R, P::Gate>, Team<P>, FrontEnd)
            requires { IsReady team callers.book.pass.parts callers.board.pass.parts movers fewer
                (links_of serving) }
            ensures { HasRunWorkers (serving_view serving) callers.entry.book result.0.book
                callers.entry.board result.0.board team result.1 result.2 movers fewer }
        { with_workers(rt, alloc, callers, team, movers, fewer, serving) },
    );
    callers.book.join(back);
    team.note_planner(ended);
    (callers, team, end)
}
