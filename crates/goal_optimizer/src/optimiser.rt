// A turn for each goal of a list.
ghost use Rattle.std.specs.Prelude.{◌≡◌, IfErr, IfOk, MatchResult, map};
ghost use Rattle.std.specs.List.{All};
ghost use Rattle.plan_terms.specs.Belongs.{Belongs};
ghost use Rattle.goal_set.specs.AnyMeaning.{any_made, any_meaning};
ghost use Rattle.goal_set.specs.Kinds.{meanings};
ghost use Rattle.goal_optimizer.specs.Firsts.{FaultTakesFirsts, TakesFirsts};
ghost use Rattle.goal_optimizer.specs.Outcomes.{IsFaultOf, IsOutcome, IsPlanOf};

use crate::turn::take_turn;
use candidate_order::Order;
use goal_set::{AnyGoal, Failure, GoalKind, GoalList, Plan, Trace, Turned, goals_of};
use load_model::{Assign, Case, LoadBook};
use move_actions::{Goal, measure};
use plan_terms::Memory;
use std::alloc::{AllocError, AllocFailed, Global};
use std::thread::Threads;

/// Why there is no plan.
#[derive(Drop)]
pub enum PlanFault {
    /// A hard goal is broken, and no legal action that the goals before it accept lessens it.
    Goal(Failure),
    /// Want of memory.
    Memory,
}

impl From<Memory> for PlanFault {
    ghost use Rattle.goal_optimizer.specs.declared.optimiser.PlanFault.TheVariants as fault;

    ghost from_gives = { λ _ e. e ≡ fault.Memory };

    fn from(_: Memory) -> Self {
        PlanFault::Memory
    }
}

/// The turns that were taken, the case that they were taken on, the lists that they lead to, and
/// how far the last goal stays broken, where that ended them.
#[derive(Drop)]
pub struct Outcome {
    pub turns: Vec<Turned>,
    pub case: Case,
    pub end: Assign,
    pub broken: Option<u128>,
}

// One turn for each goal in order, up to the first hard goal that stays broken.
fn take_turns<R: Threads + Sync>(
    rt: &R,
    alloc: Global,
    case: &Case,
    start: &Assign,
    kinds: &[GoalKind],
    goals: &[AnyGoal],
) -> Result<Outcome, Memory>
    requires made { All (λ g. any_made g case.now) goals.now }
    requires meanings { map (λ g. any_meaning g case.now) goals.now ≡ meanings case.now kinds.now }
    requires belongs { Belongs case.now start.now }
    ensures outcome { IfOk result (IsOutcome case.now start.now kinds.now) }
    ensures firsts { IfOk result (λ o. TakesFirsts case.now start.now kinds.now o.turns.items) }
    ensures case { IfOk result (λ o. o.case ≡ case.now) }
{
    let mut book = LoadBook::new(alloc, case, start)?;
    let mut order = Order::new(alloc, case, &book)?;
    let mut turns = Vec::new(alloc);
    for place in 0..kinds.len() {
        let goal = &goals[place];
        let actions = take_turn(
            rt,
            alloc,
            case,
            &mut book,
            &mut order,
            &goals[..place],
            goal,
        )?;
        turns.push(Turned {
            goal: kinds[place],
            actions,
        })?;
        let left = measure(goal, case, &book);
        if goal.is_hard(case) && left > 0 {
            let (case, end) = book.into_parts();
            return Ok(Outcome {
                turns,
                case,
                end,
                broken: Some(left),
            });
        }
    }
    let (case, end) = book.into_parts();
    Ok(Outcome {
        turns,
        case,
        end,
        broken: None,
    })
}

/// Optimises the goals one after another from the start: a plan in which each goal had its turn and
/// each hard goal was met at the end of its own, or the failure of the first hard goal that was
/// not. In a goal's turn an action is taken only if it is legal, each goal before accepts it and it
/// lessens the goal; the turn ends where the goal is met or no such action is left. Each action is
/// the first such one of the list of candidates.
pub fn optimise<R: Threads + Sync>(
    rt: &R,
    alloc: Global,
    case: &Case,
    start: &Assign,
    goals: &GoalList,
) -> Result<Plan, PlanFault>
    requires { Belongs case.now start.now }
    ensures plan { IfOk result (IsPlanOf case.now start.now goals.now) }
    ensures fault { IfErr result (IsFaultOf case.now start.now goals.now) }
    ensures firsts { MatchResult result
        (λ p. TakesFirsts case.now start.now goals.now p.trace.turns.items)
        (FaultTakesFirsts case.now start.now goals.now) }
{
    let made = goals_of(alloc, goals.kinds(), case)?;
    let outcome = take_turns(rt, alloc, case, start, goals.kinds(), &made)?;
    let case = outcome.case;
    let start = start.copy(alloc)?;
    let goals = goals.copy(alloc)?;
    let turns = outcome.turns;
    match outcome.broken {
        None => {
            let trace = Trace {
                turns,
                planned: true,
            };
            Ok(Plan::new(case, start, goals, trace, outcome.end))
        }
        Some(left) => {
            let trace = Trace {
                turns,
                planned: false,
            };
            Err(PlanFault::Goal(Failure::new(case, start, goals, trace, left)))
        }
    }
}
