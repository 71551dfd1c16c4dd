// The checker of traces.
ghost use Rattle.std.specs.Prelude.{◌≡◌, ◌+◌, ◌<◌, ◌↔◌, false, IsTrue, IfOk, MatchOption, Some, length, map, slice_get};
ghost use Rattle.std.specs.List.{All};
ghost use Rattle.goal_set.specs.AnyMeaning.{any_made, any_meaning};
ghost use Rattle.goal_set.specs.Kinds.{meanings};
ghost use Rattle.plan_terms.specs.Belongs.{Belongs, IsBookOf};
ghost use Rattle.plan_terms.specs.Effect.{after};
ghost use Rattle.plan_terms.specs.Legal.{is_legal};
ghost use Rattle.plan_terms.specs.Trace.{NoneLeft, Step};
ghost use Rattle.plan_check.specs.Ends.{IsActionFault, IsTurnEnd};
ghost use Rattle.plan_check.specs.Judged.{IsGoodBefore, Judges};
ghost use Rattle.plan_check.specs.declared.faults.Verdict.TheVariants as verdict;

use crate::faults::{FaultKind, Verdict};
use candidate_order::{Order, Scan, all_accept, next_lessening};
use goal_set::{AnyGoal, GoalKind, GoalList, Trace, goals_of};
use load_model::{Assign, Case, LoadBook};
use move_actions::{Goal, Moves, legal, measure};
use plan_terms::{Action, Memory};
use std::alloc::Global;
use std::thread::Threads;

/// What a turn comes to.
#[derive(Drop)]
enum TurnEnd {
    /// It is good, and leads to the lists of the book.
    Done(LoadBook),
    /// Its goal is hard, and no action is left that could lessen it, but it stays broken.
    Broken,
    Fault { action: usize, kind: FaultKind },
}

// Why the action is no step of the goal's turn.
fn action_fault<G: Goal>(
    case: &Case,
    book: &LoadBook,
    earlier: &[G],
    goal: &G,
    action: Action,
) -> Option<FaultKind>
    requires made { All (λ g. G.made_for g case.now) earlier.now }
    requires made_goal { G.made_for goal.now case.now }
    requires belongs { IsBookOf case.now book.now }
    ensures { MatchOption result
        (Step case.now (map (λ g. G.meaning g case.now) earlier.now) (G.meaning goal.now case.now)
        book.now.lists action)
        (IsActionFault case.now (map (λ g. G.meaning g case.now) earlier.now)
        (G.meaning goal.now case.now) book.now.lists action) }
{
    if !legal(case, book, action) {
        return Some(FaultKind::Illegal);
    }
    if !all_accept(case, book, earlier, action) {
        return Some(FaultKind::NotAccepted);
    }
    if !goal.lessens(case, book, action) {
        return Some(FaultKind::NotLessening);
    }
    None
}

// Applies the action, and sums the loads afresh: no sum that the action changed in the book is
// used.
fn take_step(alloc: Global, case: &Case, book: &mut LoadBook, action: Action) -> Result<(), Memory>
    requires belongs { IsBookOf case.now book.old }
    requires legal { IsTrue (is_legal case.now book.old.lists action) }
    ensures lists { book.new.lists ≡ after action book.old.lists }
    ensures cluster { book.new.cluster ≡ book.old.cluster }
{
    book.apply(case, action);
    book.resum(alloc)?;
    Ok(())
}

// An action that is left where a turn ends: a legal one that the earlier goals accept and that
// lessens the goal. The planner's search finds it, since its contract is the definition's: to try
// each action by itself would take minutes where the plan took a second.
fn action_left<G: Goal + Sync, R: Threads + Sync>(
    rt: &R,
    alloc: Global,
    case: &Case,
    book: &LoadBook,
    earlier: &[G],
    goal: &G,
) -> Result<Option<Action>, Memory>
    requires made { All (λ g. G.made_for g case.now) earlier.now }
    requires made_goal { G.made_for goal.now case.now }
    requires belongs { IsBookOf case.now book.now }
    ensures { IfOk result
        (λ left. MatchOption left
        (NoneLeft case.now (map (λ g. G.meaning g case.now) earlier.now)
        (G.meaning goal.now case.now) book.now.lists)
        (λ a. Step case.now (map (λ g. G.meaning g case.now) earlier.now)
        (G.meaning goal.now case.now) book.now.lists a)) }
{
    let order = Order::new(alloc, case, book)?;
    let mut scan = Scan::new(alloc, case, book, earlier, goal)?;
    next_lessening(rt, alloc, case, book, &order, &mut scan, earlier, goal)
}

// Follows the actions of a goal's turn.
fn judge_turn<G: Goal + Sync, R: Threads + Sync>(
    rt: &R,
    alloc: Global,
    case: &Case,
    book: LoadBook,
    earlier: &[G],
    goal: &G,
    actions: &[Action],
) -> Result<TurnEnd, Memory>
    requires made { All (λ g. G.made_for g case.now) earlier.now }
    requires made_goal { G.made_for goal.now case.now }
    requires belongs { IsBookOf case.now book }
    ensures { IfOk result
        (IsTurnEnd case.now (map (λ g. G.meaning g case.now) earlier.now)
        (G.meaning goal.now case.now) book.lists actions.now) }
{
    let mut here = book;
    for (place, action) in actions.iter().enumerate() {
        if let Some(kind) = action_fault(case, &here, earlier, goal, *action) {
            return Ok(TurnEnd::Fault {
                action: place,
                kind,
            });
        }
        take_step(alloc, case, &mut here, *action)?;
    }
    if measure(goal, case, &here) == 0 {
        return Ok(TurnEnd::Done(here));
    }
    let left = action_left(rt, alloc, case, &here, earlier, goal)?;
    match left {
        Some(_) => Ok(TurnEnd::Fault {
            action: actions.len(),
            kind: FaultKind::NotFinished,
        }),
        None if goal.is_hard(case) => Ok(TurnEnd::Broken),
        None => Ok(TurnEnd::Done(here)),
    }
}

fn is_goal_at(kinds: &[GoalKind], place: usize, goal: GoalKind) -> bool
    ensures { IsTrue result ↔ slice_get kinds.now place ≡ Some goal }
{
    place < kinds.len() && kinds[place] == goal
}

// Whether the trace is said to fail with the turn at the place, its last.
fn fails_at(trace: &Trace, place: usize) -> bool
    requires { place < length trace.now.turns.items }
    ensures { IsTrue result
        ↔ ((trace.now.planned ≡ false) × (place + 1 ≡ length trace.now.turns.items)) }
{
    !trace.planned && place + 1 == trace.turns.len()
}

fn fault(turn: usize, action: usize, kind: FaultKind) -> Verdict
    ensures { result ≡ verdict.Fault turn action kind }
{
    Verdict::Fault { turn, action, kind }
}

// Judges the turns in order, up to the first that is wrong or at whose end a hard goal is broken.
fn judge_turns<R: Threads + Sync>(
    rt: &R,
    alloc: Global,
    case: &Case,
    start: &Assign,
    kinds: &[GoalKind],
    goals: &[AnyGoal],
    trace: &Trace,
) -> Result<Option<Verdict>, Memory>
    requires made { All (λ g. any_made g case.now) goals.now }
    requires meanings { map (λ g. any_meaning g case.now) goals.now ≡ meanings case.now kinds.now }
    requires belongs { Belongs case.now start.now }
    ensures { IfOk result
        (λ v. MatchOption v
        (IsGoodBefore
        (record { case = case.now; start = start.now; goals = kinds.now; trace = trace.now })
        (length trace.now.turns.items))
        (Judges
        (record { case = case.now; start = start.now; goals = kinds.now; trace = trace.now }))) }
{
    let mut book = LoadBook::new(alloc, case, start)?;
    for (place, turn) in trace.turns.iter().enumerate() {
        if !is_goal_at(kinds, place, turn.goal) {
            return Ok(Some(fault(place, 0, FaultKind::WrongGoal)));
        }
        let earlier = &goals[..place];
        let actions = turn.actions.as_slice();
        match judge_turn(rt, alloc, case, book, earlier, &goals[place], actions)? {
            TurnEnd::Done(next) => book = next,
            TurnEnd::Broken if fails_at(trace, place) => return Ok(Some(Verdict::Good)),
            TurnEnd::Broken => {
                return Ok(Some(fault(place, actions.len(), FaultKind::WrongResult)));
            }
            TurnEnd::Fault { action, kind } => return Ok(Some(fault(place, action, kind))),
        }
    }
    Ok(None)
}

/// Whether the trace is good for the case, the start and the goals, or its first fault. Turn after
/// turn: the goal, each action in order, what the turn leaves, and whether it should have been the
/// last; then whether a goal is left and whether the trace is said to be planned. Each action is
/// judged on loads that are summed afresh from the lists where it stands.
pub fn check<R: Threads + Sync>(
    rt: &R,
    alloc: Global,
    case: &Case,
    start: &Assign,
    goals: &GoalList,
    trace: &Trace,
) -> Result<Verdict, Memory>
    requires { Belongs case.now start.now }
    ensures { IfOk result
        (Judges
        (record { case = case.now; start = start.now; goals = goals.now; trace = trace.now })) }
{
    let kinds = goals.kinds();
    let made = goals_of(alloc, kinds, case)?;
    let verdict = judge_turns(rt, alloc, case, start, kinds, &made, trace)?;
    if let Some(verdict) = verdict {
        return Ok(verdict);
    }
    let turns = trace.turns.len();
    if turns < kinds.len() {
        return Ok(fault(turns, 0, FaultKind::WrongGoal));
    }
    if !trace.planned {
        return Ok(fault(turns, 0, FaultKind::WrongResult));
    }
    Ok(Verdict::Good)
}
