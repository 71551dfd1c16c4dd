// Small clusters of all states and loads. On their lists, and on those that the plan for all goals
// leads to, the planner's search and the plain scan of all legal actions find something for the
// same goals; and the trace of the plan is good.
ghost use Rattle.std.specs.Prelude.{◌≡◌, true};
ghost use Rattle.std.specs.List.{All};
ghost use Rattle.candidate_order.specs.Order.{IsOrderOf};
ghost use Rattle.plan_terms.specs.Belongs.{Belongs, IsBookOf};
ghost use Rattle.plan_terms.specs.Legal.{is_legal};

use crate::clusters::CLUSTERS;
use candidate_order::{Order, Scan, all_accept, next_lessening};
use goal_optimizer::{PlanFault, optimise};
use goal_set::{GoalList, Trace, goals_of};
use load_model::{Assign, Case, LoadBook};
use move_actions::{Goal, all_actions};
use plan_check::{Verdict, check};
use plan_terms::{Action, Memory};
use std::alloc::Global;
use std::process::Abort;
use std::thread::Threads;
use test_fakes::cluster;

// The first of some legal actions that the earlier goals accept and that lessens the goal.
fn first_of<G: Goal>(
    case: &Case,
    book: &LoadBook,
    earlier: &[G],
    goal: &G,
    actions: &[Action],
) -> Option<Action>
    requires made { All (λ g. G.made_for g case.now) earlier.now }
    requires made_goal { G.made_for goal.now case.now }
    requires belongs { IsBookOf case.now book.now }
    requires legal { All (λ a. is_legal case.now book.now.lists a ≡ true) actions.now }
{
    for action in actions {
        if goal.lessens(case, book, *action) && all_accept(case, book, earlier, *action) {
            return Some(*action);
        }
    }
    None
}

// The first of all legal actions, in order, that does so.
fn plain_next<G: Goal>(
    alloc: Global,
    case: &Case,
    book: &LoadBook,
    earlier: &[G],
    goal: &G,
) -> Result<Option<Action>, Memory>
    requires made { All (λ g. G.made_for g case.now) earlier.now }
    requires made_goal { G.made_for goal.now case.now }
    requires belongs { IsBookOf case.now book.now }
{
    let actions = all_actions(alloc, case, book.lists())?;
    Ok(first_of(case, book, earlier, goal, &actions))
}

// Both find an action for the goal behind those before it, or neither does.
fn expect_same<G: Goal + Sync, R: Threads + Sync + Abort>(
    rt: &R,
    alloc: Global,
    case: &Case,
    book: &LoadBook,
    order: &Order,
    earlier: &[G],
    goal: &G,
)
    requires made { All (λ g. G.made_for g case.now) earlier.now }
    requires made_goal { G.made_for goal.now case.now }
    requires belongs { IsBookOf case.now book.now }
    requires order { IsOrderOf case.now book.now.lists order.now }
{
    let mut scan = Scan::new(alloc, case, book, earlier, goal).expect(rt, "memory");
    let found = next_lessening(rt, alloc, case, book, order, &mut scan, earlier, goal);
    let found = found.expect(rt, "memory").is_some();
    let plain = plain_next(alloc, case, book, earlier, goal);
    assert_eq!(rt; found, plain.expect(rt, "memory").is_some());
}

// The same for each of some goals in order.
fn expect_same_for_each<G: Goal + Sync, R: Threads + Sync + Abort>(
    rt: &R,
    alloc: Global,
    case: &Case,
    book: &LoadBook,
    order: &Order,
    goals: &[G],
)
    requires made { All (λ g. G.made_for g case.now) goals.now }
    requires belongs { IsBookOf case.now book.now }
    requires order { IsOrderOf case.now book.now.lists order.now }
{
    for place in 0..goals.len() {
        expect_same(rt, alloc, case, book, order, &goals[..place], &goals[place]);
    }
}

// The same of these lists.
fn expect_same_on<R: Threads + Sync + Abort>(
    rt: &R,
    alloc: Global,
    case: &Case,
    lists: &Assign,
    goals: &GoalList,
)
    requires { Belongs case.now lists.now }
{
    let made = goals_of(alloc, goals.kinds(), case).expect(rt, "memory");
    let book = LoadBook::new(alloc, case, lists).expect(rt, "memory");
    let order = Order::new(alloc, case, &book).expect(rt, "memory");
    expect_same_for_each(rt, alloc, case, &book, &order, &made);
}

fn expect_good<R: Threads + Sync + Abort>(
    rt: &R,
    alloc: Global,
    case: &Case,
    start: &Assign,
    goals: &GoalList,
    trace: &Trace,
)
    requires { Belongs case.now start.now }
{
    let verdict = check(rt, alloc, case, start, goals, trace).expect(rt, "memory");
    assert_eq!(rt; verdict, Verdict::Good);
}

fn expect_cluster<R: Threads + Sync + Abort>(rt: &R, alloc: Global, text: &str) {
    let file = cluster(alloc, text).expect(rt, "cluster");
    let Ok(goals) = GoalList::read(alloc, &[], true) else {
        panic!(rt; "no goals");
    };
    let (case, start) = (&file.case, &file.lists);
    expect_same_on(rt, alloc, case, start, &goals);
    match optimise(rt, alloc, case, start, &goals) {
        Ok(plan) => {
            expect_same_on(rt, alloc, case, plan.end(), &goals);
            expect_good(rt, alloc, case, start, &goals, plan.trace());
        }
        Err(PlanFault::Goal(failure)) => {
            expect_good(rt, alloc, case, start, &goals, failure.trace());
        }
        Err(PlanFault::Memory) => panic!(rt; "memory"),
    }
}

#[test]
fn the_search_finds_what_a_plain_scan_finds(rt: HostRuntime) {
    for text in &CLUSTERS {
        expect_cluster(&rt, rt.alloc(), text);
    }
}
