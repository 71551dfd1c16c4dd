// One goal's turn.
ghost use Rattle.std.specs.Prelude.{◌≡◌, ◌≤◌, IfOk, map};
ghost use Rattle.std.specs.List.{All};
ghost use Rattle.candidate_order.specs.Order.{IsOrderOf};
ghost use Rattle.goal_optimizer.specs.Firsts.{FirstSteps};
ghost use Rattle.plan_terms.specs.Belongs.{IsBookOf};
ghost use Rattle.plan_terms.specs.Effect.{after_all};
ghost use Rattle.plan_terms.specs.Trace.{Turn};

use candidate_order::{Order, Scan, next_in_turn};
use load_model::{Case, LoadBook};
use move_actions::{Goal, Moves};
use plan_terms::{Actions, Memory};
use std::alloc::Global;
use std::thread::Threads;

/// Takes the turn of a goal: one action after another, each the first candidate that the earlier
/// goals accept and that lessens it, up to lists at which no such action is left. That ends where
/// the goal is met, if not before.
pub fn take_turn<G: Goal + Sync, R: Threads + Sync>(
    rt: &R,
    alloc: Global,
    case: &Case,
    book: &mut LoadBook,
    order: &mut Order,
    earlier: &[G],
    goal: &G,
) -> Result<Actions, Memory>
    // The goals, the book and the order are of the case.
    requires made { All (λ g. G.made_for g case.now) earlier.now }
    requires made_goal { G.made_for goal.now case.now }
    requires belongs { IsBookOf case.now book.old }
    requires order { IsOrderOf case.now book.old.lists order.old }
    // The actions of the turn, each the first of its candidates.
    ensures turn { IfOk result
        (λ actions. Turn case.now (map (λ g. G.meaning g case.now) earlier.now)
        (G.meaning goal.now case.now) book.old.lists actions) }
    ensures firsts { IfOk result
        (λ actions. FirstSteps case.now (map (λ g. G.meaning g case.now) earlier.now)
        (G.meaning goal.now case.now) book.old.lists actions) }
    // The book and the order go with the lists; the cluster stays.
    ensures end { IfOk result (λ actions. book.new.lists ≡ after_all actions book.old.lists) }
    ensures belongs { IfOk result (λ actions. IsBookOf case.now book.new) }
    ensures order { IfOk result (λ actions. IsOrderOf case.now book.new.lists order.new) }
    ensures case { IfOk result (λ actions. book.new.cluster ≡ book.old.cluster) }
{
    let mut scan = Scan::new(alloc, case, book, earlier, goal)?;
    let mut actions = Actions::new(alloc);
    'scan: loop {
        let next = next_in_turn(rt, alloc, case, book, order, &mut scan, earlier, goal)?;
        match next {
            None => return Ok(actions),
            Some(action) => {
                scan.step(case, book, earlier, goal, action);
                order.after(case, book, action);
                book.apply(case, action);
                actions.push(action)?;
            }
        }
    }
}
