// The decision.
ghost use Rattle.std.specs.Prelude.{◌≡◌, ℕ, List, map, IfOk, if◌then◌else◌};
ghost use Rattle.goal_set.specs.Read.{default_kinds};
ghost use Rattle.plan_terms.specs.Belongs.{Belongs, IsBookOf};
ghost use Rattle.anomaly_detector.specs.declared.decision.Decision.{Decision};
ghost use Rattle.anomaly_detector.specs.Decided.{decided, first_broken, if_any, is_broken, lost_for, rebalance, removal};

use crate::decision::Decision;
use goal_set::{Cause, GoalKind, GoalList, goal_of};
use load_model::{Assign, Case, LoadBook};
use move_actions::{Goal, measure};
use plan_terms::{ListOf, Memory};
use std::alloc::Global;
use user_tasks::{Ask, Op};

// The brokers that are lost for at least so long.
fn lost_for(alloc: Global, least: u64, now: u64, since: &[(u32, u64)]) -> Result<Vec<u32>, Memory>
    ensures { IfOk result (λ v. v.items ≡ lost_for least now since.now) }
{
    Ok(
        since
            .iter()
            .filter(|loss| now.saturating_sub(loss.1) >= least)
            .map(|loss| loss.0)
            .collect(alloc)?,
    )
}

// All of them.
fn lost(alloc: Global, since: &[(u32, u64)]) -> Result<Vec<u32>, Memory>
    ensures { IfOk result (λ v. v.items ≡ map (λ x. x.0) since.now) }
{
    Ok(since.iter().map(|loss| loss.0).collect(alloc)?)
}

// That these brokers are removed.
fn removal(alloc: Global, brokers: Vec<u32>) -> Ask
    ensures { result ≡ removal brokers.items }
{
    Ask {
        op: Op::RemoveBroker,
        brokers: ListOf::new(brokers),
        goals: ListOf::new(Vec::new(alloc)),
        skip: false,
        excluded: ListOf::new(Vec::new(alloc)),
        dryrun: false,
        topics: ListOf::new(Vec::new(alloc)),
        factor: 0,
    }
}

// That the cluster is rebalanced.
fn rebalance(alloc: Global) -> Ask
    ensures { result ≡ rebalance }
{
    Ask {
        op: Op::Rebalance,
        brokers: ListOf::new(Vec::new(alloc)),
        goals: ListOf::new(Vec::new(alloc)),
        skip: false,
        excluded: ListOf::new(Vec::new(alloc)),
        dryrun: false,
        topics: ListOf::new(Vec::new(alloc)),
        factor: 0,
    }
}

// That these brokers are removed, and why.
fn removing(alloc: Global, brokers: Vec<u32>) -> Result<Decision, Memory>
    ensures { IfOk result (λ d. d ≡ Decision.Fix (Cause.BrokerFailure brokers.items) (removal brokers.items)) }
{
    let cause = Cause::BrokerFailure(ListOf::new(Vec::from_slice(alloc, brokers.as_slice())?));
    Ok(Decision::Fix(cause, removal(alloc, brokers)))
}

// Whether the goal of a kind is hard and broken.
fn is_broken(alloc: Global, kind: GoalKind, case: &Case, book: &LoadBook) -> Result<bool, Memory>
    requires { IsBookOf case.now book.now }
    ensures { IfOk result (λ b. b ≡ is_broken case.now book.now.lists kind) }
{
    if !kind.is_hard() {
        return Ok(false);
    }
    let goal = goal_of(alloc, kind, case)?;
    Ok(measure(&goal, case, book) > 0)
}

// The default list of goals.
fn default_goals(alloc: Global) -> Result<GoalList, Memory>
    ensures { IfOk result (λ l. l ≡ default_kinds) }
{
    match GoalList::read(alloc, &[], false) {
        Ok(goals) => Ok(goals),
        Err(_) => Err(Memory),
    }
}

// The first hard goal of the default list that is broken.
#[tactic(auto, unfolding(crate::specs::Decided::first_broken))]
fn first_broken(alloc: Global, case: &Case, book: &LoadBook) -> Result<Option<GoalKind>, Memory>
    requires { IsBookOf case.now book.now }
    ensures { IfOk result (λ k. k ≡ first_broken case.now book.now.lists) }
{
    let goals = default_goals(alloc)?;
    let kinds = goals.kinds();
    for kind in kinds {
        if is_broken(alloc, *kind, case, book)? {
            return Ok(Some(*kind));
        }
    }
    Ok(None)
}

// Whether there are any.
fn is_some(ids: &[u32]) -> bool
    ensures { (say : List ℕ → Decision) → (other : Decision)
        → if_any ids.now say other ≡ (if result then say ids.now else other) }
{
    match ids {
        [] => false,
        [_, ..] => true,
    }
}

/// What is to be done at a moment, about brokers that are lost since the moments beside them, and
/// about goals that the lists break: brokers that are lost for at least `heal` milliseconds are
/// removed; else those that are lost for at least `alert` are told; else all that are lost; else
/// where a hard goal of the default list is broken, the cluster is rebalanced. The rules are those
/// of Cruise Control's anomaly detector.
#[tactic(auto, unfolding(crate::specs::Decided::decided))]
pub fn decide(
    alloc: Global,
    now: u64,
    alert: u64,
    heal: u64,
    since: &[(u32, u64)],
    case: &Case,
    lists: &Assign,
) -> Result<Decision, Memory>
    requires { Belongs case.now lists.now }
    ensures { IfOk result (λ d. d ≡ decided now alert heal since.now case.now lists.now) }
{
    let old = lost_for(alloc, heal, now, since)?;
    if is_some(&old) {
        return removing(alloc, old);
    }
    let known = lost_for(alloc, alert, now, since)?;
    if is_some(&known) {
        return Ok(Decision::Alert(ListOf::new(known)));
    }
    let all = lost(alloc, since)?;
    if is_some(&all) {
        return Ok(Decision::Waiting(ListOf::new(all)));
    }
    let book = LoadBook::new(alloc, case, lists)?;
    match first_broken(alloc, case, &book)? {
        Some(kind) => Ok(Decision::Fix(Cause::GoalViolation(kind), rebalance(alloc))),
        None => Ok(Decision::Fine),
    }
}
