// What `plan` makes.
ghost use Rattle.std.specs.Prelude.{◌≡◌, ◌++◌, ◌∷◌, [], codes, IfOk};
ghost use Rattle.plan_terms.specs.Belongs.{Belongs};
ghost use Rattle.plan_terms.specs.Change.{proposals};
ghost use Rattle.proposal_set.specs.Text.{reassignment_text};
ghost use Rattle.serde_json.specs.Data.{member, no_members, object, string};
ghost use Rattle.serde_json.specs.View.{view};
ghost use Rattle.cluster_json.specs.Ranges.{IsFile};
ghost use Rattle.cluster_json.specs.Views.{file_seen};
ghost use Rattle.core_terms.specs.Asked.{goals_of};
ghost use Rattle.goal_set.specs.Kinds.{name_of};
ghost use Rattle.quiet_commands.specs.Ends.{IsFailureEnd};
ghost use Rattle.quiet_commands.specs.Input.{cluster_lists, planned_for};
ghost use Rattle.quiet_commands.specs.Planned.{IsFailed, IsPlanned, failure_json, failure_text, plan_text};
ghost use Rattle.plan_terms.specs.Bytes.{line_feed};

use crate::answers::{Answer, goal_failed};
use crate::ends::End;
use crate::input::{Loaded, loaded_for};
use crate::planning::Planning;
use cluster_json::ClusterFile;
use goal_optimizer::{PlanFault, optimise};
use goal_set::{Failure, GoalKind, GoalList, Plan};
use load_model::{Assign, Case};
use plan_check::trace_text;
use plan_terms::Memory;
use proposal_set::{proposals, reassignment_text};
use serde_json::{Value, json};
use std::alloc::Global;
use std::thread::Threads;

// The text, ended by a line feed.
fn ended(mut text: Vec<u8>) -> Result<Vec<u8>, Memory>
    ensures { IfOk result (λ t. t.items ≡ text.items ++ line_feed ∷ []) }
{
    text.push(10)?;
    Ok(text)
}

// The reassignment JSON of what leads from the one assignment to the other.
fn changes_text(
    alloc: Global,
    case: &Case,
    before: &Assign,
    after: &Assign,
) -> Result<Vec<u8>, Memory>
    requires before { Belongs case.now before.now }
    requires after { Belongs case.now after.now }
    ensures { IfOk result
        (λ text. text.items ≡ reassignment_text case.now.parts (proposals before.now after.now)) }
{
    let changes = proposals(alloc, before, after)?;
    reassignment_text(alloc, case, &changes)
}

// The text of a plan, or of its trace.
#[tactic(auto, unfolding(crate::specs::Planned::plan_text))]
fn plan_text(alloc: Global, loaded: &Loaded, plan: &Plan, trace: bool) -> Result<Vec<u8>, Memory>
    requires before { Belongs loaded.now.case loaded.now.lists }
    requires after { Belongs loaded.now.case plan.now.end }
    ensures { IfOk result (λ text. text.items
        ≡ plan_text trace (cluster_lists loaded.now) plan.now) }
{
    if trace {
        return ended(trace_text(alloc, plan.trace())?);
    }
    ended(changes_text(alloc, &loaded.case, &loaded.lists, plan.end())?)
}

fn failure_value(alloc: Global, name: &str, measure: &str) -> Result<Value, Memory>
    ensures { IfOk result
        (λ v. view v ≡ object (member (codes "failed") (string name.now)
        (member (codes "measure") (string measure.now) no_members))) }
{
    Ok(json!(in alloc; {"failed": name, "measure": measure})?)
}

// The JSON of a goal that failed, with its measure as a text.
#[tactic(auto, unfolding(crate::specs::Planned::failure_json))]
fn failure_json(alloc: Global, name: &str, measure: u128) -> Result<Vec<u8>, Memory>
    ensures { IfOk result (λ text. text.items ≡ failure_json name.now measure) }
{
    let digits = format!(in alloc; "{measure}")?;
    let value = failure_value(alloc, name, digits.as_str())?;
    Ok(value.to_vec(alloc)?)
}

// The text of a failure, or of its trace.
#[tactic(auto, unfolding(crate::specs::Planned::failure_text))]
fn failure_text(
    alloc: Global,
    failure: &Failure,
    goal: GoalKind,
    trace: bool,
) -> Result<Vec<u8>, Memory>
    ensures { IfOk result (λ text. text.items ≡ failure_text trace goal failure.now) }
{
    if trace {
        return ended(trace_text(alloc, failure.trace())?);
    }
    ended(failure_json(alloc, goal.name(), failure.measure())?)
}

/// The goal that failed, with its measure, and its line.
#[tactic(auto, unfolding(crate::specs::Planned::failure_text))]
pub fn goal_failed_with(alloc: Global, goal: GoalKind, left: u128) -> Result<Answer, Memory>
    ensures text { IfOk result
        (λ a. a.text.items ≡ failure_json (name_of goal) left ++ line_feed ∷ []) }
    ensures end { IfOk result (λ a. IsFailureEnd goal a.end) }
{
    let end = goal_failed(alloc, goal)?;
    let text = ended(failure_json(alloc, goal.name(), left)?)?;
    Ok(Answer { text, end })
}

/// What is told of a failure.
pub fn failed(alloc: Global, failure: &Failure, trace: bool) -> Result<Answer, Memory>
    ensures { IfOk result (λ a. IsFailed trace failure.now a.text.items a.end) }
{
    let goal = failure.goal();
    let end = goal_failed(alloc, goal)?;
    let text = failure_text(alloc, failure, goal, trace)?;
    Ok(Answer { text, end })
}

// Plans for a cluster and a list of goals.
fn planned<R: Threads + Sync>(
    rt: &R,
    alloc: Global,
    loaded: &Loaded,
    goals: &GoalList,
    trace: bool,
) -> Result<Answer, Memory>
    requires { Belongs loaded.now.case loaded.now.lists }
    ensures { IfOk result
        (λ a. IsPlanned trace (cluster_lists loaded.now) goals.now a.text.items a.end) }
{
    match optimise(rt, alloc, &loaded.case, &loaded.lists, goals) {
        Ok(plan) => {
            let text = plan_text(alloc, loaded, &plan, trace)?;
            Ok(Answer {
                text,
                end: End::Done,
            })
        }
        Err(PlanFault::Goal(failure)) => failed(alloc, &failure, trace),
        Err(PlanFault::Memory) => Err(Memory),
    }
}

/// What `plan` makes of what a file means: the text of a plan, or the goal that fails; or the trace
/// of either.
pub fn plan<R: Threads + Sync>(
    rt: &R,
    alloc: Global,
    file: ClusterFile,
    planning: &Planning,
    trace: bool,
) -> Result<Answer, Memory>
    requires { IsFile file }
    ensures { IfOk result
        (λ a. IsPlanned trace (planned_for planning.now.ask (file_seen file))
        (goals_of planning.now.ask) a.text.items a.end) }
{
    let loaded = loaded_for(alloc, file, &planning.ask)?;
    planned(rt, alloc, &loaded, &planning.goals, trace)
}
