// The summary of a plan, and that of a failure.
ghost use Rattle.std.specs.Prelude.{◌≡◌, ◌++◌, ◌∷◌, [], List, IfOk, map, string_bytes};
ghost use Rattle.plan_terms.specs.Belongs.{Belongs, IsBookOf};
ghost use Rattle.goal_set.specs.Kept.{kinds_of};
ghost use Rattle.goal_set.specs.declared.kinds.GoalKind.{GoalKind};
ghost use Rattle.plan_summary.specs.Summary.{failure_summary, goal_lines, plan_summary};

use crate::lines::push_lines;
use crate::replay::book_after;
use goal_set::{Failure, GoalKind, Plan, Turned};
use load_model::{Assign, Case, LoadBook};
use plan_terms::Memory;
use proposal_set::proposals;
use std::alloc::Global;

// The first lines, and then those of the goals.
fn with_lines(
    alloc: Global,
    first_lines: String,
    case: &Case,
    start: &Assign,
    end: &LoadBook,
    turns: &[Turned],
) -> Result<Vec<u8>, Memory>
    requires start { Belongs case.now start.now }
    requires end { IsBookOf case.now end.now }
    ensures { IfOk result
        (λ text. text.items
        ≡ string_bytes first_lines
        ++ goal_lines case.now start.now end.now.lists (map (λ t. t.goal) turns.now)) }
{
    let start = LoadBook::new(alloc, case, start)?;
    let mut text = first_lines.into_bytes();
    push_lines(alloc, &mut text, case, &start, end, turns)?;
    Ok(text)
}

/// The summary of a plan, line by line: `planned`, `proposals` and the number of partitions whose
/// lists it changes, and for each goal its name with its measures before the plan and after it.
///
/// `Memory`: there is too little memory for the text.
#[tactic(auto, unfolding(crate::specs::Summary::plan_summary))]
pub fn plan_summary(alloc: Global, plan: &Plan) -> Result<Vec<u8>, Memory>
    ensures { IfOk result (λ text. text.items ≡ plan_summary plan.now) }
{
    let case = plan.case();
    let changes = proposals(alloc, plan.start(), plan.end())?.len();
    let first_lines = format!(in alloc; "planned\nproposals {changes}\n")?;
    let end = LoadBook::new(alloc, case, plan.end())?;
    with_lines(
        alloc,
        first_lines,
        case,
        plan.start(),
        &end,
        plan.trace().turns.as_slice(),
    )
}

/// The summary of a failure, line by line: `failed` and the goal's name, `proposals 0`, and for
/// each goal that had its turn its name with its measures before the first turn and after the last.
///
/// `Memory`: there is too little memory for the text.
#[tactic(auto, unfolding(crate::specs::Summary::failure_summary))]
pub fn failure_summary(alloc: Global, failure: &Failure, goal: GoalKind) -> Result<Vec<u8>, Memory>
    // The goal is the failure's own.
    requires { (met : List GoalKind) × (kinds_of failure.now.trace ≡ met ++ goal ∷ []) }
    ensures { IfOk result (λ text. text.items ≡ failure_summary goal failure.now) }
{
    let case = failure.case();
    let turns = failure.trace().turns.as_slice();
    let name = goal.name();
    let first_lines = format!(in alloc; "failed {name}\nproposals 0\n")?;
    let end = book_after(alloc, case, failure.start(), turns)?;
    with_lines(alloc, first_lines, case, failure.start(), &end, turns)
}
