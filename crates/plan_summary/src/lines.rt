// A line for each goal.
ghost use Rattle.std.specs.Prelude.{◌≡◌, ◌++◌, OnOk, map};
ghost use Rattle.plan_terms.specs.Belongs.{IsBookOf};
ghost use Rattle.plan_summary.specs.Summary.{goal_line, goal_lines};

use goal_set::{GoalKind, Turned, goal_of};
use load_model::{Case, LoadBook};
use move_actions::measure;
use plan_terms::Memory;
use std::alloc::Global;

// Puts a goal's line at the end: its name, and how far the one book and the other exceed it.
fn push_line(
    alloc: Global,
    text: &mut Vec<u8>,
    case: &Case,
    start: &LoadBook,
    end: &LoadBook,
    kind: GoalKind,
) -> Result<(), Memory>
    requires start { IsBookOf case.now start.now }
    requires end { IsBookOf case.now end.now }
    ensures { OnOk result
        (text.new.items ≡ text.old.items ++ goal_line case.now start.now.lists end.now.lists kind) }
{
    let goal = goal_of(alloc, kind, case)?;
    let before = measure(&goal, case, start);
    let after = measure(&goal, case, end);
    let name = kind.name();
    let line = format!(in alloc; "{name} {before} {after}\n")?;
    text.extend_from_slice(line.as_bytes())?;
    Ok(())
}

/// Puts the line of each turn's goal at the end, in order.
pub fn push_lines(
    alloc: Global,
    text: &mut Vec<u8>,
    case: &Case,
    start: &LoadBook,
    end: &LoadBook,
    turns: &[Turned],
) -> Result<(), Memory>
    requires start { IsBookOf case.now start.now }
    requires end { IsBookOf case.now end.now }
    ensures { OnOk result
        (text.new.items
        ≡ text.old.items
        ++ goal_lines case.now start.now.lists end.now.lists (map (λ t. t.goal) turns.now)) }
{
    for turn in turns {
        push_line(alloc, text, case, start, end, turn.goal)?;
    }
    Ok(())
}
