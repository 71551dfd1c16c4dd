// Writing a trace.
ghost use Rattle.std.specs.Prelude.{◌≡◌, IfOk, OnOk, Some, map};
ghost use Rattle.std.specs.List.{All};
ghost use Rattle.serde_json.specs.Data.{array};
ghost use Rattle.serde_json.specs.View.{items_of, view};
ghost use Rattle.plan_terms.specs.declared.actions.Action.TheVariants.{Lead, Move, Swap};
ghost use Rattle.plan_check.specs.Meaning.{action_at, trace_at, trace_of, turn_at};
ghost use Rattle.plan_check.specs.Reading.{IsReadBack};
ghost use Rattle.plan_check.specs.Text.{action_data, result_name, trace_data, trace_text, trace_view, turn_data};

use goal_set::{Trace, Turned};
use plan_terms::{Action, Memory};
use serde_json::{Value, json};
use std::alloc::{AllocError, Global};

fn move_value(alloc: Global, part: u32, from: u32, to: u32) -> Result<Value, AllocError>
    ensures { IfOk result (λ v. view v ≡ action_data (Move part from to)) }
{
    json!(in alloc; ["MOVE", part, from, to])
}

fn lead_value(alloc: Global, part: u32, to: u32) -> Result<Value, AllocError>
    ensures { IfOk result (λ v. view v ≡ action_data (Lead part to)) }
{
    json!(in alloc; ["LEAD", part, to])
}

fn swap_value(alloc: Global, part: u32, from: u32, other: u32, to: u32) -> Result<Value, AllocError>
    ensures { IfOk result (λ v. view v ≡ action_data (Swap part from other to)) }
{
    json!(in alloc; ["SWAP", part, from, other, to])
}

#[tactic(auto, using(crate::proofs::ReadBack::move_read_back, crate::proofs::ReadBack::lead_read_back, crate::proofs::ReadBack::swap_read_back))]
fn action_value(alloc: Global, action: &Action) -> Result<Value, AllocError>
    ensures data { IfOk result (λ v. view v ≡ action_data action.now) }
    ensures reads { IsReadBack action_at action_data action.now }
{
    match *action {
        Action::Move { part, from, to } => move_value(alloc, part, from, to),
        Action::Lead { part, to } => lead_value(alloc, part, to),
        Action::Swap {
            part,
            from,
            other,
            to,
        } => swap_value(alloc, part, from, other, to),
    }
}

fn action_values(alloc: Global, actions: &[Action]) -> Result<Vec<Value>, AllocError>
    ensures data { IfOk result (λ v. map view v.items ≡ map action_data actions.now) }
    ensures reads { OnOk result (All (IsReadBack action_at action_data) actions.now) }
{
    let mut values = Vec::new(alloc);
    for action in actions {
        values.push(action_value(alloc, action)?)?;
    }
    Ok(values)
}

#[tactic(auto, using(crate::proofs::ReadBack::turn_read_back))]
fn turn_value(alloc: Global, turn: &Turned) -> Result<Value, AllocError>
    ensures data { IfOk result (λ v. view v ≡ turn_data turn.now) }
    ensures reads { OnOk result (IsReadBack turn_at turn_data turn.now) }
{
    let actions = Value::Array(action_values(alloc, turn.actions.as_slice())?);
    json!(in alloc; {"actions": actions, "goal": (turn.goal.name())})
}

fn turn_values(alloc: Global, turns: &[Turned]) -> Result<Vec<Value>, AllocError>
    ensures data { IfOk result (λ v. map view v.items ≡ map turn_data turns.now) }
    ensures reads { OnOk result (All (IsReadBack turn_at turn_data) turns.now) }
{
    let mut values = Vec::new(alloc);
    for turn in turns {
        values.push(turn_value(alloc, turn)?)?;
    }
    Ok(values)
}

fn result_name(planned: bool) -> &'static str
    ensures { result.now ≡ result_name planned }
{
    if planned { "PLANNED" } else { "FAILED" }
}

fn trace_value(alloc: Global, trace: &Trace) -> Result<Value, AllocError>
    ensures data { IfOk result (λ v. view v ≡ trace_data (trace_view trace.now)) }
    ensures reads { OnOk result (IsReadBack trace_at trace_data (trace_view trace.now)) }
{
    let turns = Value::Array(turn_values(alloc, &trace.turns)?);
    json!(in alloc; {"result": (result_name(trace.planned)), "turns": turns, "version": 1u32})
}

/// The trace as JSON, on one line, with keys in the order of their bytes and no blanks:
/// `{"result":R,"turns":[{"actions":[ACTION],"goal":NAME}],"version":1}`, where R is `PLANNED` or
/// `FAILED` and an action is `["MOVE",p,a,b]`, `["LEAD",p,b]` or `["SWAP",p,a,q,b]`, partitions by
/// their place from 0 and brokers by their id.
pub fn trace_text(alloc: Global, trace: &Trace) -> Result<Vec<u8>, Memory>
    ensures text { IfOk result (λ text. text.items ≡ trace_text (trace_view trace.now)) }
    ensures reads_back { IfOk result (λ text. trace_of text.items ≡ Some (trace_view trace.now)) }
{
    let value = trace_value(alloc, trace)?;
    Ok(value.to_vec(alloc)?)
}
