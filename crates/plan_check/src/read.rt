// Reading a trace.
ghost use Rattle.std.specs.Prelude.{◌≡◌, IfErr, IfOk, None, Some};
ghost use Rattle.serde_json.specs.Find.{as_array, as_str, get};
ghost use Rattle.serde_json.specs.View.{items_view, view};
ghost use Rattle.plan_check.specs.Meaning.{action_at, action_items, action_named, actions_at, all_of, goal_at, number_at, result_at, result_named, trace_at, trace_of, turn_at, turns_at, version_at};
ghost use Rattle.plan_check.specs.Reading.{Gives};
ghost use Rattle.plan_check.specs.Text.{trace_view};

use goal_set::{GoalKind, Trace, Turned};
use plan_terms::{Action, Actions, Memory};
use serde_json::Value;
use std::alloc::{AllocError, AllocFailed, Global};

/// Why bytes were not read as a trace.
#[derive(Clone, Copy, Debug, PartialEq, Eq)]
pub enum TraceFault {
    /// The bytes are no trace.
    NotATrace,
    /// Want of memory.
    Memory,
}

impl From<AllocError> for TraceFault {
    ghost use Rattle.plan_check.specs.declared.read.TraceFault.TheVariants as fault;

    ghost from_gives = { λ _ e. e ≡ fault.Memory };

    fn from(_: AllocError) -> Self {
        TraceFault::Memory
    }
}

impl<T: Drop> From<AllocFailed<T>> for TraceFault {
    ghost use Rattle.plan_check.specs.declared.read.TraceFault.TheVariants as fault;

    ghost from_gives = { λ _ e. e ≡ fault.Memory };

    fn from(_: AllocFailed<T>) -> Self {
        TraceFault::Memory
    }
}

impl From<Memory> for TraceFault {
    ghost use Rattle.plan_check.specs.declared.read.TraceFault.TheVariants as fault;

    ghost from_gives = { λ _ e. e ≡ fault.Memory };

    fn from(_: Memory) -> Self {
        TraceFault::Memory
    }
}

// A member of an object.
fn member<'v>(value: &'v Value, name: &str) -> Result<&'v Value, TraceFault>
    ensures { Gives (λ v. view v.now) result (get name.now (view value.now)) }
{
    value.get(name).ok_or(TraceFault::NotATrace)
}

fn items(value: &Value) -> Result<&[Value], TraceFault>
    ensures { Gives (λ v. items_view v.now) result (as_array (view value.now)) }
{
    match value.as_array() {
        Some(values) => Ok(values),
        None => Err(TraceFault::NotATrace),
    }
}

fn text(value: &Value) -> Result<&str, TraceFault>
    ensures { Gives (λ s. s.now) result (as_str (view value.now)) }
{
    value.as_str().ok_or(TraceFault::NotATrace)
}

#[tactic(auto, unfolding(crate::specs::Meaning::number_at))]
fn read_number(value: &Value) -> Result<u32, TraceFault>
    ensures { Gives (λ n. n) result (number_at (view value.now)) }
{
    match value.as_u64() {
        Some(n) if n < 1 << 32 => Ok(n as u32),
        _ => Err(TraceFault::NotATrace),
    }
}

fn read_numbers(alloc: Global, values: &[Value]) -> Result<Vec<u32>, TraceFault>
    ensures { Gives (λ v. v.items) result (all_of number_at (items_view values.now)) }
{
    let mut numbers = Vec::new(alloc);
    for value in values {
        numbers.push(read_number(value)?)?;
    }
    Ok(numbers)
}

// The action of a name and its numbers.
fn action_named(name: &str, numbers: &[u32]) -> Result<Action, TraceFault>
    ensures { Gives (λ a. a) result (action_named name.now numbers.now) }
{
    match *numbers {
        [part, to] if name == "LEAD" => Ok(Action::Lead { part, to }),
        [part, from, to] if name == "MOVE" => Ok(Action::Move { part, from, to }),
        [part, from, other, to] if name == "SWAP" => Ok(Action::Swap {
            part,
            from,
            other,
            to,
        }),
        _ => Err(TraceFault::NotATrace),
    }
}

#[tactic(auto, unfolding(crate::specs::Meaning::action_items))]
fn read_action_items(alloc: Global, values: &[Value]) -> Result<Action, TraceFault>
    ensures { Gives (λ a. a) result (action_items (items_view values.now)) }
{
    let (name, numbers) = values.split_first().ok_or(TraceFault::NotATrace)?;
    let name = text(name)?;
    let numbers = read_numbers(alloc, numbers)?;
    action_named(name, &numbers)
}

#[tactic(auto, unfolding(crate::specs::Meaning::action_at))]
fn read_action(alloc: Global, value: &Value) -> Result<Action, TraceFault>
    ensures { Gives (λ a. a) result (action_at (view value.now)) }
{
    read_action_items(alloc, items(value)?)
}

fn read_action_list(alloc: Global, values: &[Value]) -> Result<Actions, TraceFault>
    ensures { Gives (λ a. a) result (all_of action_at (items_view values.now)) }
{
    let mut actions = Actions::new(alloc);
    for value in values {
        actions.push(read_action(alloc, value)?)?;
    }
    Ok(actions)
}

#[tactic(auto, unfolding(crate::specs::Meaning::actions_at))]
fn read_actions(alloc: Global, value: &Value) -> Result<Actions, TraceFault>
    ensures { Gives (λ a. a) result (actions_at (view value.now)) }
{
    read_action_list(alloc, items(value)?)
}

#[tactic(auto, unfolding(crate::specs::Meaning::goal_at))]
fn read_goal(value: &Value) -> Result<GoalKind, TraceFault>
    ensures { Gives (λ k. k) result (goal_at (view value.now)) }
{
    GoalKind::of_name(text(value)?).ok_or(TraceFault::NotATrace)
}

#[tactic(auto, unfolding(crate::specs::Meaning::turn_at))]
fn read_turn(alloc: Global, value: &Value) -> Result<Turned, TraceFault>
    ensures { Gives (λ t. t) result (turn_at (view value.now)) }
{
    let actions = read_actions(alloc, member(value, "actions")?)?;
    let goal = read_goal(member(value, "goal")?)?;
    Ok(Turned { goal, actions })
}

fn read_turn_list(alloc: Global, values: &[Value]) -> Result<Vec<Turned>, TraceFault>
    ensures { Gives (λ v. v.items) result (all_of turn_at (items_view values.now)) }
{
    let mut turns = Vec::new(alloc);
    for value in values {
        turns.push(read_turn(alloc, value)?)?;
    }
    Ok(turns)
}

#[tactic(auto, unfolding(crate::specs::Meaning::turns_at))]
fn read_turns(alloc: Global, value: &Value) -> Result<Vec<Turned>, TraceFault>
    ensures { Gives (λ v. v.items) result (turns_at (view value.now)) }
{
    read_turn_list(alloc, items(value)?)
}

// Whether each goal had its turn, by the word for it.
fn result_named(name: &str) -> Result<bool, TraceFault>
    ensures { Gives (λ b. b) result (result_named name.now) }
{
    match name {
        "PLANNED" => Ok(true),
        "FAILED" => Ok(false),
        _ => Err(TraceFault::NotATrace),
    }
}

#[tactic(auto, unfolding(crate::specs::Meaning::result_at))]
fn read_result(value: &Value) -> Result<bool, TraceFault>
    ensures { Gives (λ b. b) result (result_at (view value.now)) }
{
    result_named(text(value)?)
}

#[tactic(auto, unfolding(crate::specs::Meaning::version_at))]
fn check_version(value: &Value) -> Result<(), TraceFault>
    ensures { Gives (λ u. u) result (version_at (view value.now)) }
{
    match value.as_u64() {
        Some(1) => Ok(()),
        _ => Err(TraceFault::NotATrace),
    }
}

#[tactic(auto, unfolding(crate::specs::Meaning::trace_at))]
fn trace_in(alloc: Global, value: &Value) -> Result<Trace, TraceFault>
    ensures { Gives trace_view result (trace_at (view value.now)) }
{
    let planned = read_result(member(value, "result")?)?;
    let turns = read_turns(alloc, member(value, "turns")?)?;
    check_version(member(value, "version")?)?;
    Ok(Trace { turns, planned })
}

/// The trace that the bytes are: the JSON object that [`trace_text`](crate::trace_text) writes,
/// with any blanks, with its members in any order and with any others among them. All else is no
/// trace.
pub fn read_trace(alloc: Global, bytes: &[u8]) -> Result<Trace, TraceFault>
    ensures ok { IfOk result (λ trace. trace_of bytes.now ≡ Some (trace_view trace)) }
    ensures err { IfErr result (λ e. e ≡ TraceFault.NotATrace → trace_of bytes.now ≡ None) }
{
    match Value::from_slice(alloc, bytes) {
        Ok(value) => trace_in(alloc, &value),
        Err(e) if e.is_memory() => Err(TraceFault::Memory),
        Err(_) => Err(TraceFault::NotATrace),
    }
}
