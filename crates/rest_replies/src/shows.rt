// The bodies of replies that show something, as JSON.
ghost use Rattle.std.specs.Prelude.{◌≡◌, map, IfOk};
ghost use Rattle.serde_json.specs.View.{view};
ghost use Rattle.rest_replies.specs.Answers.{shown_data};
ghost use Rattle.rest_replies.specs.Bodies.{broker_data, cluster_data, executor_data, loads_data, monitor_data, part_data, state_data, task_data, tasks_data};

use crate::texts::{broker_state_text, endpoint_text, executor_state_text, task_status_text};
use core_terms::{BrokerShown, ExecutorState, PartShown, Shown, StateShown, TaskShown};
use exec_terms::PhaseCounts;
use plain_json::numbers_value;
use plan_terms::Memory;
use serde_json::{Value, json};
use std::alloc::Global;
use user_tasks::id_text;

// The tasks of the last execution by phase, and what the executor does.
fn executor_value(
    alloc: Global,
    counts: &PhaseCounts,
    state: ExecutorState,
) -> Result<Value, Memory>
    ensures { IfOk result (λ v. view v ≡ executor_data counts.now state) }
{
    let state = executor_state_text(state);
    Ok(json!(in alloc; {
        "aborted": (counts.aborted),
        "aborting": (counts.aborting),
        "completed": (counts.completed),
        "dead": (counts.dead),
        "inProgress": (counts.in_progress),
        "pending": (counts.pending),
        "state": state
    })?)
}

// How many partitions have loads, of how many.
fn monitor_value(alloc: Global, valid: u32, all: u32) -> Result<Value, Memory>
    ensures { IfOk result (λ v. view v ≡ monitor_data valid all) }
{
    Ok(json!(in alloc; {"all": all, "valid": valid})?)
}

// The state.
fn state_value(alloc: Global, shown: &StateShown) -> Result<Value, Memory>
    ensures { IfOk result (λ v. view v ≡ state_data shown.now) }
{
    let executor = executor_value(alloc, &shown.counts, shown.state)?;
    let monitor = monitor_value(alloc, shown.valid, shown.all)?;
    Ok(json!(in alloc; {"ExecutorState": executor, "MonitorState": monitor, "version": 1u64})?)
}

// A broker and what it carries.
fn broker_value(alloc: Global, shown: &BrokerShown) -> Result<Value, Memory>
    ensures { IfOk result (λ v. view v ≡ broker_data shown.now) }
{
    let state = broker_state_text(shown.state);
    Ok(json!(in alloc; {
        "broker": (shown.broker),
        "cpu": (shown.cpu),
        "disk": (shown.disk),
        "leaders": (shown.leaders),
        "nwIn": (shown.nw_in),
        "nwOut": (shown.nw_out),
        "potentialNwOut": (shown.potential_nw_out),
        "replicas": (shown.replicas),
        "state": state
    })?)
}

fn broker_values(alloc: Global, brokers: &[BrokerShown]) -> Result<Vec<Value>, Memory>
    ensures { IfOk result (λ list. map view list.items ≡ map broker_data brokers.now) }
{
    let mut list = Vec::new(alloc);
    for broker in brokers {
        list.push(broker_value(alloc, broker)?)?;
    }
    Ok(list)
}

// The loads of the brokers.
fn loads_value(alloc: Global, brokers: &[BrokerShown]) -> Result<Value, Memory>
    ensures { IfOk result (λ v. view v ≡ loads_data brokers.now) }
{
    let brokers = Value::Array(broker_values(alloc, brokers)?);
    Ok(json!(in alloc; {"brokers": brokers, "version": 1u64})?)
}

// A partition, its list, and what is moved.
fn part_value(alloc: Global, part: &PartShown) -> Result<Value, Memory>
    ensures { IfOk result (λ v. view v ≡ part_data part.now) }
{
    let topic = part.topic.as_str();
    Ok(json!(in alloc; {
        "adding": (numbers_value(alloc, part.adding.as_slice())?),
        "partition": (part.number),
        "removing": (numbers_value(alloc, part.removing.as_slice())?),
        "replicas": (numbers_value(alloc, part.replicas.as_slice())?),
        "topic": topic
    })?)
}

fn part_values(alloc: Global, parts: &[PartShown]) -> Result<Vec<Value>, Memory>
    ensures { IfOk result (λ list. map view list.items ≡ map part_data parts.now) }
{
    let mut list = Vec::new(alloc);
    for part in parts {
        list.push(part_value(alloc, part)?)?;
    }
    Ok(list)
}

// The lost brokers and the partitions.
fn cluster_value(alloc: Global, lost: &[u32], parts: &[PartShown]) -> Result<Value, Memory>
    ensures { IfOk result (λ v. view v ≡ cluster_data lost.now parts.now) }
{
    let lost = numbers_value(alloc, lost)?;
    let parts = Value::Array(part_values(alloc, parts)?);
    Ok(json!(in alloc; {"deadBrokers": lost, "partitions": parts, "version": 1u64})?)
}

// A user task among the others.
fn task_value(alloc: Global, task: &TaskShown) -> Result<Value, Memory>
    ensures { IfOk result (λ v. view v ≡ task_data task.now) }
{
    let id = id_text(alloc, task.id)?;
    let id = id.as_str();
    let endpoint = endpoint_text(task.op);
    let status = task_status_text(task.status);
    Ok(json!(in alloc; {"endpoint": endpoint, "status": status, "userTaskId": id})?)
}

fn task_values(alloc: Global, tasks: &[TaskShown]) -> Result<Vec<Value>, Memory>
    ensures { IfOk result (λ list. map view list.items ≡ map task_data tasks.now) }
{
    let mut list = Vec::new(alloc);
    for task in tasks {
        list.push(task_value(alloc, task)?)?;
    }
    Ok(list)
}

// The user tasks.
fn tasks_value(alloc: Global, tasks: &[TaskShown]) -> Result<Value, Memory>
    ensures { IfOk result (λ v. view v ≡ tasks_data tasks.now) }
{
    let tasks = Value::Array(task_values(alloc, tasks)?);
    Ok(json!(in alloc; {"userTasks": tasks, "version": 1u64})?)
}

/// What is shown.
pub fn shown_value(alloc: Global, shown: &Shown) -> Result<Value, Memory>
    ensures { IfOk result (λ v. view v ≡ shown_data shown.now) }
{
    match shown {
        Shown::State(state) => state_value(alloc, state),
        Shown::Load(brokers) => loads_value(alloc, brokers.as_slice()),
        Shown::ClusterState(lost, parts) => cluster_value(alloc, lost.as_slice(), parts.as_slice()),
        Shown::UserTasks(tasks) => tasks_value(alloc, tasks.as_slice()),
    }
}
