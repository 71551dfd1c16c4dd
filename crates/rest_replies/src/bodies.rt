// The bodies of replies to requests that change something, as JSON.
ghost use Rattle.std.specs.Prelude.{◌≡◌, map, IfOk};
ghost use Rattle.serde_json.specs.Data.{array};
ghost use Rattle.serde_json.specs.View.{items_of, view};
ghost use Rattle.rest_replies.specs.Bodies.{anomaly_data, caps_data, decided_data, done_data, ended_data, ending_data, error_data, failed_data, killed_data, open_data, proposal_data, proposals_data, pumped_data, sampled_data, stopped_data};

use crate::texts::task_status_text;
use anomaly_detector::Decision;
use core_terms::Named;
use exec_terms::{Killed, Stopped};
use goal_set::{Cause, GoalKind};
use plain_json::numbers_value;
use plan_terms::{Caps, Memory};
use serde_json::{Value, json};
use std::alloc::Global;
use user_tasks::{Status, id_text};
use uuid::Uuid;

/// A refusal.
pub fn error_value(alloc: Global, text: &str) -> Result<Value, Memory>
    ensures { IfOk result (λ v. view v ≡ error_data text.now) }
{
    Ok(json!(in alloc; {"errorMessage": text, "version": 1u64})?)
}

/// A user task that is still to be worked on.
pub fn open_value(alloc: Global, id: Uuid, status: Status) -> Result<Value, Memory>
    ensures { IfOk result (λ v. view v ≡ open_data id status) }
{
    let id = id_text(alloc, id)?;
    let id = id.as_str();
    let status = task_status_text(status);
    Ok(json!(in alloc; {"status": status, "userTaskId": id, "version": 1u64})?)
}

// A partition's list, as it was and as it is to be.
fn proposal_value(alloc: Global, named: &Named) -> Result<Value, Memory>
    ensures { IfOk result (λ v. view v ≡ proposal_data named.now) }
{
    let topic = named.topic.as_str();
    Ok(json!(in alloc; {
        "newReplicas": (numbers_value(alloc, named.after.as_slice())?),
        "oldReplicas": (numbers_value(alloc, named.before.as_slice())?),
        "topicPartition": {"partition": (named.number), "topic": topic}
    })?)
}

// What a plan changes.
fn proposals_value(alloc: Global, proposals: &[Named]) -> Result<Value, Memory>
    ensures { IfOk result (λ v. view v ≡ proposals_data proposals.now) }
{
    let mut list = Vec::new(alloc);
    for proposal in proposals {
        list.push(proposal_value(alloc, proposal)?)?;
    }
    Ok(Value::Array(list))
}

/// A user task that is done, with what its plan changed.
pub fn done_value(
    alloc: Global,
    id: Uuid,
    status: Status,
    proposals: &[Named],
) -> Result<Value, Memory>
    ensures { IfOk result (λ v. view v ≡ done_data id status proposals.now) }
{
    let proposals = proposals_value(alloc, proposals)?;
    let id = id_text(alloc, id)?;
    let id = id.as_str();
    let status = task_status_text(status);
    Ok(json!(in alloc; {
        "proposals": proposals,
        "status": status,
        "userTaskId": id,
        "version": 1u64
    })?)
}

/// A user task that a goal failed, with what of it stays broken.
pub fn failed_value(
    alloc: Global,
    id: Uuid,
    status: Status,
    goal: GoalKind,
    left: u128,
) -> Result<Value, Memory>
    ensures { IfOk result (λ v. view v ≡ failed_data id status goal left) }
{
    let name = goal.name();
    let measure = format!(in alloc; "{left}")?;
    let measure = measure.as_str();
    let id = id_text(alloc, id)?;
    let id = id.as_str();
    let status = task_status_text(status);
    Ok(json!(in alloc; {
        "failed": name,
        "measure": measure,
        "status": status,
        "userTaskId": id,
        "version": 1u64
    })?)
}

/// A user task whose execution ended with tasks that were aborted or are dead.
pub fn ended_value(
    alloc: Global,
    id: Uuid,
    status: Status,
    aborted: u32,
    dead: u32,
    proposals: &[Named],
) -> Result<Value, Memory>
    ensures { IfOk result (λ v. view v ≡ ended_data id status aborted dead proposals.now) }
{
    let id = id_text(alloc, id)?;
    let id = id.as_str();
    let status = task_status_text(status);
    Ok(json!(in alloc; {
        "aborted": aborted,
        "dead": dead,
        "proposals": (proposals_value(alloc, proposals)?),
        "status": status,
        "userTaskId": id,
        "version": 1u64
    })?)
}

/// A stop.
pub fn stopped_value(alloc: Global, stopped: &Stopped) -> Result<Value, Memory>
    ensures { IfOk result (λ v. view v ≡ stopped_data stopped.now) }
{
    Ok(json!(in alloc; {
        "aborted": (stopped.aborted),
        "aborting": (stopped.aborting),
        "version": 1u64
    })?)
}

/// The death of a broker.
pub fn killed_value(alloc: Global, killed: &Killed) -> Result<Value, Memory>
    ensures { IfOk result (λ v. view v ≡ killed_data killed.now) }
{
    Ok(json!(in alloc; {"aborting": (killed.aborting), "dead": (killed.dead), "version": 1u64})?)
}

/// A sample that counts.
pub fn sampled_value(alloc: Global) -> Result<Value, Memory>
    ensures { IfOk result (λ v. view v ≡ sampled_data) }
{
    Ok(json!(in alloc; {"accepted": true, "version": 1u64})?)
}

/// That a service ends.
pub fn ending_value(alloc: Global) -> Result<Value, Memory>
    ensures { IfOk result (λ v. view v ≡ ending_data) }
{
    Ok(json!(in alloc; {"closing": true, "version": 1u64})?)
}

/// The caps in force.
pub fn caps_value(alloc: Global, caps: &Caps) -> Result<Value, Memory>
    ensures { IfOk result (λ v. view v ≡ caps_data caps.now) }
{
    Ok(json!(in alloc; {
        "broker": (caps.broker),
        "cluster": (caps.cluster),
        "leader": (caps.leader),
        "version": 1u64
    })?)
}

// An anomaly and its brokers.
fn anomaly_value(alloc: Global, name: &str, brokers: &[u32]) -> Result<Value, Memory>
    ensures { IfOk result (λ v. view v ≡ anomaly_data name.now brokers.now) }
{
    Ok(json!(in alloc; {
        "anomaly": name,
        "brokers": (numbers_value(alloc, brokers)?),
        "version": 1u64
    })?)
}

/// What is to be done about lost brokers and broken goals.
pub fn decided_value(alloc: Global, decision: &Decision) -> Result<Value, Memory>
    ensures { IfOk result (λ v. view v ≡ decided_data decision.now) }
{
    match decision {
        Decision::Fix(Cause::BrokerFailure(brokers), _) => {
            anomaly_value(alloc, "BROKER_FAILURE", brokers.as_slice())
        }
        Decision::Fix(Cause::GoalViolation(_), _) => anomaly_value(alloc, "GOAL_VIOLATION", &[]),
        Decision::Alert(brokers) => anomaly_value(alloc, "ALERT", brokers.as_slice()),
        Decision::Waiting(brokers) => anomaly_value(alloc, "WAITING", brokers.as_slice()),
        Decision::Fine => anomaly_value(alloc, "NONE", &[]),
    }
}

/// The end of a pump.
pub fn pumped_value(alloc: Global, done: u32, idle: bool) -> Result<Value, Memory>
    ensures { IfOk result (λ v. view v ≡ pumped_data done idle) }
{
    Ok(json!(in alloc; {"done": done, "idle": idle, "version": 1u64})?)
}
