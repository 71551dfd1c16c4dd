// The reply to what is told, before it is written.
ghost use Rattle.std.specs.Prelude.{◌≡◌, Some, option_map, IfOk};
ghost use Rattle.serde_json.specs.View.{view};
ghost use Rattle.rest_replies.specs.Answers.{accepted_answer, answer_of, answer_seen, board_answer, board_result, core_answer, core_result, ok_answer, pump_answer, refused, shown_data, task_answer};
ghost use Rattle.rest_replies.specs.Bodies.{decided_data, rows_data};
ghost use Rattle.rest_replies.specs.Plain.{IsPlain};
ghost use Rattle.rest_replies.specs.Refusals.{refusal_seen};

use crate::answer::Answer;
use crate::boards::{filed_value, rows_value};
use crate::bodies::{
    caps_value, decided_value, done_value, ended_value, ending_value, error_value, failed_value,
    killed_value, open_value, pumped_value, sampled_value, stopped_value,
};
use crate::refusals::{
    Refusal, board_refusal, core_refusal, http_refusal, no_memory, step_refusal, stop_refusal,
    with_number,
};
use crate::shows::shown_value;
use crate::texts::Code;
use crate::told::Told;
use anomaly_detector::Decision;
use core_terms::{Outcome, PumpEnd, Reply, Shown};
use plan_terms::Memory;
use review_board::{BoardReply, Row};
use serde_json::Value;
use std::alloc::Global;
use user_tasks::Status;
use uuid::Uuid;

// 200, and no user task.
fn ok(body: Value) -> Answer
    requires { IsPlain (view body) }
    ensures { answer_seen result ≡ ok_answer (view body) }
{
    Answer {
        code: Code::Ok,
        task: None,
        body,
    }
}

// A user task.
fn task(code: Code, id: Uuid, body: Value) -> Answer
    requires { IsPlain (view body) }
    ensures { answer_seen result ≡ record { code = code; task = Some id; body = view body } }
{
    Answer {
        code,
        task: Some(id),
        body,
    }
}

// The reply that carries a user task, by what came of it.
fn task_answer(alloc: Global, id: Uuid, status: Status, outcome: &Outcome) -> Result<Answer, Memory>
    ensures { IfOk result (λ a. answer_seen a ≡ task_answer id status outcome.now) }
{
    match outcome {
        Outcome::Open => {
            let body = open_value(alloc, id, status)?;
            Ok(task(Code::Accepted, id, body))
        }
        Outcome::Done(proposals) => {
            let body = done_value(alloc, id, status, proposals.as_slice())?;
            Ok(task(Code::Ok, id, body))
        }
        Outcome::Failed(goal, left) => {
            let body = failed_value(alloc, id, status, *goal, *left)?;
            Ok(task(Code::Ok, id, body))
        }
        Outcome::Ended {
            aborted,
            dead,
            proposals,
        } => {
            let proposals = proposals.as_slice();
            let body = ended_value(alloc, id, status, *aborted, *dead, proposals)?;
            Ok(task(Code::Ok, id, body))
        }
    }
}

// The reply that shows something.
fn shown_answer(alloc: Global, shown: &Shown) -> Result<Answer, Memory>
    ensures { IfOk result (λ a. answer_seen a ≡ ok_answer (shown_data shown.now)) }
{
    let body = shown_value(alloc, shown)?;
    Ok(ok(body))
}

// The reply of a refusal.
fn refused(alloc: Global, refusal: Option<Refusal>) -> Result<Option<Answer>, Memory>
    ensures { IfOk result
        (λ o. option_map answer_seen o ≡ option_map refused (option_map refusal_seen refusal)) }
{
    match refusal {
        Some(refusal) => {
            let body = error_value(alloc, refusal.text.as_str())?;
            let code = refusal.code;
            Ok(Some(Answer {
                code,
                task: None,
                body,
            }))
        }
        None => Ok(None),
    }
}

// The reply of the core's answer to an event, where that is no refusal.
fn core_result(alloc: Global, reply: &Reply) -> Result<Option<Answer>, Memory>
    ensures { IfOk result (λ o. option_map answer_seen o ≡ core_result reply.now) }
{
    match reply {
        Reply::Task(id, status, outcome) => Ok(Some(task_answer(alloc, *id, *status, outcome)?)),
        Reply::Accepted(id) => Ok(Some(task_answer(alloc, *id, Status::Active, &Outcome::Open)?)),
        Reply::Stopped(stopped) => Ok(Some(ok(stopped_value(alloc, stopped)?))),
        Reply::Killed(killed) => Ok(Some(ok(killed_value(alloc, killed)?))),
        Reply::Sampled => Ok(Some(ok(sampled_value(alloc)?))),
        Reply::CapsSet(caps) => Ok(Some(ok(caps_value(alloc, caps)?))),
        Reply::Shown(shown) => Ok(Some(shown_answer(alloc, shown)?)),
        _ => Ok(None),
    }
}

// The reply of the core's answer to an event.
fn core_answer(alloc: Global, reply: &Reply) -> Result<Option<Answer>, Memory>
    ensures { IfOk result (λ o. option_map answer_seen o ≡ core_answer reply.now) }
{
    match core_result(alloc, reply)? {
        Some(answer) => Ok(Some(answer)),
        None => {
            let refusal = core_refusal(alloc, reply)?;
            refused(alloc, refusal)
        }
    }
}

// The reply that tells what is to be done.
fn decided_answer(alloc: Global, decision: &Decision) -> Result<Answer, Memory>
    ensures { IfOk result (λ a. answer_seen a ≡ ok_answer (decided_data decision.now)) }
{
    let body = decided_value(alloc, decision)?;
    Ok(ok(body))
}

// The reply of the end of a pump.
fn pump_answer(alloc: Global, end: PumpEnd) -> Result<Option<Answer>, Memory>
    ensures { IfOk result (λ o. option_map answer_seen o ≡ pump_answer end) }
{
    match end {
        PumpEnd::Done { done, idle } => Ok(Some(ok(pumped_value(alloc, done, idle)?))),
        PumpEnd::AdminFault(number) => {
            let refusal = with_number(alloc, Code::InternalError, "admin fault: ", number)?;
            refused(alloc, refusal)
        }
        PumpEnd::Memory => {
            let refusal = no_memory(alloc)?;
            refused(alloc, refusal)
        }
    }
}

// 202, and no user task.
fn accepted(body: Value) -> Answer
    requires { IsPlain (view body) }
    ensures { answer_seen result ≡ accepted_answer (view body) }
{
    Answer {
        code: Code::Accepted,
        task: None,
        body,
    }
}

// The reply that shows reviewed requests.
fn rows_answer(alloc: Global, rows: &[Row]) -> Result<Answer, Memory>
    ensures { IfOk result (λ a. answer_seen a ≡ ok_answer (rows_data rows.now)) }
{
    let body = rows_value(alloc, rows)?;
    Ok(ok(body))
}

// The reply of a board's answer to an event, where that is no refusal.
fn board_result(alloc: Global, reply: &BoardReply) -> Result<Option<Answer>, Memory>
    ensures { IfOk result (λ o. option_map answer_seen o ≡ board_result reply.now) }
{
    match reply {
        BoardReply::Filed(id) => Ok(Some(accepted(filed_value(alloc, *id)?))),
        BoardReply::Reviewed(rows) | BoardReply::Listed(rows) => {
            Ok(Some(rows_answer(alloc, rows.as_slice())?))
        }
        _ => Ok(None),
    }
}

// The reply of a board's answer to an event.
fn board_answer(alloc: Global, reply: &BoardReply) -> Result<Option<Answer>, Memory>
    ensures { IfOk result (λ o. option_map answer_seen o ≡ board_answer reply.now) }
{
    match board_result(alloc, reply)? {
        Some(answer) => Ok(Some(answer)),
        None => {
            let refusal = board_refusal(alloc, reply)?;
            refused(alloc, refusal)
        }
    }
}

/// The reply to what is told; none where nothing is to be written, or the page.
pub fn answer_of(alloc: Global, told: &Told) -> Result<Option<Answer>, Memory>
    ensures { IfOk result (λ o. option_map answer_seen o ≡ answer_of told.now) }
{
    match told {
        Told::Core(reply) => core_answer(alloc, reply),
        Told::Step(fault) => {
            let refusal = step_refusal(alloc, *fault)?;
            refused(alloc, refusal)
        }
        Told::Pump(end) => pump_answer(alloc, *end),
        Told::Decided(decision) => Ok(Some(decided_answer(alloc, decision)?)),
        Told::Http(fault) => {
            let refusal = http_refusal(alloc, fault)?;
            refused(alloc, refusal)
        }
        Told::Stopped(stop) => {
            let refusal = stop_refusal(alloc, *stop)?;
            refused(alloc, refusal)
        }
        Told::Board(reply) => board_answer(alloc, reply),
        Told::Ending => Ok(Some(ok(ending_value(alloc)?))),
        Told::Page => Ok(None),
    }
}
