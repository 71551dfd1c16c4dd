// Texts of replies.
ghost use Rattle.std.specs.Prelude.{◌≡◌, string_bytes, IfOk};
ghost use Rattle.rest_replies.specs.Texts.{broker_state_text, endpoint_text, executor_state_text, head_text, head_with, page_head, last_part, last_part_text, review_state_text, status_text, task_line, task_status_text};

use core_terms::ExecutorState;
use plan_terms::{BrokerState, Memory};
use review_board::ReviewState;
use std::alloc::Global;
use user_tasks::{Op, Status, id_text};
use uuid::Uuid;

/// The code of a reply (RFC 9110).
#[derive(Clone, Copy, Debug, PartialEq, Eq)]
pub enum Code {
    /// 200
    Ok,
    /// 202
    Accepted,
    /// 400
    BadRequest,
    /// 404
    NotFound,
    /// 405
    MethodNotAllowed,
    /// 409
    Conflict,
    /// 413
    ContentTooLarge,
    /// 429
    TooManyRequests,
    /// 431
    FieldsTooLarge,
    /// 500
    InternalError,
    /// 501
    NotImplemented,
    /// 503
    Unavailable,
}

/// The code and its phrase.
pub fn status_text(code: Code) -> &'static str
    ensures { result.now ≡ status_text code }
{
    match code {
        Code::Ok => "200 OK",
        Code::Accepted => "202 Accepted",
        Code::BadRequest => "400 Bad Request",
        Code::NotFound => "404 Not Found",
        Code::MethodNotAllowed => "405 Method Not Allowed",
        Code::Conflict => "409 Conflict",
        Code::ContentTooLarge => "413 Content Too Large",
        Code::TooManyRequests => "429 Too Many Requests",
        Code::FieldsTooLarge => "431 Request Header Fields Too Large",
        Code::InternalError => "500 Internal Server Error",
        Code::NotImplemented => "501 Not Implemented",
        Code::Unavailable => "503 Service Unavailable",
    }
}

/// How far a user task is.
pub fn task_status_text(status: Status) -> &'static str
    ensures { result.now ≡ task_status_text status }
{
    match status {
        Status::Active => "Active",
        Status::InExecution => "InExecution",
        Status::Completed => "Completed",
        Status::CompletedWithError => "CompletedWithError",
    }
}

/// The last part of the path at which an operation is asked for.
pub fn endpoint_text(op: Op) -> &'static str
    ensures { result.now ≡ endpoint_text op }
{
    match op {
        Op::Proposals => "proposals",
        Op::Rebalance => "rebalance",
        Op::AddBroker => "add_broker",
        Op::RemoveBroker => "remove_broker",
        Op::DemoteBroker => "demote_broker",
        Op::TopicConfiguration => "topic_configuration",
    }
}

/// The state of a broker, as a cluster file has it.
pub fn broker_state_text(state: BrokerState) -> &'static str
    ensures { result.now ≡ broker_state_text state }
{
    match state {
        BrokerState::Alive => "ALIVE",
        BrokerState::Dead => "DEAD",
        BrokerState::New => "NEW",
        BrokerState::Demoted => "DEMOTED",
    }
}

/// What the executor does, in Cruise Control's words.
pub fn executor_state_text(state: ExecutorState) -> &'static str
    ensures { result.now ≡ executor_state_text state }
{
    match state {
        ExecutorState::NoTask => "NO_TASK_IN_PROGRESS",
        ExecutorState::Stopping => "STOPPING_EXECUTION",
        ExecutorState::MovingReplicas => "INTER_BROKER_REPLICA_MOVEMENT_TASK_IN_PROGRESS",
        ExecutorState::MovingLeaders => "LEADER_MOVEMENT_TASK_IN_PROGRESS",
    }
}

/// How far a request is that waits for its review, or did, in Cruise Control's words.
pub fn review_state_text(state: ReviewState) -> &'static str
    ensures { result.now ≡ review_state_text state }
{
    match state {
        ReviewState::PendingReview => "PENDING_REVIEW",
        ReviewState::Approved => "APPROVED",
        ReviewState::Submitted => "SUBMITTED",
        ReviewState::Discarded => "DISCARDED",
    }
}

fn last_part(path: &[u8]) -> &[u8]
    ensures { result.now ≡ last_part path.now }
{
    match path.iter().rposition(|b| *b == b'/') {
        Some(at) => &path[at + 1..],
        None => path,
    }
}

/// The last part of a path.
pub fn last_part_text(alloc: Global, path: &[u8]) -> Result<String, Memory>
    ensures { IfOk result (λ text. string_bytes text ≡ last_part_text path.now) }
{
    Ok(String::from_utf8_lossy(alloc, last_part(path))?)
}

// The line of a user task, where the reply carries one.
fn task_line(alloc: Global, task: Option<Uuid>) -> Result<String, Memory>
    ensures { IfOk result (λ text. string_bytes text ≡ task_line task) }
{
    let Some(id) = task else {
        return Ok(String::new(alloc));
    };
    let id = id_text(alloc, id)?;
    let id = id.as_str();
    Ok(format!(in alloc; "User-Task-ID: {id}\r\n")?)
}

// The head of a reply with this status, a body of this kind and of so many bytes, and these further
// lines.
fn head_with(
    alloc: Global,
    status: &str,
    kind: &str,
    len: usize,
    lines: &str,
) -> Result<String, Memory>
    ensures { IfOk result
        (λ text. string_bytes text ≡ head_with status.now kind.now len lines.now) }
{
    Ok(format!(in alloc;
        "HTTP/1.1 {status}\r\nContent-Type: {kind}\r\nContent-Length: {len}\r\n{lines}\r\n"
    )?)
}

/// The head of a page of so many bytes. No other page may frame it.
#[tactic(auto, unfolding(crate::specs::Texts::page_head))]
pub fn page_head(alloc: Global, len: usize) -> Result<String, Memory>
    ensures { IfOk result (λ text. string_bytes text ≡ page_head len) }
{
    let lines = "X-Frame-Options: DENY\r\n";
    head_with(
        alloc,
        status_text(Code::Ok),
        "text/html; charset=utf-8",
        len,
        lines,
    )
}

/// The head of a reply with a body of so many bytes.
#[tactic(auto, unfolding(crate::specs::Texts::head_text))]
pub fn head_text(
    alloc: Global,
    code: Code,
    task: Option<Uuid>,
    len: usize,
) -> Result<String, Memory>
    ensures { IfOk result (λ text. string_bytes text ≡ head_text code task len) }
{
    let line = task_line(alloc, task)?;
    head_with(
        alloc,
        status_text(code),
        "application/json",
        len,
        line.as_str(),
    )
}
