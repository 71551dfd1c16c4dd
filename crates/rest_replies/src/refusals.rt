// Refusals: a code and a text.
ghost use Rattle.std.specs.Prelude.{◌≡◌, ◌++◌, option_map, IfOk};
ghost use Rattle.rest_replies.specs.Refusals.{board_refusal, core_refusal, goals_refusal, http_refusal, no_memory, plain, refusal_seen, state_refusal, step_refusal, stop_refusal, with_id, with_number};

use crate::texts::{Code, review_state_text};
use core_terms::{Reply, StepFault};
use goal_set::GoalFault;
use plan_terms::Memory;
use rest_parse::HttpFault;
use rest_stream::Stop;
use review_board::{BoardReply, ReviewState};
use std::alloc::Global;
use user_tasks::id_text;
use uuid::Uuid;

/// Why something is refused, with its code.
#[derive(Drop)]
pub struct Refusal {
    pub code: Code,
    pub text: String,
}

// A text without a part that varies.
fn plain(alloc: Global, code: Code, text: &str) -> Result<Option<Refusal>, Memory>
    ensures { IfOk result (λ o. option_map refusal_seen o ≡ plain code text.now) }
{
    let text = String::from_str(alloc, text)?;
    Ok(Some(Refusal { code, text }))
}

// A text with a name at its end.
fn with_name(alloc: Global, code: Code, text: &str, name: &str) -> Result<Option<Refusal>, Memory>
    ensures { IfOk result (λ o. option_map refusal_seen o ≡ plain code (text.now ++ name.now)) }
{
    let text = format!(in alloc; "{text}{name}")?;
    Ok(Some(Refusal { code, text }))
}

// A text with an id at its end.
fn with_id(alloc: Global, code: Code, text: &str, id: Uuid) -> Result<Option<Refusal>, Memory>
    ensures { IfOk result (λ o. option_map refusal_seen o ≡ with_id code text.now id) }
{
    let id = id_text(alloc, id)?;
    with_name(alloc, code, text, id.as_str())
}

/// A text with a number at its end.
pub fn with_number(
    alloc: Global,
    code: Code,
    text: &str,
    number: u64,
) -> Result<Option<Refusal>, Memory>
    ensures { IfOk result (λ o. option_map refusal_seen o ≡ with_number code text.now number) }
{
    let text = format!(in alloc; "{text}{number}")?;
    Ok(Some(Refusal { code, text }))
}

/// Want of memory.
pub fn no_memory(alloc: Global) -> Result<Option<Refusal>, Memory>
    ensures { IfOk result (λ o. option_map refusal_seen o ≡ no_memory) }
{
    plain(alloc, Code::Unavailable, "want of memory")
}

/// Why a request means nothing.
pub fn http_refusal(alloc: Global, fault: &HttpFault) -> Result<Option<Refusal>, Memory>
    ensures { IfOk result (λ o. option_map refusal_seen o ≡ http_refusal fault.now) }
{
    match fault {
        HttpFault::NotFound => plain(alloc, Code::NotFound, "not found"),
        HttpFault::WrongMethod => plain(alloc, Code::MethodNotAllowed, "method not allowed"),
        HttpFault::BadParameter(name) => {
            with_name(alloc, Code::BadRequest, "bad parameter: ", name.as_str())
        }
        HttpFault::BadBody => plain(alloc, Code::BadRequest, "bad body"),
        HttpFault::Memory => no_memory(alloc),
    }
}

/// Why a stream has no further request, where that is told.
pub fn stop_refusal(alloc: Global, stop: Stop) -> Result<Option<Refusal>, Memory>
    ensures { IfOk result (λ o. option_map refusal_seen o ≡ stop_refusal stop) }
{
    match stop {
        Stop::BadHead => plain(alloc, Code::BadRequest, "bad head"),
        Stop::BadLength => plain(alloc, Code::BadRequest, "bad length"),
        Stop::HeadTooLong => plain(alloc, Code::FieldsTooLarge, "head too long"),
        Stop::BodyTooLong => plain(alloc, Code::ContentTooLarge, "body too long"),
        Stop::NoChunked => plain(
            alloc,
            Code::NotImplemented,
            "transfer encoding is not taken",
        ),
        Stop::End | Stop::Truncated | Stop::ReadFault | Stop::Memory => Ok(None),
    }
}

// Why the names of goals make no list.
fn goals_refusal(alloc: Global, fault: &GoalFault) -> Result<Option<Refusal>, Memory>
    ensures { IfOk result (λ o. option_map refusal_seen o ≡ goals_refusal fault.now) }
{
    let bad = Code::BadRequest;
    match fault {
        GoalFault::UnknownGoal(name) => with_name(alloc, bad, "unknown goal: ", name.as_str()),
        GoalFault::RepeatedGoal(name) => with_name(alloc, bad, "repeated goal: ", name.as_str()),
        GoalFault::MissingHardGoal(name) => {
            with_name(alloc, bad, "missing hard goal: ", name.as_str())
        }
        GoalFault::Memory => no_memory(alloc),
    }
}

/// Why an event wasn't taken.
pub fn step_refusal(alloc: Global, fault: StepFault) -> Result<Option<Refusal>, Memory>
    ensures { IfOk result (λ o. option_map refusal_seen o ≡ step_refusal fault) }
{
    match fault {
        StepFault::AdminFault(number) => {
            with_number(alloc, Code::InternalError, "admin fault: ", number)
        }
        StepFault::Memory => no_memory(alloc),
    }
}

// Too few partitions have loads.
fn windows_refusal(alloc: Global, valid: u32, all: u32) -> Result<Option<Refusal>, Memory>
    ensures { IfOk result
        (λ o. option_map refusal_seen o ≡ core_refusal (Reply.NotEnoughWindows valid all)) }
{
    let text = format!(in alloc; "valid partitions: {valid} of {all}")?;
    Ok(Some(Refusal {
        code: Code::Conflict,
        text,
    }))
}

/// Why the core refuses what is asked, where it does.
pub fn core_refusal(alloc: Global, reply: &Reply) -> Result<Option<Refusal>, Memory>
    ensures { IfOk result (λ o. option_map refusal_seen o ≡ core_refusal reply.now) }
{
    let bad = Code::BadRequest;
    let conflict = Code::Conflict;
    match reply {
        Reply::NoSuchTask(id) => with_id(alloc, Code::NotFound, "no such task: ", *id),
        Reply::OtherRequest(id) => with_id(alloc, bad, "other request: ", *id),
        Reply::Closing => plain(alloc, Code::Unavailable, "closing"),
        Reply::NoSuchBroker(id) => with_number(alloc, bad, "no such broker: ", u64::from(*id)),
        Reply::BadGoals(fault) => goals_refusal(alloc, fault),
        Reply::Executing(id) => with_id(alloc, conflict, "execution unfinished: ", *id),
        Reply::TooManyActive => plain(alloc, Code::TooManyRequests, "16 tasks are active"),
        Reply::NotEnoughWindows(valid, all) => windows_refusal(alloc, *valid, *all),
        Reply::NoSuchTopic(topic) => with_name(alloc, bad, "no such topic: ", topic.as_str()),
        Reply::TooFewBrokers(n) => with_number(alloc, conflict, "too few brokers: ", u64::from(*n)),
        Reply::NothingToStop => plain(alloc, conflict, "nothing to stop"),
        Reply::AlreadyDead(id) => with_number(alloc, conflict, "already dead: ", u64::from(*id)),
        Reply::NoSuchPartition => plain(alloc, bad, "no such partition"),
        Reply::TooOld(window) => with_number(alloc, conflict, "too old, oldest window: ", *window),
        Reply::WindowFull => plain(alloc, conflict, "window full"),
        _ => Ok(None),
    }
}

// A request is too far for what is asked, or not far enough.
fn state_refusal(alloc: Global, id: u64, state: ReviewState) -> Result<Option<Refusal>, Memory>
    ensures { IfOk result (λ o. option_map refusal_seen o ≡ state_refusal id state) }
{
    let state = review_state_text(state);
    let text = format!(in alloc; "review {id} is {state}")?;
    Ok(Some(Refusal {
        code: Code::Conflict,
        text,
    }))
}

/// Why a board refuses what is asked, where it does.
pub fn board_refusal(alloc: Global, reply: &BoardReply) -> Result<Option<Refusal>, Memory>
    ensures { IfOk result (λ o. option_map refusal_seen o ≡ board_refusal reply.now) }
{
    let bad = Code::BadRequest;
    match reply {
        BoardReply::NoSuchReview(id) => with_number(alloc, bad, "no such review: ", *id),
        BoardReply::OtherEndpoint(id) => with_number(alloc, bad, "other endpoint: ", *id),
        BoardReply::NotPending(id, state) | BoardReply::NotApproved(id, state) => {
            state_refusal(alloc, *id, *state)
        }
        _ => Ok(None),
    }
}
