// What requests mean where those that start something are reviewed first.
ghost use Rattle.std.specs.Prelude.{◌≡◌, All, IfOk, bytes_eq, codes};
ghost use Rattle.rest_parse.specs.Calls.{IsInRange, UnlessMemory, meaning};
ghost use Rattle.rest_parse.specs.Query.{pairs_of};
ghost use Rattle.rest_parse.specs.ReviewPairs.{IsReviewId};
ghost use Rattle.rest_parse.specs.Reviews.{IsReviewInRange, board_path, by_method, filed, is_keyed, is_reviewed, kept, list_meaning, plain, review_meaning, review_of, review_path, reviewed_at, reviewed_meaning, reviewed_on, take_meaning};

use crate::calls::{Call, HttpFault, bad_parameter};
use crate::query::{Pair, has_name, read_pairs, split_target};
use crate::review_pairs::{
    APPROVE, DISCARD, Form, REVIEW_ID, missing_list, repeating_list, review_id_in, review_ids_at,
    unfit_name,
};
use crate::routes::{Endpoint, Routes};
use plan_terms::ListOf;
use rest_stream::RawRequest;
use std::alloc::{AllocError, Global};

/// What a request asks where those that start something are reviewed first.
#[derive(Drop)]
pub enum ReviewCall {
    /// That it is kept for its review: its path, and its whole target.
    File {
        path: ListOf<u8>,
        target: ListOf<u8>,
    },
    /// That what was kept under this id, below 2^53, with this path, is answered now.
    Take {
        id: u64,
        path: ListOf<u8>,
    },
    /// That the requests of the first ids are approved, and those of the second discarded. Each id
    /// is below 2^53, and none stands twice.
    Review {
        approve: ListOf<u64>,
        discard: ListOf<u64>,
    },
    /// What is on the board.
    List,
    /// What isn't reviewed.
    Plain(Call),
}

// Whether requests to the endpoint are reviewed.
fn is_reviewed(endpoint: Endpoint) -> bool
    ensures { result ≡ is_reviewed endpoint }
{
    matches!(
        endpoint,
        Endpoint::Rebalance
            | Endpoint::AddBroker
            | Endpoint::RemoveBroker
            | Endpoint::DemoteBroker
            | Endpoint::StopExecution
            | Endpoint::Admin
            | Endpoint::TopicConfiguration
    )
}

// Whether it asks by a key how far a plan is.
fn is_keyed(call: &Call) -> bool
    ensures { result ≡ is_keyed call.now }
{
    matches!(call, Call::Submit(_, Some(_)))
}

fn copy_of(alloc: Global, bytes: &[u8]) -> Result<ListOf<u8>, AllocError>
    ensures { IfOk result (λ l. l ≡ bytes.now) }
{
    Ok(ListOf::new(bytes.to_vec(alloc)?))
}

// A request that means this call.
fn filed(alloc: Global, path: &[u8], target: &[u8], call: Call) -> Result<ReviewCall, HttpFault>
    requires { IsInRange call }
    ensures is { UnlessMemory result (filed path.now target.now (Ok call)) }
    ensures range { IfOk result IsReviewInRange }
{
    if is_keyed(&call) {
        return Ok(ReviewCall::Plain(call));
    }
    Ok(ReviewCall::File {
        path: copy_of(alloc, path)?,
        target: copy_of(alloc, target)?,
    })
}

// A request that was kept is asked for.
fn take_meaning(alloc: Global, path: &[u8], pairs: &[Pair]) -> Result<ReviewCall, HttpFault>
    ensures is { UnlessMemory result (take_meaning path.now pairs.now) }
    ensures range { IfOk result IsReviewInRange }
{
    if let Some(name) = unfit_name(alloc, Form::Take, pairs)? {
        return Err(bad_parameter(alloc, name));
    }
    Ok(ReviewCall::Take {
        id: review_id_in(pairs),
        path: copy_of(alloc, path)?,
    })
}

// A review of these lists.
fn review_of(alloc: Global, approve: Vec<u64>, discard: Vec<u64>) -> Result<ReviewCall, HttpFault>
    requires approve_in_range { All IsReviewId approve.items }
    requires discard_in_range { All IsReviewId discard.items }
    ensures is { UnlessMemory result (review_of approve.items discard.items) }
    ensures range { IfOk result IsReviewInRange }
{
    if let Some(name) = repeating_list(&approve, &discard) {
        return Err(bad_parameter(alloc, name));
    }
    Ok(ReviewCall::Review {
        approve: ListOf::new(approve),
        discard: ListOf::new(discard),
    })
}

// A review.
fn review_meaning(alloc: Global, pairs: &[Pair]) -> Result<ReviewCall, HttpFault>
    ensures is { UnlessMemory result (review_meaning pairs.now) }
    ensures range { IfOk result IsReviewInRange }
{
    if let Some(name) = unfit_name(alloc, Form::Review, pairs)? {
        return Err(bad_parameter(alloc, name));
    }
    if let Some(name) = missing_list(pairs) {
        return Err(bad_parameter(alloc, name));
    }
    let approve = review_ids_at(alloc, pairs, APPROVE)?;
    let discard = review_ids_at(alloc, pairs, DISCARD)?;
    review_of(alloc, approve, discard)
}

// A look at the board.
fn list_meaning(alloc: Global, pairs: &[Pair]) -> Result<ReviewCall, HttpFault>
    ensures is { UnlessMemory result (list_meaning pairs.now) }
    ensures range { IfOk result IsReviewInRange }
{
    if let Some(name) = unfit_name(alloc, Form::Bare, pairs)? {
        return Err(bad_parameter(alloc, name));
    }
    Ok(ReviewCall::List)
}

// Whether the request is sent by `POST`.
fn is_post(raw: &RawRequest) -> bool
    ensures { result ≡ bytes_eq raw.now.method (codes "POST") }
{
    raw.method.as_slice() == b"POST".as_slice()
}

// Whether it is sent by `GET`.
fn is_get(raw: &RawRequest) -> bool
    ensures { result ≡ bytes_eq raw.now.method (codes "GET") }
{
    raw.method.as_slice() == b"GET".as_slice()
}

// Whether it is the path of reviews.
fn is_review_path(path: &[u8]) -> bool
    ensures { result ≡ bytes_eq path.now review_path }
{
    path == b"/kafkacruisecontrol/review".as_slice()
}

// Whether it is the path of the board.
fn is_board_path(path: &[u8]) -> bool
    ensures { result ≡ bytes_eq path.now board_path }
{
    path == b"/kafkacruisecontrol/review_board".as_slice()
}

// What is sent to the path of reviews.
fn review_call(alloc: Global, query: &[u8], raw: &RawRequest) -> Result<ReviewCall, HttpFault>
    ensures is { UnlessMemory result
        (by_method (codes "POST") raw.now (review_meaning (pairs_of query.now))) }
    ensures range { IfOk result IsReviewInRange }
{
    if !is_post(raw) {
        return Err(HttpFault::WrongMethod);
    }
    let pairs = read_pairs(alloc, query)?;
    review_meaning(alloc, &pairs)
}

// What is sent to the path of the board.
fn list_call(alloc: Global, query: &[u8], raw: &RawRequest) -> Result<ReviewCall, HttpFault>
    ensures is { UnlessMemory result
        (by_method (codes "GET") raw.now (list_meaning (pairs_of query.now))) }
    ensures range { IfOk result IsReviewInRange }
{
    if !is_get(raw) {
        return Err(HttpFault::WrongMethod);
    }
    let pairs = read_pairs(alloc, query)?;
    list_meaning(alloc, &pairs)
}

impl Routes {
    // What isn't reviewed.
    fn plain(&self, alloc: Global, raw: &RawRequest) -> Result<ReviewCall, HttpFault>
        ensures is { UnlessMemory result (plain (meaning raw.now)) }
        ensures range { IfOk result IsReviewInRange }
    {
        match self.request_of(alloc, raw) {
            Ok(call) => Ok(ReviewCall::Plain(call)),
            Err(fault) => Err(fault),
        }
    }

    // A `POST` to a reviewed endpoint.
    fn kept(
        &self,
        alloc: Global,
        path: &[u8],
        query: &[u8],
        raw: &RawRequest,
    ) -> Result<ReviewCall, HttpFault>
        ensures is { UnlessMemory result (kept path.now (pairs_of query.now) raw.now) }
        ensures range { IfOk result IsReviewInRange }
    {
        let pairs = read_pairs(alloc, query)?;
        if has_name(&pairs, REVIEW_ID) {
            return take_meaning(alloc, path, &pairs);
        }
        match self.request_of(alloc, raw) {
            Ok(call) => filed(alloc, path, raw.target.as_slice(), call),
            Err(fault) => Err(fault),
        }
    }

    // What is sent to an endpoint, or to none.
    fn reviewed_at(
        &self,
        alloc: Global,
        endpoint: Option<Endpoint>,
        path: &[u8],
        query: &[u8],
        raw: &RawRequest,
    ) -> Result<ReviewCall, HttpFault>
        ensures is { UnlessMemory result
            (reviewed_at endpoint path.now (pairs_of query.now) raw.now) }
        ensures range { IfOk result IsReviewInRange }
    {
        match endpoint {
            Some(endpoint) if is_reviewed(endpoint) && is_post(raw) => {
                self.kept(alloc, path, query, raw)
            }
            _ => self.plain(alloc, raw),
        }
    }

    // What is sent to a path.
    fn reviewed_on(
        &self,
        alloc: Global,
        path: &[u8],
        query: &[u8],
        raw: &RawRequest,
    ) -> Result<ReviewCall, HttpFault>
        ensures is { UnlessMemory result (reviewed_on path.now (pairs_of query.now) raw.now) }
        ensures range { IfOk result IsReviewInRange }
    {
        if is_review_path(path) {
            return review_call(alloc, query, raw);
        }
        if is_board_path(path) {
            return list_call(alloc, query, raw);
        }
        self.reviewed_at(alloc, self.endpoint_at(path), path, query, raw)
    }

    /// What a request means where those that start something are reviewed first, or its first
    /// fault. What is sent by `POST` to rebalance, to add, remove or demote brokers, to stop the
    /// execution, to set caps or to change replication factors is kept where it means a call, and
    /// answered once it names its review. Where a key asks how far a plan is, it is as without a
    /// board, and so is every request to another endpoint.
    #[tactic(auto, unfolding(crate::specs::Reviews::reviewed_meaning))]
    pub fn reviewed_of(&self, alloc: Global, raw: &RawRequest) -> Result<ReviewCall, HttpFault>
        ensures is { UnlessMemory result (reviewed_meaning raw.now) }
        ensures range { IfOk result IsReviewInRange }
    {
        let (path, query) = split_target(raw.target.as_slice());
        self.reviewed_on(alloc, path, query, raw)
    }
}

/// What a request means where those that start something are reviewed first, or its first fault,
/// over routes that are made for it alone.
pub fn reviewed_of(alloc: Global, raw: &RawRequest) -> Result<ReviewCall, HttpFault>
    ensures is { UnlessMemory result (reviewed_meaning raw.now) }
    ensures range { IfOk result IsReviewInRange }
{
    let routes = Routes::new(alloc)?;
    routes.reviewed_of(alloc, raw)
}
