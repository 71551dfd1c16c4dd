// The requests that were filed on a board.
ghost use Rattle.std.specs.Prelude.{◌≡◌, ◌+◌, ◌++◌, ◌∷◌, [], length, IfOk, OnErr, OnOk, option_map};
ghost use Rattle.review_board.specs.Reviews.{is_named, named, review_at, reviewed, rows_of, verdict};
ghost use Rattle.review_board.specs.Step.{filed, first_fault, next, pending_fault, reply_of, take_fault};

use crate::events::{BoardEvent, BoardReply, Bytes, ReviewState, Row};
use plan_terms::{ListOf, Memory};
use std::alloc::Global;
use std::marker::Model;

/// A request that was filed, and how far it is.
#[derive(Drop)]
pub struct Review {
    pub path: Bytes,
    pub target: Bytes,
    pub state: ReviewState,
}

/// The requests that were filed, of which the n-th has the id n.
#[derive(Drop)]
pub struct Reviews {
    items: Vec<Review>,
}

impl Model for Reviews {
    ghost use Rattle.std.specs.Prelude.{List};
    ghost use Rattle.review_board.specs.declared.reviews.Review.{Review};

    ghost Value = { List Review };

    ghost view = { λ r. r.items.items };
}

fn copy_of(alloc: Global, bytes: &Bytes) -> Result<Bytes, Memory>
    ensures { IfOk result (λ b. b ≡ bytes.now) }
{
    Ok(ListOf::new(Vec::from_slice(alloc, bytes.as_slice())?))
}

// The request of this id.
fn review_at(reviews: &[Review], id: u64) -> Option<&Review>
    ensures { option_map (λ r. r.now) result ≡ review_at reviews.now id }
{
    if id == 0 {
        return None;
    }
    reviews.get(id as usize - 1)
}

// Why the request of this id can't be reviewed.
fn pending_fault(reviews: &[Review], id: u64) -> Option<BoardReply>
    ensures { result ≡ pending_fault id (review_at reviews.now id) }
{
    match review_at(reviews, id) {
        None => Some(BoardReply::NoSuchReview(id)),
        Some(review) => match review.state {
            ReviewState::PendingReview => None,
            state => Some(BoardReply::NotPending(id, state)),
        },
    }
}

// Why the first of these that can't be reviewed can't.
fn first_fault(reviews: &[Review], ids: &[u64]) -> Option<BoardReply>
    ensures { result ≡ first_fault reviews.now ids.now }
{
    for id in ids {
        if let Some(fault) = pending_fault(reviews, *id) {
            return Some(fault);
        }
    }
    None
}

// How far the request of an id is behind a review.
fn verdict(approve: &[u64], discard: &[u64], id: u64, state: ReviewState) -> ReviewState
    ensures { result ≡ verdict approve.now discard.now id state }
{
    if approve.contains(&id) {
        ReviewState::Approved
    } else if discard.contains(&id) {
        ReviewState::Discarded
    } else {
        state
    }
}

// Whether a review names the id.
fn is_named(approve: &[u64], discard: &[u64], id: u64) -> bool
    ensures { result ≡ is_named approve.now discard.now id }
{
    approve.contains(&id) || discard.contains(&id)
}

// What is shown of a request.
fn row(alloc: Global, id: u64, path: &Bytes, state: ReviewState) -> Result<Row, Memory>
    ensures { IfOk result (λ r. r ≡ record { id = id; path = path.now; state = state }) }
{
    Ok(Row {
        id,
        path: copy_of(alloc, path)?,
        state,
    })
}

// What is shown of all requests.
fn rows_of(alloc: Global, reviews: &[Review]) -> Result<Vec<Row>, Memory>
    ensures { IfOk result (λ v. v.items ≡ rows_of reviews.now) }
{
    let mut rows = Vec::new(alloc);
    for (i, review) in reviews.iter().enumerate() {
        rows.push(row(alloc, i as u64 + 1, &review.path, review.state)?)?;
    }
    Ok(rows)
}

// What is shown, behind a review, of the requests that it names.
fn rows_named(
    alloc: Global,
    reviews: &[Review],
    approve: &[u64],
    discard: &[u64],
) -> Result<Vec<Row>, Memory>
    ensures { IfOk result
        (λ v. v.items ≡ named approve.now discard.now
        (rows_of (reviewed approve.now discard.now reviews.now))) }
{
    let mut rows = Vec::new(alloc);
    for (i, review) in reviews.iter().enumerate() {
        let id = i as u64 + 1;
        if is_named(approve, discard, id) {
            let state = verdict(approve, discard, id, review.state);
            rows.push(row(alloc, id, &review.path, state)?)?;
        }
    }
    Ok(rows)
}

// Approves and discards requests.
fn review_all(reviews: &mut [Review], approve: &[u64], discard: &[u64])
    ensures { reviews.new ≡ reviewed approve.now discard.now reviews.old }
{
    for (i, review) in reviews.iter_mut().enumerate() {
        review.state = verdict(approve, discard, i as u64 + 1, review.state);
    }
}

// Why a request isn't given out.
fn take_fault(review: &Review, id: u64, path: &[u8]) -> Option<BoardReply>
    ensures { result ≡ take_fault id path.now review.now }
{
    if review.path.as_slice() != path {
        return Some(BoardReply::OtherEndpoint(id));
    }
    match review.state {
        ReviewState::Approved => None,
        state => Some(BoardReply::NotApproved(id, state)),
    }
}

impl Reviews {
    pub fn new(alloc: Global) -> Reviews
        ensures { result ≡ [] }
    {
        Reviews {
            items: Vec::new(alloc),
        }
    }

    fn file(&mut self, alloc: Global, path: &Bytes, target: &Bytes) -> Result<BoardReply, Memory>
        ensures reply { IfOk result (λ r. r ≡ BoardReply.Filed (length self.old + 1)) }
        ensures done { OnOk result (self.new ≡ self.old ++ filed path.now target.now ∷ []) }
        ensures unchanged { OnErr result (self.new ≡ self.old) }
    {
        let review = Review {
            path: copy_of(alloc, path)?,
            target: copy_of(alloc, target)?,
            state: ReviewState::PendingReview,
        };
        self.items.push(review)?;
        Ok(BoardReply::Filed(self.items.len() as u64))
    }

    fn review(
        &mut self,
        alloc: Global,
        approve: &[u64],
        discard: &[u64],
    ) -> Result<BoardReply, Memory>
        ensures reply { IfOk result
            (λ r. r ≡ reply_of self.old (BoardEvent.Review approve.now discard.now)) }
        ensures done { OnOk result
            (self.new ≡ next self.old (BoardEvent.Review approve.now discard.now)) }
        ensures unchanged { OnErr result (self.new ≡ self.old) }
    {
        let first = first_fault(&self.items, approve);
        let fault = first.or_else(|| first_fault(&self.items, discard));
        if let Some(fault) = fault {
            return Ok(fault);
        }
        let rows = rows_named(alloc, &self.items, approve, discard)?;
        review_all(&mut self.items, approve, discard);
        Ok(BoardReply::Reviewed(ListOf::new(rows)))
    }

    fn take(&mut self, alloc: Global, id: u64, path: &[u8]) -> Result<BoardReply, Memory>
        ensures reply { IfOk result (λ r. r ≡ reply_of self.old (BoardEvent.Take id path.now)) }
        ensures done { OnOk result (self.new ≡ next self.old (BoardEvent.Take id path.now)) }
        ensures unchanged { OnErr result (self.new ≡ self.old) }
    {
        let Some(review) = review_at(&self.items, id) else {
            return Ok(BoardReply::NoSuchReview(id));
        };
        if let Some(fault) = take_fault(review, id, path) {
            return Ok(fault);
        }
        let target = copy_of(alloc, &review.target)?;
        self.items[id as usize - 1].state = ReviewState::Submitted;
        Ok(BoardReply::Given(target))
    }

    fn list(&self, alloc: Global) -> Result<BoardReply, Memory>
        ensures { IfOk result (λ r. r ≡ BoardReply.Listed (rows_of self.now)) }
    {
        Ok(BoardReply::Listed(ListOf::new(rows_of(alloc, &self.items)?)))
    }

    /// Answers an event. Out of memory nothing has changed.
    pub fn answer(&mut self, alloc: Global, event: &BoardEvent) -> Result<BoardReply, Memory>
        ensures reply { IfOk result (λ r. r ≡ reply_of self.old event.now) }
        ensures done { OnOk result (self.new ≡ next self.old event.now) }
        ensures unchanged { OnErr result (self.new ≡ self.old) }
    {
        match event {
            BoardEvent::File(path, target) => self.file(alloc, path, target),
            BoardEvent::Review(approve, discard) => {
                self.review(alloc, approve.as_slice(), discard.as_slice())
            }
            BoardEvent::Take(id, path) => self.take(alloc, *id, path.as_slice()),
            BoardEvent::List => self.list(alloc),
        }
    }
}
