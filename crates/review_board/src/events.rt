// What a board is asked, and what it answers.
use plan_terms::ListOf;

/// Bytes, which contracts see as a list.
pub type Bytes = ListOf<u8>;

/// Ids of reviews, which contracts see as a list.
pub type Ids = ListOf<u64>;

/// How far a request is that was filed.
#[derive(Clone, Copy, Debug, PartialEq, Eq)]
pub enum ReviewState {
    /// It waits for its review.
    PendingReview,
    /// It may be taken.
    Approved,
    /// It was taken.
    Submitted,
    /// It may not be taken.
    Discarded,
}

/// What is shown of a request that was filed: its id, from 1, its path, and how far it is.
#[derive(Drop)]
pub struct Row {
    pub id: u64,
    pub path: Bytes,
    pub state: ReviewState,
}

/// Rows in order of their ids, which contracts see as a list.
pub type Rows = ListOf<Row>;

/// What a board is asked.
#[derive(Drop)]
pub enum BoardEvent {
    /// To keep a request: its path and its target.
    File(Bytes, Bytes),
    /// To approve the requests of the first ids, and to discard those of the second. An id that is
    /// named again counts at its first place alone.
    Review(Ids, Ids),
    /// To give out the request of this id, which was filed with this path.
    Take(u64, Bytes),
    /// To show all requests.
    List,
}

/// What a board answers. All but `Filed`, `Reviewed`, `Given` and `Listed` are refusals, which
/// change no request.
#[derive(Drop)]
pub enum BoardReply {
    /// The request waits for its review, under this id.
    Filed(u64),
    /// No request has this id.
    NoSuchReview(u64),
    /// The request of this id doesn't wait for its review: it is so far.
    NotPending(u64, ReviewState),
    /// The requests that were named, as they are now.
    Reviewed(Rows),
    /// The request of this id was filed with another path.
    OtherEndpoint(u64),
    /// The request of this id isn't approved: it is so far.
    NotApproved(u64, ReviewState),
    /// The target of the request, which is submitted now.
    Given(Bytes),
    /// All requests.
    Listed(Rows),
}
