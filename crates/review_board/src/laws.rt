// Laws of every board, as the contract of a function that does nothing.
ghost use Rattle.review_board.specs.Laws.{DiscardedNeverGiven, FiledAtMostOnce, GivenAsFiled, GivenAtMostOnce, GivenOnceApproved};

/// What holds of every history of a board: each id names one request, which is given out at most
/// once, only after a review that approved it, and as it was filed. What was discarded is never
/// given out.
pub fn every_board()
    ensures filed_once { FiledAtMostOnce }
    ensures given_once { GivenAtMostOnce }
    ensures approved { GivenOnceApproved }
    ensures as_filed { GivenAsFiled }
    ensures discarded { DiscardedNeverGiven }
{}
