// Laws of the definitions in `specs/`, each the contract of a function that does nothing.
ghost use Rattle.std.specs.Prelude.{ℕ, List};
ghost use Rattle.candidate_order.specs.Exhausted.{ExhaustedStay, RowsAreAll, Stamps, StepsStay};
ghost use Rattle.candidate_order.specs.Laws.{CandidatesAreAll, FiltersKeepTheFirst, MovesComeFirst, ReplicasAreUnique};
ghost use Rattle.plan_terms.specs.Cluster.{Cluster, Lists};
ghost use Rattle.plan_terms.specs.Goal.{Meaning};

/// To leave out candidates that don't serve changes neither the first that does nor whether there
/// is one.
pub fn filters_keep_the_first()
    ensures { (c : Cluster) (earlier : List Meaning) (goal : Meaning) (lists : Lists)
        → FiltersKeepTheFirst c earlier goal lists }
{}

/// The order of a broker's replicas is fixed by what it is to be: there is one such list.
pub fn replicas_are_unique()
    ensures { (c : Cluster) (lists : Lists) (b : ℕ) → ReplicasAreUnique c lists b }
{}

/// The list of candidates has every legal action.
pub fn candidates_are_all()
    ensures { CandidatesAreAll }
{}

/// Moves come before leads, and leads before swaps.
pub fn moves_come_first()
    ensures { (c : Cluster) (earlier : List Meaning) (goal : Meaning) (lists : Lists)
        → MovesComeFirst c earlier goal lists }
{}

/// Whether an action is a step is as it was after another that shares no broker and no partition
/// with it.
pub fn steps_stay()
    ensures { StepsStay }
{}

/// What is remembered of candidates that didn't serve stays true, where an action touches its
/// brokers and partitions.
pub fn exhausted_stay()
    ensures { (c : Cluster) (earlier : List Meaning) (goal : Meaning) (lists : Lists) (st : Stamps)
        (time : ℕ) → ExhaustedStay c earlier goal lists st time }
{}

/// The candidates for a broker's replicas have every legal action of their kind that the broker
/// gives by.
pub fn rows_are_all()
    ensures { RowsAreAll }
{}
