// A failure of the planner.
ghost use Rattle.std.specs.Prelude.{◌≡◌, ◌++◌, ◌∷◌, [], ℕ, List};
ghost use Rattle.goal_set.specs.Kept.{IsFailure, kinds_of};
ghost use Rattle.goal_set.specs.declared.kinds.GoalKind.{GoalKind};

use crate::kinds::GoalKind;
use crate::list::GoalList;
use crate::trace::Trace;
use load_model::{Assign, Case};
use std::marker::Model;

/// A failure: turns that end with that of the first hard goal which stays broken, and how far it
/// is. Whoever holds one holds a proof of that.
#[derive(Drop)]
pub struct Failure {
    case: Case,
    start: Assign,
    goals: GoalList,
    trace: Trace,
    left: u128,
}

impl Model for Failure {
    ghost use Rattle.goal_set.specs.Kept.{FailureView, IsFailure};

    ghost Value = { FailureView };

    ghost view = { λ f. record {
      case = f.case;
      start = f.start;
      goals = f.goals;
      trace = f.trace;
      left = f.left;
    } };

    ghost invariant = { λ f. IsFailure
        (record {
          case = f.case;
          start = f.start;
          goals = f.goals;
          trace = f.trace;
          left = f.left;
        }) };
}

impl Failure {
    /// The failure of these turns, the last of which left its goal with the measure.
    pub fn new(case: Case, start: Assign, goals: GoalList, trace: Trace, measure: u128) -> Failure
        requires { IsFailure
            (record { case = case; start = start; goals = goals; trace = trace; left = measure }) }
        ensures { result
            ≡ record { case = case; start = start; goals = goals; trace = trace; left = measure } }
    {
        Failure {
            case,
            start,
            goals,
            trace,
            left: measure,
        }
    }

    /// The cluster that it is for.
    pub fn case(&self) -> &Case
        ensures value { result.now ≡ self.now.case }
        ensures kept { IsFailure self.now }
    {
        &self.case
    }

    /// The lists before the first turn.
    pub fn start(&self) -> &Assign
        ensures value { result.now ≡ self.now.start }
        ensures kept { IsFailure self.now }
    {
        &self.start
    }

    /// The goals, in order.
    pub fn goals(&self) -> &GoalList
        ensures value { result.now ≡ self.now.goals }
        ensures kept { IsFailure self.now }
    {
        &self.goals
    }

    /// The turns.
    pub fn trace(&self) -> &Trace
        ensures value { result.now ≡ self.now.trace }
        ensures kept { IsFailure self.now }
    {
        &self.trace
    }

    /// The hard goal that stays broken, which is that of the last turn.
    pub fn goal(&self) -> GoalKind
        ensures last { (met : List GoalKind) × (kinds_of self.now.trace ≡ met ++ result ∷ []) }
        ensures kept { IsFailure self.now }
    {
        let turns = self.trace.turns.as_slice();
        turns[turns.len() - 1].goal
    }

    /// How far it stays broken.
    pub fn measure(&self) -> u128
        ensures value { result ≡ self.now.left }
        ensures kept { IsFailure self.now }
    {
        self.left
    }
}
