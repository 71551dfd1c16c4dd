// A plan.
ghost use Rattle.std.specs.Prelude.{◌≡◌};
ghost use Rattle.goal_set.specs.Kept.{IsPlan};

use crate::list::GoalList;
use crate::trace::Trace;
use load_model::{Assign, Case};
use std::marker::Model;

/// A plan: turns that are good for its case, its start and its goals, and lead to its end. Whoever
/// holds one holds a proof of that.
#[derive(Drop)]
pub struct Plan {
    case: Case,
    start: Assign,
    goals: GoalList,
    trace: Trace,
    end: Assign,
}

impl Model for Plan {
    ghost use Rattle.goal_set.specs.Kept.{PlanView, IsPlan};

    ghost Value = { PlanView };

    ghost view = { λ p. record {
      case = p.case;
      start = p.start;
      goals = p.goals;
      trace = p.trace;
      end = p.end;
    } };

    ghost invariant = { λ p. IsPlan
        (record {
          case = p.case;
          start = p.start;
          goals = p.goals;
          trace = p.trace;
          end = p.end;
        }) };
}

impl Plan {
    /// The plan of these turns.
    pub fn new(case: Case, start: Assign, goals: GoalList, trace: Trace, end: Assign) -> Plan
        requires { IsPlan
            (record { case = case; start = start; goals = goals; trace = trace; end = end }) }
        ensures { result
            ≡ record { case = case; start = start; goals = goals; trace = trace; end = end } }
    {
        Plan {
            case,
            start,
            goals,
            trace,
            end,
        }
    }

    /// The cluster that it is for.
    pub fn case(&self) -> &Case
        ensures value { result.now ≡ self.now.case }
        ensures kept { IsPlan self.now }
    {
        &self.case
    }

    /// The lists before the first turn.
    pub fn start(&self) -> &Assign
        ensures value { result.now ≡ self.now.start }
        ensures kept { IsPlan self.now }
    {
        &self.start
    }

    /// The goals, in order.
    pub fn goals(&self) -> &GoalList
        ensures value { result.now ≡ self.now.goals }
        ensures kept { IsPlan self.now }
    {
        &self.goals
    }

    /// The turns.
    pub fn trace(&self) -> &Trace
        ensures value { result.now ≡ self.now.trace }
        ensures kept { IsPlan self.now }
    {
        &self.trace
    }

    /// The lists after the last turn.
    pub fn end(&self) -> &Assign
        ensures value { result.now ≡ self.now.end }
        ensures kept { IsPlan self.now }
    {
        &self.end
    }
}
