// What a planner is given.
ghost use Rattle.std.specs.Prelude.{◌≡◌};
ghost use Rattle.plan_terms.specs.Belongs.{Belongs};

use goal_set::GoalList;
use load_model::{Assign, Case};
use std::marker::Model;

/// What a planner is given: a case, lists to begin with, which belong to it, and goals in the order
/// of their turns.
#[derive(Drop)]
pub struct Problem {
    case: Case,
    start: Assign,
    goals: GoalList,
}

impl Model for Problem {
    ghost use Rattle.plan_terms.specs.Belongs.{Belongs};
    ghost use Rattle.core_terms.specs.Problem.{ProblemView};

    ghost Value = { ProblemView };

    ghost view = { λ p. record { case = p.case; start = p.start; goals = p.goals } };

    ghost invariant = { λ p. Belongs p.case p.start };
}

impl Problem {
    /// The problem of a case, lists of it, and goals.
    pub fn new(case: Case, start: Assign, goals: GoalList) -> Problem
        requires { Belongs case start }
        ensures { result ≡ record { case = case; start = start; goals = goals } }
    {
        Problem { case, start, goals }
    }

    /// The case.
    pub fn case(&self) -> &Case
        ensures value { result.now ≡ self.now.case }
        ensures belongs { Belongs self.now.case self.now.start }
    {
        &self.case
    }

    /// The lists to begin with.
    pub fn start(&self) -> &Assign
        ensures value { result.now ≡ self.now.start }
        ensures belongs { Belongs self.now.case self.now.start }
    {
        &self.start
    }

    /// The goals.
    pub fn goals(&self) -> &GoalList
        ensures { result.now ≡ self.now.goals }
    {
        &self.goals
    }

    /// The case, the lists and the goals, without a copy.
    pub fn into_parts(self) -> (Case, Assign, GoalList)
        ensures case { result.0 ≡ self.case }
        ensures start { result.1 ≡ self.start }
        ensures goals { result.2 ≡ self.goals }
        ensures belongs { Belongs self.case self.start }
    {
        (self.case, self.start, self.goals)
    }
}
