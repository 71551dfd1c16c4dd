// What the checker says of a trace.
ghost use Rattle.std.specs.Prelude.{◌≡◌};
ghost use Rattle.plan_check.specs.Names.{fault_name};

/// What is wrong with a trace at a place.
#[derive(Clone, Copy, Debug, PartialEq, Eq)]
pub enum FaultKind {
    /// The turn isn't that of the goal whose turn it is, there is no such goal, or a goal has no
    /// turn.
    WrongGoal,
    /// The action isn't legal on the lists where it stands.
    Illegal,
    /// A goal before doesn't accept the action.
    NotAccepted,
    /// The action doesn't lessen the goal.
    NotLessening,
    /// A legal action that the goals before accept still lessens the goal.
    NotFinished,
    /// The trace isn't said to be planned, or failed, as its turns are.
    WrongResult,
}

impl FaultKind {
    /// The name of the fault.
    pub fn name(self) -> &'static str
        ensures { result.now ≡ fault_name self }
    {
        match self {
            FaultKind::WrongGoal => "WRONG_GOAL",
            FaultKind::Illegal => "ILLEGAL",
            FaultKind::NotAccepted => "NOT_ACCEPTED",
            FaultKind::NotLessening => "NOT_LESSENING",
            FaultKind::NotFinished => "NOT_FINISHED",
            FaultKind::WrongResult => "WRONG_RESULT",
        }
    }
}

/// The trace is good, or its first fault: the turn, counted from 0, and the action in it, counted
/// from 0 and as many as it has for a fault at its end.
#[derive(Clone, Copy, Debug, PartialEq, Eq)]
pub enum Verdict {
    Good,
    Fault {
        turn: usize,
        action: usize,
        kind: FaultKind,
    },
}
