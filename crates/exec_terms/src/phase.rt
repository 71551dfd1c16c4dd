// The phases of a task.
ghost use Rattle.std.specs.Prelude.{◌≡◌};
ghost use Rattle.exec_terms.specs.Words.{is_pending, is_in_progress, is_aborting, is_aborted, is_completed, has_phase_dead, in_flight, is_unfinished};

/// How far a task has come.
#[derive(Clone, Copy, Debug, PartialEq, Eq)]
pub enum Phase {
    /// It has not begun.
    Pending,
    /// Its replicas are being copied.
    InProgress,
    /// It is to be undone.
    Aborting,
    /// It ended with the old list.
    Aborted,
    /// It ended with the new list.
    Completed,
    /// It ended with the old list, since a broker died or copies failed.
    Dead,
}

impl Phase {
    /// Whether the task has not begun.
    pub fn is_pending(self) -> bool
        ensures { result ≡ is_pending self }
    {
        matches!(self, Phase::Pending)
    }

    /// Whether the task's replicas are being copied.
    pub fn is_in_progress(self) -> bool
        ensures { result ≡ is_in_progress self }
    {
        matches!(self, Phase::InProgress)
    }

    /// Whether the task is to be undone.
    pub fn is_aborting(self) -> bool
        ensures { result ≡ is_aborting self }
    {
        matches!(self, Phase::Aborting)
    }

    /// Whether the task ended with the old list, since the execution was stopped.
    pub fn is_aborted(self) -> bool
        ensures { result ≡ is_aborted self }
    {
        matches!(self, Phase::Aborted)
    }

    /// Whether the task ended with the new list.
    pub fn is_completed(self) -> bool
        ensures { result ≡ is_completed self }
    {
        matches!(self, Phase::Completed)
    }

    /// Whether the task ended with the old list, since a broker died or copies failed.
    pub fn is_dead(self) -> bool
        ensures { result ≡ has_phase_dead self }
    {
        matches!(self, Phase::Dead)
    }

    /// Whether the partition is being moved.
    pub fn in_flight(self) -> bool
        ensures { result ≡ in_flight self }
    {
        self.is_in_progress() || self.is_aborting()
    }

    /// Whether the task has not ended.
    pub fn is_unfinished(self) -> bool
        ensures { result ≡ is_unfinished self }
    {
        self.is_pending() || self.in_flight()
    }
}
