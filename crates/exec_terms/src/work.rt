// Work, and the leases under which it is given.
ghost use Rattle.std.specs.Prelude.{◌≡◌};
ghost use Rattle.exec_terms.specs.Words.{is_for, is_cancel};

/// What a lease may be for.
#[derive(Clone, Copy, Debug, PartialEq, Eq)]
pub enum WorkKind {
    Copy,
    Commit,
    Cancel,
}

impl WorkKind {
    /// Whether it is the cancel.
    pub fn is_cancel(self) -> bool
        ensures { result ≡ is_cancel self }
    {
        matches!(self, WorkKind::Cancel)
    }
}

/// One piece of work.
#[derive(Clone, Copy, Debug, PartialEq, Eq)]
pub enum Work {
    /// Copies one chunk of the partition to a broker that the new list adds.
    Copy { to: u32, chunk: u32 },
    /// Makes the new list the partition's.
    Commit,
    /// Makes the old list the partition's again.
    Cancel,
}

impl Work {
    /// Whether the work is of this kind.
    pub fn is_for(self, kind: WorkKind) -> bool
        ensures { result ≡ is_for kind self }
    {
        match kind {
            WorkKind::Copy => matches!(self, Work::Copy { .. }),
            WorkKind::Commit => matches!(self, Work::Commit),
            WorkKind::Cancel => matches!(self, Work::Cancel),
        }
    }
}

/// Leave to do one piece of work.
#[derive(Clone, Copy, Debug)]
pub struct Lease {
    pub number: u64,
    pub work: Work,
}
