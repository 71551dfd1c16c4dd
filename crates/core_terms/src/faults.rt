// Why the book doesn't take an event.
ghost use Rattle.std.specs.Prelude.{◌≡◌};
ghost use Rattle.core_terms.specs.Faults.{blame_of};

/// Why the book doesn't take an event. Its state and its journal are unchanged then.
#[derive(Clone, Copy, Debug, PartialEq, Eq)]
pub enum StepFault {
    /// A call of the admin failed. The number, at least 1, is that of the failed calls so far.
    AdminFault(u64),
    /// Want of memory.
    Memory,
}

impl StepFault {
    /// The number of the outside fault that it tells, or 0 for want of memory.
    pub fn blame(&self) -> u64
        ensures { result ≡ blame_of self.now }
    {
        match self {
            StepFault::AdminFault(number) => *number,
            StepFault::Memory => 0,
        }
    }
}
