// What the executor answers.
use crate::Work;
use plan_terms::Memory;

/// Work that is given, under a lease.
#[derive(Clone, Copy, Debug)]
pub struct Given {
    pub lease: u64,
    /// The task's place in its execution, from 0.
    pub task: u32,
    /// The partition's place in the cluster file, from 0.
    pub part: u32,
    pub work: Work,
    /// Whether the task begins with it.
    pub starts: bool,
}

/// Why no work is given.
#[derive(Clone, Copy, Debug, PartialEq, Eq)]
pub enum Idle {
    /// No task is unfinished.
    NoExecution,
    /// Each task that has begun is leased, and none waits.
    AllLeased,
    /// The caps leave no room for a task that waits, or it waits for others.
    CapsFull,
}

/// Why a lease is worth nothing.
#[derive(Clone, Copy, Debug, PartialEq, Eq)]
pub enum LeaseFault {
    /// No task holds it for this work. The number is that of the last lease given.
    Stale(u64),
    /// The task is to be undone.
    AbortAsked,
}

/// How many copies of a task are left.
#[derive(Clone, Copy, Debug, PartialEq, Eq)]
pub struct Left(pub u32);

/// How many copies of a task have failed.
#[derive(Clone, Copy, Debug)]
pub struct Faults(pub u32);

/// How many tasks a stop aborted, and how many it made abort.
#[derive(Clone, Copy, Debug)]
pub struct Stopped {
    pub aborted: u32,
    pub aborting: u32,
}

/// No task is unfinished.
#[derive(Clone, Copy, Debug)]
pub struct NothingToStop;

/// How many tasks the death of a broker ended, and how many it made abort.
#[derive(Clone, Copy, Debug)]
pub struct Killed {
    pub dead: u32,
    pub aborting: u32,
}

/// Why a broker's death was not taken in.
#[derive(Clone, Copy, Debug)]
pub enum KillFault {
    NoSuchBroker,
    AlreadyDead,
}

/// Why an execution was not launched.
#[derive(Clone, Copy, Debug)]
pub enum LaunchFault {
    /// Want of memory.
    Memory,
    /// The first task that is unfinished.
    Executing(u32),
}

impl From<Memory> for LaunchFault {
    ghost use Rattle.std.specs.Prelude.{◌≡◌};
    ghost use Rattle.exec_terms.specs.declared.replies.LaunchFault.TheVariants as fault;

    ghost from_gives = { λ _ e. e ≡ fault.Memory };

    fn from(_: Memory) -> Self {
        LaunchFault::Memory
    }
}
