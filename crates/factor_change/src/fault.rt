// Why a replication factor can't be had.
use plan_terms::{Memory, Topic};
use std::alloc::{AllocError, AllocFailed};

/// Why the replication factor of some topics can't be changed so.
#[derive(Drop)]
pub enum ResizeFault {
    /// The first of the topics that has no partition.
    NoSuchTopic(Topic),
    /// How many members the first list that is to grow so far may have: those that it has, and the
    /// other brokers that aren't lost.
    TooFewBrokers(u32),
    /// Want of memory.
    Memory,
}

impl From<AllocError> for ResizeFault {
    ghost use Rattle.factor_change.specs.declared.fault.ResizeFault.TheVariants as fault;
    ghost use Rattle.std.specs.Prelude.{◌≡◌};

    ghost from_gives = { λ _ e. e ≡ fault.Memory };

    fn from(_: AllocError) -> Self {
        ResizeFault::Memory
    }
}

impl<T: Drop> From<AllocFailed<T>> for ResizeFault {
    ghost use Rattle.factor_change.specs.declared.fault.ResizeFault.TheVariants as fault;
    ghost use Rattle.std.specs.Prelude.{◌≡◌};

    ghost from_gives = { λ _ e. e ≡ fault.Memory };

    fn from(_: AllocFailed<T>) -> Self {
        ResizeFault::Memory
    }
}

impl From<Memory> for ResizeFault {
    ghost use Rattle.factor_change.specs.declared.fault.ResizeFault.TheVariants as fault;
    ghost use Rattle.std.specs.Prelude.{◌≡◌};

    ghost from_gives = { λ _ e. e ≡ fault.Memory };

    fn from(_: Memory) -> Self {
        ResizeFault::Memory
    }
}
