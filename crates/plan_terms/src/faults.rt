// Want of memory, and what is wrong with a cluster.
ghost use Rattle.std.specs.Prelude.{◌≡◌};

use std::alloc::{AllocError, AllocFailed};
use std::{error, fmt};
use thiserror::Error;

/// Want of memory. It is merged with no other answer.
#[derive(Clone, Copy, Debug, PartialEq, Eq, Error)]
#[error("want of memory")]
pub struct Memory;

impl From<AllocError> for Memory {
    ghost from_gives = { λ _ _. Unit {0} };

    fn from(_: AllocError) -> Self {
        Memory
    }
}

impl<T: Drop> From<AllocFailed<T>> for Memory {
    ghost from_gives = { λ _ _. Unit {0} };

    fn from(_: AllocFailed<T>) -> Self {
        Memory
    }
}

/// A limit of clusters.
#[derive(Clone, Copy, Debug, PartialEq, Eq)]
pub enum Limit {
    /// At most 200 brokers.
    Brokers,
    /// At most 1,000 topics.
    Topics,
    /// At most 10,000 partitions.
    Partitions,
    /// Each load value below 2^32.
    Load,
    /// Each capacity below 2^40.
    Capacity,
    /// 1 to 1,000 chunks.
    Chunks,
    /// At most 8 replicas of a partition.
    Replicas,
}

/// The name of the limit.
impl fmt::Display for Limit {
    ghost use Rattle.std.specs.Prelude.{Some};
    ghost use Rattle.plan_terms.specs.Texts.{limit_text};

    ghost output = { λ limit. Some (limit_text limit) };

    fn fmt<W: fmt::Write>(&self, f: &mut fmt::Formatter<W>) -> fmt::Result {
        match self {
            Limit::Brokers => write!(f, "Brokers"),
            Limit::Topics => write!(f, "Topics"),
            Limit::Partitions => write!(f, "Partitions"),
            Limit::Load => write!(f, "Load"),
            Limit::Capacity => write!(f, "Capacity"),
            Limit::Chunks => write!(f, "Chunks"),
            Limit::Replicas => write!(f, "Replicas"),
        }
    }
}

/// Why brokers, partitions or lists make no cluster.
#[derive(Clone, Copy, Debug, PartialEq, Eq)]
pub enum CaseFault {
    /// Want of memory.
    Memory,
    /// The id of the first broker that repeats an earlier one.
    DuplicateBroker(u32),
    /// The place of the first partition that repeats an earlier one.
    DuplicatePartition(usize),
    /// The place of the partition, and the id that no broker has.
    UnknownBroker(usize, u32),
    /// The place of the partition, and the id that stands twice in its list.
    DuplicateReplica(usize, u32),
    /// The place of the partition without a replica.
    EmptyReplicas(usize),
    OverLimit(Limit),
    /// The place of the first member of the least leaders that names the topic of an earlier one.
    DuplicateMinLeaders(usize),
}

/// The name of the fault with its places and ids.
impl fmt::Display for CaseFault {
    ghost use Rattle.std.specs.Prelude.{Some};
    ghost use Rattle.plan_terms.specs.Texts.{case_text};

    ghost output = { λ fault. Some (case_text fault) };

    fn fmt<W: fmt::Write>(&self, f: &mut fmt::Formatter<W>) -> fmt::Result {
        match self {
            CaseFault::Memory => write!(f, "Memory"),
            CaseFault::DuplicateBroker(id) => write!(f, "DuplicateBroker {id}"),
            CaseFault::DuplicatePartition(place) => write!(f, "DuplicatePartition {place}"),
            CaseFault::UnknownBroker(place, id) => write!(f, "UnknownBroker {place} {id}"),
            CaseFault::DuplicateReplica(place, id) => write!(f, "DuplicateReplica {place} {id}"),
            CaseFault::EmptyReplicas(place) => write!(f, "EmptyReplicas {place}"),
            CaseFault::OverLimit(limit) => write!(f, "OverLimit {limit}"),
            CaseFault::DuplicateMinLeaders(place) => write!(f, "DuplicateMinLeaders {place}"),
        }
    }
}

impl error::Error for CaseFault {}

impl From<AllocError> for CaseFault {
    ghost use Rattle.plan_terms.specs.declared.faults.CaseFault.TheVariants as fault;

    ghost from_gives = { λ _ e. e ≡ fault.Memory };

    fn from(_: AllocError) -> Self {
        CaseFault::Memory
    }
}

impl<T: Drop> From<AllocFailed<T>> for CaseFault {
    ghost use Rattle.plan_terms.specs.declared.faults.CaseFault.TheVariants as fault;

    ghost from_gives = { λ _ e. e ≡ fault.Memory };

    fn from(_: AllocFailed<T>) -> Self {
        CaseFault::Memory
    }
}

impl From<Memory> for CaseFault {
    ghost use Rattle.plan_terms.specs.declared.faults.CaseFault.TheVariants as fault;

    ghost from_gives = { λ _ e. e ≡ fault.Memory };

    fn from(_: Memory) -> Self {
        CaseFault::Memory
    }
}
