// Types that name a resource, a threshold, whether a use may be too low, or whether a goal is hard.
ghost use Rattle.plan_terms.specs.Fraction.{Fraction};
ghost use Rattle.plan_terms.specs.declared.cluster.Options.{Options};
ghost use Rattle.std.proofs.Common.{arith};
ghost use Rattle.std.specs.Prelude.{◌≡◌, ◌<◌, ℕ, Bool, true, false};

use plan_terms::{Options, Ratio, resources};

/// A resource of brokers.
pub trait Resource {
    /// Its place among the four resources.
    ghost resource: { ℕ };

    /// Its place among the four resources, below 4.
    fn place() -> usize
        ensures value { result ≡ resource }
        ensures within { result < 4 };
}

/// The processors, in percent.
pub struct Cpu;

impl Resource for Cpu {
    ghost resource = { 0 };

    fn place() -> usize {
        resources::CPU
    }
}

/// What comes in from clients and other brokers, in KB/s.
pub struct NetworkIn;

impl Resource for NetworkIn {
    ghost resource = { 1 };

    fn place() -> usize {
        resources::NW_IN
    }
}

/// What goes out to clients, in KB/s.
pub struct NetworkOut;

impl Resource for NetworkOut {
    ghost resource = { 2 };

    fn place() -> usize {
        resources::NW_OUT
    }
}

/// Disk space, in MB.
pub struct Disk;

impl Resource for Disk {
    ghost resource = { 3 };

    fn place() -> usize {
        resources::DISK
    }
}

/// A threshold for how evenly a count is spread.
pub trait Balance {
    /// The threshold among a request's options.
    ghost threshold: { Options → Fraction };

    /// The threshold among a request's options.
    fn ratio(options: &Options) -> Ratio
        ensures { result ≡ threshold options.now };
}

/// The threshold for the replicas of a broker.
pub struct ReplicaBalance;

impl Balance for ReplicaBalance {
    ghost threshold = { λ o. o.replica_balance };

    fn ratio(options: &Options) -> Ratio {
        options.replica_balance
    }
}

/// The threshold for the partitions that a broker leads.
pub struct LeaderBalance;

impl Balance for LeaderBalance {
    ghost threshold = { λ o. o.leader_balance };

    fn ratio(options: &Options) -> Ratio {
        options.leader_balance
    }
}

/// Whether a use may be too low.
pub trait Floor {
    ghost HAS_FLOOR: { Bool };

    /// Whether it may.
    const HAS_FLOOR: bool;
}

/// It may.
pub struct Floored;

impl Floor for Floored {
    ghost HAS_FLOOR = { true };

    const HAS_FLOOR: bool = true;
}

/// It may not.
pub struct Floorless;

impl Floor for Floorless {
    ghost HAS_FLOOR = { false };

    const HAS_FLOOR: bool = false;
}

/// Whether a plan fails where a goal stays broken.
pub trait Strength {
    ghost HARD: { Bool };

    /// Whether a plan fails.
    const HARD: bool;
}

/// A plan fails.
pub struct Hard;

impl Strength for Hard {
    ghost HARD = { true };

    const HARD: bool = true;
}

/// A plan doesn't fail.
pub struct Soft;

impl Strength for Soft {
    ghost HARD = { false };

    const HARD: bool = false;
}
