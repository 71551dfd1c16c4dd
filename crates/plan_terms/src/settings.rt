// What a cluster file fixes beside the cluster: caps of movements, and windows of samples.
ghost use Rattle.std.specs.Prelude.{◌≡◌};
ghost use Rattle.plan_terms.specs.Loads.{IsLoads};

use crate::Loads;
use std::marker::Model;

/// How many movements there may be at a time.
#[derive(Clone, Copy, Debug, PartialEq, Eq)]
pub struct Caps {
    /// Of one broker: the tasks in flight that add it, and those that remove it.
    pub broker: u32,
    /// The tasks in flight that move replicas.
    pub cluster: u32,
    /// The tasks in flight that change a leader alone.
    pub leader: u32,
}

/// How samples are averaged over windows of time.
#[derive(Clone, Copy, Debug)]
pub struct WindowRules {
    /// The width of a window, 1 to 86,400,000 milliseconds.
    pub width: u64,
    /// How many windows are kept, 1 to 100.
    pub keep: u64,
    /// How many samples a window is to have, 1 to 65,536.
    pub least: u32,
    /// How many windows of a partition are to have a value, 1 to 100.
    pub need: u64,
}

/// The loads of a partition as they were measured at a time.
#[derive(Clone, Copy, Debug)]
pub struct Sample {
    /// The partition's place in the cluster file, from 0.
    pub part: u32,
    /// When it was taken, in milliseconds, below 2^53.
    pub time: u64,
    pub loads: Loads,
}

/// Loads in their range: each number is below 2^32, and a follower's NW_OUT is 0.
#[derive(Drop)]
pub struct Measured {
    loads: Loads,
}

impl Model for Measured {
    ghost use Rattle.plan_terms.specs.declared.cluster.Loads.{Loads};
    ghost use Rattle.plan_terms.specs.Loads.{IsLoads};

    ghost Value = { Loads };

    ghost view = { λ m. m.loads };

    ghost invariant = { λ m. IsLoads m.loads };
}

impl Measured {
    /// These loads.
    pub fn new(loads: Loads) -> Measured
        requires { IsLoads loads }
        ensures { result ≡ loads }
    {
        Measured { loads }
    }

    /// The loads.
    pub fn loads(&self) -> Loads
        ensures value { result ≡ self.now }
        ensures loads { IsLoads self.now }
    {
        self.loads
    }
}
