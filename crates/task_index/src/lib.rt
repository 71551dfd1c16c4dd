//! Which task of an execution comes next, and which holds a lease, without a scan of the tasks.
#![tactic(auto)]

mod flags;
mod index;
mod leases;
mod level;

pub use index::TaskIndex;
