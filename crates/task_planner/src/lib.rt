//! The tasks of an execution that wait, and which of them may start.
#![tactic(auto)]

mod group;
mod queue;
mod slot;

pub use queue::TaskQueue;
