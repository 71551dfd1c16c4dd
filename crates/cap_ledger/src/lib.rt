//! How many tasks in flight add and remove each broker, and whether the caps leave room for one
//! more.
#![tactic(auto)]

mod counts;
mod entry;

pub use counts::Counts;
