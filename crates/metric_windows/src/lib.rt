//! Metric samples of partitions, averaged over windows of time, as Cruise Control does it.
#![tactic(auto)]

mod cell;
mod fault;
mod tally;
mod windows;

pub use fault::SampleFault;
pub use windows::Windows;
