//! The words of the executor of replica movements: its plain types and, in `specs/`, the state
//! machine that its contracts cite.
#![tactic(auto)]

mod brokers;
mod laws;
mod lists;
mod phase;
mod replies;
mod tally;
mod task;
mod work;

pub use brokers::Host;
pub use laws::every_execution;
pub use lists::{differs, union};
pub use phase::Phase;
pub use replies::{
    Faults, Given, Idle, KillFault, Killed, LaunchFault, LeaseFault, Left, NothingToStop, Stopped,
};
pub use tally::{PhaseCounts, leases_out, phase_counts};
pub use task::Task;
pub use work::{Lease, Work, WorkKind};
