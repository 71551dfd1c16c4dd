//! The executor of replica movements: which work comes next, and what each event does.
#![tactic(auto)]

mod change;
mod exec;
mod opening;
mod scan;

pub use exec::Exec;
pub use opening::opened;
