//! The commands that wait for nobody: what their words ask, done over files, an input and an output
//! that the caller gives.
#![tactic(auto)]

mod answers;
mod applies;
mod checks;
mod commands;
mod ends;
mod gens;
mod input;
mod laws;
mod planning;
mod plans;
mod quiet;
mod sessions;

pub use ends::{End, conclude};
pub use laws::every_quiet_run;
pub use quiet::{LoadFault, load_file, run_quiet};
pub use sessions::{drained_end, ended_by};
