//! The top calls: what the words of a command line ask, done over files, streams, a listener and a
//! cluster that the caller gives.
#![tactic(auto)]

mod entry;
mod laws;
mod lives;
mod outside;

pub use entry::{end_without_memory, run_words};
pub use laws::every_live_run;
pub use lives::run_live;
pub use outside::{Ended, Left, Outside};
