//! One request for a plan, carried out by the owner of a book: asked, drained on one thread, and
//! asked after.
#![tactic(auto)]

mod lists;
mod run;

pub use lists::lists_told;
pub use run::{RequestRun, run_request};
