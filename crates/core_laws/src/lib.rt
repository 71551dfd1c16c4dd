//! Laws of the core's definitions, over every legal history.
#![tactic(auto)]

mod laws;

pub use laws::{every_book, every_change, every_event, every_history, every_round};
