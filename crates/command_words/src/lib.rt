//! The words of the command line: the command that they mean, with its options, and whether they
//! want a run with threads.
#![tactic(auto)]

mod arguments;
mod builders;
mod commands;
mod live;
mod options;
mod values;
mod words;

pub use commands::{Command, Goals, WordsFault, Workers};
pub use live::wants_live;
pub use words::read_words;
