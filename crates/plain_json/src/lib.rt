//! JSON as this program writes it: its numbers are whole.
#![tactic(auto)]

mod numbers;

pub use numbers::numbers_value;
