//! Traces that anyone can verify: their text, and a checker that sums afresh.
#![tactic(auto)]

mod checker;
mod faults;
mod read;
mod text;

pub use checker::check;
pub use faults::{FaultKind, Verdict};
pub use read::{TraceFault, read_trace};
pub use text::trace_text;
