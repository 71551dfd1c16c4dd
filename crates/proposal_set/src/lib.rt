//! What a plan asks for: the proposals between two assignments, and the reassignment JSON that
//! Kafka's tools read.
#![tactic(auto)]

mod changes;
mod laws;
mod text;

pub use changes::proposals;
pub use laws::{proposals_lead_from_before_to_after, texts_on_literals};
pub use text::{assignment_text, reassignment_text};
