//! The words of the service's core: its events and replies and, in `specs/`, its state, its step
//! and its legal histories, which the contracts of the book cite.
#![tactic(auto)]

mod caps;
mod events;
mod faults;
mod jobs;
mod laws;
mod looks;
mod problem;
mod pumps;
mod replies;
mod shows;

pub use caps::CapChange;
pub use events::Event;
pub use faults::StepFault;
pub use jobs::{Broken, Job};
pub use laws::{definitions_on_examples, sameness_is_equality};
pub use looks::Looked;
pub use problem::Problem;
pub use pumps::PumpEnd;
pub use replies::{Named, Outcome, Reason, Reply};
pub use shows::{BrokerShown, ExecutorState, PartShown, Shown, StateShown, TaskShown};
