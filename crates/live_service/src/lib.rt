//! A live service: requests, planners and movers beside one another, over one book that they share
//! as whole turns.
#![tactic(auto)]

mod boards;
mod crew;
mod front;
mod lanes;
mod laws;
mod link;
mod links;
mod live;
mod parties;
mod service;

pub use boards::{BoardCaller, Callers};
pub use front::FrontEnd;
pub use lanes::out_of_memory;
pub use laws::workers_heal_nothing;
pub use link::{serve_link, serve_reviewed};
pub use links::Serving;
pub use live::{Crew, Live, Unshared, run_live_service};
pub use parties::{Front, Of, Parties, Team};
pub use service::{Lane, Served, Service};
