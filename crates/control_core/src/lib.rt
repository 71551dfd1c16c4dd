//! The core of the service: one book that takes events in order, answers each, and keeps the
//! journal of them.
#![tactic(auto)]

mod book;
mod changes;
mod desk;
mod journal;
mod journaled;
mod looks;
mod machine;
mod movers;
mod places;
mod planners;
mod room;
mod serve;
mod shown;
mod stops;
mod submits;
mod writes;

pub use book::Book;
