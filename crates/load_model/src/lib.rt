//! A cluster as one request sees it, an assignment of its partitions, and the book of a plan in the
//! making.
#![tactic(auto)]

mod amounts;
mod assign;
mod book;
mod case;
mod limits;
mod repeats;
mod table;
mod topics;

pub use assign::Assign;
pub use book::LoadBook;
pub use case::Case;
