//! The board on which requests are filed, reviewed and taken: each is given out at most once, and
//! only after a review that approved it.
#![tactic(auto)]

mod board;
mod events;
mod journaled;
mod laws;
mod reviewer;
mod reviews;
#[cfg(test)]
mod tests;

pub use board::Board;
pub use events::{BoardEvent, BoardReply, Bytes, Ids, ReviewState, Row, Rows};
pub use laws::every_board;
pub use reviewer::{NoBoard, NoteFault, Reviewer};
