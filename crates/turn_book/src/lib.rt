//! One book with a journal, which threads share as whole turns: each call of [`Turn::act`] is one
//! event of one history.
#![tactic(auto)]

mod journal;
mod journaled;
mod rule;
mod table;
mod turn;

pub use journal::Journal;
pub use journaled::Journaled;
pub use turn::{Pass, Turn};
