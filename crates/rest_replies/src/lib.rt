//! The bytes of the replies over HTTP: a status line and a head by RFC 9112, and a body of compact
//! JSON.
#![tactic(auto)]

mod answer;
mod answers;
mod boards;
mod bodies;
mod laws;
mod page;
mod refusals;
mod replies;
mod shows;
mod texts;
mod told;

pub use laws::memory_reply_is_a_reply;
pub use replies::{MEMORY_REPLY, reply_bytes};
pub use told::Told;
