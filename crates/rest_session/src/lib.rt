//! A session: the requests of a link, read one after another, each answered by the reply to its own
//! entries.
#![tactic(auto)]

mod answer;
mod calls;
mod laws;
mod reviewed;
mod session;
mod site;
mod whole;

pub use calls::{Asked, asked_by, plainly_asked};
pub use laws::only_detects_heal;
pub use session::{LinkEnd, serve};
pub use site::{PageAlone, Site};
pub use whole::{SessionEnd, finish, run_session};
