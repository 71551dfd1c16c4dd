//! What only tests use: clusters from texts, and an outside in memory. Of its sources, sinks, files
//! and listeners some calls fail where a test asks for it. Copiers, sources, sinks and links wait
//! for one another, so that a test can show that two things ran at once: no contract speaks of the
//! waiting, which tests alone show.
#![tactic(auto)]

mod bar;
mod clusters;
mod failing;
mod failing_listener;
mod link;
mod listener;
mod memory;
mod pair;
mod reply;
mod sink;
mod source;

pub use clusters::{assignment, cluster};
pub use failing::Failing;
pub use failing_listener::FailingListener;
pub use link::GateLink;
pub use listener::MemoryListener;
pub use memory::{MemoryFile, MemoryFiles, MemorySink, MemorySource};
pub use pair::PairGate;
pub use reply::ReplyGate;
pub use sink::GateSink;
pub use source::GateSource;
