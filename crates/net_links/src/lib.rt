//! Links that are accepted from a listener: the trait, and its implementation over the system's
//! sockets.
#![tactic(auto)]

mod connection;
mod host;
mod listener;

pub use connection::Connection;
pub use host::{HostLink, HostListener};
pub use listener::Listener;
