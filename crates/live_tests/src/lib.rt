//! Tests of what runs in threads and over the system's sockets: whole live services, whose
//! requests, movers and planners run beside one another, two movers of one turn, and links of the
//! system. They show what no clause does: that they are at work at once, that calls with ample
//! memory succeed, and how a service ends whose admin, copier, console or listener fails.
#![tactic(auto)]

#[cfg(test)]
mod books;
#[cfg(test)]
mod faults;
#[cfg(test)]
mod gates;
#[cfg(test)]
mod histories;
#[cfg(test)]
mod links;
#[cfg(test)]
mod listeners;
#[cfg(test)]
mod movers;
#[cfg(test)]
mod rests;
#[cfg(test)]
mod services;
#[cfg(test)]
mod sessions;
#[cfg(test)]
mod sockets;
#[cfg(test)]
mod texts;
