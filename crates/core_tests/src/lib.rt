//! Tests of the core: user tasks, calls of the cluster that fail, what the core reads, a book's
//! answers to events in order, and rounds of movers.
#![tactic(auto)]

#[cfg(test)]
mod books;
#[cfg(test)]
mod cases;
#[cfg(test)]
mod gate;
#[cfg(test)]
mod rounds;
#[cfg(test)]
mod tasks;
