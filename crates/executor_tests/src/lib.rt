//! Tests of the executor: rows of events, and random runs.
#![tactic(auto)]

#[cfg(test)]
mod plain;
#[cfg(test)]
mod random;
#[cfg(test)]
mod runs;
