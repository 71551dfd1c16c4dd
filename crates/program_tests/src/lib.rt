//! Tests of runs with threads: with which status they end, and what they leave, where calls of the
//! cluster or copies fail.
#![tactic(auto)]

#[cfg(test)]
mod runs;
