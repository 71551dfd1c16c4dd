//! Tests of what a cluster is made of and of what is planned for it: its file, loads, samples and
//! goals, what the planner's search finds beside a plain scan, and the checker's verdict.
#![tactic(auto)]

#[cfg(test)]
mod clusters;
#[cfg(test)]
mod files;
#[cfg(test)]
mod goals;
#[cfg(test)]
mod loads;
#[cfg(test)]
mod samples;
#[cfg(test)]
mod scans;
#[cfg(test)]
mod summaries;
