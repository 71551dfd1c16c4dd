//! Tests of what stands round the core: files and links that fail, what words and requests mean,
//! streams of requests, and replies byte for byte.
#![tactic(auto)]

#[cfg(test)]
mod calls;
#[cfg(test)]
mod commands;
#[cfg(test)]
mod outside;
#[cfg(test)]
mod replies;
#[cfg(test)]
mod reviews;
#[cfg(test)]
mod streams;
#[cfg(test)]
mod texts;
