//! The requests of a stream of bytes: what they are, and a reader that gives them however the reads
//! cut the stream.
#![tactic(auto)]

mod bytes;
mod fields;
mod heads;
mod inbox;
mod laws;
mod raw;
mod reader;
mod request;
mod search;
mod whole;

pub use bytes::Bytes;
pub use laws::{reasons_are_unique, requests_are_unique};
pub use raw::{Next, RawRequest, Stop};
pub use reader::Reader;
pub use whole::{Whole, read_whole};
