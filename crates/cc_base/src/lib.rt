//! What lies outside the program: files, input, output and links as traits, reading and writing
//! over them, and their implementations over the real system.
#![tactic(auto)]

mod host;
mod link;
mod outside;

pub use host::{HostFiles, HostSink, HostSource, HostStream};
pub use link::{Joined, Link, read_link, write_link};
pub use outside::{
    Failed, FileFault, Files, MAX_FILE_LEN, ReadFault, Sink, Source, WriteFault, read_some,
    write_all_of,
};
