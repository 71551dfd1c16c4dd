//! Plans the partition moves that keep a Kafka cluster within its limits.
#![tactic(auto)]

use cc_base::{HostFiles, HostSink, HostSource, HostStream, Joined};
use cc_program::{end_without_memory, run_words};
use net_links::HostListener;
use std::process::ExitCode;
use std::{env, io};

// The words of the command line, without the program's name.
fn words_of(rt: &HostRuntime) -> io::Result<Vec<String>> {
    let mut words = Vec::new(rt.alloc());
    for word in env::args(rt)?.skip(1) {
        words.push(word)?;
    }
    Ok(words)
}

fn main(rt: HostRuntime) -> ExitCode {
    let mut err = HostSink::new(HostStream::Err(rt.stderr()));
    let Ok(listener) = HostListener::new(rt, rt.alloc()) else {
        return end_without_memory(&mut err);
    };
    let mut files = HostFiles::new(rt);
    let input = HostSource::new(rt.stdin());
    let output = HostSink::new(HostStream::Out(rt.stdout()));
    let console = Joined::new(input, output);
    let (code, _left) = run_words(
        &rt,
        rt.alloc(),
        words_of(&rt),
        &mut files,
        console,
        listener,
        &mut err,
    );
    code
}
