// The outside: pieces and prefixes, the end of the input, absent files, and the system's files and
// streams.
ghost use Rattle.std.specs.Prelude.{◌<◌, ◌≤◌, None, length};

use cc_base::{
    Failed, FileFault, Files, HostFiles, HostSink, HostSource, HostStream, Joined, Link, ReadFault,
    Sink, Source, WriteFault, read_link, read_some, write_all_of, write_link,
};
use std::alloc::Global;
use std::fs::{self, OpenFile};
use std::io::{self, ErrorKind, Read, Write};
use std::process::Abort;
use test_fakes::{Failing, MemoryFile, MemoryFiles, MemorySink, MemorySource};

// A sink that takes at most `most` bytes a call.
#[derive(Drop)]
struct Narrow {
    inner: MemorySink,
    most: usize,
    ghost some: { 0 < most },
}

impl Sink for Narrow {
    ghost faults = { λ s. ⟦<MemorySink as Sink>⟧.faults s.inner };

    ghost written = { λ s. ⟦<MemorySink as Sink>⟧.written s.inner };

    ghost beside = { λ _. (0, None) };

    fn write(&mut self, bytes: &[u8]) -> Result<usize, Failed> {
        let n = bytes.len().min(self.most);
        self.inner.write(&bytes[..n])
    }
}

// The most bytes a call, the call that fails, what is written, and whether that is all.
const PIECES: [(usize, u64, &str, bool); 6] = [
    (1, 99, "abcdefg", true),
    (3, 3, "abcdefg", true),
    (100, 1, "abcdefg", true),
    (3, 0, "", false),
    (3, 1, "abc", false),
    (3, 2, "abcdef", false),
];

#[test]
fn writes_all_or_a_front(rt: HostRuntime) {
    let alloc = rt.alloc();
    for (most, failing, want, all) in PIECES {
        assert!(rt; most > 0);
        let narrow = Narrow {
            inner: MemorySink::new(alloc),
            most,
        };
        let failing = [failing].to_vec(alloc).expect(&rt, "memory");
        let mut sink = Failing::new(narrow, failing);
        let done = write_all_of(&mut sink, b"abcdefg");
        assert_eq!(rt; done.is_ok(), all, "{most} a call");
        let written = sink.inner().inner.bytes();
        assert_eq!(rt; written, want.as_bytes(), "{most} a call");
    }
}

// Reads five bytes, two a call, of which the second call fails.
fn expect_hello<L: Link>(rt: &impl Abort, link: &mut L) {
    let mut buf = [0; 2];
    for (call, want) in ["he", "fault", "ll", "o", "", ""].into_iter().enumerate() {
        match read_link(link, &mut buf) {
            Ok(n) => assert_eq!(rt; &buf[..n], want.as_bytes(), "call {call}"),
            Err(ReadFault) => assert_eq!(rt; "fault", want, "call {call}"),
        }
    }
}

// A reader of which the second call fails.
#[derive(Drop)]
struct Halting {
    left: &'static [u8],
    calls: u64,
}

impl Read for Halting {
    fn read(&mut self, buf: &mut [u8]) -> io::Result<usize> {
        self.calls = self.calls.saturating_add(1);
        if self.calls == 2 {
            return Err(io::Error::from(ErrorKind::Interrupted));
        }
        self.left.read(buf)
    }
}

#[test]
fn reads_on_after_a_fault(rt: HostRuntime) {
    let alloc = rt.alloc();
    let source = MemorySource::new(b"hello".to_vec(alloc).expect(&rt, "memory"));
    let failing = [1].to_vec(alloc).expect(&rt, "memory");
    let mut link = Joined::new(Failing::new(source, failing), MemorySink::new(alloc));
    write_link(&mut link, b"asked").expect(&rt, "a write");
    expect_hello(&rt, &mut link);
    assert_eq!(rt; link.sink().bytes(), b"asked".as_slice());

    let source = HostSource::new(Halting {
        left: b"hello",
        calls: 0,
    });
    let mut link = Joined::new(source, MemorySink::new(alloc));
    expect_hello(&rt, &mut link);
}

fn file(rt: &impl Abort, alloc: Global, name: &str, bytes: &str) -> MemoryFile {
    MemoryFile {
        name: String::from_str(alloc, name).expect(rt, "memory"),
        bytes: bytes.as_bytes().to_vec(alloc).expect(rt, "memory"),
    }
}

// Loads a file, of which this text comes, or a fault.
fn expect_load<F: Files>(rt: &(impl Abort + AllocGlobal), files: &mut F, name: &str, want: &str) {
    match files.load(rt.alloc(), name) {
        Ok(bytes) => assert_eq!(rt; bytes.as_slice(), want.as_bytes()),
        Err(fault) => {
            assert_eq!(rt; fault, FileFault::Failed);
            assert_eq!(rt; want, "fault");
        }
    }
}

#[test]
fn loads_files_by_name(rt: HostRuntime) {
    let alloc = rt.alloc();
    let files = vec![in alloc; file(&rt, alloc, "a", "one"), file(&rt, alloc, "b", "two")];
    let files = MemoryFiles::new(alloc, files.expect(&rt, "memory"));
    let failing = [2].to_vec(alloc).expect(&rt, "memory");
    let mut files = Failing::new(files, failing);
    for (name, want) in [
        ("b", "two"),
        ("a", "one"),
        ("b", "fault"),
        ("b", "two"),
        ("c", "fault"),
    ] {
        expect_load(&rt, &mut files, name, want);
    }
    let names = files.inner().names();
    assert_eq!(rt; names.len(), 4);
    for (name, want) in names.iter().zip(["b", "a", "b", "c"]) {
        assert_eq!(rt; name.as_str(), want);
    }
}

// Bytes of which no two pieces of some thousand are alike.
fn pattern(rt: &impl Abort, alloc: Global, len: usize) -> Vec<u8> {
    let mut bytes = Vec::new(alloc);
    for place in 0..len {
        bytes
            .push((place % 65_521 % 251) as u8)
            .expect(rt, "memory");
    }
    bytes
}

// All bytes of a source.
fn read_whole<S: Source>(rt: &impl Abort, alloc: Global, source: &mut S) -> Vec<u8> {
    let mut bytes = Vec::new(alloc);
    let mut buf = [0; 4096];
    for _ in 0..u64::MAX {
        let n = read_some(source, &mut buf).expect(rt, "a read");
        if n == 0 {
            break;
        }
        bytes.extend_from_slice(&buf[..n]).expect(rt, "memory");
    }
    bytes
}

#[test]
fn the_host_keeps_each_of_five_million_bytes(rt: HostRuntime) {
    let name = "the_host_keeps_each_byte.bin";
    let alloc = rt.alloc();
    let bytes = pattern(&rt, alloc, 5_000_000);
    let mut sink = HostSink::new(fs::create(&rt, name).expect(&rt, "a file"));
    write_all_of(&mut sink, &bytes).expect(&rt, "a write");
    let loaded = HostFiles::new(&rt).load(alloc, name);
    let mut source = HostSource::new(fs::open(&rt, name).expect(&rt, "a file"));
    let read = read_whole(&rt, alloc, &mut source);
    fs::remove_file(&rt, name).expect(&rt, "a file");
    let loaded = loaded.expect(&rt, "a load");
    assert!(rt; loaded.as_slice() == bytes.as_slice());
    assert!(rt; read.as_slice() == bytes.as_slice());
}

#[test]
fn the_host_loads_no_byte_above_the_limit(rt: HostRuntime) {
    let name = "the_host_loads_no_byte_above_the_limit.bin";
    let file = fs::create(&rt, name).expect(&rt, "a file");
    let mut files = HostFiles::new(&rt);
    file.set_len(67_108_864).expect(&rt, "a file");
    let longest = files.load(rt.alloc(), name);
    file.set_len(67_108_865).expect(&rt, "a file");
    let longer = files.load(rt.alloc(), name);
    fs::remove_file(&rt, name).expect(&rt, "a file");
    assert_eq!(rt; longest.expect(&rt, "a load").len(), 67_108_864);
    assert_eq!(rt; longer.err(), Some(FileFault::Failed));
}

#[test]
fn adapts_the_host(rt: HostRuntime) {
    let mut files = HostFiles::new(&rt);
    for name in ["absent", "/dev/zero"] {
        let loaded = files.load(rt.alloc(), name);
        assert_eq!(rt; loaded.err(), Some(FileFault::Failed), "{name}");
    }

    // a writer that takes nothing more once it is full
    let mut room = [0; 3];
    let mut sink = HostSink::new(room.as_mut_slice());
    assert_eq!(rt; write_all_of(&mut sink, b"five"), Err(WriteFault));
    assert_eq!(rt; &room, b"fiv");

    let mut stream = HostSink::new(HostStream::Err(rt.stderr()));
    write_all_of(&mut stream, b"six\n").expect(&rt, "a write");
    HostStream::Out(rt.stdout()).flush().expect(&rt, "a flush");
}
