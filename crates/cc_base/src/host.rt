// The files and the streams of the system. Nothing is told of their bytes. Each failure is counted,
// by a count that stays at its greatest value.
ghost use Rattle.std.specs.Prelude.{◌≡◌, None};

use crate::{Failed, FileFault, Files, MAX_FILE_LEN, Sink, Source};
use std::alloc::Global;
use std::io::{self, ErrorKind, Read, Stderr, Stdout, Write};
use std::{fs, rt};

/// The files of the system, by their paths. Nothing is told of what they hold, nor of which were
/// loaded.
#[derive(Drop)]
pub struct HostFiles<R> {
    rt: R,
    faults: u64,
}

impl<R: rt::Files> HostFiles<R> {
    /// The files that this runtime reaches.
    pub fn new(rt: R) -> Self
        ensures { ⟦<Self as Files>⟧.faults result ≡ 0 }
    {
        HostFiles { rt, faults: 0 }
    }
}

// The bytes of a file: of a longer one, one more than a file may have.
fn read_file<R: rt::Files>(rt: &R, alloc: Global, name: &str) -> io::Result<Vec<u8>> {
    let mut bytes = Vec::new(alloc);
    let limit = MAX_FILE_LEN as u64 + 1;
    fs::open(rt, name)?.take(limit).read_to_end(&mut bytes)?;
    Ok(bytes)
}

impl<R: rt::Files> Files for HostFiles<R> {
    ghost faults = { λ f. f.faults };

    ghost contents = { λ _ _. None };

    ghost log = { λ _. None };

    /// At most one byte more than [`MAX_FILE_LEN`] is read.
    fn load(&mut self, alloc: Global, name: &str) -> Result<Vec<u8>, FileFault> {
        match read_file(&self.rt, alloc, name) {
            Ok(bytes) if bytes.len() <= MAX_FILE_LEN => Ok(bytes),
            Err(e) if e.kind() == ErrorKind::OutOfMemory => Err(FileFault::Memory),
            _ => {
                self.faults = self.faults.saturating_add(1);
                Err(FileFault::Failed)
            }
        }
    }
}

/// A stream of the system that is read. Nothing is told of its bytes, and a call that was
/// interrupted (`ErrorKind::Interrupted`) counts as a fault.
#[derive(Drop)]
pub struct HostSource<R> {
    reader: R,
    faults: u64,
}

impl<R: Read> HostSource<R> {
    /// The bytes of this reader.
    pub fn new(reader: R) -> Self
        ensures { ⟦<Self as Source>⟧.faults result ≡ 0 }
    {
        HostSource { reader, faults: 0 }
    }
}

impl<R: Read> Source for HostSource<R> {
    ghost faults = { λ s. s.faults };

    ghost left = { λ _. None };

    ghost beside = { λ _. (0, None) };

    fn read(&mut self, buf: &mut [u8]) -> Result<usize, Failed> {
        match self.reader.read(buf) {
            Ok(n) => Ok(n),
            Err(_) => {
                self.faults = self.faults.saturating_add(1);
                Err(Failed)
            }
        }
    }
}

/// A stream of the system that is written. Nothing is told of its bytes, and a call that was
/// interrupted (`ErrorKind::Interrupted`) counts as a fault. So does one that takes none of some
/// bytes.
#[derive(Drop)]
pub struct HostSink<W> {
    writer: W,
    faults: u64,
}

impl<W: Write> HostSink<W> {
    /// A sink that writes to this writer.
    pub fn new(writer: W) -> Self
        ensures { ⟦<Self as Sink>⟧.faults result ≡ 0 }
    {
        HostSink { writer, faults: 0 }
    }
}

impl<W: Write> Sink for HostSink<W> {
    ghost faults = { λ s. s.faults };

    ghost written = { λ _. None };

    ghost beside = { λ _. (0, None) };

    fn write(&mut self, bytes: &[u8]) -> Result<usize, Failed> {
        match self.writer.write(bytes) {
            Ok(n) if n > 0 || bytes.is_empty() => Ok(n),
            _ => {
                self.faults = self.faults.saturating_add(1);
                Err(Failed)
            }
        }
    }
}

/// The two standard streams that are written, as one type.
#[derive(Drop)]
pub enum HostStream {
    Out(Stdout),
    Err(Stderr),
}

impl Write for HostStream {
    fn write(&mut self, bytes: &[u8]) -> io::Result<usize> {
        match self {
            HostStream::Out(out) => out.write(bytes),
            HostStream::Err(err) => err.write(bytes),
        }
    }

    fn flush(&mut self) -> io::Result<()> {
        match self {
            HostStream::Out(out) => out.flush(),
            HostStream::Err(err) => err.flush(),
        }
    }
}
