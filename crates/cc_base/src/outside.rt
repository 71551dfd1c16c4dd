// The traits of the outside, and reading and writing over them.
ghost use Rattle.std.specs.Prelude.{◌≡◌, ◌<◌, ◌≤◌, ℕ, List, length, take, Option, OnOk, OnErr, IfOk, IfSome, IsErrOf};
ghost use Rattle.cc_base.specs.Outside.{Beside, HasCause, HasRisen, IsLogged, appended, after, IsNext, IsPrefixOut};

use plan_terms::Memory;
use std::alloc::{AllocError, Global};
use thiserror::Error;

/// The longest file that is loaded, in bytes: 64 MiB.
pub const MAX_FILE_LEN: usize = 67_108_864;

/// A call of the outside failed.
#[derive(Clone, Copy, Debug, PartialEq, Eq, Error)]
#[error("a call of the outside failed")]
pub struct Failed;

/// A read failed.
#[derive(Clone, Copy, Debug, PartialEq, Eq, Error)]
#[error("read fault")]
pub struct ReadFault;

/// A write failed.
#[derive(Clone, Copy, Debug, PartialEq, Eq, Error)]
#[error("write fault")]
pub struct WriteFault;

/// Why a file was not loaded.
#[derive(Clone, Copy, Debug, PartialEq, Eq, Error)]
pub enum FileFault {
    /// There is no such file, it is too long, or reading it failed.
    #[error("file fault")]
    Failed,
    /// There was no memory for its bytes. This is no fault of the files.
    #[error("want of memory")]
    Memory,
}

impl From<AllocError> for FileFault {
    ghost use Rattle.cc_base.specs.declared.outside.FileFault.TheVariants as fault;

    ghost from_gives = { λ _ e. e ≡ fault.Memory };

    fn from(_: AllocError) -> Self {
        FileFault::Memory
    }
}

impl From<Memory> for FileFault {
    ghost use Rattle.cc_base.specs.declared.outside.FileFault.TheVariants as fault;

    ghost from_gives = { λ _ e. e ≡ fault.Memory };

    fn from(_: Memory) -> Self {
        FileFault::Memory
    }
}

/// Bytes that come in.
pub trait Source {
    /// How many calls have failed.
    ghost faults: { Self → ℕ };

    /// The bytes that are left, where they are told.
    ghost left: { Self → Option (List ℕ) };

    /// What a link tells of its other side.
    ghost beside: { Self → Beside };

    /// Puts the next bytes at the front of the buffer, and answers how many. `Ok(0)` is the end of
    /// the input.
    ///
    /// # Errors
    ///
    /// `Failed` where the call fails. No byte is lost then: a later call gives what this one would
    /// have given.
    fn read(&mut self, buf: &mut [u8]) -> Result<usize, Failed>
        // There is room to read to.
        requires { 0 < length buf.old }
        // An error is a fault that is counted.
        ensures cause { HasCause (faults self.old) (faults self.new) result }
        // What was read, and what is left.
        ensures fits { IfOk result (λ n. n ≤ length buf.new) }
        ensures next { IfOk result (λ n. IfSome (left self.old) (λ told. IsNext n buf.new told)) }
        ensures left { IfOk result (λ n. left self.new ≡ after n (left self.old)) }
        ensures failed { OnErr result (left self.new ≡ left self.old) }
        // Nothing else changes.
        ensures beside { beside self.new ≡ beside self.old };
}

/// Bytes that go out.
pub trait Sink {
    /// How many calls have failed.
    ghost faults: { Self → ℕ };

    /// The bytes that were written, where they are told.
    ghost written: { Self → Option (List ℕ) };

    /// What a link tells of its other side.
    ghost beside: { Self → Beside };

    /// Writes the first of the bytes, and answers how many: at least one, unless there are none.
    ///
    /// # Errors
    ///
    /// `Failed` where the call fails. Nothing is written then.
    fn write(&mut self, bytes: &[u8]) -> Result<usize, Failed>
        ensures cause { HasCause (faults self.old) (faults self.new) result }
        ensures fits { IfOk result (λ n. n ≤ length bytes.now) }
        ensures some { IfOk result (λ n. 0 < length bytes.now → 0 < n) }
        ensures written { IfOk result
            (λ n. written self.new ≡ appended (written self.old) (take n bytes.now)) }
        ensures failed { OnErr result (written self.new ≡ written self.old) }
        ensures beside { beside self.new ≡ beside self.old };
}

/// Files by name.
pub trait Files {
    /// How many calls have failed.
    ghost faults: { Self → ℕ };

    /// The contents of the file of each name, where they are told.
    ghost contents: { Self → List ℕ → Option (List ℕ) };

    /// The names of the files that were loaded, in the order of the calls, where they are told. A
    /// call that failed may have left its name there too.
    ghost log: { Self → Option (List (List ℕ)) };

    /// All the bytes of a file.
    ///
    /// # Errors
    ///
    /// `FileFault::Failed` where no file has this name, where it is longer than [`MAX_FILE_LEN`]
    /// bytes (67,108,864), and where it cannot be read. `FileFault::Memory` where there is no room
    /// for its bytes, which is no fault.
    fn load(&mut self, alloc: Global, name: &str) -> Result<Vec<u8>, FileFault>
        ensures later { faults self.old ≤ faults self.new }
        ensures cause { IsErrOf result FileFault.Failed
            → HasRisen (faults self.old) (faults self.new) }
        ensures bytes { IfOk result
            (λ v. IfSome (contents self.old name.now) (λ told. v.items ≡ told)) }
        ensures long { IfOk result (λ v. length v.items ≤ 67108864) }
        ensures contents { contents self.new ≡ contents self.old }
        ensures logged { IsLogged (log self.old) (log self.new) name.now result };
}

/// Reads once: the next bytes stand at the front of the buffer, as many as answered. `Ok(0)` is the
/// end of the input.
///
/// # Errors
///
/// `ReadFault` where the source's call failed. No byte is lost then.
pub fn read_some<S: Source>(source: &mut S, buf: &mut [u8]) -> Result<usize, ReadFault>
    // There is room to read to.
    requires { 0 < length buf.old }
    // An error is a fault that is counted.
    ensures cause { HasCause (S.faults source.old) (S.faults source.new) result }
    // What was read, and what is left.
    ensures fits { IfOk result (λ n. n ≤ length buf.new) }
    ensures next { IfOk result (λ n. IfSome (S.left source.old) (λ told. IsNext n buf.new told)) }
    ensures left { IfOk result (λ n. S.left source.new ≡ after n (S.left source.old)) }
    ensures failed { OnErr result (S.left source.new ≡ S.left source.old) }
    // Nothing else changes.
    ensures beside { S.beside source.new ≡ S.beside source.old }
{
    source.read(buf).map_err(|_| ReadFault)
}

/// Writes all the bytes, by as many calls as the sink needs.
///
/// # Errors
///
/// `WriteFault` where a call of the sink failed. The bytes up to there are out, and no others.
pub fn write_all_of<S: Sink>(sink: &mut S, bytes: &[u8]) -> Result<(), WriteFault>
    ensures cause { HasCause (S.faults sink.old) (S.faults sink.new) result }
    ensures written { OnOk result (S.written sink.new ≡ appended (S.written sink.old) bytes.now) }
    ensures prefix { OnErr result
        (IsPrefixOut (S.written sink.old) (S.written sink.new) bytes.now) }
    ensures beside { S.beside sink.new ≡ S.beside sink.old }
{
    let mut done = 0;
    while done < bytes.len() {
        match sink.write(&bytes[done..]) {
            Ok(n) => done += n,
            Err(Failed) => return Err(WriteFault),
        }
    }
    Ok(())
}
